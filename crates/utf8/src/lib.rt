// UTF-8 by a table of lead bytes.
#![tactic(auto)]

ghost use Rattle.std.specs.Prelude.{◌≡◌, ◌<◌, ◌≤◌, true, false, length, IsUtf8, Decides, IsNone, IfSome};
ghost use Rattle.utf8.specs.Octets.{utf8, octets, within, tail};
ghost use Rattle.utf8.specs.Rows.{lead, row_says, tails};

// What follows a lead byte: how many bytes the sequence has, and the bounds of the second. A length in a row is a number, as
// the table is by definition.
#[derive(Clone, Copy)]
struct Row {
    len: u8,
    low: u8,
    high: u8,
}

const TWO: Row = Row {
    len: 2,
    low: 0x80,
    high: 0xbf,
};

const THREE: Row = Row {
    len: 3,
    low: 0x80,
    high: 0xbf,
};

const FOUR: Row = Row {
    len: 4,
    low: 0x80,
    high: 0xbf,
};

// What is below 0xa0 here has a sequence of two.
const AFTER_E0: Row = Row {
    len: 3,
    low: 0xa0,
    high: 0xbf,
};

// What is above 0x9f here is a surrogate.
const AFTER_ED: Row = Row {
    len: 3,
    low: 0x80,
    high: 0x9f,
};

// What is below 0x90 here has a sequence of three.
const AFTER_F0: Row = Row {
    len: 4,
    low: 0x90,
    high: 0xbf,
};

// What is above 0x8f here is above U+10FFFF.
const AFTER_F4: Row = Row {
    len: 4,
    low: 0x80,
    high: 0x8f,
};

const FIRST_LEAD: u8 = 0xc2;

// The rows of the lead bytes, C2 to F4.
const ROWS: [Row; 51] = [
    TWO, TWO, TWO, TWO, TWO, TWO, TWO, TWO, TWO, TWO, TWO, TWO, TWO, TWO, TWO, TWO, TWO, TWO, TWO,
    TWO, TWO, TWO, TWO, TWO, TWO, TWO, TWO, TWO, TWO, TWO, AFTER_E0, THREE, THREE, THREE, THREE,
    THREE, THREE, THREE, THREE, THREE, THREE, THREE, THREE, AFTER_ED, THREE, THREE, AFTER_F0, FOUR,
    FOUR, FOUR, AFTER_F4,
];

fn row_of(byte: u8) -> Option<Row>
    ensures none { IsNone result → lead byte ≡ false }
    ensures some { IfSome result (λ _. lead byte ≡ true) }
    ensures row { IfSome result (λ r. row_says byte r ≡ true) }
{
    let place = byte.checked_sub(FIRST_LEAD)?;
    ROWS.get(place as usize).copied()
}

fn is_tail(byte: u8) -> bool
    ensures { result ≡ within tail byte }
{
    matches!(byte, 0x80..=0xbf)
}

// What is left behind the tails of a sequence of `len` bytes, of which the first two are gone.
fn after_tails(len: u8, bytes: &[u8]) -> Option<&[u8]>
    requires low { 2 ≤ len }
    requires high { len ≤ 4 }
    ensures none { IsNone result → octets (tails len) bytes.now ≡ false }
    ensures same { IfSome result (λ rest. octets (tails len) bytes.now ≡ utf8 rest.now) }
    ensures shorter { IfSome result (λ rest. length rest.now ≤ length bytes.now) }
{
    match (len, bytes) {
        (2, rest) => Some(rest),
        (3, [third, rest @ ..]) if is_tail(*third) => Some(rest),
        (4, [third, fourth, rest @ ..]) if is_tail(*third) && is_tail(*fourth) => Some(rest),
        _ => None,
    }
}

// What is left behind the first character.
fn after_char(bytes: &[u8]) -> Option<&[u8]>
    requires { 0 < length bytes.now }
    ensures none { IsNone result → utf8 bytes.now ≡ false }
    ensures same { IfSome result (λ rest. utf8 bytes.now ≡ utf8 rest.now) }
    ensures shorter { IfSome result (λ rest. length rest.now < length bytes.now) }
{
    match bytes {
        [ascii, rest @ ..] if ascii.is_ascii() => Some(rest),
        [lead, second, rest @ ..] => {
            let row = row_of(*lead)?;
            if !(row.low..=row.high).contains(second) {
                return None;
            }
            after_tails(row.len, rest)
        }
        _ => None,
    }
}

// Whether the bytes are UTF-8: by the grammar, and as std's text is.
pub fn is_utf8(bytes: &[u8]) -> bool
    ensures grammar { result ≡ utf8 bytes.now }
    ensures text { Decides result (IsUtf8 bytes.now) }
{
    // a loop: an iterator of characters would be no plainer
    let mut left = bytes;
    while !left.is_empty() {
        let Some(rest) = after_char(left) else {
            return false;
        };
        left = rest;
    }
    true
}
