// A facet from its text or its encoding.
ghost use Rattle.std.specs.Prelude.{◌≡◌, ◌<◌, true, false, [], ◌∷◌, length, IsNone, IfSome};
ghost use Rattle.std.specs.Iterator.{YieldsFirst, item_count};
ghost use Rattle.facet.specs.Reading.{limited, read, decoded};
ghost use Rattle.facet.specs.Text.{unescaped};
ghost use Rattle.utf8.specs.Octets.{utf8};

use super::{Facet, SEPARATOR};
use crate::fault::FacetFault;
use utf8::is_utf8;

// The first byte that the text stands for, and the text behind it.
fn next_byte(text: &[u8]) -> Option<(u8, &[u8])>
    ensures none { IsNone result → unescaped false text.now ≡ [] }
    ensures some { IfSome result (λ p. unescaped false text.now ≡ p.0 ∷ unescaped false p.1.now) }
    ensures shorter { IfSome result (λ p. length p.1.now < length text.now) }
{
    // nested, since flat patterns ask for the length once more at each byte
    match text {
        [b'\\', rest @ ..] => match rest {
            [taken, after @ ..] => Some((*taken, after)),
            [] => None,
        },
        [b'/', after @ ..] => Some((SEPARATOR, after)),
        [b, after @ ..] => Some((*b, after)),
        [] => None,
    }
}

// The bytes that the text behind the first slash stands for.
#[derive(Drop)]
struct Unescaped<'a> {
    left: &'a [u8],
}

impl<'a> Iterator for Unescaped<'a> {
    type Item = u8;

    ghost next_gives = { YieldsFirst (λ s. unescaped false s.left.now) };

    ghost remaining = { item_count (λ s. unescaped false s.left.now) };

    fn next(&mut self) -> Option<u8> {
        let (b, after) = next_byte(self.left)?;
        self.left = after;
        Some(b)
    }
}

// The facet of the text behind the first slash.
fn unescape(text: &[u8]) -> Result<Facet, FacetFault>
    requires { utf8 text.now ≡ true }
    ensures { result ≡ limited (unescaped false text.now) }
{
    // by place into an array: a facet is Copy, and nothing is on the heap
    let mut bytes = [0; 127];
    let mut len: u8 = 0;
    for b in (Unescaped { left: text }) {
        if len == 127 {
            return Err(FacetFault::TooLong);
        }
        bytes[len as usize] = b;
        len += 1;
    }
    Ok(Facet { bytes, len })
}

impl Facet {
    // A slash, and then the steps with a slash between them; a backslash takes the next byte as it is.
    pub fn from_text(text: &[u8]) -> Result<Facet, FacetFault>
        ensures { result ≡ read text.now }
    {
        if text.len() > 255 {
            return Err(FacetFault::TextTooLong);
        }
        if !is_utf8(text) {
            return Err(FacetFault::NotUtf8);
        }
        let [b'/', rest @ ..] = text else {
            return Err(FacetFault::NoSlash);
        };
        unescape(rest)
    }

    // Both readings take bytes, and have the names of tantivy: a `TryFrom` could be only one of them.
    pub fn from_encoded(encoded: &[u8]) -> Result<Facet, FacetFault>
        ensures { result ≡ decoded encoded.now }
    {
        if encoded.len() > 127 {
            return Err(FacetFault::TooLong);
        }
        if !is_utf8(encoded) {
            return Err(FacetFault::NotUtf8);
        }
        Ok(Facet::hold(encoded))
    }
}
