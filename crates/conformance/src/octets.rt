// Text that is UTF-8 and text that is not.
use crate::cases::{short_encoding, short_text};
use std::io;

const BROKEN: [&[u8]; 18] = [
    // a tail alone
    b"/\x80",
    b"/\xbf",
    // longer than it has to be
    b"/\xc0\x80",
    b"/\xc1\xbf",
    b"/\xe0\x9f\xbf",
    b"/\xf0\x8f\xbf\xbf",
    // surrogates
    b"/\xed\xa0\x80",
    b"/\xed\xbf\xbf",
    // above 10FFFF
    b"/\xf4\x90\x80\x80",
    b"/\xf5\x80\x80\x80",
    b"/\xff",
    // cut off
    b"/\xc3",
    b"/\xe2\x82",
    b"/\xf0\x9f\x92",
    // cut off by a letter
    b"/\xc3a",
    b"/\xe2\x82a",
    b"/\xf0\x9f\x92a",
    // a tail too many
    b"/\xc3\xa9\xa9",
];

const GOOD: [&[u8]; 10] = [
    b"/\x01",
    b"/\x7f",
    b"/\xc2\x80",
    b"/\xdf\xbf",
    b"/\xe0\xa0\x80",
    b"/\xed\x9f\xbf",
    b"/\xee\x80\x80",
    b"/\xef\xbf\xbf",
    b"/\xf0\x90\x80\x80",
    b"/\xf4\x8f\xbf\xbf",
];

fn both(rt: &HostRuntime, text: &[u8]) -> io::Result<()> {
    short_text(rt, text)?;
    let [_, encoding @ ..] = text else {
        return Ok(());
    };
    short_encoding(rt, encoding)
}

pub fn run(rt: &HostRuntime) -> io::Result<()> {
    for text in BROKEN {
        both(rt, text)?;
    }
    for text in GOOD {
        both(rt, text)?;
    }
    Ok(())
}
