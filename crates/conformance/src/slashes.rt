// Slashes, backslashes and byte 00 at either end of a text and inside it.
use crate::cases::{short_encoding, short_text};
use std::io;

const TEXTS: [&[u8]; 27] = [
    b"",
    b"/",
    b"//",
    b"///",
    b"/a",
    b"/a/",
    b"/a/b",
    b"/a//b",
    b"//a",
    b"a",
    b"a/b",
    b"\\",
    b"\\/",
    b"\x00",
    b"\xff",
    b"/\\",
    b"/\\\\",
    b"/\\\\\\",
    b"/\\/",
    b"/\\a",
    b"/a\\",
    b"/a\\/b",
    b"/a\\\\/b",
    b"/a\x00b",
    b"/\\\x00",
    b"/\\\xc3\xa9",
    b"/\xc3\\\xa9",
];

const ENCODINGS: [&[u8]; 8] = [
    b"",
    b"a",
    b"a\x00",
    b"\x00",
    b"\x00\x00a",
    b"/",
    b"\\",
    b"a\\/\x00b",
];

pub fn run(rt: &HostRuntime) -> io::Result<()> {
    for text in TEXTS {
        short_text(rt, text)?;
    }
    for encoding in ENCODINGS {
        short_encoding(rt, encoding)?;
    }
    Ok(())
}
