// A facet has at most 127 bytes, and its text at most 255.
use crate::cases::{long_encoding, long_text};
use std::io;

fn letters(rt: &HostRuntime) -> io::Result<()> {
    let mut text = [b'a'; 257];
    text[0] = b'/';
    long_text(rt, "126 letters", &text[0..127])?;
    long_text(rt, "127 letters", &text[0..128])?;
    long_text(rt, "128 letters", &text[0..129])?;
    long_text(rt, "254 letters", &text[0..255])?;
    long_text(rt, "255 letters", &text[0..256])?;
    long_text(rt, "256 letters", &text)?;
    long_encoding(rt, "127 letters", &text[1..128])?;
    long_encoding(rt, "128 letters", &text[1..129])
}

// The length of a text is asked first, then UTF-8, then the slash, then the length of the facet.
fn order_of_questions(rt: &HostRuntime) -> io::Result<()> {
    let letters = [b'a'; 256];
    let broken = [0xff; 256];
    long_text(rt, "256 times FF", &broken)?;
    long_text(rt, "255 times FF", &broken[0..255])?;
    long_text(rt, "256 letters and no slash", &letters)?;
    long_text(rt, "255 letters and no slash", &letters[0..255])?;
    long_encoding(rt, "128 times FF", &broken[0..128])?;
    long_encoding(rt, "127 times FF", &broken[0..127])
}

// The limit of a text holds before the backslashes are dropped, and that of a facet behind them.
fn escapes(rt: &HostRuntime) -> io::Result<()> {
    let turns = "/\\".repeat(rt.alloc(), 128)?;
    let text = turns.as_bytes();
    long_text(rt, "127 slashes, 255 bytes", &text[0..255])?;
    long_text(rt, "127 slashes and a backslash, 256 bytes", text)?;
    let mut letters = [b'a'; 129];
    letters[0] = b'/';
    letters[128] = b'\\';
    long_text(rt, "127 letters and a backslash", &letters)?;
    let separators = [b'/'; 129];
    long_text(rt, "128 empty steps", &separators[0..128])?;
    long_text(rt, "129 empty steps", &separators)
}

// A letter of two bytes at the limit is taken whole or not at all.
fn wide_letters(rt: &HostRuntime) -> io::Result<()> {
    let mut text = [b'a'; 129];
    text[0] = b'/';
    text[126] = 0xc3;
    text[127] = 0xa9;
    long_text(rt, "125 letters and C3 A9", &text[0..128])?;
    long_encoding(rt, "125 letters and C3 A9", &text[1..128])?;
    text[126] = b'a';
    text[127] = 0xc3;
    text[128] = 0xa9;
    long_text(rt, "126 letters and C3 A9", &text)?;
    long_text(rt, "126 letters and C3", &text[0..128])?;
    long_encoding(rt, "126 letters and C3 A9", &text[1..129])?;
    long_encoding(rt, "126 letters and C3", &text[1..128])
}

pub fn run(rt: &HostRuntime) -> io::Result<()> {
    letters(rt)?;
    order_of_questions(rt)?;
    escapes(rt)?;
    wide_letters(rt)
}
