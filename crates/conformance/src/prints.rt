// The text of a facet, in buffers too short, just long enough and longer.
ghost use Rattle.std.specs.Prelude.{◌≡◌, true};

use crate::cases::{Quoted, Refusal};
use facet::{Facet, FacetFault};
use std::io;

const ENCODINGS: [&[u8]; 9] = [
    b"",
    b"a",
    b"a\x00b",
    b"a\x00",
    b"\x00",
    b"/",
    b"\\",
    b"a/b",
    b"a\\/\x00b",
];

// Whether the text of a facet is read as that facet.
fn reads_back(facet: &Facet) -> bool
    ensures { result ≡ true }
{
    match facet.reread() {
        Ok(again) => again == *facet,
        Err(_) => false,
    }
}

fn texts(rt: &HostRuntime) -> io::Result<()> {
    for encoding in ENCODINGS {
        let from = Quoted(encoding);
        if let Ok(facet) = Facet::from_encoded(encoding) {
            let back = reads_back(&facet);
            println!(rt; "text of {from}: {facet}, reads back {back}")?;
        }
    }
    Ok(())
}

fn show_written(rt: &HostRuntime, written: Result<usize, FacetFault>) -> io::Result<()> {
    match written {
        Ok(len) => print!(rt; "ok, {len} bytes"),
        Err(fault) => rt.print(Refusal(fault)),
    }
}

// Prints into a buffer, and shows what the buffer holds then.
fn show_buffer(rt: &HostRuntime, facet: &Facet, buffer: &mut [u8]) -> io::Result<()> {
    let room = buffer.len();
    print!(rt; "print {facet} into {room} bytes: ")?;
    show_written(rt, facet.print(buffer))?;
    let held = Quoted(buffer);
    println!(rt; ", buffer {held}")
}

fn buffers(rt: &HostRuntime) -> io::Result<()> {
    let root = Facet::root();
    show_buffer(rt, &root, &mut [b'?'; 0])?;
    show_buffer(rt, &root, &mut [b'?'; 1])?;
    show_buffer(rt, &root, &mut [b'?'; 3])?;
    if let Ok(facet) = Facet::from_encoded(b"a/b") {
        show_buffer(rt, &facet, &mut [b'?'; 4])?;
        show_buffer(rt, &facet, &mut [b'?'; 5])?;
        show_buffer(rt, &facet, &mut [b'?'; 8])?;
    }
    Ok(())
}

// The longest text is that of 127 slashes.
fn longest(rt: &HostRuntime) -> io::Result<()> {
    let turns = "/\\".repeat(rt.alloc(), 128)?;
    let text = &turns.as_bytes()[0..255];
    let Ok(facet) = Facet::from_text(text) else {
        return println!(rt; "127 slashes: refused");
    };
    let mut short = [b'?'; 254];
    print!(rt; "print 127 slashes into 254 bytes: ")?;
    show_written(rt, facet.print(&mut short))?;
    let unchanged = short == [b'?'; 254];
    println!(rt; ", unchanged {unchanged}")?;
    let mut exact = [b'?'; 255];
    print!(rt; "print 127 slashes into 255 bytes: ")?;
    show_written(rt, facet.print(&mut exact))?;
    let same = exact.as_slice() == text;
    let back = reads_back(&facet);
    println!(rt; ", same text {same}, reads back {back}")
}

pub fn run(rt: &HostRuntime) -> io::Result<()> {
    texts(rt)?;
    buffers(rt)?;
    longest(rt)
}
