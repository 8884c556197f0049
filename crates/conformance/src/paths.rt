// Which facet is above which, the child on the way, and the order.
use crate::cases::Quoted;
use facet::{Facet, step_end};
use std::io;

const PAIRS: [(&str, &str); 17] = [
    ("/", "/"),
    ("/", "/a"),
    ("/", "/a/b/c"),
    ("/", "//"),
    ("/", "//x"),
    ("/a", "/"),
    ("/a", "/a"),
    ("/a", "/a/"),
    ("/a", "/a/x"),
    ("/a", "/a/b/c"),
    ("/a", "/a//b"),
    ("/a", "/ab"),
    ("/a", "/a\\/x"),
    ("/a", "/b/x"),
    ("/a/x", "/ab"),
    ("//", "//x"),
    ("//", "///x"),
];

fn show_pair(rt: &HostRuntime, first: &Facet, second: &Facet) -> io::Result<()> {
    let above = first.is_prefix_of(second);
    let under = second.is_at_or_below(first);
    print!(rt; "{first} and {second}: above {above}, at or below {under}, ")?;
    match first.child_toward(second) {
        Some(child) => print!(rt; "child {child}, ")?,
        None => print!(rt; "no child, ")?,
    }
    let order = first.cmp(second);
    let back = second.cmp(first);
    let same = *first == *second;
    println!(rt; "{order:?}, back {back:?}, equal {same}")
}

fn pairs(rt: &HostRuntime) -> io::Result<()> {
    for (first, second) in PAIRS {
        if let Ok(a) = Facet::from_text(first.as_bytes())
            && let Ok(b) = Facet::from_text(second.as_bytes())
        {
            show_pair(rt, &a, &b)?;
        }
    }
    Ok(())
}

// Bytes compare as unsigned numbers.
fn high_bytes(rt: &HostRuntime) -> io::Result<()> {
    if let Ok(low) = Facet::from_encoded(b"\x7f")
        && let Ok(high) = Facet::from_encoded(b"\xc2\x80")
    {
        let order = low.cmp(&high);
        let back = high.cmp(&low);
        let below = low < high;
        println!(rt; "7F and C2 80: {order:?}, back {back:?}, below {below}")?;
    }
    Ok(())
}

const PARTS: [&[u8]; 5] = [b"", b"a", b"abc\x00d", b"\x00a", b"ab\x00"];

const PARENTS: [&str; 4] = ["/", "/a", "/a/b", "//"];

fn steps(rt: &HostRuntime) -> io::Result<()> {
    for part in PARTS {
        let shown = Quoted(part);
        let end = step_end(part);
        println!(rt; "first step of {shown}: {end} bytes")?;
    }
    for parent in PARENTS {
        if let Ok(facet) = Facet::from_text(parent.as_bytes()) {
            let offset = facet.child_offset();
            println!(rt; "step below {parent}: from byte {offset}")?;
        }
    }
    Ok(())
}

pub fn run(rt: &HostRuntime) -> io::Result<()> {
    pairs(rt)?;
    high_bytes(rt)?;
    steps(rt)
}
