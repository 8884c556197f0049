// Blocks of at most 64 documents.
use docset::{AllDocs, DocSet, Held, doc_at};
use std::alloc::{AllocError, Global};
use std::io;

// What the buffer holds before a call.
const FREE: u32 = 4_000_000_000;

// A block of the documents, and the document behind it.
fn block<S: DocSet>(rt: &HostRuntime, docs: &mut S) -> io::Result<()> {
    let mut buffer = [FREE; 64];
    let len = docs.fill_buffer(&mut buffer);
    let next = docs.doc();
    print!(rt; "{len} taken, ")?;
    let taken = &buffer[0..len];
    if let Some(first) = taken.first()
        && let Some(last) = taken.last()
    {
        print!(rt; "{first} to {last}, ")?;
    }
    let rest = &buffer[len..];
    let left = rest.len();
    let same = rest.iter().all(|number| *number == FREE);
    println!(rt; "{left} unchanged {same}, next {next}")
}

fn blocks<S: DocSet>(rt: &HostRuntime, name: &str, docs: &mut S) -> io::Result<()> {
    for call in 1..4 {
        print!(rt; "{name}, call {call}: ")?;
        block(rt, docs)?;
    }
    Ok(())
}

// Every third document.
fn thirds(heap: Global, count: u32) -> Result<Vec<u32>, AllocError> {
    (0..count).map(|i| i.wrapping_mul(3)).collect(heap)
}

fn held(rt: &HostRuntime, name: &str, count: u32) -> io::Result<()> {
    let docs = thirds(rt.alloc(), count)?;
    let scores = vec![in rt.alloc(); 0.5; docs.len()]?;
    blocks(rt, name, &mut Held::new(docs.as_slice(), scores.as_slice()))
}

// The buffer keeps what a shorter block does not write over.
fn twice(rt: &HostRuntime) -> io::Result<()> {
    let mut docs = AllDocs::new(66);
    let mut buffer = [FREE; 64];
    let first = docs.fill_buffer(&mut buffer);
    let second = docs.fill_buffer(&mut buffer);
    let [a, b, c, .., d] = buffer;
    println!(rt;
        "66 documents into one buffer: {first} taken, {second} taken, then {a} {b} {c} to {d}"
    )
}

pub fn run(rt: &HostRuntime) -> io::Result<()> {
    blocks(rt, "all below 0", &mut AllDocs::new(0))?;
    blocks(rt, "all below 63", &mut AllDocs::new(63))?;
    blocks(rt, "all below 64", &mut AllDocs::new(64))?;
    blocks(rt, "all below 65", &mut AllDocs::new(65))?;
    held(rt, "63 thirds", 63)?;
    held(rt, "64 thirds", 64)?;
    held(rt, "65 thirds", 65)?;
    twice(rt)?;
    for place in [0, 63, 64, 65] {
        let doc = doc_at(AllDocs::new(65), place);
        println!(rt; "place {place} of 65: {doc}")?;
    }
    Ok(())
}
