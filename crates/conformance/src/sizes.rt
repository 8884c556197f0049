// A column has at most 4,096 terms of at most 127 bytes, and at most 65,535 rows.
use crate::columns::{answer, only_terms};
use segment::Tables;
use std::alloc::{AllocError, Global};
use std::io;

fn terms<'a>(
    rt: &HostRuntime,
    name: &str,
    term_bytes: &'a [u8],
    term_ends: &'a [u32],
) -> io::Result<()> {
    print!(rt; "{name}: ")?;
    answer(rt, only_terms(term_bytes, term_ends))
}

// 64 times 64 terms of two bytes.
fn many_bytes(heap: Global) -> Result<Vec<u8>, AllocError> {
    let mut bytes = Vec::new(heap);
    for first in 0x30..0x70 {
        for second in 0x30..0x70 {
            bytes.push(first)?;
            bytes.push(second)?;
        }
    }
    Ok(bytes)
}

fn many_ends(heap: Global) -> Result<Vec<u32>, AllocError> {
    (1..4097).map(|i| 2 * i).collect(heap)
}

fn many_terms(rt: &HostRuntime) -> io::Result<()> {
    let mut bytes = many_bytes(rt.alloc())?;
    let mut ends = many_ends(rt.alloc())?;
    terms(rt, "4096 terms", bytes.as_slice(), ends.as_slice())?;
    bytes.push(0x70)?;
    ends.push(8193)?;
    terms(rt, "4097 terms", bytes.as_slice(), ends.as_slice())
}

fn long_terms(rt: &HostRuntime) -> io::Result<()> {
    let letters = [b'a'; 129];
    terms(rt, "a term of 127 bytes", &letters[0..127], &[127])?;
    terms(rt, "a term of 128 bytes", &letters[0..128], &[128])?;
    terms(rt, "terms of 1 and 127 bytes", &letters[0..128], &[1, 128])?;
    terms(rt, "terms of 1 and 128 bytes", &letters, &[1, 129])
}

fn rows<'a>(
    rt: &HostRuntime,
    name: &str,
    row_ends: &'a [u32],
    ordinals: &'a [u32],
) -> io::Result<()> {
    print!(rt; "{name}: ")?;
    answer(
        rt,
        Tables {
            term_bytes: b"a",
            term_ends: &[1],
            row_ends,
            ordinals,
        },
    )
}

fn many_rows(rt: &HostRuntime) -> io::Result<()> {
    let mut ends = vec![in rt.alloc(); 0; 65535]?;
    rows(rt, "65535 empty rows", ends.as_slice(), &[])?;
    ends.push(0)?;
    rows(rt, "65536 empty rows", ends.as_slice(), &[])?;
    // a row has no limit
    let ordinals = vec![in rt.alloc(); 0; 65536]?;
    rows(rt, "a row of 65536 ordinals", &[65536], ordinals.as_slice())
}

// The size is asked first.
fn order_of_questions(rt: &HostRuntime) -> io::Result<()> {
    let mut term_ends = vec![in rt.alloc(); 1; 4096]?;
    terms(rt, "4096 ends and no bytes", b"", term_ends.as_slice())?;
    term_ends.push(1)?;
    terms(rt, "4097 ends and no bytes", b"", term_ends.as_slice())?;
    let mut row_ends = vec![in rt.alloc(); 1; 65535]?;
    rows(
        rt,
        "65535 row ends and no ordinals",
        row_ends.as_slice(),
        &[],
    )?;
    row_ends.push(1)?;
    rows(
        rt,
        "65536 row ends and no ordinals",
        row_ends.as_slice(),
        &[],
    )
}

pub fn run(rt: &HostRuntime) -> io::Result<()> {
    many_terms(rt)?;
    long_terms(rt)?;
    many_rows(rt)?;
    order_of_questions(rt)
}
