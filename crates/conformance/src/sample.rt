// A small segment, and what is read back of it.
use crate::cases::Quoted;
use crate::columns::{Numbers, answer};
use segment::{Column, Tables};
use std::io;

// The terms /a, /a/x, /a/x/p, /a/x/q, /a/xy and /b, and five documents.
pub const SAMPLE: Tables = Tables {
    term_bytes: b"aa\x00xa\x00x\x00pa\x00x\x00qa\x00xyb",
    term_ends: &[1, 4, 9, 14, 18, 19],
    row_ends: &[2, 3, 5, 5, 7],
    ordinals: &[2, 3, 4, 0, 5, 1, 4],
};

const ORDINALS: [u32; 8] = [0, 1, 2, 3, 4, 5, 6, 4_294_967_295];

const DOCS: [u32; 7] = [0, 1, 2, 3, 4, 5, 4_294_967_295];

fn term(rt: &HostRuntime, column: &Column, ordinal: u32) -> io::Result<()> {
    match column.term(ordinal) {
        Some(bytes) => {
            let shown = Quoted(bytes);
            print!(rt; "sample, term {ordinal}: {shown}")?;
        }
        None => print!(rt; "sample, term {ordinal}: no such term")?,
    }
    match column.facet(ordinal) {
        Some(facet) => println!(rt; ", {facet}"),
        None => println!(rt; ", no facet"),
    }
}

fn row(rt: &HostRuntime, column: &Column, doc: u32) -> io::Result<()> {
    match column.row(doc) {
        Some(ordinals) => {
            let shown = Numbers(ordinals);
            println!(rt; "sample, row {doc}: {shown}")
        }
        None => println!(rt; "sample, row {doc}: no such row"),
    }
}

pub fn run(rt: &HostRuntime) -> io::Result<()> {
    print!(rt; "sample: ")?;
    answer(rt, SAMPLE)?;
    let column = Column::new(SAMPLE);
    for ordinal in ORDINALS {
        term(rt, &column, ordinal)?;
    }
    for doc in DOCS {
        row(rt, &column, doc)?;
    }
    Ok(())
}
