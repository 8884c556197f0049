// Columns that fail one question or several, and the places told.
use crate::cases::{Quoted, Refusal};
use segment::{Column, Tables};
use std::{fmt, io};

// Numbers with blanks between them.
#[derive(Clone, Copy)]
pub struct Numbers<'a>(pub &'a [u32]);

impl<'a> fmt::Display for Numbers<'a> {
    fn fmt<W: fmt::Write>(&self, f: &mut fmt::Formatter<W>) -> fmt::Result {
        let [first, rest @ ..] = self.0 else {
            return f.write_str("none");
        };
        write!(f, "{first}")?;
        for number in rest {
            write!(f, " {number}")?;
        }
        Ok(())
    }
}

// The tables of terms without rows.
pub fn only_terms<'a>(term_bytes: &'a [u8], term_ends: &'a [u32]) -> Tables<'a> {
    Tables {
        term_bytes,
        term_ends,
        row_ends: &[],
        ordinals: &[],
    }
}

pub fn show_column(rt: &HostRuntime, column: &Column) -> io::Result<()> {
    let terms = column.num_terms();
    let rows = column.num_rows();
    println!(rt; "{terms} terms, {rows} rows")
}

// Checks the tables, and shows how much a column of them holds.
pub fn answer(rt: &HostRuntime, t: Tables) -> io::Result<()> {
    match Column::check(t) {
        Ok(()) => print!(rt; "ok, ")?,
        Err(fault) => {
            let why = Refusal(fault);
            print!(rt; "{why}, ")?;
        }
    }
    show_column(rt, &Column::new(t))
}

fn case(rt: &HostRuntime, t: Tables) -> io::Result<()> {
    let bytes = Quoted(t.term_bytes);
    let ends = Numbers(t.term_ends);
    let ordinals = Numbers(t.ordinals);
    let row_ends = Numbers(t.row_ends);
    print!(rt; "terms {bytes} with ends {ends}, ")?;
    print!(rt; "ordinals {ordinals} with row ends {row_ends}: ")?;
    answer(rt, t)
}

// Terms by their bytes and ends.
const TERMS: [(&[u8], &[u32]); 34] = [
    (b"", &[]),
    // an end falls
    (b"ab", &[2, 1, 2]),
    (b"abc", &[1, 3, 2, 3]),
    (b"abcd", &[2, 1, 4, 3, 4]),
    (b"ab", &[1, 0]),
    // the last end is short
    (b"a", &[]),
    (b"ab", &[1]),
    (b"abc", &[1, 2]),
    // the last end is long
    (b"", &[1]),
    (b"ab", &[1, 3]),
    (b"a", &[4_294_967_295]),
    // not UTF-8
    (b"a\xff", &[1, 2]),
    (b"\xc3\xa9", &[1, 2]),
    (b"\xc3\xa9", &[2]),
    // an empty step
    (b"\x00", &[1]),
    (b"\x00a", &[2]),
    (b"a\x00\x00b", &[4]),
    (b"a\x00", &[2]),
    (b"ab\x00", &[1, 3]),
    (b"a\x00b", &[3]),
    // the root
    (b"", &[0]),
    (b"a", &[0, 1]),
    (b"a", &[1, 1]),
    (b"", &[0, 0]),
    // equal, falling and rising terms
    (b"aa", &[1, 2]),
    (b"ba", &[1, 2]),
    (b"acb", &[1, 2, 3]),
    (b"aba", &[2, 3]),
    (b"aab", &[1, 3]),
    (b"a\x00xab", &[3, 5]),
    (b"aba\x00x", &[2, 5]),
    (b"\x7f\xc2\x80", &[1, 3]),
    (b"\xc2\x80\x7f", &[2, 3]),
    // each question is asked of all terms before the next
    (b"\x00\xff", &[1, 2]),
];

fn terms(rt: &HostRuntime) -> io::Result<()> {
    for (term_bytes, term_ends) in TERMS {
        case(rt, only_terms(term_bytes, term_ends))?;
    }
    Ok(())
}

// Terms over rows that fail every question of theirs: the first terms do too, and each other passes one more.
const FAILING: [(&[u8], &[u32]); 5] = [
    (b"b\xffa\x00", &[1, 2, 3]),
    (b"b\xffa\x00", &[1, 2, 4]),
    (b"bca\x00", &[1, 2, 4]),
    (b"bcad", &[1, 2, 4]),
    (b"bcd", &[1, 2, 3]),
];

fn terms_before_rows(rt: &HostRuntime) -> io::Result<()> {
    for (term_bytes, term_ends) in FAILING {
        case(
            rt,
            Tables {
                term_bytes,
                term_ends,
                row_ends: &[2, 1],
                ordinals: &[3, 0],
            },
        )?;
    }
    Ok(())
}

// Rows of two terms by their ordinals and ends.
const ROWS: [(&[u32], &[u32]); 23] = [
    (&[], &[]),
    (&[], &[0]),
    (&[0, 1], &[2]),
    (&[0, 1], &[0, 1, 1, 2]),
    // an end falls
    (&[0, 1], &[2, 1, 2]),
    (&[0, 1], &[1, 0]),
    // the last end is short
    (&[0], &[]),
    (&[0, 1], &[1]),
    // the last end is long
    (&[0], &[2]),
    (&[0, 1], &[1, 3]),
    (&[0], &[4_294_967_295]),
    // there is no such term
    (&[2], &[1]),
    (&[1, 2], &[1, 2]),
    (&[4_294_967_295], &[1]),
    (&[1, 0, 2], &[2, 3]),
    // an ordinal falls within its row
    (&[1, 0], &[2]),
    (&[0, 1, 0], &[1, 3]),
    (&[1, 0, 1, 0], &[1, 2, 2, 4]),
    // several fail
    (&[2, 0], &[2, 1]),
    (&[2, 0], &[2]),
    // equal ordinals, and those that fall from one row to the next
    (&[1, 1], &[2]),
    (&[1, 0], &[1, 2]),
    (&[1, 0], &[1, 1, 2]),
];

fn rows(rt: &HostRuntime) -> io::Result<()> {
    for (ordinals, row_ends) in ROWS {
        case(
            rt,
            Tables {
                term_bytes: b"ab",
                term_ends: &[1, 2],
                row_ends,
                ordinals,
            },
        )?;
    }
    Ok(())
}

fn rows_of_no_terms(rt: &HostRuntime) -> io::Result<()> {
    case(
        rt,
        Tables {
            term_bytes: b"",
            term_ends: &[],
            row_ends: &[1],
            ordinals: &[0],
        },
    )
}

pub fn run(rt: &HostRuntime) -> io::Result<()> {
    terms(rt)?;
    terms_before_rows(rt)?;
    rows(rt)?;
    rows_of_no_terms(rt)
}
