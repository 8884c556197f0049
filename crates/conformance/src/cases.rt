// How a case is printed.
use docset::ScorerFault;
use facet::{Facet, FacetFault};
use segment::{ColumnFault, SegmentFault};
use std::{fmt, io};

// Bytes in quotes, with those that are no visible ASCII in hex.
#[derive(Clone, Copy)]
pub struct Quoted<'a>(pub &'a [u8]);

impl<'a> fmt::Display for Quoted<'a> {
    fn fmt<W: fmt::Write>(&self, f: &mut fmt::Formatter<W>) -> fmt::Result {
        f.write_char('"')?;
        for b in self.0 {
            if b.is_ascii_graphic() {
                f.write_char(char::from(*b))?;
            } else {
                write!(f, "<{b:02X}>")?;
            }
        }
        f.write_char('"')
    }
}

// A fault that has a number, and perhaps the place of what fails.
pub trait Numbered: fmt::Display {
    fn number(&self) -> u8;

    fn place(&self) -> Option<usize> {
        None
    }
}

impl Numbered for FacetFault {
    fn number(&self) -> u8 {
        FacetFault::number(self)
    }
}

impl Numbered for ColumnFault {
    fn number(&self) -> u8 {
        ColumnFault::number(self)
    }

    fn place(&self) -> Option<usize> {
        ColumnFault::place(self)
    }
}

impl Numbered for SegmentFault {
    fn number(&self) -> u8 {
        SegmentFault::number(self)
    }
}

impl Numbered for ScorerFault {
    fn number(&self) -> u8 {
        ScorerFault::number(self)
    }
}

// A refusal with its number and place.
#[derive(Clone, Copy)]
pub struct Refusal<F>(pub F);

impl<F: Numbered> fmt::Display for Refusal<F> {
    fn fmt<W: fmt::Write>(&self, f: &mut fmt::Formatter<W>) -> fmt::Result {
        let fault = &self.0;
        let number = fault.number();
        write!(f, "refused {number}")?;
        if let Some(place) = fault.place() {
            write!(f, " at {place}")?;
        }
        write!(f, " ({fault})")
    }
}

// How many bytes a facet has.
#[derive(Clone, Copy)]
struct Length(Facet);

impl fmt::Display for Length {
    fn fmt<W: fmt::Write>(&self, f: &mut fmt::Formatter<W>) -> fmt::Result {
        let len = self.0.as_str().len();
        write!(f, "{len} bytes")
    }
}

// What a facet holds.
#[derive(Clone, Copy)]
struct Whole(Facet);

impl fmt::Display for Whole {
    fn fmt<W: fmt::Write>(&self, f: &mut fmt::Formatter<W>) -> fmt::Result {
        let encoded = Quoted(self.0.encoded());
        let depth = self.0.depth();
        write!(f, "encoded {encoded}, depth {depth}")
    }
}

fn show<T: fmt::Display + Drop, F: Numbered + Drop>(
    rt: &HostRuntime,
    answer: Result<T, F>,
) -> io::Result<()> {
    match answer {
        Ok(shown) => println!(rt; "ok, {shown}"),
        Err(fault) => rt.println(Refusal(fault)),
    }
}

// Reads a text that is too long to be shown.
pub fn long_text(rt: &HostRuntime, name: &str, text: &[u8]) -> io::Result<()> {
    print!(rt; "text of {name}: ")?;
    show(rt, Facet::from_text(text).map(Length))
}

// Reads an encoding that is too long to be shown.
pub fn long_encoding(rt: &HostRuntime, name: &str, encoding: &[u8]) -> io::Result<()> {
    print!(rt; "encoding of {name}: ")?;
    show(rt, Facet::from_encoded(encoding).map(Length))
}

pub fn short_text(rt: &HostRuntime, text: &[u8]) -> io::Result<()> {
    let shown = Quoted(text);
    print!(rt; "text {shown}: ")?;
    show(rt, Facet::from_text(text).map(Whole))
}

pub fn short_encoding(rt: &HostRuntime, encoding: &[u8]) -> io::Result<()> {
    let shown = Quoted(encoding);
    print!(rt; "encoding {shown}: ")?;
    show(rt, Facet::from_encoded(encoding).map(Whole))
}
