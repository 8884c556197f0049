// Fields behind others, good and refused.
use crate::cases::{Quoted, Refusal};
use crate::sample::SAMPLE;
use segment::{Field, Kind, Tables, check_field};
use std::io;

// Two equal terms.
pub const TWINS: Tables = Tables {
    term_bytes: b"aa",
    term_ends: &[1, 2],
    row_ends: &[],
    ordinals: &[],
};

const BEFORE: [Field; 4] = [
    Field {
        name: b"ab",
        kind: Kind::Other,
    },
    Field {
        name: b"c",
        kind: Kind::Other,
    },
    Field {
        name: b"d",
        kind: Kind::Other,
    },
    Field {
        name: b"e",
        kind: Kind::Other,
    },
];

fn show<'a>(rt: &HostRuntime, before: &[Field<'a>], field: &Field<'a>) -> io::Result<()> {
    match check_field(before, field) {
        Ok(()) => rt.println("ok"),
        Err(fault) => rt.println(Refusal(fault)),
    }
}

// Tries a field whose name is too long to be shown.
fn length(rt: &HostRuntime, name: &[u8]) -> io::Result<()> {
    let len = name.len();
    print!(rt; "field with a name of {len} bytes: ")?;
    let field = Field {
        name,
        kind: Kind::Other,
    };
    show(rt, &[], &field)
}

fn lengths(rt: &HostRuntime) -> io::Result<()> {
    let letters = [b'n'; 65];
    length(rt, &letters[0..0])?;
    length(rt, &letters[0..1])?;
    length(rt, &letters[0..64])?;
    length(rt, &letters)
}

fn behind<'a>(
    rt: &HostRuntime,
    before: &[Field<'a>],
    name: &'a [u8],
    kind: Kind<'a>,
) -> io::Result<()> {
    let shown = Quoted(name);
    let facet = matches!(kind, Kind::Facet(_));
    let count = before.len();
    print!(rt; "field {shown}, facet {facet}, behind {count}: ")?;
    show(rt, before, &Field { name, kind })
}

const OTHERS: [&[u8]; 6] = [b"ab", b"c", b"a", b"abc", b"AB", b"\xff\x00"];

const FACETS: [&[u8]; 3] = [b"ab", b"AB", b""];

// The column is asked before the name.
const REFUSED: [&[u8]; 3] = [b"f", b"", b"ab"];

fn fourth_and_fifth(rt: &HostRuntime) -> io::Result<()> {
    let before = BEFORE;
    behind(rt, &before[0..3], b"f", Kind::Other)?;
    behind(rt, &before, b"f", Kind::Other)?;
    for name in REFUSED {
        behind(rt, &before, name, Kind::Facet(TWINS))?;
    }
    Ok(())
}

pub fn run(rt: &HostRuntime) -> io::Result<()> {
    lengths(rt)?;
    let before = BEFORE;
    for name in OTHERS {
        behind(rt, &before[0..2], name, Kind::Other)?;
    }
    for name in FACETS {
        behind(rt, &before[0..2], name, Kind::Facet(SAMPLE))?;
    }
    for name in REFUSED {
        behind(rt, &before[0..2], name, Kind::Facet(TWINS))?;
    }
    fourth_and_fifth(rt)
}
