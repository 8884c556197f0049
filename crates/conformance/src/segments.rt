// Segments, good and refused, their fields and their alive sets.
use crate::cases::{Quoted, Refusal};
use crate::columns::show_column;
use crate::fields::TWINS;
use crate::sample::SAMPLE;
use segment::{Field, Kind, Segment, Tables};
use std::io;

const FIELDS: &[Field; 4] = &[
    Field {
        name: b"ab",
        kind: Kind::Facet(SAMPLE),
    },
    Field {
        name: b"a",
        kind: Kind::Other,
    },
    Field {
        name: b"abc",
        kind: Kind::Other,
    },
    Field {
        name: b"b",
        kind: Kind::Facet(SAMPLE),
    },
];

// Checks the parts, and shows how many documents a segment of them has.
fn answer<'a>(
    rt: &HostRuntime,
    fields: &'a [Field<'a>],
    docs: u32,
    alive: Option<&'a [u8]>,
) -> io::Result<()> {
    match Segment::check(fields, docs, alive) {
        Ok(()) => print!(rt; "ok, ")?,
        Err(fault) => {
            let why = Refusal(fault);
            print!(rt; "{why}, ")?;
        }
    }
    let number = Segment::new(fields, docs, alive).num_docs();
    println!(rt; "{number} documents")
}

fn without_set<'a>(
    rt: &HostRuntime,
    name: &str,
    fields: &'a [Field<'a>],
    docs: u32,
) -> io::Result<()> {
    print!(rt; "segment of {name} and {docs} documents: ")?;
    answer(rt, fields, docs, None)
}

const NUMBERS: [u32; 5] = [0, 5, 65_535, 65_536, 4_294_967_295];

fn numbers<'a>(rt: &HostRuntime, fields: &'a [Field<'a>; 4]) -> io::Result<()> {
    for docs in NUMBERS {
        without_set(rt, "no fields", &fields[0..0], docs)?;
        without_set(rt, "a field that is no facet field", &fields[1..2], docs)?;
    }
    for docs in 4..7 {
        without_set(rt, "a facet field of 5 rows", &fields[0..1], docs)?;
        without_set(rt, "four fields", fields, docs)?;
    }
    Ok(())
}

const OTHER: Field = Field {
    name: b"o",
    kind: Kind::Other,
};

const TWIN: Field = Field {
    name: b"t",
    kind: Kind::Facet(TWINS),
};

const NO_ROWS: Field = Field {
    name: b"n",
    kind: Kind::Facet(Tables {
        term_bytes: b"",
        term_ends: &[],
        row_ends: &[],
        ordinals: &[],
    }),
};

const ONE_ROW: Field = Field {
    name: b"p",
    kind: Kind::Facet(Tables {
        term_bytes: b"",
        term_ends: &[],
        row_ends: &[0],
        ordinals: &[],
    }),
};

const FOURTH: Field = Field {
    name: b"q",
    kind: Kind::Other,
};

const FIFTH: Field = Field {
    name: b"r",
    kind: Kind::Other,
};

// The fields are asked one by one, and before the number of documents.
const MIXED: [(&str, &[Field], u32); 9] = [
    ("fields of 1 and 0 rows", &[ONE_ROW, NO_ROWS], 1),
    ("fields of 1 and 0 rows", &[ONE_ROW, NO_ROWS], 0),
    ("a name twice", &[OTHER, NO_ROWS, OTHER], 0),
    ("a name twice", &[OTHER, NO_ROWS, OTHER], 1),
    ("a name twice", &[OTHER, OTHER], 65_536),
    ("a refused column", &[OTHER, TWIN], 65_536),
    (
        "a name twice, then a refused column",
        &[OTHER, OTHER, TWIN],
        0,
    ),
    (
        "a refused column, then a name twice",
        &[TWIN, OTHER, OTHER],
        0,
    ),
    ("five fields", &[OTHER, NO_ROWS, ONE_ROW, FOURTH, FIFTH], 0),
];

fn order_of_questions(rt: &HostRuntime) -> io::Result<()> {
    for (name, fields, docs) in MIXED {
        without_set(rt, name, fields, docs)?;
    }
    Ok(())
}

const SETS: [(u32, &[u8]); 12] = [
    (0, &[]),
    (0, &[0xff]),
    (5, &[]),
    (5, &[0xff]),
    (5, &[0xff, 0xff]),
    (8, &[]),
    (8, &[0xff]),
    (8, &[0xff, 0xff]),
    (9, &[0xff]),
    (9, &[0xff, 0xff]),
    (9, &[0xff, 0xff, 0xff]),
    (16, &[0xff, 0xff]),
];

fn with_set(rt: &HostRuntime, docs: u32, set: &[u8]) -> io::Result<()> {
    let len = set.len();
    print!(rt; "segment of {docs} documents and an alive set of {len} bytes: ")?;
    answer(rt, &[], docs, Some(set))
}

fn sets(rt: &HostRuntime) -> io::Result<()> {
    for (docs, set) in SETS {
        with_set(rt, docs, set)?;
    }
    let long = [0; 8193];
    with_set(rt, 65_535, &long[0..8191])?;
    with_set(rt, 65_535, &long[0..8192])?;
    with_set(rt, 65_535, &long)?;
    with_set(rt, 65_536, &long[0..8192])
}

// The documents below 24 that are alive.
fn show_alive<'a>(
    rt: &HostRuntime,
    fields: &'a [Field<'a>],
    docs: u32,
    set: &'a [u8],
) -> io::Result<()> {
    let segment = Segment::new(fields, docs, Some(set));
    for doc in 0..24 {
        if segment.is_alive(doc) {
            print!(rt; " {doc}")?;
        }
    }
    rt.println("")
}

// Sets with their documents; the bits behind the last document say nothing.
const BITS: [(u32, &[u8]); 10] = [
    (5, &[0x01]),
    (5, &[0x10]),
    (5, &[0xe0]),
    (5, &[0xff]),
    (8, &[0x80]),
    (9, &[0xa5, 0xff]),
    (9, &[0x00, 0x01]),
    (9, &[0x00, 0xfe]),
    (16, &[0x02, 0x80]),
    (17, &[0x00, 0x81, 0xff]),
];

fn alive_by(rt: &HostRuntime, docs: u32, set: &[u8]) -> io::Result<()> {
    let shown = Quoted(set);
    print!(rt; "alive of {docs} documents by {shown}:")?;
    show_alive(rt, &[], docs, set)
}

fn bits(rt: &HostRuntime) -> io::Result<()> {
    for (docs, set) in BITS {
        alive_by(rt, docs, set)?;
    }
    Ok(())
}

// Without a set all documents are alive.
fn all_alive(rt: &HostRuntime) -> io::Result<()> {
    let segment = Segment::new(&[], 65_535, None);
    for doc in [0, 65_534, 65_535, 4_294_967_295] {
        let alive = segment.is_alive(doc);
        println!(rt; "alive of 65535 documents without a set: {doc} {alive}")?;
    }
    Ok(())
}

const NAMES: [&[u8]; 9] = [
    b"ab", b"a", b"abc", b"b", b"", b"abcd", b"bc", b"A", b"a\x00",
];

fn show_places(rt: &HostRuntime, segment: &Segment) -> io::Result<()> {
    for name in NAMES {
        let shown = Quoted(name);
        match segment.field(name) {
            Some(place) => println!(rt; "field {shown}: {place}")?,
            None => println!(rt; "field {shown}: none")?,
        }
    }
    for place in 0..5 {
        let facet = segment.is_facet(place);
        print!(rt; "place {place}: facet {facet}, ")?;
        show_column(rt, &segment.column(place))?;
    }
    Ok(())
}

// What is held of the fields with a number of documents and an alive set.
fn held<'a>(
    rt: &HostRuntime,
    fields: &'a [Field<'a>],
    docs: u32,
    alive: &'a [u8],
) -> io::Result<()> {
    let len = alive.len();
    let segment = Segment::new(fields, docs, Some(alive));
    let number = segment.num_docs();
    let field = segment.field(b"ab").is_some();
    let facet = segment.is_facet(0);
    let first = segment.is_alive(0);
    print!(rt; "made with {docs} documents and a set of {len} bytes: {number} documents, ")?;
    print!(rt; "field {field}, facet {facet}, alive {first}, ")?;
    show_column(rt, &segment.column(0))
}

// A segment of refused parts is empty.
fn made<'a>(rt: &HostRuntime, fields: &'a [Field<'a>]) -> io::Result<()> {
    show_places(rt, &Segment::new(fields, 5, None))?;
    held(rt, fields, 5, &[1])?;
    held(rt, fields, 5, &[1, 1])?;
    held(rt, fields, 4, &[1])?;
    held(rt, fields, 65_536, &[1])
}

pub fn run(rt: &HostRuntime) -> io::Result<()> {
    let fields = FIELDS;
    numbers(rt, fields)?;
    order_of_questions(rt)?;
    sets(rt)?;
    bits(rt)?;
    all_alive(rt)?;
    made(rt, fields)
}
