// Lists of recipes, good and refused, and their counts.
use crate::cases::{Quoted, Refusal};
use facet::Facet;
use recipes::{LineFault, ListFault, Recipe, count_children, entry_line, read_list};
use std::alloc::AllocError;
use std::io;

const LISTS: [&[u8]; 14] = [
    b"",
    b"\n",
    b"a",
    b"a\t/x",
    b"a\t/x\n",
    b"a\t/x\t/y\nb\n",
    b"a\t/x\r\n\r\n\nb\t/y",
    b"\t/x\n",
    b"a\tx",
    b"a\t\n",
    b"a\t/x\nb\t/y\tz\n",
    b"\n\na\t/x\t",
    b"a\t/\xff\nb\tx\n",
    b"a\t/x\r\r\n",
];

const BREAD: &[u8] = b"a\t/d/r/l\t/d/r/s\nb\t/d/r\nc\t/d\nd\t/dx\ne\t/d/r/s/t\nf\n";

const BRANCHES: [&[u8]; 5] = [b"/", b"/d", b"/d/r", b"/d/r/s", b"/none"];

fn tell(rt: &HostRuntime, fault: &LineFault) -> io::Result<()> {
    let line = fault.line;
    let field = fault.field;
    let text = Quoted(fault.text);
    let why = Refusal(fault.fault);
    println!(rt; "line {line}, field {field}, {text}: {why}")
}

fn show(rt: &HostRuntime, recipes: &[Recipe]) -> io::Result<()> {
    let count = recipes.len();
    print!(rt; "{count} recipes")?;
    for recipe in recipes {
        let name = Quoted(recipe.name.as_slice());
        print!(rt; ", {name}")?;
        for facet in recipe.facets.iter() {
            let encoded = Quoted(facet.encoded());
            print!(rt; " {encoded}")?;
        }
    }
    rt.println("")
}

fn read(rt: &HostRuntime, list: &[u8]) -> io::Result<()> {
    let shown = Quoted(list);
    print!(rt; "list {shown}: ")?;
    match read_list(rt.alloc(), list) {
        Ok(recipes) => show(rt, recipes.as_slice()),
        Err(ListFault::Line(fault)) => tell(rt, &fault),
        Err(ListFault::Memory) => Err(io::Error::from(AllocError)),
    }
}

fn count(rt: &HostRuntime, recipes: &[Recipe], branch: &Facet) -> io::Result<()> {
    println!(rt; "below {branch}:")?;
    for entry in count_children(rt.alloc(), recipes, branch)?.iter() {
        rt.println(entry_line(rt.alloc(), entry)?)?;
    }
    Ok(())
}

fn counts(rt: &HostRuntime) -> io::Result<()> {
    if let Ok(recipes) = read_list(rt.alloc(), BREAD) {
        for text in BRANCHES {
            if let Ok(branch) = Facet::from_text(text) {
                count(rt, recipes.as_slice(), &branch)?;
            }
        }
    }
    Ok(())
}

pub fn run(rt: &HostRuntime) -> io::Result<()> {
    for list in LISTS {
        read(rt, list)?;
    }
    counts(rt)
}
