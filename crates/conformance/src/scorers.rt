// Scorers, good and refused, walked to the end and past it.
use crate::cases::Refusal;
use crate::columns::Numbers;
use docset::{AllDocs, DocSet, Held, Scorer, ScorerFault, TERMINATED, count};
use std::io;

// The answer of a check, and the first document of the scorer made.
fn show<S: Scorer>(
    rt: &HostRuntime,
    answer: Result<(), ScorerFault>,
    scorer: &S,
) -> io::Result<()> {
    match answer {
        Ok(()) => print!(rt; "ok")?,
        Err(fault) => rt.print(Refusal(fault))?,
    }
    let doc = scorer.doc();
    let score = scorer.score();
    println!(rt; ", first {doc}, score {score:?}")
}

const NUMBERS: [u32; 6] = [0, 1, 3, TERMINATED, TERMINATED + 1, 4_294_967_295];

const LISTS: [(&[u32], &[f32]); 16] = [
    (&[], &[]),
    (&[1, 4, 6], &[0.5, 2.0, -1.0]),
    (&[0], &[0.25]),
    (&[2_147_483_646], &[0.5]),
    // not rising
    (&[1, 1], &[0.5, 0.5]),
    (&[2, 1], &[0.5, 0.5]),
    (&[1, 4, 4], &[0.5, 0.5, 0.5]),
    // not below the end
    (&[2_147_483_647], &[0.5]),
    (&[1, 2_147_483_647], &[0.5, 0.5]),
    (&[4_294_967_295], &[0.5]),
    // not as many scores
    (&[1, 4], &[0.5]),
    (&[1, 4], &[0.5, 0.5, 0.5]),
    (&[1], &[]),
    (&[], &[0.5]),
    // both
    (&[1, 1], &[0.5]),
    (&[2_147_483_647], &[]),
];

fn checks(rt: &HostRuntime) -> io::Result<()> {
    for number in NUMBERS {
        print!(rt; "all below {number}: ")?;
        show(rt, AllDocs::check(number), &AllDocs::new(number))?;
    }
    for (docs, scores) in LISTS {
        let shown = Numbers(docs);
        let len = scores.len();
        print!(rt; "docs {shown} with {len} scores: ")?;
        show(rt, Held::check(docs, scores), &Held::new(docs, scores))?;
    }
    Ok(())
}

fn walk<S: Scorer>(rt: &HostRuntime, name: &str, scorer: &mut S) -> io::Result<()> {
    for step in 0..5 {
        let doc = scorer.doc();
        let score = scorer.score();
        let next = scorer.advance();
        println!(rt; "{name}, step {step}: {doc}, score {score:?}, next {next}")?;
    }
    Ok(())
}

pub fn run(rt: &HostRuntime) -> io::Result<()> {
    checks(rt)?;
    let mut three = Held::new(&[1, 4, 6], &[0.5, 2.0, -1.0]);
    walk(rt, "docs 1 4 6", &mut three)?;
    walk(rt, "all below 3", &mut AllDocs::new(3))?;
    let none = count(&mut AllDocs::new(0));
    let all = count(&mut AllDocs::new(65));
    let held = count(&mut Held::new(&[1, 4, 6], &[0.5, 2.0, -1.0]));
    println!(rt; "counted: {none}, {all}, {held}")
}
