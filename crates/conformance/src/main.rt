// Tries bad input and limits, and prints a line for each case.
#![tactic(auto)]

mod blocks;
mod cases;
mod columns;
mod fields;
mod limits;
mod lists;
mod octets;
mod paths;
mod prints;
mod sample;
mod scorers;
mod segments;
mod sizes;
mod slashes;

use std::io;

fn main(rt: HostRuntime) -> io::Result<()> {
    limits::run(&rt)?;
    octets::run(&rt)?;
    slashes::run(&rt)?;
    paths::run(&rt)?;
    prints::run(&rt)?;
    lists::run(&rt)?;
    columns::run(&rt)?;
    sizes::run(&rt)?;
    sample::run(&rt)?;
    fields::run(&rt)?;
    segments::run(&rt)?;
    scorers::run(&rt)?;
    blocks::run(&rt)
}
