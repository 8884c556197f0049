// Counts the recipes of a list at or below each child of a branch.
#![tactic(auto)]

mod options;
mod refusal;

use facet::Facet;
use options::{Command, Options, UsageFault};
use recipes::{LineFault, ListFault, Recipe, all_reach, count_children, read_list};
use refusal::Refusal;
use std::alloc::{AllocError, Global};
use std::env::Env;
use std::fs::Files;
use std::io::Read;
use std::process::ExitCode;
use std::{env, fs, io};
use thiserror::Error;

const HELP: &str = "Counts recipes by facet.

usage: tellsuede [--at FACET]... [--min N] [FILE]...

A list has one recipe a line: a name, and then the facets that it is filed under, with tabs between.
A facet is a path such as /dough/rye/light; a slash or a backslash within a step has a backslash before it.
For each list and each branch it prints every child of the branch that some recipe is filed at or below,
with the number of those recipes, each counted once, in the order of facets.

  --at FACET   a branch to count below; may be given again; the root / if none is given
  --min N      print whether every child has at least N recipes
  --help       print this
  FILE         a list; standard input if none is given, or for -

A text that is no facet is named by its file, line, text and refusal on standard error. Then nothing is counted,
and the status is 1.
";

// Why the program ends early. An `anyhow::Error` keeps only 120 bytes of a message.
#[derive(Debug, Drop, Error)]
enum Ended<'a> {
    #[error("tellsuede: {0}")]
    Io(#[from] io::Error),
    #[error("tellsuede: out of memory")]
    Memory(#[from(alloc)] AllocError),
    #[error("tellsuede: {0}; --help says more")]
    Usage(#[from] UsageFault),
    #[error("tellsuede: {0}: {1}")]
    File(&'a str, io::Error),
    #[error("{file}:{line}: {text}: {refusal}")]
    Refused {
        file: &'a str,
        line: usize,
        text: String,
        refusal: Refusal,
    },
}

// A list with the name of its file.
#[derive(Drop)]
struct List {
    name: String,
    recipes: Vec<Recipe>,
}

fn main(rt: HostRuntime) -> ExitCode {
    let command = match command(&rt) {
        Ok(command) => command,
        Err(ended) => return fail(&rt, &ended),
    };
    match run(&rt, &command) {
        Ok(()) => ExitCode::SUCCESS,
        Err(ended) => fail(&rt, &ended),
    }
}

// Tells why the program ends; and where a refusal cannot be told, why not.
fn fail(rt: &HostRuntime, ended: &Ended) -> ExitCode {
    if let Err(error) = eprintln!(rt; "{ended}") {
        if !matches!(ended, Ended::Io(_) | Ended::Memory(_)) {
            let _ = eprintln!(rt; "tellsuede: {error}");
        }
    }
    ExitCode::FAILURE
}

fn command(rt: &(impl Env + AllocGlobal)) -> Result<Command, Ended<'static>> {
    let command = Command::read(rt.alloc(), env::args(rt)?)?;
    Ok(command)
}

fn run<'a>(
    rt: &(impl Files + Input + Print + AllocGlobal),
    command: &'a Command,
) -> Result<(), Ended<'a>> {
    match command {
        Command::Help => rt.print(HELP)?,
        Command::Count(options) => count(rt, options)?,
    }
    Ok(())
}

// Reads every list, and then prints what is counted in each.
fn count<'a>(
    rt: &(impl Files + Input + Print + AllocGlobal),
    options: &'a Options,
) -> Result<(), Ended<'a>> {
    let mut lists = Vec::new(rt.alloc());
    for file in options.files.iter() {
        lists.push(read(rt, file.as_str())?)?;
    }
    for list in lists.iter() {
        print_list(rt, list, options)?;
    }
    Ok(())
}

// The list in a file, or in standard input for `-`.
fn read<'a>(rt: &(impl Files + Input + AllocGlobal), file: &'a str) -> Result<List, Ended<'a>> {
    if file == "-" {
        let mut text = Vec::new(rt.alloc());
        rt.reader().read_to_end(&mut text)?;
        return parse(rt.alloc(), file, &text);
    }
    match fs::read(rt, file) {
        Ok(text) => parse(rt.alloc(), file, &text),
        Err(error) => Err(Ended::File(file, error)),
    }
}

// The list of a text, or the first text in it that is no facet.
fn parse<'a>(heap: Global, file: &'a str, text: &[u8]) -> Result<List, Ended<'a>> {
    match read_list(heap, text) {
        Ok(recipes) => Ok(List {
            name: String::from_str(heap, file)?,
            recipes,
        }),
        Err(ListFault::Memory) => Err(Ended::Memory(AllocError)),
        Err(
            ListFault::Line(
                LineFault {
                    line,
                    text,
                    fault,
                    ..
                },
            ),
        ) => Err(Ended::Refused {
            file,
            line,
            text: String::from_utf8_lossy(heap, text)?,
            refusal: Refusal(fault),
        }),
    }
}

fn print_list<'a>(
    rt: &(impl Print + AllocGlobal),
    list: &List,
    options: &Options,
) -> Result<(), Ended<'a>> {
    let name = list.name.as_str();
    let count = list.recipes.len();
    println!(rt; "{name}, recipes: {count}")?;
    for branch in options.branches.iter() {
        print_branch(rt, &list.recipes, branch, options.min)?;
    }
    Ok(())
}

fn print_branch<'a>(
    rt: &(impl Print + AllocGlobal),
    recipes: &[Recipe],
    branch: &Facet,
    min: Option<u64>,
) -> Result<(), Ended<'a>> {
    let entries = count_children(rt.alloc(), recipes, branch)?;
    println!(rt; "below {branch}:")?;
    for entry in entries.iter() {
        println!(rt; "{entry}")?;
    }
    if let Some(min) = min {
        let verdict = if entries.is_empty() {
            "no child"
        } else if all_reach(&entries, min) {
            "reached by every child"
        } else {
            "not reached by every child"
        };
        println!(rt; "minimum {min}: {verdict}")?;
    }
    Ok(())
}
