// The words of the command line.
ghost use Rattle.std.specs.Prelude.{◌≡◌, ℕ, ◌<◌, List, [], ◌∷◌, ◌++◌, Ok, IfOk, OnOk, OnErr, IsErr, IsSome, string_bytes, vec_len};
ghost use Rattle.std.specs.Str.Parse.{ParsesUnsigned};
ghost use Rattle.facet.specs.Reading.{read};

use crate::refusal::Refusal;
use facet::Facet;
use std::alloc::{AllocError, Global};
use std::env::Args;
use thiserror::Error;

#[derive(Drop)]
pub enum Command {
    Help,
    Count(Options),
}

#[derive(Drop)]
pub struct Options {
    pub files: Vec<String>,
    pub branches: Vec<Facet>,
    pub min: Option<u64>,
    ghost some_file: { 0 < vec_len files },
    ghost some_branch: { 0 < vec_len branches },
}

#[derive(Debug, Drop, Error)]
pub enum UsageFault {
    #[error("--at wants a facet")]
    NoFacet,
    #[error("--min wants a number")]
    NoMinimum,
    #[error("--at {0}: {1}")]
    Facet(String, Refusal),
    #[error("--min {0}: not a number from 0 to 18446744073709551615")]
    Minimum(String),
    #[error("{0}: no such option")]
    Unknown(String),
    #[error("out of memory")]
    Memory(#[from(alloc)] AllocError),
}

// The facet behind `--at`.
fn read_branch(word: String) -> Result<Facet, UsageFault>
    ensures value { IfOk result (λ f. read (string_bytes word) ≡ Ok f) }
    ensures refused { OnErr result (IsErr (read (string_bytes word))) }
{
    Facet::from_text(word.as_bytes()).map_err(|fault| UsageFault::Facet(word, Refusal(fault)))
}

// The number behind `--min`.
fn read_minimum(word: String) -> Result<u64, UsageFault>
    ensures { ParsesUnsigned 64 10 (string_bytes word) result }
{
    word.parse::<u64>().map_err(|_| UsageFault::Minimum(word))
}

// What the words said so far.
#[derive(Drop)]
struct Said {
    files: Vec<String>,
    branches: Vec<Facet>,
    min: Option<u64>,
    help: bool,
}

impl Said {
    // Takes the facet behind `--at` behind the other branches.
    fn take_branch(&mut self, word: String) -> Result<(), UsageFault>
        ensures taken { OnOk result ((f : List ℕ) × (read (string_bytes word) ≡ Ok f) × (self.new.branches.items ≡ self.old.branches.items ++ f ∷ [])) }
        ensures files { self.new.files ≡ self.old.files }
    {
        self.branches.push(read_branch(word)?)?;
        Ok(())
    }

    // Takes the number behind `--min` in place of one before.
    fn take_minimum(&mut self, word: String) -> Result<(), UsageFault>
        ensures taken { OnOk result (IsSome self.new.min) }
        ensures branches { self.new.branches ≡ self.old.branches }
        ensures files { self.new.files ≡ self.old.files }
    {
        self.min = Some(read_minimum(word)?);
        Ok(())
    }
}

impl Command {
    // What the words ask for, of which the first is the program's name.
    pub fn read(heap: Global, words: Args) -> Result<Command, UsageFault> {
        let mut said = Said {
            files: Vec::new(heap),
            branches: Vec::new(heap),
            min: None,
            help: false,
        };
        let mut words = words.skip(1);
        while let Some(word) = words.next() {
            match word.as_str() {
                "--at" => said.take_branch(words.next().ok_or(UsageFault::NoFacet)?)?,
                "--min" => said.take_minimum(words.next().ok_or(UsageFault::NoMinimum)?)?,
                "--help" => said.help = true,
                text if text.len() > 1 && text.starts_with('-') => {
                    return Err(UsageFault::Unknown(word));
                }
                _ => said.files.push(word)?,
            }
        }
        if said.help {
            return Ok(Command::Help);
        }
        let Said {
            mut files,
            mut branches,
            min,
            help: _,
        } = said;
        // the root where no branch is named, and standard input where no file is
        if branches.is_empty() {
            branches.push(Facet::root())?;
        }
        if files.is_empty() {
            files.push(String::from_str(heap, "-")?)?;
        }
        Ok(Command::Count(Options {
            files,
            branches,
            min,
        }))
    }
}
