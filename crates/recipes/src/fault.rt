// The refusals of a list of recipes.
ghost use Rattle.std.specs.Prelude.{◌≡◌};
ghost use Rattle.recipes.specs.declared.fault.ListFault.TheVariants.{Memory};

use facet::FacetFault;
use std::alloc::{AllocError, AllocFailed};

// A text that is no facet: its line, from 1, its field, from 0 at the name, and why.
#[derive(Clone, Copy, Debug, PartialEq, Eq)]
pub struct LineFault<'a> {
    pub line: usize,
    pub field: usize,
    pub text: &'a [u8],
    pub fault: FacetFault,
}

#[derive(Clone, Copy, Debug, PartialEq, Eq)]
pub enum ListFault<'a> {
    Line(LineFault<'a>),
    Memory,
}

// both by hand, since clauses lean on what a `?` makes of them
impl<'a> From<AllocError> for ListFault<'a> {
    ghost from_gives = { λ _ r. r ≡ Memory };

    fn from(_e: AllocError) -> ListFault<'a> {
        ListFault::Memory
    }
}

impl<'a, T: Drop> From<AllocFailed<T>> for ListFault<'a> {
    ghost from_gives = { λ _ r. r ≡ Memory };

    fn from(_e: AllocFailed<T>) -> ListFault<'a> {
        ListFault::Memory
    }
}
