// The refusals of collectors.
ghost use Rattle.std.specs.Prelude.{◌≡◌};
ghost use Rattle.collector.specs.Faults.{opening_number, collecting_number, collector_number, floor_number};
ghost use Rattle.collector.specs.declared.fault.CollectorFault.TheVariants.{Opening as OpeningOf, Collecting as CollectingOf};

use thiserror::Error;

// Why a collector refuses a segment.
#[derive(Clone, Copy, Debug, PartialEq, Eq, Error)]
pub enum OpeningFault {
    #[error("the segment has no field of that name")]
    NoField,
    #[error("the field is no facet field")]
    NotFacets,
    #[error("the requested facets have more than 128 children")]
    TooManyChildren,
}

impl OpeningFault {
    pub fn number(&self) -> u8
        ensures { result ≡ opening_number self.now }
    {
        match self {
            OpeningFault::NoField => 19,
            OpeningFault::NotFacets => 20,
            OpeningFault::TooManyChildren => 21,
        }
    }
}

// Why a document is not collected, or two fruits are not joined.
#[derive(Clone, Copy, Debug, PartialEq, Eq, Error)]
pub enum CollectingFault {
    #[error("the document is not below the segment's document number")]
    NoDocument,
    #[error("the fruit would not fit")]
    Unfit,
}

impl CollectingFault {
    pub fn number(&self) -> u8
        ensures { result ≡ collecting_number self.now }
    {
        match self {
            CollectingFault::NoDocument => 22,
            CollectingFault::Unfit => 23,
        }
    }
}

// Why a segment is not collected.
#[derive(Clone, Copy, Debug, PartialEq, Eq, Error)]
pub enum CollectorFault {
    #[error(transparent)]
    Opening(OpeningFault),
    #[error(transparent)]
    Collecting(CollectingFault),
}

impl CollectorFault {
    pub fn number(&self) -> u8
        ensures { result ≡ collector_number self.now }
    {
        match self {
            CollectorFault::Opening(fault) => fault.number(),
            CollectorFault::Collecting(fault) => fault.number(),
        }
    }
}

// Both `From`s are written out: those of `#[from]` promise nothing, and the clauses of a collection name the fault that
// `?` makes.
impl From<OpeningFault> for CollectorFault {
    ghost from_gives = { λ e r. r ≡ OpeningOf e };

    fn from(e: OpeningFault) -> CollectorFault {
        CollectorFault::Opening(e)
    }
}

impl From<CollectingFault> for CollectorFault {
    ghost from_gives = { λ e r. r ≡ CollectingOf e };

    fn from(e: CollectingFault) -> CollectorFault {
        CollectorFault::Collecting(e)
    }
}

// Why there is no such floor.
#[derive(Clone, Copy, Debug, PartialEq, Eq, Error)]
pub enum FloorFault {
    #[error("the floor is not a number")]
    NotANumber,
}

impl FloorFault {
    pub fn number(&self) -> u8
        ensures { result ≡ floor_number self.now }
    {
        match self {
            FloorFault::NotANumber => 25,
        }
    }
}
