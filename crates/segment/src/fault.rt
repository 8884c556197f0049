// The refusals of a column.
ghost use Rattle.std.specs.Prelude.{◌≡◌};
ghost use Rattle.segment.specs.Faults.{column_number, column_place};
ghost use Rattle.segment.specs.Laws.{FirstPlace};

use thiserror::Error;

// With the place, from 0, of the first term, row or ordinal that fails.
#[derive(Clone, Copy, Debug, PartialEq, Eq, Error)]
pub enum ColumnFault {
    #[error("there are more than 4096 terms or 65535 rows")]
    TooLarge,
    #[error("term {0}: its end is wrong, or it has more than 127 bytes")]
    TermEnds(usize),
    #[error("term {0}: the bytes are not UTF-8")]
    TermNotUtf8(usize),
    #[error("term {0}: a step is empty")]
    EmptyStep(usize),
    #[error("term {0}: it is not greater than the term before")]
    TermOrder(usize),
    #[error("row {0}: its end is wrong")]
    RowEnds(usize),
    #[error("ordinal {0}: there is no such term")]
    NoTerm(usize),
    #[error("ordinal {0}: it is less than the one before in its row")]
    OrdinalOrder(usize),
}

impl ColumnFault {
    pub fn number(&self) -> u8
        ensures { result ≡ column_number self.now }
    {
        match self {
            ColumnFault::TooLarge => 9,
            ColumnFault::TermEnds(_) => 10,
            ColumnFault::TermNotUtf8(_) => 11,
            ColumnFault::EmptyStep(_) => 12,
            ColumnFault::TermOrder(_) => 13,
            ColumnFault::RowEnds(_) => 14,
            ColumnFault::NoTerm(_) => 15,
            ColumnFault::OrdinalOrder(_) => 16,
        }
    }

    // The place that the fault tells, of the first term, row or ordinal that fails, or their count.
    #[tactic(auto, using(crate::proofs::Firsts::first_place))]
    pub fn place(&self) -> Option<usize>
        ensures value { result ≡ column_place self.now }
        ensures first { FirstPlace }
    {
        match *self {
            ColumnFault::TooLarge => None,
            ColumnFault::TermEnds(place)
            | ColumnFault::TermNotUtf8(place)
            | ColumnFault::EmptyStep(place)
            | ColumnFault::TermOrder(place)
            | ColumnFault::RowEnds(place)
            | ColumnFault::OrdinalOrder(place)
            | ColumnFault::NoTerm(place) => Some(place),
        }
    }
}
