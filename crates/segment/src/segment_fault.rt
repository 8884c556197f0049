// The refusals of a segment.
ghost use Rattle.std.specs.Prelude.{◌≡◌};
ghost use Rattle.segment.specs.declared.segment_fault.SegmentFault.TheVariants.{Column};
ghost use Rattle.segment.specs.SegmentFaults.{segment_number};

use crate::fault::ColumnFault;
use thiserror::Error;

// With the place of the field, from 0; a column's fault is carried whole.
#[derive(Clone, Copy, Debug, PartialEq, Eq, Error)]
pub enum SegmentFault {
    #[error("field {0}: {1}")]
    Column(usize, ColumnFault),
    #[error("field {0}: its name has not 1 to 64 bytes, is there already, or would be the fifth")]
    Name(usize),
    #[error("the document number is above 65535, or is not that of a column or of the alive set")]
    Documents,
}

impl SegmentFault {
    pub fn number(&self) -> u8
        ensures { result ≡ segment_number self.now }
    {
        match self {
            SegmentFault::Column(_, fault) => fault.number(),
            SegmentFault::Name(_) => 17,
            SegmentFault::Documents => 18,
        }
    }
}

// A fault with the place of the field that has it.
#[derive(Clone, Copy)]
pub struct AtPlace<E> {
    pub place: usize,
    pub fault: E,
}

// By hand, since clauses name the fault that `?` makes, and a derive promises nothing of it.
impl From<AtPlace<ColumnFault>> for SegmentFault {
    ghost from_gives = { λ e r. r ≡ Column e.place e.fault };

    fn from(e: AtPlace<ColumnFault>) -> SegmentFault {
        SegmentFault::Column(e.place, e.fault)
    }
}
