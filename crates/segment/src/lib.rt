// Columns of terms and rows, segments of documents, and the questions that are asked of them.
#![tactic(auto)]

mod column;
mod ends;
mod fault;
mod field;
mod first;
mod items;
mod place;
mod rows;
mod segment;
mod segment_fault;
mod terms;

pub use column::Column;
pub use fault::ColumnFault;
pub use field::{Field, Kind, Tables};
pub use segment::Segment;
pub use segment::check::check_field;
pub use segment_fault::SegmentFault;
