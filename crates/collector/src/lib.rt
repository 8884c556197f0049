// Collectors: what each document is worth to them, and how their fruits join.
#![tactic(auto)]

mod collector;
mod count;
mod each;
mod fault;
mod floor;
mod pair;
mod switch;
mod triple;

pub use collector::Collector;
pub use count::Count;
pub use each::{collect_blocks, collect_each};
pub use fault::{CollectingFault, CollectorFault, FloorFault, OpeningFault};
pub use floor::Floor;
pub use switch::Switch;
