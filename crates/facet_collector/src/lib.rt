// Documents counted by facet.
#![tactic(auto)]

mod below;
mod collapse;
mod counts;
mod hit;
mod rank;
mod request_fault;
mod requests;

pub use below::Below;
pub use counts::FacetCounts;
pub use hit::Hit;
pub use rank::Ranked;
