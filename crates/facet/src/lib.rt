// Facets: paths such as /dough/rye/light, of at most 127 bytes of UTF-8.
#![tactic(auto)]

mod encoded;
mod fault;
mod pieces;

pub use encoded::Facet;
pub use encoded::path::{is_above, step_end};
pub use fault::FacetFault;
pub use pieces::piece_len;
