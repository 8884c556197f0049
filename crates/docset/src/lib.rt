// The documents of a query, each with its score, one after the other.
#![tactic(auto)]

mod all;
mod fault;
mod held;
mod scorer;

pub use all::AllDocs;
pub use fault::ScorerFault;
pub use held::Held;
pub use scorer::{COLLECT_BLOCK_BUFFER_LEN, DocId, DocSet, Scorer, TERMINATED, count, doc_at};
