// How an entry is written.
ghost use Rattle.std.specs.Prelude.{◌≡◌, Some, IfOk, string_bytes};
ghost use Rattle.recipes.specs.Recipes.{entry_text};

use crate::count::Entry;
use std::alloc::{AllocError, Global};
use std::fmt;

// The count in decimal, a tab, and the text of the facet.
impl fmt::Display for Entry {
    ghost output = { λ e. Some (entry_text e) };

    fn fmt<W: fmt::Write>(&self, f: &mut fmt::Formatter<W>) -> fmt::Result {
        let Entry { facet, count } = self;
        write!(f, "{count}\t{facet}")
    }
}

// The same as a text.
pub fn entry_line(heap: Global, entry: &Entry) -> Result<String, AllocError>
    ensures { IfOk result (λ s. string_bytes s ≡ entry_text entry.now) }
{
    format!(in heap; "{entry}")
}
