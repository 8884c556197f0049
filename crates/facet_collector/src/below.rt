// The entries below a facet.
ghost use Rattle.std.specs.Prelude.{◌≡◌};
ghost use Rattle.std.specs.Iterator.{YieldsFirstBy, item_count};
ghost use Rattle.facet_collector.specs.Entries.{below};

use facet::Facet;
use std::marker::Model;

// In the order of facets.
#[derive(Drop)]
pub struct Below<'a> {
    facet: &'a Facet,
    left: &'a [(Facet, u64)],
}

// Clauses see the entries that are still to come.
impl<'a> Model for Below<'a> {
    ghost use Rattle.std.specs.Prelude.{ℕ, List};
    ghost use Rattle.facet_collector.specs.Entries.{below};

    ghost Value = { List (List ℕ × ℕ) };

    ghost view = { λ b. below b.facet.now b.left.now };
}

impl<'a> Below<'a> {
    pub(crate) fn new(facet: &'a Facet, entries: &'a [(Facet, u64)]) -> Below<'a>
        ensures { result ≡ below facet.now entries.now }
    {
        Below {
            facet,
            left: entries,
        }
    }
}

impl<'a> Iterator for Below<'a> {
    type Item = (&'a Facet, u64);

    ghost next_gives = { YieldsFirstBy (λ e. (e.0.now, e.1)) (λ b. b) };

    ghost remaining = { item_count (λ b. b) };

    fn next(&mut self) -> Option<(&'a Facet, u64)> {
        while let Some((entry, left)) = self.left.split_first() {
            self.left = left;
            if self.facet.is_prefix_of(&entry.0) {
                return Some((&entry.0, entry.1));
            }
        }
        None
    }
}
