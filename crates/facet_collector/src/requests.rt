// Facets whose children are counted.
ghost use Rattle.std.specs.Prelude.{◌≡◌, Decides, ◌<◌, ◌≤◌, true, [], length};
ghost use Rattle.std.specs.declared.cmp.Ordering.TheVariants.{Less, Greater};
ghost use Rattle.std.specs.Cmp.{partial_equiv_from_equiv};
ghost use Rattle.std.specs.Cmp.Lexicographic.{lists_equiv, lists_per, on_texts_equal, pointwise};
ghost use Rattle.std.specs.Str.{bytes_eq};
ghost use Rattle.facet.specs.Paths.{above, order};
ghost use Rattle.facet_collector.specs.Adding.{Adds, WorkedCases};
ghost use Rattle.facet_collector.specs.Children.{insert as inserted, requestable};
ghost use Rattle.std.specs.List.{list_any};
ghost use Rattle.std.specs.List.Sorted.{IsPartitionPoint};

use crate::request_fault::RequestFault;
use facet::Facet;
use std::marker::Model;

pub const MOST_REQUESTS: usize = 16;

// In the order of facets, none above another. A fixed array with a length: nothing here is on the heap.
#[derive(Drop)]
pub struct Requests {
    facets: [Facet; MOST_REQUESTS],
    len: usize,
}

impl Model for Requests {
    ghost use Rattle.std.specs.Prelude.{ℕ, List};

    ghost Value = { List (List ℕ) };

    ghost use Rattle.facet_collector.specs.Requested.{requested, IsRequested};

    ghost view = { requested };

    ghost invariant = { IsRequested };
}

// By hand: a derive would compare the arrays, and what stands there behind the requested facets.
impl PartialEq for Requests {
    ghost eq = { pointwise bytes_eq };

    ghost laws = { lists_per (partial_equiv_from_equiv (on_texts_equal (λ f. f))) };

    fn eq(&self, other: &Requests) -> bool
        ensures value { result ≡ pointwise bytes_eq self.now other.now }
        ensures decides { Decides result (self.now ≡ other.now) }
    {
        self.as_slice() == other.as_slice()
    }
}

impl Eq for Requests {
    ghost laws = { lists_equiv (on_texts_equal (λ f. f)) };
}

impl Requests {
    pub fn new() -> Requests
        ensures { result ≡ [] }
    {
        Requests {
            facets: [Facet::root(); MOST_REQUESTS],
            len: 0,
        }
    }

    pub fn as_slice(&self) -> &[Facet]
        ensures value { result.now ≡ self.now }
        ensures requestable { requestable self.now ≡ true }
        ensures bound { length self.now ≤ 16 }
    {
        &self.facets[..self.len]
    }

    // Takes the facet in, where none is above or below it; nothing changes where it is refused, or is there already.
    pub fn add(&mut self, facet: Facet) -> Result<(), RequestFault>
        ensures added { Adds self.old facet result self.new }
        ensures worked { WorkedCases }
    {
        if self.is_above(&facet) {
            return Err(RequestFault::BelowRequested);
        }
        if self.is_below(&facet) {
            return Err(RequestFault::AboveRequested);
        }
        let Err(at) = self.as_slice().binary_search(&facet) else {
            return Ok(());
        };
        if self.len == MOST_REQUESTS {
            return Err(RequestFault::TooMany);
        }
        self.insert(at, facet);
        Ok(())
    }

    // Whether a requested facet is above this one.
    fn is_above(&self, facet: &Facet) -> bool
        ensures { result ≡ list_any (λ r. above r facet.now) self.now }
    {
        self.as_slice()
            .iter()
            .any(|request| request.is_prefix_of(facet))
    }

    // Whether a requested facet is below this one.
    fn is_below(&self, facet: &Facet) -> bool
        ensures { result ≡ list_any (λ r. above facet.now r) self.now }
    {
        self.as_slice()
            .iter()
            .any(|request| facet.is_prefix_of(request))
    }

    // Puts the facet at its place.
    fn insert(&mut self, at: usize, facet: Facet)
        requires room { length self.old < 16 }
        requires within { at ≤ length self.old }
        requires place { IsPartitionPoint (λ r. order r facet ≡ Less) (λ r. order r facet ≡ Greater) self.old at }
        requires requestable { requestable (inserted facet self.old) ≡ true }
        ensures { self.new ≡ inserted facet self.old }
    {
        self.facets.copy_within(at..self.len, at + 1);
        self.facets[at] = facet;
        self.len += 1;
    }
}
