// The collapse of a column: which child of a requested facet each term leads to.
ghost use Rattle.std.specs.Prelude.{◌≡◌, ℕ, ◌+◌, ◌<◌, ◌≤◌, true, [], length, MatchOption, MatchResult, position, ◌≢◌, slice_index_or};
ghost use Rattle.std.specs.declared.cmp.Ordering.TheVariants.{Greater};
ghost use Rattle.facet.specs.Paths.{order};
ghost use Rattle.std.specs.Ordering.{is_gt};
ghost use Rattle.segment.specs.Held.{terms_of};
ghost use Rattle.collector.specs.declared.fault.OpeningFault.TheVariants.{TooManyChildren as too_many};
ghost use Rattle.facet_collector.specs.Children.{requestable, children as children_of, leads};
ghost use Rattle.facet_collector.specs.Requests.{Sought, Ends, Walked, Told, Collapses};

use crate::requests::Requests;
use collector::OpeningFault;
use facet::{Facet, is_above, step_end};
use segment::Column;

pub const MOST_TERMS: usize = 4096;

pub const MOST_CHILDREN: usize = 128;

// stands for no child, so that an entry of the mapping is a pair and takes 8 bytes
pub const NOTHING: (u32, u8) = (u32::MAX, 0);

// Whether the facet stands behind the term.
fn is_behind(facet: &Facet, term: &[u8]) -> bool
    ensures { result ≡ is_gt (order facet.now term.now) }
{
    facet.encoded().cmp(term).is_gt()
}

// The first of the facets that stands behind the term.
fn first_behind(facets: &[Facet], term: &[u8]) -> Option<usize>
    ensures { result ≡ position (λ f. is_gt (order f term.now)) facets.now }
{
    facets.iter().position(|facet| is_behind(facet, term))
}

// The first requested facet that stands behind the term, where those before `from` do not.
fn seek(requests: &Requests, from: usize, term: &[u8]) -> usize
    requires within { from ≤ length requests.now }
    requires passed { (k : ℕ) → k < from → order (slice_index_or requests.now k []) term.now ≢ Greater }
    ensures sought { Sought requests.now term.now result }
    ensures requestable { requestable requests.now ≡ true }
{
    let facets = requests.as_slice();
    match first_behind(&facets[from..], term) {
        Some(further) => from + further,
        None => facets.len(),
    }
}

// Where in the term the child ends that it leads to, and the depth of the requested facet.
fn child_end(requests: &Requests, at: usize, term: &[u8]) -> Option<(usize, u8)>
    requires sought { Sought requests.now term.now at }
    requires short { length term.now ≤ 127 }
    ensures { MatchOption result (length (leads requests.now term.now) ≡ 0) (λ e. Ends requests.now term.now e.0 e.1) }
{
    let [.., request] = &requests.as_slice()[..at] else {
        return None;
    };
    if !is_above(request.encoded(), term) {
        return None;
    }
    let start = request.child_offset();
    let end = start + step_end(&term[start..]);
    // an empty first step is no child of the root
    if end == 0 {
        return None;
    }
    Some((end, request.depth()))
}

// Where a walk over the terms stands.
#[derive(Clone, Copy)]
struct Walk<'a> {
    // requested facets that do not stand behind the term
    at: usize,
    // the last child, and its first ordinal; nothing before the first, as no child is empty, so that one test tells both
    child: &'a [u8],
    first: u32,
    // how many children there are
    children: u8,
}

impl<'a> Walk<'a> {
    // What the next term leads to: the child's first ordinal with the requested facet's depth, and the child's number.
    fn step(
        &mut self,
        requests: &Requests,
        terms: &Column<'a>,
        ordinal: u32,
        term: &'a [u8],
    ) -> Result<Option<((u32, u8), u8)>, OpeningFault>
        requires walked { Walked requests.now (terms_of terms.now) ordinal self.old.at self.old.children self.old.child.now self.old.first }
        requires next { (ordinal < length (terms_of terms.now)) × (term.now ≡ slice_index_or (terms_of terms.now) ordinal []) }
        ensures { MatchResult result (λ o. Told requests.now (terms_of terms.now) ordinal o × Walked requests.now (terms_of terms.now) (ordinal + 1) self.new.at self.new.children self.new.child.now self.new.first) (λ e. (e ≡ too_many) × (128 < length (children_of requests.now (terms_of terms.now)))) }
    {
        self.at = seek(requests, self.at, term);
        let Some((end, depth)) = child_end(requests, self.at, term) else {
            return Ok(None);
        };
        let child = &term[..end];
        if child == self.child {
            return Ok(Some(((self.first, depth), self.children - 1)));
        }
        let slot = self.children;
        if slot as usize == MOST_CHILDREN {
            return Err(OpeningFault::TooManyChildren);
        }
        self.child = child;
        self.first = ordinal;
        self.children = slot + 1;
        Ok(Some(((ordinal, depth), slot)))
    }
}

// What the ordinals of a column are collapsed to.
#[derive(Drop)]
pub struct Collapse {
    // the child's first ordinal, and the requested facet's depth
    mapping: [(u32, u8); MOST_TERMS],
    // the child's number, in a table of its own, as an entry of the mapping is a pair
    slots: [Option<u8>; MOST_TERMS],
}

impl Collapse {
    pub fn new(requests: &Requests, column: &Column) -> Result<Collapse, OpeningFault>
        ensures { MatchResult result (λ c. Collapses requests.now (terms_of column.now) c.mapping c.slots) (λ e. (e ≡ too_many) × (128 < length (children_of requests.now (terms_of column.now)))) }
    {
        let mut mapping = [NOTHING; MOST_TERMS];
        let mut slots = [None; MOST_TERMS];
        let mut walk = Walk {
            at: 0,
            child: &[],
            first: 0,
            children: 0,
        };
        // by ordinal, since nothing would be known of tables that are lent to a chain
        let mut ordinal = 0;
        while let Some(term) = column.term(ordinal) {
            if let Some((entry, slot)) = walk.step(requests, column, ordinal, term)? {
                mapping[ordinal as usize] = entry;
                slots[ordinal as usize] = Some(slot);
            }
            ordinal += 1;
        }
        Ok(Collapse { mapping, slots })
    }
}
