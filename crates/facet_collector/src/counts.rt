// Counts of documents by facet.
ghost use Rattle.std.specs.Prelude.{◌≡◌, ◌==◌, ◌+◌, ◌<◌, ◌≤◌, true, false, [], length, take, IfNone, MatchOption};
ghost use Rattle.std.specs.List.{insert};
ghost use Rattle.collector.specs.Facets.{count_of};
ghost use Rattle.facet_collector.specs.Entries.{below, put, sums, sound, fits};
ghost use Rattle.facet_collector.specs.Fronts.{IsFront};
ghost use Rattle.facet_collector.specs.Ranks.{rank};
ghost use Rattle.facet_collector.specs.Placed.{Between, Placed, facet_at, entry as entry_of};

use crate::below::Below;
use crate::rank::Ranked;
use facet::Facet;
use std::marker::Model;

pub const MOST_ENTRIES: usize = 128;

pub const MOST_COUNT: u64 = 4_294_967_295;

// In the order of facets, each count above 0. A fixed array with a length: nothing here is on the heap.
#[derive(Drop)]
pub struct FacetCounts {
    entries: [(Facet, u64); MOST_ENTRIES],
    len: usize,
}

impl Model for FacetCounts {
    ghost use Rattle.std.specs.Prelude.{ℕ, List};

    ghost Value = { List (List ℕ × ℕ) };

    ghost use Rattle.facet_collector.specs.Held.{held, IsHeld};

    ghost view = { held };

    ghost invariant = { IsHeld };
}

// Puts an entry at the place of the first `len`, and moves those from there on by one.
fn shift_in(entries: &mut [(Facet, u64)], len: usize, at: usize, entry: (Facet, u64))
    requires at { at ≤ len }
    requires len { len < length entries.old }
    ensures front { take (len + 1) entries.new ≡ insert (take len entries.old) at entry }
    ensures len { length entries.new ≡ length entries.old }
{
    entries[len] = entry;
    entries[at..len + 1].rotate_right(1);
}

impl FacetCounts {
    pub fn new() -> FacetCounts
        ensures { result ≡ [] }
    {
        FacetCounts {
            entries: [(Facet::root(), 0); MOST_ENTRIES],
            len: 0,
        }
    }

    pub fn len(&self) -> usize
        ensures value { result ≡ length self.now }
        ensures bound { result ≤ 128 }
    {
        self.as_slice().len()
    }

    pub fn is_empty(&self) -> bool
        ensures { result ≡ (length self.now == 0) }
    {
        self.len == 0
    }

    // The entries, in the order of facets.
    pub(crate) fn as_slice(&self) -> &[(Facet, u64)]
        ensures value { result.now ≡ self.now }
        ensures sound { sound self.now ≡ true }
        ensures fits { fits self.now ≡ true }
    {
        &self.entries[..self.len]
    }

    // Where the facet's entry is, or where it would be put.
    fn place(&self, facet: &Facet) -> Result<usize, usize>
        ensures { Placed self.now facet.now result }
    {
        self.as_slice().binary_search_by_key(facet, |entry| entry.0)
    }

    // 0 without an entry.
    pub fn count(&self, facet: &Facet) -> u64
        ensures { result ≡ count_of self.now facet.now }
    {
        match self.place(facet) {
            Ok(at) => self.as_slice()[at].1,
            Err(_) => 0,
        }
    }

    // The entries strictly below the facet, in the order of facets.
    pub fn get<'a>(&'a self, facet: &'a Facet) -> Below<'a>
        ensures value { result ≡ below facet.now self.now }
        ensures bound { length result ≤ 128 }
    {
        Below::new(facet, self.as_slice())
    }

    // The first k of the entries strictly below the facet, or all of them: the higher count first, and then the smaller facet.
    pub fn top_k(&self, facet: &Facet, k: usize) -> Ranked
        ensures { IsFront rank k (below facet.now self.now) result }
    {
        Ranked::new(self.get(facet), k)
    }

    // Counts more at the entry of the place.
    fn raise(&mut self, at: usize, count: u64) -> Option<()>
        requires place { at < length self.old }
        requires count { 0 < count }
        ensures put { MatchOption result (fits (put (facet_at self.old at) count self.old) ≡ false) (λ _. self.new ≡ put (facet_at self.old at) count self.old) }
        ensures none { IfNone result (self.new ≡ self.old) }
    {
        let (facet, counted) = self.as_slice()[at];
        if count > MOST_COUNT - counted {
            return None;
        }
        self.entries[at] = (facet, counted + count);
        Some(())
    }

    // Puts an entry at the place.
    fn insert(&mut self, at: usize, facet: Facet, count: u64) -> Option<()>
        requires place { Between self.old facet at }
        requires count { 0 < count }
        ensures put { MatchOption result (fits (put facet count self.old) ≡ false) (λ _. self.new ≡ put facet count self.old) }
        ensures none { IfNone result (self.new ≡ self.old) }
    {
        if self.len == MOST_ENTRIES || count > MOST_COUNT {
            return None;
        }
        shift_in(&mut self.entries, self.len, at, (facet, count));
        self.len += 1;
        Some(())
    }

    // Counts more at a facet, where that fits.
    pub fn add(&mut self, facet: Facet, count: u64) -> Option<()>
        ensures added { MatchOption result (fits (sums self.old (entry_of facet count)) ≡ false) (λ _. self.new ≡ sums self.old (entry_of facet count)) }
        ensures none { IfNone result (self.new ≡ self.old) }
    {
        if count == 0 {
            return Some(());
        }
        match self.place(&facet) {
            Ok(at) => self.raise(at, count),
            Err(at) => self.insert(at, facet, count),
        }
    }

    // Counts more at each facet of entries, where all that fits.
    fn add_all(&mut self, entries: &[(Facet, u64)]) -> Option<()>
        requires { sound entries.now ≡ true }
        ensures { MatchOption result (fits (sums self.old entries.now) ≡ false) (λ _. self.new ≡ sums self.old entries.now) }
    {
        for (facet, count) in entries {
            self.add(*facet, *count)?;
        }
        Some(())
    }

    // The counts of both, where they fit.
    pub fn join(&self, other: &FacetCounts) -> Option<FacetCounts>
        ensures { MatchOption result (fits (sums self.now other.now) ≡ false) (λ counts. counts ≡ sums self.now other.now) }
    {
        let mut counts = FacetCounts::new();
        counts.add_all(self.as_slice())?;
        counts.add_all(other.as_slice())?;
        Some(counts)
    }
}
