// The first hits by their order.
ghost use Rattle.std.specs.Prelude.{◌≡◌, ◌≤◌, ◌==◌, length, take};
ghost use Rattle.facet_collector.specs.Fronts.{IsFront};
ghost use Rattle.facet_collector.specs.Ranks.{rank as rank_of};

use crate::below::Below;
use crate::hit::Hit;
use facet::Facet;
use std::marker::Model;

const MOST_HITS: usize = 128;

// In their order. A fixed array with a length: nothing here is on the heap.
#[derive(Drop)]
pub struct Ranked {
    hits: [Hit; MOST_HITS],
    len: usize,
}

impl Model for Ranked {
    ghost use Rattle.std.specs.Prelude.{ℕ, ◌≡◌, ◌≤◌, List, length, take};

    ghost Value = { List (List ℕ × ℕ) };

    ghost view = { λ r. take r.len r.hits };

    ghost invariant = { λ r. (length r.hits ≡ 128) × (r.len ≤ 128) };
}

// Puts the first k in front, in order, and answers how many they are.
fn rank<T: Ord>(records: &mut [T], k: usize) -> usize
    ensures bound { result ≤ length records.old }
    ensures len { length records.new ≡ length records.old }
    ensures front { IsFront T.cmp k records.old (take result records.new) }
{
    records.sort_unstable();
    k.min(records.len())
}

// The entries as hits, and how many they are.
fn gather(entries: Below) -> ([Hit; MOST_HITS], usize)
    requires { length entries ≤ 128 }
    ensures bound { result.1 ≤ 128 }
    ensures full { length result.0 ≡ 128 }
    ensures hits { take result.1 result.0 ≡ entries.entry }
{
    let mut hits = [Hit {
        facet: Facet::root(),
        count: 0,
    }; MOST_HITS];
    let mut len = 0;
    for (facet, count) in entries {
        hits[len] = Hit {
            facet: *facet,
            count,
        };
        len += 1;
    }
    (hits, len)
}

impl Ranked {
    // The first k of the entries, or all of them.
    pub(crate) fn new(entries: Below, k: usize) -> Ranked
        requires { length entries ≤ 128 }
        ensures { IsFront rank_of k entries.entry result }
    {
        let (mut hits, len) = gather(entries);
        let len = rank(&mut hits[..len], k);
        Ranked { hits, len }
    }

    pub fn as_slice(&self) -> &[Hit]
        ensures { result.now ≡ self.now }
    {
        &self.hits[..self.len]
    }

    pub fn len(&self) -> usize
        ensures { result ≡ length self.now }
    {
        self.as_slice().len()
    }

    pub fn is_empty(&self) -> bool
        ensures { result ≡ (length self.now == 0) }
    {
        self.len == 0
    }
}
