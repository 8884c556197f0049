// Items that stand one behind the other, by their ends.
ghost use Rattle.std.specs.Prelude.{◌≡◌, ◌<◌, ◌≤◌, ⊤, [], length, IfOk, MatchOption, slice_index_or};
ghost use Rattle.std.specs.Result.{result_err};
ghost use Rattle.segment.specs.Columns.{ends_fault};
ghost use Rattle.segment.specs.Items.{start_of, items, AllWithin};

use crate::ends::check_ends;
use std::alloc::AllocError;

// Item i runs from the end before it, 0 for the first, up to its own end. A ghost field, since what is `Copy` and has a
// lifetime can have no model.
pub struct Items<'a, T> {
    pub all: &'a [T],
    pub ends: &'a [u32],
    ghost within: { AllWithin ends.now (length all.now) },
}

impl<'a, T> Copy for Items<'a, T> {}

// By hand, since a derive wants a `T` that is `Copy`.
impl<'a, T> Clone for Items<'a, T> {
    ghost is_clone = { λ s r. r ≡ s };

    ghost is_infallible = { λ _. ⊤ };

    fn clone(&self) -> Result<Items<'a, T>, AllocError> {
        Ok(*self)
    }
}

// Where item i starts.
pub(crate) fn start_of(ends: &[u32], i: usize) -> u32
    requires { i ≤ length ends.now }
    ensures { result ≡ start_of ends.now i }
{
    if i == 0 { 0 } else { ends[i - 1] }
}

impl<'a, T> Items<'a, T> {
    pub(crate) fn empty() -> Items<'a, T>
        ensures all { result.all.now ≡ [] }
        ensures ends { result.ends.now ≡ [] }
    {
        Items {
            all: &[],
            ends: &[],
        }
    }

    // The items, or the first end that is wrong.
    pub(crate) fn new(
        limit: Option<u32>,
        all: &'a [T],
        ends: &'a [u32],
    ) -> Result<Items<'a, T>, usize>
        ensures fault { result_err result ≡ ends_fault limit ends.now (length all.now) }
        ensures all { IfOk result (λ s. s.all ≡ all.entry) }
        ensures ends { IfOk result (λ s. s.ends ≡ ends.entry) }
    {
        check_ends(limit, ends, all.len())?;
        Ok(Items { all, ends })
    }

    pub(crate) fn len(&self) -> usize
        ensures ends { result ≡ length self.now.ends.now }
        ensures items { result ≡ length (items self.now.ends.now self.now.all.now) }
    {
        self.ends.len()
    }

    pub(crate) fn at(&self, i: usize) -> &'a [T]
        requires { i < length self.now.ends.now }
        ensures { result.now ≡ slice_index_or (items self.now.ends.now self.now.all.now) i [] }
    {
        let start = start_of(self.ends, i) as usize;
        let end = self.ends[i] as usize;
        &self.all[start..end]
    }

    // The item at a place, none past the last.
    pub(crate) fn get(&self, i: usize) -> Option<&'a [T]>
        ensures { MatchOption result (length (items self.now.ends.now self.now.all.now) ≤ i) (λ x. (i < length (items self.now.ends.now self.now.all.now)) × (x.now ≡ slice_index_or (items self.now.ends.now self.now.all.now) i [])) }
    {
        if i < self.len() {
            Some(self.at(i))
        } else {
            None
        }
    }
}
