// Facets as paths.
ghost use Rattle.std.specs.Prelude.{◌≡◌, ◌≤◌, length, MatchOption};
ghost use Rattle.facet.specs.Laws.{Prefix, OnTheWay, NoWay};
ghost use Rattle.facet.specs.Paths.{steps, depth as steps_of, first_step, above, child_offset, at_or_below};
ghost use Rattle.facet.specs.Pieces.{join};

use super::{Facet, SEPARATOR};
use crate::pieces::piece_len;

// How many bytes the first step of a part of a facet has.
pub fn step_end(part: &[u8]) -> usize
    ensures { result ≡ length (first_step part.now) }
{
    piece_len(part, SEPARATOR)
}

// Whether the facet of the first encoding is above that of the second.
pub fn is_above(encoded: &[u8], below: &[u8]) -> bool
    ensures { result ≡ above encoded.now below.now }
{
    if below.len() <= encoded.len() {
        return false;
    }
    // the root has no separator behind it
    if encoded.is_empty() {
        return true;
    }
    below.starts_with(encoded) && below[encoded.len()] == SEPARATOR
}

impl Facet {
    // How many steps there are.
    pub fn depth(&self) -> u8
        ensures value { result ≡ steps_of self.now }
        ensures joined { join 0 (steps self.now) ≡ self.now }
    {
        if self.is_root() {
            return 0;
        }
        // a fold, since std's `count` of a filter takes seven times as long
        let separators = self
            .encoded()
            .iter()
            .fold(0u8, |n, b| n.wrapping_add(u8::from(*b == SEPARATOR)));
        separators + 1
    }

    // Whether this facet is above the other.
    pub fn is_prefix_of(&self, other: &Facet) -> bool
        ensures { Prefix self.now other.now result }
    {
        is_above(self.encoded(), other.encoded())
    }

    // Whether this facet is the branch, or below it.
    pub fn is_at_or_below(&self, branch: &Facet) -> bool
        ensures { result ≡ at_or_below self.now branch.now }
    {
        *self == *branch || branch.is_prefix_of(self)
    }

    // Where in a facet below this one the step of the child begins.
    pub fn child_offset(&self) -> usize
        ensures value { result ≡ child_offset self.now }
        ensures bound { result ≤ 128 }
    {
        // the root has no separator behind it
        if self.is_root() {
            0
        } else {
            self.len as usize + 1
        }
    }

    // The child of this facet that the other is at or below.
    pub fn child_toward(&self, other: &Facet) -> Option<Facet>
        ensures { MatchOption result (NoWay self.now other.now) (OnTheWay self.now other.now) }
    {
        if !self.is_prefix_of(other) {
            return None;
        }
        let below = other.encoded();
        let start = self.child_offset();
        let end = start + step_end(&below[start..]);
        // an empty first step is no child of the root
        if end == 0 {
            return None;
        }
        Some(Facet::hold(&below[..end]))
    }
}
