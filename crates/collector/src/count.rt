// How many documents there are.
ghost use Rattle.std.specs.Prelude.{◌≡◌, ℕ, true};
ghost use Rattle.collector.specs.Collecting.{merged};
ghost use Rattle.collector.specs.Counts.{count_m};
ghost use Rattle.collector.specs.Places.{itself as only, no_facets};
ghost use Rattle.std.proofs.Common.{rules};

use crate::collector::Collector;
use crate::fault::{CollectingFault, OpeningFault};
use docset::DocId;
use segment::Segment;

// The sum of two counts, where it fits: how `Count` and `Floor` both join their fruits. What else they share is one line
// in each, and a trait that held it would be no plainer.
pub(crate) fn merge_counts(left: &u32, right: &u32) -> Result<u32, CollectingFault>
    ensures { result ≡ merged count_m left.now right.now }
{
    left.checked_add(*right).ok_or(CollectingFault::Unfit)
}

// Counts all documents.
#[derive(Clone, Copy, Debug, Default)]
pub struct Count;

impl Collector for Count {
    type Child = u32;

    type Fruit = u32;

    ghost Value = { ℕ };

    ghost value = { λ n. n };

    ghost meaning = { λ _. count_m };

    ghost same = { λ _ _. true };

    ghost opened = { λ _ _ _ _. Unit {0} };

    ghost held = { λ _ _ k. k };

    ghost places = { only (λ _. count_m) (λ _ _. true) no_facets };

    ghost lawful = { Prim.search rules };

    ghost itself = { Prim.search rules };

    ghost agree = { Prim.search rules };

    ghost parted = { Prim.search rules };

    fn for_segment(&self, _ordinal: u32, _segment: &Segment) -> Result<u32, OpeningFault> {
        Ok(0)
    }

    fn would_fit(&self, _segment: &Segment, child: &u32, _doc: DocId, _score: f32) -> bool {
        *child < u32::MAX
    }

    fn add(&self, _segment: &Segment, child: &mut u32, _doc: DocId, _score: f32) {
        *child = child.saturating_add(1);
    }

    fn harvest(&self, _segment: &Segment, child: u32) -> u32 {
        child
    }

    fn merge_fruits(&self, left: &u32, right: &u32) -> Result<u32, CollectingFault> {
        merge_counts(left, right)
    }

    fn requires_scoring(&self) -> bool {
        false
    }

    fn alike(&self, _other: &Count) -> bool {
        true
    }
}
