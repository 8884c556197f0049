// A collector of this program's own: the largest document number seen.
ghost use Rattle.std.specs.Prelude.{◌≡◌, ℕ, true, Option as Maybe, refl};
ghost use Rattle.collecting.specs.Largest.{larger as larger_of, largest_m, largest_lawful};
ghost use Rattle.collector.specs.Places.{itself as only, no_facets};
ghost use Rattle.collector.specs.PartsLemmas.{parted_alone};

use collector::{CollectingFault, Collector, OpeningFault};
use docset::DocId;
use segment::Segment;

#[derive(Clone, Copy, Debug, Default)]
pub struct Largest;

// The larger of two numbers, where they are there.
fn larger(left: Option<DocId>, right: Option<DocId>) -> Option<DocId>
    ensures { result ≡ larger_of left right }
{
    match (left, right) {
        (Some(a), Some(b)) => Some(a.max(b)),
        (Some(a), None) => Some(a),
        (None, b) => b,
    }
}

impl Collector for Largest {
    type Child = Option<DocId>;

    type Fruit = Option<DocId>;

    ghost Value = { Maybe ℕ };

    ghost value = { λ v. v };

    ghost meaning = { λ _. largest_m };

    ghost same = { λ _ _. true };

    ghost opened = { λ _ _ _ _. Unit {0} };

    ghost held = { λ _ _ k. k };

    ghost places = { only (λ _. largest_m) (λ _ _. true) no_facets };

    ghost lawful = { λ _. largest_lawful };

    ghost itself = { λ _. refl };

    ghost agree = { λ _ _ _. refl };

    ghost parted = { parted_alone _ _ (λ _. largest_lawful) (λ _ _ _. refl) };

    fn for_segment(
        &self,
        _ordinal: u32,
        _segment: &Segment,
    ) -> Result<Option<DocId>, OpeningFault> {
        Ok(None)
    }

    fn would_fit(
        &self,
        _segment: &Segment,
        _child: &Option<DocId>,
        _doc: DocId,
        _score: f32,
    ) -> bool {
        true
    }

    fn add(&self, _segment: &Segment, child: &mut Option<DocId>, doc: DocId, _score: f32) {
        *child = larger(*child, Some(doc));
    }

    fn harvest(&self, _segment: &Segment, child: Option<DocId>) -> Option<DocId> {
        child
    }

    fn merge_fruits(
        &self,
        left: &Option<DocId>,
        right: &Option<DocId>,
    ) -> Result<Option<DocId>, CollectingFault> {
        Ok(larger(*left, *right))
    }

    fn requires_scoring(&self) -> bool {
        false
    }

    fn alike(&self, _other: &Largest) -> bool {
        true
    }
}
