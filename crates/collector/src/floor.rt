// How many documents have a score that reaches a floor.
ghost use Rattle.std.specs.Prelude.{◌≡◌, ℕ, true, false, MatchResult, is_nan};
ghost use Rattle.std.specs.Float.Ieee.{eq as equal};
ghost use Rattle.collector.specs.Counts.{floor_m};
ghost use Rattle.collector.specs.Places.{itself as only, no_facets};
ghost use Rattle.collector.specs.Scores.{reaches};
ghost use Rattle.collector.specs.declared.fault.FloorFault.TheVariants.{NotANumber};
ghost use Rattle.collector.specs.FloorLemmas.{floor_lawful, floor_agree};
ghost use Rattle.collector.specs.PartsLemmas.{parted_alone};
ghost use Rattle.collector.specs.ScoresLemmas.{eq_itself};

use crate::collector::Collector;
use crate::count::merge_counts;
use crate::fault::{CollectingFault, FloorFault, OpeningFault};
use docset::DocId;
use segment::Segment;

#[derive(Clone, Copy, Debug)]
pub struct Floor {
    floor: f32,
    ghost number: { is_nan floor ≡ false },
}

impl Floor {
    // A floor that is a number.
    pub fn new(floor: f32) -> Result<Floor, FloorFault>
        ensures { MatchResult result (λ f. (is_nan floor ≡ false) × (f.floor ≡ floor)) (λ e. (is_nan floor ≡ true) × (e ≡ NotANumber)) }
    {
        if floor.is_nan() {
            return Err(FloorFault::NotANumber);
        }
        Ok(Floor { floor })
    }

    // Whether a score is a number and not below the floor.
    pub fn is_reached(&self, score: f32) -> bool
        ensures { result ≡ reaches self.now.floor score }
    {
        score >= self.floor
    }
}

impl Collector for Floor {
    type Child = u32;

    type Fruit = u32;

    ghost Value = { ℕ };

    ghost value = { λ n. n };

    ghost meaning = { λ f. floor_m f.floor };

    ghost same = { λ f g. equal f.floor g.floor };

    ghost opened = { λ _ _ _ _. Unit {0} };

    ghost held = { λ _ _ k. k };

    ghost places = { only (λ f. floor_m f.floor) (λ f g. equal f.floor g.floor) no_facets };

    ghost lawful = { λ c. floor_lawful c.floor };

    ghost itself = { λ c. eq_itself c.floor c.number };

    ghost agree = { λ c d. floor_agree c.floor d.floor };

    ghost parted = { parted_alone _ _ (λ c. floor_lawful c.floor) (λ c d. floor_agree c.floor d.floor) };

    fn for_segment(&self, _ordinal: u32, _segment: &Segment) -> Result<u32, OpeningFault> {
        Ok(0)
    }

    fn would_fit(&self, _segment: &Segment, child: &u32, _doc: DocId, score: f32) -> bool {
        *child < u32::MAX || !self.is_reached(score)
    }

    fn add(&self, _segment: &Segment, child: &mut u32, _doc: DocId, score: f32) {
        if self.is_reached(score) {
            *child = child.saturating_add(1);
        }
    }

    fn harvest(&self, _segment: &Segment, child: u32) -> u32 {
        child
    }

    fn merge_fruits(&self, left: &u32, right: &u32) -> Result<u32, CollectingFault> {
        merge_counts(left, right)
    }

    fn requires_scoring(&self) -> bool {
        true
    }

    fn alike(&self, other: &Floor) -> bool {
        self.floor == other.floor
    }
}
