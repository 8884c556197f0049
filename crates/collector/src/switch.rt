// A collector that can be switched off.
ghost use Rattle.std.specs.Prelude.{◌≡◌, Option as Maybe};
ghost use Rattle.std.specs.Option.{option_map};
ghost use Rattle.collector.specs.Combined.{switch_m, same_switch, OpenedSwitch};
ghost use Rattle.collector.specs.Places.{switch_places};
ghost use Rattle.collector.specs.PartsLemmas.{switch_parted};
ghost use Rattle.std.proofs.Common.{rules};

use crate::collector::Collector;
use crate::fault::{CollectingFault, OpeningFault};
use docset::DocId;
use segment::Segment;

// A yes or no beside its collector, and no `Option` of one: what is switched off keeps its collector.
#[derive(Clone, Copy, Debug, Drop)]
pub struct Switch<C> {
    on: bool,
    inner: C,
}

impl<C> Switch<C> {
    pub fn new(on: bool, inner: C) -> Switch<C>
        ensures { (result.on ≡ on) × (result.inner ≡ inner) }
    {
        Switch { on, inner }
    }

    pub fn is_on(&self) -> bool
        ensures { result ≡ self.now.on }
    {
        self.on
    }
}

impl<C: Collector> Collector for Switch<C> {
    type Child = Option<C::Child>;

    type Fruit = Option<C::Fruit>;

    ghost Value = { Maybe C.Collector.Value };

    ghost value = { λ f. option_map C.Collector.value f };

    ghost meaning = { λ s. switch_m s.on (C.Collector.meaning s.inner) };

    ghost same = { λ s t. same_switch s.on t.on (C.Collector.same s.inner t.inner) };

    ghost opened = { λ c n s k. OpenedSwitch c.on (C.Collector.opened c.inner n s) k };

    ghost held = { λ c s k. option_map (C.Collector.held c.inner s) k };

    ghost places = { switch_places (λ s. switch_m s.on (C.Collector.meaning s.inner)) (λ s t. same_switch s.on t.on (C.Collector.same s.inner t.inner)) (λ s. s.on) (λ s. s.inner) C.Collector.places };

    ghost lawful = { Prim.search rules };

    ghost itself = { Prim.search rules };

    ghost agree = { Prim.search rules };

    ghost parted = { let C' = C.Collector in switch_parted (λ s. s.on) (λ s. s.inner) C'.lawful C'.agree C'.parted };

    fn for_segment(
        &self,
        ordinal: u32,
        segment: &Segment,
    ) -> Result<Option<C::Child>, OpeningFault> {
        if self.on {
            self.inner.for_segment(ordinal, segment).map(Some)
        } else {
            Ok(None)
        }
    }

    fn would_fit(
        &self,
        segment: &Segment,
        child: &Option<C::Child>,
        doc: DocId,
        score: f32,
    ) -> bool {
        // A match: through `is_none_or` the fit stays open.
        match child {
            Some(inner) => self.inner.would_fit(segment, inner, doc, score),
            None => true,
        }
    }

    fn add(&self, segment: &Segment, child: &mut Option<C::Child>, doc: DocId, score: f32) {
        if let Some(inner) = child {
            self.inner.add(segment, inner, doc, score);
        }
    }

    fn harvest(&self, segment: &Segment, child: Option<C::Child>) -> Option<C::Fruit> {
        child.map(|inner| self.inner.harvest(segment, inner))
    }

    fn merge_fruits(
        &self,
        left: &Option<C::Fruit>,
        right: &Option<C::Fruit>,
    ) -> Result<Option<C::Fruit>, CollectingFault> {
        if !self.on {
            return Ok(None);
        }
        match (left, right) {
            (Some(a), Some(b)) => self.inner.merge_fruits(a, b).map(Some),
            _ => Ok(None),
        }
    }

    fn requires_scoring(&self) -> bool {
        self.on && self.inner.requires_scoring()
    }

    fn alike(&self, other: &Switch<C>) -> bool {
        if self.on && other.on {
            return self.inner.alike(&other.inner);
        }
        self.on == other.on
    }
}
