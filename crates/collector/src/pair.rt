// Two collectors side by side.
ghost use Rattle.std.specs.Prelude.{◌≡◌};
ghost use Rattle.collector.specs.Combined.{pair_of, same_pair};
ghost use Rattle.collector.specs.Places.{pair_places};
ghost use Rattle.collector.specs.PartsLemmas.{pair_agree, pair_parted};
ghost use Rattle.std.proofs.Common.{rules};

use crate::collector::Collector;
use crate::fault::{CollectingFault, OpeningFault};
use docset::DocId;
use segment::Segment;

impl<A: Collector, B: Collector> Collector for (A, B) {
    type Child = (A::Child, B::Child);

    type Fruit = (A::Fruit, B::Fruit);

    ghost Value = { A.Collector.Value × B.Collector.Value };

    ghost value = { λ f. (A.Collector.value f.0, B.Collector.value f.1) };

    ghost meaning = { pair_of A.Collector.meaning B.Collector.meaning };

    ghost same = { same_pair A.Collector.same B.Collector.same };

    ghost opened = { λ c n s k. A.Collector.opened c.0 n s k.0 × B.Collector.opened c.1 n s k.1 };

    ghost held = { λ c s k. (A.Collector.held c.0 s k.0, B.Collector.held c.1 s k.1) };

    ghost places = { pair_places A.Collector.meaning B.Collector.meaning A.Collector.same B.Collector.same A.Collector.places B.Collector.places };

    ghost lawful = { Prim.search rules };

    ghost itself = { Prim.search rules };

    ghost agree = { pair_agree A.Collector.agree B.Collector.agree };

    ghost parted = { let A' = A.Collector in
        let B' = B.Collector in pair_parted A'.lawful B'.lawful A'.agree B'.agree A'.parted B'.parted };

    fn for_segment(
        &self,
        ordinal: u32,
        segment: &Segment,
    ) -> Result<(A::Child, B::Child), OpeningFault> {
        let left = self.0.for_segment(ordinal, segment)?;
        let right = self.1.for_segment(ordinal, segment)?;
        Ok((left, right))
    }

    fn would_fit(
        &self,
        segment: &Segment,
        child: &(A::Child, B::Child),
        doc: DocId,
        score: f32,
    ) -> bool {
        self.0.would_fit(segment, &child.0, doc, score)
            && self.1.would_fit(segment, &child.1, doc, score)
    }

    fn add(&self, segment: &Segment, child: &mut (A::Child, B::Child), doc: DocId, score: f32) {
        self.0.add(segment, &mut child.0, doc, score);
        self.1.add(segment, &mut child.1, doc, score);
    }

    fn harvest(&self, segment: &Segment, child: (A::Child, B::Child)) -> (A::Fruit, B::Fruit) {
        let (left, right) = child;
        (
            self.0.harvest(segment, left),
            self.1.harvest(segment, right),
        )
    }

    fn merge_fruits(
        &self,
        left: &(A::Fruit, B::Fruit),
        right: &(A::Fruit, B::Fruit),
    ) -> Result<(A::Fruit, B::Fruit), CollectingFault> {
        let first = self.0.merge_fruits(&left.0, &right.0)?;
        let second = self.1.merge_fruits(&left.1, &right.1)?;
        Ok((first, second))
    }

    fn requires_scoring(&self) -> bool {
        self.0.requires_scoring() || self.1.requires_scoring()
    }

    fn alike(&self, other: &(A, B)) -> bool {
        self.0.alike(&other.0) && self.1.alike(&other.1)
    }
}
