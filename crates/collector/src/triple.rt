// Three collectors side by side. A tuple of three is no pair, so it has an impl of its own, written out, since one that a
// macro writes is refused; it means the pair of its first and the pair of the others.
ghost use Rattle.std.specs.Prelude.{◌≡◌};
ghost use Rattle.collector.specs.Combined.{triple_of, same_triple};
ghost use Rattle.collector.specs.Places.{triple_places};
ghost use Rattle.collector.specs.PartsLemmas.{triple_agree, triple_parted};
ghost use Rattle.std.proofs.Common.{rules};

use crate::collector::Collector;
use crate::fault::{CollectingFault, OpeningFault};
use docset::DocId;
use segment::Segment;

impl<A: Collector, B: Collector, C: Collector> Collector for (A, B, C) {
    type Child = (A::Child, B::Child, C::Child);

    type Fruit = (A::Fruit, B::Fruit, C::Fruit);

    ghost Value = { A.Collector.Value × (B.Collector.Value × C.Collector.Value) };

    ghost value = { λ f. (A.Collector.value f.0, (B.Collector.value f.1, C.Collector.value f.2)) };

    ghost meaning = { triple_of A.Collector.meaning B.Collector.meaning C.Collector.meaning };

    ghost same = { same_triple A.Collector.same B.Collector.same C.Collector.same };

    ghost opened = { λ c n s k. A.Collector.opened c.0 n s k.0 × B.Collector.opened c.1 n s k.1 × C.Collector.opened c.2 n s k.2 };

    ghost held = { λ c s k. (A.Collector.held c.0 s k.0, (B.Collector.held c.1 s k.1, C.Collector.held c.2 s k.2)) };

    ghost places = { triple_places A.Collector.meaning B.Collector.meaning C.Collector.meaning A.Collector.same B.Collector.same C.Collector.same A.Collector.places B.Collector.places C.Collector.places };

    ghost lawful = { Prim.search rules };

    ghost itself = { Prim.search rules };

    ghost agree = { triple_agree A.Collector.agree B.Collector.agree C.Collector.agree };

    ghost parted = { let A' = A.Collector in
        let B' = B.Collector in
        let C' = C.Collector in
        triple_parted A'.lawful B'.lawful C'.lawful A'.agree B'.agree C'.agree A'.parted B'.parted C'.parted };

    fn for_segment(
        &self,
        ordinal: u32,
        segment: &Segment,
    ) -> Result<(A::Child, B::Child, C::Child), OpeningFault> {
        let one = self.0.for_segment(ordinal, segment)?;
        let two = self.1.for_segment(ordinal, segment)?;
        let three = self.2.for_segment(ordinal, segment)?;
        Ok((one, two, three))
    }

    fn would_fit(
        &self,
        segment: &Segment,
        child: &(A::Child, B::Child, C::Child),
        doc: DocId,
        score: f32,
    ) -> bool {
        self.0.would_fit(segment, &child.0, doc, score)
            && self.1.would_fit(segment, &child.1, doc, score)
            && self.2.would_fit(segment, &child.2, doc, score)
    }

    fn add(
        &self,
        segment: &Segment,
        child: &mut (A::Child, B::Child, C::Child),
        doc: DocId,
        score: f32,
    ) {
        self.0.add(segment, &mut child.0, doc, score);
        self.1.add(segment, &mut child.1, doc, score);
        self.2.add(segment, &mut child.2, doc, score);
    }

    fn harvest(
        &self,
        segment: &Segment,
        child: (A::Child, B::Child, C::Child),
    ) -> (A::Fruit, B::Fruit, C::Fruit) {
        let (one, two, three) = child;
        (
            self.0.harvest(segment, one),
            self.1.harvest(segment, two),
            self.2.harvest(segment, three),
        )
    }

    fn merge_fruits(
        &self,
        left: &(A::Fruit, B::Fruit, C::Fruit),
        right: &(A::Fruit, B::Fruit, C::Fruit),
    ) -> Result<(A::Fruit, B::Fruit, C::Fruit), CollectingFault> {
        let one = self.0.merge_fruits(&left.0, &right.0)?;
        let two = self.1.merge_fruits(&left.1, &right.1)?;
        let three = self.2.merge_fruits(&left.2, &right.2)?;
        Ok((one, two, three))
    }

    fn requires_scoring(&self) -> bool {
        self.0.requires_scoring() || self.1.requires_scoring() || self.2.requires_scoring()
    }

    fn alike(&self, other: &(A, B, C)) -> bool {
        self.0.alike(&other.0) && self.1.alike(&other.1) && self.2.alike(&other.2)
    }
}
