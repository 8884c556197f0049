// What every collector is.
ghost use Rattle.std.specs.Prelude.{◌≡◌, ℕ, Bool, true, [], ◌∷◌, OnErr};
ghost use Rattle.std.specs.Result.{result_map_both};
ghost use Rattle.segment.specs.declared.segment.Segment.{Segment as Seg};
ghost use Rattle.collector.specs.Collecting.{Opens, Adds, Collects, more_fits, block, merged};
ghost use Rattle.collector.specs.Contents.{contents};
ghost use Rattle.collector.specs.Meaning.{Meaning, Laws};
ghost use Rattle.collector.specs.Parts.{Parted};
ghost use Rattle.collector.specs.Places.{Places};

use crate::fault::{CollectingFault, OpeningFault};
use docset::DocId;
use segment::Segment;

// A child is handed its segment at each call. Handed another, it means anything, but stays in bounds: so each clause on a
// child begins with whether it was opened, which is said by two members of the trait and would be no plainer under a name.
pub trait Collector {
    // what collects within one segment
    type Child: Drop;

    // what a collection gives
    type Fruit: Drop;

    // what a fruit means
    ghost Value: { Type 0 };

    ghost value: { Self.Fruit → Value };

    ghost meaning: { Self → Meaning Value };

    // whether two are alike
    ghost same: { Self → Self → Bool };

    // a child that was opened for a segment of this ordinal
    ghost opened: { Self → ℕ → Seg → Self.Child → Type 0 };

    // what such a child means
    ghost held: { Self → Seg → Self.Child → Value };

    // the collectors within it
    ghost places: { Places Self Value };

    // A blank child for a segment, or why the segment is refused.
    fn for_segment(&self, ordinal: u32, segment: &Segment) -> Result<Self::Child, OpeningFault>
        ensures { Opens (meaning self.now) (opened self.now ordinal segment.now) (held self.now segment.now) (contents segment.now) result };

    // Whether the child's fruit with the document would fit.
    fn would_fit(&self, segment: &Segment, child: &Self::Child, doc: DocId, score: f32) -> bool
        ensures { (n : ℕ) → opened self.now n segment.now child.now → result ≡ more_fits (meaning self.now) n (contents segment.now) (held self.now segment.now child.now) (doc, score) };

    // Joins what a document is worth. It is meant for where the fruit with it fits: asking first lets a pair refuse
    // without undoing.
    fn add(&self, segment: &Segment, child: &mut Self::Child, doc: DocId, score: f32)
        ensures { (n : ℕ) → opened self.now n segment.now child.old → more_fits (meaning self.now) n (contents segment.now) (held self.now segment.now child.old) (doc, score) ≡ true → Adds (meaning self.now) (opened self.now n segment.now) (held self.now segment.now) n (contents segment.now) (doc, score) child.old child.new };

    // Collects a document of the segment, where the fruit with it fits; else the child stays as it is.
    fn collect(
        &self,
        segment: &Segment,
        child: &mut Self::Child,
        doc: DocId,
        score: f32,
    ) -> Result<(), CollectingFault>
        ensures collects { (n : ℕ) → opened self.now n segment.now child.old → Collects (meaning self.now) (opened self.now n segment.now) (held self.now segment.now) n (contents segment.now) ((doc, score) ∷ []) child.old child.new result }
        ensures kept { OnErr result (child.new ≡ child.old) }
    {
        if doc >= segment.num_docs() {
            return Err(CollectingFault::NoDocument);
        }
        if !self.would_fit(segment, child, doc, score) {
            return Err(CollectingFault::Unfit);
        }
        self.add(segment, child, doc, score);
        Ok(())
    }

    // Collects documents one by one, each with score 0, up to the first refused one.
    fn collect_block(
        &self,
        segment: &Segment,
        child: &mut Self::Child,
        docs: &[DocId],
    ) -> Result<(), CollectingFault>
        ensures { (n : ℕ) → opened self.now n segment.now child.old → Collects (meaning self.now) (opened self.now n segment.now) (held self.now segment.now) n (contents segment.now) (block docs.now) child.old child.new result }
    {
        for doc in docs {
            self.collect(segment, child, *doc, 0.0)?;
        }
        Ok(())
    }

    // What the child means, as a fruit.
    fn harvest(&self, segment: &Segment, child: Self::Child) -> Self::Fruit
        ensures { (n : ℕ) → opened self.now n segment.now child → value result ≡ held self.now segment.now child };

    // The join of two fruits, where it fits.
    fn merge_fruits(
        &self,
        left: &Self::Fruit,
        right: &Self::Fruit,
    ) -> Result<Self::Fruit, CollectingFault>
        ensures { result_map_both value (λ e. e) result ≡ merged (meaning self.now) (value left.now) (value right.now) };

    fn requires_scoring(&self) -> bool
        ensures { result ≡ (meaning self.now).scored };

    fn alike(&self, other: &Self) -> bool
        ensures { result ≡ same self.now other.now };

    ghost lawful: { (c : Self) → Laws (meaning c) };

    ghost itself: { (c : Self) → same c c ≡ true };

    ghost agree: { (c d : Self) → same c d ≡ true → meaning c ≡ meaning d };

    ghost parted: { Parted meaning same places };
}
