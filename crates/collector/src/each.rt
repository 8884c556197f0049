// Documents of one segment, collected and harvested.
ghost use Rattle.std.specs.Prelude.{◌≡◌};
ghost use Rattle.std.specs.Result.{result_map_both};
ghost use Rattle.collector.specs.Collecting.{block};
ghost use Rattle.collector.specs.Collections.{collection, Joined, AnyScores, Alone};
ghost use Rattle.collector.specs.Contents.{contents};

use crate::collector::Collector;
use crate::fault::CollectorFault;
use docset::{COLLECT_BLOCK_BUFFER_LEN, DocId};
use segment::Segment;

// The fruit of documents with their scores, one by one; or the first refusal.
pub fn collect_each<C: Collector>(
    collector: &C,
    ordinal: u32,
    segment: &Segment,
    docs: &[(DocId, f32)],
) -> Result<C::Fruit, CollectorFault>
    ensures answer { result_map_both C.Collector.value (λ e. e) result ≡ collection (C.Collector.meaning collector.now) ordinal (contents segment.now) docs.now }
    ensures joined { Joined (C.Collector.meaning collector.now) ordinal (contents segment.now) docs.now (result_map_both C.Collector.value (λ e. e) result) }
    ensures parts { Alone C.Collector.places collector.now ordinal (contents segment.now) docs.now (result_map_both C.Collector.value (λ e. e) result) }
{
    let mut child = collector.for_segment(ordinal, segment)?;
    // A loop: `?` leaves it at the first refusal, and a closure that changes the child would be no plainer.
    for (doc, score) in docs {
        collector.collect(segment, &mut child, *doc, *score)?;
    }
    Ok(collector.harvest(segment, child))
}

// The fruit of documents, block by block, each with score 0; or the first refusal.
pub fn collect_blocks<C: Collector>(
    collector: &C,
    ordinal: u32,
    segment: &Segment,
    docs: &[DocId],
) -> Result<C::Fruit, CollectorFault>
    ensures answer { result_map_both C.Collector.value (λ e. e) result ≡ collection (C.Collector.meaning collector.now) ordinal (contents segment.now) (block docs.now) }
    ensures joined { Joined (C.Collector.meaning collector.now) ordinal (contents segment.now) (block docs.now) (result_map_both C.Collector.value (λ e. e) result) }
    ensures unscored { AnyScores (C.Collector.meaning collector.now) ordinal (contents segment.now) docs.now (result_map_both C.Collector.value (λ e. e) result) }
{
    let mut child = collector.for_segment(ordinal, segment)?;
    for block in docs.chunks(COLLECT_BLOCK_BUFFER_LEN) {
        collector.collect_block(segment, &mut child, block)?;
    }
    Ok(collector.harvest(segment, child))
}
