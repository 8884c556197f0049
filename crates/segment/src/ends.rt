// Ends that never fall, and end where they should.
ghost use Rattle.std.specs.Prelude.{◌≡◌};
ghost use Rattle.std.specs.Result.{result_err};
ghost use Rattle.segment.specs.Columns.{short as is_short, ends_fault};

use crate::first::all_pass;
use crate::items::start_of;

// Whether an item of this length is within the limit, if there is one.
fn short(limit: Option<u32>, len: u32) -> bool
    ensures { result ≡ is_short limit len }
{
    limit.is_none_or(|limit| len <= limit)
}

// The first end that falls or leaves an item that is too long, or the count where only the last end is wrong.
pub(crate) fn check_ends(limit: Option<u32>, ends: &[u32], total: usize) -> Result<(), usize>
    ensures { result_err result ≡ ends_fault limit ends.now total }
{
    let count = ends.len();
    all_pass(count, |i| {
        let start = start_of(ends, i);
        let end = ends[i];
        start <= end && short(limit, end - start)
    })?;
    if start_of(ends, count) as usize == total {
        Ok(())
    } else {
        Err(count)
    }
}
