// What is asked of the rows of a column.
ghost use Rattle.std.specs.Prelude.{◌≡◌, ◌+◌, ◌^◌, ◌<◌, leb, length, IfOk};
ghost use Rattle.std.specs.Option.{option_map};
ghost use Rattle.std.specs.Result.{result_err};
ghost use Rattle.segment.specs.Columns.{after, falls_from, rows_fault};
ghost use Rattle.segment.specs.Items.{items, first_failing};

use crate::fault::ColumnFault;
use crate::first::all_pass;
use crate::items::{Items, start_of};

// Whether no ordinal of a row falls, and else the place of the first that does, where the row begins at `start`.
fn check_row(row: &[u32], start: usize) -> Result<(), usize>
    requires { start + length row.now < 2 ^ 64 }
    ensures { result_err result ≡ option_map (λ k. start + k) (first_failing (after 0 leb row.now) 0 (length row.now)) }
{
    all_pass(row.len(), |k| k == 0 || row[k - 1] <= row[k]).map_err(|k| start + k)
}

// The same of each row.
fn check_rises(rows: Items<u32>) -> Result<(), usize>
    ensures { result_err result ≡ falls_from 0 (items rows.entry.ends.now rows.entry.all.now) }
{
    // by place, since a row is asked with where it begins; `try_for_each` over places would be no plainer
    for i in 0..rows.len() {
        check_row(rows.at(i), start_of(rows.ends, i) as usize)?;
    }
    Ok(())
}

// The rows of a column of so many terms, or the first question that they fail.
pub(crate) fn rows<'a>(
    ordinals: &'a [u32],
    ends: &'a [u32],
    terms: usize,
) -> Result<Items<'a, u32>, ColumnFault>
    ensures fault { result_err result ≡ rows_fault ends.now ordinals.now terms }
    ensures all { IfOk result (λ r. r.all ≡ ordinals.entry) }
    ensures ends { IfOk result (λ r. r.ends ≡ ends.entry) }
{
    let rows = Items::new(None, ordinals, ends).map_err(ColumnFault::RowEnds)?;
    all_pass(ordinals.len(), |i| (ordinals[i] as usize) < terms).map_err(ColumnFault::NoTerm)?;
    check_rises(rows).map_err(ColumnFault::OrdinalOrder)?;
    Ok(rows)
}
