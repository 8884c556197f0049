// What is asked of each term of a column.
ghost use Rattle.std.specs.Prelude.{◌≡◌, ◌<◌, [], length, IfOk};
ghost use Rattle.std.specs.Result.{result_err};
ghost use Rattle.facet.specs.Paths.{steps};
ghost use Rattle.segment.specs.Columns.{after, full, rises as rises_to, each_fault, terms_fault};
ghost use Rattle.segment.specs.Items.{items};

use crate::fault::ColumnFault;
use crate::first::all_pass;
use crate::items::Items;
use utf8::is_utf8;

const LONGEST_TERM: u32 = 127;

// Whether each step of a term has a byte.
fn is_full(term: &[u8]) -> bool
    ensures { result ≡ full (steps term.now) }
{
    if term.is_empty() {
        return true;
    }
    // a separator has a byte before it and is not the last: a fold without branches, since `split` takes longer where
    // steps are short
    let (full, last) = term.iter().fold((true, 0), |(full, before), b| {
        (full & ((before != 0) | (*b != 0)), *b)
    });
    full & (last != 0)
}

// Whether a term is greater than the one before, if there is one.
fn rises(terms: Items<u8>, i: usize) -> bool
    requires { i < length terms.ends.now }
    ensures { result ≡ after [] rises_to (items terms.entry.ends.now terms.entry.all.now) i }
{
    // `cmp` passes over equal bytes in groups, and `<` goes byte by byte
    i == 0 || terms.at(i - 1).cmp(terms.at(i)).is_lt()
}

// Whether each term is UTF-8, has no empty step, and is greater than the one before.
fn check_each(terms: Items<u8>) -> Result<(), ColumnFault>
    ensures { result_err result ≡ each_fault terms.entry.all.now terms.entry.ends.now }
{
    let count = terms.len();
    all_pass(count, |i| is_utf8(terms.at(i))).map_err(ColumnFault::TermNotUtf8)?;
    all_pass(count, |i| is_full(terms.at(i))).map_err(ColumnFault::EmptyStep)?;
    all_pass(count, |i| rises(terms, i)).map_err(ColumnFault::TermOrder)
}

// The terms of a column, or the first question that they fail.
pub(crate) fn terms<'a>(bytes: &'a [u8], ends: &'a [u32]) -> Result<Items<'a, u8>, ColumnFault>
    ensures fault { result_err result ≡ terms_fault bytes.now ends.now }
    ensures all { IfOk result (λ t. t.all ≡ bytes.entry) }
    ensures ends { IfOk result (λ t. t.ends ≡ ends.entry) }
{
    let terms = Items::new(Some(LONGEST_TERM), bytes, ends).map_err(ColumnFault::TermEnds)?;
    check_each(terms)?;
    Ok(terms)
}
