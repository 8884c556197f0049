// A column from tables that were checked, and what it holds.
ghost use Rattle.std.specs.Prelude.{◌≡◌, ◌<◌, ◌≤◌, true, [], length, MatchOption, slice_index_or};
ghost use Rattle.segment.specs.Tables.{are_sound, table_terms, table_rows};
ghost use Rattle.segment.specs.Laws.{Worked};
ghost use Rattle.segment.specs.Held.{terms_of, rows_of, TablesOf};
ghost use Rattle.segment.specs.Items.{items};

use super::Column;
use crate::field::Tables;
use crate::items::Items;
use facet::Facet;

impl<'a> Column<'a> {
    // The column without terms and rows.
    pub fn empty() -> Column<'a>
        ensures terms { terms_of result ≡ [] }
        ensures rows { rows_of result ≡ [] }
        ensures worked { Worked }
    {
        Column {
            terms: Items::empty(),
            rows: Items::empty(),
        }
    }

    // The column of the tables, or the empty one where the check refuses them.
    pub fn new(tables: Tables<'a>) -> Column<'a>
        ensures { TablesOf result tables.entry }
    {
        Column::try_from(tables).unwrap_or(Column::empty())
    }

    // The column of tables that were checked.
    pub(crate) fn checked(tables: Tables<'a>) -> Column<'a>
        requires { are_sound tables ≡ true }
        ensures terms { terms_of result ≡ table_terms tables.entry }
        ensures rows { rows_of result ≡ table_rows tables.entry }
    {
        Column {
            terms: Items {
                all: tables.term_bytes,
                ends: tables.term_ends,
            },
            rows: Items {
                all: tables.ordinals,
                ends: tables.row_ends,
            },
        }
    }

    pub fn num_terms(&self) -> usize
        ensures { result ≡ length (terms_of self.now) }
    {
        self.terms.len()
    }

    pub fn num_rows(&self) -> usize
        ensures { result ≡ length (rows_of self.now) }
    {
        self.rows.len()
    }

    // The term of an ordinal, none past the last.
    pub fn term(&self, ordinal: u32) -> Option<&'a [u8]>
        ensures { MatchOption result (length (terms_of self.now) ≤ ordinal) (λ t. (ordinal < length (terms_of self.now)) × (t.now ≡ slice_index_or (terms_of self.now) ordinal [])) }
    {
        self.terms.get(ordinal as usize)
    }

    // The ordinals of a document, none past the last.
    pub fn row(&self, doc: u32) -> Option<&'a [u32]>
        ensures { MatchOption result (length (rows_of self.now) ≤ doc) (λ t. (doc < length (rows_of self.now)) × (t.now ≡ slice_index_or (rows_of self.now) doc [])) }
    {
        self.rows.get(doc as usize)
    }

    // The facet of an ordinal, none past the last.
    pub fn facet(&self, ordinal: u32) -> Option<Facet>
        ensures { MatchOption result (length (terms_of self.now) ≤ ordinal) (λ f. (ordinal < length (terms_of self.now)) × (f ≡ slice_index_or (terms_of self.now) ordinal [])) }
    {
        let term = self.term(ordinal)?;
        Facet::from_encoded(term).ok()
    }
}
