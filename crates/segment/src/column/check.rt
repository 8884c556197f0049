// The questions that are asked of a column, each over the whole column before the next.
use super::Column;
use crate::fault::ColumnFault;
use crate::field::Tables;
use crate::rows::rows;
use crate::terms::terms;

const MOST_TERMS: usize = 4096;

const MOST_ROWS: usize = 65535;

// The column of the tables, or the first question that they fail, with the place.
impl<'a> TryFrom<Tables<'a>> for Column<'a> {
    ghost use Rattle.segment.specs.Held.{Tried};

    type Error = ColumnFault;

    ghost try_from_gives = { λ t r. Tried r t };

    fn try_from(tables: Tables<'a>) -> Result<Column<'a>, ColumnFault> {
        if tables.term_ends.len() > MOST_TERMS || tables.row_ends.len() > MOST_ROWS {
            return Err(ColumnFault::TooLarge);
        }
        let terms = terms(tables.term_bytes, tables.term_ends)?;
        let rows = rows(tables.ordinals, tables.row_ends, terms.len())?;
        Ok(Column { terms, rows })
    }
}

impl<'a> Column<'a> {
    ghost use Rattle.std.specs.Prelude.{◌≡◌};
    ghost use Rattle.segment.specs.Columns.{asked};
    ghost use Rattle.segment.specs.Tables.{tables_fault};

    // Whether the tables make a column, and else the first question that they fail, with the place.
    pub fn check(tables: Tables<'a>) -> Result<(), ColumnFault>
        ensures { result ≡ asked (tables_fault tables.entry) }
    {
        Column::try_from(tables).map(|_| ())
    }
}
