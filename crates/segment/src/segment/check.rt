// The questions that are asked of a segment: of its fields one by one, and then of its document number.
ghost use Rattle.std.specs.Prelude.{◌≡◌, ◌≤◌, [], IfOk};
ghost use Rattle.std.specs.Result.{result_err};
ghost use Rattle.segment.specs.Columns.{asked};
ghost use Rattle.segment.specs.Fields.{admits as is_admitted, kind_fault, field_fault, fields_from};
ghost use Rattle.segment.specs.Made.{docs_of, fields_of};
ghost use Rattle.segment.specs.Segments.{rows_ok, rows_are, alive_fits, segment_fault};

use super::Segment;
use crate::column::Column;
use crate::fault::ColumnFault;
use crate::field::{Field, Kind};
use crate::place::place_of;
use crate::segment_fault::{AtPlace, SegmentFault};

const LONGEST_NAME: usize = 64;

const MOST_FIELDS: usize = 4;

const MOST_DOCS: u32 = 65535;

fn check_kind(kind: Kind) -> Result<(), ColumnFault>
    ensures { result ≡ asked (kind_fault kind.entry) }
{
    match kind {
        Kind::Facet(tables) => Column::check(tables),
        Kind::Other => Ok(()),
    }
}

// Whether a field of the name may stand behind the others.
fn admits(fields: &[Field], name: &[u8]) -> bool
    ensures { result ≡ is_admitted fields.now name.now }
{
    let len = name.len();
    1 <= len
        && len <= LONGEST_NAME
        && place_of(fields, name).is_none()
        && fields.len() < MOST_FIELDS
}

// Whether a field may be added behind the others: its column's questions, and then its name's.
pub fn check_field<'a>(fields: &[Field<'a>], field: &Field<'a>) -> Result<(), SegmentFault>
    ensures { result ≡ asked (field_fault fields.now field.now) }
{
    let place = fields.len();
    check_kind(field.kind).map_err(|fault| AtPlace { place, fault })?;
    if admits(fields, field.name) {
        Ok(())
    } else {
        Err(SegmentFault::Name(place))
    }
}

// All fields, one behind the other.
fn check_fields<'a>(fields: &[Field<'a>]) -> Result<(), SegmentFault>
    ensures { result ≡ asked (fields_from [] fields.now) }
{
    for (i, field) in fields.iter().enumerate() {
        check_field(&fields[0..i], field)?;
    }
    Ok(())
}

// Whether a column has a row for each document.
fn has_rows(docs: u32, kind: Kind) -> bool
    ensures { result ≡ rows_ok docs kind.entry }
{
    match kind {
        Kind::Facet(tables) => tables.row_ends.len() == docs as usize,
        Kind::Other => true,
    }
}

fn all_have_rows(docs: u32, fields: &[Field]) -> bool
    ensures { result ≡ rows_are docs fields.now }
{
    fields.iter().all(|field| has_rows(docs, field.kind))
}

// Whether an alive set, if there is one, has a bit for each document.
fn has_bits(docs: u32, alive: Option<&[u8]>) -> bool
    requires { docs ≤ 65535 }
    ensures { result ≡ alive_fits docs alive.entry }
{
    alive.is_none_or(|set| set.len() == (docs as usize + 7) / 8)
}

impl<'a> Segment<'a> {
    // The segment of the parts, or the first question that they fail.
    pub fn try_new(
        fields: &'a [Field<'a>],
        docs: u32,
        alive: Option<&'a [u8]>,
    ) -> Result<Segment<'a>, SegmentFault>
        ensures fault { result_err result ≡ segment_fault fields.now docs alive.entry }
        ensures fields { IfOk result (λ s. fields_of s ≡ fields.now) }
        ensures docs { IfOk result (λ s. docs_of s ≡ docs) }
        ensures alive { IfOk result (λ s. s.alive ≡ alive.entry) }
    {
        check_fields(fields)?;
        if docs <= MOST_DOCS && all_have_rows(docs, fields) && has_bits(docs, alive) {
            Ok(Segment {
                fields,
                docs,
                alive,
            })
        } else {
            Err(SegmentFault::Documents)
        }
    }

    // Whether the parts make a segment, and else the first question that they fail.
    pub fn check(
        fields: &'a [Field<'a>],
        docs: u32,
        alive: Option<&'a [u8]>,
    ) -> Result<(), SegmentFault>
        ensures { result ≡ asked (segment_fault fields.now docs alive.entry) }
    {
        Segment::try_new(fields, docs, alive).map(|_| ())
    }
}
