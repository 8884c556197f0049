// A segment from parts that were checked, and what it holds.
ghost use Rattle.std.specs.Prelude.{◌≡◌, ◌/◌, ◌<◌, false, [], length, None, MatchOption};
ghost use Rattle.segment.specs.Held.{terms_of, rows_of};
ghost use Rattle.segment.specs.Segments.{bit_of};
ghost use Rattle.segment.specs.Fields.{place_of};
ghost use Rattle.segment.specs.Made.{PartsOf, Facets, docs_of, fields_of, kind_terms, kind_rows, is_facet, at_field, alive as is_alive};

use super::Segment;
use crate::column::Column;
use crate::field::{Field, Kind};
use crate::place::place_of;

// Bit d mod 8, lowest first, of byte d div 8.
fn is_set(set: &[u8], d: u32) -> bool
    requires { d / 8 < length set.now }
    ensures { result ≡ bit_of set.now d }
{
    (set[(d / 8) as usize] >> (d % 8)) % 2 == 1
}

impl<'a> Segment<'a> {
    // The segment without documents and fields.
    pub fn empty() -> Segment<'a>
        ensures fields { fields_of result ≡ [] }
        ensures docs { docs_of result ≡ 0 }
        ensures alive { result.alive ≡ None }
    {
        Segment {
            fields: &[],
            docs: 0,
            alive: None,
        }
    }

    // The segment of the parts, or the empty one where the check refuses them.
    pub fn new(fields: &'a [Field<'a>], docs: u32, alive: Option<&'a [u8]>) -> Segment<'a>
        ensures { PartsOf result fields.now docs alive.entry }
    {
        Segment::try_new(fields, docs, alive).unwrap_or(Segment::empty())
    }

    pub fn num_docs(&self) -> u32
        ensures { result ≡ docs_of self.now }
    {
        self.docs
    }

    // The place of the first field of the name.
    pub fn field(&self, name: &[u8]) -> Option<usize>
        ensures { result ≡ place_of (fields_of self.now) name.now }
    {
        place_of(self.fields, name)
    }

    // The column of the field at a place, none where there is no facet field.
    pub fn facets(&self, place: usize) -> Option<Column<'a>>
        ensures { MatchOption result (at_field false is_facet (fields_of self.now) place ≡ false) (Facets self.now place) }
    {
        match self.fields.get(place)?.kind {
            Kind::Facet(tables) => Some(Column::checked(tables)),
            Kind::Other => None,
        }
    }

    // Whether the field at a place is a facet field.
    #[tactic(auto, using(crate::proofs::Segments::some_found))]
    pub fn is_facet(&self, place: usize) -> bool
        ensures { result ≡ at_field false is_facet (fields_of self.now) place }
    {
        self.facets(place).is_some()
    }

    // The column of the field at a place, the empty one where there is none.
    #[tactic(auto, using(crate::proofs::Segments::terms_found, crate::proofs::Segments::rows_found))]
    pub fn column(&self, place: usize) -> Column<'a>
        ensures terms { terms_of result ≡ at_field [] kind_terms (fields_of self.now) place }
        ensures rows { rows_of result ≡ at_field [] kind_rows (fields_of self.now) place }
    {
        self.facets(place).unwrap_or(Column::empty())
    }

    // Whether a document is in the segment and alive.
    pub fn is_alive(&self, doc: u32) -> bool
        ensures { result ≡ is_alive self.now doc }
    {
        doc < self.docs && self.alive.is_none_or(|set| is_set(set, doc))
    }
}
