// A segment: documents with at most four named fields, and perhaps an alive set.
ghost use Rattle.std.specs.Prelude.{◌≡◌, true};
ghost use Rattle.segment.specs.Segments.{whole};

use crate::field::Field;

pub mod check;
pub mod make;

// It borrows its fields and its alive set, which are passed one by one: a struct of the three would be this one without
// its fact. A ghost field, since what is `Copy` and has a lifetime can have no model.
#[derive(Clone, Copy)]
pub struct Segment<'a> {
    fields: &'a [Field<'a>],
    docs: u32,
    alive: Option<&'a [u8]>,
    ghost sound: { whole fields.now docs alive ≡ true },
}
