// A column: the terms of a field in order, and for each document the ordinals of the terms that it holds.
ghost use Rattle.std.specs.Prelude.{◌≡◌, true};
ghost use Rattle.segment.specs.Columns.{sound as is_sound};

use crate::items::Items;

pub mod check;
pub mod make;

// It borrows its tables. A ghost field, since what is `Copy` and has a lifetime can have no model.
#[derive(Clone, Copy)]
pub struct Column<'a> {
    terms: Items<'a, u8>,
    rows: Items<'a, u32>,
    ghost sound: { is_sound terms.all.now terms.ends.now rows.ends.now rows.all.now ≡ true },
}
