// A facet by its encoding: its steps joined by byte 00, and nothing for the root.
use std::marker::Model;

pub mod order;
pub mod path;
pub mod print;
mod reads;
mod text;

// stands between two steps
const SEPARATOR: u8 = 0;

// A fixed array with a length: a facet is `Copy`, and nothing here is on the heap.
#[derive(Clone, Copy)]
pub struct Facet {
    bytes: [u8; 127],
    len: u8,
}

// Clauses see the encoding.
impl Model for Facet {
    ghost use Rattle.std.specs.Prelude.{ℕ, List};

    ghost Value = { List ℕ };

    ghost use Rattle.facet.specs.Padded.{front, IsPadded, padded, padded-front};

    ghost view = { front };

    ghost invariant = { IsPadded };

    ghost inverse = { padded };

    ghost inverse_ok = { padded-front };
}
