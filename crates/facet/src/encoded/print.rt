// The text of a facet.
ghost use Rattle.std.specs.Prelude.{◌≡◌, ◌||◌, length, Some, Ok, ◌==◌};
ghost use Rattle.std.specs.Iterator.{YieldsFirst, item_count};
ghost use Rattle.facet.specs.Laws.{IsTextOf, Printed, ReadsBack, WorkedCases};
ghost use Rattle.facet.specs.Text.{printed, shown_behind};

use super::{Facet, SEPARATOR};
use crate::fault::FacetFault;
use std::fmt;
use std::str::from_utf8_unchecked;

// Whether a byte of a step has a backslash before it.
fn is_escaped(b: u8) -> bool
    ensures { result ≡ (b == 47 || b == 92) }
{
    matches!(b, b'/' | b'\\')
}

// The bytes of the text of an encoding.
#[derive(Drop)]
struct Escaped<'a> {
    // comes before what is left
    first: Option<u8>,
    left: &'a [u8],
}

impl<'a> Iterator for Escaped<'a> {
    type Item = u8;

    ghost next_gives = { YieldsFirst (λ s. shown_behind s.first s.left.now) };

    ghost remaining = { item_count (λ s. shown_behind s.first s.left.now) };

    fn next(&mut self) -> Option<u8> {
        if let Some(b) = self.first.take() {
            return Some(b);
        }
        let (b, left) = self.left.split_first()?;
        self.left = left;
        if is_escaped(*b) {
            self.first = Some(*b);
            return Some(b'\\');
        }
        Some(if *b == SEPARATOR { b'/' } else { *b })
    }
}

impl Facet {
    // A slash, and then the text of each byte.
    fn text(&self) -> Escaped<'_>
        ensures value { shown_behind result.first result.left.now ≡ printed self.now }
        ensures text { IsTextOf self.now (printed self.now) }
    {
        Escaped {
            first: Some(b'/'),
            left: self.encoded(),
        }
    }

    // How long the text is.
    fn printed_len(&self) -> usize
        ensures value { result ≡ length (printed self.now) }
        ensures text { IsTextOf self.now (printed self.now) }
    {
        let encoded = self.encoded();
        // a fold, since std's `count` takes some ten times as long
        let escaped = encoded
            .iter()
            .fold(0u8, |n, b| n.wrapping_add(u8::from(is_escaped(*b))));
        1 + encoded.len() + escaped as usize
    }

    // Writes the text into the buffer, and answers how long it is.
    pub fn print(&self, buffer: &mut [u8]) -> Result<usize, FacetFault>
        ensures written { Printed (printed self.now) buffer.old result buffer.new }
        ensures text { IsTextOf self.now (printed self.now) }
    {
        let len = self.printed_len();
        if buffer.len() < len {
            return Err(FacetFault::BufferTooShort);
        }
        // by place: of a buffer lent to a zip nothing is known afterwards
        for (at, b) in self.text().enumerate() {
            buffer[at] = b;
        }
        Ok(len)
    }

    // Reads the facet's own text, which gives the facet back.
    pub fn reread(&self) -> Result<Facet, FacetFault>
        ensures value { result ≡ Ok self.now }
        ensures law { ReadsBack }
        ensures worked { WorkedCases }
    {
        // on the stack, since nothing here is on the heap
        let mut text = [0; 255];
        let len = self.print(&mut text)?;
        Facet::from_text(&text[..len])
    }
}

impl fmt::Display for Facet {
    ghost output = { λ f. Some (printed f) };

    fn fmt<W: fmt::Write>(&self, f: &mut fmt::Formatter<W>) -> fmt::Result {
        // on the stack, since nothing here is on the heap
        let mut text = [0; 255];
        let Ok(len) = self.print(&mut text) else {
            return Err(fmt::Error);
        };
        f.write_str(unsafe { from_utf8_unchecked(&text[..len]) })
    }
}
