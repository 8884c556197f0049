// The refusals of a facet.
ghost use Rattle.std.specs.Prelude.{◌≡◌, Some};
ghost use Rattle.facet.specs.Faults.{number_of, meaning_of};

use std::fmt;

#[derive(Clone, Copy, Debug, PartialEq, Eq)]
pub enum FacetFault {
    TextTooLong,
    NotUtf8,
    NoSlash,
    TooLong,
    BufferTooShort,
}

impl FacetFault {
    pub fn number(&self) -> u8
        ensures { result ≡ number_of self.now }
    {
        match self {
            FacetFault::TextTooLong => 1,
            FacetFault::NotUtf8 => 2,
            FacetFault::NoSlash => 3,
            FacetFault::TooLong => 4,
            FacetFault::BufferTooShort => 5,
        }
    }

    pub fn meaning(&self) -> &'static str
        ensures { result.now ≡ meaning_of self.now }
    {
        match self {
            FacetFault::TextTooLong => "the text has more than 255 bytes",
            FacetFault::NotUtf8 => "the bytes are not UTF-8",
            FacetFault::NoSlash => "the text does not begin with a slash",
            FacetFault::TooLong => "the facet has more than 127 bytes",
            FacetFault::BufferTooShort => "the buffer is too short for the text",
        }
    }
}

// By hand, for the promised text: a derive gives no `output`.
impl fmt::Display for FacetFault {
    ghost output = { λ e. Some (meaning_of e) };

    fn fmt<W: fmt::Write>(&self, f: &mut fmt::Formatter<W>) -> fmt::Result {
        f.write_str(self.meaning())
    }
}
