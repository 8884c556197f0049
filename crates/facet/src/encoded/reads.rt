// A facet's parts.
ghost use Rattle.std.specs.Prelude.{◌≡◌, ◌≤◌, true, [], length, ◌==◌};
ghost use Rattle.utf8.specs.Octets.{utf8};

use super::Facet;
use std::str::from_utf8_unchecked;

impl Facet {
    // The facet without steps.
    pub fn root() -> Facet
        ensures { result ≡ [] }
    {
        Facet {
            bytes: [0; 127],
            len: 0,
        }
    }

    // The facet of an encoding.
    pub(super) fn hold(encoded: &[u8]) -> Facet
        requires bound { length encoded.now ≤ 127 }
        requires text { utf8 encoded.now ≡ true }
        ensures { result ≡ encoded.now }
    {
        let mut bytes = [0; 127];
        let len = encoded.len();
        bytes[..len].copy_from_slice(encoded);
        Facet {
            bytes,
            len: len as u8,
        }
    }

    pub fn is_root(&self) -> bool
        ensures { result ≡ (length self.now == 0) }
    {
        self.len == 0
    }

    // The steps, joined by byte 00.
    pub fn encoded(&self) -> &[u8]
        ensures value { result.now ≡ self.now }
        ensures bound { length result.now ≤ 127 }
        ensures text { utf8 result.now ≡ true }
    {
        &self.bytes[..self.len as usize]
    }

    // The same bytes as text.
    pub fn as_str(&self) -> &str
        ensures value { result.now ≡ self.now }
        ensures bound { length result.now ≤ 127 }
        ensures text { utf8 result.now ≡ true }
    {
        unsafe { from_utf8_unchecked(self.encoded()) }
    }
}
