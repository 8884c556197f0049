// The first field of a name.
ghost use Rattle.std.specs.Prelude.{◌≡◌};
ghost use Rattle.segment.specs.Fields.{place_of};

use crate::field::Field;

// The place of the first field whose name is equal, byte for byte. Its loops are the definition of "first" and "equal", and a
// place is what is broken with, so they stay.
pub(crate) fn place_of(fields: &[Field], name: &[u8]) -> Option<usize>
    ensures { result ≡ place_of fields.now name.now }
{
    let mut i = 0;
    let found = 'fields: loop {
        if i == fields.len() {
            break 'fields None;
        }
        let field = fields[i].name;
        if field.len() == name.len() {
            let mut k = 0;
            'bytes: loop {
                if k == name.len() {
                    break 'fields Some(i);
                }
                if field[k] != name[k] {
                    break 'bytes;
                }
                k += 1;
            }
        }
        i += 1;
    };
    found
}
