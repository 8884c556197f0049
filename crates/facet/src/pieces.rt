// Bytes cut at a separator.
ghost use Rattle.std.specs.Prelude.{◌≡◌, length};
ghost use Rattle.facet.specs.Pieces.{first_piece};

// How many bytes stand before the first separator.
pub fn piece_len(bytes: &[u8], separator: u8) -> usize
    ensures { result ≡ length (first_piece separator bytes.now) }
{
    bytes
        .iter()
        .position(|b| *b == separator)
        .unwrap_or(bytes.len())
}
