// Parts of bytes, and single bytes of them.
ghost use Rattle.std.specs.Prelude.{◌≡◌, get_or, take, drop};

// The part of the bytes that stands at a start, of a length. Where there are fewer bytes, as many as
// there are.
pub(crate) fn part(bytes: &[u8], start: usize, length: usize) -> &[u8]
    ensures { result.now ≡ take length (drop start bytes.now) }
{
    let rest = bytes.get(start..).unwrap_or(&[]);
    rest.get(..length).unwrap_or(rest)
}

// The byte at a place, or 0 where there are no more.
pub(crate) fn byte_at(bytes: &[u8], place: usize) -> u8
    ensures { result ≡ get_or bytes.now place 0 }
{
    bytes.get(place).copied().unwrap_or(0)
}
