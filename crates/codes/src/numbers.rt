// Numbers of more than one byte, high byte first. The library's functions under names that
// docs/promises has, so that a clause says which order is meant.
ghost use Rattle.std.specs.Prelude.{◌≡◌, ◌+◌, ◌*◌};

// A phase from its two bytes.
pub fn phase_of(high: u8, low: u8) -> u16
    ensures { result ≡ high * 256 + low }
{
    u16::from_be_bytes([high, low])
}

// The number of a set, or of a row of lost ballots, from its four bytes.
pub fn four_bytes_of(a: u8, b: u8, c: u8, d: u8) -> u32
    ensures { result ≡ ((a * 256 + b) * 256 + c) * 256 + d }
{
    u32::from_be_bytes([a, b, c, d])
}
