// How many bytes and heads there are at most.
ghost use Rattle.std.specs.Prelude.{◌≡◌};
ghost use Rattle.rules.specs.Ballot.{not_heads};

// "n is 2 to 32"
pub const HEADS_LEAST: u32 = 2;

pub const HEADS_MOST: u32 = 32;

// "Five bytes: sender; value ..; status ..; phase"
pub const BALLOT_BYTES: usize = 5;

// "a list of 0 to 64 ballots", "over 320 bytes"
pub const BALLOTS_MOST: usize = 64;

pub const LIST_BYTES_MOST: usize = BALLOTS_MOST * BALLOT_BYTES;

// "a record of 20 bytes"
pub const RECORD_BYTES: usize = 20;

// A set of heads in a record, or a row of lost ballots: "4 bytes".
pub const SET_BYTES: usize = 4;

// Whether there cannot be so many heads: "n not 2 to 32".
pub fn not_heads(n: u32) -> bool
    ensures { result ≡ not_heads n }
{
    !((HEADS_LEAST <= n) & (n <= HEADS_MOST))
}
