// Every byte layout: the codes of values, statuses and decisions, phases, sets of heads, ballots and
// records, both ways; and how many bytes and heads there are at most.
//
// Tests are joined by `&` and `|`, as in the definitions: both sides are cheap, and a proof has one path.
//
// Nothing has a `requires`: every input has its answer, and each promise cites the definition of
// crate `rules` that gives it.
#![tactic(auto)]

mod ballots;
mod code;
mod numbers;
mod records;
mod sets;
mod sizes;

pub use ballots::{PHASE_HIGH, PHASE_LOW, SENDER, STATUS, VALUE, ballot_at, ballot_bytes};
pub use code::Coded;
pub use numbers::{four_bytes_of, phase_of};
pub use records::{head_at, is_record, record_of, zero_head};
pub use sets::{lowest, member, size, within};
pub use sizes::{
    BALLOT_BYTES, BALLOTS_MOST, HEADS_LEAST, HEADS_MOST, LIST_BYTES_MOST, RECORD_BYTES, SET_BYTES,
    not_heads,
};
