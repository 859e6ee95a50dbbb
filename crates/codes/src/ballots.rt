// A ballot's bytes, both ways: "Five bytes: sender; value 0, 1 or 2 (blank); status 0 or 1 (decided);
// phase, high byte first." Functions, as in `records`, and no `From`: an impl of it would have to stand
// with the types, in `rules`, and the layouts stand here alone.
ghost use Rattle.std.specs.Prelude.{◌≡◌, cond, ltb};
ghost use Rattle.rules.specs.Ballot.{bytes_of, ballot_at, zero_ballot};
ghost use Rattle.rules.specs.Tick.{ballots as ballots_of};

use crate::code::Coded;
use crate::numbers::phase_of;
use crate::sizes::BALLOT_BYTES;
use rules::{Ballot, Status, Value};

// Where a ballot's fields stand in it.
pub const SENDER: usize = 0;

pub const VALUE: usize = 1;

pub const STATUS: usize = 2;

pub const PHASE_HIGH: usize = 3;

pub const PHASE_LOW: usize = 4;

// The ballot at index i of a list of ballots, and the ballot of zero fields where there is none.
pub fn ballot_at(ballots: &[u8], i: usize) -> Ballot
    ensures { result ≡ cond (ltb i (ballots_of ballots.now)) (ballot_at ballots.now i) zero_ballot }
{
    let (fives, _) = ballots.as_chunks::<BALLOT_BYTES>();
    match fives.get(i) {
        Some(five) => Ballot {
            sender: five[SENDER],
            value: Value::from_code(five[VALUE]),
            status: Status::from_code(five[STATUS]),
            phase: phase_of(five[PHASE_HIGH], five[PHASE_LOW]),
        },
        None => Ballot {
            sender: 0,
            value: Value::Zero,
            status: Status::Undecided,
            phase: 0,
        },
    }
}

// A ballot's bytes.
pub fn ballot_bytes(ballot: Ballot) -> [u8; BALLOT_BYTES]
    ensures { result ≡ bytes_of ballot }
{
    let [high, low] = ballot.phase.to_be_bytes();
    [
        ballot.sender,
        ballot.value.code(),
        ballot.status.code(),
        high,
        low,
    ]
}
