// Looking at a list of ballots: each is read from its bytes when it is looked at.
ghost use Rattle.std.specs.Prelude.{◌≡◌, false, ◌||◌, ℕ, ◌<◌, ◌≤◌};
ghost use Rattle.rules.specs.Below.{first};
ghost use Rattle.rules.specs.Ballot.{breaks_rule, ballot_at};
ghost use Rattle.rules.specs.Tick.{ballots as ballots_of, same_state, own_otherwise, held_otherwise};
ghost use Rattle.engine.specs.Look.{is_of};

use crate::ballot::breaks_rule;
use crate::head::{own_ballot, stands_under};
use crate::said::{phase_in, sender_in};
use codes::{BALLOT_BYTES, ballot_at};
use rules::{Ballot, Head};

// The first ballot that breaks a ballot rule; where there is none, the number of ballots. So in
// each search below.
pub(crate) fn first_breaking(n: u8, ballots: &[u8], from: usize) -> usize
    requires from_bound { from ≤ ballots_of ballots.now }
    requires by_index { (j : ℕ) → j < from → breaks_rule n ballots.now j ≡ false }
    ensures { result ≡ first (ballots_of ballots.now) (breaks_rule n ballots.now) }
{
    let (fives, _) = ballots.as_chunks::<BALLOT_BYTES>();
    (from..fives.len())
        .find(|&i| breaks_rule(n as u32, &fives[i]))
        .unwrap_or(fives.len())
}

// Two chains of the library and no function of both: that would take the test as a closure, and a clause
// on closures is longer than these two.
//
// The first ballot under the head's own number that is ahead of the head or unlike it.
pub(crate) fn first_own_otherwise(head: Head, ballots: &[u8], from: usize) -> usize
    requires from_bound { from ≤ ballots_of ballots.now }
    requires by_index { (j : ℕ) → j < from → own_otherwise head (ballot_at ballots.now j) ≡ false }
    ensures { result ≡ first (ballots_of ballots.now)
        (λ i. own_otherwise head (ballot_at ballots.now i)) }
{
    let (fives, _) = ballots.as_chunks::<BALLOT_BYTES>();
    (from..fives.len())
        .find(|&i| is_own_otherwise(head, &fives[i]))
        .unwrap_or(fives.len())
}

// The first ballot of the sender at the phase before an index; the index where there is none. An index, as
// in the other two and in `offence`: it is what they answer, and a slice of the list would have its own.
pub(crate) fn first_of(ballots: &[u8], phase: u16, sender: u8, before: usize) -> usize
    requires { before < ballots_of ballots.now }
    ensures { result ≡ first before (is_of ballots.now phase sender) }
{
    let (fives, _) = ballots.as_chunks::<BALLOT_BYTES>();
    (0..before)
        .find(|&i| is_of(phase, sender, &fives[i]))
        .unwrap_or(before)
}

// Most ballots are of other senders, and not read further.
#[tactic(auto, unfolding(rules::specs::Tick::own_otherwise))]
fn is_own_otherwise(head: Head, five: &[u8; BALLOT_BYTES]) -> bool
    ensures { result ≡ own_otherwise head (ballot_at five.now 0) }
{
    sender_in(five) == head.own && own_otherwise(head, ballot_at(five, 0))
}

#[tactic(auto, unfolding(rules::specs::Tick::own_otherwise))]
fn own_otherwise(head: Head, ballot: Ballot) -> bool
    ensures { result ≡ own_otherwise head ballot }
{
    ballot.sender == head.own
        && (head.phase < ballot.phase
            || (ballot.phase == head.phase && !same_state(ballot, own_ballot(head))))
}

fn is_of(phase: u16, sender: u8, five: &[u8; BALLOT_BYTES]) -> bool
    ensures { result ≡ is_of five.now phase sender 0 }
{
    sender_in(five) == sender && phase_in(five) == phase
}

// Whether a ballot is unlike the head under its own number, or unlike what is held.
#[tactic(auto, using(crate::proofs::Refusing::late_otherwise))]
pub(crate) fn otherwise(head: Head, five: &[u8; BALLOT_BYTES]) -> bool
    ensures { result ≡ own_otherwise head (ballot_at five.now 0)
        || held_otherwise head (ballot_at five.now 0) }
{
    if phase_in(five) < head.phase {
        return false;
    }
    let ballot = ballot_at(five, 0);
    own_otherwise(head, ballot) || held_otherwise(head, ballot)
}

#[tactic(auto, unfolding(rules::specs::Tick::held_otherwise))]
fn held_otherwise(head: Head, ballot: Ballot) -> bool
    ensures { result ≡ held_otherwise head ballot }
{
    ballot.phase == head.phase && !stands_under(head, ballot.sender, ballot.value)
}

fn same_state(a: Ballot, b: Ballot) -> bool
    ensures { result ≡ same_state a b }
{
    (a.value == b.value) & (a.status == b.status)
}
