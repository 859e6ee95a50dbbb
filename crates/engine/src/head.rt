// A head: its start, its soundness, and the ballot that it sends.
ghost use Rattle.std.specs.Prelude.{◌≡◌};
ghost use Rattle.rules.specs.Head.{fresh as fresh_of, start_of, start_given, ballot_of, send_of, send_given, is_decided, is_written};
ghost use Rattle.rules.specs.Head.{decision_is_value, decision_fits, sets_fit, phase_fits, stands_under, sound as sound_of};

use crate::ballot::obeys;
use crate::heard::apart;
use codes::{BALLOT_BYTES, Coded, ballot_bytes, member, not_heads, within, zero_head};
use rules::{Ballot, Decision, Head, Refusal, Status, Value};

// Starts a head with its proposal.
pub fn start(n: u32, own: u32, proposal: u32) -> Result<Head, Refusal>
    ensures { start_given result ≡ start_of n own proposal }
{
    if not_heads(n) | !(own < n) {
        return Err(Refusal::NotHeads);
    }
    if 1 < proposal {
        return Err(Refusal::Proposal);
    }
    Ok(fresh(n as u8, own as u8, proposal as u8))
}

// Sends a head's ballot: its five bytes.
pub fn send(head: Head) -> Result<[u8; BALLOT_BYTES], Refusal>
    ensures { send_given result ≡ send_of head }
{
    if !sound(head) {
        return Err(Refusal::Unsound);
    }
    Ok(ballot_bytes(own_ballot(head)))
}

// Whether a head is sound.
pub fn sound(head: Head) -> bool
    ensures { result ≡ sound_of head }
{
    if not_heads(head.n as u32) {
        return false;
    }
    if head.n <= head.own {
        return false;
    }
    obeys(head.phase, head.value.code(), head.status.code())
        & (decision_fits(head)
            & (sets_fit(head) & (phase_fits(head) & stands_under(head, head.own, head.value))))
}

// A head's ballot: "A head sends its present phase, value and status".
pub fn own_ballot(head: Head) -> Ballot
    ensures { result ≡ ballot_of head }
{
    Ballot {
        sender: head.own,
        value: head.value,
        status: head.status,
        phase: head.phase,
    }
}

fn decision_fits(head: Head) -> bool
    ensures { result ≡ decision_fits head }
{
    (!is_decided(head) | decision_is_value(head)) & (!is_written(head) | (3 <= head.phase))
}

pub(crate) fn is_decided(head: Head) -> bool
    ensures { result ≡ is_decided head }
{
    head.status == Status::Decided
}

pub(crate) fn is_written(head: Head) -> bool
    ensures { result ≡ is_written head }
{
    head.decision != Decision::Unwritten
}

// "the decision is there and equals the value"
pub(crate) fn decision_is_value(head: Head) -> bool
    ensures { result ≡ decision_is_value head }
{
    is_written(head) & (head.decision == Decision::from(head.value))
}

fn sets_fit(head: Head) -> bool
    ensures { result ≡ sets_fit head }
{
    let n = head.n as u32;
    (apart(head.zeros, head.ones)
        & (apart(head.zeros, head.blanks) & apart(head.ones, head.blanks)))
        & (within(head.zeros, n) & (within(head.ones, n) & within(head.blanks, n)))
}

#[tactic(auto, unfolding(rules::specs::Head::phase_fits))]
fn phase_fits(head: Head) -> bool
    ensures { result ≡ phase_fits head }
{
    let parity = head.phase % 2;
    (!(parity == 1) | (head.blanks == 0))
        & (!(parity == 0) | !((head.zeros != 0) & (head.ones != 0)))
}

// Whether head s, if heard, stands under the value.
pub(crate) fn stands_under(head: Head, s: u8, value: Value) -> bool
    ensures { result ≡ stands_under head s value }
{
    (!member(head.zeros, s) | (Value::Zero == value))
        & ((!member(head.ones, s) | (Value::One == value))
            & (!member(head.blanks, s) | (Value::Blank == value)))
}

fn fresh(n: u8, own: u8, proposal: u8) -> Head
    ensures { result ≡ fresh_of n own proposal }
{
    Head {
        n,
        own,
        phase: 1,
        value: Value::from_code(proposal),
        status: Status::Undecided,
        decision: Decision::Unwritten,
        zeros: 0,
        ones: 0,
        blanks: 0,
    }
}
