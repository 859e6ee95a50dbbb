// The four steps of a tick, where nothing is refused.
ghost use Rattle.std.specs.Prelude.{◌≡◌, false, cond, ◌<◌, ltb};
ghost use Rattle.rules.specs.Tick.{quorum as quorum_of, majority as majority_of, step_value, step_status, decision_after};
ghost use Rattle.rules.specs.Tick.{copying as copying_of, risen as risen_of, stepped as stepped_of, settled as settled_of, phases_end};
ghost use Rattle.engine.specs.Look.{foremost as foremost_of, shown as shown_of};

use crate::head::is_decided;
use crate::heard::heard;
use crate::look::{Look, foremost};
use crate::said::either;
use codes::{Coded, size};
use rules::{Ballot, Decision, Head, Status, Value};

// Step 1, of a head that step 2 has moved: those that were seen at its phase are added.
pub(crate) fn shown(head: Head, look: Look) -> Head
    ensures { result ≡ shown_of head look }
{
    Head {
        zeros: either(head.zeros, look.zeros, look.zeros_decided),
        ones: either(head.ones, look.ones, look.ones_decided),
        blanks: either(head.blanks, look.blanks, 0),
        ..head
    }
}

// Step 2, by the look at a whole list.
pub(crate) fn moved(head: Head, look: Look) -> Head
    ensures { result ≡ cond (ltb head.phase look.phase) (copying_of head (foremost_of look)) head }
{
    if head.phase < look.phase {
        return copying(head, foremost(look));
    }
    head
}

fn copying(head: Head, ballot: Ballot) -> Head
    ensures { result ≡ copying_of head ballot }
{
    Head {
        phase: ballot.phase,
        value: ballot.value,
        status: ballot.status,
        zeros: 0,
        ones: 0,
        blanks: 0,
        ..head
    }
}

// Step 3.
pub(crate) fn stepped(head: Head, coin: u8) -> Head
    requires { phases_end head ≡ false }
    ensures { result ≡ stepped_of head coin }
{
    if quorum(head) {
        risen(head, coin)
    } else {
        head
    }
}

fn risen(head: Head, coin: u8) -> Head
    requires { head.phase < 65535 }
    ensures { result ≡ risen_of head coin }
{
    Head {
        phase: head.phase + 1,
        value: step_value(head, coin),
        status: step_status(head),
        zeros: 0,
        ones: 0,
        blanks: 0,
        ..head
    }
}

// Step 4.
pub(crate) fn settled(head: Head) -> Head
    ensures { result ≡ settled_of head }
{
    Head {
        decision: decision_after(head),
        ..head
    }
}

// Whether step 3 is taken.
pub(crate) fn quorum(head: Head) -> bool
    ensures { result ≡ quorum_of head }
{
    (head.n as u32) < (size(head.zeros) + size(head.ones) + size(head.blanks)) * 2
}

fn majority(head: Head, value: Value) -> bool
    ensures { result ≡ majority_of head value }
{
    (head.n as u32) < size(heard(head, value)) * 2
}

fn step_value(head: Head, coin: u8) -> Value
    ensures { result ≡ step_value head coin }
{
    if head.phase % 2 == 1 {
        bit_with(
            majority(head, Value::Zero),
            majority(head, Value::One),
            Value::Blank,
        )
    } else {
        bit_with(head.zeros != 0, head.ones != 0, Value::from_code(coin))
    }
}

// The value 0 or 1 whose answer is yes, else other.
fn bit_with(zero: bool, one: bool, other: Value) -> Value
    ensures { result ≡ cond zero (cond one other Value.Zero) (cond one Value.One other) }
{
    match (zero, one) {
        (true, false) => Value::Zero,
        (false, true) => Value::One,
        _ => other,
    }
}

fn step_status(head: Head) -> Status
    ensures { result ≡ step_status head }
{
    if (head.phase % 2 == 0) & (majority(head, Value::Zero) | majority(head, Value::One)) {
        Status::Decided
    } else {
        head.status
    }
}

// "If decided, the decision is the value."
fn decision_after(head: Head) -> Decision
    ensures { result ≡ decision_after head }
{
    if is_decided(head) {
        Decision::from(head.value)
    } else {
        head.decision
    }
}
