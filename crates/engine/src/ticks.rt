// One tick: the refusals in number order, and the four steps.
ghost use Rattle.std.specs.Prelude.{◌≡◌, true, ◌<◌, Err};
ghost use Rattle.rules.specs.Below.{first};
ghost use Rattle.rules.specs.Head.{sound as sound_of};
ghost use Rattle.rules.specs.Tick.{tick_of, tick_given, not_list, both_heard, phases_end, decides_otherwise};
ghost use Rattle.rules.specs.Tick.{ballots as ballots_of};
ghost use Rattle.engine.specs.Look.{listened as listened_of, ended as ended_of, refused as refused_of};

use crate::head::{decision_is_value, is_decided, is_written, sound};
use crate::list::{first_breaking, first_own_otherwise};
use crate::look::looked;
use crate::step::{moved, quorum, settled, shown, stepped};
use codes::{BALLOT_BYTES, LIST_BYTES_MOST};
use rules::{Head, Refusal, Refused, Value};

// Ticks a head with a list of ballots and a coin.
pub fn tick(head: Head, ballots: &[u8], coin: u32) -> Result<Head, Refused>
    ensures { tick_given result ≡ tick_of head ballots.now coin }
{
    if !sound(head) {
        return refused(Refusal::Unsound, head);
    }
    if 1 < coin {
        return refused(Refusal::Coin, head);
    }
    if not_list(ballots) {
        return refused(Refusal::Length, head);
    }
    let gathered = listened(head, ballots)?;
    ended(head, gathered, coin as u8)
}

// Numbers 6 to 8; where none of them applies, the head after steps 1 and 2.
fn listened(head: Head, ballots: &[u8]) -> Result<Head, Refused>
    requires { sound_of head ≡ true }
    ensures { tick_given result ≡ listened_of head ballots.now }
{
    // Nothing to look at. Step 3 is taken all the same, if enough heads were heard before.
    if ballots.is_empty() {
        return Ok(head);
    }
    let look = looked(head, ballots);
    if look.next < ballots.len() / BALLOT_BYTES {
        return refused(offence(head, ballots, look.next), head);
    }
    Ok(shown(moved(head, look), look))
}

// Of a list whose first refused ballot is at that index: 6 or 7 where one there or later gives it, with
// the index of the first such; else 8, and it is this one.
fn offence(head: Head, ballots: &[u8], at: usize) -> Refusal
    requires at_bound { at < ballots_of ballots.now }
    requires at_value { at ≡ first (ballots_of ballots.now) (refused_of head ballots.now) }
    ensures { tick_given (Err (record { refusal = result; head = head })) ≡ listened_of head ballots.now }
{
    let count = ballots.len() / BALLOT_BYTES;
    let breaking = first_breaking(head.n, ballots, at);
    if breaking < count {
        return Refusal::BreaksRule { index: breaking };
    }
    let own = first_own_otherwise(head, ballots, at);
    if own < count {
        return Refusal::OwnOtherwise { index: own };
    }
    Refusal::Contradicts { index: at }
}

// Numbers 9 to 11, of the head after steps 1 and 2; where none of them applies, the head after steps 3
// and 4.
fn ended(head: Head, gathered: Head, coin: u8) -> Result<Head, Refused>
    ensures { tick_given result ≡ ended_of head gathered coin }
{
    if both_heard(gathered) {
        return refused(Refusal::BothHeard, head);
    }
    if phases_end(gathered) {
        return refused(Refusal::PhasesEnd, head);
    }
    let end = stepped(gathered, coin);
    if decides_otherwise(end) {
        return refused(Refusal::DecidesOtherwise, head);
    }
    Ok(settled(end))
}

fn refused(refusal: Refusal, head: Head) -> Result<Head, Refused>
    ensures { result ≡ Err (record { refusal = refusal; head = head }) }
{
    Err(Refused { refusal, head })
}

#[tactic(auto, unfolding(rules::specs::Tick::not_list))]
fn not_list(ballots: &[u8]) -> bool
    ensures { result ≡ not_list ballots.now }
{
    !(ballots.len() % BALLOT_BYTES == 0) | (LIST_BYTES_MOST < ballots.len())
}

#[tactic(auto, unfolding(rules::specs::Tick::both_heard))]
fn both_heard(head: Head) -> bool
    ensures { result ≡ both_heard head }
{
    (head.phase % 2 == 0) & ((head.zeros != 0) & (head.ones != 0))
}

fn phases_end(head: Head) -> bool
    ensures { result ≡ phases_end head }
{
    quorum(head) & (65535 <= head.phase)
}

fn decides_otherwise(head: Head) -> bool
    ensures { result ≡ decides_otherwise head }
{
    is_decided(head)
        & ((head.value == Value::Blank) | (is_written(head) & !decision_is_value(head)))
}
