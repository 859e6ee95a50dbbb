// One ballot: the ballot rules, and reading it from its bytes.
ghost use Rattle.std.specs.Prelude.{◌≡◌};
ghost use Rattle.rules.specs.Ballot.{class_of, allowed as allowed_of, obeys as obeys_of, breaks_rule};
ghost use Rattle.rules.specs.Ballot.{read_number, read_index, read_ballot, number_read, index_read, ballot_read};

use codes::{
    BALLOT_BYTES, PHASE_HIGH, PHASE_LOW, SENDER, STATUS, VALUE, ballot_at, not_heads, phase_of,
};
use rules::{Ballot, Class, Refusal};

// Reads one ballot of a vote of n heads; it stands at index 0.
pub fn read(n: u32, bytes: &[u8]) -> Result<Ballot, Refusal>
    ensures number { number_read result ≡ read_number n bytes.now }
    ensures index { index_read result ≡ read_index n bytes.now }
    ensures ballot { ballot_read result ≡ read_ballot n bytes.now }
{
    if not_heads(n) {
        return Err(Refusal::NotHeads);
    }
    let Some(five) = bytes.as_array::<BALLOT_BYTES>() else {
        return Err(Refusal::Length);
    };
    if breaks_rule(n, five) {
        return Err(Refusal::BreaksRule { index: 0 });
    }
    Ok(ballot_at(five, 0))
}

// Whether a ballot breaks a ballot rule.
pub(crate) fn breaks_rule(n: u32, five: &[u8; BALLOT_BYTES]) -> bool
    ensures { result ≡ breaks_rule n five.now 0 }
{
    let phase = phase_of(five[PHASE_HIGH], five[PHASE_LOW]);
    !(((five[SENDER] as u32) < n) & obeys(phase, five[VALUE], five[STATUS]))
}

// The ballot rules, of a phase and the codes of a value and a status.
#[tactic(auto, unfolding(rules::specs::Ballot::obeys))]
pub(crate) fn obeys(phase: u16, value: u8, status: u8) -> bool
    ensures { result ≡ obeys_of phase value status }
{
    allowed(class(phase), value, status)
}

#[tactic(auto, unfolding(rules::specs::Ballot::class_of))]
pub(crate) fn class(phase: u16) -> Class
    ensures { result ≡ class_of phase }
{
    match phase {
        0 => Class::Never,
        1 => Class::First,
        2 => Class::Second,
        _ if phase % 2 == 1 => Class::Odd,
        _ => Class::Even,
    }
}

#[tactic(auto, unfolding(rules::specs::Ballot::allowed))]
fn allowed(class: Class, value: u8, status: u8) -> bool
    ensures { result ≡ allowed_of class value status }
{
    match (class, value, status) {
        (Class::First, 0..=1, 0) => true,
        (Class::Second, 0..=2, 0) => true,
        (Class::Odd, 0..=1, 0..=1) => true,
        (Class::Even, 0..=1, 0..=1) => true,
        (Class::Even, 2, 0) => true,
        _ => false,
    }
}
