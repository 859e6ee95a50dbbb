// The nouns of document 01, 'Heads and ballots'. Their meaning stands in specs/, what follows
// from it in proofs/. The code of a vote stands in `codes`, `engine` and `vote`; here only the decision
// for a value, and a refusal's number and index.

#![tactic(auto)]

ghost use Rattle.std.specs.Prelude.{◌≡◌};

// "a ballot carries a value that is 0, 1 or blank"
#[derive(Clone, Copy, Debug, PartialEq, Eq)]
pub enum Value {
    Zero,
    One,
    Blank,
}

// "status (undecided or decided)"
#[derive(Clone, Copy, Debug, PartialEq, Eq)]
pub enum Status {
    Undecided,
    Decided,
}

// "decision (none, 0 or 1)". No plainer as an `Option`: its 0 and 1 would be a second enum beside `Value`.
#[derive(Clone, Copy, Debug, PartialEq, Eq)]
pub enum Decision {
    Zero,
    One,
    Unwritten,
}

// "If decided, the decision is the value."; there is none for blank.
impl From<Value> for Decision {
    ghost use Rattle.rules.specs.Head.{decision_for};

    ghost from_gives = { λ value decision. decision ≡ decision_for value };

    fn from(value: Value) -> Decision {
        match value {
            Value::Zero => Decision::Zero,
            Value::One => Decision::One,
            Value::Blank => Decision::Unwritten,
        }
    }
}

// "A ballot is sender, value, status, phase"
#[derive(Clone, Copy, Debug, PartialEq, Eq)]
pub struct Ballot {
    pub sender: u8,
    pub value: Value,
    pub status: Status,
    pub phase: u16,
}

// "A head has: the number of heads n, its own number, phase .., value .., status .., decision ..,
// and three sets of head numbers: those heard at its present phase with 0, with 1 and with blank."
#[derive(Clone, Copy, Debug, PartialEq, Eq)]
pub struct Head {
    pub n: u8,
    pub own: u8,
    pub phase: u16,
    pub value: Value,
    pub status: Status,
    pub decision: Decision,
    pub zeros: u32,
    pub ones: u32,
    pub blanks: u32,
}

// "the values and statuses allowed differ for phase 1, phase 2, odd phases from 3 and even phases
// from 4"; "phase 0 never stands"
#[derive(Clone, Copy, Debug, PartialEq, Eq)]
pub enum Class {
    Never,
    First,
    Second,
    Odd,
    Even,
}

// Why a call is refused: document 01's numbers 1 to 11. "The ballot reader, and the tick above it, are
// to give the index, from 0, of the first offending ballot", at 6, 7 and 8.
#[derive(Clone, Copy, Debug, PartialEq, Eq)]
pub enum Refusal {
    NotHeads,
    Proposal,
    Unsound,
    Coin,
    Length,
    BreaksRule { index: usize },
    OwnOtherwise { index: usize },
    Contradicts { index: usize },
    BothHeard,
    PhasesEnd,
    DecidesOtherwise,
}

// "A refused tick gives back the head as it came, sound or not."
#[derive(Clone, Copy, Debug, PartialEq, Eq)]
pub struct Refused {
    pub refusal: Refusal,
    pub head: Head,
}

impl Refusal {
    ghost use Rattle.rules.specs.Refusal.{number_of, index_of};

    // The number that is given back to C.
    pub fn number(self) -> u32
        ensures { result ≡ number_of self }
    {
        match self {
            Refusal::NotHeads => 1,
            Refusal::Proposal => 2,
            Refusal::Unsound => 3,
            Refusal::Coin => 4,
            Refusal::Length => 5,
            Refusal::BreaksRule { .. } => 6,
            Refusal::OwnOtherwise { .. } => 7,
            Refusal::Contradicts { .. } => 8,
            Refusal::BothHeard => 9,
            Refusal::PhasesEnd => 10,
            Refusal::DecidesOtherwise => 11,
        }
    }

    // "Other numbers give index 0."
    pub fn index(self) -> usize
        ensures { result ≡ index_of self }
    {
        match self {
            Refusal::BreaksRule { index }
            | Refusal::OwnOtherwise { index }
            | Refusal::Contradicts { index } => index,
            _ => 0,
        }
    }
}
