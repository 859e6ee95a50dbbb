// One look at a list of ballots, up to the first that is refused by 6, 7 or 8. So one sender says one
// thing at a phase in all that was looked at, and sets of senders tell whether the next one differs.
ghost use Rattle.std.specs.Prelude.{◌≡◌, false, ◌&&◌, ◌||◌, not, ℕ, ◌<◌, eqb};
ghost use Rattle.rules.specs.Below.{first};
ghost use Rattle.rules.specs.Ballot.{ballot_at, breaks_rule};
ghost use Rattle.rules.specs.Heard.{member as member_of};
ghost use Rattle.rules.specs.Tick.{ballots as ballots_of};
ghost use Rattle.engine.specs.Look.{refused, look_at, unlooked as unlooked_of, with_said};
ghost use Rattle.engine.specs.Look.{Fits, Looks, GoesOn, KnownIn, value_by, status_by, foremost as foremost_of};

use crate::ballot::{breaks_rule, class};
use crate::list::{first_of, otherwise};
use crate::said::{
    alone, barred_from, has, phase_in, place_in, said_alone, say_the_same, sender_in, stands,
    statuses_of,
};
use codes::{BALLOT_BYTES, lowest, member};
use rules::{Ballot, Head, Status, Value};

// What the first `next` ballots say, none of them refused. `phase`: the highest, the head's own
// among them. Of the ballots of that phase: `listed`, who sent one, and, by value and status, who
// said it. `elsewhere`: who sent one of a lower phase.
#[derive(Clone, Copy)]
pub struct Look {
    pub next: usize,
    pub phase: u16,
    pub listed: u32,
    pub elsewhere: u32,
    pub zeros: u32,
    pub zeros_decided: u32,
    pub ones: u32,
    pub ones_decided: u32,
    pub blanks: u32,
}

// The look at the first refused ballot, or at the end of the list. In each turn it takes the ballots of
// the highest phase that come next, then the late ones, then one from ahead. A `while`: how far a turn
// goes is known only after it, so no range and no iterator gives the turns.
pub(crate) fn looked(head: Head, ballots: &[u8]) -> Look
    requires { Fits head }
    ensures { result ≡ look_at head ballots.now
        (first (ballots_of ballots.now) (refused head ballots.now)) }
{
    let count = ballots.len() / BALLOT_BYTES;
    let mut look = unlooked(head);
    while look.next < count {
        let from = look.next;
        look = look
            .with_present(head, ballots)
            .with_late(head, ballots)
            .with_ahead(head, ballots);
        if look.next == from {
            return look;
        }
    }
    look
}

fn unlooked(head: Head) -> Look
    ensures { result ≡ unlooked_of head }
{
    Look {
        next: 0,
        phase: head.phase,
        listed: 0,
        elsewhere: 0,
        zeros: 0,
        zeros_decided: 0,
        ones: 0,
        ones_decided: 0,
        blanks: 0,
    }
}

// A struct of head and ballots with `Fits` as its ghost field was no shorter: `Looks` speaks of a look
// beside the two, so each stage would name all three as here.
impl Look {
    // With the ballots of the look's phase that come next, up to one of another phase or one refused.
    fn with_present(self, head: Head, ballots: &[u8]) -> Look
        requires fits { Fits head }
        requires looks { Looks head ballots.now self }
        ensures { GoesOn head ballots.now (λ p q. p ≡ q) self result }
    {
        let (fives, _) = ballots.as_chunks::<BALLOT_BYTES>();
        let statuses = statuses_of(class(self.phase));
        let barred = barred_from(head, self.phase);
        let mut listed = self.listed;
        // By place, since a ballot's codes say which of the sets it is: fields would want a `match`.
        let mut said = [
            self.zeros,
            self.zeros_decided,
            self.ones,
            self.ones_decided,
            self.blanks,
        ];
        for i in self.next..fives.len() {
            let five = &fives[i];
            if phase_in(five) != self.phase || !stands(head.n, &statuses, five) {
                return self.with_said(i, listed, said);
            }
            let sender = sender_in(five);
            let place = place_in(five);
            if is_refused(barred[place], listed, said[place], sender) {
                return self.with_said(i, listed, said);
            }
            let one = alone(sender);
            said[place] |= one;
            listed |= one;
        }
        self.with_said(fives.len(), listed, said)
    }

    fn with_said(self, next: usize, listed: u32, said: [u32; 5]) -> Look
        ensures { result ≡ with_said self next listed said }
    {
        Look {
            next,
            listed,
            zeros: said[0],
            zeros_decided: said[1],
            ones: said[2],
            ones_decided: said[3],
            blanks: said[4],
            ..self
        }
    }

    // With the ballots of lower phases that come next, up to one that is not or one refused.
    fn with_late(self, head: Head, ballots: &[u8]) -> Look
        requires fits { Fits head }
        requires looks { Looks head ballots.now self }
        ensures { GoesOn head ballots.now (λ p q. p < q) self result }
    {
        let (fives, _) = ballots.as_chunks::<BALLOT_BYTES>();
        let mut elsewhere = self.elsewhere;
        for i in self.next..fives.len() {
            let five = &fives[i];
            if self.phase <= phase_in(five) || is_refused_late(elsewhere, head, ballots, i) {
                return Look {
                    next: i,
                    elsewhere,
                    ..self
                };
            }
            elsewhere |= alone(sender_in(five));
        }
        Look {
            next: fives.len(),
            elsewhere,
            ..self
        }
    }

    // With the next ballot, if it is of a higher phase and not refused: what was listed is elsewhere.
    fn with_ahead(self, head: Head, ballots: &[u8]) -> Look
        requires fits { Fits head }
        requires looks { Looks head ballots.now self }
        ensures { GoesOn head ballots.now (λ p q. (result.next ≡ self.next) × (q < p)) self result }
    {
        let (fives, _) = ballots.as_chunks::<BALLOT_BYTES>();
        let Some(five) = fives.get(self.next) else {
            return self;
        };
        if phase_in(five) <= self.phase {
            return self;
        }
        if is_refused_ahead(head, five) {
            return self;
        }
        let sender = alone(sender_in(five));
        let said = said_alone(place_in(five), sender);
        let risen = Look {
            phase: phase_in(five),
            elsewhere: self.elsewhere | self.listed,
            ..self
        };
        risen.with_said(self.next + 1, sender, said)
    }

    // What head s says at the look's phase.
    fn value_by(self, s: u8) -> Value
        ensures { result ≡ value_by self s }
    {
        if member(self.blanks, s) {
            Value::Blank
        } else if member(self.ones | self.ones_decided, s) {
            Value::One
        } else {
            Value::Zero
        }
    }

    fn status_by(self, s: u8) -> Status
        ensures { result ≡ status_by self s }
    {
        if member(self.zeros_decided | self.ones_decided, s) {
            Status::Decided
        } else {
            Status::Undecided
        }
    }
}

// Whether a ballot of the look's phase is refused by 7 or 8: its sender may not say this, or has said
// something else.
fn is_refused(barred: u32, listed: u32, said: u32, sender: u8) -> bool
    requires { sender < 32 }
    ensures { result ≡ (member_of sender barred || member_of sender listed) && not (member_of sender said) }
{
    has(barred | listed, sender) && !has(said, sender)
}

// Whether a ballot of a lower phase than the look's is refused. Only where its sender has sent another
// one of a lower phase are the earlier ballots searched, and only up to the first of its sender and
// phase: none before this one is refused, so all of them say the same.
// The list and the index, for its answer speaks of the ballots before that one.
fn is_refused_late(elsewhere: u32, head: Head, ballots: &[u8], i: usize) -> bool
    requires fits { Fits head }
    requires i_bound { i < ballots_of ballots.now }
    requires known_in { KnownIn elsewhere ballots.now i }
    requires by_index { (j : ℕ) → j < i → refused head ballots.now j ≡ false }
    ensures { result ≡ refused head ballots.now i }
{
    let (fives, _) = ballots.as_chunks::<BALLOT_BYTES>();
    let five = &fives[i];
    if breaks_rule(head.n as u32, five) {
        return true;
    }
    if !has(elsewhere, sender_in(five)) {
        return otherwise(head, five);
    }
    let earlier = first_of(ballots, phase_in(five), sender_in(five), i);
    !say_the_same(&fives[earlier], five) || otherwise(head, five)
}

// Whether a ballot of a higher phase than the look's is refused: by 6, or under the head's own number
// by 7.
fn is_refused_ahead(head: Head, five: &[u8; BALLOT_BYTES]) -> bool
    ensures { result ≡ breaks_rule head.n five.now 0 || eqb (ballot_at five.now 0).sender head.own }
{
    breaks_rule(head.n as u32, five) || sender_in(five) == head.own
}

// "a ballot of the highest phase; among several senders the lowest number gives it". Where nobody is
// listed, and so none is from ahead, it is one of head 0.
pub(crate) fn foremost(look: Look) -> Ballot
    ensures { result ≡ foremost_of look }
{
    let sender = (lowest(look.listed) % 32) as u8;
    Ballot {
        sender,
        value: look.value_by(sender),
        status: look.status_by(sender),
        phase: look.phase,
    }
}
