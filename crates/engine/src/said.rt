// What one ballot of a list says; and sets of those who say it.
ghost use Rattle.std.specs.Prelude.{◌≡◌, cond, ◌&&◌, ◌||◌, ℕ, ◌<◌, ◌≤◌, ◌+◌, ◌*◌, get_or, set, eqb};
ghost use Rattle.rules.specs.Ballot.{ballot_at};
ghost use Rattle.rules.specs.Heard.{member as member_of, set_of};
ghost use Rattle.engine.specs.Look.{nobody_said, is_within, statuses_of, barred_from, alone as alone_of};

use codes::{BALLOT_BYTES, Coded, PHASE_HIGH, PHASE_LOW, SENDER, STATUS, VALUE, phase_of};
use rules::{Class, Head};

// Of one ballot.
#[tactic(auto, unfolding(rules::specs::Ballot::ballot_at))]
pub(crate) fn sender_in(five: &[u8; BALLOT_BYTES]) -> u8
    ensures { result ≡ (ballot_at five.now 0).sender }
{
    five[SENDER]
}

#[tactic(auto, unfolding(rules::specs::Ballot::ballot_at))]
pub(crate) fn phase_in(five: &[u8; BALLOT_BYTES]) -> u16
    ensures { result ≡ (ballot_at five.now 0).phase }
{
    phase_of(five[PHASE_HIGH], five[PHASE_LOW])
}

// The place of its value and status among the sets of a look: two for each value. The codes in its bytes tell
// it. One number and no row and column: with a table of rows a list of 64 ballots took 1.53 times the C, over
// the aim of 1.5 (docs/SPEED.md).
pub(crate) fn place_in(five: &[u8; BALLOT_BYTES]) -> usize
    requires { get_or five.now 1 0 * 2 + get_or five.now 2 0 < 5 }
    ensures place { result ≡ get_or five.now 1 0 * 2 + get_or five.now 2 0 }
    ensures within { result < 5 }
{
    five[VALUE] as usize * 2 + five[STATUS] as usize
}

// Whether two ballots are of one value and status.
pub(crate) fn say_the_same(five: &[u8; BALLOT_BYTES], other: &[u8; BALLOT_BYTES]) -> bool
    ensures { result ≡ eqb (get_or five.now 1 0) (get_or other.now 1 0)
        && eqb (get_or five.now 2 0) (get_or other.now 2 0) }
{
    five[VALUE] == other[VALUE] && five[STATUS] == other[STATUS]
}

// The ballot rules at phases of a class: how many statuses stand for each value.
pub(crate) fn statuses_of(class: Class) -> [u8; 3]
    ensures { result ≡ statuses_of class }
{
    match class {
        Class::Never => [0, 0, 0],
        Class::First => [1, 1, 0],
        Class::Second => [1, 1, 1],
        Class::Odd => [2, 2, 0],
        Class::Even => [2, 2, 1],
    }
}

// Whether its sender is below n, and its value and status stand.
pub(crate) fn stands(n: u8, statuses: &[u8; 3], five: &[u8; BALLOT_BYTES]) -> bool
    ensures { result ≡ is_within n statuses.now five.now 0 }
{
    five[SENDER] < n && five[VALUE] <= 2 && five[STATUS] < statuses[five[VALUE] as usize]
}

// Who may not say what at the phase, the head's or a higher one.
pub(crate) fn barred_from(head: Head, phase: u16) -> [u32; 5]
    requires own_bound { head.own < 32 }
    requires phase_le_phase { head.phase ≤ phase }
    ensures { (c : ℕ) → c < 5 → get_or result c 0 ≡ barred_from head phase c }
{
    let own = alone(head.own);
    if phase != head.phase {
        return [own; 5];
    }
    let zeros = head.zeros;
    let ones = head.ones;
    let blanks = head.blanks;
    let mut others = [own; 6];
    others[head.value.code() as usize * 2 + head.status.code() as usize] = 0;
    [
        either(ones, blanks, others[0]),
        either(ones, blanks, others[1]),
        either(zeros, blanks, others[2]),
        either(zeros, blanks, others[3]),
        either(zeros, ones, others[4]),
    ]
}

// The sets of a look that has seen that sender alone, at that place. By tests: a store to the place is waited
// for when the sets are read next, and with one a list of 64 phases took 1.26 times as long.
pub(crate) fn said_alone(place: usize, sender: u32) -> [u32; 5]
    requires { place < 5 }
    ensures { result ≡ set nobody_said place sender }
{
    [
        kept(place == 0, sender),
        kept(place == 1, sender),
        kept(place == 2, sender),
        kept(place == 3, sender),
        kept(place == 4, sender),
    ]
}

// The set where the answer is yes, else nobody.
fn kept(yes: bool, set: u32) -> u32
    ensures { result ≡ cond yes set 0 }
{
    if yes { set } else { 0 }
}

#[tactic(auto, using(crate::proofs::Barred::either_set))]
pub(crate) fn either(a: u32, b: u32, c: u32) -> u32
    ensures { result ≡ set_of 32 (λ s. member_of s a || (member_of s b || member_of s c)) }
{
    a | (b | c)
}

// Here, in `has` and in `is_refused` `s < 32` is asked: a type for it would be made of a ballot's byte at
// each of their calls, by the same proof.
pub(crate) fn alone(s: u8) -> u32
    requires { s < 32 }
    ensures { result ≡ alone_of s }
{
    1u32 << s
}

// Not `codes::member`, which tests that too: with it 64 ballots took 6 in 100 more, and 1.54 times the C, over
// the aim of 1.5 (docs/SPEED.md), when this was tried.
pub(crate) fn has(set: u32, s: u8) -> bool
    requires { s < 32 }
    ensures { result ≡ member_of s set }
{
    (set >> s) % 2 == 1
}
