// What the heads send in a round, and one head's tick with what it receives.
ghost use Rattle.std.specs.Prelude.{◌≡◌, ◌≤◌, ◌<◌, ◌&&◌, true, not, eqb, length, take, map};
ghost use Rattle.std.specs.List.{flat_map};
ghost use Rattle.rules.specs.Sizes.{heads_most};
ghost use Rattle.rules.specs.Ballot.{bytes_of};
ghost use Rattle.rules.specs.Head.{ballot_of};
ghost use Rattle.rules.specs.Heard.{member as member_of, set_of};
ghost use Rattle.rules.specs.Tick.{tick_of};
ghost use Rattle.run.specs.Received.{received_from};

use codes::{BALLOT_BYTES, HEADS_MOST, ballot_bytes, lowest};
use engine::{own_ballot, tick};
use rules::{Head, Refused};

// The heads' ballots in number order, with room for as many heads as there can be.
// Not the kit's `ArrayVec`: each place is written by its number, and `push` would ask for room at each.
// At most `heads_most` heads, by a clause here and in `ticked`: a slice carries no invariant.
pub(crate) fn ballots_of(heads: &[Head]) -> [[u8; BALLOT_BYTES]; HEADS_MOST as usize]
    requires { length heads.now ≤ heads_most }
    ensures { take (length heads.now) result ≡ map (λ head. bytes_of (ballot_of head)) heads.now }
{
    let mut ballots = [[0; BALLOT_BYTES]; HEADS_MOST as usize];
    for (i, head) in heads.iter().enumerate() {
        ballots[i] = ballot_bytes(own_ballot(*head));
    }
    ballots
}

// "each head .. is ticked with those not lost to it, in sender order, and its coin of that round"
pub(crate) fn ticked(head: Head, sent: &[[u8; BALLOT_BYTES]], lost: u32, coin: u8) -> Head
    requires { length sent.now ≤ heads_most }
    ensures { result ≡ (tick_of head (received_from sent.now lost (length sent.now)) coin).head }
{
    if lost == 0 {
        return ticked_with(head, sent, coin);
    }
    // An array and a count: each ballot is written to its place by number, and `push` would ask for room.
    let mut received = [[0; BALLOT_BYTES]; HEADS_MOST as usize];
    let mut count = 0;
    let mut left = others(lost);
    let mut sender = lowest(left) as usize;
    // A `while`, from one ballot that is not lost to the next: with a `for` over all of them a file that
    // loses most took 1.4 times the instructions.
    while sender < sent.len() {
        received[count] = sent[sender];
        count += 1;
        left = without(left, sender);
        sender = lowest(left) as usize;
    }
    ticked_with(head, &received[..count], coin)
}

// Ticked with these ballots, one after the other.
fn ticked_with(head: Head, ballots: &[[u8; BALLOT_BYTES]], coin: u8) -> Head
    requires { length ballots.now ≤ heads_most }
    ensures { result ≡ (tick_of head (flat_map (λ ballot. ballot) ballots.now) coin).head }
{
    match tick(head, ballots.as_flattened(), u32::from(coin)) {
        Ok(head) | Err(Refused { head, .. }) => head,
    }
}

// The heads that are not in the set.
fn others(set: u32) -> u32
    ensures { result ≡ set_of heads_most (λ s. not (member_of s set)) }
{
    !set
}

// The set without one of its heads.
fn without(set: u32, s: usize) -> u32
    requires s_lt_heads_most { s < heads_most }
    requires set_value { member_of s set ≡ true }
    ensures { result ≡ set_of heads_most (λ t. member_of t set && not (eqb s t)) }
{
    set - (1u32 << s)
}
