// The entries for C, on records of 20 bytes, around the engine by value. `vote_c` exports them;
// nothing else of the library is public. They answer numbers, and take slices of any length: C calls.
#![tactic(auto)]

ghost use Rattle.std.specs.Prelude.{◌≡◌, length, replicate, IfOk, OnOk, OnErr};
ghost use Rattle.rules.specs.Sizes.{ballot_bytes, record_bytes};
ghost use Rattle.rules.specs.Head.{send_given};
ghost use Rattle.rules.specs.Record.{record_of, start_number_from_c, record_after_start};
ghost use Rattle.rules.specs.Record.{tick_number_from_c, record_after_tick, tick_index_from_c};
ghost use Rattle.rules.specs.Record.{send_number_from_c, buffer_after_send};

use codes::{BALLOT_BYTES, RECORD_BYTES, head_at, is_record, record_of};
use engine::{send, start, tick};
use rules::{Head, Refusal, Refused};

// Starts a head with its proposal, in a record of any former contents; the number is given back.
pub fn vote_start(head_record: &mut [u8], n: u32, own: u32, proposal: u32) -> u32
    ensures value { result ≡ start_number_from_c head_record.old n own proposal }
    ensures head_record_after { head_record.new ≡ record_after_start head_record.old n own proposal }
{
    match start(n, own, proposal) {
        Err(refusal) => refusal.number(),
        Ok(_) if head_record.len() != RECORD_BYTES => Refusal::Unsound.number(),
        Ok(head) => {
            store(head_record, head);
            0
        }
    }
}

// Ticks the record's head with a list of ballots and a coin; the number is given back, and the index of
// the first offending ballot is written.
pub fn vote_tick(head_record: &mut [u8], ballots: &[u8], coin: u32, index: &mut usize) -> u32
    ensures value { result ≡ tick_number_from_c head_record.old ballots.now coin }
    ensures head_record_after { head_record.new ≡ record_after_tick head_record.old ballots.now coin }
    ensures index_after { index.new ≡ tick_index_from_c head_record.old ballots.now coin }
{
    *index = 0;
    if !is_record(head_record) {
        return Refusal::Unsound.number();
    }
    match tick(head_at(head_record), ballots, coin) {
        Err(Refused { refusal, .. }) => {
            *index = refusal.index();
            refusal.number()
        }
        Ok(head) => {
            store(head_record, head);
            0
        }
    }
}

// Writes the ballot of the record's head into a buffer of five bytes; the number is given back.
pub fn vote_ballot(head_record: &[u8], ballot: &mut [u8]) -> u32
    ensures value { result ≡ send_number_from_c head_record.now ballot.old }
    ensures ballot_after { ballot.new ≡ buffer_after_send head_record.now ballot.old }
{
    match sent(head_record, ballot) {
        Err(refusal) => {
            ballot.fill(0);
            refusal.number()
        }
        Ok(five) => {
            ballot.copy_from_slice(&five);
            0
        }
    }
}

// The ballot of the record's head, for that buffer.
fn sent(head_record: &[u8], ballot: &[u8]) -> Result<[u8; BALLOT_BYTES], Refusal>
    ensures number { (send_given result).number ≡ send_number_from_c head_record.now ballot.now }
    ensures five { IfOk result (λ five. five ≡ buffer_after_send head_record.now ballot.now) }
    ensures five_len { OnOk result (length ballot.now ≡ ballot_bytes) }
    ensures zeros { OnErr result (buffer_after_send head_record.now ballot.now ≡ replicate (length ballot.now) 0) }
{
    if !is_record(head_record) {
        return Err(Refusal::Unsound);
    }
    let five = send(head_at(head_record))?;
    if ballot.len() != BALLOT_BYTES {
        return Err(Refusal::Length);
    }
    Ok(five)
}

// Writes the head over the whole record.
fn store(head_record: &mut [u8], head: Head)
    requires { length head_record.old ≡ record_bytes }
    ensures { head_record.new ≡ record_of head }
{
    head_record.copy_from_slice(&record_of(head));
}
