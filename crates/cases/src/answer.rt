// A vector to its answer. Numbers are 4 bytes, high byte first; a head is its record of 20 bytes.
//
//   R n ballot           read             the number, the index, and the ballot's five bytes
//   S n own proposal     start            the number, and the head's record
//   T head coin list     tick             the number, the index, and the head's record
//   B head               send             the number, and the ballot's five bytes
//
// The small letters, the entries for C, are in `entry`.
use crate::entry::{answer_vote_ballot, answer_vote_start, answer_vote_tick};
use crate::number::number_at;
use crate::print::{malformed, print_answer, print_indexed};
use codes::{BALLOT_BYTES, RECORD_BYTES, ballot_bytes, head_at, is_record, record_of, zero_head};
use rules::Refused;
use std::io::{Print, Result};

// Where the list of a tick begins: after the head and the coin.
const LIST_START: usize = RECORD_BYTES + 4;

// Calls what the letter stands for and prints the answer. `lent` is the same bytes a second time. A
// `match` is no longer than a table of letters and functions, and says which call each has.
pub(crate) fn answer(out: &impl Print, letter: u8, bytes: &[u8], lent: &mut [u8]) -> Result<()> {
    match letter {
        b'R' => answer_read(out, bytes),
        b'S' => answer_start(out, bytes),
        b'T' => answer_tick(out, bytes),
        b'B' => answer_send(out, bytes),
        b's' => answer_vote_start(out, bytes, lent),
        b't' => answer_vote_tick(out, bytes, lent),
        b'b' => answer_vote_ballot(out, bytes, lent),
        _ => malformed(out, letter),
    }
}

fn answer_read(out: &impl Print, bytes: &[u8]) -> Result<()> {
    if bytes.len() < 4 {
        return malformed(out, b'R');
    }
    match engine::read(number_at(bytes, 0), &bytes[4..]) {
        Ok(ballot) => print_indexed(out, b'R', 0, 0, &ballot_bytes(ballot)),
        Err(refusal) => print_indexed(
            out,
            b'R',
            refusal.number(),
            refusal.index(),
            &[0; BALLOT_BYTES],
        ),
    }
}

fn answer_start(out: &impl Print, bytes: &[u8]) -> Result<()> {
    if bytes.len() != 12 {
        return malformed(out, b'S');
    }
    match engine::start(
        number_at(bytes, 0),
        number_at(bytes, 4),
        number_at(bytes, 8),
    ) {
        Ok(head) => print_answer(out, b'S', 0, &record_of(head)),
        Err(refusal) => print_answer(out, b'S', refusal.number(), &record_of(zero_head())),
    }
}

fn answer_tick(out: &impl Print, bytes: &[u8]) -> Result<()> {
    if bytes.len() < LIST_START {
        return malformed(out, b'T');
    }
    tick_head(
        out,
        &bytes[..RECORD_BYTES],
        &bytes[LIST_START..],
        number_at(bytes, RECORD_BYTES),
    )
}

fn answer_send(out: &impl Print, bytes: &[u8]) -> Result<()> {
    if !is_record(bytes) {
        return malformed(out, b'B');
    }
    match engine::send(head_at(bytes)) {
        Ok(five) => print_answer(out, b'B', 0, &five),
        Err(refusal) => print_answer(out, b'B', refusal.number(), &[0; BALLOT_BYTES]),
    }
}

fn tick_head(out: &impl Print, head_record: &[u8], list: &[u8], coin: u32) -> Result<()> {
    if !is_record(head_record) {
        return malformed(out, b'T');
    }
    match engine::tick(head_at(head_record), list, coin) {
        Ok(head) => print_indexed(out, b'T', 0, 0, &record_of(head)),
        Err(Refused { refusal, head }) => print_indexed(
            out,
            b'T',
            refusal.number(),
            refusal.index(),
            &record_of(head),
        ),
    }
}
