// The vectors for the three entries for C, whose records and buffers may have any length.
//
//   s n own proposal record        vote_start     the number, and the record after the call
//   t length record coin list      vote_tick      the number, the index, and the record after the call
//   b length record buffer         vote_ballot    the number, and the buffer after the call
//
// Numbers are 4 bytes, a length is one byte. `bytes` and `lent` are the same bytes twice: a call
// writes to a part of `lent` while it reads a part of `bytes`. Each is tested for its length, so
// that no contract has to say that they are the same.
use crate::number::number_at;
use crate::print::{malformed, print_answer, print_indexed};
use std::io::{Print, Result};

pub(crate) fn answer_vote_start(out: &impl Print, bytes: &[u8], lent: &mut [u8]) -> Result<()> {
    if lent.len() < 12 {
        return malformed(out, b's');
    }
    start_record(
        out,
        &mut lent[12..],
        number_at(bytes, 0),
        number_at(bytes, 4),
        number_at(bytes, 8),
    )
}

pub(crate) fn answer_vote_tick(out: &impl Print, bytes: &[u8], lent: &mut [u8]) -> Result<()> {
    let record_end = 1 + usize::from(*bytes.first().unwrap_or(&0));
    let list_start = record_end + 4;
    if bytes.len() < list_start {
        return malformed(out, b't');
    }
    if lent.len() < record_end {
        return malformed(out, b't');
    }
    tick_record(
        out,
        &mut lent[1..record_end],
        &bytes[list_start..],
        number_at(bytes, record_end),
    )
}

pub(crate) fn answer_vote_ballot(out: &impl Print, bytes: &[u8], lent: &mut [u8]) -> Result<()> {
    let record_end = 1 + usize::from(*bytes.first().unwrap_or(&0));
    if bytes.len() < record_end {
        return malformed(out, b'b');
    }
    if lent.len() < record_end {
        return malformed(out, b'b');
    }
    write_ballot(out, &bytes[1..record_end], &mut lent[record_end..])
}

fn start_record(
    out: &impl Print,
    head_record: &mut [u8],
    n: u32,
    own: u32,
    proposal: u32,
) -> Result<()> {
    let number = vote::vote_start(head_record, n, own, proposal);
    print_answer(out, b's', number, head_record)
}

// The index is lent with all bits set, so that a call that leaves it alone shows.
fn tick_record(out: &impl Print, head_record: &mut [u8], list: &[u8], coin: u32) -> Result<()> {
    let mut index: usize = usize::MAX;
    let number = vote::vote_tick(head_record, list, coin, &mut index);
    print_indexed(out, b't', number, index, head_record)
}

fn write_ballot(out: &impl Print, head_record: &[u8], buffer: &mut [u8]) -> Result<()> {
    let number = vote::vote_ballot(head_record, buffer);
    print_answer(out, b'b', number, buffer)
}
