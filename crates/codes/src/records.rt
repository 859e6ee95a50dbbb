// A head's record, both ways: "n, own number, phase (2, high byte first), value, status, decision (2
// for none), a zero byte, then the sets for 0, 1 and blank, 4 bytes each, high byte first".
ghost use Rattle.std.specs.Prelude.{◌≡◌, cond, eqb, length};
ghost use Rattle.rules.specs.Sizes.{record_bytes};
ghost use Rattle.rules.specs.Head.{zero_head};
ghost use Rattle.rules.specs.Record.{record_of, is_record, head_at};

use crate::code::Coded;
use crate::numbers::{four_bytes_of, phase_of};
use crate::sizes::RECORD_BYTES;
use rules::{Decision, Head, Status, Value};

// Whether the bytes are a record: "Another length or a byte outside these codes makes it unsound."
pub fn is_record(head_record: &[u8]) -> bool
    ensures { result ≡ is_record head_record.now }
{
    let Some(record) = head_record.as_array::<RECORD_BYTES>() else {
        return false;
    };
    (record[4] < 3) & ((record[5] < 2) & ((record[6] < 3) & (record[7] == 0)))
}

// The head that a record holds; bytes of another length hold the head of zeros.
pub fn head_at(head_record: &[u8]) -> Head
    ensures { result ≡ cond (eqb (length head_record.now) record_bytes)
        (head_at head_record.now) zero_head }
{
    let Some(record) = head_record.as_array::<RECORD_BYTES>() else {
        return zero_head();
    };
    Head {
        n: record[0],
        own: record[1],
        phase: phase_of(record[2], record[3]),
        value: Value::from_code(record[4]),
        status: Status::from_code(record[5]),
        decision: Decision::from_code(record[6]),
        zeros: four_bytes_of(record[8], record[9], record[10], record[11]),
        ones: four_bytes_of(record[12], record[13], record[14], record[15]),
        blanks: four_bytes_of(record[16], record[17], record[18], record[19]),
    }
}

// A head's record.
pub fn record_of(head: Head) -> [u8; RECORD_BYTES]
    ensures { result ≡ record_of head }
{
    let [high, low] = head.phase.to_be_bytes();
    let zeros = head.zeros.to_be_bytes();
    let ones = head.ones.to_be_bytes();
    let blanks = head.blanks.to_be_bytes();
    [
        head.n,
        head.own,
        high,
        low,
        head.value.code(),
        head.status.code(),
        head.decision.code(),
        0,
        zeros[0],
        zeros[1],
        zeros[2],
        zeros[3],
        ones[0],
        ones[1],
        ones[2],
        ones[3],
        blanks[0],
        blanks[1],
        blanks[2],
        blanks[3],
    ]
}

// "every field zero (value and decision 0, undecided)"
pub fn zero_head() -> Head
    ensures { result ≡ zero_head }
{
    Head {
        n: 0,
        own: 0,
        phase: 0,
        value: Value::Zero,
        status: Status::Undecided,
        decision: Decision::Zero,
        zeros: 0,
        ones: 0,
        blanks: 0,
    }
}
