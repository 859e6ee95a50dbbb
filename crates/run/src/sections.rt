// The sections of a run file: "the count is read, then its rule tested, then the body's length, then
// its bytes."
ghost use Rattle.std.specs.Prelude.{◌≡◌, ◌<◌, ◌≤◌, ℕ, List, Bool};
ghost use Rattle.std.specs.Fn.{FnReturnsAt};
ghost use Rattle.rules.specs.Sizes.{heads_most};
ghost use Rattle.rules.specs.Record.{four_bytes_at};
ghost use Rattle.file.specs.Section.{count_at, section_at, section_read};
ghost use Rattle.file.specs.Section.{not_bit, not_need, not_row};
ghost use Rattle.file.specs.Section.{proposals_of, needed_of, losses_of, coins_of};
ghost use Rattle.run.specs.Sections.{Tests};

use crate::places::{byte_at, part};
use codes::{SET_BYTES, not_heads, within};
use file::{Body, Fault, Refusal};

// "a two-byte count"
pub(crate) const COUNT_BYTES: usize = 2;

// "Count of rounds, 0 to 256"
const ROUNDS_MOST: usize = 256;

// "Count n (2 to 32), then n proposals (0 or 1)."
pub(crate) fn proposals(file: &[u8]) -> Result<Body, Refusal>
    ensures { section_read result ≡ proposals_of file.now }
{
    let n = count_at(file, 0);
    section(file, 0, not_heads(u32::from(n)), usize::from(n), 1, not_bit)
}

// "Count 1, then k, the heads needed: more than n/2, at most n."
// `file, at`, not a struct of both: it would be taken apart at each of the four calls in plans.rt.
pub(crate) fn needed(file: &[u8], at: usize, n: usize) -> Result<Body, Refusal>
    ensures { section_read result ≡ needed_of file.now at n }
{
    let count = count_at(file, at);
    section(
        file,
        at,
        count != 1,
        1,
        1,
        |need: &[u8]|
            ensures { result ≡ not_need n need.now 0 }
        {
            let k = usize::from(byte_at(need, 0));
            k * 2 <= n || n < k
        },
    )
}

// "Count of rounds, 0 to 256; per round n rows of 4 bytes"
// At most `heads_most` heads, by a clause: neither a slice nor a number carries an invariant.
pub(crate) fn losses(file: &[u8], at: usize, n: usize) -> Result<Body, Refusal>
    requires { n ≤ heads_most }
    ensures { section_read result ≡ losses_of file.now at n }
{
    let rounds = usize::from(count_at(file, at));
    let size = rounds * n * SET_BYTES;
    let heads = n as u32;
    section(
        file,
        at,
        ROUNDS_MOST < rounds,
        size,
        SET_BYTES,
        |row: &[u8]|
            ensures { result ≡ not_row heads row.now 0 }
        { !within(row_at(row, 0), heads) },
    )
}

// "Count n times rounds, then that many coins (0 or 1)"
pub(crate) fn coins(file: &[u8], at: usize, count: usize) -> Result<Body, Refusal>
    ensures { section_read result ≡ coins_of file.now at count }
{
    let read = usize::from(count_at(file, at));
    section(file, at, read != count, count, 1, not_bit)
}

// "a two-byte count, high byte first"
pub(crate) fn count_at(file: &[u8], place: usize) -> u16
    ensures { result ≡ count_at file.now place }
{
    let count = part(file, place, COUNT_BYTES);
    u16::from_be_bytes([byte_at(count, 0), byte_at(count, 1)])
}

// "rows of 4 bytes, high byte first"
pub(crate) fn row_at(rows: &[u8], place: usize) -> u32
    ensures { result ≡ four_bytes_at rows.now place }
{
    let row = part(rows, place, SET_BYTES);
    u32::from_be_bytes([
        byte_at(row, 0),
        byte_at(row, 1),
        byte_at(row, 2),
        byte_at(row, 3),
    ])
}

// The section whose count stands at a place, with a body of so many bytes, in pieces of so many.
fn section<F: Fn(&[u8]) -> bool>(
    file: &[u8],
    at: usize,
    count_breaks: bool,
    size: usize,
    width: usize,
    breaks: F,
) -> Result<Body, Refusal>
    requires some_bytes { 0 < width }
    requires callable { F.IsAlwaysCallable breaks }
    ensures { (test : List ℕ → ℕ → Bool) → Tests width (FnReturnsAt F.Fn breaks) test
        → section_read result ≡ section_at file.now at count_breaks size width test }
{
    let start = at.saturating_add(COUNT_BYTES);
    let ends = Refusal {
        fault: Fault::EndsInsideCountOrBody,
        place: file.len(),
    };
    if file.len() < start {
        return Err(ends);
    }
    if count_breaks {
        return Err(Refusal {
            fault: Fault::CountBreaksItsRule,
            place: at,
        });
    }
    if file.len() - start < size {
        return Err(ends);
    }
    let body = part(file, start, size);
    match body.chunks_exact(width).position(|piece| breaks(piece)) {
        Some(i) => Err(Refusal {
            fault: Fault::BytesBreakTheirRule,
            place: start + i * width,
        }),
        None => Ok(Body {
            start,
            length: size,
        }),
    }
}

// A proposal or a coin that is not "0 or 1".
fn not_bit(byte: &[u8]) -> bool
    ensures { result ≡ not_bit byte.now 0 }
{
    1 < byte_at(byte, 0)
}
