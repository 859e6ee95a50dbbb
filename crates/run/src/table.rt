// The bench in a lent table of heads: the starts, the rounds, and what the heads are after them.
ghost use Rattle.std.specs.Prelude.{◌≡◌, ◌≤◌, length, get_or};
ghost use Rattle.rules.specs.Head.{start_of};
ghost use Rattle.rules.specs.Sizes.{heads_most};
ghost use Rattle.file.specs.Table.{placed, round_in, table_after};
ghost use Rattle.file.specs.Figures.{outcome_of, outcome_read};
ghost use Rattle.file.specs.Benched.{benched_of, benched_read};

use crate::figures::figures;
use crate::heads::{ballots_of, ticked};
use crate::places::{byte_at, part};
use crate::plans::{coins_of, plan_of, rows_of};
use crate::sections::{COUNT_BYTES, row_at};
use codes::{HEADS_MOST, SET_BYTES, zero_head};
use engine::start;
use file::{Benched, Figures, Refusal};
use rules::Head;

// "The bench works in a lent table of heads, n or more; after a run the first n are the heads and
// the others are untouched. Refused: nothing in the table changes."
#[tactic(auto, using(crate::proofs::FirstHeads::plans), unfolding(file::specs::Table::rounds_in))]
pub fn bench(file: &[u8], table: &mut [Head]) -> Result<Figures, Refusal>
    ensures value { outcome_read result ≡ outcome_of file.now table.old }
    ensures table_after { table.new ≡ table_after file.now table.old }
{
    let plan = plan_of(file, table.len())?;
    let heads = &mut table[..plan.n];
    start_all(heads, part(file, COUNT_BYTES, plan.n));
    for r in 0..plan.rounds {
        round(heads, rows_of(file, plan, r), coins_of(file, plan, r));
    }
    Ok(figures(file, plan, heads))
}

// The same in a table of 32 that is made here and given back: whoever calls this lends nothing.
pub fn run_file(file: &[u8]) -> Benched
    ensures { benched_read result ≡ benched_of file.now }
{
    let mut heads = [zero_head(); HEADS_MOST as usize];
    let outcome = bench(file, &mut heads);
    Benched { outcome, heads }
}

// Starts each head with its proposal, a byte of section 1's part.
// At most `heads_most` heads, by a clause here and in `round`: a slice carries no invariant.
#[tactic(auto, unfolding(file::specs::Table::placed))]
fn start_all(heads: &mut [Head], proposals: &[u8])
    requires { length heads.old ≤ heads_most }
    ensures { heads.new ≡ placed (length heads.old)
        (λ i. (start_of (length heads.old) i (get_or proposals.now i 0)).head) heads.old }
{
    let n = heads.len() as u32;
    for (i, head) in heads.iter_mut().enumerate() {
        *head = start(n, i as u32, u32::from(byte_at(proposals, i))).unwrap_or(zero_head());
    }
}

// "A round: all n ballots are formed first, then each head in number order is ticked".
#[tactic(auto, unfolding(file::specs::Table::placed))]
fn round(heads: &mut [Head], rows: &[u8], coins: &[u8])
    requires { length heads.old ≤ heads_most }
    ensures { heads.new ≡ round_in (length heads.old) rows.now coins.now heads.old }
{
    let ballots = ballots_of(heads);
    let sent = &ballots[..heads.len()];
    for (i, head) in heads.iter_mut().enumerate() {
        *head = ticked(*head, sent, row_at(rows, i * SET_BYTES), byte_at(coins, i));
    }
}
