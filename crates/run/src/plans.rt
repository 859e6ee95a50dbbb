// A whole run file: its sections one after the other.
ghost use Rattle.std.specs.Prelude.{◌≡◌, ◌<◌, ◌+◌, ◌*◌, ◌^◌, take, drop};
ghost use Rattle.file.specs.Plan.{accepted_plan, plan_read, plan_of};
ghost use Rattle.file.specs.Table.{rows_in, coins_in};

use crate::places::{byte_at, part};
use crate::sections::{coins, count_at, losses, needed, proposals};
use codes::SET_BYTES;
use file::{Fault, Plan, Refusal};

// What the file says, for a table with room for so many heads. "Each section's answer is taken
// apart, body or refusal with its place, before the next is read."
pub(crate) fn plan_of(file: &[u8], room: usize) -> Result<Plan, Refusal>
    ensures { plan_read result ≡ plan_of file.now room }
{
    let proposals = proposals(file)?;
    let n = proposals.length;
    let need = needed(file, proposals.end(), n)?;
    let needed = usize::from(byte_at(file, need.start));
    let at = need.end();
    let rounds = usize::from(count_at(file, at));
    let losses = losses(file, at, n)?;
    let coins = coins(file, losses.end(), rounds * n)?;
    let end = coins.end();
    if end < file.len() {
        return Err(Refusal {
            fault: Fault::BytesAfterTheLastSection,
            place: end,
        });
    }
    if room < n {
        return Err(Refusal {
            fault: Fault::TableTooShort,
            place: 0,
        });
    }
    Ok(Plan {
        n,
        needed,
        rounds,
        losses: losses.start,
        coins: coins.start,
    })
}

// "the loss rows of one round are a part from the middle of the file": of section 3's part.
// `file, plan`, not a struct of both: see `figures`.
pub(crate) fn rows_of(file: &[u8], plan: Plan, r: usize) -> &[u8]
    requires { r < plan.rounds }
    ensures { result.now ≡ rows_in file.now (accepted_plan plan) r }
{
    of_round(file, plan.losses, plan.rounds, plan.n * SET_BYTES, r)
}

// The coins of one round: a part of section 4's.
pub(crate) fn coins_of(file: &[u8], plan: Plan, r: usize) -> &[u8]
    requires { r < plan.rounds }
    ensures { result.now ≡ coins_in file.now (accepted_plan plan) r }
{
    of_round(file, plan.coins, plan.rounds, plan.n, r)
}

// One round's part of a section's, in which each round has so many bytes.
fn of_round(file: &[u8], start: usize, rounds: usize, size: usize, r: usize) -> &[u8]
    requires is_round { r < rounds }
    requires fits { rounds * size < 2 ^ 64 }
    ensures { result.now ≡ take size (drop (start + r * size) file.now) }
{
    let all = part(file, start, rounds * size);
    part(all, r * size, size)
}
