// The figures of a run: the bound, the good rounds and the written decisions, and the answer with them.
ghost use Rattle.std.specs.Prelude.{◌≡◌, ◌≤◌};
ghost use Rattle.std.specs.List.{sum_by};
ghost use Rattle.rules.specs.Sizes.{heads_most};
ghost use Rattle.rules.specs.Head.{is_written};
ghost use Rattle.file.specs.Plan.{accepted_plan};
ghost use Rattle.file.specs.Figures.{accepted_outcome, lost_in, bound_of, good_in};
ghost use Rattle.run.specs.Figures.{outcome_in, one_if_written};

use crate::plans::rows_of;
use crate::sections::row_at;
use codes::{SET_BYTES, size};
use file::{Figures, Plan};
use rules::{Decision, Head};

// `file, plan`, not a struct of both: it would hold a reference and be made for three calls in `bench` only.
pub(crate) fn figures(file: &[u8], plan: Plan, heads: &[Head]) -> Figures
    ensures { accepted_outcome result ≡ outcome_in file.now (accepted_plan plan)
        (sum_by (λ head. one_if_written head.decision) heads.now) }
{
    Figures {
        n: plan.n,
        needed: plan.needed,
        bound: bound(plan),
        rounds: plan.rounds,
        good: good(file, plan),
        decided: decided(heads),
    }
}

// "ceil(n/2) × (n - k) + k - 2"; 0 where there are no heads.
fn bound(plan: Plan) -> usize
    ensures { result ≡ bound_of plan.n plan.needed }
{
    let n = plan.n;
    let k = plan.needed;
    (n.div_ceil(2) * (n - k) + k).saturating_sub(2)
}

// "A round is good if its lost ballots, of n × n, are at most" the bound.
#[tactic(auto, unfolding(rules::specs::Below::count))]
fn good(file: &[u8], plan: Plan) -> usize
    ensures { result ≡ good_in file.now (accepted_plan plan) plan.rounds }
{
    let bound = bound(plan);
    let mut good = 0;
    for r in 0..plan.rounds {
        if lost_in(rows_of(file, plan, r), plan.n) <= bound {
            good += 1;
        }
    }
    good
}

// "its lost ballots, of n × n"
// At most `heads_most` heads, by a clause: neither a slice nor a number carries an invariant.
#[tactic(auto, unfolding(file::specs::Figures::lost_in), using(rules::proofs::Counting::Sets::size_le))]
fn lost_in(rows: &[u8], n: usize) -> usize
    requires { n ≤ heads_most }
    ensures { result ≡ lost_in rows.now n }
{
    let mut lost = 0;
    for i in 0..n {
        lost += size(row_at(rows, i * SET_BYTES)) as usize;
    }
    lost
}

// W2: "The last figure counts heads whose decision is written."
#[tactic(auto, using(crate::proofs::FirstHeads::added_counts))]
fn decided(heads: &[Head]) -> usize
    ensures { result ≡ sum_by (λ head. one_if_written head.decision) heads.now }
{
    heads.iter().filter(|head| is_written(**head)).count()
}

// A second one: the engine's is its own, not public.
fn is_written(head: Head) -> bool
    ensures { result ≡ is_written head }
{
    matches!(head.decision, Decision::Zero | Decision::One)
}
