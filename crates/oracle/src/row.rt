// The states of the oracles: their rows, verdicts and next states. The states of all four are one array, 0 where the plan has no such oracle.
ghost use Rattle.std.specs.Prelude.{◌≡◌, true, ◌<◌, get_or};
ghost use Rattle.semantics.specs.Plan.{max_oracles, added_oracles, oracle_states, states_before, letters, oracle_at, verdict, next};
ghost use Rattle.semantics.specs.Rules.{plan_refusal};
ghost use Rattle.semantics.specs.Move.{next_states, state_in_range, oracles_in_range, lowest_verdict, reaches};
ghost use Rattle.layout.specs.Laid.{Laid};

use crate::table::Table;
use layout::header::{added_oracles, oracle_states, oracles};
use layout::records::{NEXT, row_at};

// The verdict of state q of oracle n, whose row is at a place.
#[tactic(auto, using(layout::proofs::Places::oracle_row_in), unfolding(semantics::specs::Plan::verdict))]
pub fn verdict_in(plan: &[u8], row: usize, n: usize, q: usize) -> u8
    requires { Laid plan.now × (n < max_oracles) × (q < oracle_states plan.now n) × (row ≡ oracle_at plan.now n q) }
    ensures { result ≡ verdict plan.now n q }
{
    plan[row]
}

// The state that follows q of oracle n on letter a; the row of q is at a place.
#[tactic(auto, using(layout::proofs::Places::oracle_row_in), unfolding(semantics::specs::Plan::next))]
pub fn next_in(plan: &[u8], row: usize, n: usize, q: usize, a: usize) -> u8
    requires { Laid plan.now × (n < max_oracles) × (q < oracle_states plan.now n) × (row ≡ oracle_at plan.now n q) × (a < letters plan.now) }
    ensures { result ≡ next plan.now n q a }
{
    plan[row + (NEXT + a)]
}

// The place of the row of state q of oracle n, whose first row has the number `first`.
#[tactic(auto, using(crate::proofs::Tables::rows_end))]
pub fn row_of(plan: &[u8], n: usize, first: usize, q: usize) -> usize
    requires { Laid plan.now × (n < max_oracles) × (q < oracle_states plan.now n) × (first ≡ states_before plan.now n) }
    ensures { result ≡ oracle_at plan.now n q }
{
    row_at(plan, first + q)
}

// Whether oracle n has state q; 0 where the plan has no oracle n.
#[tactic(auto, using(layout::proofs::Sections::laid_accepted, crate::proofs::States::known_by_count))]
fn known(plan: &[u8], n: usize, q: u8) -> bool
    requires plan_value { plan_refusal plan.now ≡ 0 }
    requires n_lt_max_oracles { n < max_oracles }
    ensures { result ≡ state_in_range plan.now n q }
{
    (usize::from(q) < oracle_states(plan, n)) | (q == 0)
}

// Whether each oracle has its state. State 0 of an added one needs no look: it has it, or there is no such oracle.
#[tactic(auto, using(layout::proofs::Sections::laid_accepted, crate::proofs::States::known_by_count, crate::proofs::States::first_known), unfolding(semantics::specs::Move::oracles_in_range, semantics::specs::Bytes::every))]
pub fn in_range(plan: &[u8], states: [u8; 4]) -> bool
    requires { plan_refusal plan.now ≡ 0 }
    ensures { result ≡ oracles_in_range plan.now states }
{
    if usize::from(states[0]) >= oracle_states(plan, 0) {
        return false;
    }
    if (states[1] == 0) & (states[2] == 0) & (states[3] == 0) {
        return true;
    }
    known(plan, 1, states[1]) & known(plan, 2, states[2]) & known(plan, 3, states[3])
}

// The lowest of the states' verdicts: the first oracle's, then those of the added ones.
#[tactic(auto, using(layout::proofs::Sections::laid_accepted, crate::proofs::States::used_state, crate::proofs::Verdicts::lowest_first, crate::proofs::Verdicts::lowest_turn))]
fn lowest(plan: &[u8], states: [u8; 4]) -> u8
    requires plan_value { plan_refusal plan.now ≡ 0 }
    requires states_value { oracles_in_range plan.now states ≡ true }
    ensures { result ≡ lowest_verdict plan.now states (added_oracles plan.now) }
{
    let mut table = Table::first(plan);
    let mut out = table.verdict(usize::from(states[0]));
    for n in 1..oracles(plan) {
        table = table.following();
        out = out.min(table.verdict(usize::from(states[n])));
    }
    out
}

// Whether the states' verdict is v or more.
#[tactic(auto, unfolding(semantics::specs::Move::reaches))]
pub fn reaches(plan: &[u8], states: [u8; 4], v: u8) -> bool
    requires plan_value { plan_refusal plan.now ≡ 0 }
    requires states_value { oracles_in_range plan.now states ≡ true }
    ensures { result ≡ reaches plan.now v states }
{
    lowest(plan, states) >= v
}

// Whether the states are good: their verdict is 2 or 3.
pub fn good(plan: &[u8], states: [u8; 4]) -> bool
    requires plan_value { plan_refusal plan.now ≡ 0 }
    requires states_value { oracles_in_range plan.now states ≡ true }
    ensures { result ≡ reaches plan.now 2 states }
{
    reaches(plan, states, 2)
}

// The states when each oracle has read letter a.
#[tactic(auto, using(layout::proofs::Sections::laid_accepted, crate::proofs::States::used_state, crate::proofs::States::next_known))]
pub fn next_states(plan: &[u8], states: [u8; 4], a: usize) -> [u8; 4]
    requires plan_value { plan_refusal plan.now ≡ 0 }
    requires states_value { (oracles_in_range plan.now states ≡ true) × (a < letters plan.now) }
    ensures { (result ≡ next_states plan.now states a) × (oracles_in_range plan.now result ≡ true) }
{
    let next = Table::first(plan).next(usize::from(states[0]), a);
    if added_oracles(plan) == 0 {
        return [next, 0, 0, 0];
    }
    each_next(plan, states, a, next)
}

// The same where the first oracle's next state is known: the added ones, one after the other.
#[tactic(auto, using(layout::proofs::Sections::laid_accepted, crate::proofs::States::used_state, words::proofs::Loops::filled_turn), unfolding(semantics::specs::Move::next_states, words::proofs::Loops::filled))]
fn each_next(plan: &[u8], states: [u8; 4], a: usize, next: u8) -> [u8; 4]
    requires plan_value { plan_refusal plan.now ≡ 0 }
    requires states_value { (oracles_in_range plan.now states ≡ true) × (a < letters plan.now) × (next ≡ Rattle.semantics.specs.Plan.next plan.now 0 (get_or states 0 0) a) }
    ensures { result ≡ next_states plan.now states a }
{
    let mut out = [next, 0, 0, 0];
    let mut table = Table::first(plan);
    for k in 1..oracles(plan) {
        table = table.following();
        out[k] = table.next(usize::from(states[k]), a);
    }
    out
}
