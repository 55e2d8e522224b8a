// The event of a state, what the oracles make of it, and the configuration after a move.
ghost use Rattle.std.specs.Prelude.{◌≡◌, true, ◌+◌, ◌<◌};
ghost use Rattle.semantics.specs.Plan.{interactions, letters};
ghost use Rattle.semantics.specs.Rules.{plan_refusal};
ghost use Rattle.semantics.specs.Move.{enabled, letter, judged, after, oracles_in_range, initial};
ghost use Rattle.choices.specs.Choices.{ChosenIn};
ghost use Rattle.layout.specs.Runs.{state_of, with_oracles, configuration_in};

use crate::fire;
use code::eval;
use lane::run;
use layout::header::propositions;
use layout::records::proposition_at;
use layout::run::{Run, RunState};
use oracle::row;
use words::bits;

// The event's letter: the sum of 2^k over the true propositions k.
#[tactic(auto, using(layout::proofs::Sections::laid_accepted, code::proofs::TakenSpans::proposition_taken), unfolding(semantics::specs::Bytes::mask))]
pub fn letter(plan: &[u8], state: &RunState) -> usize
    requires { plan_refusal plan.now ≡ 0 }
    ensures { (result ≡ letter plan.now (state_of state.now)) × (result < letters plan.now) }
{
    let mut out = 0;
    for k in 0..propositions(plan) {
        if eval::guard_holds(plan, state, proposition_at(plan, k)) {
            out = bits::with_bit(out, k);
        }
    }
    // below 16; there is no From of u64 for usize
    out as usize
}

// The oracles' states when they have read the event of a state.
#[tactic(auto, unfolding(semantics::specs::Move::judged))]
pub fn judge(plan: &[u8], state: &RunState, oracles: [u8; 4]) -> [u8; 4]
    requires plan_value { plan_refusal plan.now ≡ 0 }
    requires oracles_value { oracles_in_range plan.now oracles ≡ true }
    ensures { (with_oracles state.now result ≡ judged plan.now oracles (state_of state.now)) × (oracles_in_range plan.now result ≡ true) }
{
    row::next_states(plan, oracles, letter(plan, state))
}

// The run as it starts, its first event read. In line in both callers, where it is made in its place.
#[inline(always)]
#[tactic(auto, using(semantics::proofs::Oracles::start_in_range, semantics::proofs::AcceptedPlan::accepted_plan), unfolding(semantics::specs::Move::judged, semantics::specs::Move::initial))]
pub fn initial(plan: &[u8]) -> Run
    requires { plan_refusal plan.now ≡ 0 }
    ensures { (configuration_in result ≡ initial plan.now) × (result.marks ≡ 0) × (oracles_in_range plan.now result.oracles ≡ true) }
{
    let mut run = run::starting(plan);
    run.oracles = judge(plan, &run.state, run.oracles);
    run
}

// Makes the run that of after interaction i, the event read; the table of choices has those of its parts in the state before it. The marks stay.
#[tactic(auto, unfolding(semantics::specs::Move::judged, semantics::specs::Move::after))]
pub fn after(plan: &[u8], run: &mut Run, chosen: &[u16; 256], i: usize)
    requires plan_value { plan_refusal plan.now ≡ 0 }
    requires i_bound { (i < interactions plan.now) × ChosenIn plan.now (state_of run.old.state) chosen.now i × (enabled plan.now (state_of run.old.state) i ≡ true) }
    requires oracles_value { oracles_in_range plan.now run.old.oracles ≡ true }
    ensures run_after { (configuration_in run.new ≡ after plan.now (configuration_in run.old) i) × (oracles_in_range plan.now run.new.oracles ≡ true) }
    ensures marks_kept { run.new.marks ≡ run.old.marks }
{
    fire::fire(plan, &mut run.state, chosen, i);
    run.oracles = row::next_states(plan, run.oracles, letter(plan, &run.state));
}
