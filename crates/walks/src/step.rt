// One step of a walk, of a log or a list: a move that the ranking allows is made, of any other the cause is said. A move passes from the verdict v on: 2 for a log, 1
// for a list.
ghost use Rattle.std.specs.Prelude.{◌≡◌, true, not, ◌<◌, eqb, replicate, is_ok, IfOk, OnErr};
ghost use Rattle.semantics.specs.Plan.{transitions, interactions, rank_row};
ghost use Rattle.semantics.specs.Rules.{plan_refusal};
ghost use Rattle.semantics.specs.Move.{after, oracles_in_range, leads_above};
ghost use Rattle.semantics.specs.Log.{cause_from, passes};
ghost use Rattle.choices.specs.Choices.{chosen_table, ChosenIn};
ghost use Rattle.layout.specs.Runs.{state_of, configuration_in};
ghost use Rattle.walks.specs.Steps.{cause_number, cause_said};

use choices::{choice, masks};
use layout::header::interactions;
use layout::records;
use layout::run::{Run, RunState};
use moves::{judge, search};
use oracle::row;
use words::bits;

// Why a move is not made: its own verdict is too low, or one of the numbers that a log's answer says.
#[derive(Clone, Copy, PartialEq, Eq, Debug)]
pub enum Cause {
    EndsLow = 0,
    NoSuchMove = 16,
    NotEnabled = 17,
    Outranked = 18,
}

impl From<Cause> for u8 {
    ghost from_gives = { λ c n. n ≡ cause_number c };

    fn from(cause: Cause) -> u8 {
        cause as u8
    }
}

// Fills the table of choices as far as move i needs it: for its own parts where no move is ranked above it. Whether one is.
fn choose_for(plan: &[u8], state: &RunState, chosen: &mut [u16; 256], i: usize) -> bool
    requires plan_value { plan_refusal plan.now ≡ 0 }
    requires i_bound { (i < interactions plan.now) × (chosen.old ≡ replicate 256 (transitions plan.now)) }
    ensures chosen_in { ChosenIn plan.now (state_of state.now) chosen.new i }
    ensures value { (result ≡ not (eqb (rank_row plan.now i) 0)) × (result ≡ true → chosen.new ≡ chosen_table plan.now (state_of state.now)) }
{
    if records::rank_row(plan, i) == 0 {
        choice::choose_in(plan, state, chosen, i);
        return false;
    }
    choice::choose(plan, state, chosen);
    true
}

// Whether an enabled move that leads to v or more lies above move i. Where one is ranked above it at all the table of choices is the whole one.
fn leading_above(plan: &[u8], run: &Run, chosen: &[u16; 256], i: usize, ranked: bool, v: u8) -> bool
    requires plan_value { plan_refusal plan.now ≡ 0 }
    requires i_bound { (i < interactions plan.now) × (oracles_in_range plan.now run.now.oracles ≡ true) }
    requires ranked_value { (ranked ≡ not (eqb (rank_row plan.now i) 0)) × (ranked ≡ true → chosen.now ≡ chosen_table plan.now (state_of run.now.state)) }
    ensures { result ≡ leads_above plan.now v (configuration_in run.now) i }
{
    if !ranked {
        return false;
    }
    search::leads_above(plan, run, chosen, i, v)
}

// Makes move i where the ranking allows it and it leads to v or more: the enabled ones above it are judged first, then it is made in place. The state that a move
// leaves that does not pass is of no use; the oracles' states are then as they were. The marks stay.
pub fn step(plan: &[u8], run: &mut Run, i: usize, v: u8) -> Result<(), Cause>
    requires plan_value { plan_refusal plan.now ≡ 0 }
    requires oracles_value { oracles_in_range plan.now run.old.oracles ≡ true }
    ensures made_value { (is_ok result ≡ passes plan.now v (configuration_in run.old) i)
        × (cause_said result ≡ cause_from plan.now v (configuration_in run.old) i) }
    ensures run_after { IfOk result (λ _. configuration_in run.new ≡ after plan.now (configuration_in run.old) i) }
    ensures in_range { oracles_in_range plan.now run.new.oracles ≡ true }
    ensures oracles_kept { OnErr result (run.new.oracles ≡ run.old.oracles) }
    ensures marks_kept { run.new.marks ≡ run.old.marks }
{
    if i >= interactions(plan) {
        return Err(Cause::NoSuchMove);
    }
    let mut chosen = [choice::unset(plan); 256];
    let ranked = choose_for(plan, &run.state, &mut chosen, i);
    let own = bits::with_bit(0, i);
    let enabled = masks::enabled_among(plan, &run.state, &chosen, own);
    if !bits::bit(enabled, i) {
        return Err(Cause::NotEnabled);
    }
    if leading_above(plan, run, &chosen, i, ranked, v) {
        return Err(Cause::Outranked);
    }
    let oracles = run.oracles;
    judge::after(plan, run, &chosen, i);
    if !row::reaches(plan, run.oracles, v) {
        run.oracles = oracles;
        return Err(Cause::EndsLow);
    }
    Ok(())
}
