// The transition that each component uses through each of its ports, found in one pass over the transitions: of all ports, or of those of one interaction.
#![tactic(auto, using(crate::proofs::ChoiceLaws::choosing))]

ghost use Rattle.std.specs.Prelude.{◌≡◌, ◌+◌, ◌≤◌, ◌<◌, cond, ltb, eqb, length, replicate};
ghost use Rattle.semantics.specs.Bytes.{byte};
ghost use Rattle.semantics.specs.Plan.{max_components, transitions, interactions, component_of, port_of, guard_of};
ghost use Rattle.semantics.specs.Code.{guard_holds};
ghost use Rattle.semantics.specs.Rules.{plan_refusal};
ghost use Rattle.choices.specs.Choices.{chosen_table, ChosenIn, noted};
ghost use Rattle.layout.specs.Runs.{state_of};

use code::eval;
use layout::run::RunState;
use layout::{header, records};

// The component of transition t.
fn component_of(plan: &[u8], t: usize) -> usize
    requires plan_value { plan_refusal plan.now ≡ 0 }
    requires t_bound { t < transitions plan.now }
    ensures { (result ≡ component_of plan.now t) × (result < max_components) }
{
    usize::from(plan[records::transition_at(plan, t)])
}

// The port of transition t.
fn port_of(plan: &[u8], t: usize) -> usize
    requires plan_value { plan_refusal plan.now ≡ 0 }
    requires t_bound { t < transitions plan.now }
    ensures { (result ≡ port_of plan.now t) × (result < 16) }
{
    usize::from(plan[records::transition_at(plan, t) + records::PORT])
}

// Whether the guard of transition t holds.
fn guard_of(plan: &[u8], state: &RunState, t: usize) -> bool
    requires plan_value { plan_refusal plan.now ≡ 0 }
    requires t_bound { t < transitions plan.now }
    ensures { result ≡ guard_holds plan.now (state_of state.now)
        (guard_of plan.now t) }
{
    eval::guard_holds(
        plan,
        state,
        records::transition_at(plan, t) + records::GUARD,
    )
}

// Gives transition t its slot, where the slot is still open and the transition can be taken.
#[tactic(auto, using(crate::proofs::ChoiceLaws::choosing), unfolding(crate::specs::Choices::noted, crate::specs::Choices::ripe))]
fn consider(plan: &[u8], state: &RunState, out: &mut [u16; 256], t: usize)
    requires plan_value { plan_refusal plan.now ≡ 0 }
    requires t_bound { (t < transitions plan.now) × (length out.old ≡ 256) }
    ensures { (out.new ≡ noted plan.now (state_of state.now) t out.old)
        × (length out.new ≡ 256) }
{
    let c = component_of(plan, t);
    if plan[records::transition_at(plan, t) + records::SOURCE] != state.locations[c] {
        return;
    }
    let slot = 16 * c + port_of(plan, t);
    if out[slot] != header::no_transition(plan) {
        return;
    }
    if guard_of(plan, state, t) {
        // below 256; try_from would add an error that cannot come
        out[slot] = t as u16;
    }
}

// What each entry of the table holds before a transition was considered: the number of transitions, for none. 0 where the plan is too short to say it.
// A number and no Option<u16>: chosen_table gives numbers, and the table would take twice its 512 bytes of fixed memory.
pub fn unset(plan: &[u8]) -> u16
    ensures { result ≡ cond (ltb (length plan.now) 48) 0 (transitions plan.now) }
{
    if plan.len() < header::HEADER {
        return 0;
    }
    header::no_transition(plan)
}

// Fills a table that has the number of transitions, for none, in each entry: entry 16 * c + q is the transition that component c uses through
// port q.
pub fn choose(plan: &[u8], state: &RunState, out: &mut [u16; 256])
    requires plan_value { plan_refusal plan.now ≡ 0 }
    requires out_value { out.old ≡ replicate 256 (transitions plan.now) }
    ensures { out.new ≡ chosen_table plan.now (state_of state.now) }
{
    for t in 0..header::transitions(plan) {
        consider(plan, state, out, t);
    }
}

// Whether transition t goes through the port that its component has in the interaction whose record begins at row.
fn is_named(plan: &[u8], row: usize, t: usize) -> bool
    requires plan_value { plan_refusal plan.now ≡ 0 }
    requires row_in_bounds { (row + 24 ≤ length plan.now) × (t < transitions plan.now) }
    ensures { result ≡ eqb (byte plan.now (row + component_of plan.now t)) (port_of plan.now t) }
{
    usize::from(plan[row + component_of(plan, t)]) == port_of(plan, t)
}

// Fills such a table as far as interaction i reads it: for each component that takes part, the entry of its port. No guard of
// another transition is evaluated.
pub fn choose_in(plan: &[u8], state: &RunState, out: &mut [u16; 256], i: usize)
    requires plan_value { plan_refusal plan.now ≡ 0 }
    requires i_bound { (i < interactions plan.now) × (out.old ≡ replicate 256 (transitions plan.now)) }
    ensures { ChosenIn plan.now (state_of state.now) out.new i }
{
    let row = records::interaction_at(plan, i);
    for t in 0..header::transitions(plan) {
        if is_named(plan, row, t) {
            consider(plan, state, out, t);
        }
    }
}
