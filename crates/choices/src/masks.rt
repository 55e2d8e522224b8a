// Which interactions are enabled, as a mask of 64 bits.
#![tactic(auto, using(crate::proofs::MaskLaws::masking))]

ghost use Rattle.std.specs.Prelude.{◌≡◌, MatchOption, true, ◌&&◌, ℕ, ◌+◌, ◌*◌, ◌^◌, ◌≤◌, ◌<◌};
ghost use Rattle.semantics.specs.Bytes.{bit, every, mask};
ghost use Rattle.semantics.specs.Plan.{max_components, no_port, components, interactions, port_in, takes_part};
ghost use Rattle.semantics.specs.Rules.{plan_refusal};
ghost use Rattle.semantics.specs.Move.{enabled};
ghost use Rattle.choices.specs.Choices.{chosen_table, ChosenIn, port_ready};
ghost use Rattle.layout.specs.Runs.{state_of};

use code::eval;
use layout::run::RunState;
use layout::{header, records};
use words::each::every;
use words::{bits, bytes};

// The port of component c in interaction i; none where it takes no part.
pub fn port_in(plan: &[u8], i: usize, c: usize) -> Option<usize>
    requires plan_value { plan_refusal plan.now ≡ 0 }
    requires i_bound { (i < interactions plan.now) × (c < max_components) }
    ensures { MatchOption result (port_in plan.now i c ≡ no_port) (λ q. (q ≡ port_in plan.now i c) × (q < 16)) }
{
    match plan[records::interaction_at(plan, i) + c] {
        255 => None,
        q => Some(usize::from(q)),
    }
}

// Whether component c takes no part in interaction i, or has a transition for its port.
#[tactic(auto, using(crate::proofs::MaskLaws::masking), unfolding(crate::specs::Choices::port_ready, semantics::specs::Plan::takes_part, semantics::specs::Bytes::implies))]
fn port_ready(plan: &[u8], chosen: &[u16; 256], i: usize, c: usize) -> bool
    requires plan_value { plan_refusal plan.now ≡ 0 }
    requires i_bound { (i < interactions plan.now) × (c < max_components) }
    ensures { result ≡ port_ready plan.now chosen.now i c }
{
    match port_in(plan, i, c) {
        Some(q) => chosen[16 * c + q] < header::no_transition(plan),
        None => true,
    }
}

// Bit 8 * c + 7 where component base + c takes part in interaction i: the byte 255, for no port, has its bit 7, and a port has not.
fn part_bits(plan: &[u8], i: usize, base: usize) -> u64
    requires plan_value { plan_refusal plan.now ≡ 0 }
    requires i_bound { (i < interactions plan.now) × (base ≤ 8) }
    ensures { (c : ℕ) → c < 8 → takes_part plan.now i (base + c) ≡ true → bit result (8 * c + 7) ≡ true }
{
    !bytes::u64_at(plan, records::interaction_at(plan, i) + base) & 0x8080_8080_8080_8080
}

// Whether each of the eight components from base on that takes part in interaction i has a transition for its port; those alone are visited.
fn eight_ready(plan: &[u8], chosen: &[u16; 256], i: usize, base: usize) -> bool
    requires plan_value { plan_refusal plan.now ≡ 0 }
    requires i_bound { (i < interactions plan.now) × (base ≤ 8) }
    ensures { result ≡ every 8 (λ c. port_ready plan.now chosen.now i (base + c)) }
{
    let mut left = part_bits(plan, i, base);
    while left != 0 {
        let c = bits::lowest_bit(left) >> 3;
        if !port_ready(plan, chosen, i, base + c) {
            return false;
        }
        left = bits::without_lowest(left);
    }
    true
}

// Whether each component that takes part in interaction i has a transition for its port: few are asked one by one.
fn parts_ready(plan: &[u8], chosen: &[u16; 256], i: usize) -> bool
    requires plan_value { plan_refusal plan.now ≡ 0 }
    requires i_bound { i < interactions plan.now }
    ensures { result ≡ every (components plan.now) (port_ready plan.now chosen.now i) }
{
    let count = header::components(plan);
    if count <= 8 {
        return every(count, |c| port_ready(plan, chosen, i, c));
    }
    eight_ready(plan, chosen, i, 0) && eight_ready(plan, chosen, i, 8)
}

// Whether interaction i is enabled; the ports before the guard. The table of chosen transitions has those of its parts.
fn is_enabled(plan: &[u8], state: &RunState, chosen: &[u16; 256], i: usize) -> bool
    requires plan_value { plan_refusal plan.now ≡ 0 }
    requires i_bound { (i < interactions plan.now) × ChosenIn plan.now (state_of state.now) chosen.now i }
    ensures { result ≡ enabled plan.now (state_of state.now) i }
{
    if !parts_ready(plan, chosen, i) {
        return false;
    }
    eval::guard_holds(
        plan,
        state,
        records::interaction_at(plan, i) + records::INTERACTION_GUARD,
    )
}

// The enabled interactions of a mask, from a table that has the chosen transitions of each of them. A walk of its own, as those of ranks::among are.
pub fn enabled_among(plan: &[u8], state: &RunState, chosen: &[u16; 256], moves: u64) -> u64
    requires plan_value { plan_refusal plan.now ≡ 0 }
    requires by_index { (j : ℕ) → bit moves j ≡ true → (j < interactions plan.now) × ChosenIn plan.now (state_of state.now) chosen.now j }
    ensures { result ≡ mask (interactions plan.now) (λ j. bit moves j && enabled plan.now (state_of state.now) j) }
{
    let mut left = moves;
    let mut found = 0;
    while left != 0 {
        let i = bits::lowest_bit(left);
        if is_enabled(plan, state, chosen, i) {
            found = bits::with_bit(found, i);
        }
        left = bits::without_lowest(left);
    }
    found
}

// The enabled interactions, from the table of chosen transitions.
pub fn enabled_mask(plan: &[u8], state: &RunState, chosen: &[u16; 256]) -> u64
    requires plan_value { plan_refusal plan.now ≡ 0 }
    requires chosen_value { chosen.now ≡ chosen_table plan.now (state_of state.now) }
    ensures { (result ≡ mask (interactions plan.now) (enabled plan.now (state_of state.now)))
        × (result < 2 ^ interactions plan.now) }
{
    let all = bits::first_bits(header::interactions(plan));
    enabled_among(plan, state, chosen, all)
}
