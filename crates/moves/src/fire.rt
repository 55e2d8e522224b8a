// One move: the transfer, the actions of the components that take part, then their destinations and last ports.
#![tactic(auto, using(crate::proofs::FireLaws::firing))]

ghost use Rattle.std.specs.Prelude.{◌≡◌, true, ◌+◌, ◌*◌, ◌<◌, ℕ, List, length, get_or};
ghost use Rattle.semantics.specs.Plan.{max_components, max_variables, components, interactions, destination, port_in, takes_part};
ghost use Rattle.semantics.specs.Rules.{plan_refusal};
ghost use Rattle.semantics.specs.Move.{enabled, fired};
ghost use Rattle.choices.specs.Choices.{chosen_by, ChosenIn};
ghost use Rattle.moves.specs.Parts.{AllChosen, act_part, acts_below, set_where, set_below};
ghost use Rattle.semantics.specs.Code.{site};
ghost use Rattle.layout.specs.Runs.{state_of};

use choices::masks;
use code::eval;
use layout::header::components;
use layout::records::{ACTION, DESTINATION, TRANSFER, interaction_at, transition_at};
use layout::run::RunState;

// The transition that the table has for component c through a port.
fn look_up(chosen: &[u16; 256], c: usize, port: usize) -> usize
    requires { (c < max_components) × (port < 16) }
    ensures { result ≡ get_or chosen.now (16 * c + port) 0 }
{
    usize::from(chosen[16 * c + port])
}

// The action of component c, where it takes part in interaction i. It reads and writes the values alone: the promise is for every state with them.
fn act_part(plan: &[u8], values: &mut [i32; 64], chosen: &[u16; 256], i: usize, c: usize)
    requires plan_value { plan_refusal plan.now ≡ 0 }
    requires i_bound { (i < interactions plan.now) × (c < max_components) × (length values.old ≡ max_variables) × AllChosen plan.now chosen.now i }
    ensures { ((l q : List ℕ) → site l q values.new ≡ act_part plan.now chosen.now i c (site l q values.old)) × (length values.new ≡ max_variables) }
{
    if let Some(q) = masks::port_in(plan, i, c) {
        let at = transition_at(plan, look_up(chosen, c, q));
        eval::act(plan, values, at + ACTION);
    }
}

// The actions of all components that take part in interaction i; likewise.
fn acts(plan: &[u8], values: &mut [i32; 64], chosen: &[u16; 256], i: usize)
    requires plan_value { plan_refusal plan.now ≡ 0 }
    requires i_bound { (i < interactions plan.now) × (length values.old ≡ max_variables) × AllChosen plan.now chosen.now i }
    ensures { ((l q : List ℕ) → site l q values.new ≡ acts_below plan.now chosen.now i (components plan.now) (site l q values.old)) × (length values.new ≡ max_variables) }
{
    for c in 0..components(plan) {
        act_part(plan, values, chosen, i, c);
    }
}

// Brings component c to its destination and notes its port, where it takes part in interaction i. It is lent what it writes, so nothing need be said of the values.
fn arrive_part(
    plan: &[u8],
    locations: &mut [u8; 16],
    ports: &mut [u8; 16],
    chosen: &[u16; 256],
    i: usize,
    c: usize,
)
    requires plan_value { plan_refusal plan.now ≡ 0 }
    requires i_bound { (i < interactions plan.now) × (c < max_components) × AllChosen plan.now chosen.now i }
    ensures locations_after { locations.new ≡ set_where (takes_part plan.now i c) locations.old c (destination plan.now (chosen_by plan.now chosen.now i c)) }
    ensures ports_after { ports.new ≡ set_where (takes_part plan.now i c) ports.old c (port_in plan.now i c) }
{
    if let Some(port) = masks::port_in(plan, i, c) {
        let at = transition_at(plan, look_up(chosen, c, port));
        locations[c] = plan[at + DESTINATION];
        // below 16; try_from would add an error that cannot come
        ports[c] = port as u8;
    }
}

// Brings all components that take part in interaction i to their destinations and notes their ports.
fn arrive(
    plan: &[u8],
    locations: &mut [u8; 16],
    ports: &mut [u8; 16],
    chosen: &[u16; 256],
    i: usize,
)
    requires plan_value { plan_refusal plan.now ≡ 0 }
    requires i_bound { (i < interactions plan.now) × AllChosen plan.now chosen.now i }
    ensures locations_after { locations.new ≡ set_below (takes_part plan.now i) (λ c. destination plan.now (chosen_by plan.now chosen.now i c)) locations.old (components plan.now) }
    ensures ports_after { ports.new ≡ set_below (takes_part plan.now i) (port_in plan.now i) ports.old (components plan.now) }
{
    for c in 0..components(plan) {
        arrive_part(plan, locations, ports, chosen, i, c);
    }
}

// Makes the state that of after interaction i; the table of choices has those of its parts in the state before it.
pub fn fire(plan: &[u8], state: &mut RunState, chosen: &[u16; 256], i: usize)
    requires plan_value { plan_refusal plan.now ≡ 0 }
    requires i_bound { (i < interactions plan.now) × ChosenIn plan.now (state_of state.old) chosen.now i × (enabled plan.now (state_of state.old) i ≡ true) }
    ensures { state_of state.new ≡ fired plan.now (state_of state.old) i }
{
    let at = interaction_at(plan, i);
    eval::act(plan, &mut state.values, at + TRANSFER);
    acts(plan, &mut state.values, chosen, i);
    arrive(plan, &mut state.locations, &mut state.last_ports, chosen, i);
}
