// The records of a plan: refusals 4 to 7. Each group is one line over `every`, and states its own rule.
ghost use Rattle.std.specs.Prelude.{◌≡◌, ◌||◌, ◌<◌, eqb, ltb};
ghost use Rattle.semantics.specs.Bytes.{every};
ghost use Rattle.semantics.specs.Plan.{components, variables, transitions, interactions};
ghost use Rattle.semantics.specs.Rules.{component_ok, variable_ok, transition_ok, interaction_ok};
ghost use Rattle.layout.specs.Laid.{Laid};
ghost use Rattle.tables.specs.Limits.{Limits};

use super::header::ranged;
use layout::header::{components, interactions, transitions, variables};
use layout::records::{
    COMPONENT_ZERO, DESTINATION, PORT, PORTS, SOURCE, START_LOCATION, VARIABLE_ZEROS, component_at,
    interaction_at, transition_at, variable_at,
};
use words::each::every;

// 4, for component c: its locations, its starting location, its ports and its zero.
#[tactic(auto, unfolding(semantics::specs::Rules::component_ok, semantics::specs::Bytes::all_of))]
fn component_ok(plan: &[u8], c: usize) -> bool
    requires { Laid plan.now × (c < components plan.now) }
    ensures { result ≡ component_ok plan.now c }
{
    let at = component_at(plan, c);
    ranged(1, 16, usize::from(plan[at]))
        & (plan[at + START_LOCATION] < plan[at])
        & ranged(1, 16, usize::from(plan[at + PORTS]))
        & (plan[at + COMPONENT_ZERO] == 0)
}

// 4: every component keeps its rule.
pub fn components_ok(plan: &[u8]) -> bool
    requires { Laid plan.now }
    ensures { result ≡ every (components plan.now) (component_ok plan.now) }
{
    every(components(plan), |c| component_ok(plan, c))
}

// 5, for variable v: its owner and its three zeros.
#[tactic(auto, unfolding(semantics::specs::Rules::variable_ok, semantics::specs::Bytes::all_of, semantics::specs::Bytes::every))]
fn variable_ok(plan: &[u8], v: usize) -> bool
    requires { Laid plan.now × (v < variables plan.now) }
    ensures { result ≡ variable_ok plan.now v }
{
    let at = variable_at(plan, v);
    let zeros = at + VARIABLE_ZEROS;
    (usize::from(plan[at]) < components(plan))
        & ((plan[zeros] == 0) & (plan[zeros + 1] == 0) & (plan[zeros + 2] == 0))
}

// 5: every variable keeps its rule.
pub fn variables_ok(plan: &[u8]) -> bool
    requires { Laid plan.now }
    ensures { result ≡ every (variables plan.now) (variable_ok plan.now) }
{
    every(variables(plan), |v| variable_ok(plan, v))
}

// 6, for transition t: its component, and a source, a port and a destination that this component has.
#[tactic(auto, unfolding(semantics::specs::Rules::transition_ok, semantics::specs::Bytes::all_of))]
fn transition_ok(plan: &[u8], t: usize) -> bool
    requires { Laid plan.now × (t < transitions plan.now) }
    ensures { result ≡ transition_ok plan.now t }
{
    let at = transition_at(plan, t);
    let c = usize::from(plan[at]);
    if c >= components(plan) {
        return false;
    }
    let home = component_at(plan, c);
    let locations = plan[home];
    let ports = plan[home + PORTS];
    (plan[at + SOURCE] < locations)
        & (plan[at + PORT] < ports)
        & (plan[at + DESTINATION] < locations)
}

// 6: every transition keeps its rule.
pub fn transitions_ok(plan: &[u8]) -> bool
    requires { Laid plan.now }
    ensures { result ≡ every (transitions plan.now) (transition_ok plan.now) }
{
    every(transitions(plan), |t| transition_ok(plan, t))
}

// The ports of each component, none from C up.
#[tactic(auto, using(words::proofs::Loops::filled_turn, words::proofs::Loops::filled_at), unfolding(crate::specs::Limits::limit))]
fn port_limits(plan: &[u8]) -> [u8; 16]
    requires { Laid plan.now }
    ensures { Limits plan.now result }
{
    let mut limits = [0u8; 16];
    for c in 0..components(plan) {
        limits[c] = plan[component_at(plan, c) + PORTS];
    }
    limits
}

// No port, or one below the limit. 255 is the format's number for no port, and the rule is over it.
fn port_ok(port: u8, limit: u8) -> bool
    ensures { result ≡ (eqb port 255 || ltb port limit) }
{
    (port == 255) | (port < limit)
}

// 7, for interaction i: its sixteen ports, of which one at least is no 255.
#[tactic(auto, using(words::proofs::Loops::every_step, words::proofs::Loops::some_step, crate::proofs::Ports::port_rule), unfolding(semantics::specs::Rules::interaction_ok, semantics::specs::Bytes::all_of, semantics::specs::Plan::takes_part))]
fn interaction_ok(plan: &[u8], limits: &[u8; 16], i: usize) -> bool
    requires { Laid plan.now × Limits plan.now limits.now × (i < interactions plan.now) }
    ensures { result ≡ interaction_ok plan.now i }
{
    let at = interaction_at(plan, i);
    let mut good = true;
    let mut any = false;
    for c in 0..16 {
        good &= port_ok(plan[at + c], limits[c]);
        any |= plan[at + c] != 255;
    }
    good & any
}

// 7: every interaction keeps its rule.
pub fn interactions_ok(plan: &[u8]) -> bool
    requires { Laid plan.now }
    ensures { result ≡ every (interactions plan.now) (interaction_ok plan.now) }
{
    let limits = port_limits(plan);
    every(interactions(plan), |i| interaction_ok(plan, &limits, i))
}
