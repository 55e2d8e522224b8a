// The keeper's tests of an image: its head, and the configuration that it holds.
ghost use Rattle.std.specs.Prelude.{◌≡◌, ◌&&◌, ◌<◌, [], ◌∷◌, eqb};
ghost use Rattle.semantics.specs.Bytes.{byte, all_of, every};
ghost use Rattle.semantics.specs.Plan.{max_components, max_variables, components, variables, interactions, number_byte};
ghost use Rattle.semantics.specs.Rules.{plan_refusal};
ghost use Rattle.semantics.specs.Code.{valued};
ghost use Rattle.semantics.specs.Image.{head_matches, location_ok, last_port_ok, value_ok, configuration_ok};
ghost use Rattle.layout.specs.Laid.{Laid};
ghost use Rattle.layout.specs.Runs.{state_of, configuration_in};

use layout::header::{
    component_byte, components, interaction_byte, number_byte, variable_byte, variables,
};
use layout::image::{COMPONENTS, FORM, INTERACTIONS, Image, PLAN_NUMBER, VARIABLES};
use layout::records::{PORTS, component_at};
use layout::run::{Run, RunState};
use oracle::row::{good, in_range};
use words::bytes::tagged;

// Whether an image's counts are the plan's.
#[tactic(auto, unfolding(semantics::specs::Bytes::all_of))]
fn counts_match(plan: &[u8], image: &Image) -> bool
    requires laid { Laid plan.now }
    ensures { result
        ≡ all_of (eqb (byte image.now 5) (components plan.now)
        ∷ eqb (byte image.now 6) (variables plan.now)
        ∷ eqb (byte image.now 7) (interactions plan.now) ∷ []) }
{
    (image[COMPONENTS] == component_byte(plan))
        & (image[VARIABLES] == variable_byte(plan))
        & (image[INTERACTIONS] == interaction_byte(plan))
}

// Whether an image's plan number is the plan's.
#[tactic(auto, unfolding(semantics::specs::Bytes::all_of))]
fn number_matches(plan: &[u8], image: &Image) -> bool
    requires laid { Laid plan.now }
    ensures { result
        ≡ all_of (eqb (byte image.now 12) (number_byte plan.now 0)
        ∷ eqb (byte image.now 13) (number_byte plan.now 1)
        ∷ eqb (byte image.now 14) (number_byte plan.now 2)
        ∷ eqb (byte image.now 15) (number_byte plan.now 3) ∷ []) }
{
    (image[PLAN_NUMBER] == number_byte(plan, 0))
        & (image[PLAN_NUMBER + 1] == number_byte(plan, 1))
        & (image[PLAN_NUMBER + 2] == number_byte(plan, 2))
        & (image[PLAN_NUMBER + 3] == number_byte(plan, 3))
}

// Whether the head of an image is the plan's: its first sixteen bytes but the oracles' states.
#[tactic(auto, using(layout::proofs::Sections::laid_accepted))]
pub fn head_matches(plan: &[u8], image: &Image) -> bool
    requires plan_value { plan_refusal plan.now ≡ 0 }
    ensures { result ≡ head_matches plan.now image.now }
{
    tagged(image, b"YARD")
        & (image[FORM] == 1)
        & counts_match(plan, image)
        & number_matches(plan, image)
}

// Whether component c's location and last port are in range, or unused where the plan has no component c. 255 is the image's byte for no port yet, and last_port_ok is over the byte.
#[tactic(auto, using(layout::proofs::Sections::laid_accepted), unfolding(semantics::specs::Image::location_ok, semantics::specs::Image::last_port_ok))]
fn component_ok(plan: &[u8], state: &RunState, c: usize) -> bool
    requires plan_value { plan_refusal plan.now ≡ 0 }
    requires c_lt_max_components { c < max_components }
    ensures { result ≡ (location_ok plan.now (state_of state.now) c
        && last_port_ok plan.now (state_of state.now) c) }
{
    if c < components(plan) {
        let at = component_at(plan, c);
        (state.locations[c] < plan[at])
            & ((state.last_ports[c] == 255) | (state.last_ports[c] < plan[at + PORTS]))
    } else {
        (state.locations[c] == 0) & (state.last_ports[c] == 255)
    }
}

// Whether all sixteen locations and last ports are in range, or unused: all are tested, with no branch, where `every` stops at the first that is not.
#[tactic(auto, using(words::proofs::Loops::both_step), unfolding(semantics::specs::Bytes::every))]
fn components_ok(plan: &[u8], state: &RunState) -> bool
    requires { plan_refusal plan.now ≡ 0 }
    ensures { result ≡ (every max_components (location_ok plan.now (state_of state.now))
        && every max_components (last_port_ok plan.now (state_of state.now))) }
{
    let mut ok = true;
    for c in 0..16 {
        ok &= component_ok(plan, state, c);
    }
    ok
}

// Whether the values past the last variable are zero; with no branch, likewise.
#[tactic(auto, using(layout::proofs::Sections::laid_accepted), unfolding(semantics::specs::Image::value_ok))]
fn values_ok(plan: &[u8], values: &[i32; 64]) -> bool
    requires { plan_refusal plan.now ≡ 0 }
    ensures { result ≡ every max_variables (value_ok plan.now (valued values.now)) }
{
    let mut ok = true;
    for v in variables(plan)..64 {
        ok &= values[v] == 0;
    }
    ok
}

// Whether a configuration keeps 13: in range, unused entries as they begin, and good.
#[tactic(auto, unfolding(semantics::specs::Image::configuration_ok, semantics::specs::Bytes::all_of))]
pub fn configuration_ok(plan: &[u8], run: &Run) -> bool
    requires { plan_refusal plan.now ≡ 0 }
    ensures { result ≡ configuration_ok plan.now (configuration_in run.now) }
{
    if in_range(plan, run.oracles) {
        good(plan, run.oracles)
            & components_ok(plan, &run.state)
            & values_ok(plan, &run.state.values)
    } else {
        false
    }
}
