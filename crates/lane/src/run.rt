// The passage of the run record from an image and back.
ghost use Rattle.std.specs.Prelude.{◌≡◌, ◌+◌, ◌≤◌, length, take, drop};
ghost use Rattle.words.specs.Splice.{splice};
ghost use Rattle.semantics.specs.Plan.{max_variables, start_states};
ghost use Rattle.semantics.specs.Rules.{plan_refusal};
ghost use Rattle.semantics.specs.Move.{initial_state};
ghost use Rattle.semantics.specs.Image.{value_place, head, value_bytes, with_marks, configuration_of, marks_of, image as image_of};
ghost use Rattle.layout.specs.Runs.{configuration_in};

use arith::bytes::{i32_at, put_i32};
use layout::header::{
    component_byte, components, first_oracle_byte, interaction_byte, number_byte, variable_byte,
    variables,
};
use layout::image::{FORM, Image, LAST_PORTS, LOCATIONS, MARKS, ORACLES, value_at};
use layout::records::{START_LOCATION, START_VALUE, component_at, variable_at};
use layout::run::{Run, RunState};
use words::bytes::{put_bytes, put_u64, u64_at};

// The N bytes from a place on.
fn bytes_at<const N: usize>(image: &[u8], at: usize) -> [u8; N]
    requires { at + N ≤ length image.now }
    ensures { result ≡ take N (drop at image.now) }
{
    let mut out = [0; N];
    out.copy_from_slice(&image[at..at + N]);
    out
}

// The sixty-four values of an image.
#[tactic(auto, unfolding(words::proofs::Loops::filled, semantics::specs::Bytes::table))]
fn values64(image: &Image) -> [i32; 64]
    ensures { result ≡ (configuration_of image.now).state.values }
{
    let mut out = [0; 64];
    for v in 0..64 {
        out[v] = i32_at(image, value_at(v));
    }
    out
}

// The run that an image holds.
#[tactic(auto, unfolding(semantics::specs::Image::configuration_of, semantics::specs::Image::marks_of))]
pub fn load(image: &Image) -> Run
    ensures { (configuration_in result ≡ configuration_of image.now) × (result.marks ≡ marks_of image.now) }
{
    Run {
        state: RunState {
            locations: bytes_at(image, LOCATIONS),
            last_ports: bytes_at(image, LAST_PORTS),
            values: values64(image),
        },
        oracles: bytes_at(image, ORACLES),
        marks: u64_at(image, MARKS),
    }
}

// Writes the first sixteen bytes of an image.
#[tactic(auto, using(layout::proofs::Sections::laid_accepted))]
fn put_head(plan: &[u8], image: &mut Image, oracles: [u8; 4])
    requires plan_value { plan_refusal plan.now ≡ 0 }
    ensures { image.new ≡ splice image.old 0 (head plan.now oracles) }
{
    let rest = [
        1,
        component_byte(plan),
        variable_byte(plan),
        interaction_byte(plan),
        oracles[0],
        oracles[1],
        oracles[2],
        oracles[3],
        number_byte(plan, 0),
        number_byte(plan, 1),
        number_byte(plan, 2),
        number_byte(plan, 3),
    ];
    put_bytes(image, 0, b"YARD");
    put_bytes(image, FORM, &rest);
}

// Writes the values of an image.
fn put_values(image: &mut Image, values: &[i32; 64])
    requires values_len { length values.now ≡ max_variables }
    ensures { image.new ≡ splice image.old (value_place 0) (value_bytes values.now) }
{
    for v in 0..64 {
        put_i32(image, value_at(v), values[v]);
    }
}

// Writes the image of a run, from a copy of it: one in place could overlap the image for all that the compiler knows, and its values would be moved one by one.
#[tactic(auto, using(layout::proofs::Sections::laid_accepted))]
pub fn store(plan: &[u8], image: &mut Image, run: &Run)
    requires plan_value { plan_refusal plan.now ≡ 0 }
    ensures { image.new ≡ image_of plan.now (configuration_in run.now) run.now.marks }
{
    let run = *run;
    put_head(plan, image, run.oracles);
    put_u64(image, MARKS, run.marks);
    put_bytes(image, LOCATIONS, &run.state.locations);
    put_bytes(image, LAST_PORTS, &run.state.last_ports);
    put_values(image, &run.state.values);
}

// Writes the marks of an image, eight bytes and no other.
#[tactic(auto, using(crate::proofs::Writing::marks_put))]
pub fn put_marks(image: &mut Image, marks: u64)
    ensures { image.new ≡ with_marks image.old marks }
{
    put_u64(image, MARKS, marks);
}

// Each component's starting location, 0 past the last component.
#[tactic(auto, using(layout::proofs::Sections::laid_accepted), unfolding(words::proofs::Loops::filled, semantics::specs::Bytes::table, semantics::specs::Move::initial_state))]
fn start_locations(plan: &[u8]) -> [u8; 16]
    requires { plan_refusal plan.now ≡ 0 }
    ensures { result ≡ (initial_state plan.now).locations }
{
    let mut out = [0; 16];
    for c in 0..components(plan) {
        out[c] = plan[component_at(plan, c) + START_LOCATION];
    }
    out
}

// Each variable's starting value, 0 past the last variable.
#[tactic(auto, using(layout::proofs::Sections::laid_accepted), unfolding(words::proofs::Loops::filled, semantics::specs::Bytes::table, semantics::specs::Move::initial_state))]
fn start_values(plan: &[u8]) -> [i32; 64]
    requires { plan_refusal plan.now ≡ 0 }
    ensures { result ≡ (initial_state plan.now).values }
{
    let mut out = [0; 64];
    for v in 0..variables(plan) {
        out[v] = i32_at(plan, variable_at(plan, v) + START_VALUE);
    }
    out
}

// The run as it starts, its first event not yet read.
#[tactic(auto, using(layout::proofs::Sections::laid_accepted), unfolding(semantics::specs::Bytes::table, semantics::specs::Move::initial_state))]
pub fn starting(plan: &[u8]) -> Run
    requires { plan_refusal plan.now ≡ 0 }
    ensures { (configuration_in result ≡ record { state = initial_state plan.now; oracles = start_states plan.now }) × (result.marks ≡ 0) }
{
    Run {
        state: RunState {
            locations: start_locations(plan),
            last_ports: [255; 16],
            values: start_values(plan),
        },
        oracles: [first_oracle_byte(plan), 0, 0, 0],
        marks: 0,
    }
}
