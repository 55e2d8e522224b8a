// The reading of a plan and a lane's image: the refusals of both in order, and where none applies what is enabled, and of that what is not marked.
ghost use Rattle.std.specs.Prelude.{◌≡◌, true, not, ◌&&◌, ◌++◌, ◌≤◌, length, replicate, IfOk, OnOk};
ghost use Rattle.semantics.specs.Bytes.{bit, mask};
ghost use Rattle.semantics.specs.Plan.{transitions, interactions};
ghost use Rattle.semantics.specs.Refusal.{refusal};
ghost use Rattle.semantics.specs.Rules.{plan_rules, plan_refusal};
ghost use Rattle.semantics.specs.Move.{enabled, oracles_in_range};
ghost use Rattle.semantics.specs.Image.{image_length, marks_of, configuration_of, marks_ok, image_rules};
ghost use Rattle.choices.specs.Choices.{chosen_table};
ghost use Rattle.layout.specs.Runs.{state_of, configuration_in};
ghost use Rattle.plan.specs.Numbers.{number, checked_number};
ghost use Rattle.engine.specs.Known.{Known, Holds};

use choices::{choice, masks};
use lane::{image, run};
use layout::image::Image;
use layout::run::Run;
use moves::search;
use plan::refusal::Refusal;
use ranks::among;
use words::bits;

// Where nothing is refused: the enabled interactions, and those of them that are not marked.
#[derive(Clone, Copy, PartialEq, Eq, Debug)]
pub struct Reading {
    pub enabled: u64,
    pub free: u64,
}

// The refusal of an image of another length: the plan's, or 11.
pub fn unreadable(plan: &[u8], image: &[u8], checked: Result<(), Refusal>) -> Refusal
    requires checked_value { checked_number checked ≡ plan_refusal plan.now }
    requires fact { length image.now ≡ image_length → ⊥ }
    ensures { number result ≡ refusal (plan_rules plan.now ++ image_rules plan.now image.now) }
{
    match checked {
        Err(refusal) => refusal,
        Ok(()) => Refusal::BadLength,
    }
}

// 14: whether each mark is on an enabled interaction that ends bad, and each enabled one above it is marked too.
#[tactic(auto, using(crate::proofs::MarkLaws::no_marks, crate::proofs::MarkLaws::marks_outside, crate::proofs::MarkLaws::marks_outranked))]
fn marks_ok(plan: &[u8], run: &Run, chosen: &[u16; 256], enabled: u64, free: u64) -> bool
    requires plan_value { plan_refusal plan.now ≡ 0 }
    requires chosen_value { chosen.now ≡ chosen_table plan.now (state_of run.now.state) }
    requires oracles_value { (oracles_in_range plan.now run.now.oracles ≡ true) × (enabled ≡ mask (interactions plan.now) (Rattle.semantics.specs.Move.enabled plan.now (state_of run.now.state))) }
    requires free_value { free ≡ mask (interactions plan.now) (λ j. Rattle.semantics.specs.Move.enabled plan.now (state_of run.now.state) j && not (bit run.now.marks j)) }
    ensures { result ≡ marks_ok plan.now (configuration_in run.now) run.now.marks }
{
    if !bits::inside(run.marks, enabled) {
        return false;
    }
    if run.marks == 0 {
        return true;
    }
    if !among::none_above(plan, run.marks, free) {
        return false;
    }
    search::none_reaches(plan, run, chosen, run.marks, 2)
}

// Reads plan and image: `checked` is what the plan's check said, the run is the image's, and the table of choices has none yet. Where nothing is refused the
// table is filled.
pub fn read(
    plan: &[u8],
    image: &Image,
    checked: Result<(), Refusal>,
    run: &Run,
    chosen: &mut [u16; 256],
) -> Result<Reading, Refusal>
    requires checked_value { checked_number checked ≡ plan_refusal plan.now }
    requires image_holds { Holds image.now run.now }
    requires chosen_value { 48 ≤ length plan.now → chosen.old ≡ replicate 256 (transitions plan.now) }
    ensures refusal_value { checked_number result ≡ refusal (plan_rules plan.now ++ image_rules plan.now image.now) }
    ensures chosen_after { OnOk result (chosen.new ≡ chosen_table plan.now (state_of run.now.state)) }
    ensures known { IfOk result (Known plan.now (state_of run.now.state) (bit run.now.marks)) }
{
    checked?;
    if !image::head_matches(plan, image) {
        return Err(Refusal::OtherPlan);
    }
    if !image::configuration_ok(plan, run) {
        return Err(Refusal::BadState);
    }
    choice::choose(plan, &run.state, chosen);
    let enabled = masks::enabled_mask(plan, &run.state, chosen);
    let free = bits::without(enabled, run.marks);
    if !marks_ok(plan, run, chosen, enabled, free) {
        return Err(Refusal::FalseMark);
    }
    Ok(Reading { enabled, free })
}

// The same from the image alone: for calls that make no move.
fn seen_on(plan: &[u8], image: &Image, checked: Result<(), Refusal>) -> Result<Reading, Refusal>
    requires { checked_number checked ≡ plan_refusal plan.now }
    ensures refusal_value { checked_number result ≡ refusal (plan_rules plan.now ++ image_rules plan.now image.now) }
    ensures known { IfOk result (Known plan.now (configuration_of image.now).state (bit (marks_of image.now))) }
{
    let run = run::load(image);
    let mut chosen = [choice::unset(plan); 256];
    read(plan, image, checked, &run, &mut chosen)
}

// The same of any bytes.
pub fn seen(plan: &[u8], image: &[u8], checked: Result<(), Refusal>) -> Result<Reading, Refusal>
    requires { checked_number checked ≡ plan_refusal plan.now }
    ensures refusal_value { checked_number result ≡ refusal (plan_rules plan.now ++ image_rules plan.now image.now) }
    ensures known { IfOk result (Known plan.now (configuration_of image.now).state (bit (marks_of image.now))) }
{
    match <&Image>::try_from(image) {
        Ok(image) => seen_on(plan, image, checked),
        Err(_) => Err(unreadable(plan, image, checked)),
    }
}
