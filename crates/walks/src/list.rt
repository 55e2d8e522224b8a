// A load in several moves: the clerk's list, its entries 16 bits each, is committed whole or not at all. It has at most 8, so `as u8` keeps an index and the count.
// It begins as engine::calls does, and states its own definition.
ghost use Rattle.std.specs.Prelude.{◌≡◌, cond, length};
ghost use Rattle.semantics.specs.Refusal.{refusal};
ghost use Rattle.semantics.specs.Rules.{plan_refusal};
ghost use Rattle.semantics.specs.Load.{list_rules};
ghost use Rattle.semantics.specs.Calls.{called, Call.list};
ghost use Rattle.plan.specs.Numbers.{checked_number};
ghost use Rattle.engine.specs.Answers.{answer_of};

use crate::walk;
use choices::choice;
use engine::answer::Answer;
use engine::reading;
use lane::run;
use layout::image::Image;
use oracle::row;
use plan::refusal::Refusal;

// 22: whether a list is not empty, even in bytes and at most 8 moves long.
fn list_ok(moves: &[u8]) -> bool
    ensures { refusal (list_rules moves.now) ≡ cond result 0 22 }
{
    let length = moves.len();
    (length > 0) & (length & 1 == 0) & (length >> 1 <= 8)
}

// Hands in a list of moves: where each is allowed in turn and the last ends good all are made, and where not none.
pub fn hand_in(plan: &[u8], image: &mut [u8], moves: &[u8]) -> Result<Answer, Refusal>
    ensures { (answer_of result ≡ (called plan.now image.old (list moves.now)).answer) × (image.new ≡ (called plan.now image.old (list moves.now)).image) }
{
    hand_in_from(plan, image, plan::check(plan), moves)
}

// The same, from what the plan's check said.
pub fn hand_in_from(
    plan: &[u8],
    image: &mut [u8],
    checked: Result<(), Refusal>,
    moves: &[u8],
) -> Result<Answer, Refusal>
    requires { checked_number checked ≡ plan_refusal plan.now }
    ensures { (answer_of result ≡ (called plan.now image.old (list moves.now)).answer) × (image.new ≡ (called plan.now image.old (list moves.now)).image) }
{
    let Some(lane) = image.as_mut_array() else {
        return Err(reading::unreadable(plan, image, checked));
    };
    hand_in_on(plan, lane, checked, moves)
}

// The same, on an image that has its length.
#[tactic(auto, using(engine::proofs::ReadLaws::plan_passed))]
fn hand_in_on(
    plan: &[u8],
    image: &mut Image,
    checked: Result<(), Refusal>,
    moves: &[u8],
) -> Result<Answer, Refusal>
    requires { checked_number checked ≡ plan_refusal plan.now }
    ensures { (answer_of result ≡ (called plan.now image.old (list moves.now)).answer) × (image.new ≡ (called plan.now image.old (list moves.now)).image) }
{
    let mut run = run::load(image);
    let mut chosen = [choice::unset(plan); 256];
    reading::read(plan, image, checked, &run, &mut chosen)?;
    if !list_ok(moves) {
        return Err(Refusal::BadList);
    }
    if let Err(stop) = walk::walk(plan, moves, &mut run, 1) {
        return Ok(Answer::Cancelled(stop.index as u8));
    }
    let count = (moves.len() >> 1) as u8;
    if !row::reaches(plan, run.oracles, 2) {
        return Ok(Answer::Cancelled(count));
    }
    run.marks = 0;
    run::store(plan, image, &run);
    Ok(Answer::Committed(count))
}
