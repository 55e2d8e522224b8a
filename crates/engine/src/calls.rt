// The calls on a lane's image: start, offered, try and settle. Each reads the plan and the image anew and keeps nothing. The plan's check stands apart: what
// follows it takes its answer, for callers that check a plan once: `checked` and `plan` are two values, and so the fact about both is a clause. The calls begin alike,
// and each states its own definition; one generic call would take the rest of each as a closure over the image, with a longer contract. A move is below 64, so `as u8`
// keeps it; there is no From of u32 for usize.
ghost use Rattle.std.specs.Prelude.{◌≡◌, length};
ghost use Rattle.semantics.specs.Rules.{plan_refusal};
ghost use Rattle.semantics.specs.Image.{image_length};
ghost use Rattle.semantics.specs.Calls.{packed, start, called, Call.offered, Call.try, Call.settle};
ghost use Rattle.plan.specs.Numbers.{checked_number};
ghost use Rattle.engine.specs.Answers.{answer_of, reply_of, passing};

use crate::answer::Answer;
use crate::reading;
use choices::choice;
use lane::run;
use layout::header::interactions;
use layout::image::Image;
use moves::{judge, search};
use oracle::row;
use plan::refusal::Refusal;
use ranks::among;
use words::bits;

// Starts a lane: the plan's refusals, 11 and 15, then the starting configuration, its event read, with no marks.
pub fn start(plan: &[u8], image: &mut [u8]) -> Result<Answer, Refusal>
    ensures { (answer_of result ≡ (start plan.now image.old).answer) × (image.new ≡ (start plan.now image.old).image) }
{
    start_from(plan, image, plan::check(plan))
}

// The same, from what the plan's check said.
pub fn start_from(
    plan: &[u8],
    image: &mut [u8],
    checked: Result<(), Refusal>,
) -> Result<Answer, Refusal>
    requires { checked_number checked ≡ plan_refusal plan.now }
    ensures { (answer_of result ≡ (start plan.now image.old).answer) × (image.new ≡ (start plan.now image.old).image) }
{
    checked?;
    let Some(lane) = image.as_mut_array() else {
        return Err(Refusal::BadLength);
    };
    let run = judge::initial(plan);
    if !row::good(plan, run.oracles) {
        return Err(Refusal::BadStart);
    }
    run::store(plan, lane, &run);
    Ok(Answer::Accepted)
}

// The moves on offer: enabled, not marked, and with none of these above.
pub fn offered(plan: &[u8], image: &[u8]) -> Result<u64, Refusal>
    ensures { reply_of result ≡ (called plan.now image.now offered).answer }
{
    offered_from(plan, image, plan::check(plan))
}

#[tactic(auto, using(crate::proofs::ReadLaws::plan_passed, crate::proofs::ReadLaws::said_offered))]
pub fn offered_from(plan: &[u8], image: &[u8], checked: Result<(), Refusal>) -> Result<u64, Refusal>
    requires { checked_number checked ≡ plan_refusal plan.now }
    ensures { reply_of result ≡ (called plan.now image.now offered).answer }
{
    let lane = reading::seen(plan, image, checked)?;
    Ok(among::standing_mask(plan, lane.free))
}

// Whether the moves on offer can be asked for.
pub fn offerable(plan: &[u8], image: &[u8]) -> Result<(), Refusal>
    ensures { packed (passing result) ≡ packed (called plan.now image.now offered).answer }
{
    reading::seen(plan, image, plan::check(plan))?;
    Ok(())
}

// Tries one move: a good one is committed, any other cancelled.
pub fn try_move(plan: &[u8], image: &mut [u8], i: u32) -> Result<Answer, Refusal>
    ensures { (answer_of result ≡ (called plan.now image.old (try i)).answer) × (image.new ≡ (called plan.now image.old (try i)).image) }
{
    try_from(plan, image, plan::check(plan), i)
}

#[tactic(auto, using(crate::proofs::ReadLaws::turned_away))]
pub fn try_from(
    plan: &[u8],
    image: &mut [u8],
    checked: Result<(), Refusal>,
    i: u32,
) -> Result<Answer, Refusal>
    requires { checked_number checked ≡ plan_refusal plan.now }
    ensures { (answer_of result ≡ (called plan.now image.old (try i)).answer) × (image.new ≡ (called plan.now image.old (try i)).image) }
{
    let Some(lane) = image.as_mut_array() else {
        return Err(reading::unreadable(plan, image, checked));
    };
    try_on(plan, lane, checked, i)
}

// The same, on an image that has its length.
#[tactic(auto, using(crate::proofs::ReadLaws::plan_passed, layout::proofs::Sections::laid_accepted))]
fn try_on(
    plan: &[u8],
    image: &mut Image,
    checked: Result<(), Refusal>,
    i: u32,
) -> Result<Answer, Refusal>
    requires { checked_number checked ≡ plan_refusal plan.now }
    ensures { (answer_of result ≡ (called plan.now image.old (try i)).answer) × (image.new ≡ (called plan.now image.old (try i)).image) }
{
    let mut run = run::load(image);
    let mut chosen = [choice::unset(plan); 256];
    let lane = reading::read(plan, image, checked, &run, &mut chosen)?;
    let n = i as usize;
    if n >= interactions(plan) {
        return Err(Refusal::NoSuchMove);
    }
    if !bits::bit(lane.enabled, n) {
        return Err(Refusal::NotEnabled);
    }
    if among::is_outranked(plan, lane.free, n) {
        return Err(Refusal::Outranked);
    }
    if bits::bit(run.marks, n) {
        return Err(Refusal::Marked);
    }
    judge::after(plan, &mut run, &chosen, n);
    if row::good(plan, run.oracles) {
        run.marks = 0;
        run::store(plan, image, &run);
        return Ok(Answer::Committed(n as u8));
    }
    run::put_marks(image, bits::with_bit(run.marks, n));
    Ok(Answer::Cancelled(n as u8))
}

// Settles on the lowest move that ends good and above which no enabled one does; with none, stalled or penned.
pub fn settle(plan: &[u8], image: &mut [u8]) -> Result<Answer, Refusal>
    ensures { (answer_of result ≡ (called plan.now image.old settle).answer) × (image.new ≡ (called plan.now image.old settle).image) }
{
    settle_from(plan, image, plan::check(plan))
}

#[tactic(auto, using(crate::proofs::ReadLaws::turned_away))]
pub fn settle_from(
    plan: &[u8],
    image: &mut [u8],
    checked: Result<(), Refusal>,
) -> Result<Answer, Refusal>
    requires { checked_number checked ≡ plan_refusal plan.now }
    ensures { (answer_of result ≡ (called plan.now image.old settle).answer) × (image.new ≡ (called plan.now image.old settle).image) }
{
    let Some(lane) = image.as_mut_array() else {
        return Err(reading::unreadable(plan, image, checked));
    };
    settle_on(plan, lane, checked)
}

// The same, on an image that has its length.
#[tactic(auto, using(crate::proofs::ReadLaws::plan_passed, layout::proofs::Sections::laid_accepted))]
fn settle_on(
    plan: &[u8],
    image: &mut Image,
    checked: Result<(), Refusal>,
) -> Result<Answer, Refusal>
    requires { checked_number checked ≡ plan_refusal plan.now }
    ensures { (answer_of result ≡ (called plan.now image.old settle).answer) × (image.new ≡ (called plan.now image.old settle).image) }
{
    let run = run::load(image);
    let mut chosen = [choice::unset(plan); 256];
    let lane = reading::read(plan, image, checked, &run, &mut chosen)?;
    let mut trial = run;
    if let Some(n) = search::safe_move(plan, &run, &chosen, lane.free, &mut trial) {
        trial.marks = 0;
        run::store(plan, image, &trial);
        return Ok(Answer::Committed(n as u8));
    }
    if lane.enabled == 0 {
        return Ok(Answer::Stalled);
    }
    run::put_marks(image, lane.enabled);
    Ok(Answer::Penned)
}
