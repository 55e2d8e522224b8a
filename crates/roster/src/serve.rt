// The turn of the lane that a reading of the roster found, on the buffer of all images.
ghost use Rattle.std.specs.Prelude.{◌≡◌, ◌+◌, ◌*◌, ◌≤◌, length};
ghost use Rattle.semantics.specs.Rules.{plan_refusal};
ghost use Rattle.engine.specs.Answers.{answer_of};
ghost use Rattle.roster.specs.Turn.{settled_part, with_part, packed_turn};
ghost use Rattle.roster.specs.Scan.{bad_roster, served_answer, served_bytes};
ghost use Rattle.roster.specs.Served.{turn_answer, turned};

use crate::record::Scan;
use engine::answer::Answer;
use engine::{answer, calls};
use layout::image::LENGTH;
use plan::refusal::Refusal;

// Kind 7, idle: the number that C sees.
const IDLE: u32 = 7 * 65536;

// A lane's turn: whose it was, and what its settling answered.
#[derive(Clone, Copy, PartialEq, Eq, Debug)]
pub struct Served {
    pub lane: u8,
    pub answer: Result<Answer, Refusal>,
}

// One lane's bytes are settled, and all others stay.
fn settle_part(plan: &[u8], images: &mut [u8], lane: usize) -> Result<Answer, Refusal>
    requires plan_accepted { plan_refusal plan.now ≡ 0 }
    requires lane_in_bounds { 312 * lane + 312 ≤ length images.old }
    ensures value { answer_of result ≡ (settled_part plan.now images.old lane).answer }
    ensures images_after { images.new ≡ with_part images.old lane (settled_part plan.now images.old lane).image }
{
    let at = LENGTH * lane;
    let end = at + LENGTH;
    calls::settle_from(plan, &mut images[at..end], Ok(()))
}

// 23: no lanes or more than eight, numbers that do not run from 0, or a buffer that is not 312 bytes a lane.
#[tactic(auto, unfolding(crate::specs::Scan::bad_roster))]
fn is_bad(bytes: usize, scan: Scan, lanes: usize) -> bool
    ensures { result ≡ bad_roster bytes scan lanes }
{
    if lanes == 0 {
        return true;
    }
    if lanes > 8 {
        return true;
    }
    !scan.counted | (bytes != LENGTH * lanes)
}

// The turn itself: the plan's numbers, 23, none where all are held, or the lane that was found is settled.
pub fn serve(
    plan: &[u8],
    images: &mut [u8],
    scan: Scan,
    lanes: usize,
) -> Result<Option<Served>, Refusal>
    ensures { (turn_answer result ≡ served_answer plan.now images.old scan lanes) × (images.new ≡ served_bytes plan.now images.old scan lanes) }
{
    plan::check(plan)?;
    if is_bad(images.len(), scan, lanes) {
        return Err(Refusal::BadRoster);
    }
    let Some(found) = scan.longest else {
        return Ok(None);
    };
    let lane = usize::from(found.number);
    if lane >= lanes {
        return Ok(None);
    }
    let answer = settle_part(plan, images, lane);
    Ok(Some(Served {
        lane: found.number,
        answer: answer,
    }))
}

// Whose turn it was; none where it was no lane's.
#[tactic(auto, unfolding(crate::specs::Served::turn_answer, crate::specs::Served::turned))]
pub fn lane_of(turn: Result<Option<Served>, Refusal>) -> Option<u8>
    ensures { result ≡ turned (turn_answer turn) }
{
    match turn {
        Ok(Some(served)) => Some(served.lane),
        Ok(None) => None,
        Err(_) => None,
    }
}

// The turn as one number: lane * 16777216 + the settling's answer, idle, or the refusal. No From: Result and u32 are both std's.
#[tactic(auto, unfolding(crate::specs::Served::turn_answer, crate::specs::Turn::packed_turn))]
pub fn packed(turn: Result<Option<Served>, Refusal>) -> u32
    ensures { result ≡ packed_turn (turn_answer turn) }
{
    match turn {
        Ok(Some(served)) => u32::from(served.lane) * 16777216 + answer::packed(served.answer),
        Ok(None) => IDLE,
        Err(refusal) => answer::packed(Err(refusal)),
    }
}
