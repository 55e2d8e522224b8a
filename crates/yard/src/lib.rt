#![tactic(auto)]
// The calls on lent bytes. An answer is one number, kind * 65536 + number. yard_c offers them to C.
ghost use Rattle.std.specs.Prelude.{◌≡◌};
ghost use Rattle.semantics.specs.Calls.{packed, check, start, called, offered_bits};
ghost use Rattle.semantics.specs.Log.{check_log, log_index};
ghost use Rattle.semantics.specs.Calls.Call.{offered, try, settle, list};
ghost use Rattle.roster.specs.Turn.{packed_turn, dispatch};

use engine::answer::Answer;
use engine::{answer, calls};
use roster::record::Lane;
use roster::{rows, serve};
use walks::{list, log};

// Whether a plan is lawful: accepted, or refused with 1 to 10 or 20.
pub fn yard_check(plan: &[u8]) -> u32
    ensures { result ≡ packed (check plan.now) }
{
    answer::packed(plan::check(plan).and(Ok(Answer::Accepted)))
}

// Starts a lane: accepted, or refused with 1 to 11, 15 or 20.
pub fn yard_start(plan: &[u8], image: &mut [u8]) -> u32
    ensures { (result ≡ packed (start plan.now image.old).answer) × (image.new ≡ (start plan.now image.old).image) }
{
    answer::packed(calls::start(plan, image))
}

// Whether a lane's image is lawful and its moves can be listed: accepted, or refused with 1 to 14 or 20.
pub fn yard_offered(plan: &[u8], image: &[u8]) -> u32
    ensures { result ≡ packed (called plan.now image.now offered).answer }
{
    answer::packed(calls::offerable(plan, image).and(Ok(Answer::Accepted)))
}

// The moves on offer, bit i for interaction i; 0 where the call is refused.
pub fn yard_offered_bits(plan: &[u8], image: &[u8]) -> u64
    ensures { result ≡ offered_bits plan.now image.now }
{
    calls::offered(plan, image).unwrap_or(0)
}

// Tries one move: committed, cancelled, or refused with 1 to 14 or 16 to 20.
pub fn yard_try(plan: &[u8], image: &mut [u8], interaction: u32) -> u32
    ensures { (result ≡ packed (called plan.now image.old (try interaction)).answer) × (image.new ≡ (called plan.now image.old (try interaction)).image) }
{
    answer::packed(calls::try_move(plan, image, interaction))
}

// Settles on the lowest safe move: committed, stalled, penned, or refused with 1 to 14 or 20.
pub fn yard_settle(plan: &[u8], image: &mut [u8]) -> u32
    ensures { (result ≡ packed (called plan.now image.old settle).answer) × (image.new ≡ (called plan.now image.old settle).image) }
{
    answer::packed(calls::settle(plan, image))
}

// Hands in a list of moves: committed whole, cancelled, or refused with 1 to 14, 20 or 22.
pub fn yard_list(plan: &[u8], image: &mut [u8], moves: &[u8]) -> u32
    ensures { (result ≡ packed (called plan.now image.old (list moves.now)).answer) × (image.new ≡ (called plan.now image.old (list moves.now)).image) }
{
    answer::packed(list::hand_in(plan, image, moves))
}

// Whether a log is a run from the starting state: accepted, wrong with the cause, or refused with 1 to 10, 15, 20 or 21.
pub fn yard_log(plan: &[u8], log: &[u8]) -> u32
    ensures { result ≡ packed (check_log plan.now log.now) }
{
    log::packed(log::check_log(plan, log))
}

// The index, from 0, of the first wrong entry; 0 where there is none.
pub fn yard_log_index(plan: &[u8], log: &[u8]) -> u64
    ensures { result ≡ log_index plan.now log.now }
{
    log::index(log::check_log(plan, log))
}

// Gives the turn to the lane that waited longest, and settles it: lane * 16777216 + the settling's answer; idle where all are held; or refused with 1 to 10, 20 or
// 23.
pub fn yard_turn(plan: &[u8], roster: &mut [Lane], images: &mut [u8]) -> u32
    ensures { (result ≡ packed_turn (dispatch plan.now roster.old images.old).answer) × (roster.new ≡ (dispatch plan.now roster.old images.old).roster) × (images.new ≡ (dispatch plan.now roster.old images.old).images) }
{
    let scan = rows::scan(roster);
    let turn = serve::serve(plan, images, scan, roster.len());
    rows::grow(roster, serve::lane_of(turn));
    serve::packed(turn)
}
