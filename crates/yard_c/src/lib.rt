#![tactic(auto)]
// The calls that C programs make, as include/yard.h has them: those of yard, each under its own name, since C links by name. An answer is one number, kind * 65536 + number.
ghost use Rattle.std.specs.Prelude.{◌≡◌};
ghost use Rattle.semantics.specs.Calls.{packed, check, start, called, offered_bits};
ghost use Rattle.semantics.specs.Log.{check_log, log_index};
ghost use Rattle.semantics.specs.Calls.Call.{offered, try, settle, list};
ghost use Rattle.roster.specs.Turn.{packed_turn, dispatch};

use roster::record::Lane;

// Whether a plan is lawful: accepted, or refused with 1 to 10 or 20.
#[unsafe(no_mangle)]
pub extern "C" fn yard_check(plan: &[u8]) -> u32
    ensures { result ≡ packed (check plan.now) }
{
    yard::yard_check(plan)
}

// Starts a lane: accepted, or refused with 1 to 11, 15 or 20.
#[unsafe(no_mangle)]
pub extern "C" fn yard_start(plan: &[u8], image: &mut [u8]) -> u32
    ensures { (result ≡ packed (start plan.now image.old).answer) × (image.new ≡ (start plan.now image.old).image) }
{
    yard::yard_start(plan, image)
}

// Whether a lane's image is lawful and its moves can be listed: accepted, or refused with 1 to 14 or 20.
#[unsafe(no_mangle)]
pub extern "C" fn yard_offered(plan: &[u8], image: &[u8]) -> u32
    ensures { result ≡ packed (called plan.now image.now offered).answer }
{
    yard::yard_offered(plan, image)
}

// The moves on offer, bit i for interaction i; 0 where the call is refused.
#[unsafe(no_mangle)]
pub extern "C" fn yard_offered_bits(plan: &[u8], image: &[u8]) -> u64
    ensures { result ≡ offered_bits plan.now image.now }
{
    yard::yard_offered_bits(plan, image)
}

// Tries one move: committed, cancelled, or refused with 1 to 14 or 16 to 20.
#[unsafe(no_mangle)]
pub extern "C" fn yard_try(plan: &[u8], image: &mut [u8], interaction: u32) -> u32
    ensures { (result ≡ packed (called plan.now image.old (try interaction)).answer) × (image.new ≡ (called plan.now image.old (try interaction)).image) }
{
    yard::yard_try(plan, image, interaction)
}

// Settles on the lowest safe move: committed, stalled, penned, or refused with 1 to 14 or 20.
#[unsafe(no_mangle)]
pub extern "C" fn yard_settle(plan: &[u8], image: &mut [u8]) -> u32
    ensures { (result ≡ packed (called plan.now image.old settle).answer) × (image.new ≡ (called plan.now image.old settle).image) }
{
    yard::yard_settle(plan, image)
}

// Hands in a list of moves: committed whole, cancelled, or refused with 1 to 14, 20 or 22.
#[unsafe(no_mangle)]
pub extern "C" fn yard_list(plan: &[u8], image: &mut [u8], moves: &[u8]) -> u32
    ensures { (result ≡ packed (called plan.now image.old (list moves.now)).answer) × (image.new ≡ (called plan.now image.old (list moves.now)).image) }
{
    yard::yard_list(plan, image, moves)
}

// Whether a log is a run from the starting state: accepted, wrong with the cause, or refused with 1 to 10, 15, 20 or 21.
#[unsafe(no_mangle)]
pub extern "C" fn yard_log(plan: &[u8], log: &[u8]) -> u32
    ensures { result ≡ packed (check_log plan.now log.now) }
{
    yard::yard_log(plan, log)
}

// The index, from 0, of the first wrong entry; 0 where there is none.
#[unsafe(no_mangle)]
pub extern "C" fn yard_log_index(plan: &[u8], log: &[u8]) -> u64
    ensures { result ≡ log_index plan.now log.now }
{
    yard::yard_log_index(plan, log)
}

// Gives the turn to the lane that waited longest, and settles it: lane * 16777216 + the settling's answer; idle where all are held; or refused with 1 to 10, 20 or
// 23.
#[unsafe(no_mangle)]
pub extern "C" fn yard_turn(plan: &[u8], roster: &mut [Lane], images: &mut [u8]) -> u32
    ensures { (result ≡ packed_turn (dispatch plan.now roster.old images.old).answer) × (roster.new ≡ (dispatch plan.now roster.old images.old).roster) × (images.new ≡ (dispatch plan.now roster.old images.old).images) }
{
    yard::yard_turn(plan, roster, images)
}
