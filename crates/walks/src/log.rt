// The check of a simulator's log: whether its entries, 16 bits each, are a run from the starting state.
ghost use Rattle.std.specs.Prelude.{◌≡◌};
ghost use Rattle.semantics.specs.Calls.{packed};
ghost use Rattle.semantics.specs.Log.{check_log};
ghost use Rattle.walks.specs.Steps.{log_answer};
ghost use Rattle.walks.specs.declared.log.LogError.TheVariants.{Refused, Wrong};

use crate::walk;
use crate::walk::Stop;
use engine::answer;
use engine::answer::Answer;
use moves::judge;
use oracle::row;
use plan::refusal::Refusal;

// Why a log is no run: it is refused before an entry is read, or an entry is wrong.
#[derive(Clone, Copy, PartialEq, Eq, Debug)]
pub enum LogError {
    Refused(Refusal),
    Wrong(Stop),
}

impl From<Refusal> for LogError {
    ghost from_gives = { λ r e. e ≡ Refused r };

    fn from(refusal: Refusal) -> LogError {
        LogError::Refused(refusal)
    }
}

impl From<Stop> for LogError {
    ghost from_gives = { λ s e. e ≡ Wrong s };

    fn from(stop: Stop) -> LogError {
        LogError::Wrong(stop)
    }
}

// Whether a log is a run from the starting state: the plan's refusals, 21 and 15, then the entries.
pub fn check_log(plan: &[u8], log: &[u8]) -> Result<(), LogError>
    ensures { log_answer result ≡ check_log plan.now log.now }
{
    plan::check(plan)?;
    if log.len() & 1 != 0 {
        return Err(LogError::Refused(Refusal::OddLog));
    }
    let mut run = judge::initial(plan);
    if !row::good(plan, run.oracles) {
        return Err(LogError::Refused(Refusal::BadStart));
    }
    walk::walk(plan, log, &mut run, 2)?;
    Ok(())
}

// What the check said as one number, kind * 65536 + number; kind 6 is a wrong entry's. No From: Result and u32 are both std's.
#[tactic(auto, unfolding(crate::specs::Steps::log_answer, semantics::specs::Calls::packed))]
pub fn packed(found: Result<(), LogError>) -> u32
    ensures { result ≡ packed (log_answer found) }
{
    match found {
        Ok(()) => answer::packed::<Refusal>(Ok(Answer::Accepted)),
        Err(LogError::Refused(refusal)) => answer::packed(Err(refusal)),
        Err(LogError::Wrong(stop)) => 6 * 65536 + u32::from(u8::from(stop.cause)),
    }
}

// The index of the wrong entry; 0 where there is none. There is no From of usize for u64.
#[tactic(auto, unfolding(crate::specs::Steps::log_answer))]
pub fn index(found: Result<(), LogError>) -> u64
    ensures { result ≡ (log_answer found).bits }
{
    match found {
        Err(LogError::Wrong(stop)) => stop.index as u64,
        _ => 0,
    }
}
