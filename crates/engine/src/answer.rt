// What a call answers that is not refused.
ghost use Rattle.std.specs.Prelude.{◌≡◌, ◌<◌};
ghost use Rattle.semantics.specs.Calls as calls;
ghost use Rattle.semantics.specs.Calls.{packed, refused};
ghost use Rattle.semantics.specs.Log.{wrong};
ghost use Rattle.plan.specs.Numbers.{number};
ghost use Rattle.engine.specs.Answers.{answer_or};

use plan::refusal::Refusal;

// The interaction for a committed or cancelled move.
#[derive(Clone, Copy, PartialEq, Eq, Debug)]
pub enum Answer {
    Accepted,
    Committed(u8),
    Cancelled(u8),
    Stalled,
    Penned,
}

// Why nothing is answered: what is said instead, and its one number.
pub trait Reason {
    ghost said: { Self → calls.Answer };

    fn packed(self) -> u32
        ensures { (result ≡ packed (said self)) × (result < 458752) };
}

impl Reason for Refusal {
    ghost said = { λ r. refused (number r) };

    fn packed(self) -> u32 {
        u8::from(self).packed()
    }
}

// A refusal by its number, any of one byte.
#[tactic(auto, unfolding(semantics::specs::Calls::packed))]
impl Reason for u8 {
    ghost said = { refused };

    fn packed(self) -> u32 {
        327680 + u32::from(self)
    }
}

// A wrong entry of a log, by the number of its cause.
#[derive(Clone, Copy, PartialEq, Eq, Debug)]
pub struct Wrong(pub u8);

#[tactic(auto, unfolding(semantics::specs::Calls::packed))]
impl Reason for Wrong {
    ghost said = { λ w. wrong w.0 0 };

    fn packed(self) -> u32 {
        393216 + u32::from(self.0)
    }
}

// The answer as one number, kind * 65536 + number; the kind is below 7. No From: Result and u32 are both std's.
#[tactic(auto, unfolding(semantics::specs::Calls::packed))]
pub fn packed<E: Reason>(answer: Result<Answer, E>) -> u32
    ensures { (result ≡ packed (answer_or E.said answer)) × (result < 458752) }
{
    match answer {
        Ok(Answer::Accepted) => 0,
        Ok(Answer::Committed(i)) => 65536 + u32::from(i),
        Ok(Answer::Cancelled(i)) => 131072 + u32::from(i),
        Ok(Answer::Stalled) => 196608,
        Ok(Answer::Penned) => 262144,
        Err(reason) => reason.packed(),
    }
}
