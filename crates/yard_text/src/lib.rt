#![tactic(auto)]
// What the two programs share: a call's answer taken out of its number, and the bytes of an input up to its end or a bound.
mod answer;
mod reading;

pub use answer::Answer;
pub use reading::read_up_to;
