#![tactic(auto)]
// The rules of a span of code words, refusal 10.
pub mod span;
