#![tactic(auto)]
// Code words: the word split, the stack, the operators and the evaluator.
pub mod eval;
mod operators;
mod stack;
pub mod word;
