#![tactic(auto)]
// The ranks of a plan: whether an interaction lies below another, how the interactions of a mask are ranked, and rule 8.
pub mod among;
pub mod order;
pub mod row;
