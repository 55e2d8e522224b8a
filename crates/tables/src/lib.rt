#![tactic(auto)]
// The header and the records of a plan: refusals 1 to 7, a module a group.
pub mod header;
pub mod records;
