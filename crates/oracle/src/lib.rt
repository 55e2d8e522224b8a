#![tactic(auto)]
// The oracles of a plan: the table of each (table), their states read (row), and the rule that their tables keep, refusals 9 and 20 (rule).
// A fact about the plan and a second value (oracle states, the table of choices) is a clause: each value comes from somewhere else.
pub mod row;
pub mod rule;
mod table;
