#![tactic(auto)]
// One box for up to eight lanes under one plan: a turn goes to the lane that waited longest. The call itself, yard_turn, is in yard: these are its three parts.
pub mod record;
pub mod rows;
pub mod serve;
