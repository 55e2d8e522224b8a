#![tactic(auto)]
// One move: transfer, actions, destinations and last ports (fire), its event and the oracles, and the start judged (judge); whether moves of a mask, or above a move, end
// with a verdict or a better one, and the move that settling commits (search).
// A fact about the plan and a second value (oracle states, the table of choices) is a clause: each value comes from somewhere else.
pub mod fire;
pub mod judge;
pub mod search;
