#![tactic(auto)]
// The calls on slices, each total: the answer and every byte of the image are what the definitions give.
pub mod answer;
pub mod calls;
pub mod reading;
