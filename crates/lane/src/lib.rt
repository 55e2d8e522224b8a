#![tactic(auto)]
// A lane: the run record held by value, read out of an image and written into one, and the keeper's tests of an image.
pub mod image;
pub mod run;
