#![tactic(auto)]
// Signed 32-bit numbers: their bits and bytes, the arithmetic of code words, and its tests.
pub mod bits;
pub mod bytes;
pub mod sums;
pub mod tests;
pub mod wide;
