#![tactic(auto)]
// Bytes of a slice to 16, 32 and 64 bits and back, and 64-bit masks.
pub mod bits;
pub mod bytes;
pub mod each;
