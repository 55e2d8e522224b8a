#![tactic(auto)]
// Definitions and theorems alone: what the yard move supervisor means (specs/) and what follows from it (proofs/).
