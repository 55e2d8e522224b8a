#![tactic(auto)]
// The published rules of BIP, its properties, its enforcement monitor and its disabler, and the proof that the meaning is theirs: see specs and proofs. No
// code.
