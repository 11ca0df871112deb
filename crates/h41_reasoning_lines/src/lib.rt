//! Lemmas for proofs about keystroke programs: what their lines do from every state, and that they end.
#![tactic(auto)]

pub mod lines;
