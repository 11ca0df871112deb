//! Lemmas for proofs about microcode: what a function does from every state, in how many steps, and that it ends.
#![tactic(auto)]

pub mod words;
