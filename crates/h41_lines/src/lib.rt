//! Lines, words, numbers and characters as people write them. Nothing in this crate has a state, and nothing allocates memory.
#![tactic(auto)]

pub mod characters;
pub mod hashes;
pub mod laws;
pub mod lines;
pub mod numbers;
pub mod words;
