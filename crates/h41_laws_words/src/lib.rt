//! Laws of existence for digits, decimals and microcode words, and laws about listings and table entries: each question about them
//! has exactly one answer.
#![tactic(auto)]

pub mod entries;
pub mod listings;
pub mod numbers;
pub mod words;
