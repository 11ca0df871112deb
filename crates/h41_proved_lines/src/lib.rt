//! Keystroke programs that are proved for every state that meets the requirements of their theorems.
#![tactic(auto)]

pub mod programs;
