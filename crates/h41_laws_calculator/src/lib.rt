//! Laws about the calculator: values, program memory, program lines, steps, keys and runs each have exactly one result, in every
//! state that a calculator can reach.
#![tactic(auto)]

pub mod calculator;
pub mod lines;
pub mod programs;
pub mod runs;
pub mod states;
pub mod values;
