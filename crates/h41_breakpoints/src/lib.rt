//! Breakpoints: the locations at which a run can stop, and the set of those at which it does.
#![tactic(auto)]

mod bit_table;
mod breakpoints;
mod location;
mod tables;

pub use breakpoints::{BreakFull, Breakpoints, NoBreak};
pub use location::Location;
