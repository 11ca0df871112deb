//! Executes a deck, assembles a source or lists words, as the command line asks, and returns the exit status.
#![tactic(auto)]

mod causes;
mod inputs;
mod memory;
mod program;
mod serving;

pub use program::run_program;
pub use serving::{serve, tell};
