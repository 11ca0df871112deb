//! Why the bench refuses a command, and which errors end a deck: each refusal with its number, its name and
//! its line.
#![tactic(auto)]

mod fault;
mod refusal;

pub use fault::{CommandFault, Fault};
pub use refusal::{Detail, Refusal};
