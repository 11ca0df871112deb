//! What a user can do with the calculator besides its own functions: single steps, keys that are pressed in turn, runs
//! up to a breakpoint, traces, and asking where the calculator is.
#![tactic(auto)]

mod bench;
pub mod laws;
mod position;
mod run;
mod trace;

pub use bench::Bench;
pub use run::Stop;
pub use trace::TRACE_CAPACITY;
