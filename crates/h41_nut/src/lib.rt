//! The HP-41's Nut processor: its registers, and the execution of one microcode word.
#![tactic(auto)]

mod addresses;
mod base;
mod cpu;
mod keys;
pub mod laws;
mod machine;
mod refusal;
mod status_bits;

pub use addresses::END_OF_FUNCTION;
pub use base::Base;
pub use cpu::Cpu;
pub use keys::Keys;
pub use machine::{step, step_to_end};
pub use refusal::WordRefusal;
