//! The memory of the HP-41: the sixteen status registers and main memory.
#![tactic(auto)]

mod alpha;
pub mod flags;
pub mod laws;
mod parts;
mod ram;
mod start;
mod status;

pub use alpha::ALPHA_LENGTH;
pub use ram::{MAIN_START, Ram, STATUS_REGISTERS};
pub use status::StatusRegister;
