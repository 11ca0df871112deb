//! The texts in which the HP-41's display shows numbers, registers and ALPHA.
#![tactic(auto)]

pub mod characters;
mod digits;
mod flags;
pub mod format;
pub mod laws;
mod number;
mod register;
mod rounding;

pub use digits::TEXT_CAPACITY;
pub use format::{Format, Notation, RadixMark};
pub use number::number_text;
pub use register::{alpha_text, register_text};
