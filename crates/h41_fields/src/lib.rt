//! The fields of a register on which the words of the HP-41's Nut processor work, under the names of this project's table of
//! mnemonics.
#![tactic(auto)]

mod field;
pub mod laws;
mod places;

pub use field::{Field, Pointer};
pub use h41_digits::Span;
pub use places::span;
