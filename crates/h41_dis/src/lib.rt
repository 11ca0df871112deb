//! The disassembler: the text of the HP-41's words, one instruction a line, with this project's table of mnemonics.
#![tactic(auto)]

mod cut;
mod lines;
mod text;

pub use lines::{disassemble, listing};
pub use text::instruction;
