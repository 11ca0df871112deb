//! The assembler: from the text of a source to its ROM words. Mnemonics and directives are this project's own.
#![tactic(auto)]

mod assembler;
mod emit;
mod fault;
mod kept;
pub mod laws;
mod names;
mod opening;
mod operands;
mod source;
mod statement;
mod table;
mod words;

pub use assembler::assemble;
pub use fault::{AssembleError, SourceFault};
