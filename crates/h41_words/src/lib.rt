//! The words of the HP-41's Nut processor, and the table of their meanings. The numbers are those of HP's documents, the names
//! those of this project's table of mnemonics.
#![tactic(auto)]

pub mod laws;
mod operands;
mod operation;
mod rom_word;
mod rows;
mod second_word;
mod table;
mod unassigned;

pub use operands::{BlockRegister, DigitPlace, Displacement, LoadedDigit, ReadRegister, StatusBit};
pub use operation::Operation;
pub use rom_word::Word;
pub use rows::{Bank, Condition, RegisterTransfer, Row};
pub use second_word::{LongJumpKind, SecondWord};
pub use table::{length, row, word};
pub use unassigned::UnassignedWord;
