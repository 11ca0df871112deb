//! Reads the commands of a deck: the commands that its lines specify, and the contents of the lines of blocks. The
//! state of the calculator plays no part.
#![tactic(auto)]

mod blocks;
mod commands;
mod fault;
mod item;
pub mod laws;
mod line;
mod reading;
mod refusal;

pub use blocks::Block;
pub use blocks::page_words::PAGE_WORDS;
pub use commands::keys::{KeyBuffer, PressedKeys};
pub use commands::parse::line_command;
pub use commands::{BlockKind, Command, FirstWord, PageKind, PlainKind, ProgramKind, View};
pub use fault::ItemFault;
pub use item::{GivenCommand, Item};
pub use line::{FirstLine, LineKind};
pub use reading::{read_block, read_first_line};
pub use refusal::LineRefusal;
