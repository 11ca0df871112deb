//! Program mode: the effect of keys on the programs in memory and on the position, and the text of the shown line.
#![tactic(auto)]

mod changes;
pub mod laws;
mod moves;
mod numbered;
mod text;

pub use changes::{delete_line, insert_line, replace_line};
pub use moves::{go_to_end, show_before, show_next};
pub use numbered::{NumberedLine, numbered_line};
pub use text::{PROGRAM_TEXT_CAPACITY, program_text};
