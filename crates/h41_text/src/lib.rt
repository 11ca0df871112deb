//! The text of HP-41 program lines, as a listing shows them: written from a line, and read as a line.
#![tactic(auto)]

mod faults;
pub mod laws;
mod names;
mod places;
mod reader;
mod words;
mod writer;

pub use faults::BadText;
pub use names::{branch_name, parameter_function_name};
pub use reader::read_line;
pub use writer::{TEXT_CAPACITY, write_line};
