//! One walk over program lines, wherever they are: the line at a position, the lines that follow it, and what is found
//! among them. A place that contains programs, such as memory or a page, only says how its bytes are read and where its
//! programs start.
#![tactic(auto)]

mod code;
mod lines;
mod memory;
mod numbering;
mod programs;
mod searches;

pub use code::Code;
pub use lines::{line_and_next, line_at, next};
pub use numbering::{number_from, numbered_from};
pub use programs::{Programs, end_of, line_before, line_number, local};
pub use searches::{end_from, label_from};
