//! The positions of program lines, in memory and in plugged pages: the line at a position, and what is found from
//! there. Also the state of programs that is not in memory, with the current position and the return addresses.
#![tactic(auto)]

mod focal;
pub mod laws;
mod page_code;
mod position;
mod positions;

pub use focal::{Focal, RETURNS};
pub use position::{PlacedLine, Position};
pub use positions::{
    end_of, line_and_next, line_at, line_before, line_in_page, line_number, local, next,
    short_line, start_of,
};
