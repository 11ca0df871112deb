//! The program memory of the HP-41: the lines of the programs in memory, which can be searched, inserted, deleted and
//! loaded, and the number of data registers, which are above the programs.
#![tactic(auto)]

mod editing;
mod given;
mod kinds;
pub mod laws;
mod listed_line;
mod loading;
mod packer;
mod ranges;
mod reading;
mod refusal;
mod registers;
mod rewriting;
mod searches;
mod size;

pub use editing::{InFront, delete, insert, replace};
pub use given::{Taken, line_in};
pub use kinds::{is_end, is_final_end, is_inner, is_label, is_named, is_number};
pub use listed_line::ListedLine;
pub use loading::{close_last, is_last_open, load};
pub use reading::{
    ByteReader, Found, LinePlace, byte_at, final_position, first_from, place_from, position_by,
    position_from, short_line,
};
pub use refusal::ProgramRefusal;
pub use searches::{global, start_of};
pub use size::set_size;
