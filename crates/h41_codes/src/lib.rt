//! The byte codes of HP-41 programs: lines, the bytes that spell them, and the shortest spelling of each. The codes are those of HP's byte
//! table.
#![tactic(auto)]

mod canonical;
mod characters;
mod decoder;
mod encoder;
mod faults;
mod functions;
mod heads;
pub mod laws;
mod line;
mod numbers;
mod short_lines;
mod table;

pub use canonical::canon;
pub use characters::{Character, NUMBER_MOST, Number, Text, exponent_place};
pub use decoder::{decode, one_byte_line, two_byte_line};
pub use encoder::{LINE_CAPACITY, encode};
pub use faults::{BrokenProgram, BufferShort};
pub use functions::{Branch, Function, NameFunction, ParameterFunction, RegisterFunction};
pub use heads::{Head, head_of};
pub use line::{Line, Operand};
pub use numbers::{
    Distance, EndMarks, EntryNumber, FinalMarks, Link, ModuleNumber, Parameter, ShortLabel,
    ShortRegister,
};
pub use short_lines::{ShortLine, short_line, short_size};
