//! A program line together with its position in program memory.
use h41_codes::Line;

/// A line of program memory with the position of its first byte.
#[derive(Clone, Copy, Debug, PartialEq, Eq)]
pub struct ListedLine {
    /// The position of the line's first byte. The bytes of program memory are counted from 0.
    pub position: u16,
    /// The decoded line. It is no null, and only the last line of memory can be `.END.`.
    pub line: Line,
}
