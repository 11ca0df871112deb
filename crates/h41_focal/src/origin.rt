//! The origin of a line: a program or the keyboard.

use h41_positions::Position;

/// The origin of a line that is executed: a program or the keyboard.
#[derive(Clone, Copy)]
pub enum Origin {
    /// From a program: the line at the position. The value is the position of the next line.
    Program(Position),
    /// From the keyboard: the line was typed.
    Typed,
}
