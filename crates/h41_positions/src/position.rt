//! The positions of program lines.

ghost use Rattle.std.specs.Prelude.{◌≡◌};
ghost use Rattle.h41_positions.specs.declared.position.Position.TheVariants.{Memory};

use h41_codes::Line;

/// The position of a program line, in program memory or in a page. The next line, return addresses and the starts of searches are
/// positions.
#[derive(Clone, Copy, Debug, PartialEq, Eq)]
pub enum Position {
    /// A byte of program memory, by its index. Byte 0 is the first one of the register below the curtain.
    Memory(u16),
    /// A word of a page, by its address, 0000 to FFFF. Each word of keystroke code contains one byte of a program.
    Page(u16),
}

impl Default for Position {
    ghost is_default = { λ position. position ≡ Memory 0 };

    /// Returns the position of the first byte of program memory.
    fn default() -> Self {
        Position::Memory(0)
    }
}

/// A program line with the position of its first byte.
#[derive(Clone, Copy, Debug, PartialEq, Eq)]
pub struct PlacedLine {
    /// The position of the line's first byte.
    pub position: Position,
    /// The program line at the position.
    pub line: Line,
}
