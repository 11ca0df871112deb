//! The locations at which the calculator can be, and at which a run can stop.

ghost use Rattle.std.specs.Prelude.{◌≡◌};
ghost use Rattle.h41_breakpoints.specs.private.Members.{is_same};
ghost use Rattle.h41_breakpoints.specs.declared.location.Location.TheVariants.{Word};

use h41_positions::Position;

/// A location of the calculator: a word of microcode or a program line. A run stops at a location that has a breakpoint.
#[derive(Clone, Copy, Debug, PartialEq, Eq)]
pub enum Location {
    /// Before the word at this address, 0000 to FFFF. The calculator is there while a function in microcode runs.
    Word(u16),
    /// Before the program line at this position. The calculator is there while no function in microcode runs.
    Line(Position),
}

impl Default for Location {
    ghost is_default = { λ location. location ≡ Word 0 };

    /// Returns the location of the word at address 0000.
    fn default() -> Self {
        Location::Word(0)
    }
}

impl Location {
    /// Returns whether the other location is the same: both words at one address, or both program lines at one
    /// position.
    pub(crate) fn is(self, other: Self) -> bool
        ensures { result ≡ is_same self other }
    {
        match (self, other) {
            (Location::Word(address), Location::Word(other)) => address == other,
            (Location::Line(Position::Memory(byte)), Location::Line(Position::Memory(other))) =>
                byte == other,
            (Location::Line(Position::Page(address)), Location::Line(Position::Page(other))) =>
                address == other,
            _ => false,
        }
    }
}
