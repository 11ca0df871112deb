//! The display format of numbers.

ghost use Rattle.std.specs.Prelude.{◌≡◌};

use crate::flags::{display_digit, notation, radix};
use h41_ram::{Ram, flags};

/// The notation in which the display shows numbers.
#[derive(Clone, Copy, Debug, PartialEq, Eq)]
pub enum Notation {
    /// FIX: a fixed number of decimals.
    Fixed,
    /// SCI: a mantissa with one digit before the radix mark, and an exponent.
    Scientific,
    /// ENG: a mantissa and an exponent that is a multiple of 3.
    Engineering,
}

/// The radix mark: the character before the decimals of a number. If it is the point, the comma separates groups of
/// three digits, and the other way round.
#[derive(Clone, Copy, Debug, PartialEq, Eq)]
pub enum RadixMark {
    /// A point, `.`; a comma separates groups of digits.
    Point,
    /// A comma, `,`; a point separates groups of digits.
    Comma,
}

/// The display format, as FIX, SCI and ENG and flags 28 and 29 determine it.
#[derive(Clone, Copy, Debug, PartialEq, Eq)]
pub struct Format {
    /// The notation: FIX, SCI or ENG.
    pub notation: Notation,
    /// The operand of FIX, SCI or ENG, 0 to 9: how many digits FIX shows after the radix mark, and SCI and ENG after
    /// the first digit, if there is room for them. A greater one has the effect of 9.
    pub digits: u8,
    /// The radix mark that precedes the decimals.
    pub radix: RadixMark,
    /// Whether FIX separates the digits before the radix mark into groups of three.
    pub grouping: bool,
}

impl Format {
    ghost use Rattle.h41_show.specs.DisplayFormat.{format_of};

    /// Returns the format that the flags determine: FIX if flag 40 is set, otherwise ENG if flag 41 is set, otherwise SCI; flags 36
    /// to 39 are the display digit, and above 9 have the effect of 9; flag 28 makes the point the radix mark instead of the comma;
    /// flag 29 is grouping. This follows the Owner's Handbook, except if flags 40 and 41 are both set or the display digit is above
    /// 9 (this project's choice).
    #[tactic(auto, unfolding(crate::specs::DisplayFormat::format_of))]
    pub fn from_flags<const REGS: usize>(ram: &Ram<REGS>) -> Self
        ensures { result ≡ format_of ram.now.registers }
    {
        Format {
            notation: notation(ram),
            digits: display_digit(ram).min(9),
            radix: radix(ram),
            grouping: ram.flag(flags::DIGIT_GROUPING),
        }
    }
}
