//! The second word of a jump by address.
ghost use Rattle.std.specs.Prelude.{◌≡◌};

use crate::rom_word::Word;
use crate::rows::Condition;

/// What a jump by address (two words) does in addition to jumping: it calls or it only jumps.
#[derive(Clone, Copy, Debug, PartialEq, Eq)]
pub enum LongJumpKind {
    /// `XQ`: jumps, and makes the address after the two words the newest return address.
    Execute,
    /// `GO`: jumps, and does not change the return addresses.
    Go,
}

/// The meaning of the second word of a jump by address. Every ten-bit word can be a second word: its two low bits are
/// the condition and the kind, its eight high bits the high byte of the target.
#[derive(Clone, Copy, Debug, PartialEq, Eq)]
pub struct SecondWord {
    /// Whether the jump is taken if the carry is set, or if it is clear. The carry before the first word counts.
    pub condition: Condition,
    /// Whether the jump is a call (`XQ`) or only a jump (`GO`).
    pub kind: LongJumpKind,
    /// The high byte of the 16-bit address of the jump target. The low byte is in the first word of the jump.
    pub high_byte: u8,
}

impl SecondWord {
    ghost use Rattle.h41_words.specs.SecondWord.{second_of, second_number_of};

    /// Returns the condition, the kind and the high byte of the target that a word means as the second word of a jump
    /// by address.
    pub fn of(word: Word) -> Self
        ensures { result ≡ second_of word }
    {
        let number = word.number();
        let (condition, kind) = match number % 4 {
            0 => (Condition::NoCarry, LongJumpKind::Execute),
            1 => (Condition::Carry, LongJumpKind::Execute),
            2 => (Condition::NoCarry, LongJumpKind::Go),
            _ => (Condition::Carry, LongJumpKind::Go),
        };
        SecondWord {
            condition,
            kind,
            high_byte: (number / 4) as u8,
        }
    }

    /// Returns the word that, as the second word of a jump by address, has this condition, this kind and this high
    /// byte.
    pub fn word(self) -> Word
        ensures { result ≡ second_number_of self }
    {
        let jump = match (self.condition, self.kind) {
            (Condition::NoCarry, LongJumpKind::Execute) => 0,
            (Condition::Carry, LongJumpKind::Execute) => 1,
            (Condition::NoCarry, LongJumpKind::Go) => 2,
            (Condition::Carry, LongJumpKind::Go) => 3,
        };
        Word::of(u16::from(self.high_byte) * 4 + jump)
    }
}
