//! The errors of calls of the calculator. Decks print them with these numbers. After an error nothing has changed.

ghost use Rattle.std.specs.Prelude.{◌≡◌};

use h41_focal::FocalRefusal;
use h41_keys::KeyNotHeld;
use h41_nut::WordRefusal;
use h41_program::ProgramRefusal;
use thiserror::Error;

/// The reasons why a call of the calculator is refused, with the numbers 06 to 18 and 24. A refused call changes
/// nothing.
#[derive(Clone, Copy, Debug, PartialEq, Eq, Error)]
pub enum CalculatorRefusal {
    /// An error of microcode with a number from 06 to 12: a word is refused, or an address below 4000 was called
    /// (SystemRom, 08).
    #[error("{0}")]
    Word(WordRefusal),
    /// NotInProfile (13): the bench does not support this program line.
    #[error("this line is not carried out")]
    NotInProfile,
    /// BrokenProgram (14): bytes are not a program line. NoRoom (16) and SizeTooLarge (17): memory has too few
    /// registers for a change of the programs or of the number of data registers.
    #[error("{0}")]
    Program(ProgramRefusal),
    /// MemoryLost (15): memory is not sound (`Ram::is_sound`).
    #[error("memory is lost")]
    MemoryLost,
    /// KeyNotHeld (18): the bench does not support this key in this state, or the key would change program lines in a
    /// page.
    #[error("the key has no meaning here")]
    KeyNotHeld,
    /// Busy (24): a keystroke program or a function in microcode is running.
    #[error("a program or a function is running")]
    Busy,
}

impl From<WordRefusal> for CalculatorRefusal {
    ghost use Rattle.std.specs.Prelude.{◌≡◌};
    ghost use Rattle.h41_xrom.specs.declared.refusal.CalculatorRefusal.TheVariants.{Word};

    ghost from_gives = { λ refusal own. own ≡ Word refusal };

    fn from(refusal: WordRefusal) -> Self {
        CalculatorRefusal::Word(refusal)
    }
}

impl From<KeyNotHeld> for CalculatorRefusal {
    ghost use Rattle.std.specs.Prelude.{◌≡◌};
    ghost use Rattle.h41_xrom.specs.declared.refusal.CalculatorRefusal.TheVariants as variants;

    ghost from_gives = { λ refusal own. own ≡ variants.KeyNotHeld };

    fn from(_refusal: KeyNotHeld) -> Self {
        CalculatorRefusal::KeyNotHeld
    }
}

impl From<ProgramRefusal> for CalculatorRefusal {
    ghost use Rattle.std.specs.Prelude.{◌≡◌};
    ghost use Rattle.h41_xrom.specs.declared.refusal.CalculatorRefusal.TheVariants.{Program};

    ghost from_gives = { λ refusal own. own ≡ Program refusal };

    fn from(refusal: ProgramRefusal) -> Self {
        CalculatorRefusal::Program(refusal)
    }
}

impl From<FocalRefusal> for CalculatorRefusal {
    ghost use Rattle.std.specs.Prelude.{◌≡◌};
    ghost use Rattle.h41_xrom.specs.Calculator.{of_line};

    ghost from_gives = { λ refusal own. own ≡ of_line refusal };

    fn from(refusal: FocalRefusal) -> Self {
        match refusal {
            FocalRefusal::MemoryLost => CalculatorRefusal::MemoryLost,
            FocalRefusal::BrokenProgram => CalculatorRefusal::Program(
                ProgramRefusal::BrokenProgram,
            ),
            FocalRefusal::NotInProfile => CalculatorRefusal::NotInProfile,
        }
    }
}
