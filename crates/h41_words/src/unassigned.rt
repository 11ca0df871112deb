//! The ten-bit words that are no instruction.
ghost use Rattle.std.specs.Prelude.{◌≡◌, ℕ, ◌<◌, Contains};
ghost use Rattle.h41_words.specs.Unassigned.{unassigned_words};

use crate::rom_word::Word;
use std::marker::Model;

/// A ten-bit word, such as 080, that is no instruction. A listing shows it as `CON hhh`.
#[derive(Clone, Copy, Debug, PartialEq, Eq)]
pub struct UnassignedWord {
    word: Word,
}

impl Model for UnassignedWord {
    ghost Value = { ℕ };

    ghost view = { λ unassigned. unassigned.word };

    ghost invariant = { λ unassigned. Contains unassigned_words unassigned.word };

    ghost inverse = { λ number. record { word = number } };
}

impl UnassignedWord {
    /// Returns the wrapper of a word that is in the list of words without an instruction.
    pub(crate) fn new(word: Word) -> Self
        requires { Contains unassigned_words word }
        ensures { result ≡ word }
    {
        UnassignedWord { word }
    }

    /// Returns the ROM word that is no instruction.
    pub fn word(self) -> Word
        ensures value { result ≡ self }
        ensures unassigned { Contains unassigned_words result }
    {
        self.word
    }
}
