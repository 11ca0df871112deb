//! The ten-bit words of a ROM.
ghost use Rattle.std.specs.Prelude.{◌≡◌, ℕ, ◌<◌, ◌↔◌, IsSome, IfSome};
ghost use Rattle.h41_words.specs.Counts.{word_count};

use std::marker::Model;

/// The number of different ten-bit words: 400 in hexadecimal.
const COUNT: u16 = 1024;

/// A word of the processor's ROM: ten bits, 000 to 3FF.
#[derive(Clone, Copy, Debug, PartialEq, Eq, PartialOrd, Ord, Hash)]
pub struct Word {
    number: u16,
}

impl Model for Word {
    ghost Value = { ℕ };

    ghost view = { λ word. word.number };

    ghost invariant = { λ word. word.number < word_count };

    ghost inverse = { λ number. record { number = number } };
}

impl Word {
    /// Returns the ROM word with a number, or `None` if the number is greater than 3FF (hexadecimal).
    pub fn new(number: u16) -> Option<Self>
        ensures fits { IsSome result ↔ (number < word_count) }
        ensures value { IfSome result (λ word. word ≡ number) }
    {
        if number < COUNT {
            Some(Word { number })
        } else {
            None
        }
    }

    /// Returns the ROM word with a number from 000 to 3FF (hexadecimal).
    pub(crate) fn of(number: u16) -> Self
        requires { number < word_count }
        ensures { result ≡ number }
    {
        Word { number }
    }

    /// Returns the ten bits of the ROM word as a number, 000 to 3FF (hexadecimal).
    pub fn number(self) -> u16
        ensures value { result ≡ self }
        ensures bound { result < word_count }
    {
        self.number
    }
}
