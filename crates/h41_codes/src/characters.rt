//! The characters of texts and of numbers.
ghost use Rattle.std.specs.Prelude.{◌≡◌, ◌≤◌, ◌↔◌, length, IsSome, IfSome};
ghost use Rattle.h41_codes.specs.Counts.{number_most};
ghost use Rattle.h41_codes.specs.ByteGrammar.{IsBytes};
ghost use Rattle.h41_codes.specs.Cells.{FitsNumber};
ghost use Rattle.h41_codes.specs.NumberCharacters.{exponent_place};
ghost use Rattle.h41_codes.specs.declared.characters.Character.{Character as Sign};

use std::marker::Model;

/// The greatest number of characters of a number entry: 16.
pub const NUMBER_MOST: usize = 16;

/// A text of at most `MOST` characters, such as the name of a label. Each character is a byte.
#[derive(Clone, Copy, Debug, PartialEq, Eq)]
pub struct Text<const MOST: usize> {
    cells: [u8; MOST],
    count: usize,
}

impl<const MOST: usize> Model for Text<MOST> {
    ghost use Rattle.std.specs.Prelude.{◌≡◌, ◌≤◌, List, ℕ, take, length};
    ghost use Rattle.h41_codes.specs.Cells.{with_cells, Keeps, filled_again, count_again};

    ghost Value = { List ℕ };

    ghost view = { λ text. take text.count text.cells };

    ghost invariant = { λ text. Keeps 0 MOST text.count text.cells };

    ghost inverse = { λ characters.
        record { cells = with_cells 0 MOST characters; count = length characters } };

    ghost inverse_ok = { λ text h i. record {
      cells = filled_again 0 MOST text.count text.cells h.0 h.1 h.2 i;
      count = count_again MOST text.count text.cells h.0 h.1 i;
    } };
}

impl<const MOST: usize> Text<MOST> {
    /// Returns the text that consists of given characters, in their order, or `None` if there are more than `MOST`.
    pub fn new(characters: &[u8]) -> Option<Self>
        ensures fits { IsSome result ↔ (length characters.now ≤ MOST) }
        ensures value { IfSome result (λ text. text ≡ characters.now) }
    {
        if characters.len() <= MOST {
            Some(Self::of(characters))
        } else {
            None
        }
    }

    /// Returns the text that consists of given characters, in their order. There must be at most `MOST`.
    pub(crate) fn of(characters: &[u8]) -> Self
        requires { length characters.now ≤ MOST }
        ensures value { result ≡ characters.now }
        ensures bytes { IsBytes result }
    {
        let mut cells = [0; MOST];
        for (index, character) in characters.iter().enumerate() {
            cells[index] = *character;
        }
        Text {
            cells,
            count: characters.len(),
        }
    }

    /// Returns the characters of the text, one byte each. There are at most `MOST`.
    pub fn characters(&self) -> &[u8]
        ensures value { result.now ≡ self.now }
        ensures bound { length self.now ≤ MOST }
        ensures bytes { IsBytes self.now }
    {
        bytes(&self.cells[..self.count])
    }
}

/// Returns the given slice of bytes unchanged. Its contract adds that the elements of a slice of `u8` are bytes, which
/// proofs need.
fn bytes(characters: &[u8]) -> &[u8]
    ensures value { result.now ≡ characters.now }
    ensures bytes { IsBytes result.now }
{
    characters
}

/// A character of a number entry: a digit, the radix mark, `E` or `-`.
#[derive(Clone, Copy, Debug, PartialEq, Eq)]
pub enum Character {
    /// The digit `0`.
    Zero,
    /// The digit `1`.
    One,
    /// The digit `2`.
    Two,
    /// The digit `3`.
    Three,
    /// The digit `4`.
    Four,
    /// The digit `5`.
    Five,
    /// The digit `6`.
    Six,
    /// The digit `7`.
    Seven,
    /// The digit `8`.
    Eight,
    /// The digit `9`.
    Nine,
    /// `.`, the radix mark.
    Point,
    /// `E`, which precedes the exponent.
    Exponent,
    /// `-`, the sign of the mantissa or of the exponent.
    Minus,
}

impl Character {
    ghost use Rattle.h41_codes.specs.NumberCharacters as spec;

    /// Returns whether a character of a number entry is `.`, the radix mark.
    pub fn is_point(self) -> bool
        ensures { result ≡ spec.is_point self }
    {
        matches!(self, Character::Point)
    }

    /// Returns whether a character of a number entry is `E`, which precedes the exponent.
    pub fn is_exponent(self) -> bool
        ensures { result ≡ spec.is_exponent self }
    {
        matches!(self, Character::Exponent)
    }

    /// Returns whether a character of a number entry is `-`, the sign of the mantissa or of the exponent.
    pub fn is_minus(self) -> bool
        ensures { result ≡ spec.is_minus self }
    {
        matches!(self, Character::Minus)
    }
}

/// Returns the index, from 0, of the first `E` in a number entry, or the number of its characters if there is no `E`.
pub fn exponent_place(text: &[Character]) -> usize
    ensures place { result ≡ exponent_place text.now }
    ensures bound { result ≤ length text.now }
{
    for (index, character) in text.iter().enumerate() {
        if character.is_exponent() {
            return index;
        }
    }
    text.len()
}

/// A number entry: 1 to 16 characters (digits, `.`, `E` and `-`), in any order.
#[derive(Clone, Copy, Debug, PartialEq, Eq)]
pub struct Number {
    cells: [Character; NUMBER_MOST],
    count: usize,
}

impl Model for Number {
    ghost use Rattle.std.specs.Prelude.{◌≡◌, ◌≤◌, List, ℕ, take, length};
    ghost use Rattle.h41_codes.specs.Cells.{with_cells, Keeps, filled_again, count_again};
    ghost use Rattle.h41_codes.specs.Counts.{number_most};
    ghost use Rattle.h41_codes.specs.declared.characters.Character.{Character as Sign};
    ghost use Rattle.h41_codes.specs.declared.characters.Character.TheVariants.{Zero};

    ghost Value = { List Sign };

    ghost view = { λ number. take number.count number.cells };

    ghost invariant = { λ number.
        (1 ≤ number.count) × Keeps Zero number_most number.count number.cells };

    ghost inverse = { λ characters.
        record { cells = with_cells Zero number_most characters; count = length characters } };

    ghost inverse_ok = { λ number h i. record {
      cells = filled_again Zero number_most number.count number.cells h.1.0 h.1.1 h.1.2 i;
      count = count_again number_most number.count number.cells h.1.0 h.1.1 i;
    } };
}

impl Number {
    /// Returns the number entry that consists of given characters, in their order, or `None` if there are no characters
    /// or more than 16.
    pub fn new(characters: &[Character]) -> Option<Self>
        ensures fits { IsSome result ↔ FitsNumber characters.now }
        ensures value { IfSome result (λ number. number ≡ characters.now) }
    {
        if !characters.is_empty() && characters.len() <= NUMBER_MOST {
            Some(Self::of(characters))
        } else {
            None
        }
    }

    /// Returns the number entry that consists of given characters, in their order. There must be 1 to 16.
    pub(crate) fn of(characters: &[Character]) -> Self
        requires low { 1 ≤ length characters.now }
        requires high { length characters.now ≤ number_most }
        ensures { result ≡ characters.now }
    {
        let mut cells = [Character::Zero; NUMBER_MOST];
        for (index, character) in characters.iter().enumerate() {
            cells[index] = *character;
        }
        Number {
            cells,
            count: characters.len(),
        }
    }

    /// Returns the characters of the number entry, in their order. There are 1 to 16.
    pub fn characters(&self) -> &[Character]
        ensures value { result.now ≡ self.now }
        ensures low { 1 ≤ length self.now }
        ensures high { length self.now ≤ number_most }
    {
        &self.cells[..self.count]
    }
}
