//! The operands of instruction words. Each is a number with a range.
ghost use Rattle.std.specs.Prelude.{◌≡◌, ℕ, ℤ, ◌<◌, ◌≤◌, ◌≤ℤ◌};
ghost use Rattle.h41_words.specs.Counts.{status_bit_count, place_count, digit_count};
ghost use Rattle.h41_words.specs.Counts.{block_register_count, least_displacement};
ghost use Rattle.h41_words.specs.Counts.{greatest_displacement};

use std::marker::Model;

/// The operand of `CLRF n`, `SETF n` and `?FSET n`: the number of a status bit of the processor, 0 to 13.
#[derive(Clone, Copy, Debug, PartialEq, Eq)]
pub struct StatusBit {
    number: u8,
}

impl Model for StatusBit {
    ghost Value = { ℕ };

    ghost view = { λ operand. operand.number };

    ghost invariant = { λ operand. operand.number < status_bit_count };

    ghost inverse = { λ number. record { number = number } };
}

impl StatusBit {
    /// Returns the operand for the status bit of the processor with a number from 0 to 13.
    pub fn new(number: u8) -> Self
        requires { number < status_bit_count }
        ensures { result ≡ number }
    {
        StatusBit { number }
    }

    /// Returns the number of the status bit, 0 to 13.
    pub fn number(self) -> u8
        ensures value { result ≡ self }
        ensures bound { result < status_bit_count }
    {
        self.number
    }
}

/// A digit place of a 14-digit register, 0 (rightmost) to 13: the position of a pointer, or the number of digits of a
/// rotation.
#[derive(Clone, Copy, Debug, PartialEq, Eq)]
pub struct DigitPlace {
    number: u8,
}

impl Model for DigitPlace {
    ghost Value = { ℕ };

    ghost view = { λ operand. operand.number };

    ghost invariant = { λ operand. operand.number < place_count };

    ghost inverse = { λ number. record { number = number } };
}

impl DigitPlace {
    /// Returns the operand for a digit place, or a number of digits to rotate by, from 0 to 13. Place 0 is the
    /// rightmost digit of a register.
    pub fn new(number: u8) -> Self
        requires { number < place_count }
        ensures { result ≡ number }
    {
        DigitPlace { number }
    }

    /// Returns the digit place, or the number of digits to rotate by, as a number from 0 to 13.
    pub fn number(self) -> u8
        ensures value { result ≡ self }
        ensures bound { result < place_count }
    {
        self.number
    }
}

/// The operand of `LD@R n`: a hexadecimal digit, 0 to 15, that the word loads into C.
#[derive(Clone, Copy, Debug, PartialEq, Eq)]
pub struct LoadedDigit {
    number: u8,
}

impl Model for LoadedDigit {
    ghost Value = { ℕ };

    ghost view = { λ operand. operand.number };

    ghost invariant = { λ operand. operand.number < digit_count };

    ghost inverse = { λ number. record { number = number } };
}

impl LoadedDigit {
    /// Returns the operand of `LD@R n` for a digit from 0 to 15.
    pub fn new(number: u8) -> Self
        requires { number < digit_count }
        ensures { result ≡ number }
    {
        LoadedDigit { number }
    }

    /// Returns the digit that `LD@R n` loads, 0 to 15.
    pub fn number(self) -> u8
        ensures value { result ≡ self }
        ensures bound { result < digit_count }
    {
        self.number
    }
}

/// The operand of `WRIT n`: a register, 0 to 15, of a block of 16 registers of the memory.
#[derive(Clone, Copy, Debug, PartialEq, Eq)]
pub struct BlockRegister {
    number: u8,
}

impl Model for BlockRegister {
    ghost Value = { ℕ };

    ghost view = { λ operand. operand.number };

    ghost invariant = { λ operand. operand.number < block_register_count };

    ghost inverse = { λ number. record { number = number } };
}

impl BlockRegister {
    /// Returns the operand of `WRIT n` for the register with a number from 0 to 15 in its block of 16 registers.
    pub fn new(number: u8) -> Self
        requires { number < block_register_count }
        ensures { result ≡ number }
    {
        BlockRegister { number }
    }

    /// Returns the number, 0 to 15, of the register in its block of 16 registers of the memory.
    pub fn number(self) -> u8
        ensures value { result ≡ self }
        ensures bound { result < block_register_count }
    {
        self.number
    }
}

/// The operand of `READ n`: a register, 1 to 15, of a block of 16 registers of the memory. There is no `READ 0`: its
/// word is `READ DATA`.
#[derive(Clone, Copy, Debug, PartialEq, Eq)]
pub struct ReadRegister {
    number: u8,
}

impl Model for ReadRegister {
    ghost Value = { ℕ };

    ghost view = { λ operand. operand.number };

    ghost invariant = { λ operand. (1 ≤ operand.number) × (operand.number < block_register_count) };

    ghost inverse = { λ number. record { number = number } };
}

impl ReadRegister {
    /// Returns the operand of `READ n` for the register with a number from 1 to 15 in its block of 16 registers.
    pub fn new(number: u8) -> Self
        requires low { 1 ≤ number }
        requires high { number < block_register_count }
        ensures { result ≡ number }
    {
        ReadRegister { number }
    }

    /// Returns the number, 1 to 15, of the register in its block of 16 registers of the memory.
    pub fn number(self) -> u8
        ensures value { result ≡ self }
        ensures low { 1 ≤ result }
        ensures bound { result < block_register_count }
    {
        self.number
    }
}

/// The displacement of a short jump: the number of words, -64 to 63, from the address of the jump to its target.
#[derive(Clone, Copy, Debug, PartialEq, Eq)]
pub struct Displacement {
    words: i8,
}

impl Model for Displacement {
    ghost Value = { ℤ };

    ghost view = { λ displacement. displacement.words };

    ghost invariant = { λ displacement. (least_displacement ≤ℤ displacement.words)
        × (displacement.words ≤ℤ greatest_displacement) };

    ghost inverse = { λ words. record { words = words } };
}

impl Displacement {
    /// Returns the displacement of a short jump whose target is a number of words, -64 to 63, from the address of the
    /// jump.
    pub fn new(words: i8) -> Self
        requires low { least_displacement ≤ℤ words }
        requires high { words ≤ℤ greatest_displacement }
        ensures { result ≡ words }
    {
        Displacement { words }
    }

    /// Returns the number of words, -64 to 63, from the address of the short jump to its target.
    pub fn words(self) -> i8
        ensures value { result ≡ self }
        ensures low { least_displacement ≤ℤ result }
        ensures high { result ≤ℤ greatest_displacement }
    {
        self.words
    }
}
