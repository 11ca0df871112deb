//! The numbers in lines, each with its range.
ghost use Rattle.std.specs.Prelude.{◌≡◌, ℕ, ◌<◌};
ghost use Rattle.h41_codes.specs.Counts.{parameter_count, short_label_count, short_register_count};
ghost use Rattle.h41_codes.specs.Counts.{module_count, entry_count, distance_count, link_count};
ghost use Rattle.h41_codes.specs.Counts.{end_mark_count, final_mark_count};

use std::marker::Model;

/// A parameter of a function, 0 to 127: a register, a flag, a label, or a number of digits. 0 to 101 are written as numbers, 102 to 111 are
/// the labels A to J, 112 to 116 the stack registers T, Z, Y, X and L, 117 to 121 the registers M, N, O, P and Q, 122 is the append
/// register, and 123 to 127 are the labels a to e.
#[derive(Clone, Copy, Debug, PartialEq, Eq)]
pub struct Parameter {
    number: u8,
}

impl Model for Parameter {
    ghost Value = { ℕ };

    ghost view = { λ held. held.number };

    ghost invariant = { λ held. held.number < parameter_count };

    ghost inverse = { λ number. record { number = number } };
}

impl Parameter {
    /// Returns the parameter of a function with a number from 0 to 127.
    pub fn new(number: u8) -> Self
        requires { number < parameter_count }
        ensures { result ≡ number }
    {
        Parameter { number }
    }

    /// Returns the number, 0 to 127, of the parameter in the byte code.
    pub fn number(self) -> u8
        ensures value { result ≡ self }
        ensures bound { result < parameter_count }
    {
        self.number
    }
}

/// A label, 00 to 14, for which `LBL` has a spelling in one byte.
#[derive(Clone, Copy, Debug, PartialEq, Eq)]
pub struct ShortLabel {
    number: u8,
}

impl Model for ShortLabel {
    ghost Value = { ℕ };

    ghost view = { λ held. held.number };

    ghost invariant = { λ held. held.number < short_label_count };

    ghost inverse = { λ number. record { number = number } };
}

impl ShortLabel {
    /// Returns the label 00 to 14 (spelled in one byte) with a number from 0 to 14.
    pub fn new(number: u8) -> Self
        requires { number < short_label_count }
        ensures { result ≡ number }
    {
        ShortLabel { number }
    }

    /// Returns the number, 0 to 14, of a label that is spelled in one byte.
    pub fn number(self) -> u8
        ensures value { result ≡ self }
        ensures bound { result < short_label_count }
    {
        self.number
    }
}

/// A register, 00 to 15, for which `RCL` and `STO` have a spelling in one byte.
#[derive(Clone, Copy, Debug, PartialEq, Eq)]
pub struct ShortRegister {
    number: u8,
}

impl Model for ShortRegister {
    ghost Value = { ℕ };

    ghost view = { λ held. held.number };

    ghost invariant = { λ held. held.number < short_register_count };

    ghost inverse = { λ number. record { number = number } };
}

impl ShortRegister {
    /// Returns the register 00 to 15 (spelled in one byte with `RCL` or `STO`) with a number from 0 to 15.
    pub fn new(number: u8) -> Self
        requires { number < short_register_count }
        ensures { result ≡ number }
    {
        ShortRegister { number }
    }

    /// Returns the number, 0 to 15, of a register that is spelled in one byte with `RCL` or `STO`.
    pub fn number(self) -> u8
        ensures value { result ≡ self }
        ensures bound { result < short_register_count }
    {
        self.number
    }
}

/// The number of a module, 0 to 31, which is the first number of an `XROM`.
#[derive(Clone, Copy, Debug, PartialEq, Eq)]
pub struct ModuleNumber {
    number: u8,
}

impl Model for ModuleNumber {
    ghost Value = { ℕ };

    ghost view = { λ held. held.number };

    ghost invariant = { λ held. held.number < module_count };

    ghost inverse = { λ number. record { number = number } };
}

impl ModuleNumber {
    /// Returns the first number of an `XROM` line, the module's number, from a number from 0 to 31.
    pub fn new(number: u8) -> Self
        requires { number < module_count }
        ensures { result ≡ number }
    {
        ModuleNumber { number }
    }

    /// Returns the first number of an `XROM` line, the module's number, 0 to 31.
    pub fn number(self) -> u8
        ensures value { result ≡ self }
        ensures bound { result < module_count }
    {
        self.number
    }
}

/// The number of a function in its module, 0 to 63, which is the second number of an `XROM`.
#[derive(Clone, Copy, Debug, PartialEq, Eq)]
pub struct EntryNumber {
    number: u8,
}

impl Model for EntryNumber {
    ghost Value = { ℕ };

    ghost view = { λ held. held.number };

    ghost invariant = { λ held. held.number < entry_count };

    ghost inverse = { λ number. record { number = number } };
}

impl EntryNumber {
    /// Returns the second number of an `XROM` line, the function's number in its module, from a number from 0 to 63.
    pub fn new(number: u8) -> Self
        requires { number < entry_count }
        ensures { result ≡ number }
    {
        EntryNumber { number }
    }

    /// Returns the second number of an `XROM` line, the function's number in its module, 0 to 63.
    pub fn number(self) -> u8
        ensures value { result ≡ self }
        ensures bound { result < entry_count }
    {
        self.number
    }
}

/// The distance of a branch to its label, in twelve bits that the calculator writes. The crate stores the bits without using them.
#[derive(Clone, Copy, Debug, PartialEq, Eq)]
pub struct Distance {
    number: u16,
}

impl Model for Distance {
    ghost Value = { ℕ };

    ghost view = { λ held. held.number };

    ghost invariant = { λ held. held.number < distance_count };

    ghost inverse = { λ number. record { number = number } };
}

impl Distance {
    /// Returns the distance of a branch to its label that twelve bits, 0 to 4095, encode.
    pub fn new(number: u16) -> Self
        requires { number < distance_count }
        ensures { result ≡ number }
    {
        Distance { number }
    }

    /// Returns the twelve bits of the distance as a number, 0 to 4095.
    pub fn number(self) -> u16
        ensures value { result ≡ self }
        ensures bound { result < distance_count }
    {
        self.number
    }
}

/// The link of a global label or `END` to the global label or `END` before it, which the calculator writes. The crate
/// stores it without using it.
#[derive(Clone, Copy, Debug, PartialEq, Eq)]
pub struct Link {
    number: u16,
}

impl Model for Link {
    ghost Value = { ℕ };

    ghost view = { λ held. held.number };

    ghost invariant = { λ held. held.number < link_count };

    ghost inverse = { λ number. record { number = number } };
}

impl Link {
    /// Returns the link of a global label or END that given bits, 0 to 3583, encode.
    pub fn new(number: u16) -> Self
        requires { number < link_count }
        ensures { result ≡ number }
    {
        Link { number }
    }

    /// Returns the bits of the link as a number, 0 to 3583.
    pub fn number(self) -> u16
        ensures value { result ≡ self }
        ensures bound { result < link_count }
    {
        self.number
    }
}

/// The status bits of an `END`, which say how its program was packed. The crate stores them without using them.
#[derive(Clone, Copy, Debug, PartialEq, Eq)]
pub struct EndMarks {
    number: u8,
}

impl Model for EndMarks {
    ghost Value = { ℕ };

    ghost view = { λ held. held.number };

    ghost invariant = { λ held. held.number < end_mark_count };

    ghost inverse = { λ number. record { number = number } };
}

impl EndMarks {
    /// Returns the status bits of an `END` that are given as a number from 0 to 127.
    pub fn new(number: u8) -> Self
        requires { number < end_mark_count }
        ensures { result ≡ number }
    {
        EndMarks { number }
    }

    /// Returns the status bits of an `END` as a number, 0 to 127.
    pub fn number(self) -> u8
        ensures value { result ≡ self }
        ensures bound { result < end_mark_count }
    {
        self.number
    }
}

/// The status bits of `.END.`, which say how its program was packed. The crate stores them without using them. The numbers 112 to 127 are
/// missing, because their bytes spell a label.
#[derive(Clone, Copy, Debug, PartialEq, Eq)]
pub struct FinalMarks {
    number: u8,
}

impl Model for FinalMarks {
    ghost Value = { ℕ };

    ghost view = { λ held. held.number };

    ghost invariant = { λ held. held.number < final_mark_count };

    ghost inverse = { λ number. record { number = number } };
}

impl FinalMarks {
    /// Returns the status bits of `.END.` that are given as a number from 0 to 111.
    pub fn new(number: u8) -> Self
        requires { number < final_mark_count }
        ensures { result ≡ number }
    {
        FinalMarks { number }
    }

    /// Returns the status bits of `.END.` as a number, 0 to 111.
    pub fn number(self) -> u8
        ensures value { result ≡ self }
        ensures bound { result < final_mark_count }
    {
        self.number
    }
}
