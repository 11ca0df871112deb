//! Registers of the HP-41: a fixed number of hexadecimal digits.
#![tactic(auto)]

ghost use Rattle.std.specs.Prelude.{◌≡◌, ℕ, true, ◌+◌, ◌-◌, ◌*◌, ◌/◌, ◌%◌, ◌^◌, ◌<◌, ◌≤◌, ◌↔◌};
ghost use Rattle.std.specs.Prelude.{List, length, take, drop, slice_index, slice_set, replicate};
ghost use Rattle.std.specs.Prelude.{IsSome, IfSome, Some};
ghost use Rattle.h41_digits.specs.Packed.{digits_of, value-digits_of};
ghost use Rattle.std.specs.Fmt.{digit_glyph};
ghost use Rattle.std.proofs.Common.{ap};
ghost use Rattle.h41_digits.specs.Register.{IsRegister, value, value_between, text};
ghost use Rattle.h41_digits.specs.Register.{hexadecimal_text, byte_at, byte_of_two, number_byte};
ghost use Rattle.h41_digits.specs.Register.{set_byte};
ghost use Rattle.h41_digits.specs.Spans.{in_places};

use std::marker::Model;
use std::{fmt, str};

pub mod laws;
mod span;

pub use span::Span;

/// The number of digits of a register of the processor or of the memory: 14.
pub const PLACES: usize = 14;

/// A register of the processor or of the memory: 14 hexadecimal digits, 56 bits.
pub type Reg = Digits<14>;

/// A register of `N` hexadecimal digits, with `N` from 1 to 14. Place 0 is the rightmost, least significant digit.
#[derive(Clone, Copy, Debug, PartialEq, Eq)]
pub struct Digits<const N: usize> {
    /// The number that the digits form: four bits for each place, those of place 0 lowest.
    word: u64,
}

impl<const N: usize> Model for Digits<N> {
    ghost Value = { List ℕ };

    ghost view = { λ register. digits_of N register.word };

    ghost invariant = { λ register. (N ≤ 14) × (register.word < 16 ^ N) };

    ghost inverse = { λ digits. record { word = value digits } };

    ghost inverse_ok = { λ register holds.
        ap (λ (word : ℕ). record { word = word }) (value-digits_of N register.word holds.1) };
}

impl<const N: usize> Digits<N> {
    /// Returns the register whose digits are all zero.
    pub fn zero() -> Self
        requires { N ≤ 14 }
        ensures { result ≡ replicate N 0 }
    {
        Digits { word: 0 }
    }

    /// Returns the register of `N` hexadecimal digits that holds a number, or `None` if the number is 16 to the power
    /// of `N` or greater.
    pub fn from_u64(number: u64) -> Option<Self>
        requires { N ≤ 14 }
        ensures fits { IsSome result ↔ (number < 16 ^ N) }
        ensures value { IfSome result (λ register. value register ≡ number) }
        ensures register { IfSome result (IsRegister N) }
    {
        if number >> (4 * N) == 0 {
            Some(Digits { word: number })
        } else {
            None
        }
    }

    /// Returns the register of `N` digits that holds a number less than 16 to the power of `N`. Its text is the number
    /// in `N` hexadecimal digits.
    pub fn holding(number: u64) -> Self
        requires places { N ≤ 14 }
        requires fits { number < 16 ^ N }
        ensures value { value result ≡ number }
        ensures text { text result ≡ hexadecimal_text N number }
        ensures register { IsRegister N result }
    {
        Digits { word: number }
    }

    /// Returns the number that the register holds, less than 16 to the power of `N`.
    pub fn to_u64(&self) -> u64
        ensures value { result ≡ value self.now }
        ensures register { IsRegister N self.now }
    {
        self.word
    }

    /// Returns the digit, 0 to 15, at a place from 0 to `N` - 1. Place 0 is the rightmost digit.
    pub fn get(&self, place: usize) -> u8
        requires { place < N }
        ensures digit { result ≡ slice_index self.now place }
        ensures register { IsRegister N self.now }
    {
        (self.word >> (4 * place) & 0xF) as u8
    }

    /// Returns a copy of the register with another digit, 0 to 15, at one place from 0 to `N` - 1. Place 0 is the
    /// rightmost digit.
    pub fn with(&self, place: usize, digit: u8) -> Self
        requires in_register { place < N }
        requires is_digit { digit < 16 }
        ensures changed { result ≡ slice_set self.now place digit }
        ensures from { IsRegister N self.now }
        ensures register { IsRegister N result }
    {
        Digits {
            word: with_bits(self.word, 4 * place, 4, u64::from(digit)),
        }
    }

    /// Writes a digit, 0 to 15, to one place of the register, 0 (rightmost) to `N` - 1. The other places do not change.
    pub fn set(&mut self, place: usize, digit: u8)
        requires in_register { place < N }
        requires is_digit { digit < 16 }
        ensures changed { self.new ≡ slice_set self.old place digit }
        ensures from { IsRegister N self.old }
        ensures register { IsRegister N self.new }
    {
        *self = self.with(place, digit);
    }

    /// Returns byte `k` of the register: place 2`k` + 1 is its higher digit, place 2`k` its lower digit.
    pub fn byte(&self, k: usize) -> u8
        requires { 2 * k + 1 < N }
        ensures byte { result ≡ byte_at self.now k }
        ensures register { IsRegister N self.now }
    {
        (self.word >> (8 * k) & 0xFF) as u8
    }

    /// Returns a copy of the register with another byte `k`: place 2`k` + 1 is its higher digit, place 2`k` its lower digit.
    pub fn with_byte(&self, k: usize, byte: u8) -> Self
        requires { 2 * k + 1 < N }
        ensures changed { result ≡ set_byte self.now k byte }
        ensures from { IsRegister N self.now }
        ensures register { IsRegister N result }
    {
        Digits {
            word: with_bits(self.word, 8 * k, 8, u64::from(byte)),
        }
    }

    /// Returns the number that the hexadecimal digits from place `lo` to place `hi`, both included, form. The digit at
    /// `lo` is the least significant one.
    #[inline(always)]
    pub fn number(&self, lo: usize, hi: usize) -> u64
        requires ordered { lo ≤ hi }
        requires in_register { hi < N }
        ensures number { result ≡ value (take (hi + 1 - lo) (drop lo self.now)) }
        ensures register { IsRegister N self.now }
    {
        if hi + 1 - lo == N {
            return self.word;
        }
        let digits = self.word >> (4 * lo);
        digits & ((1 << (4 * (hi + 1 - lo))) - 1)
    }

    /// Returns a copy of the register with the hexadecimal digits of a number at the places from `lo` to `hi`, both
    /// included. The least significant digit is written to `lo`. The number is less than 16 to the power of the number
    /// of these places.
    #[inline(always)]
    pub fn with_number(&self, lo: usize, hi: usize, number: u64) -> Self
        requires ordered { lo ≤ hi }
        requires in_register { hi < N }
        requires fits { number < 16 ^ (hi + 1 - lo) }
        ensures number { value (take (hi + 1 - lo) (drop lo result)) ≡ number }
        ensures below { take lo result ≡ take lo self.now }
        ensures above { drop (hi + 1) result ≡ drop (hi + 1) self.now }
        ensures from { IsRegister N self.now }
        ensures register { IsRegister N result }
    {
        let word = self.word;
        if hi + 1 - lo == N {
            return Digits { word: number };
        }
        Digits {
            word: with_bits(word, 4 * lo, 4 * (hi + 1 - lo), number),
        }
    }

    /// Returns the register with the digits outside a span (consecutive places) set to zero, as one number: the number
    /// that the span's digits form, times 16 to the power of the span's first place.
    pub fn in_span(&self, span: Span) -> u64
        requires { span.hi < N }
        ensures digits { result ≡ value_between self.now span.lo span.hi * 16 ^ span.lo }
        ensures within { result ≤ span.mask }
        ensures register { IsRegister N self.now }
    {
        let word = self.word;
        word & span.mask
    }

    /// Returns a copy of the register in which the places of a span (consecutive places) have the hexadecimal digits
    /// that the number `word` has at these places. The other digits of `word` are ignored.
    pub fn with_span(&self, span: Span, word: u64) -> Self
        requires { span.hi < N }
        ensures number { value_between result span.lo span.hi ≡ in_places word span.lo span.hi }
        ensures below { take span.lo result ≡ take span.lo self.now }
        ensures above { drop (span.hi + 1) result ≡ drop (span.hi + 1) self.now }
        ensures from { IsRegister N self.now }
        ensures register { IsRegister N result }
    {
        Digits {
            word: self.word & !span.mask | word & span.mask,
        }
    }

    /// Returns the register's digits as upper-case hexadecimal characters, the highest place first, in the first `N`
    /// bytes of the array. The other bytes are the character `0`.
    #[inline(always)]
    fn glyphs(&self) -> [u8; PLACES]
        ensures digits { take N result ≡ text self.now }
        ensures from { IsRegister N self.now }
        ensures places { N ≤ PLACES }
    {
        let mut glyphs = [b'0'; PLACES];
        for i in 0..N {
            glyphs[i] = glyph((self.word >> (4 * (N - 1 - i)) & 0xF) as u8);
        }
        glyphs
    }
}

/// Returns eight consecutive bytes of two adjacent registers of seven bytes each as one number, the leftmost byte
/// highest. The eight bytes begin after the first `skipped` bytes, 0 to 6, of `here`, and continue in `below`.
#[inline(always)]
pub fn eight_bytes(here: Reg, below: Reg, skipped: usize) -> u64
    requires { skipped < 7 }
    ensures { (k : ℕ) → k < 8
        → number_byte result (7 - k) ≡ byte_of_two here below (skipped + k) }
{
    (here.word << (8 * skipped + 8)) + (below.word >> (48 - 8 * skipped))
}

/// Returns byte `k`, 0 to 7, of a number of 64 bits. Byte 0 is the lowest.
#[inline(always)]
pub fn number_byte(number: u64, k: usize) -> u8
    requires { k < 8 }
    ensures { result ≡ number_byte number k }
{
    (number >> (8 * k) & 0xFF) as u8
}

/// Returns a hexadecimal digit, 0 to 15, as an ASCII character in upper case.
#[inline(always)]
pub fn glyph(digit: u8) -> u8
    requires { digit < 16 }
    ensures value { result ≡ digit_glyph true digit }
    ensures ascii { result < 128 }
{
    if digit < 10 {
        b'0' + digit
    } else {
        b'A' + digit - 10
    }
}

/// Returns `word` with its `width` bits from bit `at` upwards replaced by `bits`. Bit 0 is the lowest.
#[inline(always)]
fn with_bits(word: u64, at: usize, width: usize, bits: u64) -> u64
    requires width { (0 < width) × (width < 64) }
    requires in_word { width + at ≤ 64 }
    requires fits { bits < 2 ^ width }
    ensures { result + word / 2 ^ at % 2 ^ width * 2 ^ at ≡ word + bits * 2 ^ at }
{
    let mask = ((1 << width) - 1) << at;
    word & !mask | bits << at
}

/// Prints the `N` digits of the register in upper-case hexadecimal, the highest place first.
impl<const N: usize> fmt::Display for Digits<N> {
    ghost output = { λ digits. Some (text digits) };

    fn fmt<W: fmt::Write>(&self, f: &mut fmt::Formatter<W>) -> fmt::Result {
        let glyphs = self.glyphs();
        f.write_str(str::from_utf8(&glyphs[..N]).unwrap())
    }
}
