//! Numbers in registers of 14 digits, of which digit 0 is the rightmost: the sign is digit 13, the mantissa digits 12
//! to 3, the exponent digits 2 to 0.

ghost use Rattle.std.specs.Prelude.{◌≡◌, ℕ, ◌+◌, ◌*◌, ◌^◌, ◌<◌, ◌≤◌, IfSome, Some, None};
ghost use Rattle.std.specs.Prelude.{slice_index};
ghost use Rattle.h41_decimal.specs.private.PackedDigits.{decimal_of, hundreds_of, steps_told};
ghost use Rattle.h41_decimal.specs.private.PackedDigits.{word_of_digits};
ghost use Rattle.h41_decimal.specs.Signs.{with_sign};
ghost use Rattle.std.specs.Option.{option_map};
ghost use Rattle.h41_decimal.specs.Units.{size, units};
ghost use Rattle.h41_decimal.specs.Holding.{decimal_in, sign_in, steps_in, holding_of};
ghost use Rattle.h41_decimal.specs.Holding.{worth, Number};

use crate::parts::{Exponent, Magnitude, Mantissa};
use crate::sign::Sign;
use crate::ten::Ten;
use h41_digits::Reg;

/// A mask of the lower four bits of each of the five lowest bytes.
const LOW_HALVES: u64 = 0x0F_0F0F_0F0F;

/// The number 6 in each of the five lowest bytes. If it is added to five bytes that are each a digit from 0 to F, bit 4
/// of a byte becomes set if and only if its digit is above 9.
const SIXES: u64 = 0x06_0606_0606;

/// The number 16 in each of the five lowest bytes: a mask of the carries that adding 6 to each byte causes.
const SIXTEENS: u64 = 0x10_1010_1010;

/// For each number from 0 to 99, its two decimal digits in four bits each (BCD).
const PACKED_PAIRS: [u8; 100] = [
    0x00, 0x01, 0x02, 0x03, 0x04, 0x05, 0x06, 0x07, 0x08, 0x09, 0x10, 0x11, 0x12, 0x13, 0x14, 0x15,
    0x16, 0x17, 0x18, 0x19, 0x20, 0x21, 0x22, 0x23, 0x24, 0x25, 0x26, 0x27, 0x28, 0x29, 0x30, 0x31,
    0x32, 0x33, 0x34, 0x35, 0x36, 0x37, 0x38, 0x39, 0x40, 0x41, 0x42, 0x43, 0x44, 0x45, 0x46, 0x47,
    0x48, 0x49, 0x50, 0x51, 0x52, 0x53, 0x54, 0x55, 0x56, 0x57, 0x58, 0x59, 0x60, 0x61, 0x62, 0x63,
    0x64, 0x65, 0x66, 0x67, 0x68, 0x69, 0x70, 0x71, 0x72, 0x73, 0x74, 0x75, 0x76, 0x77, 0x78, 0x79,
    0x80, 0x81, 0x82, 0x83, 0x84, 0x85, 0x86, 0x87, 0x88, 0x89, 0x90, 0x91, 0x92, 0x93, 0x94, 0x95,
    0x96, 0x97, 0x98, 0x99,
];

/// For each byte, the number that its two digits of four bits form in decimal (BCD), or 255 if one of the digits is
/// above 9.
const UNPACKED_PAIRS: [u8; 256] = [
    0, 1, 2, 3, 4, 5, 6, 7, 8, 9, 255, 255, 255, 255, 255, 255, 10, 11, 12, 13, 14, 15, 16, 17, 18,
    19, 255, 255, 255, 255, 255, 255, 20, 21, 22, 23, 24, 25, 26, 27, 28, 29, 255, 255, 255, 255,
    255, 255, 30, 31, 32, 33, 34, 35, 36, 37, 38, 39, 255, 255, 255, 255, 255, 255, 40, 41, 42, 43,
    44, 45, 46, 47, 48, 49, 255, 255, 255, 255, 255, 255, 50, 51, 52, 53, 54, 55, 56, 57, 58, 59,
    255, 255, 255, 255, 255, 255, 60, 61, 62, 63, 64, 65, 66, 67, 68, 69, 255, 255, 255, 255, 255,
    255, 70, 71, 72, 73, 74, 75, 76, 77, 78, 79, 255, 255, 255, 255, 255, 255, 80, 81, 82, 83, 84,
    85, 86, 87, 88, 89, 255, 255, 255, 255, 255, 255, 90, 91, 92, 93, 94, 95, 96, 97, 98, 99, 255,
    255, 255, 255, 255, 255, 255, 255, 255, 255, 255, 255, 255, 255, 255, 255, 255, 255, 255, 255,
    255, 255, 255, 255, 255, 255, 255, 255, 255, 255, 255, 255, 255, 255, 255, 255, 255, 255, 255,
    255, 255, 255, 255, 255, 255, 255, 255, 255, 255, 255, 255, 255, 255, 255, 255, 255, 255, 255,
    255, 255, 255, 255, 255, 255, 255, 255, 255, 255, 255, 255, 255, 255, 255, 255, 255, 255, 255,
    255, 255, 255, 255, 255, 255, 255, 255, 255, 255, 255, 255, 255, 255, 255, 255, 255, 255, 255,
    255, 255, 255, 255, 255, 255,
];

/// Returns the number in a register, or `None` if the register contains no number. Zero is a register of zeros; no
/// other number has a mantissa that begins with zero.
#[inline(always)]
pub fn read(register: Reg) -> Option<Ten>
    ensures { option_map units result ≡ worth (holding_of register) }
{
    if register.to_u64() == 0 {
        return Some(Ten::Zero);
    }
    let digits = mantissa_digits(register)?;
    if digits < 1_000_000_000 {
        return None;
    }
    let sign = sign_of(register.get(13))?;
    let biased = steps(register)?;
    let mantissa = Mantissa { digits };
    let exponent = Exponent { biased };
    Some(Ten::Nonzero(sign, Magnitude { mantissa, exponent }))
}

/// Returns the number that the digits 12 to 3 of a register, its mantissa, form in decimal, or `None` if one of them is
/// above 9.
#[inline(always)]
fn mantissa_digits(register: Reg) -> Option<u64>
    ensures value { result ≡ decimal_in register 3 10 }
    ensures bound { IfSome result (λ number. number < 10 ^ 10) }
{
    unpacked(register.number(3, 12))
}

/// Returns the number that ten digits of four bits each form in decimal (BCD), or `None` if one of them is above 9.
#[inline(always)]
fn unpacked(digits: u64) -> Option<u64>
    requires { digits < 16 ^ 10 }
    ensures { result ≡ decimal_of 10 digits }
{
    let low = digits & LOW_HALVES;
    let high = digits / 0x10 & LOW_HALVES;
    if (low + SIXES) & SIXTEENS != 0 || (high + SIXES) & SIXTEENS != 0 {
        return None;
    }
    Some(hundreds(low + 10 * high))
}

/// Returns the number whose five digits in base 100 are the five lowest bytes of `bytes`. The lowest digit is in the
/// lowest byte.
#[inline(always)]
fn hundreds(bytes: u64) -> u64
    requires { bytes < 256 ^ 5 }
    ensures { result ≡ hundreds_of 5 bytes }
{
    let low = bytes % 0x100 + 100 * (bytes / 0x100 % 0x100);
    let middle = bytes / 0x1_0000 % 0x100 + 100 * (bytes / 0x100_0000 % 0x100);
    low + 10_000 * middle + 100_000_000 * (bytes / 0x1_0000_0000)
}

/// Returns the sign that digit 13 of a register encodes: 0 is plus, 9 is minus; `None` for any other digit.
#[inline(always)]
fn sign_of(digit: u8) -> Option<Sign>
    ensures { result ≡ sign_in digit }
{
    match digit {
        0 => Some(Sign::Plus),
        9 => Some(Sign::Minus),
        _ => None,
    }
}

/// Returns the exponent, plus 99, that the digits 2 to 0 of a register encode, or `None` if they encode none. 000 to
/// 099 are 0 to 99; 901 to 999 are -99 to -1.
#[inline(always)]
fn steps(register: Reg) -> Option<u32>
    ensures value { result ≡ steps_told (decimal_in register 0 3) }
    ensures bound { IfSome result (λ steps. steps ≤ 198) }
{
    let size = unpacked_pair(register.byte(0))?;
    match register.get(2) {
        0 => Some(u32::from(size) + 99),
        9 if size > 0 => Some(u32::from(size) - 1),
        _ => None,
    }
}

/// Returns the number that the two digits of four bits in a byte form in decimal (BCD), or `None` if one of them is
/// above 9.
#[inline(always)]
fn unpacked_pair(byte: u8) -> Option<u8>
    ensures value { result ≡ decimal_of 2 byte }
    ensures bound { IfSome result (λ number. number < 100) }
{
    let number = UNPACKED_PAIRS[usize::from(byte)];
    if number < 100 { Some(number) } else { None }
}

/// Returns the register content that encodes a number: zeros for zero, otherwise its sign, mantissa and exponent.
#[inline(always)]
pub fn write(number: Ten) -> Reg
    ensures { holding_of result ≡ Number (units number) }
{
    match number {
        Ten::Zero => Reg::zero(),
        Ten::Nonzero(sign, x) => write_size(sign, x),
    }
}

/// Returns the register content that encodes a magnitude with a sign.
#[inline(always)]
fn write_size(sign: Sign, x: Magnitude) -> Reg
    ensures { holding_of result ≡ Number (with_sign sign (size x)) }
{
    let signed = Reg::zero().with(13, sign_digit(sign));
    let with_mantissa = signed.with_number(3, 12, packed_ten(x.mantissa.digits));
    with_mantissa.with_number(0, 2, packed_exponent(x.exponent))
}

/// Returns the ten decimal digits of a number below 10^10 in four bits each (BCD), the lowest digit in the lowest bits.
fn packed_ten(number: u64) -> u64
    requires { number < 10 ^ 10 }
    ensures digits { result ≡ word_of_digits 10 number }
    ensures bound { result < 16 ^ 10 }
{
    let low = packed_four(number % 10_000);
    let middle = packed_four(number / 10_000 % 10_000);
    low + 0x1_0000 * middle + 0x1_0000_0000 * packed_pair(number / 100_000_000)
}

/// Returns the four decimal digits of a number below 10,000 in four bits each (BCD), the lowest digit in the lowest
/// bits.
fn packed_four(number: u64) -> u64
    requires { number < 10 ^ 4 }
    ensures digits { result ≡ word_of_digits 4 number }
    ensures bound { result < 16 ^ 4 }
{
    packed_pair(number % 100) + 0x100 * packed_pair(number / 100)
}

/// Returns the two decimal digits of a number below 100 in four bits each (BCD), the lower digit in the lower bits.
fn packed_pair(number: u64) -> u64
    requires { number < 10 ^ 2 }
    ensures digits { result ≡ word_of_digits 2 number }
    ensures bound { result < 16 ^ 2 }
{
    u64::from(PACKED_PAIRS[number as usize])
}

/// Returns the digit that encodes a sign in a register: 0 for plus, 9 for minus.
fn sign_digit(sign: Sign) -> u8
    ensures sign { sign_in result ≡ Some sign }
    ensures digit { result < 16 }
{
    match sign {
        Sign::Plus => 0,
        Sign::Minus => 9,
    }
}

/// Returns the three digits of a register that encode an exponent, in four bits each (BCD). For a negative exponent
/// they are those of 1000 plus the exponent, for example 999 for -1.
fn packed_exponent(exponent: Exponent) -> u64
    ensures digits { (digits : ℕ) × (steps_in digits ≡ Some exponent.biased) × (digits < 10 ^ 3)
        × (result ≡ word_of_digits 3 digits) }
    ensures bound { result < 16 ^ 3 }
{
    let steps = u64::from(exponent.biased);
    if steps < 99 {
        0x900 + packed_pair(steps + 1)
    } else {
        packed_pair(steps - 99)
    }
}
