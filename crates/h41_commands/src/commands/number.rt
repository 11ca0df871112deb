//! Reads the numbers in the words of a deck. A word that is not a number of the expected kind is refused as BadNumber
//! (51).

ghost use Rattle.std.specs.Prelude.{◌≡◌, ◌≤◌, ◌<◌, ◌^◌, IfOk};
ghost use Rattle.h41_commands.specs.Numbers as spec;

use crate::refusal::LineRefusal;
use h41_lines::numbers;

/// Returns the number, 0 to `most`, that a word's digits write in a radix, with any number of leading zeros.
///
/// # Errors
///
/// BadNumber (51) if the word is not a number in this radix, or is above `most`.
pub fn number_up_to(most: u32, radix: u32, word: &[u8]) -> Result<u32, LineRefusal>
    requires most_in { most ≤ 9999999 }
    requires radix_from_two { 2 ≤ radix }
    requires radix_in { radix ≤ 36 }
    ensures small { IfOk result (λ number. number ≤ most) }
    ensures value { result ≡ spec.number_up_to most radix word.now }
{
    numbers::number_up_to(most, radix, word).ok_or(LineRefusal::BadNumber)
}

/// Returns the decimal number, 1 to `most`, that a word's digits write.
///
/// # Errors
///
/// BadNumber (51) if the word is not a decimal number from 1 to `most`.
pub fn count_up_to(most: u32, word: &[u8]) -> Result<u32, LineRefusal>
    requires { most ≤ 9999999 }
    ensures small { IfOk result (λ number. number ≤ most) }
    ensures value { result ≡ spec.count_up_to most word.now }
{
    numbers::count_up_to(most, word).ok_or(LineRefusal::BadNumber)
}

/// Returns the number that a word of `least` to `most` hexadecimal digits, of either case, writes.
///
/// # Errors
///
/// BadNumber (51) if the word is not a hexadecimal number, or has fewer or more digits.
pub fn hexadecimal(least: usize, most: usize, word: &[u8]) -> Result<u16, LineRefusal>
    requires { most ≤ 4 }
    ensures small { IfOk result (λ number. number < 16 ^ most) }
    ensures value { result ≡ spec.hexadecimal_within least most word.now }
{
    numbers::hexadecimal(least, most, word).ok_or(LineRefusal::BadNumber)
}
