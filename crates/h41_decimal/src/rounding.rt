//! Rounds exact results to ten digits, halves away from zero, for all operations.

ghost use Rattle.std.specs.Prelude.{◌≡◌, ℕ, ◌+◌, ◌-◌, ◌*◌, ◌/◌, ◌^◌, ◌<◌, ◌≤◌, pos};
ghost use Rattle.h41_decimal.specs.NearestDecimal.{IsBounded};
ghost use Rattle.h41_decimal.specs.private.Cut.{RoundsElevenDigits, RoundsWhole};

use crate::fault::DecimalFault;
use crate::parts::{Exponent, Magnitude, Mantissa};
use crate::sign::Sign;
use crate::ten::Ten;

/// The scale of 10^-108. The scale of a digit is the power of ten that it counts, plus 236, so that smaller powers than
/// -108 have a scale, too. A 1 in the tenth digit of a number with exponent -99 is 10^-108.
pub const UNIT_SCALE: u32 = 128;

/// Returns ten to a power from 0 to 19.
#[inline(always)]
pub fn power_of_ten(power: u32) -> u64
    requires { power < 20 }
    ensures { result ≡ 10 ^ power }
{
    match power {
        0 => 1,
        1 => 10,
        2 => 100,
        3 => 1000,
        4 => 10_000,
        5 => 100_000,
        6 => 1_000_000,
        7 => 10_000_000,
        8 => 100_000_000,
        9 => 1_000_000_000,
        10 => 10_000_000_000,
        11 => 100_000_000_000,
        12 => 1_000_000_000_000,
        13 => 10_000_000_000_000,
        14 => 100_000_000_000_000,
        15 => 1_000_000_000_000_000,
        16 => 10_000_000_000_000_000,
        17 => 100_000_000_000_000_000,
        18 => 1_000_000_000_000_000_000,
        19 => 10_000_000_000_000_000_000,
        _ => unreachable!(),
    }
}

/// Returns `number` without its last `digits` decimal digits, which can be 0 to 10. It divides by constants, because
/// that is faster.
#[inline(always)]
pub fn without_last(number: u64, digits: u32) -> u64
    requires { digits ≤ 10 }
    ensures { result ≡ number / 10 ^ digits }
{
    match digits {
        0 => number,
        1 => number / 10,
        2 => number / 100,
        3 => number / 1000,
        4 => number / 10_000,
        5 => number / 100_000,
        6 => number / 1_000_000,
        7 => number / 10_000_000,
        8 => number / 100_000_000,
        9 => number / 1_000_000_000,
        10 => number / 10_000_000_000,
        _ => unreachable!(),
    }
}

/// Returns how many decimal digits a number greater than zero has, 1 to 20.
pub fn digit_count(number: u64) -> u32
    requires { 0 < number }
    ensures least { 10 ^ result ≤ 10 * number }
    ensures next { number < 10 ^ result }
    ensures range { (1 ≤ result) × (result ≤ 20) }
{
    number.ilog10() + 1
}

/// Returns the decimal with this sign and these ten digits, the last of which counts 10^(`scale` - 236). It is `Range`
/// if the decimal's exponent is above 99, and zero if it is below -99.
#[inline(always)]
fn bounded(sign: Sign, mantissa: Mantissa, scale: u32) -> Result<Ten, DecimalFault>
    ensures low { scale < 128 → result ≡ Ok Ten.Zero }
    ensures high { 128 ≤ scale → IsBounded sign mantissa.digits (pos (scale - 128)) result }
{
    if scale < UNIT_SCALE {
        return Ok(Ten::Zero);
    }
    let biased = scale - UNIT_SCALE;
    if biased > 198 {
        return Err(DecimalFault::Range);
    }
    let exponent = Exponent { biased };
    Ok(Ten::Nonzero(sign, Magnitude { mantissa, exponent }))
}

/// Returns the decimal nearest to an exact magnitude, with this sign. `whole` is the magnitude's first eleven digits,
/// the last of which counts 10^(`scale` - 236); the digits after them are cut off. Halves are rounded away from zero.
/// The only error is `Range`.
#[inline(always)]
fn round_eleven_digits(sign: Sign, whole: u64, scale: u32) -> Result<Ten, DecimalFault>
    requires at_least { 10 ^ 10 ≤ whole }
    requires below { whole < 10 ^ 11 }
    requires scale { scale < 1000 }
    ensures { RoundsElevenDigits sign whole scale result }
{
    let digits = (whole + 5) / 10;
    if digits < 10_000_000_000 {
        bounded(sign, Mantissa { digits }, scale + 1)
    } else {
        let digits = 1_000_000_000;
        bounded(sign, Mantissa { digits }, scale + 2)
    }
}

/// Returns the decimal nearest to an exact magnitude greater than zero, with this sign. `whole` is the magnitude in
/// steps of 10^(`scale` - 236), rounded down. If `whole` has fewer than eleven digits, the magnitude must be exactly
/// that many steps. Halves are rounded away from zero. The only error is `Range`.
#[inline(always)]
pub fn round_whole(sign: Sign, whole: u64, scale: u32) -> Result<Ten, DecimalFault>
    requires positive { 0 < whole }
    requires at_least { 10 ≤ scale }
    requires below { scale < 900 }
    ensures { RoundsWhole sign whole scale result }
{
    let count = digit_count(whole);
    if count > 11 {
        let dropped = count - 11;
        round_eleven_digits(sign, without_last(whole, dropped), scale + dropped)
    } else {
        let missing = 11 - count;
        round_eleven_digits(sign, whole * power_of_ten(missing), scale - missing)
    }
}
