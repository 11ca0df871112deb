//! Rounds the absolute values of numbers as the display shows them.

ghost use Rattle.std.specs.Prelude.{◌≡◌, ◌+◌, ◌-◌, ◌*◌, ◌^◌, ◌<◌, ◌≤◌};
ghost use Rattle.h41_decimal.specs.Units.{size};
ghost use Rattle.h41_show.specs.Rounding.{nearest, rounded_size, worth_at};

use h41_decimal::Magnitude;

/// The exponent of the greatest numbers, 99, plus 99.
const GREATEST_EXPONENT: u32 = 198;

/// Returns ten to a power from 0 to 10.
pub(crate) fn power_of_ten(power: u32) -> u64
    requires { power ≤ 10 }
    ensures { result ≡ 10 ^ power }
{
    10u64.pow(power)
}

/// Returns a number of up to ten digits without its last `dropped` digits, 0 to 10, rounded to the nearest whole
/// number, halves up.
pub(crate) fn without_last(digits: u64, dropped: u32) -> u64
    requires digits { digits < 10 ^ 10 }
    requires dropped { dropped ≤ 10 }
    ensures { result ≡ nearest digits (10 ^ dropped) }
{
    let step = power_of_ten(dropped);
    (digits + step / 2) / step
}

/// An absolute value rounded to a number of digits: these digits as a whole number, the first of which is not zero, and
/// the exponent of the first digit.
#[derive(Clone, Copy)]
pub(crate) struct Rounded {
    /// The digits that rounding keeps, as a whole number.
    pub(crate) digits: u64,
    /// The exponent of the first digit plus 99, 0 to 198.
    pub(crate) above_least: u32,
}

/// Returns an absolute value rounded to its first digit and `decimals` more, at most 7, halves up. If that would result
/// in exponent 100, the other digits are cut off instead.
pub(crate) fn round(x: Magnitude, decimals: u32) -> Rounded
    requires { decimals ≤ 7 }
    ensures value { worth_at result.digits result.above_least decimals
        ≡ rounded_size decimals (size x) }
    ensures least { 10 ^ decimals ≤ result.digits }
    ensures most { result.digits < 10 ^ (decimals + 1) }
    ensures exponent { result.above_least ≤ 198 }
{
    let above_least = x.steps();
    let digits = x.mantissa.digits;
    let near = without_last(digits, 9 - decimals);
    if near < power_of_ten(decimals + 1) {
        Rounded {
            digits: near,
            above_least,
        }
    } else if above_least < GREATEST_EXPONENT {
        Rounded {
            digits: power_of_ten(decimals),
            above_least: above_least + 1,
        }
    } else {
        Rounded {
            digits: digits / power_of_ten(9 - decimals),
            above_least,
        }
    }
}
