//! Returns the integer part and the fraction of a number.

ghost use Rattle.std.specs.Prelude.{◌≡◌, ◌*◌, ◌^◌, ◌<◌, ◌≤◌, IfSome, IfNone};
ghost use Rattle.h41_decimal.specs.Signs.{with_sign};
ghost use Rattle.h41_decimal.specs.Units.{size, units};
ghost use Rattle.h41_decimal.specs.WholeParts.{HasOnes, IsIntegerPart, IsFraction};

use crate::parts::{Exponent, Magnitude, Mantissa};
use crate::rounding::{digit_count, power_of_ten, without_last};
use crate::sign::Sign;
use crate::ten::Ten;

/// The exponent, plus 99, of a number whose tenth digit is its ones digit.
const ONES: u32 = 108;

/// The exponent, plus 99, below which an absolute value is less than 1.
const LEAST: u32 = 99;

/// Returns the integer part of a magnitude as a whole number, or `None` if it is 10^10 or more.
pub fn ones(x: Magnitude) -> Option<u64>
    ensures ones { IfSome result (HasOnes (size x)) }
    ensures few { IfSome result (λ ones. ones < 10 ^ 10) }
    ensures many { IfNone result (109 ≤ x.exponent.biased) }
{
    let steps = x.steps();
    if steps > ONES {
        None
    } else if steps < LEAST {
        Some(0)
    } else {
        Some(without_last(x.mantissa.digits, ONES - steps))
    }
}

/// Returns the integer part of the number with this sign and magnitude: its digits before the radix mark, with its
/// sign.
pub fn integer_part(sign: Sign, x: Magnitude) -> Ten
    ensures { IsIntegerPart (with_sign sign (size x)) (units result) }
{
    let steps = x.steps();
    if steps >= ONES {
        return Ten::Nonzero(sign, x);
    }
    if steps < LEAST {
        return Ten::Zero;
    }
    let behind = ONES - steps;
    let mantissa = Mantissa {
        digits: without_last(x.mantissa.digits, behind) * power_of_ten(behind),
    };
    let exponent = x.exponent;
    Ten::Nonzero(sign, Magnitude { mantissa, exponent })
}

/// Returns the fraction of the number with this sign and magnitude: its digits after the radix mark, with its sign.
pub fn fraction(sign: Sign, x: Magnitude) -> Ten
    ensures { IsFraction (with_sign sign (size x)) (units result) }
{
    let steps = x.steps();
    if steps >= ONES {
        return Ten::Zero;
    }
    if steps < LEAST {
        return Ten::Nonzero(sign, x);
    }
    let rest = x.mantissa.digits % power_of_ten(ONES - steps);
    if rest == 0 {
        return Ten::Zero;
    }
    decimal(sign, rest, steps)
}

/// Returns the decimal with this sign whose absolute value is `number` * 10^(`steps` - 108). `number` has one to ten
/// digits, and `steps` is 9 to 198.
fn decimal(sign: Sign, number: u64, steps: u32) -> Ten
    requires some { 0 < number }
    requires few { number < 10 ^ 10 }
    requires least { 9 ≤ steps }
    requires most { steps ≤ 198 }
    ensures { units result ≡ with_sign sign (number * 10 ^ steps) }
{
    let missing = 10 - digit_count(number);
    let mantissa = Mantissa {
        digits: number * power_of_ten(missing),
    };
    let exponent = Exponent {
        biased: steps - missing,
    };
    Ten::Nonzero(sign, Magnitude { mantissa, exponent })
}
