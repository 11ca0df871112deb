//! The remainder that is left if the quotient of two decimals is rounded down to a whole number, as MOD returns it.

ghost use Rattle.std.specs.Prelude.{◌≡◌, ◌+◌, ◌*◌, ◌%◌, ◌^◌, ◌<◌, ◌≤◌};
ghost use Rattle.h41_decimal.specs.Signs.{with_sign, opposite_of};
ghost use Rattle.h41_decimal.specs.Units.{size};
ghost use Rattle.h41_decimal.specs.Operations.{RoundsRest};

use crate::fault::DecimalFault;
use crate::parts::Magnitude;
use crate::rounding::{UNIT_SCALE, power_of_ten, round_whole};
use crate::sign::Sign;
use crate::sizes;
use crate::ten::Ten;

/// The greatest power of ten by which a remainder of up to ten digits is multiplied at once, so that the product fits
/// 64 bits.
const AT_ONCE: u32 = 9;

/// Returns y - x * floor(y / x), rounded to ten digits. The numbers y and x are given by their magnitudes and signs.
/// The result is zero or has the sign of x.
pub fn modulo(y_sign: Sign, y: Magnitude, x_sign: Sign, x: Magnitude) -> Result<Ten, DecimalFault>
    ensures { RoundsRest (with_sign y_sign (size y)) (with_sign x_sign (size x)) result }
{
    if x_sign == y_sign {
        rest_same(x_sign, y, x)
    } else {
        rest_apart(x_sign, y, x)
    }
}

/// Returns y - x * floor(y / x), rounded to ten digits, for a dividend y and a divisor x that both have the sign
/// `sign`. It is the remainder of the two magnitudes, with this sign.
fn rest_same(sign: Sign, y: Magnitude, x: Magnitude) -> Result<Ten, DecimalFault>
    ensures { RoundsRest (with_sign sign (size y)) (with_sign sign (size x)) result }
{
    if y.exponent.biased < x.exponent.biased {
        return Ok(Ten::Nonzero(sign, y));
    }
    let rest = remainder(y.mantissa.digits, y.steps() - x.steps(), x.mantissa.digits);
    if rest == 0 {
        return Ok(Ten::Zero);
    }
    round_whole(sign, rest, x.steps() + UNIT_SCALE)
}

/// Returns y - x * floor(y / x), rounded to ten digits, for a divisor x with the sign `sign` and a dividend y with the
/// other sign. It is x minus the remainder of the two magnitudes, or zero if that remainder is zero.
fn rest_apart(sign: Sign, y: Magnitude, x: Magnitude) -> Result<Ten, DecimalFault>
    ensures { RoundsRest (with_sign (opposite_of sign) (size y)) (with_sign sign (size x)) result }
{
    if y.exponent.biased < x.exponent.biased {
        return sizes::subtract(sign, x, y);
    }
    let rest = remainder(y.mantissa.digits, y.steps() - x.steps(), x.mantissa.digits);
    if rest == 0 {
        return Ok(Ten::Zero);
    }
    round_whole(sign, x.mantissa.digits - rest, x.steps() + UNIT_SCALE)
}

/// Returns the remainder of `number` * 10^`power` divided by `divisor`, which must be greater than zero and have at
/// most ten digits.
fn remainder(number: u64, power: u32, divisor: u64) -> u64
    requires some { 0 < divisor }
    requires divisor { divisor < 10 ^ 10 }
    ensures { result ≡ number * 10 ^ power % divisor }
{
    if power == 0 {
        return number % divisor;
    }
    let step = power.min(AT_ONCE);
    remainder(number % divisor * power_of_ten(step), power - step, divisor)
}
