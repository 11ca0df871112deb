//! Operations on magnitudes, which are decimals without a sign.

ghost use Rattle.std.specs.Prelude.{◌≡◌, ◌+◌, ◌*◌, ◌/◌, ◌^◌, ◌<◌, ◌≤◌, pos, ◌-ℤ◌};
ghost use Rattle.std.specs.Ordering.{int_cmp};
ghost use Rattle.h41_decimal.specs.Signs.{with_sign};
ghost use Rattle.h41_decimal.specs.Units.{one, size};
ghost use Rattle.h41_decimal.specs.NearestDecimal.{IsRounded, Nearest, Fraction, RootOf};
ghost use Rattle.h41_decimal.specs.Operations.{RoundsTo};

use crate::fault::DecimalFault;
use crate::likely;
use crate::parts::Magnitude;
use crate::rounding::{UNIT_SCALE, power_of_ten, round_whole, without_last};
use crate::sign::Sign;
use crate::ten::Ten;
use std::cmp::Ordering;

/// The number of decimal places after the last digit of the larger magnitude that a sum or a difference uses. Of the
/// smaller magnitude's digits after these places, it only matters whether they are all zero.
const COUNTED: u32 = 8;

/// Returns the product of two magnitudes, rounded to ten digits, with the sign `sign`. The only error is `Range`.
#[inline(always)]
pub fn multiply(sign: Sign, x: Magnitude, y: Magnitude) -> Result<Ten, DecimalFault>
    ensures { IsRounded sign (Fraction (size x * size y) one) result }
{
    round_whole(sign, product_cut(x, y), x.steps() + y.steps() + 25)
}

/// Returns a hundredth of the product of two magnitudes, rounded to ten digits, with the sign `sign`. The only error is
/// `Range`.
pub fn percent(sign: Sign, x: Magnitude, y: Magnitude) -> Result<Ten, DecimalFault>
    ensures { IsRounded sign (Fraction (size x * size y) (100 * one)) result }
{
    round_whole(sign, product_cut(x, y), x.steps() + y.steps() + 23)
}

/// Returns the product of the mantissas of two magnitudes, as whole numbers of ten digits, without its last five
/// digits. It is computed from halves of five digits, so that it fits 64 bits.
#[inline(always)]
fn product_cut(x: Magnitude, y: Magnitude) -> u64
    ensures product { result ≡ x.mantissa.digits * y.mantissa.digits / 10 ^ 5 }
    ensures long { 10 ^ 10 ≤ result }
{
    let x_high = x.mantissa.digits / 100_000;
    let x_low = x.mantissa.digits % 100_000;
    let y_high = y.mantissa.digits / 100_000;
    let y_low = y.mantissa.digits % 100_000;
    x_high * y_high * 100_000 + (x_high * y_low + x_low * y_high) + x_low * y_low / 100_000
}

/// Returns x / y for two magnitudes, rounded to ten digits, with the sign `sign`. The only error is `Range`.
#[inline(always)]
pub fn divide(sign: Sign, x: Magnitude, y: Magnitude) -> Result<Ten, DecimalFault>
    ensures { IsRounded sign (Fraction (size x * size y * one) (size y * size y)) result }
{
    let quotient = quotient_cut(x.mantissa.digits, y.mantissa.digits);
    round_whole(sign, quotient, x.steps() + 225 - y.steps())
}

/// Returns 10^11 * `number` / `divisor`, rounded down. `number` has up to ten digits, `divisor` exactly ten. A quotient
/// by the floating-point unit is used if its product with the divisor confirms it.
#[inline(always)]
fn quotient_cut(number: u64, divisor: u64) -> u64
    requires few { number < 10 ^ 10 }
    requires long { 10 ^ 9 ≤ divisor }
    requires few_by { divisor < 10 ^ 10 }
    ensures { result ≡ number * 10 ^ 11 / divisor }
{
    let likely = likely::quotient(number, divisor);
    let product = u128::from(likely) * u128::from(divisor);
    let whole = u128::from(number) * 100_000_000_000;
    if product <= whole && whole - product < u128::from(divisor) {
        likely
    } else {
        quotient_by_parts(number, divisor)
    }
}

/// Returns 10^11 * `number` / `divisor`, rounded down, by whole numbers alone: its last two digits are computed
/// separately. `number` has up to ten digits, `divisor` exactly ten.
#[inline(never)]
fn quotient_by_parts(number: u64, divisor: u64) -> u64
    requires few { number < 10 ^ 10 }
    requires long { 10 ^ 9 ≤ divisor }
    requires few_by { divisor < 10 ^ 10 }
    ensures { result ≡ number * 10 ^ 11 / divisor }
{
    let dividend = number * 1_000_000_000;
    dividend / divisor * 100 + dividend % divisor * 100 / divisor
}

/// Returns the square root of a magnitude, rounded to ten digits. It is computed from a whole number of 21 or 22 digits
/// that is multiplied by an even power of ten.
pub fn root(x: Magnitude) -> Result<Ten, DecimalFault>
    ensures { IsRounded Sign.Plus (RootOf (size x * one)) result }
{
    let steps = x.steps();
    let filled = 2 - steps % 2;
    let root = eleven_digit_root(x.mantissa.digits * power_of_ten(filled));
    round_whole(Sign::Plus, root, UNIT_SCALE + (steps + 98 - filled) / 2)
}

/// Returns the square root of 10^10 * `number`, rounded down, for a number of 11 or 12 digits. A root by the
/// floating-point unit is used if its square confirms it.
fn eleven_digit_root(number: u64) -> u64
    requires at_least { 10 ^ 10 ≤ number }
    requires below { number < 10 ^ 12 }
    ensures square { result * result ≤ number * 10 ^ 10 }
    ensures next { number * 10 ^ 10 < (result + 1) * (result + 1) }
    ensures long { 10 ^ 10 ≤ result }
{
    let likely = likely::root(number);
    let squared = u128::from(likely) * u128::from(likely);
    let whole = u128::from(number) * 10_000_000_000;
    if squared <= whole && whole - squared <= 2 * u128::from(likely) {
        likely
    } else {
        root_by_parts(number)
    }
}

/// Returns the square root of 10^10 * `number`, rounded down, for a number of 11 or 12 digits, by whole numbers alone.
/// The square root of `number` gives its first six digits. One step of Newton's method gives five more, and is at most
/// one too high.
#[inline(never)]
fn root_by_parts(number: u64) -> u64
    requires at_least { 10 ^ 10 ≤ number }
    requires below { number < 10 ^ 12 }
    ensures square { result * result ≤ number * 10 ^ 10 }
    ensures next { number * 10 ^ 10 < (result + 1) * (result + 1) }
    ensures long { 10 ^ 10 ≤ result }
{
    let six = number.isqrt();
    let five = (number - six * six) * 100_000 / (2 * six);
    let root = six * 100_000 + five;
    if u128::from(root) * u128::from(root) > u128::from(number) * 10_000_000_000 {
        root - 1
    } else {
        root
    }
}

/// Returns x + y for two magnitudes, rounded to ten digits, with the sign `sign`. The exponent of x must not be lower
/// than that of y. The only error is `Range`.
#[inline(always)]
pub fn add(sign: Sign, x: Magnitude, y: Magnitude) -> Result<Ten, DecimalFault>
    requires { y.exponent.biased ≤ x.exponent.biased }
    ensures { IsRounded sign (Fraction (size x + size y) 1) result }
{
    let apart = x.steps() - y.steps();
    if apart <= COUNTED {
        let whole = x.mantissa.digits * power_of_ten(apart) + y.mantissa.digits;
        round_whole(sign, whole, y.steps() + UNIT_SCALE)
    } else {
        let dropped = (apart - COUNTED).min(10);
        let whole = x.mantissa.digits * 100_000_000 + without_last(y.mantissa.digits, dropped);
        round_whole(sign, whole, x.steps() + UNIT_SCALE - COUNTED)
    }
}

/// Returns x - y for two numbers that are given by their magnitudes and both have the sign `sign`, rounded to ten
/// digits. The exponent of x must not be lower than that of y.
#[inline(always)]
pub fn subtract(sign: Sign, x: Magnitude, y: Magnitude) -> Result<Ten, DecimalFault>
    requires { y.exponent.biased ≤ x.exponent.biased }
    ensures { Nearest (with_sign sign (size x) -ℤ with_sign sign (size y)) 1 result }
{
    let apart = x.steps() - y.steps();
    if apart <= COUNTED {
        let large = x.mantissa.digits * power_of_ten(apart);
        let small = y.mantissa.digits;
        let scale = y.steps() + UNIT_SCALE;
        if large > small {
            round_whole(sign, large - small, scale)
        } else if large < small {
            round_whole(sign.opposite(), small - large, scale)
        } else {
            Ok(Ten::Zero)
        }
    } else {
        let dropped = (apart - COUNTED).min(10);
        let small = without_last(y.mantissa.digits - 1, dropped) + 1;
        let whole = x.mantissa.digits * 100_000_000 - small;
        round_whole(sign, whole, x.steps() + UNIT_SCALE - COUNTED)
    }
}

/// Returns whether `x` is less than, equal to or greater than `y`: the greater exponent decides, or, if the exponents
/// are equal, the greater ten digits.
pub fn compare(x: Magnitude, y: Magnitude) -> Ordering
    ensures { result ≡ int_cmp (pos (size x)) (pos (size y)) }
{
    if x.exponent.biased < y.exponent.biased {
        Ordering::Less
    } else if y.exponent.biased < x.exponent.biased {
        Ordering::Greater
    } else if x.mantissa.digits < y.mantissa.digits {
        Ordering::Less
    } else if y.mantissa.digits < x.mantissa.digits {
        Ordering::Greater
    } else {
        Ordering::Equal
    }
}

/// Returns the number with this magnitude and sign, rounded to a multiple of 10^(`place` - 108), halves away from zero.
/// `place` is below 300. The only error is `Range`.
pub fn round_at(sign: Sign, x: Magnitude, place: u32) -> Result<Ten, DecimalFault>
    requires { place < 300 }
    ensures { RoundsTo (10 ^ place) (with_sign sign (size x)) result }
{
    if place <= x.steps() {
        return Ok(Ten::Nonzero(sign, x));
    }
    let dropped = place - x.steps();
    if dropped > 10 {
        return Ok(Ten::Zero);
    }
    let step = power_of_ten(dropped);
    let steps = (x.mantissa.digits + step / 2) / step;
    if steps == 0 {
        return Ok(Ten::Zero);
    }
    round_whole(sign, steps, place + UNIT_SCALE)
}
