//! The counters of the loops of ISG and DSE: their new values, and whether their loops continue. A counter is a number
//! iii.fffcc: iii is counted, fff is the final value, and cc is the increment, or 1 if cc is 00.

ghost use Rattle.std.specs.Prelude.{◌≡◌, ℕ, ◌+◌, ◌*◌, ◌<◌, ◌≤◌, ◌/◌, ◌%◌, ◌^◌, ◌==◌, ◌+ℤ◌, ◌-ℤ◌};
ghost use Rattle.std.specs.Prelude.{if◌then◌else◌, int_le, int_lt, pos, unsigned_abs, IfSome};
ghost use Rattle.h41_decimal.specs.NearestDecimal.{Nearest};
ghost use Rattle.h41_decimal.specs.Signs.{with_sign};
ghost use Rattle.h41_decimal.specs.Units.{one, size, units};
ghost use Rattle.h41_rows.specs.Counters.{Down, Up, goes_on, number_after};
ghost use Rattle.h41_rows.specs.private.Counting.{IsMovedSize, decimals_of, number_along, way_of};
ghost use Rattle.h41_rows.specs.private.Readings.{IsCounted};
ghost use Rattle.h41_rows.specs.private.Wholes.{told_ones};

use crate::answers::exact;
use h41_decimal::{DecimalFault, Exponent, Magnitude, Mantissa, Sign, Ten};

/// The highest exponent, plus 99, of a number that has at most ten digits before the radix mark after it is multiplied
/// by 10^5.
const HIGHEST_SHIFTED: u32 = 103;

/// Returns the number that ISG makes of a counter iii.fffcc: iii is increased by cc, or by 1 if cc is 00. The only
/// error is `Range`.
pub fn counted_up(number: Ten) -> Result<Ten, DecimalFault>
    ensures { Nearest (number_after Up (units number)) 1 result }
{
    counted(number, Sign::Plus, five_decimals(number))
}

/// Returns the number that DSE makes of a counter iii.fffcc: iii is decreased by cc, or by 1 if cc is 00. The only
/// error is `Range`.
pub fn counted_down(number: Ten) -> Result<Ten, DecimalFault>
    ensures { Nearest (number_after Down (units number)) 1 result }
{
    counted(number, Sign::Minus, five_decimals(number))
}

/// Returns whether the loop of a counter iii.fffcc continues. For ISG (plus) it does if iii + cc is at most fff, for
/// DSE (minus) if iii - cc is above fff; cc counts as 1 if it is 00. `decimals` is fffcc, the first five decimals of
/// the counter.
pub fn goes_on(counter: Ten, direction: Sign, decimals: u64) -> bool
    requires { decimals ≡ decimals_of (units counter) }
    ensures { result ≡ goes_on (way_of direction) (units counter) }
{
    let ones = ones(counter);
    let count = increment(decimals);
    let last = decimals / 100;
    match direction {
        Sign::Plus => is_at_most(counter.sign(), ones, count, last),
        Sign::Minus => is_above(counter.sign(), ones, count, last),
    }
}

/// Returns the integer part of a number's absolute value, or 10^10 if it is 10^10 or more.
fn ones(number: Ten) -> u64
    ensures { result ≡ told_ones (unsigned_abs (units number) / one) }
{
    match number.ones() {
        Some(ones) => ones,
        None => 10_000_000_000,
    }
}

/// Returns the first five decimals of a number, without its sign, as a whole number, below 100,000.
pub fn five_decimals(number: Ten) -> u64
    ensures value { result ≡ decimals_of (units number) }
    ensures bound { result < 100000 }
{
    match number {
        Ten::Zero => 0,
        Ten::Nonzero(_, x) => five_digits(x),
    }
}

/// Returns the first five decimals of a magnitude as a whole number, below 100,000.
fn five_digits(x: Magnitude) -> u64
    ensures value { result ≡ size x % one / 10 ^ 103 }
    ensures bound { result < 100000 }
{
    if x.exponent.biased <= HIGHEST_SHIFTED {
        return five_places_up(x) % 100_000;
    }
    match Ten::Nonzero(Sign::Plus, x).fraction() {
        Ten::Zero => 0,
        Ten::Nonzero(_, rest) => five_places_up(rest),
    }
}

/// Returns the integer part of a magnitude that is multiplied by 10^5. Its exponent must be at most 4.
fn five_places_up(x: Magnitude) -> u64
    requires { x.exponent.biased ≤ 103 }
    ensures { result ≡ size x / 10 ^ 103 }
{
    let exponent = Exponent {
        biased: x.exponent.biased + 5,
    };
    let shifted = Magnitude {
        mantissa: x.mantissa,
        exponent,
    };
    match Ten::Nonzero(Sign::Plus, shifted).ones() {
        Some(ones) => ones,
        None => 0,
    }
}

/// Returns the increment of a loop, 1 to 99: the last two of the first five decimals of its counter, or 1 if they are
/// 00. `decimals` is these five decimals as a whole number.
fn increment(decimals: u64) -> u64
    ensures value { result ≡ if decimals % 100 == 0 then 1 else decimals % 100 }
    ensures some { 0 < result }
    ensures few { result < 100 }
{
    let count = decimals % 100;
    if count == 0 { 1 } else { count }
}

/// Returns whether the whole number `ones` with the sign `sign`, increased by `count`, is at most `last`. ISG continues
/// its loop then.
fn is_at_most(sign: Sign, ones: u64, count: u64, last: u64) -> bool
    requires ones { ones ≤ 10 ^ 10 }
    requires count { count < 100 }
    requires last { last < 1000 }
    ensures { result ≡ int_le (with_sign sign ones +ℤ pos count) (pos last) }
{
    match sign {
        Sign::Plus => ones + count <= last,
        Sign::Minus => count <= last + ones,
    }
}

/// Returns whether the whole number `ones` with the sign `sign`, decreased by `count`, is above `last`. DSE continues
/// its loop then.
fn is_above(sign: Sign, ones: u64, count: u64, last: u64) -> bool
    requires ones { ones ≤ 10 ^ 10 }
    requires count { count < 100 }
    requires last { last < 1000 }
    ensures { result ≡ int_lt (pos last) (with_sign sign ones -ℤ pos count) }
{
    match sign {
        Sign::Plus => last + count < ones,
        Sign::Minus => false,
    }
}

/// Returns the number that ISG (plus) or DSE (minus) makes of a counter iii.fffcc: iii is increased or decreased by cc,
/// or by 1 if cc is 00. `decimals` is fffcc, the first five decimals of the counter. If the integer part keeps its
/// sign, the increment can be added to the number as a whole. The only error is `Range`.
pub fn counted(number: Ten, direction: Sign, decimals: u64) -> Result<Ten, DecimalFault>
    requires { decimals ≡ decimals_of (units number) }
    ensures { Nearest (number_along direction (units number)) 1 result }
{
    let count = increment(decimals);
    if number.sign() == direction || ones(number) > count {
        moved(number, direction, count)
    } else {
        counted_by_parts(number, direction)
    }
}

/// Returns a number plus (`direction` plus) or minus a whole number from 1 to 99, rounded to ten digits. In most loops
/// the result has ten digits and the same exponent, so that nothing has to be rounded. The only error is `Range`.
fn moved(number: Ten, direction: Sign, count: u64) -> Result<Ten, DecimalFault>
    requires some { 0 < count }
    requires few { count < 100 }
    ensures { Nearest (units number +ℤ with_sign direction (count * one)) 1 result }
{
    if let Ten::Nonzero(sign, x) = number {
        if let Some(y) = moved_size(x, sign == direction, count) {
            return exact(Ten::Nonzero(sign, y));
        }
    }
    number.add(below_hundred(direction, count))
}

/// Returns a magnitude plus (`grows`) or minus the whole number `count`, below 100, if only its mantissa changes and
/// one to five digits are before the radix mark; otherwise `None`.
fn moved_size(x: Magnitude, grows: bool, count: u64) -> Option<Magnitude>
    requires { count < 100 }
    ensures { IfSome result (λ y. IsMovedSize grows (size x) (count * one) (size y)) }
{
    let step = count * digits_of_one(x.exponent)?;
    let digits = if grows {
        x.mantissa.digits + step
    } else {
        x.mantissa.digits.saturating_sub(step)
    };
    if digits < 1_000_000_000 || digits >= 10_000_000_000 {
        return None;
    }
    let mantissa = Mantissa { digits };
    Some(Magnitude {
        mantissa,
        exponent: x.exponent,
    })
}

/// Returns how many units of the mantissa's tenth digit make 1, if the exponent is 0 to 4, so that one to five digits
/// are before the radix mark; otherwise `None`.
fn digits_of_one(exponent: Exponent) -> Option<u64>
    ensures one { IfSome result (λ steps. steps * 10 ^ exponent.biased ≡ one) }
    ensures bound { IfSome result (λ steps. steps ≤ 10 ^ 9) }
{
    match exponent.biased {
        99 => Some(1_000_000_000),
        100 => Some(100_000_000),
        101 => Some(10_000_000),
        102 => Some(1_000_000),
        103 => Some(100_000),
        _ => None,
    }
}

/// Returns the number that ISG (plus) or DSE (minus) makes of a counter iii.fffcc, computed from its integer part and
/// its fraction. A number without a fraction counts by 1. The only error is `Range`.
fn counted_by_parts(number: Ten, direction: Sign) -> Result<Ten, DecimalFault>
    ensures { Nearest (number_along direction (units number)) 1 result }
{
    match number.fraction() {
        Ten::Zero => number.add(below_hundred(direction, 1)),
        Ten::Nonzero(_, fraction) => match number.ones() {
            Some(ones) => {
                let count = increment(five_digits(fraction));
                stepped(number.sign(), ones, direction, count, fraction)
            }
            None => number.add(below_hundred(direction, 1)),
        },
    }
}

/// Returns the decimal for a whole number from 1 to 99 with a sign.
fn below_hundred(sign: Sign, number: u64) -> Ten
    requires some { 0 < number }
    requires few { number < 100 }
    ensures { units result ≡ with_sign sign (number * one) }
{
    let (digits, biased) = if number < 10 {
        (number * 1_000_000_000, 99)
    } else {
        (number * 100_000_000, 100)
    };
    let mantissa = Mantissa { digits };
    let exponent = Exponent { biased };
    Ten::Nonzero(sign, Magnitude { mantissa, exponent })
}

/// Returns a number after its integer part, `ones` with the sign `sign`, was increased (`direction` plus) or decreased
/// by `count`, 1 to 99. Its absolute value keeps the fraction. It is rounded to ten digits; the only error is `Range`.
fn stepped(
    sign: Sign,
    ones: u64,
    direction: Sign,
    count: u64,
    fraction: Magnitude,
) -> Result<Ten, DecimalFault>
    requires few_ones { ones < 10 ^ 9 }
    requires some { 0 < count }
    requires few { count < 100 }
    ensures { IsCounted sign ones direction count (size fraction) result }
{
    if sign == direction {
        joined(sign, ones + count, fraction)
    } else if ones > count {
        joined(sign, ones - count, fraction)
    } else if ones < count {
        joined(direction, count - ones, fraction)
    } else {
        joined(Sign::Plus, 0, fraction)
    }
}

/// Returns the number whose absolute value is the whole number `ones` plus a fraction, with the sign `sign`, rounded to
/// ten digits. The only error is `Range`.
fn joined(sign: Sign, ones: u64, fraction: Magnitude) -> Result<Ten, DecimalFault>
    requires { ones < 10 ^ 10 }
    ensures { Nearest (with_sign sign (ones * one + size fraction)) 1 result }
{
    whole_number(sign, ones).add(Ten::Nonzero(sign, fraction))
}

/// Returns the decimal for a whole number below 10^10 with a sign.
fn whole_number(sign: Sign, ones: u64) -> Ten
    requires { ones < 10 ^ 10 }
    ensures { units result ≡ with_sign sign (ones * one) }
{
    if ones == 0 {
        return Ten::Zero;
    }
    let log = ones.ilog10();
    let mantissa = Mantissa {
        digits: ones * 10u64.pow(9 - log),
    };
    let exponent = Exponent { biased: 99 + log };
    Ten::Nonzero(sign, Magnitude { mantissa, exponent })
}
