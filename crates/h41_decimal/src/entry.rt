//! Returns a number from the digits, the exponent and the sign that are typed.

ghost use Rattle.std.specs.Prelude.{◌≡◌, ◌≤◌};
ghost use Rattle.h41_decimal.specs.Signs.{with_sign};
ghost use Rattle.h41_decimal.specs.Units.{units};
ghost use Rattle.h41_decimal.specs.NumberEntry.{IsTyped, size_of_greatest as greatest_size};

use crate::parts::{Exponent, Magnitude, Mantissa};
use crate::rounding::round_whole;
use crate::sign::Sign;
use crate::ten::Ten;

/// The scale of the last digit of a number typed with exponent -99 and no digit after the radix mark. The scale of a
/// digit is the power of ten that it counts, plus 236: here -99 + 236.
const ENTRY_SCALE: u32 = 137;

/// Returns the number that is typed with this sign, the whole number `digits` of which the last `places` digits (0 to
/// 20) follow the radix mark, and this exponent. It is rounded to ten digits, halves away from zero. If the exponent of
/// the result, with one digit before the radix mark, would be above 99, it is the greatest number with the sign; if
/// below -99, zero.
pub fn typed(sign: Sign, digits: u64, places: u8, exponent: Exponent) -> Ten
    requires { places ≤ 20 }
    ensures { IsTyped sign digits places exponent result }
{
    if digits == 0 {
        return Ten::Zero;
    }
    let scale = ENTRY_SCALE + exponent.biased - u32::from(places);
    match round_whole(sign, digits, scale) {
        Ok(number) => number,
        Err(_) => greatest(sign),
    }
}

/// Returns the number with the greatest absolute value that has this sign: 9.999999999E99 or -9.999999999E99.
pub fn greatest(sign: Sign) -> Ten
    ensures { units result ≡ with_sign sign greatest_size }
{
    let mantissa = Mantissa {
        digits: 9_999_999_999,
    };
    let exponent = Exponent { biased: 198 };
    Ten::Nonzero(sign, Magnitude { mantissa, exponent })
}
