//! The signs of exact sums, differences and products of two numbers of ten digits.

ghost use Rattle.std.specs.Prelude.{◌≡◌, ◌+ℤ◌, ◌-ℤ◌, ◌*ℤ◌};
ghost use Rattle.h41_decimal.specs.Signs.{sign_of};
ghost use Rattle.h41_decimal.specs.Units.{units};

use h41_decimal::{Sign, Ten};
use std::cmp::Ordering;

/// Returns the sign of `first` + `second`, computed exactly, without rounding. The sign of zero is plus.
pub fn sign_of_sum(first: Ten, second: Ten) -> Sign
    ensures { result ≡ sign_of (units first +ℤ units second) }
{
    sign_of_difference(first, second.negated())
}

/// Returns the sign of `first` - `second`, computed exactly, without rounding. The sign of zero is plus.
pub fn sign_of_difference(first: Ten, second: Ten) -> Sign
    ensures { result ≡ sign_of (units first -ℤ units second) }
{
    match first.cmp(second) {
        Ordering::Less => Sign::Minus,
        Ordering::Equal => Sign::Plus,
        Ordering::Greater => Sign::Plus,
    }
}

/// Returns the sign of `first` times `second`, computed exactly, without rounding. The sign of zero is plus.
pub fn sign_of_product(first: Ten, second: Ten) -> Sign
    ensures { result ≡ sign_of (units first *ℤ units second) }
{
    match (first, second) {
        (Ten::Nonzero(first_sign, _), Ten::Nonzero(second_sign, _)) => {
            first_sign.times(second_sign)
        }
        _ => Sign::Plus,
    }
}
