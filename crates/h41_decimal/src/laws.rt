//! Laws of decimals. Each law is the contract of a function with an empty or nearly empty body.

ghost use Rattle.std.specs.Prelude.{◌≡◌, Some};
ghost use Rattle.h41_decimal.specs.Laws.{UnitsAreInjective, NearestIsDetermined};
ghost use Rattle.h41_decimal.specs.Laws.{NearestRootIsDetermined, DecimalIsItsNearest};
ghost use Rattle.h41_decimal.specs.Laws.{OnesAreDetermined, IntegerPartIsDetermined};
ghost use Rattle.h41_decimal.specs.Laws.{FractionIsDetermined, TypedIsDetermined};
ghost use Rattle.h41_decimal.specs.Laws.{QuotientIsDetermined, ModuloIsDetermined};
ghost use Rattle.h41_decimal.specs.Laws.{StepsAreDetermined, RegisterIsDetermined};

use crate::ten::Ten;

/// States that two decimals with the same value are equal.
pub fn units_are_injective()
    ensures { UnitsAreInjective }
{}

/// States that at most one result of rounding is right for an exact fraction, whose numerator and denominator are
/// given: one decimal of ten digits, or one error.
pub fn nearest_is_determined()
    ensures { NearestIsDetermined }
{}

/// States that at most one result is right for the square root of a value: one decimal of ten digits, or one error.
pub fn nearest_root_is_determined()
    ensures { NearestRootIsDetermined }
{}

/// States that at most one result is right for the quotient of two numbers, and at most one for the remainder of their
/// division (MOD).
pub fn quotients_are_determined()
    ensures quotient { QuotientIsDetermined }
    ensures modulo { ModuloIsDetermined }
{}

/// States that at most one result is right if a number is rounded to a multiple of a step, such as 0.01.
pub fn steps_are_determined()
    ensures { StepsAreDetermined }
{}

/// States that rounding a value that is already a decimal does not change it.
pub fn decimal_is_its_nearest()
    ensures { DecimalIsItsNearest }
{}

/// States that a number has only one integer part, only one fraction, and that its absolute value has only one integer
/// part as a whole number.
pub fn parts_are_determined()
    ensures ones { OnesAreDetermined }
    ensures integer { IntegerPartIsDetermined }
    ensures fraction { FractionIsDetermined }
{}

/// States that at most one number is right for a typed sign, digits, count of digits after the radix mark, and
/// exponent.
pub fn typed_is_determined()
    ensures { TypedIsDetermined }
{}

/// States that a number is encoded by only one content of a 14-digit register.
pub fn register_is_determined()
    ensures { RegisterIsDetermined }
{}

/// Writes a decimal to a register and reads it again. The result is always this decimal.
pub fn decimal_round_trip(number: Ten) -> Option<Ten>
    ensures { result ≡ Some number }
{
    Ten::from_reg(number.to_reg())
}
