//! Decimals, and the operations on them.

ghost use Rattle.std.specs.Prelude.{◌≡◌, ◌*◌, ◌^◌, ◌<◌, ◌≤◌, pos, ◌+ℤ◌, ◌-ℤ◌, ◌*ℤ◌, neg_ℤ};
ghost use Rattle.std.specs.Prelude.{unsigned_abs, IfSome, IfNone};
ghost use Rattle.std.specs.Ordering.{int_cmp, nat_cmp};
ghost use Rattle.h41_decimal.specs.Signs.{with_sign, sign_of};
ghost use Rattle.h41_decimal.specs.Units.{one, size, units};
ghost use Rattle.std.specs.Option.{option_map};
ghost use Rattle.h41_decimal.specs.Holding.{holding_of, worth, Number};
ghost use Rattle.h41_decimal.specs.NearestDecimal.{Nearest, NearestRoot};
ghost use Rattle.h41_decimal.specs.NumberEntry.{IsTyped, size_of_greatest};
ghost use Rattle.h41_decimal.specs.WholeParts.{HasOnes, IsIntegerPart, IsFraction};
ghost use Rattle.h41_decimal.specs.Operations.{NearestQuotient, NearestModulo, RoundsTo, step_of};

use crate::fault::DecimalFault;
use crate::parts::{Exponent, Magnitude, Mantissa};
use crate::places::Places;
use crate::sign::Sign;
use crate::{entry, modulo, register, sizes, whole};
use h41_digits::Reg;
use std::cmp::Ordering;

/// A number of the calculator: zero, or a sign, ten digits and an exponent.
#[derive(Clone, Copy, Debug, PartialEq, Eq)]
pub enum Ten {
    /// Zero, which has no sign.
    Zero,
    /// A number other than zero.
    Nonzero(Sign, Magnitude),
}

impl Ten {
    /// Returns the number with its sign changed. Zero does not change.
    pub fn negated(self) -> Self
        ensures { units result ≡ neg_ℤ (units self) }
    {
        match self {
            Ten::Zero => Ten::Zero,
            Ten::Nonzero(sign, x) => Ten::Nonzero(sign.opposite(), x),
        }
    }

    /// Returns the absolute value of the number.
    pub fn abs(self) -> Self
        ensures { units result ≡ pos (unsigned_abs (units self)) }
    {
        match self {
            Ten::Zero => Ten::Zero,
            Ten::Nonzero(_, x) => Ten::Nonzero(Sign::Plus, x),
        }
    }

    /// Returns the sign of the number. The sign of zero is plus.
    pub fn sign(self) -> Sign
        ensures { result ≡ sign_of (units self) }
    {
        match self {
            Ten::Zero => Sign::Plus,
            Ten::Nonzero(sign, _) => sign,
        }
    }

    /// Returns 1 with the sign of the number: 1 or -1, and 1 for zero.
    pub fn signum(self) -> Self
        ensures { units result ≡ with_sign (sign_of (units self)) one }
    {
        let mantissa = Mantissa {
            digits: 1_000_000_000,
        };
        let exponent = Exponent { biased: 99 };
        Ten::Nonzero(self.sign(), Magnitude { mantissa, exponent })
    }

    /// Returns the number with the greatest absolute value that has this sign: 9.999999999E99 or -9.999999999E99.
    pub fn greatest(sign: Sign) -> Self
        ensures { units result ≡ with_sign sign size_of_greatest }
    {
        entry::greatest(sign)
    }

    /// Returns the number that is typed with this sign, the whole number `digits` of which the last `places` digits (0
    /// to 20) follow the radix mark, and this exponent. It is rounded to ten digits, halves away from zero. If the
    /// exponent of the result, with one digit before the radix mark, would be above 99, it is the greatest number with
    /// the sign; if below -99, zero (this project's choice).
    pub fn typed(sign: Sign, digits: u64, places: u8, exponent: Exponent) -> Self
        requires { places ≤ 20 }
        ensures { IsTyped sign digits places exponent result }
    {
        entry::typed(sign, digits, places, exponent)
    }

    /// Returns the integer part of the number, with its sign: the digits before the radix mark, as INT returns them.
    pub fn integer_part(self) -> Self
        ensures { IsIntegerPart (units self) (units result) }
    {
        match self {
            Ten::Zero => Ten::Zero,
            Ten::Nonzero(sign, x) => whole::integer_part(sign, x),
        }
    }

    /// Returns the fraction of the number, with its sign: the digits after the radix mark, as FRC returns them.
    pub fn fraction(self) -> Self
        ensures { IsFraction (units self) (units result) }
    {
        match self {
            Ten::Zero => Ten::Zero,
            Ten::Nonzero(sign, x) => whole::fraction(sign, x),
        }
    }

    /// Returns the integer part of the absolute value as a whole number, or `None` if it is 10^10 or more.
    pub fn ones(self) -> Option<u64>
        ensures ones { IfSome result (HasOnes (unsigned_abs (units self))) }
        ensures few { IfSome result (λ ones. ones < 10 ^ 10) }
        ensures many { IfNone result (10 ^ 10 * one ≤ unsigned_abs (units self)) }
    {
        match self {
            Ten::Zero => Some(0),
            Ten::Nonzero(_, x) => whole::ones(x),
        }
    }

    /// Returns the number in a register, or `None` if the register contains no number.
    #[inline(always)]
    pub fn from_reg(register: Reg) -> Option<Self>
        ensures { option_map units result ≡ worth (holding_of register) }
    {
        register::read(register)
    }

    /// Returns the register content that encodes the number.
    #[inline(always)]
    pub fn to_reg(self) -> Reg
        ensures { holding_of result ≡ Number (units self) }
    {
        register::write(self)
    }

    /// Returns `self` + `other`, rounded to ten digits.
    ///
    /// # Errors
    ///
    /// `Range`, and no other: the absolute value of the sum is too large for ten digits and an exponent of 99.
    #[inline(always)]
    pub fn add(self, other: Self) -> Result<Self, DecimalFault>
        ensures { Nearest (units self +ℤ units other) 1 result }
    {
        match (self, other) {
            (Ten::Zero, _) => Ok(other),
            (_, Ten::Zero) => Ok(self),
            (Ten::Nonzero(x_sign, x), Ten::Nonzero(y_sign, y)) => add_signed(x_sign, x, y_sign, y),
        }
    }

    /// Returns `self` - `other`, rounded to ten digits. The only error is `Range`.
    #[inline(always)]
    pub fn sub(self, other: Self) -> Result<Self, DecimalFault>
        ensures { Nearest (units self -ℤ units other) 1 result }
    {
        self.add(other.negated())
    }

    /// Returns `self` * `other`, rounded to ten digits. The only error is `Range`.
    #[inline(always)]
    pub fn mul(self, other: Self) -> Result<Self, DecimalFault>
        ensures { Nearest (units self *ℤ units other) one result }
    {
        match (self, other) {
            (Ten::Nonzero(x_sign, x), Ten::Nonzero(y_sign, y)) => {
                sizes::multiply(x_sign.times(y_sign), x, y)
            }
            _ => Ok(Ten::Zero),
        }
    }

    /// Returns `self` percent of the number `of`: a hundredth of their product, rounded to ten digits. The only error
    /// is `Range`.
    pub fn percent(self, of: Self) -> Result<Self, DecimalFault>
        ensures { Nearest (units self *ℤ units of) (100 * one) result }
    {
        match (self, of) {
            (Ten::Nonzero(x_sign, x), Ten::Nonzero(y_sign, y)) => {
                sizes::percent(x_sign.times(y_sign), x, y)
            }
            _ => Ok(Ten::Zero),
        }
    }

    /// Returns `self` / `other`, rounded to ten digits. The errors are `Data` if `other` is zero, and `Range`.
    #[inline(always)]
    pub fn div(self, other: Self) -> Result<Self, DecimalFault>
        ensures { NearestQuotient (units self) (units other) result }
    {
        match (self, other) {
            (_, Ten::Zero) => Err(DecimalFault::Data),
            (Ten::Zero, _) => Ok(Ten::Zero),
            (Ten::Nonzero(x_sign, x), Ten::Nonzero(y_sign, y)) => {
                sizes::divide(x_sign.times(y_sign), x, y)
            }
        }
    }

    /// Returns the square root of the number, rounded to ten digits. The only error is `Data`, for a negative number.
    pub fn sqrt(self) -> Result<Self, DecimalFault>
        ensures { NearestRoot (units self) result }
    {
        match self {
            Ten::Zero => Ok(Ten::Zero),
            Ten::Nonzero(sign, x) => match sign {
                Sign::Plus => sizes::root(x),
                Sign::Minus => Err(DecimalFault::Data),
            },
        }
    }

    /// Returns the number modulo a divisor, rounded to ten digits: `self - divisor * floor(self / divisor)`, which is
    /// zero or has the sign of the divisor. If the divisor is zero, returns the number itself. There is no error.
    pub fn modulo(self, divisor: Self) -> Result<Self, DecimalFault>
        ensures { NearestModulo self divisor result }
    {
        match (self, divisor) {
            (_, Ten::Zero) => Ok(self),
            (Ten::Zero, _) => Ok(Ten::Zero),
            (Ten::Nonzero(y_sign, y), Ten::Nonzero(x_sign, x)) => modulo::modulo(
                y_sign, y, x_sign, x,
            ),
        }
    }

    /// Returns the number rounded to the decimals or digits that `places` says, halves away from zero. The only error
    /// is `Range`.
    pub fn round_to(self, places: Places) -> Result<Self, DecimalFault>
        ensures { RoundsTo (step_of places self) (units self) result }
    {
        match self {
            Ten::Zero => Ok(Ten::Zero),
            Ten::Nonzero(sign, x) => match places {
                Places::Decimals(count) => sizes::round_at(
                    sign,
                    x,
                    108u32.saturating_sub(u32::from(count)),
                ),
                Places::Digits(count) => {
                    sizes::round_at(sign, x, x.steps() + 10u32.saturating_sub(u32::from(count)))
                }
            },
        }
    }

    /// Compares the values of two numbers.
    pub fn cmp(self, other: Self) -> Ordering
        ensures { result ≡ int_cmp (units self) (units other) }
    {
        match (self, other) {
            (Ten::Zero, Ten::Zero) => Ordering::Equal,
            (Ten::Zero, Ten::Nonzero(sign, x)) => zero_against(sign, x),
            (Ten::Nonzero(sign, x), Ten::Zero) => against_zero(sign, x),
            (Ten::Nonzero(x_sign, x), Ten::Nonzero(y_sign, y)) => compare_signed(
                x_sign, x, y_sign, y,
            ),
        }
    }
}

/// Compares zero with a number other than zero, which is given by its sign and its magnitude.
fn zero_against(sign: Sign, x: Magnitude) -> Ordering
    ensures { result ≡ int_cmp (pos 0) (with_sign sign (size x)) }
{
    match sign {
        Sign::Plus => Ordering::Less,
        Sign::Minus => Ordering::Greater,
    }
}

/// Compares a number other than zero, which is given by its sign and its magnitude, with zero.
fn against_zero(sign: Sign, x: Magnitude) -> Ordering
    ensures { result ≡ int_cmp (with_sign sign (size x)) (pos 0) }
{
    match sign {
        Sign::Plus => Ordering::Greater,
        Sign::Minus => Ordering::Less,
    }
}

/// Compares the values of two numbers other than zero, which are given by their signs and magnitudes.
fn compare_signed(x_sign: Sign, x: Magnitude, y_sign: Sign, y: Magnitude) -> Ordering
    ensures { result ≡ int_cmp (with_sign x_sign (size x)) (with_sign y_sign (size y)) }
{
    match (x_sign, y_sign) {
        (Sign::Plus, Sign::Plus) => sizes::compare(x, y),
        (Sign::Plus, Sign::Minus) => Ordering::Greater,
        (Sign::Minus, Sign::Plus) => Ordering::Less,
        (Sign::Minus, Sign::Minus) => sizes::compare(y, x),
    }
}

/// Returns the sum of two numbers other than zero, which are given by their signs and magnitudes, rounded to ten
/// digits. The only error is `Range`.
#[inline(always)]
fn add_signed(x_sign: Sign, x: Magnitude, y_sign: Sign, y: Magnitude) -> Result<Ten, DecimalFault>
    ensures { Nearest (with_sign x_sign (size x) +ℤ with_sign y_sign (size y)) 1 result }
{
    if x.exponent.biased < y.exponent.biased {
        add_smaller(y_sign, y, x_sign, x)
    } else {
        add_smaller(x_sign, x, y_sign, y)
    }
}

/// Returns the sum of two numbers other than zero, which are given by their signs and magnitudes, rounded to ten
/// digits. The exponent of x must not be lower than that of y. The only error is `Range`.
#[inline(always)]
fn add_smaller(x_sign: Sign, x: Magnitude, y_sign: Sign, y: Magnitude) -> Result<Ten, DecimalFault>
    requires { y.exponent.biased ≤ x.exponent.biased }
    ensures { Nearest (with_sign x_sign (size x) +ℤ with_sign y_sign (size y)) 1 result }
{
    if x_sign == y_sign {
        sizes::add(x_sign, x, y)
    } else {
        sizes::subtract(x_sign, x, y)
    }
}
