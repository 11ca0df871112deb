//! The results of computations with the numbers in registers, and their conversion to register contents.

ghost use Rattle.std.specs.Prelude.{◌≡◌, Ok, pos, neg_ℤ, unsigned_abs, ℤ};
ghost use Rattle.h41_decimal.specs.NearestDecimal.{Nearest};
ghost use Rattle.h41_decimal.specs.Operations.{NearestQuotient};
ghost use Rattle.h41_decimal.specs.Units.{one, units};
ghost use Rattle.h41_decimal.specs.WholeParts.{IsFraction, IsIntegerPart};
ghost use Rattle.h41_show.specs.DisplayFormat.{format_of};
ghost use Rattle.h41_rows.specs.private.Answers.{IsNumberIn, KeptByFlag, RoundsAt};
ghost use Rattle.h41_rows.specs.Values.{IsOfOne, IsOfTwo, IsRegisterOf, Kept, places_of};
ghost use Rattle.h41_rows.specs.Values.{sign_of_one, sign_of_two, unit_of};

use crate::counters::{counted_down, counted_up};
use crate::fault::LineFault;
use crate::values::{ValueOfOne, ValueOfTwo};
use h41_decimal::laws::decimal_is_its_nearest;
use h41_decimal::{DecimalFault, Places, Sign, Ten};
use h41_digits::Reg;
use h41_numbers::{sign_of_difference, sign_of_product, sign_of_sum};
use h41_ram::Ram;
use h41_show::{Format, Notation};

/// Returns the number in a register, or ALPHA DATA if the register contains no number.
#[inline(always)]
pub fn number_in(register: Reg) -> Result<Ten, LineFault>
    ensures { IsNumberIn register result }
{
    match Ten::from_reg(register) {
        Some(number) => Ok(number),
        None => Err(LineFault::AlphaData),
    }
}

/// Returns the register content that encodes a number.
#[inline(always)]
pub fn register(number: Ten) -> Reg
    ensures { IsRegisterOf (units number) result }
{
    number.to_reg()
}

/// Returns the register content for the result of a computation, or its error: DATA ERROR, or OUT OF RANGE if its
/// exponent is above 99. If flag 24 is set (`ignores_range`), a result that is out of range becomes 9.999999999E99 with
/// the sign `sign`.
#[inline(always)]
pub fn kept(
    answer: Result<Ten, DecimalFault>,
    sign: Sign,
    ignores_range: bool,
) -> Result<Reg, LineFault>
    ensures { Kept sign ignores_range answer result }
{
    match answer {
        Ok(number) => Ok(register(number)),
        Err(DecimalFault::Data) => Err(LineFault::DataError),
        Err(DecimalFault::Range) => kept_by_flag(ignores_range, sign),
    }
}

/// Returns the register content for a result that is out of range: 9.999999999E99 with the sign `sign` if flag 24 is
/// set (`ignores_range`), otherwise the error OUT OF RANGE.
pub fn kept_by_flag(ignores_range: bool, sign: Sign) -> Result<Reg, LineFault>
    ensures { KeptByFlag ignores_range sign result }
{
    if ignores_range {
        Ok(register(Ten::greatest(sign)))
    } else {
        Err(LineFault::OutOfRange)
    }
}

/// Returns the value of one number that `value` names, for example its square root. `places` is the rounding of the
/// display format; only `ValueOfOne::Displayed` uses it. The errors are `Data` for the square root of a negative number
/// and the inverse of zero, and `Range`.
#[inline(always)]
pub fn answer_of_one(value: ValueOfOne, number: Ten, places: Places) -> Result<Ten, DecimalFault>
    ensures { IsOfOne value places (units number) result }
{
    match value {
        ValueOfOne::Root => number.sqrt(),
        ValueOfOne::Inverse => inverse(number),
        ValueOfOne::Negative => negative(number),
        ValueOfOne::AbsoluteValue => absolute_value(number),
        ValueOfOne::IntegerPart => integer_part(number),
        ValueOfOne::Fraction => fraction(number),
        ValueOfOne::Displayed => number.round_to(places),
        ValueOfOne::Unit => unit(number),
        ValueOfOne::CountedUp => counted_up(number),
        ValueOfOne::CountedDown => counted_down(number),
    }
}

/// Returns the sign of the value of one number that `value` names, for the values that can be out of range; for all
/// others, plus. Only the value that is rounded to the display format has another sign than plus.
pub fn sign_of_one(value: ValueOfOne, number: Ten) -> Sign
    ensures { result ≡ sign_of_one value (units number) }
{
    match value {
        ValueOfOne::Displayed => number.sign(),
        _ => Sign::Plus,
    }
}

/// Returns the value of two numbers that `value` names, for example their sum. The errors are `Data` for a quotient
/// whose divisor is zero, and `Range`.
#[inline(always)]
pub fn answer_of_two(value: ValueOfTwo, first: Ten, second: Ten) -> Result<Ten, DecimalFault>
    ensures { IsOfTwo value (units first) (units second) result }
{
    let added = match value {
        ValueOfTwo::Difference => second.negated(),
        _ => second,
    };
    match value {
        ValueOfTwo::Sum | ValueOfTwo::Difference => first.add(added),
        ValueOfTwo::Product => first.mul(second),
        ValueOfTwo::Quotient => first.div(second),
        ValueOfTwo::Remainder => first.modulo(second),
        ValueOfTwo::Percentage => first.percent(second),
    }
}

/// Returns the sign of the value of two numbers that `value` names, for example of their product. For a remainder,
/// which cannot be out of range, it is plus.
pub fn sign_of_two(value: ValueOfTwo, first: Ten, second: Ten) -> Sign
    ensures { result ≡ sign_of_two value (units first) (units second) }
{
    match value {
        ValueOfTwo::Sum => sign_of_sum(first, second),
        ValueOfTwo::Difference => sign_of_difference(first, second),
        ValueOfTwo::Product => sign_of_product(first, second),
        ValueOfTwo::Quotient => sign_of_product(first, second),
        ValueOfTwo::Remainder => Sign::Plus,
        ValueOfTwo::Percentage => sign_of_product(first, second),
    }
}

/// Returns a number unchanged, because it is its own nearest decimal.
pub fn exact(number: Ten) -> Result<Ten, DecimalFault>
    ensures nearest { Nearest (units number) 1 result }
    ensures same { result ≡ Ok number }
{
    decimal_is_its_nearest();
    Ok(number)
}

/// Returns 1 divided by a number, rounded to ten digits. The error is `Data` for zero.
fn inverse(number: Ten) -> Result<Ten, DecimalFault>
    ensures { NearestQuotient (pos one) (units number) result }
{
    Ten::Zero.signum().div(number)
}

/// Returns a number with its sign changed. There is no error.
fn negative(number: Ten) -> Result<Ten, DecimalFault>
    ensures { Nearest (neg_ℤ (units number)) 1 result }
{
    exact(number.negated())
}

/// Returns the absolute value of a number. There is no error.
fn absolute_value(number: Ten) -> Result<Ten, DecimalFault>
    ensures { Nearest (pos (unsigned_abs (units number))) 1 result }
{
    exact(number.abs())
}

/// Returns the digits before the radix mark of a number, with its sign. There is no error.
fn integer_part(number: Ten) -> Result<Ten, DecimalFault>
    ensures { (part : ℤ) × IsIntegerPart (units number) part × Nearest part 1 result }
{
    exact(number.integer_part())
}

/// Returns the digits after the radix mark of a number, with its sign. There is no error.
fn fraction(number: Ten) -> Result<Ten, DecimalFault>
    ensures { (rest : ℤ) × IsFraction (units number) rest × Nearest rest 1 result }
{
    exact(number.fraction())
}

/// Returns 1 with the sign of a number: -1 if it is negative, otherwise 1. There is no error.
fn unit(number: Ten) -> Result<Ten, DecimalFault>
    ensures { Nearest (unit_of (units number)) 1 result }
{
    exact(number.signum())
}

/// Returns the decimals or digits to which `value` is rounded: those of the display format for `ValueOfOne::Displayed`;
/// for any other value, which is not rounded in this way, 0 decimals.
pub fn places_of<const REGS: usize>(ram: &Ram<REGS>, value: ValueOfOne) -> Places
    ensures { RoundsAt value ram.now.registers result }
{
    match value {
        ValueOfOne::Displayed => display_places(ram),
        _ => Places::Decimals(0),
    }
}

/// Returns the decimals or digits to which RND rounds: in FIX as many decimals as its operand says, in SCI and ENG one
/// digit more than the operand.
#[tactic(auto, unfolding(h41_show::specs::DisplayFormat::format_of))]
fn display_places<const REGS: usize>(ram: &Ram<REGS>) -> Places
    ensures { result ≡ places_of (format_of ram.now.registers) }
{
    let format = Format::from_flags(ram);
    match format.notation {
        Notation::Fixed => Places::Decimals(format.digits),
        Notation::Scientific => Places::Digits(format.digits + 1),
        Notation::Engineering => Places::Digits(format.digits + 1),
    }
}
