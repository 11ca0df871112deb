//! The values that program lines compute from the numbers in registers.

ghost use Rattle.std.specs.Prelude.{List, pos};
ghost use Rattle.h41_codes.specs.declared.characters.Character.{Character};
ghost use Rattle.h41_decimal.specs.Units.{units};
ghost use Rattle.h41_numbers.specs.NumberLines.{IsNumberOf};
ghost use Rattle.h41_rows.specs.private.Answers.{KeptOne, KeptTwo, WithoutNumber};
ghost use Rattle.h41_rows.specs.private.Answers.{WorksOnRegister, WorksOnRegisters};
ghost use Rattle.h41_rows.specs.Computing.{IsAlways, WorksOnOne, WorksOnTwo};
ghost use Rattle.h41_rows.specs.FunctionRows as functions;
ghost use Rattle.h41_rows.specs.Values.{Given, Written};

use crate::answers::{
    answer_of_one, answer_of_two, kept, kept_by_flag, number_in, places_of, register, sign_of_one,
    sign_of_two,
};
use crate::fault::LineFault;
use h41_codes::Number;
use h41_decimal::laws::decimal_is_its_nearest;
use h41_decimal::{DecimalFault, Exponent, Magnitude, Mantissa, Places, Sign, Ten};
use h41_digits::Reg;
use h41_numbers::number_of;
use h41_ram::Ram;
use h41_ram::flags::RANGE_IGNORE;

/// A value that a program line computes from one number, for example its square root.
#[derive(Clone, Copy, Debug, PartialEq, Eq)]
pub enum ValueOfOne {
    /// The square root of the number from which the line computes.
    Root,
    /// 1 divided by the number from which the line computes.
    Inverse,
    /// The number from which the line computes, with its sign changed.
    Negative,
    /// The number from which the line computes, without its sign.
    AbsoluteValue,
    /// The digits of a number before its radix mark, with the sign of the number.
    IntegerPart,
    /// The digits of a number after its radix mark, with the sign of the number.
    Fraction,
    /// The number from which the line computes, rounded to the display format.
    Displayed,
    /// 1 with the sign of the number, or 0 if the register contains no number, as SIGN returns it.
    Unit,
    /// The counter of a loop after ISG has counted it up by its increment.
    CountedUp,
    /// The counter of a loop after DSE has counted it down by its increment.
    CountedDown,
}

/// A value that a program line computes from two numbers, for example their sum.
#[derive(Clone, Copy, Debug, PartialEq, Eq)]
pub enum ValueOfTwo {
    /// The sum of the two numbers from which the line computes.
    Sum,
    /// The first number minus the second.
    Difference,
    /// The product of the two numbers.
    Product,
    /// The first number divided by the second.
    Quotient,
    /// The first number modulo the second: the first if the second is zero.
    Remainder,
    /// A hundredth of the product of the two numbers, as % computes it.
    Percentage,
}

/// Returns the register content with a value of the number at an address. ALPHA DATA if the register there contains no
/// number, except for `Unit`. DATA ERROR for the inverse of zero and the root of a negative number. OUT OF RANGE if the
/// exponent of the value is above 99; if flag 24 is set, the value is instead 9.999999999E99 with its sign.
pub fn compute_of_one<const REGS: usize>(
    ram: &Ram<REGS>,
    value: ValueOfOne,
    address: u16,
) -> Result<Reg, LineFault>
    ensures { WorksOnOne value ram.now.registers address result }
{
    of_register(
        value,
        ram.read(address),
        places_of(ram, value),
        ram.flag(RANGE_IGNORE),
    )
}

/// Returns the register content with a value of the number in `register`, rounded to `places` if it is
/// `ValueOfOne::Displayed`. ALPHA DATA, DATA ERROR or OUT OF RANGE as for `compute_of_one`; `ignores_range` is flag 24.
/// All sizes of memory share this machine code.
#[inline(never)]
fn of_register(
    value: ValueOfOne,
    register: Reg,
    places: Places,
    ignores_range: bool,
) -> Result<Reg, LineFault>
    ensures { WorksOnRegister value register places ignores_range result }
{
    match number_in(register) {
        Ok(number) => kept_of_one(value, number, places, ignores_range),
        Err(fault) => without_number(value, fault),
    }
}

/// Returns the register content with a value of the numbers at two addresses. ALPHA DATA if one of the registers
/// contains no number. DATA ERROR for a quotient with the divisor zero. OUT OF RANGE if the exponent of the value is
/// above 99; if flag 24 is set, the value is instead 9.999999999E99 with its sign.
#[inline(always)]
pub fn compute_of_two<const REGS: usize>(
    ram: &Ram<REGS>,
    value: ValueOfTwo,
    first: u16,
    second: u16,
) -> Result<Reg, LineFault>
    ensures { WorksOnTwo value ram.now.registers first second result }
{
    of_registers(
        value,
        ram.read(first),
        ram.read(second),
        ram.flag(RANGE_IGNORE),
    )
}

/// Returns the register content with a value of the numbers in two register contents. ALPHA DATA, DATA ERROR or OUT OF
/// RANGE as for `compute_of_two`; `ignores_range` is flag 24. All sizes of memory share this machine code.
#[inline(never)]
fn of_registers(
    value: ValueOfTwo,
    first: Reg,
    second: Reg,
    ignores_range: bool,
) -> Result<Reg, LineFault>
    ensures { WorksOnRegisters value first second ignores_range result }
{
    let x = number_in(first)?;
    let y = number_in(second)?;
    kept_of_two(value, x, y, ignores_range)
}

/// Returns the register content that encodes 3.141592654.
pub fn pi() -> Reg
    ensures { IsAlways (Given (pos functions.pi)) result }
{
    let mantissa = Mantissa {
        digits: 3_141_592_654,
    };
    let exponent = Exponent { biased: 99 };
    always(Ten::Nonzero(Sign::Plus, Magnitude { mantissa, exponent }))
}

/// Returns the register content that encodes zero.
pub fn zero() -> Reg
    ensures { IsAlways (Given (pos 0)) result }
{
    always(Ten::Zero)
}

/// Returns the register content that encodes the number of a number line.
pub fn written(number: &Number) -> Reg
    ensures { IsAlways (Written number.now) result }
{
    register(number_of(number.characters()))
}

/// Returns the register content that encodes a number, for example one that was read from a number line.
pub fn number_register(number: Ten) -> Reg
    ensures { (text : List Character) → IsNumberOf text number → IsAlways (Written text) result }
{
    register(number)
}

/// Returns the register content with a value of one number, rounded to `places` if it is `ValueOfOne::Displayed`, or
/// its error: DATA ERROR, or OUT OF RANGE unless flag 24 is set (`ignores_range`).
#[inline(always)]
fn kept_of_one(
    value: ValueOfOne,
    number: Ten,
    places: Places,
    ignores_range: bool,
) -> Result<Reg, LineFault>
    ensures { KeptOne value places ignores_range number result }
{
    kept(
        answer_of_one(value, number, places),
        sign_of_one(value, number),
        ignores_range,
    )
}

/// Returns the result of a computation with one register that contains no number: zero for `Unit`, otherwise the error
/// `fault`.
fn without_number(value: ValueOfOne, fault: LineFault) -> Result<Reg, LineFault>
    ensures { WithoutNumber value fault result }
{
    match value {
        ValueOfOne::Unit => Ok(zero()),
        _ => Err(fault),
    }
}

/// Returns the register content with a value of two numbers, or its error: DATA ERROR, or OUT OF RANGE unless flag 24
/// is set (`ignores_range`).
#[inline(always)]
fn kept_of_two(
    value: ValueOfTwo,
    first: Ten,
    second: Ten,
    ignores_range: bool,
) -> Result<Reg, LineFault>
    ensures { KeptTwo value ignores_range first second result }
{
    match answer_of_two(value, first, second) {
        Ok(answer) => Ok(register(answer)),
        Err(DecimalFault::Data) => Err(LineFault::DataError),
        Err(DecimalFault::Range) => {
            kept_by_flag(ignores_range, sign_of_two(value, first, second))
        }
    }
}

/// Returns the register content that encodes a constant number.
fn always(number: Ten) -> Reg
    ensures { IsAlways (Given (units number)) result }
{
    decimal_is_its_nearest();
    register(number)
}
