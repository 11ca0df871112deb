//! The tests that compare X with Y or with zero.

ghost use Rattle.std.specs.Prelude.{◌≡◌, int_le, int_lt};
ghost use Rattle.std.specs.Option.{option_map};
ghost use Rattle.h41_decimal.specs.Holding.{holding_of, worth};
ghost use Rattle.h41_decimal.specs.Units.{units};
ghost use Rattle.h41_ram.specs.NamedRegisters.{status_of};
ghost use Rattle.h41_ram.specs.declared.status.StatusRegister.TheVariants as names;
ghost use Rattle.h41_rows.specs.private.Comparisons.{answer_of_comparison};
ghost use Rattle.h41_rows.specs.Computing.{Tells, condition_of};

use crate::fault::LineFault;
use h41_decimal::Ten;
use h41_digits::Reg;
use h41_ram::{Ram, StatusRegister};

/// A test that compares X with Y or with 0.
#[derive(Clone, Copy, Debug, PartialEq, Eq)]
pub enum Test {
    /// `X=Y?`: the registers X and Y are the same, digit for digit.
    XEqualsY,
    /// `X#Y?`: the registers X and Y differ in at least one digit.
    XDiffersFromY,
    /// `X<Y?`: the number in X is less than the number in Y.
    XLessThanY,
    /// `X>Y?`: the number in X is greater than the number in Y.
    XGreaterThanY,
    /// `X<=Y?`: the number in X is at most the number in Y.
    XAtMostY,
    /// `X=0?`: X contains 0.
    XZero,
    /// `X#0?`: X does not contain 0.
    XNotZero,
    /// `X>0?`: the number in X is positive.
    XPositive,
    /// `X<0?`: the number in X is negative.
    XNegative,
    /// `X<=0?`: the number in X is at most 0.
    XAtMostZero,
}

/// Returns whether a test of X is true. The error is ALPHA DATA if the test compares numbers and one of its registers
/// contains none; `X=Y?`, `X#Y?`, `X=0?` and `X#0?` need no numbers.
pub fn asks<const REGS: usize>(ram: &Ram<REGS>, test: Test) -> Result<bool, LineFault>
    ensures { Tells ram.now.registers (condition_of test) result }
{
    match test {
        Test::XEqualsY => Ok(x(ram) == y(ram)),
        Test::XDiffersFromY => Ok(x(ram) != y(ram)),
        Test::XLessThanY => below(x(ram), y(ram)),
        Test::XGreaterThanY => below(y(ram), x(ram)),
        Test::XAtMostY => at_most(x(ram), y(ram)),
        Test::XZero => Ok(x(ram) == Reg::zero()),
        Test::XNotZero => Ok(x(ram) != Reg::zero()),
        Test::XPositive => below(Reg::zero(), x(ram)),
        Test::XNegative => below(x(ram), Reg::zero()),
        Test::XAtMostZero => at_most(x(ram), Reg::zero()),
    }
}

/// Returns the content of the register X.
#[inline(always)]
fn x<const REGS: usize>(ram: &Ram<REGS>) -> Reg
    ensures { result ≡ status_of ram.now.registers names.X }
{
    ram.status_register(StatusRegister::X)
}

/// Returns the content of the register Y.
#[inline(always)]
fn y<const REGS: usize>(ram: &Ram<REGS>) -> Reg
    ensures { result ≡ status_of ram.now.registers names.Y }
{
    ram.status_register(StatusRegister::Y)
}

/// Returns whether the number in the register content `x` is less than that in `y`. ALPHA DATA if one of them contains
/// no number. All sizes of memory share this machine code.
#[inline(never)]
fn below(x: Reg, y: Reg) -> Result<bool, LineFault>
    ensures { result ≡ answer_of_comparison int_lt (worth (holding_of x)) (worth (holding_of y)) }
{
    numbers_below(Ten::from_reg(x), Ten::from_reg(y))
}

/// Returns whether the number in the register content `x` is at most that in `y`. ALPHA DATA if one of them contains no
/// number. All sizes of memory share this machine code.
#[inline(never)]
fn at_most(x: Reg, y: Reg) -> Result<bool, LineFault>
    ensures { result ≡ answer_of_comparison int_le (worth (holding_of x)) (worth (holding_of y)) }
{
    numbers_at_most(Ten::from_reg(x), Ten::from_reg(y))
}

/// Returns whether the number `x` is less than the number `y`. ALPHA DATA if one of them is `None`.
#[inline(always)]
fn numbers_below(x: Option<Ten>, y: Option<Ten>) -> Result<bool, LineFault>
    ensures { result ≡ answer_of_comparison int_lt (option_map units x) (option_map units y) }
{
    match (x, y) {
        (Some(x), Some(y)) => Ok(x.cmp(y).is_lt()),
        _ => Err(LineFault::AlphaData),
    }
}

/// Returns whether the number `x` is at most the number `y`. ALPHA DATA if one of them is `None`.
#[inline(always)]
fn numbers_at_most(x: Option<Ten>, y: Option<Ten>) -> Result<bool, LineFault>
    ensures { result ≡ answer_of_comparison int_le (option_map units x) (option_map units y) }
{
    match (x, y) {
        (Some(x), Some(y)) => Ok(x.cmp(y).is_le()),
        _ => Err(LineFault::AlphaData),
    }
}
