//! Reads operands of program lines: the registers they name, and the whole numbers in them.

ghost use Rattle.std.specs.Prelude.{◌≡◌, ◌<◌, ◌≤◌, ◌/◌, false, unsigned_abs};
ghost use Rattle.h41_decimal.specs.Holding as holding;
ghost use Rattle.h41_decimal.specs.Units.{one, units};
ghost use Rattle.h41_ram.specs.NamedRegisters.{size_of};
ghost use Rattle.h41_rows.specs.Operands as spec;
ghost use Rattle.h41_rows.specs.Profile.{is_operand_left_out, is_parameter_left_out};
ghost use Rattle.h41_rows.specs.private.Readings.{IsTold, number_found, register_found};
ghost use Rattle.h41_rows.specs.private.Wholes.{told_number};

use crate::fault::LineFault;
use h41_codes::{Operand, Parameter};
use h41_decimal::Ten;
use h41_digits::Reg;
use h41_ram::Ram;

/// The number that is used for all whole numbers from 1000 on, because no operand can be as large.
const MOST_TOLD: u16 = 1000;

/// The parameter that means register T, 112. The parameters from there on are status registers, in the order of their
/// addresses.
const STACK_START: u16 = 112;

/// Returns the memory address of data register `n`. NONEXISTENT if `n` is not below SIZE, the number of data registers,
/// which is at most 512.
pub(crate) fn numbered_register<const REGS: usize>(
    ram: &Ram<REGS>,
    n: u16,
) -> Result<u16, LineFault>
    ensures value { result ≡ spec.data_register ram.now.registers n }
    ensures few { size_of ram.now.registers ≤ 512 }
{
    if n < ram.size() {
        Ok(ram.curtain() + n)
    } else {
        Err(LineFault::Nonexistent)
    }
}

/// Returns the memory address of the register that a parameter means: data register 00 to 99, or from parameter 112 on
/// a status register, beginning with T. NONEXISTENT if there is no such data register.
#[inline(always)]
pub(crate) fn parameter_register<const REGS: usize>(
    ram: &Ram<REGS>,
    parameter: Parameter,
) -> Result<u16, LineFault>
    requires { is_parameter_left_out parameter ≡ false }
    ensures { result ≡ spec.parameter_register ram.now.registers parameter }
{
    let number = u16::from(parameter.number());
    if number < 100 {
        numbered_register(ram, number)
    } else {
        Ok(number - STACK_START)
    }
}

/// Returns the number that an operand means: of a direct operand the number itself, of an indirect one the whole number
/// in the register it names, or 1000 if that is 1000 or more. NONEXISTENT if there is no such register, ALPHA DATA if
/// it contains no number.
pub(crate) fn operand_number<const REGS: usize>(
    ram: &Ram<REGS>,
    operand: &Operand,
) -> Result<u16, LineFault>
    requires { is_operand_left_out operand.now ≡ false }
    ensures { IsTold (spec.number_of ram.now.registers operand.now) result }
{
    match operand {
        Operand::Direct(parameter) => Ok(u16::from(parameter.number())),
        Operand::Indirect(parameter) => parameter_number(ram, *parameter),
    }
}

/// Returns the whole number in the register that a parameter names: the integer part of its absolute value, or 1000 if
/// it is 1000 or more. NONEXISTENT if there is no such register, ALPHA DATA if it contains no number.
fn parameter_number<const REGS: usize>(
    ram: &Ram<REGS>,
    parameter: Parameter,
) -> Result<u16, LineFault>
    requires { is_parameter_left_out parameter ≡ false }
    ensures { IsTold (number_found ram.now.registers parameter) result }
{
    let address = parameter_register(ram, parameter)?;
    whole_in(ram.read(address))
}

/// Returns the memory address of the register that an operand means: of a direct operand the register itself, of an
/// indirect one the data register whose number is in the register it names. NONEXISTENT if there is no such register,
/// ALPHA DATA if the register of an indirect operand contains no number.
#[inline(always)]
pub(crate) fn operand_register<const REGS: usize>(
    ram: &Ram<REGS>,
    operand: &Operand,
) -> Result<u16, LineFault>
    requires { is_operand_left_out operand.now ≡ false }
    ensures { result ≡ spec.address_of ram.now.registers operand.now }
{
    match operand {
        Operand::Direct(parameter) => parameter_register(ram, *parameter),
        Operand::Indirect(parameter) => indirect_register(ram, *parameter),
    }
}

/// Returns the memory address of the data register whose number is in the register that a parameter names. NONEXISTENT
/// if one of the two registers does not exist, ALPHA DATA if the named one contains no number.
#[inline(never)]
fn indirect_register<const REGS: usize>(
    ram: &Ram<REGS>,
    parameter: Parameter,
) -> Result<u16, LineFault>
    requires { is_parameter_left_out parameter ≡ false }
    ensures { result ≡ register_found ram.now.registers parameter }
{
    let number = parameter_number(ram, parameter)?;
    numbered_register(ram, number)
}

/// Returns the integer part of the absolute value of the number in a register, or 1000 if it is 1000 or more. ALPHA
/// DATA if the register contains no number.
fn whole_in(register: Reg) -> Result<u16, LineFault>
    ensures { IsTold (spec.whole_of (holding.worth (holding.holding_of register))) result }
{
    match Ten::from_reg(register) {
        Some(number) => Ok(told_whole(number)),
        None => Err(LineFault::AlphaData),
    }
}

/// Returns the integer part of a number's absolute value, or 1000 if it is 1000 or more.
pub(crate) fn told_whole(number: Ten) -> u16
    ensures { result ≡ told_number (unsigned_abs (units number) / one) }
{
    match number.ones() {
        Some(ones) => told_number(ones),
        None => MOST_TOLD,
    }
}

/// Returns a whole number as 16 bits, or 1000 if it is 1000 or more, because no operand can be as large.
fn told_number(ones: u64) -> u16
    ensures { result ≡ told_number ones }
{
    if ones < 1000 { ones as u16 } else { MOST_TOLD }
}
