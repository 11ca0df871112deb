//! Executing functions with an operand, for example `RCL 05` or `FIX IND 02`.

ghost use Rattle.std.specs.Prelude.{◌≡◌, false, OnErr, IsTrue};
ghost use Rattle.h41_positions.specs.LabelledMachine.{machine_of};
ghost use Rattle.h41_focal.specs.private.Carrying.{TakenBy, UsesDigits, UsesFlag};
ghost use Rattle.h41_focal.specs.private.Carrying.{UsesAddress};
ghost use Rattle.h41_focal.specs.private.Searching.{KeepsRest};
ghost use Rattle.h41_pages.specs.PageMap.{PageMap};
ghost use Rattle.h41_rows.specs.Profile.{is_operand_left_out, is_parameter_left_out};
ghost use Rattle.h41_rows.specs.Profile.{is_use_left_out};
ghost use Rattle.h41_ram.specs.RegisterMap.{is_sound};

use crate::course::fail;
use crate::flag_lines::use_flag;
use crate::machine::Machine;
use crate::mode_lines::use_digits;
use crate::origin::Origin;
use crate::outcome::LineOutcome;
use crate::rare_lines::{digits_line, flag_line};
use crate::refusal::FocalRefusal;
use crate::register_uses::use_register;
use crate::stack_lines::be_silent;
use crate::uses::{DigitsUse, FlagUse, OperandUse, RegisterUse, use_of};
use h41_codes::{Operand, Parameter, ParameterFunction};
use h41_pages::Pages;
use h41_rows::{digit_of, flag_of, register_of};

/// Executes a function with an operand, and returns its outcome. NotInProfile (13) if the bench does not
/// support the function or the register of the operand; BrokenProgram (14) if the line that a test or loop skips cannot
/// be read. After these errors nothing has changed. This is a function of its own so that the machine code for other
/// short lines remains small.
#[inline(never)]
pub fn with_operand<const REGS: usize>(
    machine: &mut Machine<REGS>,
    pages: &Pages,
    origin: Origin,
    function: ParameterFunction,
    operand: Operand,
) -> Result<LineOutcome, FocalRefusal>
    requires { IsTrue (is_sound machine.old.ram.registers) }
    ensures taken { TakenBy pages.now origin function operand (machine_of machine.old)
        (machine_of machine.new) result }
    ensures unchanged { OnErr result (machine.new ≡ machine.old) }
    ensures keeps { KeepsRest machine.old machine.new }
{
    if is_left_out(function, &operand) {
        return Err(FocalRefusal::NotInProfile);
    }
    match use_of(function) {
        OperandUse::Register(taken) => with_register(machine, pages, origin, taken, &operand),
        OperandUse::Digits(taken) => digits_line(machine, origin, taken, operand),
        OperandUse::Flag(taken) => flag_line(machine, pages, origin, taken, operand),
        OperandUse::Label => Ok(be_silent(machine, origin)),
    }
}

/// Returns whether the bench does not support a function with this operand: `SREG`, or an operand with a register from
/// 100 on, except T, Z, Y, X and L.
#[inline(always)]
fn is_left_out(function: ParameterFunction, operand: &Operand) -> bool
    ensures { result ≡ is_use_left_out function operand.now }
{
    match function {
        ParameterFunction::StatisticsRegisters => true,
        ParameterFunction::Label => false,
        _ => match operand {
            Operand::Direct(parameter) => is_parameter_out(*parameter),
            Operand::Indirect(parameter) => is_parameter_out(*parameter),
        },
    }
}

/// Returns whether the bench does not support the register that a parameter names. These are the parameters 100 to 111
/// and those from 117 on; 112 to 116 are T, Z, Y, X and L.
pub fn is_parameter_out(parameter: Parameter) -> bool
    ensures { result ≡ is_parameter_left_out parameter }
{
    let number = parameter.number();
    (100 <= number && number <= 111) || 117 <= number
}

/// Executes a function with a register, for example `RCL` or `ISG`, with the register that the operand names. If there
/// is no such data register, the error is NONEXISTENT; ALPHA DATA if the register of an indirect operand contains no
/// number. BrokenProgram (14) if the line that a loop skips cannot be read; nothing changes then.
#[inline(always)]
fn with_register<const REGS: usize>(
    machine: &mut Machine<REGS>,
    pages: &Pages,
    origin: Origin,
    taken: RegisterUse,
    operand: &Operand,
) -> Result<LineOutcome, FocalRefusal>
    requires sound { IsTrue (is_sound machine.old.ram.registers) }
    requires held { is_operand_left_out operand.now ≡ false }
    ensures used { UsesAddress pages.now origin taken operand.now (machine_of machine.old)
        (machine_of machine.new) result }
    ensures unchanged { OnErr result (machine.new ≡ machine.old) }
    ensures keeps { KeepsRest machine.old machine.new }
{
    match register_of(&machine.ram, operand) {
        Ok(address) => use_register(machine, pages, origin, taken, address),
        Err(fault) => Ok(fail(machine, origin, fault)),
    }
}

/// Executes `FIX`, `SCI`, `ENG` or `TONE` with the digit that the operand names. If it is above 9, the error is DATA
/// ERROR; NONEXISTENT or ALPHA DATA if the register of an indirect operand does not exist or contains no number.
#[inline(never)]
pub fn with_digits<const REGS: usize>(
    machine: &mut Machine<REGS>,
    origin: Origin,
    taken: DigitsUse,
    operand: Operand,
) -> Result<LineOutcome, FocalRefusal>
    requires { is_operand_left_out operand ≡ false }
    ensures used { (pages : PageMap) → UsesDigits pages origin taken operand
        (machine_of machine.old) (machine_of machine.new) result }
    ensures unchanged { OnErr result (machine.new ≡ machine.old) }
    ensures keeps { KeepsRest machine.old machine.new }
{
    match digit_of(&machine.ram, &operand) {
        Ok(digits) => Ok(use_digits(machine, origin, taken, digits)),
        Err(fault) => Ok(fail(machine, origin, fault)),
    }
}

/// Executes a function with a flag, for example `SF` or `FS?`, with the flag that the operand names. If there is no
/// such flag, the error is NONEXISTENT; ALPHA DATA if the register of an indirect operand contains no number.
/// BrokenProgram (14) if the line that a test skips cannot be read; nothing changes then.
#[inline(never)]
pub fn with_flag<const REGS: usize>(
    machine: &mut Machine<REGS>,
    pages: &Pages,
    origin: Origin,
    taken: FlagUse,
    operand: Operand,
) -> Result<LineOutcome, FocalRefusal>
    requires sound { IsTrue (is_sound machine.old.ram.registers) }
    requires held { is_operand_left_out operand ≡ false }
    ensures used { UsesFlag pages.now origin taken operand (machine_of machine.old)
        (machine_of machine.new) result }
    ensures unchanged { OnErr result (machine.new ≡ machine.old) }
    ensures keeps { KeepsRest machine.old machine.new }
{
    match flag_of(&machine.ram, &operand, taken.highest()) {
        Ok(flag) => use_flag(machine, pages, origin, taken, flag),
        Err(fault) => Ok(fail(machine, origin, fault)),
    }
}
