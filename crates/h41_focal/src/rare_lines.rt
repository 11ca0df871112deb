//! Calls of functions that are compiled on their own, because the lines that they execute are rare in loops. The
//! functions here are inlined into the loop over lines. Each takes the result of its call apart and makes it anew, so
//! that only the rare lines have a result in memory, and the outcome of a frequent line remains in registers.

ghost use Rattle.std.specs.Prelude.{◌≡◌, false, true, OnErr, IsTrue};
ghost use Rattle.h41_codes.specs.declared.line.Line.TheVariants.{BranchIndirect, Plain};
ghost use Rattle.h41_focal.specs.private.Carrying.{CallsEntry, TakenBy, TakesAs, TakesBranch};
ghost use Rattle.h41_focal.specs.private.Carrying.{UsesDigits, UsesFlag};
ghost use Rattle.h41_focal.specs.private.Searching.{AsksOf, KeepsRest};
ghost use Rattle.h41_labels.specs.KeptAnswers.{IsRight};
ghost use Rattle.h41_pages.specs.FunctionTables.{entry_at};
ghost use Rattle.h41_pages.specs.PageMap.{PageMap};
ghost use Rattle.h41_positions.specs.LabelledMachine.{machine_of};
ghost use Rattle.h41_ram.specs.RegisterMap.{is_sound};
ghost use Rattle.h41_rows.specs.Profile.{is_operand_left_out};

use crate::calls::call_module;
use crate::functions::plain;
use crate::lines::indirect;
use crate::machine::Machine;
use crate::operand_lines::{with_digits, with_flag, with_operand};
use crate::origin::Origin;
use crate::outcome::LineOutcome;
use crate::refusal::FocalRefusal;
use crate::uses::{DigitsUse, FlagUse};
use h41_codes::{
    Branch, EntryNumber, Function, ModuleNumber, Operand, Parameter, ParameterFunction,
};
use h41_pages::Pages;

/// Executes a function without an operand, as `plain` does.
#[inline(always)]
pub fn other_function<const REGS: usize>(
    machine: &mut Machine<REGS>,
    pages: &Pages,
    origin: Origin,
    function: Function,
) -> Result<LineOutcome, FocalRefusal>
    requires { IsTrue (is_sound machine.old.ram.registers) }
    ensures taken { TakesAs pages.now origin (Plain function) (machine_of machine.old)
        (machine_of machine.new) result }
    ensures unchanged { OnErr result (machine.new ≡ machine.old) }
    ensures keeps { KeepsRest machine.old machine.new }
{
    match plain(machine, pages, origin, function) {
        Ok(outcome) => Ok(outcome),
        Err(refusal) => Err(refusal),
    }
}

/// Executes a function with an operand, as `with_operand` does.
#[inline(always)]
pub fn operand_line<const REGS: usize>(
    machine: &mut Machine<REGS>,
    pages: &Pages,
    origin: Origin,
    function: ParameterFunction,
    operand: Operand,
) -> Result<LineOutcome, FocalRefusal>
    requires { IsTrue (is_sound machine.old.ram.registers) }
    ensures taken { TakenBy pages.now origin function operand (machine_of machine.old)
        (machine_of machine.new) result }
    ensures unchanged { OnErr result (machine.new ≡ machine.old) }
    ensures keeps { KeepsRest machine.old machine.new }
{
    match with_operand(machine, pages, origin, function, operand) {
        Ok(outcome) => Ok(outcome),
        Err(refusal) => Err(refusal),
    }
}

/// Executes an XROM line, as `call_module` does.
#[inline(always)]
pub fn module_line<const REGS: usize>(
    machine: &mut Machine<REGS>,
    pages: &Pages,
    origin: Origin,
    number: ModuleNumber,
    entry: EntryNumber,
) -> LineOutcome
    ensures done { CallsEntry origin true (entry_at pages.now number entry)
        (machine_of machine.old) (machine_of machine.new) result }
    ensures keeps { KeepsRest machine.old machine.new }
{
    call_module(machine, pages, origin, number, entry)
}

/// Executes `GTO IND` or `XEQ IND`, as `indirect` does.
#[inline(always)]
pub fn indirect_line<const REGS: usize>(
    machine: &mut Machine<REGS>,
    pages: &Pages,
    origin: Origin,
    branch: Branch,
    register: Parameter,
) -> Result<LineOutcome, FocalRefusal>
    requires sound { IsTrue (is_sound machine.old.ram.registers) }
    requires right { IsRight machine.old.focal.labels machine.old.ram.registers }
    ensures taken { TakesBranch pages.now origin branch register (machine_of machine.old)
        (machine_of machine.new) result }
    ensures unchanged { OnErr result (machine_of machine.new ≡ machine_of machine.old) }
    ensures kept { AsksOf origin (BranchIndirect branch register) machine.old machine.new }
{
    match indirect(machine, pages, origin, branch, register) {
        Ok(outcome) => Ok(outcome),
        Err(refusal) => Err(refusal),
    }
}

/// Executes `FIX`, `SCI`, `ENG` or `TONE`, as `with_digits` does.
#[inline(always)]
pub fn digits_line<const REGS: usize>(
    machine: &mut Machine<REGS>,
    origin: Origin,
    taken: DigitsUse,
    operand: Operand,
) -> Result<LineOutcome, FocalRefusal>
    requires { is_operand_left_out operand ≡ false }
    ensures used { (pages : PageMap) → UsesDigits pages origin taken operand
        (machine_of machine.old) (machine_of machine.new) result }
    ensures unchanged { OnErr result (machine.new ≡ machine.old) }
    ensures keeps { KeepsRest machine.old machine.new }
{
    match with_digits(machine, origin, taken, operand) {
        Ok(outcome) => Ok(outcome),
        Err(refusal) => Err(refusal),
    }
}

/// Executes a function with a flag, as `with_flag` does.
#[inline(always)]
pub fn flag_line<const REGS: usize>(
    machine: &mut Machine<REGS>,
    pages: &Pages,
    origin: Origin,
    taken: FlagUse,
    operand: Operand,
) -> Result<LineOutcome, FocalRefusal>
    requires sound { IsTrue (is_sound machine.old.ram.registers) }
    requires held { is_operand_left_out operand ≡ false }
    ensures used { UsesFlag pages.now origin taken operand (machine_of machine.old)
        (machine_of machine.new) result }
    ensures unchanged { OnErr result (machine.new ≡ machine.old) }
    ensures keeps { KeepsRest machine.old machine.new }
{
    match with_flag(machine, pages, origin, taken, operand) {
        Ok(outcome) => Ok(outcome),
        Err(refusal) => Err(refusal),
    }
}
