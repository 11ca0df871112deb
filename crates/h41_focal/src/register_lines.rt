//! Program lines with a register, for example `RCL` and `STO`.

ghost use Rattle.h41_positions.specs.LabelledMachine.{machine_of};
ghost use Rattle.h41_focal.specs.private.Carrying.{UsesAt};
ghost use Rattle.h41_focal.specs.declared.uses.RegisterUse.TheVariants.{Combine, Exchange, Recall};
ghost use Rattle.h41_focal.specs.declared.uses.RegisterUse.TheVariants.{RecallAlpha, Store};
ghost use Rattle.h41_focal.specs.declared.uses.RegisterUse.TheVariants.{StoreAlpha, View};
ghost use Rattle.h41_focal.specs.private.Searching.{KeepsApart, KeepsRest};

use crate::addresses::X;
use crate::course::{fail, go_on_lifting};
use crate::machine::Machine;
use crate::origin::Origin;
use crate::outcome::LineOutcome;
use h41_rows::{
    ValueOfTwo, append_register, bring_in_from, compute_of_two, exchange, first_six, store_x,
};

/// Executes `RCL`: writes the content of the register at an address to X. If stack lift is on, the stack is lifted
/// first. Stack lift is turned on.
#[inline(always)]
pub fn recall<const REGS: usize>(
    machine: &mut Machine<REGS>,
    origin: Origin,
    address: u16,
) -> LineOutcome
    ensures done { UsesAt origin Recall address (machine_of machine.old)
        (machine_of machine.new) result }
    ensures keeps { KeepsRest machine.old machine.new }
{
    bring_in_from(&mut machine.ram, address, machine.focal.lift);
    go_on_lifting(&mut machine.focal, origin);
    LineOutcome::Done
}

/// Executes `STO`: writes X to the register at an address, and turns stack lift on.
#[inline(always)]
pub fn store<const REGS: usize>(
    machine: &mut Machine<REGS>,
    origin: Origin,
    address: u16,
) -> LineOutcome
    ensures done { UsesAt origin Store address (machine_of machine.old)
        (machine_of machine.new) result }
    ensures keeps { KeepsApart address machine.old machine.new }
{
    store_x(&mut machine.ram, address);
    go_on_lifting(&mut machine.focal, origin);
    LineOutcome::Done
}

/// Executes `ST+`, `ST-`, `ST*` or `ST/`: the register at an address receives the register plus, minus, times or
/// divided by X. X and LAST X are unchanged. The errors are ALPHA DATA, DATA ERROR (division by zero) and OUT OF RANGE;
/// then the outcome is `Failed`, or `Done` if flag 25 was set.
#[inline(always)]
pub fn combine<const REGS: usize>(
    machine: &mut Machine<REGS>,
    origin: Origin,
    value: ValueOfTwo,
    address: u16,
) -> LineOutcome
    ensures done { UsesAt origin (Combine value) address (machine_of machine.old)
        (machine_of machine.new) result }
    ensures keeps { KeepsApart address machine.old machine.new }
{
    match compute_of_two(&machine.ram, value, address, X) {
        Ok(register) => {
            machine.ram.write(address, register);
            go_on_lifting(&mut machine.focal, origin);
            LineOutcome::Done
        }
        Err(fault) => fail(machine, origin, fault),
    }
}

/// Executes `VIEW`: the display shows the register at an address, and the program continues. Stack lift is turned on.
#[inline(always)]
pub fn view<const REGS: usize>(
    machine: &mut Machine<REGS>,
    origin: Origin,
    address: u16,
) -> LineOutcome
    ensures done { UsesAt origin View address (machine_of machine.old)
        (machine_of machine.new) result }
    ensures keeps { KeepsRest machine.old machine.new }
{
    go_on_lifting(&mut machine.focal, origin);
    LineOutcome::ViewedRegister(address)
}

/// Executes `ASTO`: writes the first six characters of ALPHA to the register at an address. ALPHA is unchanged.
/// Stack lift is turned on.
#[inline(always)]
pub fn store_alpha<const REGS: usize>(
    machine: &mut Machine<REGS>,
    origin: Origin,
    address: u16,
) -> LineOutcome
    ensures done { UsesAt origin StoreAlpha address (machine_of machine.old)
        (machine_of machine.new) result }
    ensures keeps { KeepsApart address machine.old machine.new }
{
    let characters = first_six(&machine.ram);
    machine.ram.write(address, characters);
    go_on_lifting(&mut machine.focal, origin);
    LineOutcome::Done
}

/// Executes `ARCL`: appends the text of the register at an address to ALPHA, and turns stack lift on.
#[inline(always)]
pub fn recall_alpha<const REGS: usize>(
    machine: &mut Machine<REGS>,
    origin: Origin,
    address: u16,
) -> LineOutcome
    ensures done { UsesAt origin RecallAlpha address (machine_of machine.old)
        (machine_of machine.new) result }
    ensures keeps { KeepsRest machine.old machine.new }
{
    append_register(&mut machine.ram, address);
    go_on_lifting(&mut machine.focal, origin);
    LineOutcome::Done
}

/// Executes `X<>`: exchanges X and the register at an address, and turns stack lift on.
#[inline(always)]
pub fn exchange_x<const REGS: usize>(
    machine: &mut Machine<REGS>,
    origin: Origin,
    address: u16,
) -> LineOutcome
    ensures done { UsesAt origin Exchange address (machine_of machine.old)
        (machine_of machine.new) result }
    ensures keeps { KeepsApart address machine.old machine.new }
{
    exchange(&mut machine.ram, address);
    go_on_lifting(&mut machine.focal, origin);
    LineOutcome::Done
}
