//! Program lines that count in a register (`ISG` and `DSE`), and skip the next line when their loop ends.

ghost use Rattle.std.specs.Prelude.{IsTrue, ◌≡◌, OnErr};
ghost use Rattle.h41_positions.specs.LabelledMachine.{machine_of};
ghost use Rattle.h41_focal.specs.private.Carrying.{DoesUse};
ghost use Rattle.h41_focal.specs.declared.uses.RegisterUse.TheVariants.{CountDown, CountUp};
ghost use Rattle.h41_focal.specs.private.Searching.{KeepsApart};
ghost use Rattle.h41_ram.specs.RegisterMap.{is_sound};

use crate::course::{fail, go_on_lifting};
use crate::machine::Machine;
use crate::origin::Origin;
use crate::outcome::LineOutcome;
use crate::questions::lead;
use crate::refusal::FocalRefusal;
use h41_pages::Pages;
use h41_rows::{loop_down, loop_up};

/// Executes `ISG` with the register at an address: its counter is increased. While the loop continues, the program
/// continues at the next line, otherwise at the one after it; a typed line does not move. If the register contains no
/// number, the error is ALPHA DATA. BrokenProgram (14) if the line to be skipped cannot be read; nothing changes then.
#[inline(always)]
pub fn count_up<const REGS: usize>(
    machine: &mut Machine<REGS>,
    pages: &Pages,
    origin: Origin,
    address: u16,
) -> Result<LineOutcome, FocalRefusal>
    requires { IsTrue (is_sound machine.old.ram.registers) }
    ensures carried { DoesUse pages.now origin CountUp address (machine_of machine.old)
        (machine_of machine.new) result }
    ensures unchanged { OnErr result (machine.new ≡ machine.old) }
    ensures keeps { KeepsApart address machine.old machine.new }
{
    match loop_up(&machine.ram, address) {
        Ok(counted) => {
            let lead = lead(&machine.ram, pages, origin, counted.goes_on)?;
            machine.ram.write(address, counted.register);
            go_on_lifting(&mut machine.focal, lead);
            Ok(LineOutcome::Done)
        }
        Err(fault) => Ok(fail(machine, origin, fault)),
    }
}

/// Executes `DSE` with the register at an address: its counter is decreased. While the loop continues, the program
/// continues at the next line, otherwise at the one after it; a typed line does not move. If the register contains no
/// number, the error is ALPHA DATA. BrokenProgram (14) if the line to be skipped cannot be read; nothing changes then.
#[inline(always)]
pub fn count_down<const REGS: usize>(
    machine: &mut Machine<REGS>,
    pages: &Pages,
    origin: Origin,
    address: u16,
) -> Result<LineOutcome, FocalRefusal>
    requires { IsTrue (is_sound machine.old.ram.registers) }
    ensures carried { DoesUse pages.now origin CountDown address (machine_of machine.old)
        (machine_of machine.new) result }
    ensures unchanged { OnErr result (machine.new ≡ machine.old) }
    ensures keeps { KeepsApart address machine.old machine.new }
{
    match loop_down(&machine.ram, address) {
        Ok(counted) => {
            let lead = lead(&machine.ram, pages, origin, counted.goes_on)?;
            machine.ram.write(address, counted.register);
            go_on_lifting(&mut machine.focal, lead);
            Ok(LineOutcome::Done)
        }
        Err(fault) => Ok(fail(machine, origin, fault)),
    }
}
