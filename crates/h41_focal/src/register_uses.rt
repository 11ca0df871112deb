//! Executing a function with a register, after the address of the register is known.

ghost use Rattle.std.specs.Prelude.{IsTrue, ◌≡◌, OnErr};
ghost use Rattle.h41_positions.specs.LabelledMachine.{machine_of};
ghost use Rattle.h41_focal.specs.private.Carrying.{DoesUse};
ghost use Rattle.h41_focal.specs.private.Searching.{KeepsApart};
ghost use Rattle.h41_ram.specs.RegisterMap.{is_sound};

use crate::loop_lines::{count_down, count_up};
use crate::machine::Machine;
use crate::origin::Origin;
use crate::outcome::LineOutcome;
use crate::refusal::FocalRefusal;
use crate::register_lines::{combine, exchange_x, recall, recall_alpha, store, store_alpha, view};
use crate::uses::RegisterUse;
use h41_pages::Pages;

/// Executes a function with the register at an address, for example `RCL`, `ST+` or `ISG`. BrokenProgram (14) if the
/// line that `ISG` or `DSE` skips cannot be read; nothing changes then.
#[inline(always)]
pub fn use_register<const REGS: usize>(
    machine: &mut Machine<REGS>,
    pages: &Pages,
    origin: Origin,
    taken: RegisterUse,
    address: u16,
) -> Result<LineOutcome, FocalRefusal>
    requires { IsTrue (is_sound machine.old.ram.registers) }
    ensures carried { DoesUse pages.now origin taken address (machine_of machine.old)
        (machine_of machine.new) result }
    ensures unchanged { OnErr result (machine.new ≡ machine.old) }
    ensures keeps { KeepsApart address machine.old machine.new }
{
    match taken {
        RegisterUse::Recall => Ok(recall(machine, origin, address)),
        RegisterUse::Store => Ok(store(machine, origin, address)),
        RegisterUse::Combine(value) => Ok(combine(machine, origin, value, address)),
        RegisterUse::CountUp => count_up(machine, pages, origin, address),
        RegisterUse::CountDown => count_down(machine, pages, origin, address),
        RegisterUse::View => Ok(view(machine, origin, address)),
        RegisterUse::StoreAlpha => Ok(store_alpha(machine, origin, address)),
        RegisterUse::RecallAlpha => Ok(recall_alpha(machine, origin, address)),
        RegisterUse::Exchange => Ok(exchange_x(machine, origin, address)),
    }
}
