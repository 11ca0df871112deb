//! Program lines with a flag, which set, clear or test it.

ghost use Rattle.std.specs.Prelude.{◌≡◌, ℕ, ◌<◌, OnErr, IsTrue};
ghost use Rattle.h41_positions.specs.LabelledMachine.{machine_of};
ghost use Rattle.h41_focal.specs.private.Carrying.{CarriesFlag, ClearsFlag};
ghost use Rattle.h41_rows.specs.RowEffects.{agrees};
ghost use Rattle.h41_focal.specs.declared.uses.FlagUse.TheVariants.{Ask};
ghost use Rattle.h41_focal.specs.private.Searching.{KeepsRest};
ghost use Rattle.h41_ram.specs.RegisterMap.{flag_of};
ghost use Rattle.h41_ram.specs.RegisterMap.{is_sound};

use crate::course::go_on_lifting;
use crate::machine::Machine;
use crate::origin::Origin;
use crate::outcome::LineOutcome;
use crate::questions::{answer, lead};
use crate::refusal::FocalRefusal;
use crate::uses::FlagUse;
use h41_pages::Pages;
use h41_ram::Ram;

/// Returns whether a flag, 0 to 55, has the state `on`: whether it is set if `on` is true, or clear if `on` is false.
fn agrees_with<const REGS: usize>(ram: &Ram<REGS>, flag: u8, on: bool) -> bool
    requires { flag < 56 }
    ensures { result ≡ agrees on (flag_of ram.now.registers flag) }
{
    let is_set = ram.flag(usize::from(flag));
    if on { is_set } else { !is_set }
}

/// Executes `FS?` (`on` is true) or `FC?` (`on` is false) with a flag, 0 to 55: if the flag is set or clear, as asked,
/// the program continues at the next line, otherwise at the one after it. A typed line returns the answer (`Answered`)
/// instead. Stack lift is turned on. BrokenProgram (14) if the line to be skipped cannot be read; nothing changes then.
fn ask_flag<const REGS: usize>(
    machine: &mut Machine<REGS>,
    pages: &Pages,
    origin: Origin,
    flag: u8,
    on: bool,
) -> Result<LineOutcome, FocalRefusal>
    requires flag { flag < 56 }
    requires sound { IsTrue (is_sound machine.old.ram.registers) }
    ensures carried { CarriesFlag pages.now origin (Ask on) flag (machine_of machine.old)
        (machine_of machine.new) result }
    ensures unchanged { OnErr result (machine.new ≡ machine.old) }
    ensures keeps { KeepsRest machine.old machine.new }
{
    let holds = agrees_with(&machine.ram, flag, on);
    let lead = lead(&machine.ram, pages, origin, holds)?;
    go_on_lifting(&mut machine.focal, lead);
    Ok(answer(origin, holds))
}

/// Executes `FS?C` (`on` is true) or `FC?C` (`on` is false) with a flag, 0 to 55: if the flag is set or clear, as
/// asked, the program continues at the next line, otherwise at the one after it. A typed line returns the answer
/// (`Answered`) instead. The flag is then cleared, and stack lift turned on. BrokenProgram (14) if the line to be
/// skipped cannot be read; nothing changes then.
fn ask_and_clear_flag<const REGS: usize>(
    machine: &mut Machine<REGS>,
    pages: &Pages,
    origin: Origin,
    flag: u8,
    on: bool,
) -> Result<LineOutcome, FocalRefusal>
    requires flag { flag < 56 }
    requires sound { IsTrue (is_sound machine.old.ram.registers) }
    ensures carried { ClearsFlag pages.now origin on flag (machine_of machine.old)
        (machine_of machine.new) result }
    ensures unchanged { OnErr result (machine.new ≡ machine.old) }
    ensures keeps { KeepsRest machine.old machine.new }
{
    let holds = agrees_with(&machine.ram, flag, on);
    let lead = lead(&machine.ram, pages, origin, holds)?;
    machine.ram.set_flag(usize::from(flag), false);
    go_on_lifting(&mut machine.focal, lead);
    Ok(answer(origin, holds))
}

/// Executes a function with a flag, 0 to 55: `SF`, `CF`, `FS?`, `FC?`, `FS?C` or `FC?C`. BrokenProgram (14) if the line
/// that a test skips cannot be read; nothing changes then.
pub fn use_flag<const REGS: usize>(
    machine: &mut Machine<REGS>,
    pages: &Pages,
    origin: Origin,
    taken: FlagUse,
    flag: u8,
) -> Result<LineOutcome, FocalRefusal>
    requires flag { flag < 56 }
    requires sound { IsTrue (is_sound machine.old.ram.registers) }
    ensures carried { CarriesFlag pages.now origin taken flag (machine_of machine.old)
        (machine_of machine.new) result }
    ensures unchanged { OnErr result (machine.new ≡ machine.old) }
    ensures keeps { KeepsRest machine.old machine.new }
{
    match taken {
        FlagUse::Change(on) => {
            machine.ram.set_flag(usize::from(flag), on);
            go_on_lifting(&mut machine.focal, origin);
            Ok(LineOutcome::Done)
        }
        FlagUse::Ask(on) => ask_flag(machine, pages, origin, flag, on),
        FlagUse::AskAndClear(on) => ask_and_clear_flag(machine, pages, origin, flag, on),
    }
}
