//! Program lines that change the stack or clear data registers, number lines, and lines that do nothing.

ghost use Rattle.std.specs.Prelude.{◌≡◌, ℕ, List};
ghost use Rattle.h41_codes.specs.declared.characters.Character.{Character};
ghost use Rattle.h41_codes.specs.declared.line.Line.TheVariants as lines;
ghost use Rattle.h41_positions.specs.LabelledMachine.{machine_of};
ghost use Rattle.h41_focal.specs.private.Carrying.{DoesLine, DoesWork, LeavesRow};
ghost use Rattle.h41_focal.specs.private.Carrying.{on_to_next};
ghost use Rattle.h41_rows.specs.Computing.{IsAlways};
ghost use Rattle.h41_rows.specs.Rows.{lifting_row, silent_row};
ghost use Rattle.h41_rows.specs.Values.{Written};
ghost use Rattle.h41_focal.specs.private.StackMoves.{Moves};
ghost use Rattle.h41_focal.specs.private.Works.{move_row};
ghost use Rattle.h41_focal.specs.declared.works.FunctionWork.TheVariants.{ClearRegisters, Move};
ghost use Rattle.h41_focal.specs.private.Searching.{KeepsRest};
ghost use Rattle.h41_ram.specs.RamState.{KeepsMark};
ghost use Rattle.h41_rows.specs.RowMarks.{LeavesMark};

use crate::addresses::{LAST_X, Y};
use crate::course::{go_on, go_on_lifting};
use crate::machine::Machine;
use crate::origin::Origin;
use crate::outcome::LineOutcome;
use crate::works::Movement;
use h41_digits::Reg;
use h41_positions::Focal;
use h41_ram::{Ram, StatusRegister};
use h41_rows::{
    bring_in, bring_in_from, clear_data, clear_stack, enter, exchange, pi, roll_down, roll_up, zero,
};

/// Executes `X<>Y`, `R^`, `RDN`, `LASTX`, `ENTER^`, `PI`, `CLST` or `CLX`. If stack lift is on, the stack is lifted
/// before `LASTX` and `PI` write to X. Stack lift is off after `ENTER^` and `CLX`, and on after the others.
#[inline(always)]
pub fn move_stack<const REGS: usize>(
    machine: &mut Machine<REGS>,
    origin: Origin,
    movement: Movement,
) -> LineOutcome
    ensures done { DoesWork origin (Move movement) (machine_of machine.old)
        (machine_of machine.new) result }
    ensures keeps { KeepsRest machine.old machine.new }
{
    move_registers(&mut machine.ram, movement, machine.focal.lift);
    go_on_after_movement(&mut machine.focal, origin, movement);
    LineOutcome::Done
}

/// Changes the stack as `X<>Y`, `R^`, `RDN`, `LASTX`, `ENTER^`, `PI`, `CLST` or `CLX` does. If `lift` is true, the
/// stack is lifted before `LASTX` and `PI` write to X.
#[inline(always)]
fn move_registers<const REGS: usize>(ram: &mut Ram<REGS>, movement: Movement, lift: bool)
    ensures change { Moves movement ram.old.registers ram.new.registers lift }
    ensures mark { KeepsMark ram.old ram.new }
    ensures left { LeavesMark ram.old ram.new }
{
    match movement {
        Movement::Exchange => exchange(ram, Y),
        Movement::RollUp => roll_up(ram),
        Movement::RollDown => roll_down(ram),
        Movement::LastX => bring_in_from(ram, LAST_X, lift),
        Movement::Enter => enter(ram),
        Movement::Pi => bring_in(ram, pi(), lift),
        Movement::ClearStack => clear_stack(ram, zero()),
        Movement::ClearX => ram.set_status_register(StatusRegister::X, zero()),
    }
}

/// Moves to the next line after a function that changes the stack; a typed line leaves the position unchanged.
/// Stack lift is off after `ENTER^` and `CLX`, so that the next number replaces X, and on after the others.
#[inline(always)]
fn go_on_after_movement(focal: &mut Focal, origin: Origin, movement: Movement)
    ensures state { focal.new.state
        ≡ on_to_next origin (move_row movement).lift focal.old.state }
    ensures labels { focal.new.labels ≡ focal.old.labels }
{
    match movement {
        Movement::Enter | Movement::ClearX => {
            go_on(focal, origin);
            focal.lift = false;
        }
        Movement::Exchange
        | Movement::RollUp
        | Movement::RollDown
        | Movement::LastX
        | Movement::Pi
        | Movement::ClearStack => go_on_lifting(focal, origin),
    }
}

/// Executes a number line: writes its number, which `number` contains, to X. If stack lift is on, the stack is lifted
/// first. Stack lift is turned on.
pub fn number_line<const REGS: usize>(
    machine: &mut Machine<REGS>,
    origin: Origin,
    number: Reg,
) -> LineOutcome
    ensures done { (text : List Character) → IsAlways (Written text) number
        → DoesLine origin (lines.Number text) (machine_of machine.old)
        (machine_of machine.new) result }
    ensures keeps { KeepsRest machine.old machine.new }
{
    bring_in(&mut machine.ram, number, machine.focal.lift);
    go_on_lifting(&mut machine.focal, origin);
    LineOutcome::Done
}

/// Executes `CLRG`: all data registers become zero. Stack lift is turned on.
pub fn clear_registers<const REGS: usize>(
    machine: &mut Machine<REGS>,
    origin: Origin,
) -> LineOutcome
    ensures done { DoesWork origin ClearRegisters (machine_of machine.old)
        (machine_of machine.new) result }
    ensures keeps { KeepsRest machine.old machine.new }
{
    clear_data(&mut machine.ram);
    go_on_lifting(&mut machine.focal, origin);
    LineOutcome::Done
}

/// Executes a line that has no effect except that it turns stack lift on. The program continues at the next line; a
/// typed line leaves the position unchanged.
pub fn do_nothing<const REGS: usize>(machine: &mut Machine<REGS>, origin: Origin) -> LineOutcome
    ensures done { LeavesRow origin lifting_row (machine_of machine.old)
        (machine_of machine.new) result }
    ensures keeps { KeepsRest machine.old machine.new }
{
    go_on_lifting(&mut machine.focal, origin);
    LineOutcome::Done
}

/// Executes a line that has no effect, not even on stack lift, for example `LBL`. The program continues at the next
/// line; a typed line leaves the position unchanged.
#[inline(always)]
pub fn be_silent<const REGS: usize>(machine: &mut Machine<REGS>, origin: Origin) -> LineOutcome
    ensures done { LeavesRow origin silent_row (machine_of machine.old)
        (machine_of machine.new) result }
    ensures keeps { KeepsRest machine.old machine.new }
{
    go_on(&mut machine.focal, origin);
    LineOutcome::Done
}
