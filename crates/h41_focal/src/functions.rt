//! Executing functions without an operand, for example `+` or `CLX`.

ghost use Rattle.std.specs.Prelude.{◌≡◌, OnErr, IsTrue};
ghost use Rattle.h41_positions.specs.LabelledMachine.{machine_of};
ghost use Rattle.h41_focal.specs.private.Carrying.{TakesAs};
ghost use Rattle.h41_focal.specs.private.Searching.{KeepsRest};
ghost use Rattle.h41_codes.specs.declared.line.Line.TheVariants.{Plain};
ghost use Rattle.h41_ram.specs.RegisterMap.{is_sound};

use crate::alpha_lines::change_alpha;
use crate::arithmetic::{change_sign, of_x, of_y_and_x, percent, square};
use crate::display_lines::show;
use crate::labels::go_back;
use crate::machine::Machine;
use crate::mode_lines::set_angle_unit;
use crate::origin::Origin;
use crate::outcome::LineOutcome;
use crate::questions::ask;
use crate::rare_lines::other_function;
use crate::refusal::FocalRefusal;
use crate::stack_lines::{clear_registers, do_nothing, move_stack};
use crate::works::{FunctionWork, work_of};
use h41_codes::Function;
use h41_pages::Pages;

/// Executes a function without an operand and returns its outcome. NotInProfile (13) if the bench does
/// not support the function; BrokenProgram (14) if the line that a test skips cannot be read. After these errors
/// nothing has changed.
#[inline(never)]
pub fn plain<const REGS: usize>(
    machine: &mut Machine<REGS>,
    pages: &Pages,
    origin: Origin,
    function: Function,
) -> Result<LineOutcome, FocalRefusal>
    requires { IsTrue (is_sound machine.old.ram.registers) }
    ensures taken { TakesAs pages.now origin (Plain function) (machine_of machine.old)
        (machine_of machine.new) result }
    ensures unchanged { OnErr result (machine.new ≡ machine.old) }
    ensures keeps { KeepsRest machine.old machine.new }
{
    match work_of(function) {
        Some(work) => match work {
            FunctionWork::OfYAndX(value) => Ok(of_y_and_x(machine, origin, value)),
            FunctionWork::OfX(value) => Ok(of_x(machine, origin, value)),
            FunctionWork::Square => Ok(square(machine, origin)),
            FunctionWork::Percent => Ok(percent(machine, origin)),
            FunctionWork::ChangeSign => Ok(change_sign(machine, origin)),
            FunctionWork::Ask(test) => ask(machine, pages, origin, test),
            FunctionWork::Move(movement) => Ok(move_stack(machine, origin, movement)),
            FunctionWork::Alpha(work) => Ok(change_alpha(machine, origin, work)),
            FunctionWork::Display(work) => Ok(show(machine, origin, work)),
            FunctionWork::Angles(grads, radians) => Ok(set_angle_unit(
                machine, origin, grads, radians,
            )),
            FunctionWork::ClearRegisters => Ok(clear_registers(machine, origin)),
            FunctionWork::Return => Ok(go_back(machine, pages, origin)),
            FunctionWork::Nothing => Ok(do_nothing(machine, origin)),
        },
        None => Err(FocalRefusal::NotInProfile),
    }
}

/// Executes a function without an operand, as `plain` does. The functions that are most frequent in programs are
/// executed here, all others by `plain`.
#[inline(always)]
pub fn plain_at_once<const REGS: usize>(
    machine: &mut Machine<REGS>,
    pages: &Pages,
    origin: Origin,
    function: Function,
) -> Result<LineOutcome, FocalRefusal>
    requires { IsTrue (is_sound machine.old.ram.registers) }
    ensures taken { TakesAs pages.now origin (Plain function) (machine_of machine.old)
        (machine_of machine.new) result }
    ensures unchanged { OnErr result (machine.new ≡ machine.old) }
    ensures keeps { KeepsRest machine.old machine.new }
{
    match work_of(function) {
        Some(FunctionWork::OfYAndX(value)) => Ok(of_y_and_x(machine, origin, value)),
        Some(FunctionWork::OfX(value)) => Ok(of_x(machine, origin, value)),
        Some(FunctionWork::Move(movement)) => Ok(move_stack(machine, origin, movement)),
        Some(FunctionWork::Return) => Ok(go_back(machine, pages, origin)),
        _ => other_function(machine, pages, origin, function),
    }
}
