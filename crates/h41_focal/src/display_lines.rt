//! Lines that change the display or stop the program.

ghost use Rattle.std.specs.Prelude.{ℕ};
ghost use Rattle.h41_positions.specs.LabelledMachine.{machine_of};
ghost use Rattle.h41_focal.specs.private.Carrying.{DoesWork};
ghost use Rattle.h41_focal.specs.declared.works.FunctionWork.TheVariants.{Display};
ghost use Rattle.h41_focal.specs.private.Searching.{KeepsRest};

use crate::course::{go_on, go_on_lifting};
use crate::machine::Machine;
use crate::origin::Origin;
use crate::outcome::LineOutcome;
use crate::works::DisplayWork;

/// Executes `AVIEW`, `CLD`, `PROMPT`, `STOP` or `OFF`, and returns its outcome. All of them turn stack lift on, except
/// `STOP`, which leaves it unchanged.
pub fn show<const REGS: usize>(
    machine: &mut Machine<REGS>,
    origin: Origin,
    work: DisplayWork,
) -> LineOutcome
    ensures done { DoesWork origin (Display work) (machine_of machine.old)
        (machine_of machine.new) result }
    ensures keeps { KeepsRest machine.old machine.new }
{
    match work {
        DisplayWork::ViewAlpha => {
            go_on_lifting(&mut machine.focal, origin);
            LineOutcome::ViewedAlpha
        }
        DisplayWork::Clear => {
            go_on_lifting(&mut machine.focal, origin);
            LineOutcome::Cleared
        }
        DisplayWork::Prompt => {
            go_on_lifting(&mut machine.focal, origin);
            LineOutcome::Prompted
        }
        DisplayWork::Stop => {
            go_on(&mut machine.focal, origin);
            LineOutcome::Stopped
        }
        DisplayWork::TurnOff => {
            go_on_lifting(&mut machine.focal, origin);
            LineOutcome::TurnedOff
        }
    }
}
