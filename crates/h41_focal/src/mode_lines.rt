//! Program lines that select the unit of angles or the display format.

ghost use Rattle.std.specs.Prelude.{◌<◌, ℕ};
ghost use Rattle.h41_positions.specs.LabelledMachine.{machine_of};
ghost use Rattle.h41_focal.specs.private.Carrying.{DoesWork, LeavesDigits};
ghost use Rattle.h41_focal.specs.declared.works.FunctionWork.TheVariants.{Angles};
ghost use Rattle.h41_focal.specs.private.Searching.{KeepsRest};

use crate::course::go_on_lifting;
use crate::machine::Machine;
use crate::origin::Origin;
use crate::outcome::LineOutcome;
use crate::uses::DigitsUse;
use h41_rows::{set_angles, set_format};

/// Executes `DEG`, `RAD` or `GRAD`: sets or clears flag 42 (`grads`) and flag 43 (`radians`), both clear for degrees.
/// Stack lift is turned on.
pub fn set_angle_unit<const REGS: usize>(
    machine: &mut Machine<REGS>,
    origin: Origin,
    grads: bool,
    radians: bool,
) -> LineOutcome
    ensures done { DoesWork origin (Angles grads radians) (machine_of machine.old)
        (machine_of machine.new) result }
    ensures keeps { KeepsRest machine.old machine.new }
{
    set_angles(&mut machine.ram, grads, radians);
    go_on_lifting(&mut machine.focal, origin);
    LineOutcome::Done
}

/// Executes `FIX`, `SCI`, `ENG` or `TONE` with a digit, 0 to 9. The first three set the display format; `TONE` has no
/// effect, because the bench has no sound. All turn stack lift on.
pub fn use_digits<const REGS: usize>(
    machine: &mut Machine<REGS>,
    origin: Origin,
    taken: DigitsUse,
    digits: u8,
) -> LineOutcome
    requires { digits < 10 }
    ensures done { LeavesDigits origin taken digits (machine_of machine.old)
        (machine_of machine.new) result }
    ensures keeps { KeepsRest machine.old machine.new }
{
    match taken {
        DigitsUse::Format(fixed, engineering) => {
            set_format(&mut machine.ram, digits, fixed, engineering);
            go_on_lifting(&mut machine.focal, origin);
            LineOutcome::Done
        }
        DigitsUse::Tone => {
            go_on_lifting(&mut machine.focal, origin);
            LineOutcome::Done
        }
    }
}
