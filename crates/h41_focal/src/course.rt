//! The position at which a program continues after a line or after its error, and whether stack lift is then on.

ghost use Rattle.std.specs.Prelude.{◌≡◌};
ghost use Rattle.h41_positions.specs.LabelledMachine.{machine_of};
ghost use Rattle.h41_focal.specs.private.Carrying.{LineFails, fault_outcome};
ghost use Rattle.h41_focal.specs.private.Carrying.{on_to_next};
ghost use Rattle.h41_focal.specs.private.Searching.{KeepsRest};
ghost use Rattle.h41_rows.specs.declared.fault.LineFault.{LineFault};
ghost use Rattle.h41_rows.specs.Rows.{AsItWas, On};

use crate::machine::Machine;
use crate::origin::Origin;
use crate::outcome::LineOutcome;
use h41_positions::Focal;
use h41_ram::flags::ERROR_IGNORE;
use h41_rows::LineFault;

/// Moves the position to the next line if the line that was executed is from a program. A typed line leaves the
/// position unchanged. Stack lift is unchanged.
#[inline(always)]
pub fn go_on(focal: &mut Focal, origin: Origin)
    ensures state { focal.new.state ≡ on_to_next origin AsItWas focal.old.state }
    ensures labels { focal.new.labels ≡ focal.old.labels }
{
    if let Origin::Program(next) = origin {
        focal.go_to(next);
    }
}

/// Turns stack lift on, and moves the position to the next line if the line that was executed is from a program. A
/// typed line leaves the position unchanged.
#[inline(always)]
pub fn go_on_lifting(focal: &mut Focal, origin: Origin)
    ensures state { focal.new.state ≡ on_to_next origin On focal.old.state }
    ensures labels { focal.new.labels ≡ focal.old.labels }
{
    go_on(focal, origin);
    focal.lift = true;
}

/// Handles an error of a program line or a typed line, and returns the line's outcome. If flag 25 is set, the flag is
/// cleared, the program continues at the next line, and the outcome is `Done`. Otherwise the outcome is `Failed`, and
/// the position remains at the line.
#[inline(always)]
pub fn fail<const REGS: usize>(
    machine: &mut Machine<REGS>,
    origin: Origin,
    fault: LineFault,
) -> LineOutcome
    ensures done { LineFails origin fault (machine_of machine.old) (machine_of machine.new) result }
    ensures keeps { KeepsRest machine.old machine.new }
{
    if passes_fault(machine, origin) {
        LineOutcome::Done
    } else {
        LineOutcome::Failed(fault)
    }
}

/// Returns whether flag 25 is set, so that an error of a line is ignored. In that case it clears the flag and moves the
/// position to the next line, unless the line was typed; otherwise the position remains at the line.
#[cold]
#[inline(never)]
fn passes_fault<const REGS: usize>(machine: &mut Machine<REGS>, origin: Origin) -> bool
    ensures done { (fault : LineFault) → LineFails origin fault (machine_of machine.old)
        (machine_of machine.new) (fault_outcome result fault) }
    ensures keeps { KeepsRest machine.old machine.new }
{
    if machine.ram.flag(ERROR_IGNORE) {
        machine.ram.set_flag(ERROR_IGNORE, false);
        go_on(&mut machine.focal, origin);
        return true;
    }
    if let Origin::Program(_) = origin {
        machine.focal.is_at_line_00 = false;
    }
    false
}
