//! Functions that compute a value from X, or from Y and X.

ghost use Rattle.std.specs.Prelude.{ℕ};
ghost use Rattle.h41_positions.specs.LabelledMachine.{machine_of};
ghost use Rattle.h41_focal.specs.private.Carrying.{DoesWork};
ghost use Rattle.h41_focal.specs.declared.works.FunctionWork.TheVariants.{ChangeSign, OfX, OfYAndX};
ghost use Rattle.h41_focal.specs.declared.works.FunctionWork.TheVariants.{Percent, Square};
ghost use Rattle.h41_focal.specs.private.Searching.{KeepsRest};

use crate::addresses::{X, Y};
use crate::course::{fail, go_on_lifting};
use crate::machine::Machine;
use crate::origin::Origin;
use crate::outcome::LineOutcome;
use h41_ram::StatusRegister;
use h41_rows::{ValueOfOne, ValueOfTwo, compute_of_one, compute_of_two, drop_into, keep_last};

/// Executes a function that computes a value from Y and X, for example `-` (Y minus X): X receives the value, LAST X
/// receives the old X, and the stack drops. The errors are ALPHA DATA, DATA ERROR and OUT OF RANGE; then the outcome is
/// `Failed`, or `Done` if flag 25 was set.
#[inline(always)]
pub fn of_y_and_x<const REGS: usize>(
    machine: &mut Machine<REGS>,
    origin: Origin,
    value: ValueOfTwo,
) -> LineOutcome
    ensures done { DoesWork origin (OfYAndX value) (machine_of machine.old)
        (machine_of machine.new) result }
    ensures keeps { KeepsRest machine.old machine.new }
{
    match compute_of_two(&machine.ram, value, Y, X) {
        Ok(register) => {
            drop_into(&mut machine.ram, register);
            go_on_lifting(&mut machine.focal, origin);
            LineOutcome::Done
        }
        Err(fault) => fail(machine, origin, fault),
    }
}

/// Executes a function that computes a value from X, for example `SQRT`: X receives the value, and LAST X receives the
/// old X. The errors are ALPHA DATA, DATA ERROR and OUT OF RANGE; then the outcome is `Failed`, or `Done` if flag 25
/// was set.
#[inline(always)]
pub fn of_x<const REGS: usize>(
    machine: &mut Machine<REGS>,
    origin: Origin,
    value: ValueOfOne,
) -> LineOutcome
    ensures done { DoesWork origin (OfX value) (machine_of machine.old)
        (machine_of machine.new) result }
    ensures keeps { KeepsRest machine.old machine.new }
{
    match compute_of_one(&machine.ram, value, X) {
        Ok(register) => {
            keep_last(&mut machine.ram, register);
            go_on_lifting(&mut machine.focal, origin);
            LineOutcome::Done
        }
        Err(fault) => fail(machine, origin, fault),
    }
}

/// Executes `X^2`: X receives X times X, and LAST X receives the old X. The errors are ALPHA DATA and OUT OF RANGE;
/// then the outcome is `Failed`, or `Done` if flag 25 was set.
pub fn square<const REGS: usize>(machine: &mut Machine<REGS>, origin: Origin) -> LineOutcome
    ensures done { DoesWork origin Square (machine_of machine.old) (machine_of machine.new) result }
    ensures keeps { KeepsRest machine.old machine.new }
{
    match compute_of_two(&machine.ram, ValueOfTwo::Product, X, X) {
        Ok(register) => {
            keep_last(&mut machine.ram, register);
            go_on_lifting(&mut machine.focal, origin);
            LineOutcome::Done
        }
        Err(fault) => fail(machine, origin, fault),
    }
}

/// Executes `%`: X receives X percent of Y, and LAST X receives the old X. Y is unchanged. The errors are ALPHA DATA
/// and OUT OF RANGE; then the outcome is `Failed`, or `Done` if flag 25 was set.
pub fn percent<const REGS: usize>(machine: &mut Machine<REGS>, origin: Origin) -> LineOutcome
    ensures done { DoesWork origin Percent (machine_of machine.old)
        (machine_of machine.new) result }
    ensures keeps { KeepsRest machine.old machine.new }
{
    match compute_of_two(&machine.ram, ValueOfTwo::Percentage, Y, X) {
        Ok(register) => {
            keep_last(&mut machine.ram, register);
            go_on_lifting(&mut machine.focal, origin);
            LineOutcome::Done
        }
        Err(fault) => fail(machine, origin, fault),
    }
}

/// Executes `CHS`: the sign of the number in X changes. LAST X is unchanged. The error is ALPHA DATA if X contains no
/// number; then the outcome is `Failed`, or `Done` if flag 25 was set.
pub fn change_sign<const REGS: usize>(machine: &mut Machine<REGS>, origin: Origin) -> LineOutcome
    ensures done { DoesWork origin ChangeSign (machine_of machine.old)
        (machine_of machine.new) result }
    ensures keeps { KeepsRest machine.old machine.new }
{
    match compute_of_one(&machine.ram, ValueOfOne::Negative, X) {
        Ok(register) => {
            machine.ram.set_status_register(StatusRegister::X, register);
            go_on_lifting(&mut machine.focal, origin);
            LineOutcome::Done
        }
        Err(fault) => fail(machine, origin, fault),
    }
}
