//! Laws of the bench. Each law is the contract of a function whose body only calls the laws that it depends
//! on.

ghost use Rattle.h41_debug.specs.BenchLaws.{PressesAreDetermined, RefusedStepIsRun, RunsAddUp};
ghost use Rattle.h41_debug.specs.BenchLaws.{RunsAreDetermined, StatesAreDescribed, StepIsRun};
ghost use Rattle.h41_debug.specs.BenchLaws.{StepsAreDetermined, StepsAreTraced};
ghost use Rattle.h41_debug.specs.BenchLaws.{TracesAreDetermined, TracesAreSteps};

use h41_positions::laws::positions_are_read;
use h41_xrom::laws::{key_is_determined, step_is_determined};

/// States that the state of the bench determines the result of a number of single steps: whether one is refused, for
/// which reason, and the state after them.
pub fn steps_are_determined()
    ensures { StepsAreDetermined }
{
    step_is_determined();
}

/// States that the state of the bench determines the result of keys that are pressed in turn: whether one is refused,
/// for which reason, and the state after them.
pub fn presses_are_determined()
    ensures { PressesAreDetermined }
{
    key_is_determined();
}

/// States that the state of the bench determines the result of a run with a limit: how many steps it makes, the state
/// after it, and why it stops.
pub fn runs_are_determined()
    ensures { RunsAreDetermined }
{
    step_is_determined();
}

/// States that a run that stopped at its limit of steps, and a run that continues from there, are together one run
/// whose limit is the sum of the two limits.
pub fn runs_add_up()
    ensures { RunsAddUp }
{
    step_is_determined();
}

/// States that a single step is a run of one step, if a program or a function runs, and that a refused single step is a
/// run of no step.
pub fn step_is_a_run()
    ensures made { StepIsRun }
    ensures refused { RefusedStepIsRun }
{
    step_is_determined();
}

/// States that the state of the bench determines the result of a trace of a number of steps: the lines that are
/// printed, the state after it, and whether a step is refused, and for which reason.
pub fn traces_are_determined()
    ensures { TracesAreDetermined }
{
    step_is_determined();
    positions_are_read();
}

/// States that in every state of the bench there is a line that a trace prints for the next step, and that single steps
/// that were made have a trace.
pub fn steps_are_traced()
    ensures described { StatesAreDescribed }
    ensures traced { StepsAreTraced }
{
    positions_are_read();
}

/// States that a trace makes the same single steps as a number of steps without a trace, and leaves the same state.
pub fn traces_are_steps()
    ensures { TracesAreSteps }
{}
