//! Laws of existence for the bench: keys, steps, runs and traces. Each law is the contract of a function that only
//! calls the laws that it depends on, and calls of the bench that allocate no memory.

ghost use Rattle.h41_laws_words.specs.HasOne.{HasOne};
ghost use Rattle.h41_laws_calculator.specs.BenchOutcomes.{KeysLeave, RunLeaves, StateHasOneText};
ghost use Rattle.h41_laws_calculator.specs.BenchOutcomes.{StepsLeave, TraceLeaves};
ghost use Rattle.h41_laws_calculator.specs.BenchOutcomes.{RunHasOneOutcome, StepsHaveOneOutcome};
ghost use Rattle.h41_laws_calculator.specs.BenchOutcomes.{TraceHasOneOutcome};

use crate::calculator::step_has_one_outcome;
use crate::programs::positions_have_one_answer;
use h41_debug::Bench;
use h41_debug::laws::{
    presses_are_determined, runs_are_determined, steps_are_determined, steps_are_traced,
    traces_are_determined,
};
use h41_keys::Key;
use h41_xrom::laws::step_is_determined;

/// States that any number of steps (`steps`), a run of at most any number of steps (`run`) and a trace (`trace`) have
/// exactly one outcome each, from each state of the bench from which single steps lead only to states whose registers
/// A, B and C have 14 digits. This follows from the definitions alone.
pub fn runs_have_one_outcome()
    ensures steps { StepsHaveOneOutcome }
    ensures run { RunHasOneOutcome }
    ensures trace { TraceHasOneOutcome }
{
    step_has_one_outcome();
    step_is_determined();
    steps_are_determined();
    runs_are_determined();
    steps_are_traced();
    traces_are_determined();
}

/// States that `count` single steps have exactly one outcome from each bench that can exist: a state, and the first refusal or
/// none.
pub fn steps_have_one_outcome<const REGS: usize>(bench: &mut Bench<REGS>, count: u32)
    ensures { HasOne (StepsLeave count bench.old.state) }
{
    steps_are_determined();
    let _ = bench.steps(count);
}

/// States that pressing keys in turn has exactly one outcome from each bench that can exist: a state, and the first
/// refusal or none.
pub fn keys_have_one_outcome<const REGS: usize>(bench: &mut Bench<REGS>, keys: &[Key])
    ensures { HasOne (KeysLeave keys.now bench.old.state) }
{
    presses_are_determined();
    let _ = bench.press(keys);
}

/// States that a run of at most `limit` steps, which may be 0, has exactly one outcome from each bench that can exist: how many
/// steps it makes, the state that it leaves, and why it stops.
pub fn run_has_one_outcome<const REGS: usize>(bench: &mut Bench<REGS>, limit: u32)
    ensures { HasOne (RunLeaves limit bench.old.state) }
{
    runs_are_determined();
    let _ = bench.run(limit);
}

/// States that in any state of the bench the next step, a microcode word or a program line, has exactly one
/// description, as a trace prints it.
pub fn next_has_one_text()
    ensures { StateHasOneText }
{
    positions_have_one_answer();
}

/// States that a trace of `count` steps has exactly one outcome from each bench that can exist: a text, a state, and the first
/// refusal or none.
pub fn trace_has_one_outcome<const REGS: usize>(bench: &mut Bench<REGS>, count: u32)
    ensures { HasOne (TraceLeaves count bench.old.state) }
{
    steps_are_traced();
    traces_are_determined();
    let _ = bench.steps(count);
}
