//! Laws of existence for program lines. Each law is the contract of a function whose body only calls the laws that it
//! depends on.

ghost use Rattle.h41_laws_calculator.specs.LineEnds.{LineHasOneEnd, NameHasOneFunction};
ghost use Rattle.h41_laws_calculator.specs.LineOutcomes.{StepHasOneOutcome, TypedHasOneOutcome};

use crate::programs::{positions_have_one_answer, searches_have_one_answer};
use crate::values::value_has_one_register;
use h41_focal::laws::line_is_determined;
use h41_positions::laws::positions_are_read;
use h41_program::laws::each_is_listed;

/// States that any sequence of characters is the name of exactly one function of the calculator, or of none.
pub fn names_have_one_function()
    ensures { NameHasOneFunction }
{
    line_is_determined();
}

/// States that a program line by itself has exactly one outcome, the state and answer that it leaves or its refusal,
/// whatever memory and the pages contain: if it is executed by a step (`step`), and if it is typed (`typed`).
pub fn line_has_one_outcome()
    ensures step { StepHasOneOutcome }
    ensures typed { TypedHasOneOutcome }
{
    each_is_listed();
    value_has_one_register();
    positions_are_read();
    positions_have_one_answer();
    searches_have_one_answer();
    line_is_determined();
}

/// States that a program line with all that it calls, at the calculator's position or typed, has exactly one end,
/// whatever pages are plugged: it is executed, it starts a module's function in microcode, or it is refused. A line that
/// calls a module's program is executed.
pub fn line_has_one_end()
    ensures { LineHasOneEnd }
{
    names_have_one_function();
    each_is_listed();
    value_has_one_register();
    positions_are_read();
    positions_have_one_answer();
    searches_have_one_answer();
    line_is_determined();
}
