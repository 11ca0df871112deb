//! Laws of program lines. Each law is the contract of a function that does little besides calling the laws on which it
//! is based.

ghost use Rattle.std.specs.Prelude.{◌≡◌, ◌≤◌, length};
ghost use Rattle.h41_focal.specs.LabelLaws.{KeepingStaysRight, SearchingStaysRight};
ghost use Rattle.h41_focal.specs.LineLaws.{LineIsDetermined, NameIsDetermined, NextIsHere};
ghost use Rattle.h41_focal.specs.LineLaws.{StepIsDetermined, SteppedByItself, SteppedCanBeTyped};
ghost use Rattle.h41_focal.specs.LineLaws.{TypedAsStepped, TypedByItself, TypedIsDetermined};

use h41_labels::laws::{answers_stay_right, kept_answers_depend_on_the_program};
use h41_positions::Focal;
use h41_positions::laws::positions_are_read;
use h41_program::laws::searches_are_determined;
use h41_rows::laws::values_are_determined;
use h41_text::laws::line_text_round_trip;

/// Returns the number of return addresses in the state of programs, which is at most six.
pub fn six_returns_at_most(focal: &Focal) -> usize
    ensures count { result ≡ length focal.now.state.returns }
    ensures most { result ≤ 6 }
{
    focal.returns.len()
}

/// States that executing a program line or a typed line has one outcome, by itself and with all that it calls, and that a
/// name names at most one function of the calculator.
pub fn line_is_determined()
    ensures step { StepIsDetermined }
    ensures typed { TypedIsDetermined }
    ensures line { LineIsDetermined }
    ensures name { NameIsDetermined }
{
    values_are_determined();
    positions_are_read();
    searches_are_determined();
    line_text_round_trip();
}

/// States that what a line leaves by itself is what it leaves with all that it calls, if it calls nothing outside
/// program memory. Therefore what is proved of lines by themselves holds for the calculator.
pub fn line_by_itself()
    ensures stepped { SteppedByItself }
    ensures typed { TypedByItself }
{}

/// States that lines which continue at the next line leave the same memory and the same stack lift, whether they are
/// typed or stepped. Lines that can be stepped in this way can also be typed, and call nothing outside program memory.
pub fn typed_as_stepped()
    ensures same { TypedAsStepped }
    ensures typed { SteppedCanBeTyped }
    ensures here { NextIsHere }
{
    values_are_determined();
    positions_are_read();
    searches_are_determined();
}

/// States that cached answers of label searches are right (each is what its search would find) as long as the dirty
/// flag of memory is clear. This remains true after an operation that searches no label and sets the dirty flag if it
/// changes programs, and after a line that began with right answers and made at most one search.
pub fn kept_answers_stay_right()
    ensures keeping { KeepingStaysRight }
    ensures searching { SearchingStaysRight }
{
    kept_answers_depend_on_the_program();
    answers_stay_right();
}
