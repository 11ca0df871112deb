//! Laws of the calculator. Each law is the contract of a function whose body only calls the laws on which it is based.

ghost use Rattle.h41_xrom.specs.CalculatorLaws.{DisplayIsDetermined, KeyIsDetermined};
ghost use Rattle.h41_xrom.specs.CalculatorLaws.{LoadIsDetermined, StepIsDetermined};
ghost use Rattle.h41_xrom.specs.CalculatorLaws.{StepRefusalIsDetermined, TypedAsStepped};

use h41_editor::laws::{changes_are_determined, moves_are_determined, text_is_determined};
use h41_focal::laws::{line_is_determined, typed_as_stepped as lines_typed_as_stepped};
use h41_nut::laws::micro_is_determined;
use h41_positions::laws::positions_are_read;
use h41_program::laws::{edits_are_determined, searches_are_determined};
use h41_rows::laws::values_are_determined;

/// States that the state of a calculator determines what a single step (one program line, or one word of microcode)
/// does: whether it is refused, with which error, and the state after it.
pub fn step_is_determined()
    ensures refusal { StepRefusalIsDetermined }
    ensures state { StepIsDetermined }
{
    line_is_determined();
    micro_is_determined();
}

/// States that the state of a calculator and the given bytes determine what loading a program does: whether it is
/// refused, with which error, and the state after it.
pub fn load_is_determined()
    ensures { LoadIsDetermined }
{
    edits_are_determined();
}

/// States that the state of a calculator and a key determine what pressing the key does: whether it is refused, with
/// which error, and the state after it.
pub fn key_is_determined()
    ensures { KeyIsDetermined }
{
    line_is_determined();
    positions_are_read();
    moves_are_determined();
    changes_are_determined();
    searches_are_determined();
    values_are_determined();
}

/// States that the state of a calculator determines the text that the display shows.
pub fn display_is_determined()
    ensures { DisplayIsDetermined }
{
    text_is_determined();
}

/// States that lines which continue at the next line leave the same stack, data registers, ALPHA, flags and stack lift
/// if the calculator steps them in a program as if they are typed one after another.
pub fn typed_as_stepped()
    ensures { TypedAsStepped }
{
    lines_typed_as_stepped();
}
