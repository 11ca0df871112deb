//! Laws of existence for the calculator. Each law is the contract of a function whose body only calls the laws that it
//! depends on.

ghost use Rattle.h41_laws_words.specs.HasOne.{HasOne};
ghost use Rattle.h41_editor.specs.Changes.{Deletes, Inserts, Replaces};
ghost use Rattle.h41_editor.specs.Moves.{GoesToEnd, ShowsBefore, ShowsNext};
ghost use Rattle.h41_laws_calculator.specs.CalculatorAnswers.{AcceptedStepHasOneState};
ghost use Rattle.h41_laws_calculator.specs.CalculatorAnswers.{DisplayHasOneText, LoadHasOneOutcome};
ghost use Rattle.h41_laws_calculator.specs.CalculatorAnswers.{SizeHasOneOutcome, StepHasOneOutcome};
ghost use Rattle.h41_laws_calculator.specs.CalculatorAnswers.{StepHasOneRefusal};
ghost use Rattle.h41_laws_calculator.specs.Keys.{KeyHasOneOutcome, KeyLeaves};
ghost use Rattle.h41_laws_calculator.specs.ProgramMode.{ChangeHasOneOutcome, MoveHasOneOutcome};
ghost use Rattle.h41_pages.specs.PageMap.{PageMap};

use crate::lines::{line_has_one_end, names_have_one_function};
use crate::programs::{
    changes_have_one_outcome, positions_have_one_answer, searches_have_one_answer,
};
use crate::values::value_has_one_register;
use h41_codes::laws::byte_round_trip;
use h41_editor::laws::{changes_are_determined, moves_are_determined};
use h41_keys::Key;
use h41_laws_words::words::word_has_one_answer;
use h41_positions::laws::positions_are_read;
use h41_program::laws::one_list;
use h41_xrom::Calculator;
use h41_xrom::laws::{
    display_is_determined, key_is_determined, load_is_determined, step_is_determined,
};

/// States that SST, BST, `GTO . .` and BACK have exactly one outcome each in program mode, for any memory and pages;
/// and that inserting a line, or replacing one by it, has exactly one outcome if memory is sound and the line is
/// neither a null nor `.END.`.
pub fn program_mode_has_one_outcome()
    ensures next { (pages : PageMap) → MoveHasOneOutcome (ShowsNext pages) }
    ensures before { (pages : PageMap) → MoveHasOneOutcome (ShowsBefore pages) }
    ensures end { MoveHasOneOutcome GoesToEnd }
    ensures deletion { (pages : PageMap) → MoveHasOneOutcome (Deletes pages) }
    ensures insertion { (pages : PageMap) → ChangeHasOneOutcome (Inserts pages) }
    ensures replacement { ChangeHasOneOutcome Replaces }
{
    byte_round_trip();
    one_list();
    positions_are_read();
    positions_have_one_answer();
    changes_have_one_outcome();
    moves_are_determined();
    changes_are_determined();
}

/// States that a single step of the calculator from any state has exactly one refusal, or none (`refusal`); and that,
/// from a state whose registers A, B and C have 14 digits, it leaves exactly one state if it is not refused (`state`),
/// and exactly one state together with its refusal or none (`outcome`).
pub fn step_has_one_outcome()
    ensures refusal { StepHasOneRefusal }
    ensures state { AcceptedStepHasOneState }
    ensures outcome { StepHasOneOutcome }
{
    line_has_one_end();
    word_has_one_answer();
    step_is_determined();
}

/// States that loading any bytes as a program (`load`) and setting a number of data registers (`size`) have exactly one
/// outcome each, from any state of the calculator.
pub fn load_has_one_outcome()
    ensures load { LoadHasOneOutcome }
    ensures size { SizeHasOneOutcome }
{
    changes_have_one_outcome();
    load_is_determined();
}

/// States that the display shows exactly one text in any state of the calculator.
pub fn display_has_one_text()
    ensures { DisplayHasOneText }
{
    positions_have_one_answer();
    display_is_determined();
}

/// States that pressing a key has exactly one outcome from any state of the calculator, a change or a refusal, if the
/// program line that the key stores, if it stores one, can be encoded in bytes.
pub fn key_has_one_outcome()
    ensures { KeyHasOneOutcome }
{
    line_has_one_end();
    names_have_one_function();
    searches_have_one_answer();
    positions_have_one_answer();
    value_has_one_register();
    program_mode_has_one_outcome();
    key_is_determined();
}

/// States that pressing a key has exactly one outcome from each calculator that can exist, because the program lines
/// that a keyboard stores can be encoded in bytes.
pub fn key_has_one_effect<const REGS: usize>(calculator: &mut Calculator<REGS>, key: Key)
    ensures { HasOne (KeyLeaves key calculator.old.state) }
{
    key_is_determined();
    let _ = calculator.key(key);
}
