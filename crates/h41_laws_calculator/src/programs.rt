//! Laws of existence for program memory. Each law is the contract of a function whose body only calls the laws that it
//! depends on.

ghost use Rattle.std.specs.Prelude.{ℕ, Bool, Option, Result};
ghost use Rattle.h41_laws_calculator.specs.ProgramAnswers.{BytesHaveOneList, MemoryHasOneAnswer};
ghost use Rattle.h41_laws_calculator.specs.ProgramAnswers.{ProgramHasOneAnswer, PositionHasOne};
ghost use Rattle.h41_laws_calculator.specs.ProgramAnswers.{PositionHasOneEach};
ghost use Rattle.h41_laws_calculator.specs.ProgramChanges.{EditHasOneOutcome, LoadHasOneOutcome};
ghost use Rattle.h41_laws_calculator.specs.ProgramChanges.{ChangeHasOneAnswer};
ghost use Rattle.h41_positions.specs.Positions.{EndOf, LineAt, LineBefore, LocalFrom, NextAt};
ghost use Rattle.h41_positions.specs.Positions.{NumberAt, StartOf};
ghost use Rattle.h41_program.specs.declared.editing.InFront.{InFront};
ghost use Rattle.h41_program.specs.declared.refusal.ProgramRefusal.{ProgramRefusal};

use h41_positions::laws::positions_are_read;
use h41_program::laws::{
    each_is_listed, edits_are_determined, lists_are_determined, one_list, searches_are_determined,
};

/// States that from each position on bytes are read as exactly one list of program lines, whatever the bytes are,
/// wherever their last line is and whichever lines end the list: those that end one in memory, or those that end one in
/// a page.
pub fn bytes_have_one_list()
    ensures { BytesHaveOneList }
{
    each_is_listed();
    lists_are_determined();
}

/// States that each search in the list of program lines in memory has exactly one result: for the start of a program
/// (`start`), the position of a global label (`global`), whether the last program is open (`last`), and what is found
/// in the program that contains a position (`program`).
pub fn searches_have_one_answer()
    ensures start { MemoryHasOneAnswer ℕ }
    ensures global { MemoryHasOneAnswer (Option ℕ) }
    ensures last { MemoryHasOneAnswer (Result Bool ProgramRefusal) }
    ensures program { ProgramHasOneAnswer (Option ℕ) }
{
    one_list();
    searches_are_determined();
}

/// States that each position in any pages and memory, sound or not, has exactly one program line, one next position,
/// one start of its program, one position of each local label, one end of its program, one line before it and one line
/// number. Each of these may be a refusal, or that there is none.
pub fn positions_have_one_answer()
    ensures line { PositionHasOne LineAt }
    ensures next { PositionHasOne NextAt }
    ensures start { PositionHasOne StartOf }
    ensures local { PositionHasOneEach LocalFrom }
    ensures end { PositionHasOne EndOf }
    ensures before { PositionHasOne LineBefore }
    ensures number { PositionHasOne NumberAt }
{
    each_is_listed();
    one_list();
    lists_are_determined();
    positions_are_read();
}

/// States that inserting, replacing or deleting a program line (`edit`), and loading any bytes (`load`), have exactly
/// one outcome, a memory or a refusal; and that each search in the changed list of lines has exactly one result, if
/// there was a line at the position of the change (`answer`, `front`).
pub fn changes_have_one_outcome()
    ensures edit { EditHasOneOutcome }
    ensures load { LoadHasOneOutcome }
    ensures answer { ChangeHasOneAnswer (Option ℕ) }
    ensures front { ChangeHasOneAnswer InFront }
{
    each_is_listed();
    one_list();
    edits_are_determined();
}
