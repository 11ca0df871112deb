//! Laws of program mode. Each law is the contract of a function that only calls the laws on which it rests.

ghost use Rattle.h41_editor.specs.Changes.{Deletes, Inserts, Replaces};
ghost use Rattle.h41_editor.specs.EditorLaws.{ChangeIsDetermined, MoveIsDetermined};
ghost use Rattle.h41_editor.specs.EditorLaws.{NumberedIsDetermined, TextIsDetermined};
ghost use Rattle.h41_editor.specs.Moves.{GoesToEnd, ShowsBefore, ShowsNext};
ghost use Rattle.h41_pages.specs.PageMap.{PageMap};

use h41_positions::laws::positions_are_read;
use h41_program::laws::{edits_are_determined, lists_are_determined, searches_are_determined};

/// States that for each position in programs there is at most one right answer: one program line with its number, or
/// that there is none.
pub fn numbered_is_determined()
    ensures { NumberedIsDetermined }
{
    positions_are_read();
}

/// States that SST (`next`), BST (`before`) and `GTO . .` (`end`) have at most one result each in program mode, for
/// each state of the calculator.
pub fn moves_are_determined()
    ensures next { (pages : PageMap) → MoveIsDetermined (ShowsNext pages) }
    ensures before { (pages : PageMap) → MoveIsDetermined (ShowsBefore pages) }
    ensures end { MoveIsDetermined GoesToEnd }
{
    lists_are_determined();
    searches_are_determined();
    positions_are_read();
}

/// States that inserting a line (`insertion`), replacing a line (`replacement`) and deleting one with BACK (`deletion`)
/// have at most one result each, for each state of the calculator.
pub fn changes_are_determined()
    ensures insertion { (pages : PageMap) → ChangeIsDetermined (Inserts pages) }
    ensures replacement { ChangeIsDetermined Replaces }
    ensures deletion { (pages : PageMap) → MoveIsDetermined (Deletes pages) }
{
    positions_are_read();
    edits_are_determined();
}

/// States that the display shows at most one text in program mode, for each state of the calculator.
pub fn text_is_determined()
    ensures { TextIsDetermined }
{
    positions_are_read();
}
