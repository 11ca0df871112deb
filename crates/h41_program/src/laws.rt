//! Laws of program memory. Each law is the contract of a function that only proves it: its body does nothing, or calls
//! other laws. The list of lines from a position is what program memory contains from that byte on, up to `.END.`.
ghost use Rattle.std.specs.Prelude.{ℕ, Bool, Option, Result};
ghost use Rattle.h41_program.specs.Dependence.{AnswersDepend, FirstsDepend, LineDepends};
ghost use Rattle.h41_program.specs.Dependence.{ListsDepend, LocalDepends, NextDepends, NonesDepend};
ghost use Rattle.h41_program.specs.Dependence.{ProgramDepends, SoundnessDepends};
ghost use Rattle.h41_program.specs.Edits.{PlacesAreDetermined};
ghost use Rattle.h41_program.specs.LastProgram.{CloseIsRead, ClosedIsNotOpen};
ghost use Rattle.h41_program.specs.SearchLaws.{AnswersAreDetermined, LineIsDetermined};
ghost use Rattle.h41_program.specs.SearchLaws.{LineIsOfList, LocalIsDetermined, NextIsDetermined};
ghost use Rattle.h41_program.specs.SearchLaws.{NextIsOfList, ProgramIsDetermined};
ghost use Rattle.h41_program.specs.ProgramLaws.{EachHasFirst, EachIsListed, EditsAreDetermined};
ghost use Rattle.h41_program.specs.ProgramLaws.{FirstIsDetermined};
ghost use Rattle.h41_program.specs.ProgramLaws.{GoesOnFromNext, ListsAreDetermined, LoadIsRead};
ghost use Rattle.h41_program.specs.ProgramLaws.{LoadsAreDetermined, OneList, PackingFills};
ghost use Rattle.h41_program.specs.ProgramLaws.{PackingHasFewNulls, PackingRoundTrip};
ghost use Rattle.h41_program.specs.ProgramLaws.{ReadIsDetermined, SizeKeepsLines, StandsForItsLine};
ghost use Rattle.h41_program.specs.ProgramLaws.{WrittenIsRead};
ghost use Rattle.h41_program.specs.declared.editing.InFront.{InFront};
ghost use Rattle.h41_program.specs.declared.refusal.ProgramRefusal.{ProgramRefusal};

use h41_codes::laws::{byte_round_trip, line_or_none};

/// States the packing round trip: the bytes of packed lines, none of which is a null or `.END.`, are read as these
/// lines and `.END.`. They fill whole registers, with at most six nulls before `.END.`.
pub fn packing_round_trip()
    ensures read { PackingRoundTrip }
    ensures registers { PackingFills }
    ensures nulls { PackingHasFewNulls }
{
    byte_round_trip();
}

/// States that memory after a change is read as the changed lines.
///
/// After lines are written, the list of lines from position 0 is these lines and `.END.`. After bytes are loaded, it is
/// the lines of memory, with an END after the last program, the lines of the bytes, and `.END.`; from the returned
/// position on it is the lines of the bytes and `.END.`.
///
/// After `close_last`, the lines before `.END.` are those that memory had, followed by an END if there are lines and
/// the last is no END. With another number of data registers the lists are the same.
pub fn changes_are_read()
    ensures written { WrittenIsRead }
    ensures loaded { LoadIsRead }
    ensures closed { CloseIsRead }
    ensures shut { ClosedIsNotOpen }
    ensures sized { SizeKeepsLines }
{
    byte_round_trip();
}

/// States that any memory has exactly one list of lines from each position (a byte of program memory, counted from 0)
/// on.
pub fn one_list()
    ensures { OneList }
{
    byte_round_trip();
    line_or_none();
}

/// States that bytes have, from each index on, a first program line or none, and that they have a list of program
/// lines, whichever lines end the list.
pub fn each_is_listed()
    ensures first { EachHasFirst }
    ensures lines { EachIsListed }
{
    byte_round_trip();
    line_or_none();
}

/// States that no memory has two lists of lines from a position on, whether it is a `Ram` or not. No bytes are read as
/// two lists of lines, because no bytes have two first lines.
pub fn lists_are_determined()
    ensures lines { ListsAreDetermined }
    ensures read { ReadIsDetermined }
    ensures first { FirstIsDetermined }
{
    byte_round_trip();
}

/// States that each search in program memory has one answer: the line at a position and the next position, searches for
/// labels, starts and ends of programs, the numbers of the lines of a program, and whether the last program is open.
pub fn searches_are_determined()
    ensures line { LineIsDetermined }
    ensures next { NextIsDetermined }
    ensures start { AnswersAreDetermined ℕ }
    ensures local { LocalIsDetermined }
    ensures global { AnswersAreDetermined (Option ℕ) }
    ensures last { AnswersAreDetermined (Result Bool ProgramRefusal) }
    ensures program { ProgramIsDetermined (Option ℕ) }
{
    byte_round_trip();
}

/// States how single lines and the list of lines agree. The line at a position of program memory is the first of the
/// list from there on, and the next position is that of the second line. The list from a line's own position on begins
/// with that line, and the list from the next position on is the rest.
pub fn lines_are_of_lists()
    ensures line { LineIsOfList }
    ensures next { NextIsOfList }
    ensures own { StandsForItsLine }
    ensures rest { GoesOnFromNext }
{
    byte_round_trip();
}

/// States that lists of lines and searches depend only on register c and the registers from that of `.END.` to just
/// below the curtain: two memories of the same size that agree there have the same lists and the same answers.
pub fn programs_depend_on_their_registers()
    ensures sound { SoundnessDepends }
    ensures lists { ListsDepend }
    ensures first { FirstsDepend }
    ensures none { NonesDepend }
    ensures line { LineDepends }
    ensures next { NextDepends }
    ensures start { AnswersDepend ℕ }
    ensures local { LocalDepends }
    ensures global { AnswersDepend (Option ℕ) }
    ensures last { AnswersDepend (Result Bool ProgramRefusal) }
    ensures program { ProgramDepends (Option ℕ) }
{}

/// States that loading bytes into a memory has one outcome, and so has inserting, replacing or deleting a line at any
/// position; the position that is returned is determined, too. This is proved for the relations in the contracts of
/// `load`, `insert`, `replace` and `delete`.
pub fn edits_are_determined()
    ensures load { LoadsAreDetermined }
    ensures outcome { EditsAreDetermined }
    ensures answer { PlacesAreDetermined (Option ℕ) }
    ensures front { PlacesAreDetermined InFront }
{
    byte_round_trip();
}
