//! Laws of positions. Each law is the contract of a function that only proves it: its body does nothing, or calls other
//! laws.

ghost use Rattle.h41_positions.specs.PositionLaws.{EachIsRead, HasOneAnswer, HasOneAnswerEach};
ghost use Rattle.h41_positions.specs.PositionLaws.{IsReadOnce, LinesHaveNext};
ghost use Rattle.h41_positions.specs.Positions.{EndOf, LineBefore, LocalFrom, NumberAt, StartOf};

use h41_program::laws::{each_is_listed, lists_are_determined, searches_are_determined};

/// States that each position has a line or a refusal, over any memory and pages, and that what is found from it is
/// determined: its line and the next position, which each line has, the start and the end of its program, the positions
/// of labels and of the line before, and the number of its line.
pub fn positions_are_read()
    ensures each { EachIsRead }
    ensures read { IsReadOnce }
    ensures onward { LinesHaveNext }
    ensures start { HasOneAnswer StartOf }
    ensures local { HasOneAnswerEach LocalFrom }
    ensures end { HasOneAnswer EndOf }
    ensures before { HasOneAnswer LineBefore }
    ensures number { HasOneAnswer NumberAt }
{
    each_is_listed();
    lists_are_determined();
    searches_are_determined();
}
