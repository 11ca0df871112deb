//! Laws of deck lines and blocks. Each law is the contract of a function whose body only calls the laws that it depends
//! on.

ghost use Rattle.h41_commands.specs.BlockLaws.{FillingIsDetermined, MeaningIsDetermined};
ghost use Rattle.h41_commands.specs.LineLaws.{LongLinesAreAlike};

use h41_asm::laws::{words_are_determined, words_or_fault};
use h41_text::laws::line_text_round_trip;

/// States that the lines of a block determine the words that it fills a page with, or the bytes of its program, or the
/// reason why it is refused.
pub fn blocks_are_determined()
    ensures filling { FillingIsDetermined }
    ensures meaning { MeaningIsDetermined }
{
    words_or_fault();
    words_are_determined();
    line_text_round_trip();
}

/// States that the commands that deck lines specify depend only on the first 201 bytes of each line, because a line of
/// more than 200 bytes is refused as a whole.
pub fn long_lines_are_alike()
    ensures { LongLinesAreAlike }
{}
