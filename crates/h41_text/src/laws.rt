//! Laws of the text of lines. Each law is the contract of a function that does little else.

ghost use Rattle.std.specs.Prelude.{◌≡◌, ◌≤◌, length};
ghost use Rattle.h41_text.specs.LineText.{line_text};
ghost use Rattle.h41_text.specs.TextLaws.{SameText, LineTextRoundTrip, OneLineOfText};
ghost use Rattle.h41_text.specs.TextLaws.{CanonicalIsShortestOfText};

use crate::write_line;
use h41_codes::Line;
use h41_codes::laws::canonical_is_shortest;

/// States that a program line and its canonical line, which is the one with the shortest spelling, have the same text.
pub fn same_text()
    ensures { SameText }
{}

/// States that the text of a program line is read as its canonical line, which is the one with the shortest spelling,
/// and as no other line. The null is an exception, because it has no text.
pub fn line_text_round_trip()
    ensures again { LineTextRoundTrip }
    ensures one { OneLineOfText }
{}

/// States that of all program lines with the same text, the canonical line has the fewest bytes.
pub fn shortest_of_text()
    ensures { CanonicalIsShortestOfText }
{
    canonical_is_shortest();
}

/// Returns how many characters the text of a program line has, as `write_line` writes it: at most 51.
pub fn line_text_fits(line: Line) -> usize
    ensures size { result ≡ length (line_text line) }
    ensures fits { result ≤ 51 }
{
    write_line(line).len()
}
