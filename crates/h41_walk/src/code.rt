//! A place that contains program lines.

ghost use Rattle.std.specs.Prelude.{◌≡◌, ◌<◌, ◌≤◌, length, slice_index, IfSome, IfNone, Ok};

use h41_codes::Line;
use h41_program::{Found, LinePlace, ListedLine, is_end, is_final_end};

/// A place that contains program lines, such as memory or a page. A position is the number of bytes before a byte. What
/// is found from a position depends only on `source`: the bytes and the lines that end a list. An implementation gives
/// the functions without a body; it may replace the others by faster ones.
pub trait Code {
    ghost use Rattle.h41_program.specs.Sources.{AnswersNext, HasFirst, HasNoLine, HasPlace};
    ghost use Rattle.h41_program.specs.Sources.{PositionFrom, Source};

    // The bytes and the lines that end a list.
    ghost source: { Self → Source };

    // The condition for reading.
    ghost is_readable: { Self → Type 0 };

    /// Returns the first line from a position on, after any nulls, and the position of the byte after it. `None` if no
    /// line follows.
    fn first_from(&self, at: u16) -> Option<Found>
        requires { is_readable self.now }
        ensures first { IfSome result (λ found. HasFirst (source self.now) at found) }
        ensures none { IfNone result (HasNoLine (source self.now) at) }
        ensures behind { IfSome result (λ found. found.behind ≤ 4096) };

    /// Returns the byte at a position.
    fn byte_at(&self, at: u16) -> u8
        requires readable { is_readable self.now }
        requires inside { at < length (source self.now).bytes }
        ensures { result ≡ slice_index (source self.now).bytes at };

    /// Returns whether a line ends a list.
    fn ends(&self, line: &Line) -> bool
        ensures { result ≡ (source self.now).ends line.now };

    /// Returns whether the line that ends a list is followed by itself, and not by the byte after it.
    fn stays(&self) -> bool
        ensures { result ≡ (source self.now).stays };

    /// Returns where the first line from a position on, after any nulls, begins and ends, and whether it is END or
    /// `.END.`. `None` if no line follows.
    #[inline(always)]
    fn place_from(&self, at: u16) -> Option<LinePlace>
        requires { is_readable self.now }
        ensures place { IfSome result (λ place. HasPlace (source self.now) at place) }
        ensures none { IfNone result (HasNoLine (source self.now) at) }
    {
        match self.first_from(at) {
            Some(found) => {
                let Found { listed, behind } = found;
                let ListedLine { position, line } = listed;
                Some(LinePlace {
                    position,
                    behind,
                    ends_program: is_end(&line),
                    ends_memory: is_final_end(line),
                })
            }
            None => None,
        }
    }

    /// Returns the position of the first line from a position on, or that position if no line follows.
    #[inline(always)]
    fn position_from(&self, at: u16) -> u16
        requires { is_readable self.now }
        ensures { PositionFrom (source self.now) at result }
    {
        match self.first_from(at) {
            Some(found) => found.listed.position,
            None => at,
        }
    }

    /// Returns the position of the line after the line at a position if a place knows it without decoding that line,
    /// otherwise `None`.
    #[inline(always)]
    fn quick_next(&self, _at: u16) -> Option<u16>
        requires { is_readable self.now }
        ensures { IfSome result (λ next. AnswersNext (source self.now) _at (Ok next)) }
    {
        None
    }
}
