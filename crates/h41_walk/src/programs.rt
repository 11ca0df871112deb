//! What is found in the program that contains a position: its end, its labels, and the numbers of its lines.

ghost use Rattle.h41_program.specs.Numbering.{before_in, number_in};
ghost use Rattle.h41_program.specs.Searches.{end_in};
ghost use Rattle.h41_walk.specs.Searches.{AnswersLabel, AnswersProgram};

use crate::code::Code;
use crate::numbering::{number_from, numbered_from};
use crate::searches::{end_from, label_from};
use h41_codes::Parameter;
use h41_program::laws::each_is_listed;

/// A place whose programs have a start.
pub trait Programs: Code {
    ghost use Rattle.std.specs.Prelude.{ℕ};

    // Where the program of a position starts.
    ghost starts: { Self → ℕ → ℕ → Type 0 };

    /// Returns the position where the program that contains a position starts.
    fn start_of(&self, at: u16) -> u16
        requires { Self.is_readable self.now }
        ensures { starts self.now at result };
}

/// Returns the position of the first local label `LBL n`, with the number n of `label`, from a position to the END or
/// `.END.`, otherwise that of the first one in the program. `None` if there is none.
pub fn local<P: Programs>(code: &P, at: u16, label: Parameter) -> Option<u16>
    requires { P.is_readable code.now }
    ensures { AnswersLabel label (P.source code.now) (P.starts code.now) at result }
{
    each_is_listed();
    match label_from(code, at, label) {
        Some(position) => Some(position),
        None => label_from(code, code.start_of(at), label),
    }
}

/// Returns the position of the END of the program that contains a position, or of `.END.` if that is before any END.
/// `None` if bytes that are no line precede both, or if the program has neither.
pub fn end_of<P: Programs>(code: &P, at: u16) -> Option<u16>
    requires { P.is_readable code.now }
    ensures { AnswersProgram end_in (P.source code.now) (P.starts code.now) at result }
{
    each_is_listed();
    end_from(code, code.start_of(at))
}

/// Returns the number of the line that begins exactly at a position, within its program. The first line has number 1.
/// `None` if no line from the program's start to its END begins there.
pub fn line_number<P: Programs>(code: &P, position: u16) -> Option<u16>
    requires { P.is_readable code.now }
    ensures { AnswersProgram (number_in position) (P.source code.now) (P.starts code.now)
        position result }
{
    each_is_listed();
    number_from(code, code.start_of(position), position)
}

/// Returns the position of the line before the one that begins exactly at `position`, within its program. `None` if no
/// line begins there, or if it is the first of its program.
pub fn line_before<P: Programs>(code: &P, position: u16) -> Option<u16>
    requires { P.is_readable code.now }
    ensures { AnswersProgram (before_in position) (P.source code.now) (P.starts code.now)
        position result }
{
    each_is_listed();
    let start = code.start_of(position);
    match number_from(code, start, position) {
        Some(number) => numbered_from(code, start, number - 1),
        None => None,
    }
}
