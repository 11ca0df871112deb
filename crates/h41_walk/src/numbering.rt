//! The numbers of lines, counted from a position on. The first line has number 1.

ghost use Rattle.std.specs.Prelude.{◌≡◌, ◌≤◌, IfSome};
ghost use Rattle.h41_program.specs.Numbering.{number_in, numbered_in};
ghost use Rattle.h41_program.specs.Sources as spec;
ghost use Rattle.h41_walk.specs.Searches.{AnswersAll};

use crate::code::Code;
use h41_codes::Line;
use h41_program::{Found, is_end, is_final_end};

/// Returns whether a line ends a program: END and `.END.` both do.
#[inline(always)]
fn is_program_end(line: &Line) -> bool
    ensures { result ≡ spec.is_program_end line.now }
{
    is_end(line) || is_final_end(*line)
}

/// Returns the number of the line that begins exactly at `position`. The first line from the position `from` on has
/// number 1, and lines are counted up to the END or `.END.`. `None` if none of them begins at `position`.
pub fn number_from<C: Code>(code: &C, from: u16, position: u16) -> Option<u16>
    requires { C.is_readable code.now }
    ensures is { AnswersAll (number_in position) (C.source code.now) from result }
    ensures some { IfSome result (λ number. 1 ≤ number) }
{
    let mut count = 0;
    let mut at = from;
    while let Some(found) = code.first_from(at) {
        let Found { listed, behind } = found;
        count += 1;
        if listed.position == position {
            return Some(count);
        }
        if is_program_end(&listed.line) {
            return None;
        }
        at = behind;
    }
    None
}

/// Returns the position of the line with a number. The first line from the position `from` on has number 1, and lines
/// are counted up to the END or `.END.`. `None` if there are fewer lines.
pub fn numbered_from<C: Code>(code: &C, from: u16, number: u16) -> Option<u16>
    requires { C.is_readable code.now }
    ensures { AnswersAll (numbered_in number) (C.source code.now) from result }
{
    let mut left = number;
    let mut at = from;
    while let Some(found) = code.first_from(at) {
        let Found { listed, behind } = found;
        if left == 1 {
            return Some(listed.position);
        }
        if is_program_end(&listed.line) {
            return None;
        }
        left = left.saturating_sub(1);
        at = behind;
    }
    None
}
