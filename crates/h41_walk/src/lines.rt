//! The line at a position, and the position of the line after it.

ghost use Rattle.h41_program.specs.Sources.{AnswersBoth, AnswersLine, AnswersNext};
ghost use Rattle.h41_program.specs.private.Reading.{FoundBehind};

use crate::code::Code;
use h41_codes::Line;
use h41_program::{Found, ListedLine, ProgramRefusal};

/// Returns the line at a position: the first line from there on, after any nulls, with the position of its first byte.
/// BrokenProgram (14) if there is none.
#[inline(always)]
pub fn line_at<C: Code>(code: &C, at: u16) -> Result<ListedLine, ProgramRefusal>
    requires { C.is_readable code.now }
    ensures { AnswersLine (C.source code.now) at result }
{
    match code.first_from(at) {
        Some(found) => Ok(found.listed),
        None => Err(ProgramRefusal::BrokenProgram),
    }
}

/// Returns the position of the line after the line at a position. If no line follows, it is the position of the byte
/// just after that line. After a line that ends the list it is that byte too, or the line's own position, as the place
/// says (`Code::stays`). BrokenProgram (14) if there is no line at the position.
#[inline(always)]
pub fn next<C: Code>(code: &C, at: u16) -> Result<u16, ProgramRefusal>
    requires { C.is_readable code.now }
    ensures { AnswersNext (C.source code.now) at result }
{
    if let Some(quick) = code.quick_next(at) {
        return Ok(quick);
    }
    match code.first_from(at) {
        Some(found) => Ok(position_behind(code, found)),
        None => Err(ProgramRefusal::BrokenProgram),
    }
}

/// Returns the line at a position, as `line_at` does, and the position of the line after it, as `next` does, in one
/// pass. BrokenProgram (14) if there is no line at the position.
#[inline(always)]
pub fn line_and_next<C: Code>(code: &C, at: u16) -> Result<(Line, u16), ProgramRefusal>
    requires { C.is_readable code.now }
    ensures { AnswersBoth (C.source code.now) at result }
{
    match code.first_from(at) {
        Some(found) => {
            let Found { listed, behind } = found;
            let line = listed.line;
            let next = position_behind(code, Found { listed, behind });
            Ok((line, next))
        }
        None => Err(ProgramRefusal::BrokenProgram),
    }
}

/// Returns the position of the line after a line that was found, as `next` does.
#[inline(always)]
fn position_behind<C: Code>(code: &C, found: Found) -> u16
    requires { C.is_readable code.now }
    ensures { FoundBehind (C.source code.now) found result }
{
    let Found { listed, behind } = found;
    if code.ends(&listed.line) {
        return if code.stays() {
            listed.position
        } else {
            behind
        };
    }
    code.position_from(behind)
}
