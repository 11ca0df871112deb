//! Searches for the end of a program and for a local label, along the lines from a position on.

ghost use Rattle.std.specs.Prelude.{◌≡◌};
ghost use Rattle.h41_program.specs.Lines as spec;
ghost use Rattle.h41_program.specs.Searches.{end_in};
ghost use Rattle.h41_program.specs.Sources.{HasPlace};
ghost use Rattle.h41_walk.specs.Searches.{AnswersAll, label_position};
ghost use Rattle.h41_program.specs.private.Reading.{OfPlace};

use crate::code::Code;
use h41_codes::Parameter;
use h41_program::{LinePlace, is_label};

/// Returns the position of the first END or `.END.` from a position on, or `None` if no line follows before one is
/// found.
pub fn end_from<C: Code>(code: &C, from: u16) -> Option<u16>
    requires { C.is_readable code.now }
    ensures { AnswersAll end_in (C.source code.now) from result }
{
    let mut at = from;
    while let Some(place) = code.place_from(at) {
        if place.ends_program {
            return Some(place.position);
        }
        if place.ends_memory {
            return Some(place.position);
        }
        at = place.behind;
    }
    None
}

/// Returns the position of the first local label `LBL n`, with the number n of `label`, from a position to the END or
/// `.END.` of the program, or `None` if there is none.
pub fn label_from<C: Code>(code: &C, from: u16, label: Parameter) -> Option<u16>
    requires { C.is_readable code.now }
    ensures { AnswersAll (label_position label) (C.source code.now) from result }
{
    let mut at = from;
    while let Some(place) = code.place_from(at) {
        if is_label_at(code, at, &place, label) {
            return Some(place.position);
        }
        if place.ends_program {
            return None;
        }
        if place.ends_memory {
            return None;
        }
        at = place.behind;
    }
    None
}

/// Returns whether the line that begins at `place`, which is the first line from the position `at` on, is the local
/// label `LBL n` with the number n of `label`. The line is only decoded if its first byte is that of a local label.
#[inline(always)]
fn is_label_at<C: Code>(code: &C, at: u16, place: &LinePlace, label: Parameter) -> bool
    requires readable { C.is_readable code.now }
    requires place { HasPlace (C.source code.now) at place.now }
    ensures { OfPlace (C.source code.now) at place.now (λ line. result ≡ spec.is_label label line) }
{
    let first = code.byte_at(place.position);
    if first >= 0x10 && first != 0xCF {
        return false;
    }
    match code.first_from(at) {
        Some(found) => is_label(found.listed.line, label),
        None => false,
    }
}
