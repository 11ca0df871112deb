//! A line of an assembler source: its label, and the words after the label.

ghost use Rattle.std.specs.Prelude.{◌≡◌, ◌<◌, ◌≤◌, ◌∷◌, drop, length};
ghost use Rattle.h41_asm.specs.private.CodeStatements.{in_line};
ghost use Rattle.h41_asm.specs.SourceLines.{line_of, lines, words_of};

use crate::names::label_in;
use crate::words::SourceWords;
use h41_ends::line_end;
use h41_lines::lines::without_return;

/// The label of a source line, and the words after it. A word `name:` at the beginning of the line is the label.
#[derive(Clone, Copy)]
pub(crate) struct SourceLine<'a> {
    /// The name of the label, without the `:`, if the source line has one.
    pub label: Option<&'a [u8]>,
    /// The first word of the source line after its label, which is the mnemonic or the directive.
    pub first: Option<&'a [u8]>,
    /// The words of the source line after its mnemonic or directive.
    pub others: SourceWords<'a>,
}

/// Returns the label of a source line, without the `:`, and the words after it. A label is the first word of the line
/// if it has the form `name:`.
#[inline(always)]
pub(crate) fn read_line(line: &[u8]) -> SourceLine<'_>
    ensures { in_line result ≡ line_of (words_of line.now) }
{
    let mut words = SourceWords::new(line);
    match words.next() {
        Some(first) => match label_in(first) {
            Some(name) => SourceLine {
                label: Some(name),
                first: words.next(),
                others: words,
            },
            None => SourceLine {
                label: None,
                first: Some(first),
                others: words,
            },
        },
        None => SourceLine {
            label: None,
            first: None,
            others: words,
        },
    }
}

/// Returns the line of a text that begins at position `start`, in bytes from 0, and the position at which the next line
/// begins. The line has no LF and no CR before the LF.
#[inline(always)]
pub(crate) fn line_at(text: &[u8], start: usize) -> (&[u8], usize)
    requires { start < length text.now }
    ensures next { start < result.1 }
    ensures bound { result.1 ≤ length text.now }
    ensures line { lines (drop start text.now) ≡ result.0.now ∷ lines (drop result.1 text.now) }
{
    let rest = &text[start..];
    match line_end(rest) {
        Some(end) => (without_return(&rest[..end]), start + end + 1),
        None => (rest, text.len()),
    }
}
