//! Classifies a deck line before its words are read: too long, empty or a comment, or the end of a block.

ghost use Rattle.std.specs.List.{position};
ghost use Rattle.std.specs.Prelude.{◌≡◌, ◌==◌, length};
ghost use Rattle.h41_lines.specs.Words.{is_blank, words_of};
ghost use Rattle.h41_commands.specs.DeckLines.{is_end, is_long, is_only_end, is_skipped};
ghost use Rattle.h41_commands.specs.FirstLines.{first_line, first_line_by, kind_by_words};

use crate::commands::FirstWord;
use h41_lines::words::{LineWords, is_blank, word_start};

/// The greatest number of bytes of a deck line: 200. A longer line is refused as LineTooLong (53).
const MOST_BYTES: usize = 200;

/// The kind of the first deck line of a command, before its operands are read.
#[derive(Clone, Copy, Debug, PartialEq, Eq)]
pub enum LineKind {
    /// The line has more than 200 bytes: LineTooLong (53).
    Long,
    /// The line has a first word, which names the given command.
    Named(FirstWord),
}

impl LineKind {
    ghost use Rattle.h41_commands.specs.FirstLines.{opens_block};

    /// Returns whether the deck line begins a block: whether its first word is `words`, `image`, `asm`, `load` or
    /// `program`.
    #[inline(always)]
    pub fn opens_block(self) -> bool
        ensures { result ≡ opens_block self }
    {
        matches!(self, LineKind::Named(FirstWord::Opening(_)))
    }
}

/// The first deck line of a command, before its operands are read.
#[derive(Clone, Copy, Debug, PartialEq, Eq)]
pub struct FirstLine {
    /// Whether the line is too long, and otherwise the command that its first word names.
    pub kind: LineKind,
    /// The number of bytes of the line up to the end of its first word; 0 if the line is too long.
    pub name_end: usize,
}

/// Returns the kind of a deck line that is the first of a command, and where its first word ends. Returns `None` if the
/// line is empty or a comment (`#` in its first byte).
#[inline(always)]
pub(crate) fn first_line(line: &[u8]) -> Option<FirstLine>
    ensures { result ≡ first_line line.now }
{
    if is_long(line) {
        return Some(FirstLine {
            kind: LineKind::Long,
            name_end: 0,
        });
    }
    match line {
        [b'#', ..] => None,
        _ => named_line(line),
    }
}

/// Returns the kind of a deck line by its first word, and where this word ends. Returns `None` if the line has no word.
#[inline(always)]
fn named_line(line: &[u8]) -> Option<FirstLine>
    ensures { result ≡ first_line_by line.now (kind_by_words (words_of line.now)) }
{
    let start = word_start(line)?;
    let rest = &line[start + 1..];
    let name_end = start + 1 + word_end(rest).unwrap_or(rest.len());
    let name = FirstWord::of_word(&line[start..name_end]);
    Some(FirstLine {
        kind: LineKind::Named(name),
        name_end,
    })
}

/// Returns the index, in bytes from 0, of the first space or tab of a deck line, or `None` if it has none.
#[inline(always)]
fn word_end(line: &[u8]) -> Option<usize>
    ensures { result ≡ position is_blank line.now }
{
    line.iter().position(|byte| is_blank(*byte))
}

/// Returns whether a deck line is too long: whether it has more than 200 bytes.
#[inline(always)]
pub fn is_long(line: &[u8]) -> bool
    ensures { result ≡ is_long line.now }
{
    line.len() > MOST_BYTES
}

/// Returns whether a deck line is skipped, because it has no word or is a comment (its first byte is `#`).
#[inline(always)]
pub fn is_skipped(line: &[u8]) -> bool
    ensures { result ≡ is_skipped line.now }
{
    match line {
        [b'#', ..] => true,
        _ => is_blank_line(line),
    }
}

/// Returns whether a deck line has no word: whether it is empty or has only spaces and tabs.
#[inline(always)]
fn is_blank_line(line: &[u8]) -> bool
    ensures { result ≡ (length (words_of line.now) == 0) }
{
    word_start(line).is_none()
}

/// Returns whether a deck line ends a block: whether its only word is `end` and it has at most 200 bytes.
#[inline(always)]
pub fn is_end(line: &[u8]) -> bool
    ensures { result ≡ is_end line.now }
{
    match word_start(line) {
        // The first byte of the word rules out most lines without reading further.
        Some(start) if line[start] == b'e' => is_only_end(line) && !is_long(line),
        _ => false,
    }
}

/// Returns whether the only word of a deck line is `end`.
fn is_only_end(line: &[u8]) -> bool
    ensures { result ≡ is_only_end (words_of line.now) }
{
    let mut words = LineWords::new(line);
    match words.next() {
        Some(b"end") => words.next().is_none(),
        _ => false,
    }
}
