//! The words of a line of an assembler source.

ghost use Rattle.std.specs.Iterator.{YieldsFirstRef, item_count};
ghost use Rattle.std.specs.Prelude.{◌≡◌, ◌≤◌, ◌==◌, ◌||◌, false, not, length};
ghost use Rattle.h41_asm.specs.SourceLines.{is_blank, part_length, words_of};

use h41_lines::words::word_start;

/// An iterator over the words of a source line. Spaces and tabs outside quotes separate words, and a `;` outside quotes begins a
/// comment.
#[derive(Clone, Copy)]
pub struct SourceWords<'a> {
    /// The part of the source line that is not read yet. It begins outside quotes.
    pub rest: &'a [u8],
}

impl<'a> SourceWords<'a> {
    /// Returns an iterator over all words of a source line, up to a comment.
    #[inline(always)]
    pub fn new(line: &'a [u8]) -> Self
        ensures { result.rest.now ≡ line.now }
    {
        SourceWords { rest: line }
    }
}

impl<'a> Iterator for SourceWords<'a> {
    type Item = &'a [u8];

    ghost next_gives = { YieldsFirstRef (λ s. words_of s.rest.now) };

    ghost remaining = { item_count (λ s. words_of s.rest.now) };

    #[inline(always)]
    fn next(&mut self) -> Option<&'a [u8]> {
        let start = word_start(self.rest)?;
        let rest = &self.rest[start..];
        let (word, rest) = rest.split_at(word_end(rest));
        if word.is_empty() {
            return None;
        }
        self.rest = rest;
        Some(word)
    }
}

/// Returns the number of bytes of a source line before its first space, tab or `;` outside quotes, or of the whole line
/// if it has none.
#[inline(always)]
fn word_end(line: &[u8]) -> usize
    ensures value { result ≡ part_length false line.now }
    ensures bound { result ≤ length line.now }
{
    let mut quoted = false;
    for (i, byte) in line.iter().enumerate() {
        if is_within(*byte) {
            continue;
        }
        if *byte == b'"' {
            quoted = !quoted;
        } else if !quoted {
            return i;
        }
    }
    line.len()
}

/// A table with a 1 for each byte that ends a word of a source line or that begins or ends quotes: tab, space, quote
/// and `;`. All other bytes have a 0.
#[rattlefmt::skip]
const ENDS: [u8; 256] = [
    0, 0, 0, 0, 0, 0, 0, 0, 0, 1, 0, 0, 0, 0, 0, 0,
    0, 0, 0, 0, 0, 0, 0, 0, 0, 0, 0, 0, 0, 0, 0, 0,
    1, 0, 1, 0, 0, 0, 0, 0, 0, 0, 0, 0, 0, 0, 0, 0,
    0, 0, 0, 0, 0, 0, 0, 0, 0, 0, 0, 1, 0, 0, 0, 0,
    0, 0, 0, 0, 0, 0, 0, 0, 0, 0, 0, 0, 0, 0, 0, 0,
    0, 0, 0, 0, 0, 0, 0, 0, 0, 0, 0, 0, 0, 0, 0, 0,
    0, 0, 0, 0, 0, 0, 0, 0, 0, 0, 0, 0, 0, 0, 0, 0,
    0, 0, 0, 0, 0, 0, 0, 0, 0, 0, 0, 0, 0, 0, 0, 0,
    0, 0, 0, 0, 0, 0, 0, 0, 0, 0, 0, 0, 0, 0, 0, 0,
    0, 0, 0, 0, 0, 0, 0, 0, 0, 0, 0, 0, 0, 0, 0, 0,
    0, 0, 0, 0, 0, 0, 0, 0, 0, 0, 0, 0, 0, 0, 0, 0,
    0, 0, 0, 0, 0, 0, 0, 0, 0, 0, 0, 0, 0, 0, 0, 0,
    0, 0, 0, 0, 0, 0, 0, 0, 0, 0, 0, 0, 0, 0, 0, 0,
    0, 0, 0, 0, 0, 0, 0, 0, 0, 0, 0, 0, 0, 0, 0, 0,
    0, 0, 0, 0, 0, 0, 0, 0, 0, 0, 0, 0, 0, 0, 0, 0,
    0, 0, 0, 0, 0, 0, 0, 0, 0, 0, 0, 0, 0, 0, 0, 0,
];

/// Returns whether a byte is an ordinary byte of a word: neither a space, a tab or a `;`, which end a word outside
/// quotes, nor a quote.
#[inline(always)]
fn is_within(byte: u8) -> bool
    ensures { result ≡ not (is_blank byte || byte == 59 || byte == 34) }
{
    ENDS[byte as usize] == 0
}
