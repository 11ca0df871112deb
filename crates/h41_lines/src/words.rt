//! The words of a line.

ghost use Rattle.std.specs.Iterator.{YieldsFirstRef, item_count};
ghost use Rattle.std.specs.List.{position};
ghost use Rattle.std.specs.Prelude.{◌≡◌, not};
ghost use Rattle.h41_lines.specs.Words.{is_blank, words_of};

/// An iterator over the words of a line, which are separated by spaces and tabs.
#[derive(Debug, Drop)]
pub struct LineWords<'a> {
    /// The part of the line that is not read yet.
    pub rest: &'a [u8],
}

impl<'a> LineWords<'a> {
    /// Returns an iterator over all words of a line. Spaces and tabs separate the words.
    pub fn new(line: &'a [u8]) -> Self
        ensures { result.rest.now ≡ line.now }
    {
        LineWords { rest: line }
    }
}

impl<'a> Iterator for LineWords<'a> {
    type Item = &'a [u8];

    ghost next_gives = { YieldsFirstRef (λ s. words_of s.rest.now) };

    ghost remaining = { item_count (λ s. words_of s.rest.now) };

    fn next(&mut self) -> Option<&'a [u8]> {
        let start = word_start(self.rest)?;
        let rest = &self.rest[start..];
        let end = word_end(rest).unwrap_or(rest.len());
        let (word, rest) = rest.split_at(end);
        self.rest = rest;
        Some(word)
    }
}

/// Returns whether a byte separates words: whether it is a space or a tab.
#[inline(always)]
pub fn is_blank(byte: u8) -> bool
    ensures { result ≡ is_blank byte }
{
    matches!(byte, b' ' | b'\t')
}

/// Returns the position, from 0 in bytes, of the first byte of a line that is neither a space nor a tab, or `None` if
/// there is none.
#[inline(always)]
pub fn word_start(line: &[u8]) -> Option<usize>
    ensures { result ≡ position (λ byte. not (is_blank byte)) line.now }
{
    line.iter().position(|byte| !is_blank(*byte))
}

/// Returns the position, from 0 in bytes, of the first space or tab of a line, or `None` if there is none.
fn word_end(line: &[u8]) -> Option<usize>
    ensures { result ≡ position is_blank line.now }
{
    line.iter().position(|byte| is_blank(*byte))
}
