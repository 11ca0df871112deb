//! The lines of a text, without their line ends.

ghost use Rattle.std.specs.Iterator.{YieldsFirstRef, item_count};
ghost use Rattle.std.specs.List.{position};
ghost use Rattle.std.specs.Prelude.{◌≡◌, ◌==◌};
ghost use Rattle.std.specs.Str.Lines.{strip_carriage_return};
ghost use Rattle.h41_lines.specs.Lines.{lines};

/// An iterator over the lines of a text, each without its LF and without a CR directly before the LF. The last LF may be missing.
#[derive(Debug, Drop)]
pub struct Lines<'a> {
    /// The bytes of the text that are not read yet, from the beginning of the next line on.
    pub rest: &'a [u8],
}

impl<'a> Lines<'a> {
    /// Returns an iterator over all lines of a text, each without its LF and without a CR directly before the LF.
    pub fn new(text: &'a [u8]) -> Self
        ensures { result.rest.now ≡ text.now }
    {
        Lines { rest: text }
    }
}

impl<'a> Iterator for Lines<'a> {
    type Item = &'a [u8];

    ghost next_gives = { YieldsFirstRef (λ s. lines s.rest.now) };

    ghost remaining = { item_count (λ s. lines s.rest.now) };

    #[inline(always)]
    fn next(&mut self) -> Option<&'a [u8]> {
        let text = self.rest;
        if text.is_empty() {
            return None;
        }
        match line_end(text) {
            Some(end) => {
                self.rest = &text[end + 1..];
                Some(without_return(&text[..end]))
            }
            None => {
                self.rest = &[];
                Some(text)
            }
        }
    }
}

/// Returns the position, from 0 in bytes, of the first LF of a text, or `None` if it has none.
#[inline(always)]
pub fn line_end(text: &[u8]) -> Option<usize>
    ensures { result ≡ position (λ byte. byte == 10) text.now }
{
    text.iter().position(|byte| *byte == b'\n')
}

/// Returns a line without the CR at its end, if it has one.
#[inline(always)]
pub fn without_return(line: &[u8]) -> &[u8]
    ensures { result.now ≡ strip_carriage_return line.now }
{
    match line {
        [line @ .., b'\r'] => line,
        _ => line,
    }
}
