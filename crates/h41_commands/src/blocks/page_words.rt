//! The words of a page, from the deck lines of a `words` block.

ghost use Rattle.std.specs.Prelude.{◌≤◌, vec_len};
ghost use Rattle.h41_pages.specs.Addresses.{page_size};

use crate::commands::number::hexadecimal;
use crate::line::is_skipped;
use crate::refusal::LineRefusal;
use h41_lines::words::LineWords;
use std::alloc::{AllocError, Global};

/// The number of words of a page: 4,096.
pub const PAGE_WORDS: usize = 4096;

/// The greatest value of a word: 3FF (hexadecimal), because a word has ten bits.
const GREATEST: u16 = 0x3FF;

/// What the deck lines of a `words` block give, read line by line: the words of a page's image, at most 4,096, and the
/// refusal if a line is wrong.
#[derive(Debug, Drop)]
pub struct PageWords {
    words: Vec<u16>,
    /// The error of the lines taken so far. BadNumber (51), for a word that is not 1 to 3 hexadecimal digits, replaces
    /// BadImage (04), for a word above 3FF (hexadecimal) or one word too many.
    fault: Option<LineRefusal>,
    ghost bounded: { vec_len words ≤ page_size },
}

impl PageWords {
    ghost use Rattle.std.specs.Prelude.{◌≡◌, ◌≤◌, [], IfOk, None, Ok, vec_len};
    ghost use Rattle.std.specs.Result.{result_err};
    ghost use Rattle.h41_commands.specs.Blocks.{word_values};
    ghost use Rattle.h41_commands.specs.private.Contents.{TakesLine, TakesWord, words_in};

    /// Returns a `words` block without lines and without words.
    pub fn new(alloc: Global) -> Self
        ensures { words_in result ≡ word_values [] }
    {
        PageWords {
            words: Vec::new(alloc),
            fault: None,
        }
    }

    /// Takes the words of one more deck line of the block; empty lines and comments are skipped. OutOfMemory (21) if
    /// allocation failed.
    pub fn add_line(&mut self, line: &[u8]) -> Result<(), AllocError>
        ensures { IfOk result (λ _. TakesLine self.old line.now self.new) }
    {
        if !is_skipped(line) {
            for word in LineWords::new(line) {
                self.add(word)?;
            }
        }
        Ok(())
    }

    /// Takes one more word of a `words` block, 1 to 3 hexadecimal digits. A wrong word is noted as an error of the
    /// block. OutOfMemory (21) if allocation failed.
    fn add(&mut self, word: &[u8]) -> Result<(), AllocError>
        ensures { IfOk result (λ _. TakesWord self.old word.now self.new) }
    {
        match hexadecimal(1, 3, word) {
            Err(fault) => self.fault = Some(fault),
            Ok(value) if value > GREATEST || self.words.len() == PAGE_WORDS => {
                self.fault = self.fault.or(Some(LineRefusal::BadImage));
            }
            Ok(value) => {
                if self.fault.is_none() {
                    self.words.push(value)?;
                }
            }
        }
        Ok(())
    }

    /// Returns BadNumber (51) if a word is not 1 to 3 hexadecimal digits; otherwise BadImage (04) if a word is above
    /// 3FF (hexadecimal) or there are more than 4,096; otherwise `None`.
    pub fn refusal(&self) -> Option<LineRefusal>
        ensures { result ≡ result_err (words_in self.now) }
    {
        self.fault
    }

    /// Returns the words of the block's lines, at most 4,096. They must not be refused.
    pub fn into_words(self) -> Vec<u16>
        requires { result_err (words_in self) ≡ None }
        ensures words { words_in self ≡ Ok result.items }
        ensures bound { vec_len result ≤ page_size }
    {
        self.words
    }
}
