//! Lists words as `bench dis` prints them.

ghost use Rattle.std.specs.Prelude.{◌≡◌, ◌≤◌, IfOk, length};
ghost use Rattle.h41_ends.specs.Ends.{most_bytes};
ghost use Rattle.h41_jobs.specs.Texts.{AnswersList, ReadsAs, words_or_number};
ghost use Rattle.h41_jobs.specs.WordTexts.{is_white_space};

use crate::ended::{Answer, Ended};
use crate::numbers::word_value;
use h41_dis::disassemble;
use h41_words::Word;
use std::alloc::{AllocError, Global};

/// Returns what `bench dis` prints for a text of words, which white space separates: a line for each instruction. If a
/// word is not a hexadecimal number up to 3FF, the text of the answer is empty, and `ended` has the number of the first
/// such word.
///
/// # Errors
///
/// OutOfMemory (21) if allocation failed.
pub fn listing(alloc: Global, text: &[u8], origin: u16) -> Result<Answer, AllocError>
    requires { length text.now ≤ most_bytes }
    ensures { IfOk result (AnswersList text.now) }
{
    match words_in(alloc, text)? {
        Ok(words) => Ok(Answer {
            text: disassemble(alloc, &words, origin)?.into_bytes(),
            ended: Ended::Accepted,
        }),
        Err(number) => Ok(Answer {
            text: Vec::new(alloc),
            ended: Ended::WrongWord(number),
        }),
    }
}

/// Returns the words in a text, which white space separates, or the number of the first one that is not a hexadecimal
/// number up to 3FF, counted from 1. OutOfMemory (21) if allocation failed.
fn words_in(alloc: Global, text: &[u8]) -> Result<Result<Vec<Word>, usize>, AllocError>
    ensures { IfOk result (λ said. ReadsAs text.now (words_or_number said)) }
{
    let mut words = Vec::new(alloc);
    let parts = text
        .split(|byte| is_white_space(*byte))
        .filter(|part| !part.is_empty());
    for part in parts {
        match word_value(part) {
            Some(word) => words.push(word)?,
            None => return Ok(Err(words.len() + 1)),
        }
    }
    Ok(Ok(words))
}

/// Returns whether a byte separates words: a tab, LF, FF, CR or a space.
fn is_white_space(byte: u8) -> bool
    ensures { result ≡ is_white_space byte }
{
    matches!(byte, b'\t' | b'\n' | b'\x0C' | b'\r' | b' ')
}
