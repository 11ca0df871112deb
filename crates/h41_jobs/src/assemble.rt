//! Assembles a source, and formats its words or its error as `bench asm` prints them.

ghost use Rattle.std.specs.Prelude.{◌≡◌, ◌≤◌, IfOk, length};
ghost use Rattle.h41_ends.specs.Ends.{most_bytes};
ghost use Rattle.h41_jobs.specs.Texts.{AnswersSource};
ghost use Rattle.h41_jobs.specs.WordTexts.{word_line, word_lines};

use crate::ended::{Answer, Ended};
use h41_asm::{AssembleError, assemble};
use h41_commands::LineRefusal;
use h41_digits::glyph;
use h41_refusals::Refusal;
use h41_words::Word;
use std::alloc::{AllocError, Global};

/// Returns what `bench asm` prints for a source whose first word is at the address `origin`: its words, each as three
/// hexadecimal digits on a line of its own, or only the line of its first error (30 to 35), for example
/// `! 30 BadLine 2`.
///
/// # Errors
///
/// OutOfMemory (21) if allocation failed.
pub fn assembly(alloc: Global, source: &[u8], origin: u16) -> Result<Answer, AllocError>
    requires { length source.now ≤ most_bytes }
    ensures { IfOk result (AnswersSource origin source.now) }
{
    match assemble(alloc, source, origin) {
        Ok(words) => Ok(Answer {
            text: word_lines(alloc, &words)?,
            ended: Ended::Accepted,
        }),
        Err(AssembleError::Line { fault, line }) => {
            let refusal = Refusal::from(LineRefusal::of_source_line(fault, line));
            Ok(Answer {
                text: Vec::from_slice(alloc, refusal.line().as_str().as_bytes())?,
                ended: Ended::Refused,
            })
        }
        Err(AssembleError::OutOfMemory) => Err(AllocError),
    }
}

/// Returns words as text: each as three hexadecimal digits in upper case on a line of its own. OutOfMemory (21) if
/// allocation failed.
fn word_lines(alloc: Global, words: &[Word]) -> Result<Vec<u8>, AllocError>
    ensures { IfOk result (λ lines. lines.items ≡ word_lines words.now) }
{
    let mut lines = Vec::new(alloc);
    for word in words {
        lines.extend_from_slice(&word_line(*word))?;
    }
    Ok(lines)
}

/// Returns the line of a word: three hexadecimal digits in upper case, and LF.
fn word_line(word: Word) -> [u8; 4]
    ensures { result ≡ word_line word }
{
    let number = word.number();
    [
        glyph((number / 256) as u8),
        glyph((number / 16 % 16) as u8),
        glyph((number % 16) as u8),
        b'\n',
    ]
}
