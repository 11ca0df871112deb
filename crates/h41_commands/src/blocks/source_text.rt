//! The source of a page's words or the text of a program, from the deck lines of an `asm` or a `program` block.

ghost use Rattle.std.specs.Prelude.{◌≡◌, ◌≤◌, IfOk, vec_len};
ghost use Rattle.h41_pages.specs.Addresses.{page_size};
ghost use Rattle.h41_commands.specs.private.Contents.{values_in};
ghost use Rattle.h41_commands.specs.PageBlocks.{words_of_page};

use crate::blocks::page_words::PAGE_WORDS;
use crate::blocks::program_text::program_bytes;
use crate::line::is_skipped;
use crate::refusal::LineRefusal;
use h41_asm::{AssembleError, assemble};
use h41_words::Word;
use std::alloc::{AllocError, Global};

/// The number of bytes that are reserved for the text when the first line is taken: sixteen for each word of a page.
const ROOM: usize = 16 * PAGE_WORDS;

/// The number of pages of the calculator: 16.
const PAGES: u8 = 16;

/// The text of the deck lines of an `asm` or `program` block that were taken so far, each followed by an LF.
#[derive(Debug, Drop)]
pub struct SourceText {
    text: Vec<u8>,
}

impl SourceText {
    ghost use Rattle.std.specs.Prelude.{◌≡◌, ◌≤◌, [], IfOk, vec_len};
    ghost use Rattle.h41_pages.specs.Addresses.{page_size};
    ghost use Rattle.h41_commands.specs.Blocks.{block_source};
    ghost use Rattle.h41_commands.specs.private.Contents.{TakesSource, source_in};
    ghost use Rattle.h41_commands.specs.private.Contents.{FillsFrom, values_in};
    ghost use Rattle.h41_commands.specs.ProgramBlocks.{TextSpells};

    /// Returns an `asm` or `program` block without lines.
    pub fn new(alloc: Global) -> Self
        ensures { source_in result ≡ block_source [] }
    {
        SourceText {
            text: Vec::new(alloc),
        }
    }

    /// Takes one more deck line of the block. An empty line or a comment is kept as an empty line, so that line numbers
    /// remain correct. OutOfMemory (21) if allocation failed.
    #[inline(always)]
    pub fn add_line(&mut self, line: &[u8]) -> Result<(), AllocError>
        ensures { IfOk result (λ _. TakesSource self.old line.now self.new) }
    {
        if self.text.is_empty() {
            self.text.reserve(ROOM)?;
        }
        if !is_skipped(line) {
            self.text.extend_from_slice(line)?;
        }
        self.text.push(b'\n')?;
        Ok(())
    }

    /// Returns the bytes of the program whose text the block has, or BadText (41) with the number of the first line,
    /// counted from 1, that is not the text of a program line. OutOfMemory (21) if allocation failed.
    pub fn into_bytes(self, alloc: Global) -> Result<Result<Vec<u8>, LineRefusal>, AllocError>
        ensures { IfOk result (λ made. TextSpells (source_in self) (values_in made)) }
    {
        program_bytes(alloc, &self.text)
    }

    /// Returns the words of the source, assembled from the first address of a page, 0 to 15.
    ///
    /// # Errors
    ///
    /// The source is refused with the number (30 to 35) of its first error, or with BadImage (04) if it has more than
    /// 4,096 words. `AllocError` if memory for the words could not be had (OutOfMemory, 21).
    pub fn into_words(
        self,
        alloc: Global,
        page: u8,
    ) -> Result<Result<Vec<u16>, LineRefusal>, AllocError>
        ensures words { IfOk result (FillsFrom page (source_in self)) }
        ensures bound { IfOk result (λ made. IfOk made (λ words. vec_len words ≤ page_size)) }
    {
        match assemble(
            alloc,
            &self.text,
            u16::from(page % PAGES) * PAGE_WORDS as u16,
        ) {
            Ok(words) => page_numbers(alloc, &words),
            Err(AssembleError::Line { fault, line }) => {
                Ok(Err(LineRefusal::of_source_line(fault, line)))
            }
            Err(AssembleError::OutOfMemory) => Err(AllocError),
        }
    }
}

/// Returns the numbers of the given words, 000 to 3FF (hexadecimal), or BadImage (04) if there are more than 4,096
/// words. OutOfMemory (21) if allocation failed.
fn page_numbers(alloc: Global, words: &[Word]) -> Result<Result<Vec<u16>, LineRefusal>, AllocError>
    ensures fitting { IfOk result (λ made. values_in made ≡ words_of_page words.now) }
    ensures bound { IfOk result (λ made. IfOk made (λ words. vec_len words ≤ page_size)) }
{
    if words.len() > PAGE_WORDS {
        return Ok(Err(LineRefusal::BadImage));
    }
    let mut numbers = Vec::with_capacity(alloc, words.len())?;
    for word in words {
        numbers.push(word.number())?;
    }
    Ok(Ok(numbers))
}
