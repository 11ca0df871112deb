//! The block of a deck's command: the deck lines between the command's line and `end`. One type takes the lines of
//! every kind of block one at a time, and one function decides whether they are refused.

ghost use Rattle.std.specs.Prelude.{◌≡◌, ◌≤◌, IfOk, None, vec_len};
ghost use Rattle.std.specs.Result.{result_err};
ghost use Rattle.h41_pages.specs.Addresses.{page_size};
ghost use Rattle.h41_commands.specs.private.TakenBlocks.{IsNew, Takes, judgement};
ghost use Rattle.h41_commands.specs.private.Contents.{FillsBy, IsForPage, IsForProgram, MeansBy};

use crate::blocks::hex_bytes::HexBytes;
use crate::blocks::image_bytes::ImageBytes;
use crate::blocks::page_words::PageWords;
use crate::blocks::source_text::SourceText;
use crate::commands::{BlockKind, PageKind, ProgramKind};
use crate::line::is_long;
use crate::refusal::LineRefusal;
use std::alloc::{AllocError, Global};
use std::marker::Model;

pub mod hex_bytes;
pub mod image_bytes;
pub mod page_words;
mod program_text;
pub mod source_text;

/// The lines of a command's block that were taken so far.
#[derive(Debug, Drop)]
pub struct Block {
    content: Content,
    has_long: bool,
}

/// What the lines of a block that were taken so far contain, by the kind of block.
#[derive(Debug, Drop)]
enum Content {
    /// The command is refused, so its block is ignored.
    Nothing,
    /// The words of a page, from `words`.
    Words(PageWords),
    /// The bytes of a page's image, from `image`.
    Image(ImageBytes),
    /// The source of a page's words, from `asm`.
    Source(SourceText),
    /// The bytes of a program, from `load`.
    Bytes(HexBytes),
    /// The text of a program, from `program`.
    Text(SourceText),
}

impl Model for Block {
    ghost use Rattle.h41_commands.specs.private.TakenBlocks.{TakenBlock};
    ghost use Rattle.h41_commands.specs.private.Contents.{content_in, kind_in};

    ghost Value = { TakenBlock };

    ghost view = { λ block. record {
      kind = kind_in block.content;
      has_long = block.has_long;
      content = content_in block.content;
    } };
}

impl Block {
    /// Returns an empty block of the given kind. The method `line` then adds each deck line that follows the command's
    /// line. `None` is the kind of a line that is refused; the contents of its block's lines are ignored.
    pub(crate) fn of_kind(alloc: Global, kind: Option<BlockKind>) -> Self
        ensures { IsNew kind result }
    {
        let content = match kind {
            None => Content::Nothing,
            Some(BlockKind::Page(PageKind::Words)) => Content::Words(PageWords::new(alloc)),
            Some(BlockKind::Page(PageKind::Image)) => Content::Image(ImageBytes::new(alloc)),
            Some(BlockKind::Page(PageKind::Asm)) => Content::Source(SourceText::new(alloc)),
            Some(BlockKind::Program(ProgramKind::Bytes)) => Content::Bytes(HexBytes::new(alloc)),
            Some(BlockKind::Program(ProgramKind::Text)) => Content::Text(SourceText::new(alloc)),
        };
        Block {
            content,
            has_long: false,
        }
    }

    /// Takes one more deck line of the block. If it has more than 200 bytes, the block is refused as LineTooLong (53).
    ///
    /// # Errors
    ///
    /// OutOfMemory (21) if allocation failed; the block cannot be used afterwards.
    #[inline(always)]
    pub fn line(&mut self, text: &[u8]) -> Result<(), AllocError>
        ensures { IfOk result (λ _. Takes self.old text.now self.new) }
    {
        if is_long(text) {
            self.has_long = true;
            return Ok(());
        }
        match &mut self.content {
            Content::Nothing => Ok(()),
            Content::Words(words) => words.add_line(text),
            Content::Image(bytes) => bytes.add_line(text),
            Content::Source(source) => source.add_line(text),
            Content::Bytes(bytes) => bytes.add_line(text),
            Content::Text(lines) => lines.add_line(text),
        }
    }

    /// Returns the error for which the lines of the block are refused, or `None`: LineTooLong (53), before any other
    /// error; BadNumber (51) or BadImage (04) for words, bytes and images. Sources and program texts are checked only
    /// by `into_words` and `into_bytes`.
    pub fn refusal(&self) -> Option<LineRefusal>
        ensures { result ≡ result_err (judgement self.now) }
    {
        match &self.content {
            _ if self.has_long => Some(LineRefusal::LineTooLong),
            Content::Nothing | Content::Source(_) | Content::Text(_) => None,
            Content::Words(words) => words.refusal(),
            Content::Image(bytes) => bytes.refusal(),
            Content::Bytes(bytes) => bytes.refusal(),
        }
    }

    /// Returns the words that the lines of the block define for a page, 0 to 15, at most 4,096 of them, or the error
    /// for which they define none: an assembler error (30 to 35), or BadImage (04) if the source has more words than a
    /// page.
    ///
    /// # Errors
    ///
    /// OutOfMemory (21) if allocation failed.
    pub fn into_words(
        self,
        alloc: Global,
        page: u8,
    ) -> Result<Result<Vec<u16>, LineRefusal>, AllocError>
        requires kind { IsForPage self }
        requires accepted { result_err (judgement self) ≡ None }
        ensures words { IfOk result (FillsBy self page) }
        ensures bound { IfOk result (λ made. IfOk made (λ words. vec_len words ≤ page_size)) }
    {
        match self.content {
            Content::Words(words) => Ok(Ok(words.into_words())),
            Content::Image(bytes) => Ok(Ok(bytes.into_words(alloc)?)),
            Content::Source(source) => source.into_words(alloc, page),
            Content::Nothing | Content::Bytes(_) | Content::Text(_) => unreachable!(),
        }
    }

    /// Returns the bytes of the program that the lines of the block define, or BadText (41) if a deck line of a
    /// `program` block is not the text of a program line.
    ///
    /// # Errors
    ///
    /// OutOfMemory (21) if allocation failed.
    pub fn into_bytes(self, alloc: Global) -> Result<Result<Vec<u8>, LineRefusal>, AllocError>
        requires kind { IsForProgram self }
        requires accepted { result_err (judgement self) ≡ None }
        ensures bytes { IfOk result (MeansBy self) }
    {
        match self.content {
            Content::Bytes(bytes) => Ok(Ok(bytes.into_bytes())),
            Content::Text(text) => text.into_bytes(alloc),
            Content::Nothing | Content::Words(_) | Content::Image(_) | Content::Source(_) => {
                unreachable!()
            }
        }
    }
}
