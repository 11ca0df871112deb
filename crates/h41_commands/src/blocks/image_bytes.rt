//! The bytes of a page's image, from the deck lines of an `image` block.

ghost use Rattle.std.specs.Prelude.{◌≤◌, vec_len};
ghost use Rattle.h41_commands.specs.private.TakenBlocks.{most_kept};

use crate::blocks::hex_bytes::line_bytes;
use crate::line::is_skipped;
use crate::refusal::LineRefusal;
use h41_pages::{ReadRefusal, image_read, is_image_bytes};
use std::alloc::{AllocError, Global};

/// How many bytes of an image are kept: 8,193, one more than the longest image (8,192 bytes), so that an image that is
/// too long remains too long.
const KEPT: usize = 8193;

/// The bytes of an `image` block, from the deck lines that were added so far. At most 8,193 are kept: one more than an
/// image has, so that an image that is too long is still recognized.
#[derive(Debug, Drop)]
pub struct ImageBytes {
    bytes: Vec<u8>,
    /// Whether a line taken so far had something other than bytes: two hexadecimal digits each, of either case, with
    /// spaces and tabs anywhere.
    is_wrong: bool,
    ghost bounded: { vec_len bytes ≤ most_kept },
}

impl ImageBytes {
    ghost use Rattle.std.specs.Prelude.{◌≡◌, ◌≤◌, [], IfOk, None, Ok, vec_len};
    ghost use Rattle.std.specs.Result.{result_err};
    ghost use Rattle.h41_pages.specs.Addresses.{page_size};
    ghost use Rattle.h41_commands.specs.Blocks.{block_bytes, image_content};
    ghost use Rattle.h41_commands.specs.private.TakenBlocks.{kept_bytes};
    ghost use Rattle.h41_commands.specs.private.Contents.{KeepsMore, TakesImage, image_in};

    /// Returns an `image` block without lines and without bytes.
    pub fn new(alloc: Global) -> Self
        ensures { image_in result ≡ kept_bytes (block_bytes []) }
    {
        ImageBytes {
            bytes: Vec::new(alloc),
            is_wrong: false,
        }
    }

    /// Takes the bytes of one more deck line of the block; empty lines and comments are skipped. Bytes after the first
    /// 8,193 are checked but not kept. OutOfMemory (21) if allocation failed.
    pub fn add_line(&mut self, line: &[u8]) -> Result<(), AllocError>
        ensures { IfOk result (λ _. TakesImage self.old line.now self.new) }
    {
        if is_skipped(line) {
            return Ok(());
        }
        match line_bytes(*self.bytes.allocator(), line)? {
            Some(bytes) => {
                if !self.is_wrong {
                    self.keep(&bytes)?;
                }
            }
            None => self.is_wrong = true,
        }
        Ok(())
    }

    /// Appends as many of the given bytes as there is room for, up to 8,193 bytes in all. OutOfMemory (21) if
    /// allocation failed.
    fn keep(&mut self, more: &[u8]) -> Result<(), AllocError>
        ensures { IfOk result (λ _. KeepsMore self.old more.now self.new) }
    {
        let count = more.len().min(KEPT - self.bytes.len());
        self.bytes.extend_from_slice(&more[..count])?;
        Ok(())
    }

    /// Returns BadNumber (51) if a line had something other than bytes; otherwise BadImage (04) if the bytes are not
    /// the image of a page; otherwise `None`.
    pub fn refusal(&self) -> Option<LineRefusal>
        ensures { result ≡ result_err (image_content (image_in self.now)) }
    {
        if self.is_wrong {
            Some(LineRefusal::BadNumber)
        } else if !is_image_bytes(&self.bytes) {
            Some(LineRefusal::BadImage)
        } else {
            None
        }
    }

    /// Returns the words of the page whose image the bytes of the block are. The bytes must not be refused. OutOfMemory
    /// (21) if allocation failed.
    pub fn into_words(self, alloc: Global) -> Result<Vec<u16>, AllocError>
        requires { result_err (image_content (image_in self)) ≡ None }
        ensures words { IfOk result (λ words. image_content (image_in self) ≡ Ok words.items) }
        ensures bound { IfOk result (λ words. vec_len words ≤ page_size) }
    {
        match image_read(alloc, &self.bytes) {
            Ok(words) => Ok(words),
            Err(ReadRefusal::OutOfMemory) => Err(AllocError),
            Err(ReadRefusal::BadImage) => unreachable!(),
        }
    }
}
