//! The bytes of a program, from the deck lines of a `load` block.

ghost use Rattle.std.specs.Prelude.{◌≡◌, IfOk};
ghost use Rattle.h41_commands.specs.Blocks.{line_digits};
ghost use Rattle.h41_commands.specs.private.Contents.{AreBytesOf};

use crate::line::is_skipped;
use crate::refusal::LineRefusal;
use h41_lines::words::is_blank;
use hex::FromHexError;
use std::alloc::{AllocError, Global};

/// The bytes in the deck lines of a `load` block that were taken so far.
#[derive(Debug, Drop)]
pub struct HexBytes {
    bytes: Vec<u8>,
    /// Whether a line taken so far had something other than bytes: two hexadecimal digits each, of either case, with
    /// spaces and tabs anywhere.
    is_wrong: bool,
}

impl HexBytes {
    ghost use Rattle.std.specs.Prelude.{◌≡◌, [], IfOk, None, Ok};
    ghost use Rattle.std.specs.Result.{result_err};
    ghost use Rattle.h41_commands.specs.Blocks.{block_bytes};
    ghost use Rattle.h41_commands.specs.private.Contents.{TakesBytes, bytes_in};

    /// Returns a `load` block without lines and without bytes.
    pub fn new(alloc: Global) -> Self
        ensures { bytes_in result ≡ block_bytes [] }
    {
        HexBytes {
            bytes: Vec::new(alloc),
            is_wrong: false,
        }
    }

    /// Takes the bytes of one more deck line of the block; empty lines and comments are skipped. OutOfMemory (21) if
    /// allocation failed.
    pub fn add_line(&mut self, line: &[u8]) -> Result<(), AllocError>
        ensures { IfOk result (λ _. TakesBytes self.old line.now self.new) }
    {
        if is_skipped(line) {
            return Ok(());
        }
        match line_bytes(*self.bytes.allocator(), line)? {
            Some(bytes) => {
                if !self.is_wrong {
                    self.bytes.extend_from_slice(&bytes)?;
                }
            }
            None => self.is_wrong = true,
        }
        Ok(())
    }

    /// Returns BadNumber (51) if a line of the block had something other than bytes, otherwise `None`.
    pub fn refusal(&self) -> Option<LineRefusal>
        ensures { result ≡ result_err (bytes_in self.now) }
    {
        self.is_wrong.then_some(LineRefusal::BadNumber)
    }

    /// Returns the bytes of the block's lines. They must not be refused.
    pub fn into_bytes(self) -> Vec<u8>
        requires { result_err (bytes_in self) ≡ None }
        ensures { bytes_in self ≡ Ok result.items }
    {
        self.bytes
    }
}

/// Returns the bytes of a deck line, two hexadecimal digits each, or `None` if it has anything but an even number of
/// hexadecimal digits, spaces and tabs. OutOfMemory (21) if allocation failed.
pub(super) fn line_bytes(alloc: Global, line: &[u8]) -> Result<Option<Vec<u8>>, AllocError>
    ensures { IfOk result (AreBytesOf line.now) }
{
    match hex::decode(alloc, digits_of(alloc, line)?) {
        Ok(bytes) => Ok(Some(bytes)),
        Err(FromHexError::OutOfMemory) => Err(AllocError),
        Err(_) => Ok(None),
    }
}

/// Returns a deck line without its spaces and tabs. OutOfMemory (21) if allocation failed.
fn digits_of(alloc: Global, line: &[u8]) -> Result<Vec<u8>, AllocError>
    ensures { IfOk result (λ digits. digits.items ≡ line_digits line.now) }
{
    line.iter()
        .copied()
        .filter(|byte| !is_blank(*byte))
        .collect(alloc)
}
