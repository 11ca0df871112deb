//! Formats a value with `fmt::Display` into bytes.

ghost use Rattle.std.specs.Prelude.{◌≡◌, IfOk, IfSome};

use std::alloc::{AllocError, Global};
use std::fmt;

/// The number of bytes that are reserved for the text of a value, enough for the five lines of the processor. A longer
/// text reserves more.
const ROOM: usize = 256;

/// Returns the bytes of the text that `fmt::Display` writes for `shown`. OutOfMemory (21) if allocation failed.
pub fn text_of<D: fmt::Display + Drop>(alloc: Global, shown: D) -> Result<Vec<u8>, AllocError>
    ensures { IfOk result (λ text. IfSome (D.output shown) (λ bytes. text.items ≡ bytes)) }
{
    let mut text = String::with_capacity(alloc, ROOM)?;
    text.write(shown)?;
    Ok(text.into_bytes())
}
