//! The image in a bank of a page, as `show image` prints it.

ghost use Rattle.std.specs.Prelude.{◌≡◌, ◌<◌, ◌≤◌, ◌+◌, ◌*◌, ◌++◌, IfOk, OnOk, length, take, drop};
ghost use Rattle.h41_pages.specs.Images.{image_size};
ghost use Rattle.h41_views.specs.PageViews as spec;

use h41_lines::characters::byte_digits;
use std::alloc::{AllocError, Global};

/// The number of lines that `show image` prints: 256.
const LINES: usize = 256;

/// The number of bytes of an image that `show image` prints on one line: 32.
const LINE_BYTES: usize = 32;

/// Returns the bytes of the image of a bank as 256 lines of 32 bytes each, two hexadecimal digits a byte. OutOfMemory
/// (21) if allocation failed.
pub fn image_text(alloc: Global, bytes: &[u8]) -> Result<Vec<u8>, AllocError>
    requires { length bytes.now ≡ image_size }
    ensures { IfOk result (λ text. text.items ≡ spec.image_text bytes.now) }
{
    let mut text = Vec::new(alloc);
    for line in 0..LINES {
        let start = LINE_BYTES * line;
        let row = &bytes[start..start + LINE_BYTES];
        push_line(&mut text, row)?;
    }
    Ok(text)
}

/// Appends bytes as one line: two hexadecimal digits for each, and LF at the end. OutOfMemory (21) if allocation
/// failed.
fn push_line(text: &mut Vec<u8>, bytes: &[u8]) -> Result<(), AllocError>
    ensures { OnOk result (text.new.items ≡ text.old.items ++ spec.bytes_line bytes.now) }
{
    for byte in bytes {
        text.extend_from_slice(byte_digits(*byte).as_str().as_bytes())?;
    }
    text.extend_from_slice(b"\n")
}
