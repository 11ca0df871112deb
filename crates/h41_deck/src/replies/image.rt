//! The image in a bank of a page, as `show image` prints it.

ghost use Rattle.std.specs.Prelude.{IfOk};
ghost use Rattle.h41_deck.specs.private.Writing.{IsImageShown};

use h41_pages::{ImageRefusal, Pages};
use h41_refusals::Refusal;
use h41_views::image_text;
use std::alloc::{AllocError, Global};

/// Returns the lines that `show image` prints for the bank of a page, or why it is refused: NoSuchPage (01) or
/// NotPlugged (03). OutOfMemory (21) if allocation failed.
pub fn image_shown(
    alloc: Global,
    pages: &Pages,
    page: u8,
    bank: u8,
) -> Result<Result<Vec<u8>, Refusal>, AllocError>
    ensures { IfOk result (IsImageShown pages.now page bank) }
{
    match pages.image_write(alloc, page, bank) {
        Ok(bytes) => Ok(Ok(image_text(alloc, &bytes)?)),
        Err(refusal) => match refusal {
            ImageRefusal::OutOfMemory => Err(AllocError),
            other => Ok(Err(Refusal::from(other))),
        },
    }
}
