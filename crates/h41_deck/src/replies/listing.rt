//! The listing of words, as `list` prints it.

ghost use Rattle.std.specs.Prelude.{◌≡◌, IfOk};
ghost use Rattle.std.specs.Result.{result_err};
ghost use Rattle.h41_deck.specs.Listings as spec;
ghost use Rattle.h41_deck.specs.private.Writing.{IsListed};

use h41_commands::LineRefusal;
use h41_dis::listing;
use h41_pages::Pages;
use h41_refusals::Refusal;
use h41_words::Word;
use std::alloc::{AllocError, Global};

/// Returns the listing of `count` words from an address on, or why it is refused: SystemRom (08), EmptyPage (09), or
/// BadImage (04) if the page has fewer words after the address. OutOfMemory (21) if allocation failed.
pub fn listed(
    alloc: Global,
    pages: &Pages,
    address: u16,
    count: u16,
) -> Result<Result<Vec<u8>, Refusal>, AllocError>
    ensures { IfOk result (IsListed pages.now address count) }
{
    match words_at(pages, address, usize::from(count)) {
        Ok(words) => Ok(Ok(listing(alloc, words, address)?.into_bytes())),
        Err(refusal) => Ok(Err(refusal)),
    }
}

/// Returns `count` words of one page from an address on, or why they cannot be listed: SystemRom (08), EmptyPage (09),
/// or BadImage (04) if the page has fewer words after the address.
fn words_at(pages: &Pages, address: u16, count: usize) -> Result<&[Word], Refusal>
    ensures refusal { result_err result ≡ spec.list_refusal pages.now address count }
    ensures words { IfOk result (λ words. words.now ≡ spec.words_at pages.now address count) }
{
    let words = pages.words_from(address)?;
    if words.len() < count {
        return Err(Refusal::Line(LineRefusal::BadImage));
    }
    Ok(&words[..count])
}
