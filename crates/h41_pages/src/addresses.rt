//! The addresses of words: sixteen pages of 4,096 words.

ghost use Rattle.std.specs.Prelude.{◌≡◌, ◌<◌};
ghost use Rattle.h41_pages.specs.Addresses as spec;

/// The number of pages of the address space, 16.
pub const PAGES: usize = 16;

/// The number of words of a page, 4,096.
pub const PAGE_WORDS: usize = 4096;

/// The first address, 4000, of the pages that can be plugged. Those below it belong to the system's ROM, which is not
/// supported (this project's choice).
pub const FIRST_ADDRESS: u16 = 0x4000;

/// The first page that can be plugged, 4. Pages 0 to 3 belong to the system's ROM.
const FIRST_PAGE: u8 = 4;

/// The last page that can be plugged, F.
const LAST_PAGE: u8 = 15;

/// Returns whether a page can be plugged: whether it is 4 to F (this project's choice).
pub fn is_pluggable(page: u8) -> bool
    ensures { result ≡ spec.is_pluggable page }
{
    (FIRST_PAGE..=LAST_PAGE).contains(&page)
}

/// Returns the page of an address, 0 to 15: its first hexadecimal digit.
#[inline(always)]
pub fn page_of(address: u16) -> usize
    ensures page { result ≡ spec.page_of address }
    ensures bound { result < 16 }
{
    usize::from(address) / PAGE_WORDS
}

/// Returns the offset of an address in its page, 0 to 4,095: its other three digits.
pub fn offset_of(address: u16) -> usize
    ensures offset { result ≡ spec.offset_of address }
    ensures bound { result < spec.page_size }
{
    usize::from(address) % PAGE_WORDS
}
