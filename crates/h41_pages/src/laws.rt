//! Laws of pages and images. Each law is the contract of a function with an empty or nearly empty body.

ghost use Rattle.h41_pages.specs.PageMap.{IsPageMap};
ghost use Rattle.h41_pages.specs.PageLaws.{ImageRoundTrip, ImageIsRead, PluggedImageIsRead};
ghost use Rattle.h41_pages.specs.PageLaws.{PluggedIsFetched, UnpluggedIsEmpty, PluggingKeepsOthers};
ghost use Rattle.h41_pages.specs.PageLaws.{UnpluggingKeepsOthers, ChoosingKeepsOthers};
ghost use Rattle.h41_pages.specs.PageLaws.{WrittenIsFetched, WritingKeepsOthers};
ghost use Rattle.h41_pages.specs.PageLaws.{ChosenIsFetched, PluggingKeepsOtherBanks};
ghost use Rattle.h41_pages.specs.PageLaws.{WritingKeepsOtherBanks, UnpluggingKeepsOtherBanks};
ghost use Rattle.h41_pages.specs.PageLaws.{ChoosingKeepsBanks};
ghost use Rattle.h41_pages.specs.FunctionLaws.{NameIsOfLabel};

use crate::pages::Pages;

/// States what is true of all pages at any time: each plugged image has the words of an image (4,096 words, none above
/// 3FF), and its page and bank are supported. So the laws of this module apply to any pages that a caller has.
pub fn pages_are_a_map(pages: &Pages)
    ensures { IsPageMap pages.now }
{
    pages.known();
}

/// States that writing and reading images are inverse. The words of an image, written as bytes, are read as the same
/// words; the bytes that `image_write` returns for a plugged bank are read as the words of this bank.
pub fn image_round_trip()
    ensures words { ImageRoundTrip }
    ensures read { ImageIsRead }
    ensures plugged { PluggedImageIsRead }
{}

/// States that a fetch from a page returns the words that are plugged at the active bank of the page.
pub fn plugged_is_fetched()
    ensures { PluggedIsFetched }
{}

/// States that a fetch returns the words that are plugged at a bank once this bank is active.
pub fn chosen_is_fetched()
    ensures { ChosenIsFetched }
{}

/// States that a fetch from a page fails as EmptyPage (09) after the page is unplugged.
pub fn unplugged_is_empty()
    ensures { UnpluggedIsEmpty }
{}

/// States that a fetch returns the word that was written at its address without an error, and that writing keeps the
/// word of every other address.
pub fn written_is_fetched()
    ensures written { WrittenIsFetched }
    ensures others { WritingKeepsOthers }
{}

/// States that plugging, unplugging and activating a bank of a page do not change what a fetch returns in another page.
pub fn other_pages_stay()
    ensures plug { PluggingKeepsOthers }
    ensures unplug { UnpluggingKeepsOthers }
    ensures choose { ChoosingKeepsOthers }
{}

/// States that plugging, writing and activating a bank keep the words of every other bank, even in the same page, and
/// that unplugging a page keeps the words of all banks of the other pages.
pub fn other_banks_stay()
    ensures plug { PluggingKeepsOtherBanks }
    ensures write { WritingKeepsOtherBanks }
    ensures unplug { UnpluggingKeepsOtherBanks }
    ensures choose { ChoosingKeepsBanks }
{}

/// States that keystroke code has a function name exactly if the line with which it begins is a global label with this
/// name.
pub fn name_is_of_label()
    ensures { NameIsOfLabel }
{}
