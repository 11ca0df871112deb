//! The law of listings. It is the contract of a function whose body only calls the laws on which it is based.

ghost use Rattle.h41_laws_words.specs.ListingRoundTrip.{ListingAssembles};

use h41_words::laws::{second_word_round_trip, word_table_round_trip};

/// States the listing round trip: assembling the listing of words gives these words and no others, at any origin at which they fit.
/// Each word is below 1,024.
pub fn listing_round_trip()
    ensures { ListingAssembles }
{
    word_table_round_trip();
    second_word_round_trip();
}
