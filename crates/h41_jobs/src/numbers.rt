//! Reads words that are written in hexadecimal.

ghost use Rattle.std.specs.Prelude.{◌≡◌};
ghost use Rattle.h41_jobs.specs.WordTexts.{word_value};

use h41_lines::numbers::number_up_to;
use h41_words::Word;

/// The greatest number that a word of ten bits can have: 3FF (hexadecimal).
const GREATEST_WORD: u32 = 0x3FF;

/// Returns the word whose number is `digits` in hexadecimal. Letters may be in either case, and leading zeros are
/// allowed. Returns `None` if `digits` is empty, has a byte that is not a hexadecimal digit, or is above 3FF.
pub fn word_value(digits: &[u8]) -> Option<Word>
    ensures { result ≡ word_value digits.now }
{
    Word::new(number_up_to(GREATEST_WORD, 16, digits)? as u16)
}
