//! The tables that find a function or a leading word by the hash of its name. `tools/places` generates them.

ghost use Rattle.std.specs.Prelude.{◌≡◌};
ghost use Rattle.h41_text.specs.private.Places.{name_hash};

use h41_lines::hashes::word_hash;

/// Returns the hash of a name, 0 to 255. The names of two functions without a parameter never have the same hash, nor
/// do those of two leading words, such as `STO` and `GTO`.
pub(crate) fn name_hash(name: &[u8]) -> u8
    ensures { result ≡ name_hash name.now }
{
    word_hash(name, 18352, 6855)
}

/// For each hash from 0 to 255, the index in `names::FUNCTIONS` of the function whose name has this hash, or any index
/// if there is none.
pub(crate) static FUNCTION_PLACES: [u8; 256] = [
    0, 0, 38, 0, 0, 76, 0, 0, 0, 27, 0, 0, 40, 0, 67, 0, 0, 25, 0, 0, 4, 42, 0, 13, 49, 0, 60, 0,
    11, 43, 0, 24, 0, 0, 0, 0, 31, 0, 45, 0, 0, 0, 0, 21, 0, 69, 0, 0, 39, 0, 0, 0, 33, 0, 0, 0,
    14, 37, 0, 0, 0, 0, 0, 22, 63, 0, 56, 0, 0, 0, 0, 54, 0, 0, 0, 0, 0, 0, 1, 74, 0, 0, 0, 0, 0,
    29, 0, 0, 55, 0, 0, 7, 0, 36, 15, 0, 0, 32, 0, 0, 0, 0, 0, 0, 0, 0, 50, 0, 0, 0, 0, 0, 5, 77,
    0, 0, 0, 0, 9, 23, 12, 30, 0, 0, 0, 0, 0, 0, 0, 28, 0, 61, 3, 78, 0, 0, 0, 0, 0, 0, 0, 0, 35,
    64, 0, 8, 79, 0, 17, 0, 0, 0, 0, 0, 0, 0, 62, 0, 58, 0, 0, 57, 65, 0, 72, 34, 0, 59, 0, 0, 52,
    10, 0, 0, 0, 0, 0, 0, 51, 0, 0, 0, 0, 20, 66, 6, 0, 19, 0, 44, 0, 0, 0, 0, 53, 0, 0, 0, 0, 0,
    0, 0, 0, 0, 0, 0, 0, 0, 0, 0, 48, 0, 47, 16, 41, 0, 0, 0, 0, 73, 0, 0, 0, 0, 75, 0, 0, 0, 70,
    0, 26, 0, 0, 0, 0, 0, 0, 0, 0, 0, 71, 0, 0, 0, 0, 18, 0, 0, 0, 46, 0, 0, 0, 0, 2, 68,
];

/// For each hash from 0 to 255, the index in `words::WORDS` of the leading word whose name has this hash, or any index
/// if there is none.
pub(crate) static WORD_PLACES: [u8; 256] = [
    0, 0, 0, 0, 0, 0, 0, 25, 0, 0, 0, 0, 0, 0, 0, 0, 0, 0, 0, 0, 0, 0, 0, 0, 0, 0, 0, 0, 0, 9, 23,
    0, 0, 0, 0, 0, 0, 0, 0, 0, 0, 0, 0, 1, 0, 0, 20, 0, 0, 0, 0, 3, 0, 0, 0, 0, 0, 0, 0, 0, 0, 0,
    0, 0, 0, 0, 0, 0, 0, 0, 0, 0, 0, 0, 0, 0, 0, 0, 0, 0, 0, 0, 0, 0, 0, 0, 0, 0, 0, 0, 0, 0, 0, 0,
    0, 0, 0, 0, 0, 17, 0, 0, 0, 0, 0, 0, 0, 0, 0, 0, 27, 0, 13, 0, 24, 0, 0, 0, 5, 0, 0, 0, 0, 0,
    0, 0, 0, 0, 0, 0, 0, 0, 0, 0, 4, 0, 0, 0, 0, 0, 0, 0, 0, 0, 0, 0, 0, 0, 0, 0, 0, 8, 0, 0, 0, 0,
    0, 0, 0, 0, 0, 0, 0, 0, 0, 0, 0, 0, 0, 0, 0, 0, 0, 0, 0, 0, 0, 0, 6, 2, 19, 0, 0, 11, 0, 0, 0,
    0, 0, 0, 0, 0, 0, 0, 0, 21, 0, 0, 0, 0, 0, 0, 0, 0, 16, 0, 0, 0, 0, 10, 0, 0, 0, 12, 0, 0, 0,
    0, 0, 0, 0, 0, 0, 0, 0, 0, 0, 0, 0, 14, 0, 7, 0, 0, 0, 0, 0, 0, 0, 0, 0, 0, 26, 0, 0, 0, 15,
    22, 0, 18, 0, 0, 0, 0, 0, 0,
];
