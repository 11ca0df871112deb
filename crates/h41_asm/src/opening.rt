//! Finds the kind of instruction or directive that the first word of a source line begins.

ghost use Rattle.std.specs.Prelude.{◌≡◌, ◌<◌, IfSome};
ghost use Rattle.h41_asm.specs.private.Openings.{IsTable, OpensAs, TellsWords, entries_in, hash_of};
ghost use Rattle.h41_asm.specs.private.Openings.{place_count};

use crate::table::{OPENINGS, Opening, PLACES};
use h41_lines::hashes::word_hash;

/// Returns the kind of instruction or directive that begins with a given first word of a source line, or `None` if no
/// mnemonic and no directive begins with it.
#[inline(always)]
pub(crate) fn opening_of(first: &[u8]) -> Option<Opening>
    ensures value { OpensAs first.now result }
    ensures words { IfSome result TellsWords }
{
    opening_among(&OPENINGS, &PLACES, first)
}

/// Returns the kind of instruction or directive that a hash table has for a first word, or `None` if the table does not
/// have the word. `openings` has the first words, `places` the index of the word for each hash.
#[inline(always)]
fn opening_among(openings: &[(&str, Opening)], places: &[u8], first: &[u8]) -> Option<Opening>
    requires { IsTable (entries_in openings.now) places.now }
    ensures value { OpensAs first.now result }
    ensures words { IfSome result TellsWords }
{
    let (name, opening) = openings[usize::from(places[hash_of(first)])];
    if first == name.as_bytes() {
        Some(opening)
    } else {
        None
    }
}

/// Returns the hash, 0 to 255, of a word. It is the index in the table of first words' positions.
#[inline(always)]
fn hash_of(word: &[u8]) -> usize
    ensures value { result ≡ hash_of word.now }
    ensures bound { result < place_count }
{
    usize::from(word_hash(word, 27371, 15327))
}
