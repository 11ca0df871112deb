//! Hashes of words. They index the tables in which the code finds words.

ghost use Rattle.std.specs.Prelude.{◌≡◌};
ghost use Rattle.h41_lines.specs.private.Hashes as spec;

/// Returns the hash of a word, 0 to 255. The computation begins with `first`. For each byte, the byte is added and the sum is
/// multiplied by `factor`, modulo 65536. The hash is the upper byte of the last product. For each table, `first` and `factor` are
/// chosen so that no two of its words have the same hash.
#[inline(always)]
pub fn word_hash(word: &[u8], first: u16, factor: u16) -> u8
    ensures { result ≡ spec.word_hash first factor word.now }
{
    let mut hash = u64::from(first);
    for byte in word {
        hash = (hash + u64::from(*byte)) * u64::from(factor) % 0x10000;
    }
    (hash / 256) as u8
}
