//! The ROM words of directives: names of functions, and their table entries.

ghost use Rattle.std.specs.Prelude.{◌≡◌, ◌%◌, ◌<◌, [], ◌∷◌, ◌++◌, map, reverse, OnOk};
ghost use Rattle.h41_words.specs.Counts.{word_count};
ghost use Rattle.h41_asm.specs.private.CodeStatements.{backward_words, entry_bits};
ghost use Rattle.h41_asm.specs.Placing.{entry_words as words_of_entry};
ghost use Rattle.h41_asm.specs.Statements.{name_words};

use crate::table::EntryKind;
use h41_words::Word;
use std::alloc::AllocError;

/// Returns the two words of a function's table entry, which give the function's address in its page, 000 to FFF
/// (hexadecimal). The first word has the highest digit of this address and, for a keystroke program, the bit 200; the
/// second word has the two low digits.
pub(crate) fn entry_words(kind: EntryKind, address: u16) -> (Word, Word)
    ensures { result.0 ∷ result.1 ∷ [] ≡ words_of_entry (entry_bits kind) address }
{
    let place = address % 0x1000;
    let bits = match kind {
        EntryKind::Microcode => 0,
        EntryKind::Keystroke => 0x200,
    };
    (rom_word(bits + place / 0x100), rom_word(place % 0x100))
}

/// Appends the words of a function's name: one word a character, the last character first, with bit 7 set in the word
/// of the last character. Each word has the character modulo 64. The error means that allocation failed.
pub(crate) fn push_name(words: &mut Vec<Word>, text: &[u8]) -> Result<(), AllocError>
    ensures { OnOk result (words.new.items ≡ words.old.items ++ name_words text.now) }
{
    if let Some((last, others)) = text.split_last() {
        words.push(rom_word(u16::from(*last % 64) + 0x80))?;
        push_codes(words, others)?;
    }
    Ok(())
}

/// Appends one word for each character, the last character first. The word is the character's code modulo 64. The error
/// means that allocation failed.
fn push_codes(words: &mut Vec<Word>, text: &[u8]) -> Result<(), AllocError>
    ensures { OnOk result (words.new.items ≡ words.old.items ++ backward_words text.now) }
{
    for byte in text.iter().rev() {
        words.push(rom_word(u16::from(*byte % 64)))?;
    }
    Ok(())
}

/// Returns the ROM word with a number from 000 to 3FF (hexadecimal).
pub(crate) fn rom_word(number: u16) -> Word
    requires { number < word_count }
    ensures { result ≡ number }
{
    Word::new(number).unwrap()
}
