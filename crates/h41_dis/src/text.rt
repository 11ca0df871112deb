//! Formats one instruction as text, for example `LDI 123`.

ghost use Rattle.std.specs.Prelude.{◌≡◌, ◌+◌, ◌*◌, ◌≤◌, ◌<◌, ◌++◌, ℕ, ℤ, length};
ghost use Rattle.std.specs.Fmt.{decimal};
ghost use Rattle.arrayvec.specs.ArrayString.{array_string_len};
ghost use Rattle.h41_digits.specs.Register.{hexadecimal_text};
ghost use Rattle.h41_words.specs.Mnemonics.{address_text, behind, displacement_text, mnemonic};
ghost use Rattle.h41_words.specs.Mnemonics.{operand, row_text};
ghost use Rattle.h41_dis.specs.Spelling.{piece_text};

use crate::text::names::{field_name, long_jump_name, mnemonic};
use arrayvec::ArrayString;
use h41_lines::characters::{glyph_text, push_byte_digits};
use h41_words::{Displacement, Row, SecondWord, Word, row, word};

mod names;

/// The capacity of the text of an instruction, in bytes.
const TEXT: usize = 32;

/// Returns the text of an instruction in upper case: its mnemonic, followed by its operand if it has one. `second` is
/// the word after `first`; it is used only if the instruction has two words. The text is `CON hhh`, with the three
/// hexadecimal digits of `first`, if `first` is no instruction, and if it is the first word of an instruction of two
/// words and `second` is `None`.
pub fn instruction(first: Word, second: Option<Word>) -> ArrayString<TEXT>
    ensures { result.bytes ≡ piece_text first second }
{
    let mut text = ArrayString::new();
    push_instruction(&mut text, first, second);
    text
}

/// Appends the text of an instruction in upper case, its mnemonic and its operand, at most 14 bytes. `second` is the
/// word after `first`; it is used only if the instruction has two words. `text` must have room for 14 more bytes.
pub(crate) fn push_instruction<const N: usize>(
    text: &mut ArrayString<N>,
    first: Word,
    second: Option<Word>,
)
    requires { array_string_len text.old + 14 ≤ N }
    ensures text { text.new.bytes ≡ text.old.bytes ++ piece_text first second }
    ensures length { array_string_len text.new ≤ array_string_len text.old + 14 }
{
    match (row(first), second) {
        (Row::LongJump(low_byte), Some(second)) => {
            push_long_jump(text, low_byte, SecondWord::of(second));
        }
        (Row::LoadImmediate, Some(second)) => {
            text.push_str("LDI ");
            push_word(text, second);
        }
        (row, _) => push_row(text, row),
    }
}

/// Appends the text of a jump by address, an instruction of two words: its mnemonic, a space and the target address as
/// four hexadecimal digits. `low_byte`, from the first word, is the low byte of the target address.
#[inline]
fn push_long_jump<const N: usize>(text: &mut ArrayString<N>, low_byte: u8, second: SecondWord)
    requires { array_string_len text.old + 14 ≤ N }
    ensures text { text.new.bytes ≡ text.old.bytes ++ address_text low_byte second }
    ensures length { array_string_len text.new ≤ array_string_len text.old + 14 }
{
    text.push_str(long_jump_name(second.condition, second.kind));
    text.push_str(" ");
    push_address(
        text,
        u16::from(second.high_byte) * 256 + u16::from(low_byte),
    );
}

/// Appends an address as four hexadecimal digits. `text` must have room for four more bytes.
#[inline]
pub(crate) fn push_address<const N: usize>(text: &mut ArrayString<N>, address: u16)
    requires { array_string_len text.old + 4 ≤ N }
    ensures { text.new.bytes ≡ text.old.bytes ++ hexadecimal_text 4 address }
{
    push_byte_digits(text, (address / 256) as u8);
    push_byte_digits(text, (address % 256) as u8);
}

#[tactic(auto, using(crate::proofs::Short::mnemonic_short))]
/// Appends the text of a row of the word table, taken as an instruction of one word: its mnemonic, and its operand if
/// it has one, at most 14 bytes. The text is `CON hhh`, with the word's three hexadecimal digits, if the row is no
/// instruction of one word.
#[inline]
fn push_row<const N: usize>(text: &mut ArrayString<N>, row: Row)
    requires { array_string_len text.old + 14 ≤ N }
    ensures text { text.new.bytes ≡ text.old.bytes ++ row_text row }
    ensures length { array_string_len text.new ≤ array_string_len text.old + 14 }
{
    text.push_str(mnemonic(&row));
    push_operand(text, row);
}

#[tactic(auto, unfolding(h41_words::specs::WordTable::number_of))]
/// Appends a space and the operand of a row of the word table, taken as an instruction of one word, or nothing if the
/// row has no operand; at most 4 bytes.
#[inline]
fn push_operand<const N: usize>(text: &mut ArrayString<N>, row: Row)
    requires { array_string_len text.old + 4 ≤ N }
    ensures text { text.new.bytes ≡ text.old.bytes ++ behind (operand row) }
    ensures length { array_string_len text.new ≤ array_string_len text.old + 4 }
{
    let number = match row {
        Row::Arithmetic(_, field) => {
            text.push_str(" ");
            return text.push_str(field_name(field));
        }
        Row::ShortJump(_, displacement) => return push_displacement(text, displacement),
        Row::ClearStatus(bit) | Row::SetStatus(bit) | Row::TestStatus(bit) => bit.number(),
        Row::TestPointer(place) | Row::SetPointer(place) | Row::RotateRight(place) => {
            place.number()
        }
        Row::LoadDigit(digit) => digit.number(),
        Row::Write(register) => register.number(),
        Row::Read(register) => register.number(),
        Row::Constant(_) | Row::LongJump(_) | Row::LoadImmediate => {
            text.push_str(" ");
            return push_word(text, word(row));
        }
        _ => return,
    };
    push_decimal(text, number);
}

/// Appends a space and a decimal number from 0 to 15.
#[inline]
fn push_decimal<const N: usize>(text: &mut ArrayString<N>, number: u8)
    requires room { array_string_len text.old + 4 ≤ N }
    requires small { number < 16 }
    ensures text { text.new.bytes ≡ text.old.bytes ++ behind (Some (decimal number)) }
    ensures length { array_string_len text.new ≤ array_string_len text.old + 4 }
{
    text.push_str(" ");
    if number >= 10 {
        text.push_str("1");
    }
    text.push_str(glyph_text(number % 10));
}

/// Appends a space and the displacement of a short jump in words: its sign, `+` or `-`, and two hexadecimal digits.
#[inline]
fn push_displacement<const N: usize>(text: &mut ArrayString<N>, displacement: Displacement)
    requires { array_string_len text.old + 4 ≤ N }
    ensures text { text.new.bytes
        ≡ text.old.bytes ++ behind (Some (displacement_text displacement)) }
    ensures length { array_string_len text.new ≤ array_string_len text.old + 4 }
{
    let words = displacement.words();
    text.push_str(if words < 0 { " -" } else { " +" });
    push_byte_digits(text, words.unsigned_abs());
}

/// Appends a word as three hexadecimal digits. `text` must have room for three more bytes.
#[inline]
pub(crate) fn push_word<const N: usize>(text: &mut ArrayString<N>, word: Word)
    requires { array_string_len text.old + 3 ≤ N }
    ensures { text.new.bytes ≡ text.old.bytes ++ hexadecimal_text 3 word }
{
    let number = word.number();
    text.push_str(glyph_text((number / 256) as u8));
    text.push_str(glyph_text((number / 16 % 16) as u8));
    text.push_str(glyph_text((number % 16) as u8));
}
