//! Disassembles words: returns their text or their listing, with a line for each instruction.

ghost use Rattle.std.specs.Prelude.{◌≡◌, ◌+◌, ◌%◌, ◌≤◌, ◌<◌, ◌++◌, IfOk, length};
ghost use Rattle.std.specs.String.{string_bytes};
ghost use Rattle.arrayvec.specs.ArrayString.{array_string_len};
ghost use Rattle.h41_dis.specs.Spelling.{columns_text, GainsLine, listing_text, piece_line};
ghost use Rattle.h41_dis.specs.Spelling.{second_column, spell};

use crate::cut::{Piece, Pieces};
use crate::text::{push_address, push_instruction, push_word};
use arrayvec::ArrayString;
use h41_words::Word;
use std::alloc::{AllocError, Global};

/// The greatest length of a line of a listing, in bytes: 15 for the address and the words, 14 for the text of the
/// instruction, and 1 for LF.
const LINE: usize = 30;

/// Returns the disassembled text of `words`: for each instruction a line that ends with LF. `_origin`, the address of
/// the first word, has no effect, because the text of a jump contains its target address or its displacement. The only
/// error is `AllocError`, if allocation fails.
pub fn disassemble(alloc: Global, words: &[Word], _origin: u16) -> Result<String, AllocError>
    ensures { IfOk result (λ text. string_bytes text ≡ spell words.now) }
{
    let mut text = String::new(alloc);
    for piece in Pieces::new(words) {
        push_line(&mut text, piece)?;
    }
    Ok(text)
}

/// Returns the listing of `words`: a line for each instruction, which begins with two columns, the address of the
/// instruction (four hexadecimal digits, modulo 65,536) and its words (three hexadecimal digits each). `origin` is the
/// address of the first word. The only error is `AllocError`, if allocation fails.
pub fn listing(alloc: Global, words: &[Word], origin: u16) -> Result<String, AllocError>
    ensures { IfOk result (λ text. string_bytes text ≡ listing_text words.now origin) }
{
    let mut text = String::with_capacity(alloc, words.len().saturating_mul(LINE))?;
    let mut address = origin;
    for piece in Pieces::new(words) {
        push_columns_line(&mut text, address, piece)?;
        address = address.wrapping_add(piece.length());
    }
    Ok(text)
}

/// Appends the text of an instruction and LF, without the instruction's address and words. The only error is
/// `AllocError`, if allocation fails.
#[inline]
fn push_line(text: &mut String, piece: Piece) -> Result<(), AllocError>
    ensures { IfOk result (λ _. string_bytes text.new ≡ string_bytes text.old ++ piece_line piece) }
{
    let mut line = ArrayString::<LINE>::new();
    push_instruction(&mut line, piece.first, piece.second);
    line.push_str("\n");
    text.push_str(line.as_str())
}

/// Appends the line of a listing for an instruction: its address, its words, its text and LF. The only error is
/// `AllocError`, if allocation fails.
#[inline]
fn push_columns_line(text: &mut String, address: u16, piece: Piece) -> Result<(), AllocError>
    ensures { IfOk result (λ _. GainsLine address piece text.old text.new) }
{
    let mut line = ArrayString::<LINE>::new();
    let (first, second) = (piece.first, piece.second);
    push_columns(&mut line, address, piece);
    push_instruction(&mut line, first, second);
    line.push_str("\n");
    text.push_str(line.as_str())
}

/// Appends the columns before the text of an instruction, 15 bytes: its address (four hexadecimal digits), two spaces,
/// its words (three hexadecimal digits each) in a column of seven characters, and two spaces. `columns` must be empty.
#[inline]
fn push_columns(columns: &mut ArrayString<LINE>, address: u16, piece: Piece)
    requires { array_string_len columns.old ≡ 0 }
    ensures text { columns.new.bytes ≡ columns.old.bytes ++ columns_text address piece }
    ensures length { array_string_len columns.new ≡ 15 }
{
    push_address(columns, address);
    columns.push_str("  ");
    push_word(columns, piece.first);
    push_second_column(columns, piece.second);
    columns.push_str("  ");
}

/// Appends a space and the second word of an instruction as three hexadecimal digits, or four spaces if it has no
/// second word.
#[inline]
fn push_second_column(columns: &mut ArrayString<LINE>, second: Option<Word>)
    requires { array_string_len columns.old ≤ 9 }
    ensures text { columns.new.bytes ≡ columns.old.bytes ++ second_column second }
    ensures length { array_string_len columns.new ≡ array_string_len columns.old + 4 }
{
    match second {
        Some(second) => {
            columns.push_str(" ");
            push_word(columns, second);
        }
        None => columns.push_str("    "),
    }
}
