//! The decoder: reads the program line with which bytes begin.
ghost use Rattle.std.specs.Prelude.{◌≡◌, ℕ, ◌+◌, ◌*◌, ◌<◌, ◌≤◌, ◌↔◌, ◌⊎◌, [], ◌∷◌, map, length};
ghost use Rattle.std.specs.Prelude.{take, drop, slice_index, IfOk, OnErr, IfSome, IfNone, IsErr};
ghost use Rattle.std.specs.Prelude.{Ok};
ghost use Rattle.h41_codes.specs.ByteGrammar.{spelling, text_bytes, IsBytes, IsLine, Spells};
ghost use Rattle.h41_codes.specs.ByteGrammar.{Begins, BeginsNoLine, AnswersLine};
ghost use Rattle.h41_codes.specs.ByteGrammar.{link_high, link_low};
ghost use Rattle.h41_codes.specs.Codes as code;
ghost use Rattle.h41_codes.specs.Heads.{IsOneByte, IsTwoBytes, IsIn, LacksText};
ghost use Rattle.h41_codes.specs.Heads.{IsWholeRun};

use crate::characters::{Character, NUMBER_MOST, Number, Text};
use crate::faults::BrokenProgram;
use crate::functions::NameFunction;
use crate::heads::{Head, head_of};
use crate::line::Line;
use crate::numbers::{EndMarks, FinalMarks, Link};
use crate::short_lines::{short_branch, short_byte, short_pair};
use crate::table::character;

/// Returns the program line with which the bytes begin, and the number of bytes that it takes. Other bytes may follow.
/// A number takes as many characters as possible, at most 16. BrokenProgram (14) if the bytes begin with no line.
#[inline(always)]
pub fn decode(bytes: &[u8]) -> Result<(Line, usize), BrokenProgram>
    ensures line { AnswersLine result bytes.now }
    ensures broken { IsErr result ↔ BeginsNoLine bytes.now }
{
    front(bytes)
}

/// Returns the program line with which the bytes begin, and the number of bytes that it takes. The first byte
/// determines the kind of line. BrokenProgram (14) if the bytes begin with no line.
#[inline(always)]
fn front(bytes: &[u8]) -> Result<(Line, usize), BrokenProgram>
    ensures line { IfOk result (λ found. Begins bytes.now found.0 found.1) }
    ensures broken { OnErr result (BeginsNoLine bytes.now) }
{
    if bytes.is_empty() {
        return Err(BrokenProgram);
    }
    let first = bytes[0];
    match head_of(first) {
        Head::OneByte => Ok((one_byte(first), 1)),
        Head::Number => Ok(number(bytes)),
        Head::Named => named(bytes),
        Head::TwoBytes => pair(bytes),
        Head::Linked => linked(bytes),
        Head::ThreeBytes => triple(bytes),
        Head::Text => text(bytes),
        Head::Nothing => Err(BrokenProgram),
    }
}

/// Returns the program line that a byte is on its own: the null, a label 00 to 14, `RCL` or `STO` of a register 00 to
/// 15, or a function without an operand. `None` if the byte begins other lines, such as numbers, or no line.
pub fn one_byte_line(byte: u8) -> Option<Line>
    ensures some { IfSome result (λ line. IsOneByte byte × Spells (byte ∷ []) line) }
    ensures none { IfNone result (IsOneByte byte → ⊥) }
{
    match head_of(byte) {
        Head::OneByte => Some(one_byte(byte)),
        _ => None,
    }
}

/// Returns the program line that two bytes are: a function with an operand, `XROM`, `GTO IND`, `XEQ IND`, or `GTO 00`
/// to `GTO 14`. `None` if the first byte begins lines of other lengths or none.
#[inline(always)]
pub fn two_byte_line(first: u8, second: u8) -> Option<Line>
    ensures some { IfSome result (λ line. IsTwoBytes first × Spells (first ∷ second ∷ []) line) }
    ensures none { IfNone result (IsTwoBytes first → ⊥) }
{
    match head_of(first) {
        Head::TwoBytes => Some(two_bytes(first, second)),
        _ => None,
    }
}

/// Returns the program line that is spelled by one byte: the null, a label 00 to 14, `RCL` or `STO` of a register 00 to
/// 15, or a function without an operand.
#[inline(always)]
pub(crate) fn one_byte(first: u8) -> Line
    requires { IsOneByte first }
    ensures spelled { spelling result ≡ first ∷ [] }
    ensures valid { IsLine result }
{
    if first == 0x00 {
        return Line::Null;
    }
    short_byte(first).line()
}

/// Returns the program line of two bytes, such as `ST+ 05`, with which the bytes begin, and its length of 2 bytes.
/// BrokenProgram (14) if there is only one byte.
fn pair(bytes: &[u8]) -> Result<(Line, usize), BrokenProgram>
    requires some { 0 < length bytes.now }
    requires first { IsTwoBytes (slice_index bytes.now 0) }
    ensures line { IfOk result (λ found. Begins bytes.now found.0 found.1) }
    ensures broken { OnErr result (BeginsNoLine bytes.now) }
{
    if bytes.len() < 2 {
        return Err(BrokenProgram);
    }
    Ok((two_bytes(bytes[0], bytes[1]), 2))
}

/// Returns the `GTO` or `XEQ` line of three bytes with which the bytes begin, and its length of 3 bytes. BrokenProgram
/// (14) if there are fewer than three bytes.
fn triple(bytes: &[u8]) -> Result<(Line, usize), BrokenProgram>
    requires some { 0 < length bytes.now }
    requires first { IsIn 0xD0 0xF0 (slice_index bytes.now 0) }
    ensures line { IfOk result (λ found. Begins bytes.now found.0 found.1) }
    ensures broken { OnErr result (BeginsNoLine bytes.now) }
{
    if bytes.len() < 3 {
        return Err(BrokenProgram);
    }
    Ok((short_branch(bytes[0], bytes[1], bytes[2]).line(), 3))
}

/// Returns the program line that two bytes spell: a function with an operand, `XROM`, `GTO IND`, `XEQ IND`, or `GTO 00`
/// to `GTO 14`.
fn two_bytes(first: u8, second: u8) -> Line
    requires { IsTwoBytes first }
    ensures spelled { spelling result ≡ first ∷ second ∷ [] }
    ensures valid { IsLine result }
{
    short_pair(first, second).line()
}

/// Returns the number entry with which the bytes begin, and how many characters, each a byte, it has: as many as
/// possible, 1 to 16.
#[inline(never)]
fn number(bytes: &[u8]) -> (Line, usize)
    requires some { 0 < length bytes.now }
    requires first { IsIn 0x10 0x1D (slice_index bytes.now 0) }
    ensures { Begins bytes.now result.0 result.1 }
{
    let count = number_length(bytes);
    let mut characters = [Character::Zero; NUMBER_MOST];
    for index in 0..count {
        characters[index] = character(bytes[index]);
    }
    (Line::Number(Number::of(&characters[..count])), count)
}

/// Returns how many bytes at the start of `bytes` are characters of a number entry (10 to 1C, hexadecimal): at most 16.
fn number_length(bytes: &[u8]) -> usize
    ensures most { result ≤ 16 }
    ensures inside { result ≤ length bytes.now }
    ensures each { (k : ℕ) → k < result → IsIn 0x10 0x1D (slice_index bytes.now k) }
    ensures whole { IsWholeRun bytes.now result }
{
    for (count, byte) in bytes.iter().enumerate() {
        if count == NUMBER_MOST || !matches!(head_of(*byte), Head::Number) {
            return count;
        }
    }
    bytes.len()
}

/// Returns the text with which the bytes begin: a byte F0 to FF (hexadecimal), whose low digit is the number of
/// characters, and the characters. `None` if the first byte is not F0 to FF, or if characters are missing.
fn text_at(bytes: &[u8]) -> Option<Text<15>>
    ensures text { IfSome result (λ text. take (1 + length text) bytes.now ≡ text_bytes text) }
    ensures inside { IfSome result (λ text. 1 + length text ≤ length bytes.now) }
    ensures most { IfSome result (λ text. length text ≤ 15) }
    ensures bytes { IfSome result IsBytes }
    ensures none { IfNone result (LacksText bytes.now) }
{
    if bytes.is_empty() || bytes[0] < 0xF0 {
        return None;
    }
    let end = 1 + usize::from(bytes[0] - 0xF0);
    if end > bytes.len() {
        return None;
    }
    Some(Text::of(&bytes[1..end]))
}

/// Returns the `GTO`, `XEQ` or `W` line with a name with which the bytes begin, and the number of bytes that it takes.
/// BrokenProgram (14) if the name is not complete.
#[inline(never)]
fn named(bytes: &[u8]) -> Result<(Line, usize), BrokenProgram>
    requires some { 0 < length bytes.now }
    requires first { IsIn 0x1D 0x20 (slice_index bytes.now 0) }
    ensures line { IfOk result (λ found. Begins bytes.now found.0 found.1) }
    ensures broken { OnErr result (BeginsNoLine bytes.now) }
{
    match text_at(&bytes[1..]) {
        Some(name) => {
            let count = 2 + name.characters().len();
            Ok((Line::Named(name_function(bytes[0]), name), count))
        }
        None => Err(BrokenProgram),
    }
}

/// Returns what a program line does with a name, by its first byte: `GTO` for 1D, `XEQ` for 1E, `W` for 1F
/// (hexadecimal).
fn name_function(first: u8) -> NameFunction
    requires { IsIn 0x1D 0x20 first }
    ensures { code.name_function_code result ≡ first }
{
    match first {
        0x1D => NameFunction::GoToName,
        0x1E => NameFunction::ExecuteName,
        _ => NameFunction::Wordless,
    }
}

/// Returns the text line with which the bytes begin, and the number of bytes that it takes. BrokenProgram (14) if the
/// text is not complete.
#[inline(never)]
fn text(bytes: &[u8]) -> Result<(Line, usize), BrokenProgram>
    requires some { 0 < length bytes.now }
    requires first { IsIn 0xF0 0x100 (slice_index bytes.now 0) }
    ensures line { IfOk result (λ found. Begins bytes.now found.0 found.1) }
    ensures broken { OnErr result (BeginsNoLine bytes.now) }
{
    match text_at(bytes) {
        Some(characters) => {
            let count = 1 + characters.characters().len();
            Ok((Line::Text(characters), count))
        }
        None => Err(BrokenProgram),
    }
}

/// Returns the global label, `END` or `.END.` with which the bytes begin, and the number of bytes that it takes.
/// BrokenProgram (14) if bytes are missing, or if the length of the label's name is not valid.
#[inline(never)]
fn linked(bytes: &[u8]) -> Result<(Line, usize), BrokenProgram>
    requires some { 0 < length bytes.now }
    requires first { IsIn 0xC0 0xCE (slice_index bytes.now 0) }
    ensures line { IfOk result (λ found. Begins bytes.now found.0 found.1) }
    ensures broken { OnErr result (BeginsNoLine bytes.now) }
{
    if bytes.len() < 3 {
        return Err(BrokenProgram);
    }
    let link = Link::new(u16::from(bytes[0] - 0xC0) * 256 + u16::from(bytes[1]));
    let third = bytes[2];
    if third < 0xF0 {
        return Ok((end(link, third), 3));
    }
    let end = 3 + usize::from(third - 0xF0);
    if end < 4 || end > bytes.len() {
        return Err(BrokenProgram);
    }
    let name = Text::of(&bytes[4..end]);
    Ok((Line::GlobalLabel(link, bytes[3], name), end))
}

/// Returns the `END` or `.END.` that a link and a third byte below F0 (hexadecimal) spell. Bit 5 of the third byte is
/// clear for `END` and set for `.END.`; the other bits are the status bits.
fn end(link: Link, third: u8) -> Line
    requires { third < 0xF0 }
    ensures spelled { spelling result ≡ link_high link ∷ link_low link ∷ third ∷ [] }
    ensures valid { IsLine result }
{
    let marks = third / 64 * 32 + third % 32;
    if third / 32 % 2 == 0 {
        Line::End(link, EndMarks::new(marks))
    } else {
        Line::FinalEnd(link, FinalMarks::new(marks))
    }
}
