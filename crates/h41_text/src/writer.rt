//! Writes the text of a program line.
ghost use Rattle.std.specs.Prelude.{◌≡◌, ◌+◌, ◌<◌, ◌≤◌, [], ◌∷◌, ◌++◌, length};
ghost use Rattle.arrayvec.specs.ArrayString.{array_string_len};
ghost use Rattle.h41_codes.specs.declared.line.Line.TheVariants as line;
ghost use Rattle.h41_codes.specs.Counts.{parameter_count};
ghost use Rattle.h41_lines.specs.Characters.{two_digits as digits_of};
ghost use Rattle.h41_text.specs.LineText.{line_text, ◌&◌, quoted_text, text_line};
ghost use Rattle.h41_text.specs.LineText as spec;

use crate::names::{
    branch_name, character_byte, function_name, high_parameter, name_function_name,
    parameter_function_name, register_function_name,
};
use arrayvec::ArrayString;
use h41_codes::{Branch, Character, EntryNumber, Line, ModuleNumber, Operand, ParameterFunction};
use h41_lines::characters::{character_text, escaped, two_digits};

/// The capacity of the text of a program line, in characters. The longest text has 51: `GTO ""`, and in the quotes 15
/// characters that are written as three each.
pub const TEXT_CAPACITY: usize = 64;

/// The text of a program line while it is written.
type LineText = ArrayString<TEXT_CAPACITY>;

/// The character code of the append sign. A text line that begins with it is appended to ALPHA instead of replacing it.
const APPEND: u8 = 0x7F;

/// Returns the text of a program line, at most 51 characters, for example `STO 05`. All spellings of a line have the
/// same text, and the text of the null is empty. docs/PROGRAMS.md describes the texts.
pub fn write_line(line: Line) -> ArrayString<TEXT_CAPACITY>
    ensures text { result.bytes ≡ line_text line }
    ensures fits { length result.bytes ≤ 51 }
{
    match line {
        Line::Null => LineText::new(),
        Line::LocalLabel(label) => numbered(
            parameter_function_name(ParameterFunction::Label),
            label.number(),
        ),
        Line::Number(number) => number_line(number.characters()),
        Line::Named(function, name) => named(name_function_name(function), name.characters()),
        Line::Register(function, register) => {
            numbered(register_function_name(function), register.number())
        }
        Line::Plain(function) => alone(function_name(function)),
        Line::WithOperand(function, operand) => with_operand(
            parameter_function_name(function),
            operand,
        ),
        Line::Module(number, entry) => module(number, entry),
        Line::BranchIndirect(branch, register) => {
            with_operand(branch_name(branch), Operand::Indirect(register))
        }
        Line::ShortGoTo(label, _) => numbered(branch_name(Branch::GoTo), label.number()),
        Line::GlobalLabel(_, _, name) => named(
            parameter_function_name(ParameterFunction::Label),
            name.characters(),
        ),
        Line::End(_, _) => alone("END"),
        Line::FinalEnd(_, _) => alone(".END."),
        Line::BranchTo(branch, _, _, label) => with_operand(
            branch_name(branch),
            Operand::Direct(label),
        ),
        Line::Text(text) => alpha(text.characters()),
    }
}

/// Returns a text that consists of a name of at most 6 characters.
fn alone(name: &str) -> LineText
    requires { length name.now ≤ 6 }
    ensures text { result.bytes ≡ name.now }
    ensures most { length result.bytes ≤ 6 }
{
    let mut text = LineText::new();
    text.push_str(name);
    text
}

/// Returns a text that consists of a name of at most 6 characters and a space.
fn begun(name: &str) -> LineText
    requires { length name.now ≤ 6 }
    ensures text { result.bytes ≡ name.now ++ 0x20 ∷ [] }
    ensures most { length result.bytes ≤ 7 }
{
    let mut text = alone(name);
    text.push_str(" ");
    text
}

/// Returns a name of at most 6 characters, a space, and a number below 100 as two decimal digits, for example `LBL 05`.
fn numbered(name: &str, number: u8) -> LineText
    requires name { length name.now ≤ 6 }
    requires number { number < 100 }
    ensures text { result.bytes ≡ name.now & digits_of number }
    ensures most { length result.bytes ≤ 9 }
{
    let mut text = begun(name);
    push_two_digits(&mut text, number);
    text
}

/// Returns a name of at most 6 characters, a space, and the text of an operand, for example `STO IND 05`.
fn with_operand(name: &str, operand: Operand) -> LineText
    requires { length name.now ≤ 6 }
    ensures text { result.bytes ≡ name.now & spec.operand_text operand }
    ensures most { length result.bytes ≤ 17 }
{
    let mut text = begun(name);
    match operand {
        Operand::Direct(parameter) => push_parameter(&mut text, parameter.number()),
        Operand::Indirect(parameter) => {
            text.push_str("IND ");
            push_parameter(&mut text, parameter.number());
        }
    }
    text
}

/// Returns a name of at most 3 characters, a space, and at most 15 characters in quotes, for example `GTO "AB"`.
fn named(name: &str, characters: &[u8]) -> LineText
    requires name { length name.now ≤ 3 }
    requires characters { length characters.now ≤ 15 }
    ensures text { result.bytes ≡ name.now & quoted_text characters.now }
    ensures most { length result.bytes ≤ 51 }
{
    let mut text = begun(name);
    push_quoted(&mut text, characters);
    text
}

/// Returns the text of an `XROM` line with the numbers of its module and its function, for example `XROM 28,05`.
fn module(number: ModuleNumber, entry: EntryNumber) -> LineText
    ensures text { result.bytes ≡ line_text (line.Module number entry) }
    ensures most { length result.bytes ≤ 12 }
{
    let mut text = numbered("XROM", number.number());
    text.push_str(",");
    push_two_digits(&mut text, entry.number());
    text
}

/// Returns the text of a number line of at most 16 characters. A lone minus sign is written as `NEG`.
fn number_line(characters: &[Character]) -> LineText
    requires { length characters.now ≤ 16 }
    ensures text { result.bytes ≡ spec.number_line characters.now }
    ensures most { length result.bytes ≤ 16 }
{
    if let [Character::Minus] = characters {
        return alone("NEG");
    }
    let mut text = LineText::new();
    for character in characters {
        push_ascii(&mut text, character_byte(*character));
    }
    text
}

/// Returns the text of a text line of at most 15 characters: the characters in quotes. If the first one is the append
/// sign, `>` precedes the quotes instead.
fn alpha(characters: &[u8]) -> LineText
    requires { length characters.now ≤ 15 }
    ensures text { result.bytes ≡ text_line characters.now }
    ensures most { length result.bytes ≤ 48 }
{
    let mut text = LineText::new();
    match characters {
        [APPEND, rest @ ..] => {
            text.push_str(">");
            push_quoted(&mut text, rest);
        }
        _ => push_quoted(&mut text, characters),
    }
    text
}

/// Appends an ASCII character to a text.
fn push_ascii(text: &mut LineText, character: u8)
    requires room { array_string_len text.old < TEXT_CAPACITY }
    requires ascii { character < 128 }
    ensures { text.new.bytes ≡ text.old.bytes ++ character ∷ [] }
{
    text.push(char::from(character));
}

/// Appends a number below 100 to a text, as two decimal digits.
fn push_two_digits(text: &mut LineText, number: u8)
    requires room { array_string_len text.old + 2 ≤ TEXT_CAPACITY }
    requires number { number < 100 }
    ensures { text.new.bytes ≡ text.old.bytes ++ digits_of number }
{
    text.push_str(two_digits(number).as_str());
}

/// Appends the text of a parameter from 0 to 127 to a text: two decimal digits below 100, otherwise at most 6
/// characters.
fn push_parameter(text: &mut LineText, number: u8)
    requires room { array_string_len text.old + 6 ≤ TEXT_CAPACITY }
    requires number { number < parameter_count }
    ensures text { text.new.bytes ≡ text.old.bytes ++ spec.parameter_text number }
    ensures most { length text.new.bytes ≤ length text.old.bytes + 6 }
{
    if number < 100 {
        push_two_digits(text, number);
    } else {
        text.push_str(high_parameter(number));
    }
}

/// Appends at most 15 characters to a text, between two quotes.
fn push_quoted(text: &mut LineText, characters: &[u8])
    requires room { array_string_len text.old ≤ 4 }
    requires characters { length characters.now ≤ 15 }
    ensures text { text.new.bytes ≡ text.old.bytes ++ quoted_text characters.now }
    ensures most { length text.new.bytes ≤ length text.old.bytes + 47 }
{
    text.push_str("\"");
    for character in characters {
        text.push_str(character_quoted(*character).as_str());
    }
    text.push_str("\"");
}

/// Returns the text of a character between quotes: the character itself or `\` and two hexadecimal digits, as the
/// display shows it. A quote is always written as `\22`.
fn character_quoted(character: u8) -> ArrayString<3>
    ensures { result.bytes ≡ spec.character_quoted character }
{
    if character == b'"' {
        escaped(character)
    } else {
        character_text(character)
    }
}
