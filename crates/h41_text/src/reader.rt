//! Reads the text of a program line.
ghost use Rattle.std.specs.Prelude.{◌≡◌, ◌≢◌, ◌+◌, ◌-◌, ◌<◌, ◌≤◌, ◌↔◌, ◌++◌, ℕ, length, IsErr};
ghost use Rattle.std.specs.Prelude.{IsTrue, [], ◌∷◌, IfSome, IfNone, Ok, Some, None};
ghost use Rattle.arrayvec.specs.ArrayVec.{array_vec_len};
ghost use Rattle.h41_codes.specs.declared.line.Line.{Line as AnyLine};
ghost use Rattle.h41_codes.specs.declared.line.Operand.{Operand as AnyOperand};
ghost use Rattle.h41_codes.specs.Counts.{parameter_count};
ghost use Rattle.h41_text.specs.LineReading.{HasText, IsTextOf};
ghost use Rattle.h41_text.specs.LineText.{line_text, parameter_text};
ghost use Rattle.h41_text.specs.private.TextParts as part;

use crate::faults::BadText;
use crate::names::{character_of, function_named, high_parameter};
use crate::words::LeadingWord;
use crate::writer::write_line;
use arrayvec::ArrayVec;
use h41_codes::{
    Branch, Character, Distance, EndMarks, EntryNumber, FinalMarks, Function, Line, Link,
    ModuleNumber, NameFunction, Number, Operand, Parameter, ParameterFunction, Text, canon,
};
use h41_lines::numbers::hexadecimal;

/// The most characters of a text line or of a name in quotes.
const TEXT_MOST: usize = 15;

/// The most characters of a number line.
const NUMBER_MOST: usize = 16;

/// The character code of the append sign. A text line that begins with it is appended to ALPHA instead of replacing it.
const APPEND: u8 = 0x7F;

/// The characters of a text line or of a name in quotes, while it is read.
type Characters = ArrayVec<u8, TEXT_MOST>;

/// Returns the program line with this text, in its shortest spelling. The text must be exactly as `write_line` writes
/// it; otherwise the error is BadText (41). The empty text, which `write_line` returns for the null, is an error too.
pub fn read_line(text: &[u8]) -> Result<Line, BadText>
    ensures line { (line : AnyLine) → (result ≡ Ok line) ↔ IsTextOf text.now line }
    ensures refused { IsErr result ↔ ((line : AnyLine) → IsTextOf text.now line → ⊥) }
{
    match candidate(text) {
        Some(line) => {
            if has_text(&line, text) {
                Ok(canon(line))
            } else {
                Err(BadText)
            }
        }
        None => Err(BadText),
    }
}

/// Returns whether a program line has exactly this text, as `write_line` writes it.
fn has_text(line: &Line, text: &[u8]) -> bool
    ensures { IsTrue result ↔ (line_text line.now ≡ text.now) }
{
    write_line(*line).as_str().as_bytes() == text
}

/// Returns the only program line that can have this text, or `None` if no line can. The line may still have another
/// text, so the caller must compare.
fn candidate(text: &[u8]) -> Option<Line>
    ensures line { result ≡ part.candidate_line text.now }
    ensures text { IfSome result HasText }
{
    match text {
        [b'"', quoted @ ..] => alpha(Characters::new(), quoted),
        [b'>', b'"', appended @ ..] => alpha(append_sign(), appended),
        _ => unquoted(text),
    }
}

/// Returns a list of characters that contains only the append sign.
fn append_sign() -> Characters
    ensures { result.items ≡ 0x7F ∷ [] }
{
    let mut characters = Characters::new();
    characters.push(APPEND);
    characters
}

/// Returns the text line with the given `characters`, followed by the characters at the start of `quoted`, which is the
/// text after the opening quote. At most 15 characters are used.
fn alpha(mut characters: Characters, quoted: &[u8]) -> Option<Line>
    requires { array_vec_len characters ≤ 15 }
    ensures line { result ≡ part.alpha_line characters.items quoted.now }
    ensures text { IfSome result HasText }
{
    push_unquoted(&mut characters, quoted);
    let characters = characters.as_slice();
    Some(Line::Text(Text::new(characters)?))
}

/// Appends the characters at the start of `quoted`, which is the text after an opening quote, to `characters`: up to
/// the closing quote or until there are 15 characters.
fn push_unquoted(characters: &mut Characters, quoted: &[u8])
    requires { array_vec_len characters.old ≤ 15 }
    ensures { characters.new.items ≡ part.text_behind characters.old.items quoted.now }
{
    let mut rest = quoted;
    for _ in characters.len()..TEXT_MOST {
        match first_character(rest) {
            Some((character, more)) => {
                characters.push(character);
                rest = more;
            }
            None => return,
        }
    }
}

/// Returns the first character of a text after an opening quote and the text that follows it, or `None` at the closing
/// quote, at the end of the text, and if `\` is not followed by two hexadecimal digits.
fn first_character(quoted: &[u8]) -> Option<(u8, &[u8])>
    ensures first { IfSome result (λ p. part.first_character quoted.now ≡ Some (p.0, p.1.now)) }
    ensures none { IfNone result (part.first_character quoted.now ≡ None) }
{
    match quoted {
        [] | [b'"', ..] => None,
        [b'\\', high, low, rest @ ..] => Some((hexadecimal(2, 2, &[*high, *low])? as u8, rest)),
        [b'\\', ..] => None,
        [character, rest @ ..] => Some((*character, rest)),
    }
}

/// Returns the only program line that can have this text, which does not begin with a quote, or `None` if no line can.
fn unquoted(text: &[u8]) -> Option<Line>
    ensures line { result ≡ part.unquoted_line text.now }
    ensures text { IfSome result HasText }
{
    if let Some(line) = minus(text) {
        return Some(line);
    }
    if let Some(line) = number(text) {
        return Some(line);
    }
    named_line(text)
}

/// Returns the line of the text `-`, which is the subtraction, or of the text `NEG`, which is the number line with a
/// lone minus sign. `None` for any other text.
fn minus(text: &[u8]) -> Option<Line>
    ensures line { result ≡ part.minus_line text.now }
    ensures text { IfSome result HasText }
{
    match text {
        b"-" => Some(Line::Plain(Function::Subtract)),
        b"NEG" => Some(Line::Number(Number::new(&[Character::Minus])?)),
        _ => None,
    }
}

/// Returns the only program line that can have this text, whose first word is the name of a function, `GTO`, `XEQ`,
/// `W`, `XROM`, `END` or `.END.`; otherwise `None`.
fn named_line(text: &[u8]) -> Option<Line>
    ensures line { result ≡ part.cut_line text.now (part.parts_at_blank text.now) }
    ensures text { IfSome result HasText }
{
    match cut(text) {
        Some((name, behind)) => worded(LeadingWord::named(name)?, behind),
        None => lone(text),
    }
}

/// Returns the number line with this text, or `None` if the text has more than 16 characters, other characters than
/// decimal digits, `.`, `E` and `-`, or is not a number line.
fn number(text: &[u8]) -> Option<Line>
    ensures line { result ≡ part.number_of text.now }
    ensures text { IfSome result HasText }
{
    if text.len() > NUMBER_MOST {
        return None;
    }
    let mut characters = [Character::Zero; NUMBER_MOST];
    for (index, byte) in text.iter().enumerate() {
        characters[index] = character_of(*byte)?;
    }
    Some(Line::Number(Number::new(&characters[..text.len()])?))
}

/// Returns the text before the first space and the text after it, or `None` if there is no space.
fn cut(text: &[u8]) -> Option<(&[u8], &[u8])>
    ensures parts { IfSome result (λ p. part.parts_at_blank text.now ≡ Some (p.0.now, p.1.now)) }
    ensures none { IfNone result (part.parts_at_blank text.now ≡ None) }
{
    for (index, byte) in text.iter().enumerate() {
        if *byte == b' ' {
            return Some((&text[..index], &text[index + 1..]));
        }
    }
    None
}

/// Returns the program line that consists of this name alone, for example `SIN` or `END`, or `None` if there is none.
fn lone(name: &[u8]) -> Option<Line>
    ensures line { result ≡ part.lone_line name.now }
    ensures text { IfSome result HasText }
{
    if let Some(line) = end(name) {
        return Some(line);
    }
    Some(Line::Plain(function_named(name)?))
}

/// Returns the `END` or `.END.` line for this text, or `None` for any other text. What the text does not contain, such
/// as the link to another line, is zero.
fn end(name: &[u8]) -> Option<Line>
    ensures line { result ≡ part.end_line name.now }
    ensures text { IfSome result HasText }
{
    match name {
        b"END" => Some(Line::End(Link::new(0), EndMarks::new(0))),
        b".END." => Some(Line::FinalEnd(Link::new(0), FinalMarks::new(0))),
        _ => None,
    }
}

/// Returns the only program line that can have this leading word and, after a space, the text `behind`, or `None` if no
/// line can.
fn worded(word: LeadingWord, behind: &[u8]) -> Option<Line>
    ensures line { result ≡ part.word_line word behind.now }
    ensures text { IfSome result HasText }
{
    match behind {
        [b'"', quoted @ ..] => named(word, quoted),
        _ => with_operand(word, behind),
    }
}

/// Returns the program line with this leading word and the name at the start of `quoted`, which is the text after the
/// opening quote. `None` if no such word precedes a name: only `LBL`, `GTO`, `XEQ` and `W` do.
fn named(word: LeadingWord, quoted: &[u8]) -> Option<Line>
    ensures line { result ≡ part.named_line word (part.unquoted_text 15 quoted.now) }
    ensures text { IfSome result HasText }
{
    let mut name = Characters::new();
    push_unquoted(&mut name, quoted);
    let name = name.as_slice();
    Some(match word {
        LeadingWord::Function(ParameterFunction::Label) => Line::GlobalLabel(
            Link::new(0),
            0,
            Text::new(name)?,
        ),
        LeadingWord::Branch(Branch::GoTo) => Line::Named(NameFunction::GoToName, Text::new(name)?),
        LeadingWord::Branch(Branch::Execute) => Line::Named(
            NameFunction::ExecuteName,
            Text::new(name)?,
        ),
        LeadingWord::Wordless => Line::Named(NameFunction::Wordless, Text::new(name)?),
        _ => return None,
    })
}

/// Returns the program line with this leading word and the operand that `text` spells, or `None` if `text` is not an
/// operand of this word.
fn with_operand(word: LeadingWord, text: &[u8]) -> Option<Line>
    ensures line { result ≡ part.operand_line word text.now }
    ensures text { IfSome result HasText }
{
    match word {
        LeadingWord::Function(function) => Some(Line::WithOperand(function, operand(text)?)),
        LeadingWord::Branch(branch) => Some(branch_line(branch, operand(text)?)),
        LeadingWord::Module => module(text),
        LeadingWord::Wordless => None,
    }
}

/// Returns the `GTO` or `XEQ` line with this operand: a label, or a register for `IND`. The distance to a label is
/// zero.
fn branch_line(branch: Branch, operand: Operand) -> Line
    ensures line { result ≡ part.branch_line branch operand }
    ensures text { HasText result }
{
    match operand {
        Operand::Direct(label) => Line::BranchTo(branch, Distance::new(0), false, label),
        Operand::Indirect(register) => Line::BranchIndirect(branch, register),
    }
}

/// Returns the `XROM` line for the text of its two numbers, for example `28,05`, or `None` if the text is not two
/// digits below 32, a comma, and two digits below 64.
fn module(text: &[u8]) -> Option<Line>
    ensures line { result ≡ part.module_of text.now }
    ensures text { IfSome result HasText }
{
    match text {
        [a, b, b',', c, d] => {
            let number = two_digits(*a, *b)?;
            let entry = two_digits(*c, *d)?;
            if number < 32 && entry < 64 {
                Some(Line::Module(ModuleNumber::new(number), EntryNumber::new(entry)))
            } else {
                None
            }
        }
        _ => None,
    }
}

/// Returns the number that two decimal digits form, 0 to 99, or `None` if one of the characters is not a digit.
fn two_digits(tens: u8, ones: u8) -> Option<u8>
    ensures value { result ≡ part.two_digits_of tens ones }
    ensures bound { IfSome result (λ number. number < 100) }
{
    if tens.is_ascii_digit() && ones.is_ascii_digit() {
        Some((tens - b'0') * 10 + (ones - b'0'))
    } else {
        None
    }
}

/// Returns the operand that a text spells, for example `05`, `X` or `IND 05`, or `None` if it is not an operand.
fn operand(text: &[u8]) -> Option<Operand>
    ensures { result ≡ part.operand_of text.now }
{
    match behind_ind(text) {
        Some(register) => Some(Operand::Indirect(parameter(register)?)),
        None => Some(Operand::Direct(parameter(text)?)),
    }
}

/// Returns the rest of a text that begins with `IND` and a space, or `None` if it begins otherwise.
fn behind_ind(text: &[u8]) -> Option<&[u8]>
    ensures rest { IfSome result (λ rest. part.behind_ind text.now ≡ Some rest.now) }
    ensures none { IfNone result (part.behind_ind text.now ≡ None) }
{
    match text {
        [b'I', b'N', b'D', b' ', rest @ ..] => Some(rest),
        _ => None,
    }
}

/// Returns the parameter that a text spells, 0 to 127, for example 5 for `05` or 115 for `X`, or `None` if it is not a
/// parameter.
fn parameter(text: &[u8]) -> Option<Parameter>
    ensures named { IfSome result (λ number. parameter_text number ≡ text.now) }
    ensures inside { IfSome result (λ number. number < parameter_count) }
    ensures none { IfNone result (part.IsNoParameter text.now) }
{
    if let [tens, ones] = text {
        return Some(Parameter::new(two_digits(*tens, *ones)?));
    }
    for number in 100..128 {
        if high_parameter(number).as_bytes() == text {
            return Some(Parameter::new(number));
        }
    }
    None
}
