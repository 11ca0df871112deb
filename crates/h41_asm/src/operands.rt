//! Reads the operands of a line of an assembler source.

ghost use Rattle.std.specs.Prelude.{◌≡◌, ◌<◌, ◌≤◌, ◌+◌, bytes_eq};
ghost use Rattle.std.specs.Fmt.{decimal};
ghost use Rattle.std.specs.List.{list_all};
ghost use Rattle.std.specs.Option.{option_map};
ghost use Rattle.h41_asm.specs.Operands as spec;

use h41_fields::Field;
use h41_lines::numbers::hexadecimal;
use h41_words::Word;

/// The greatest number of characters of the text in a `NAME` directive.
const MOST_CHARACTERS: usize = 11;

/// Returns the ROM word that an operand of three hexadecimal digits, 000 to 3FF, of either case gives. Returns `None`
/// for any other operand.
pub(crate) fn word_in(word: &[u8]) -> Option<Word>
    ensures { result ≡ spec.word_in word.now }
{
    let number = hexadecimal(3, 3, word)?;
    Word::new(number)
}

/// Returns the address that an operand of four hexadecimal digits of either case gives, or `None` for any other
/// operand.
pub(crate) fn address_in(word: &[u8]) -> Option<u16>
    ensures { result ≡ spec.address_in word.now }
{
    hexadecimal(4, 4, word)
}

/// Returns the number of words, -255 to 255, that an operand with a sign and two hexadecimal digits gives as the
/// displacement of a jump, or `None` for any other operand. Zero is written `+00`; `-00` is not accepted.
pub(crate) fn displacement_in(word: &[u8]) -> Option<i16>
    ensures { result ≡ spec.displacement_in word.now }
{
    match word.split_first()? {
        (b'+', digits) => forward(digits),
        (b'-', digits) => backward(digits),
        _ => None,
    }
}

/// Returns the displacement, 0 to 255 words, that two hexadecimal digits after a `+` give, or `None` for any other
/// text.
fn forward(digits: &[u8]) -> Option<i16>
    ensures { result ≡ spec.forward_by (spec.hexadecimal_in 2 digits.now) }
{
    let size = hexadecimal(2, 2, digits)?;
    Some(size as i16)
}

/// Returns the displacement, -1 to -255 words, that two hexadecimal digits after a `-` give, or `None` for any other
/// text and for `00`.
fn backward(digits: &[u8]) -> Option<i16>
    ensures { result ≡ spec.backward_by (spec.hexadecimal_in 2 digits.now) }
{
    let size = hexadecimal(2, 2, digits)?;
    if size == 0 {
        None
    } else {
        Some(-(size as i16))
    }
}

/// Returns the decimal number, without leading zeros, that an operand gives, if it is one of `count` numbers from
/// `least` on, which must all be below 16. Returns `None` for any other operand.
pub(crate) fn number_in(least: u8, count: u8, word: &[u8]) -> Option<u8>
    requires { least + count ≤ 16 }
    ensures { result ≡ spec.number_in least count word.now }
{
    (least..least + count).find(|number| is_decimal(*number, word))
}

/// Returns whether an operand is a given number below 16, in decimal without leading zeros.
fn is_decimal(number: u8, word: &[u8]) -> bool
    requires { number < 16 }
    ensures { result ≡ bytes_eq word.now (decimal number) }
{
    if number < 10 {
        word == [b'0' + number].as_slice()
    } else {
        word == [b'1', b'0' + number % 10].as_slice()
    }
}

/// Returns the field (some digit places of a register) that an operand names, such as `ALL` or `S&X`, or `None` for any
/// other operand.
pub(crate) fn field_in(word: &[u8]) -> Option<Field>
    ensures { result ≡ spec.field_in word.now }
{
    match word {
        b"@R" => Some(Field::AtPointer),
        b"S&X" => Some(Field::SignAndExponent),
        b"R<" => Some(Field::ToPointer),
        b"ALL" => Some(Field::All),
        b"P-Q" => Some(Field::PToQ),
        b"XS" => Some(Field::ExponentSign),
        b"M" => Some(Field::Mantissa),
        b"MS" => Some(Field::MantissaSign),
        _ => None,
    }
}

/// Returns the text between two quotes in the operand of a `NAME` directive, or `None` if the operand has another form.
/// The text has 1 to 11 characters from 20 to 5F (hexadecimal) except the quote.
pub(crate) fn text_in(word: &[u8]) -> Option<&[u8]>
    ensures { option_map (λ text. text.now) result ≡ spec.text_in word.now }
{
    match word {
        [b'"', text @ .., b'"'] if is_text(text) => Some(text),
        _ => None,
    }
}

/// Returns whether bytes are the text of a `NAME` directive: 1 to 11 characters from 20 to 5F (hexadecimal), except the
/// quote.
fn is_text(text: &[u8]) -> bool
    ensures { result ≡ spec.is_text text.now }
{
    !text.is_empty() && text.len() <= MOST_CHARACTERS && are_text_bytes(text)
}

/// Returns whether each byte can be in the text of a `NAME` directive: whether each is 20 to 5F (hexadecimal), except
/// the quote.
fn are_text_bytes(bytes: &[u8]) -> bool
    ensures { result ≡ list_all spec.is_text_byte bytes.now }
{
    bytes.iter().all(|byte| is_text_byte(*byte))
}

/// Returns whether a byte can be in the text of a `NAME` directive: whether it is 20 to 5F (hexadecimal), except the
/// quote.
fn is_text_byte(byte: u8) -> bool
    ensures { result ≡ spec.is_text_byte byte }
{
    matches!(byte, 0x20..=0x5F) && byte != b'"'
}
