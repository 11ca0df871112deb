//! Digits and characters as they appear in texts.

ghost use Rattle.std.specs.Prelude.{◌≡◌, ◌+◌, ◌<◌, ◌≤◌, [], ◌∷◌, ◌++◌, ◌*◌, length, true};
ghost use Rattle.std.specs.Fmt.{digit_glyph};
ghost use Rattle.arrayvec.specs.ArrayString.{array_string_len};
ghost use Rattle.h41_digits.specs.Register.{hexadecimal_text};
ghost use Rattle.h41_lines.specs.Characters as spec;

use arrayvec::ArrayString;

/// Returns a number from 0 to 99 as two decimal digits, with a leading zero below 10.
#[inline]
pub fn two_digits(number: u8) -> ArrayString<2>
    requires { number < 100 }
    ensures { result.bytes ≡ spec.two_digits number }
{
    let mut digits = ArrayString::new();
    digits.push_str(glyph_text(number / 10));
    digits.push_str(glyph_text(number % 10));
    digits
}

/// Returns a byte as two hexadecimal digits, in upper case.
#[inline]
pub fn byte_digits(byte: u8) -> ArrayString<2>
    ensures { result.bytes ≡ hexadecimal_text 2 byte }
{
    let mut digits = ArrayString::new();
    push_byte_digits(&mut digits, byte);
    digits
}

/// Returns an address, 0000 to FFFF, as four hexadecimal digits, in upper case.
#[inline]
pub fn address_digits(address: u16) -> ArrayString<4>
    ensures { result.bytes ≡ hexadecimal_text 4 address }
{
    let mut digits = ArrayString::new();
    push_byte_digits(&mut digits, (address / 256) as u8);
    push_byte_digits(&mut digits, (address % 256) as u8);
    digits
}

/// Appends a byte to a text as two hexadecimal digits, in upper case. The text must have room for them.
#[inline(always)]
pub fn push_byte_digits<const N: usize>(text: &mut ArrayString<N>, byte: u8)
    requires { array_string_len text.old + 2 ≤ N }
    ensures { text.new.bytes ≡ text.old.bytes ++ hexadecimal_text 2 byte }
{
    text.push_str(glyph_text(byte / 16));
    text.push_str(glyph_text(byte % 16));
}

/// Returns a hexadecimal digit, 0 to 15, in upper case, as a text of one character.
#[inline(always)]
pub fn glyph_text(digit: u8) -> &'static str
    requires { digit < 16 }
    ensures { result.now ≡ digit_glyph true digit ∷ [] }
{
    match digit {
        0 => "0",
        1 => "1",
        2 => "2",
        3 => "3",
        4 => "4",
        5 => "5",
        6 => "6",
        7 => "7",
        8 => "8",
        9 => "9",
        10 => "A",
        11 => "B",
        12 => "C",
        13 => "D",
        14 => "E",
        _ => "F",
    }
}

/// Returns a character as text: characters 20 to 7E (hexadecimal) as they are, except `\`; any other one escaped, as
/// `\` and two upper-case hexadecimal digits. For example, character 0D is `\0D`.
#[inline]
pub fn character_text(character: u8) -> ArrayString<3>
    ensures { result.bytes ≡ spec.character_text character }
{
    if is_plain(character) {
        let mut text = ArrayString::new();
        text.push(char::from(character));
        text
    } else {
        escaped(character)
    }
}

/// Returns a character in escaped form: `\` and its code as two upper-case hexadecimal digits.
#[inline]
pub fn escaped(character: u8) -> ArrayString<3>
    ensures { result.bytes ≡ spec.escape_of character }
{
    let mut text = ArrayString::new();
    text.push_str("\\");
    push_byte_digits(&mut text, character);
    text
}

/// Appends characters to a text, in their order: characters 20 to 7E (hexadecimal) as they are, except `\`; any other
/// one escaped, as `\` and two upper-case hexadecimal digits. The text must have room for three bytes a character.
#[inline]
pub fn push_characters<const N: usize>(text: &mut ArrayString<N>, characters: &[u8])
    requires { array_string_len text.old + 3 * length characters.now ≤ N }
    ensures { text.new.bytes ≡ text.old.bytes ++ spec.characters_text characters.now }
{
    for character in characters {
        text.push_str(character_text(*character).as_str());
    }
}

/// Returns whether a character appears in texts as it is, not escaped: whether it is 20 to 7E (hexadecimal), except
/// `\`.
#[inline(always)]
fn is_plain(character: u8) -> bool
    ensures { result ≡ spec.is_plain character }
{
    matches!(character, b' '..=b'~') && character != b'\\'
}
