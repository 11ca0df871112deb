//! Computes the number of a number line from its characters: digits, the radix mark, minus signs and E.

ghost use Rattle.std.specs.Prelude.{◌≡◌, ◌+◌, ◌-◌, ◌*◌, ◌^◌, ◌<◌, ◌≤◌, List, ◌∷◌, length, take};
ghost use Rattle.std.specs.Prelude.{IfSome};
ghost use Rattle.std.specs.List.{position_or_len};
ghost use Rattle.h41_codes.specs.NumberCharacters.{exponent_part, is_exponent, is_point};
ghost use Rattle.h41_numbers.specs.NumberLines as lines;
ghost use Rattle.h41_numbers.specs.private.NumberReading.{ReadsCount, ReadsOn, biased_in};
ghost use Rattle.h41_numbers.specs.private.NumberReading.{places_in};

use h41_codes::{Character, exponent_place};
use h41_decimal::{Exponent, Sign, Ten};

/// The number of digits of a mantissa that count, 10. Later digits are ignored.
const MANTISSA_DIGITS: u8 = 10;

/// The number of digits of an exponent that count, 2. Later digits are ignored.
const EXPONENT_DIGITS: u8 = 2;

/// The biased form of the exponent 0: an exponent is stored plus 99.
const EXPONENT_BIAS: u32 = 99;

/// Decimal digits that were read, as one whole number, and how many they are (at most 10).
#[derive(Clone, Copy)]
struct ReadDigits {
    number: u64,
    count: u8,
    ghost below: { number < 10 ^ count },
    ghost few: { count ≤ 10 },
}

impl ReadDigits {
    /// Returns the digits that were read, with one more decimal digit at the right. There must be fewer than 10 before.
    fn push(self, digit: u8) -> Self
        requires room { self.count < 10 }
        requires digit { digit < 10 }
        ensures number { result.number ≡ 10 * self.number + digit }
        ensures count { result.count ≡ self.count + 1 }
    {
        ReadDigits {
            number: 10 * self.number + u64::from(digit),
            count: self.count + 1,
        }
    }

    /// Returns the digits that were read, with the digit of `character` at the right, if it is a digit and there are
    /// fewer than `most`; otherwise the digits unchanged.
    fn read(self, character: Character, most: u8) -> Self
        requires most { most ≤ 10 }
        requires within { self.count ≤ most }
        ensures number { ReadsOn most self.number self.count character result.number result.count }
        ensures count { ReadsCount most self.count character result.count }
        ensures within { result.count ≤ most }
    {
        match digit_of(character) {
            Some(digit) => {
                if self.count < most {
                    self.push(digit)
                } else {
                    self
                }
            }
            None => self,
        }
    }
}

/// Returns the number that the characters of a number line mean. The rules are those of number entry in the Owner's
/// Handbook; they are extended to characters that number entry does not allow (this project's choice).
pub fn number_of(text: &[Character]) -> Ten
    ensures { lines.IsNumberOf text.now result }
{
    let end = exponent_place(text);
    let mantissa = &text[..end];
    let digits = mantissa_digits(text, end);
    let places = decimal_places(mantissa, digits.count);
    let exponent = exponent_of(exponent_part(text, end));
    Ten::typed(sign_of(mantissa), digits.number, places, exponent)
}

/// Returns the exponent, -99 to 99, from the characters after the E of a number line: its first two digits, negative if
/// there is an odd number of minus signs.
fn exponent_of(text: &[Character]) -> Exponent
    ensures { result.biased ≡ biased_in text.now }
{
    let size = first_digits(text, EXPONENT_DIGITS).number as u32;
    match sign_of(text) {
        Sign::Plus => Exponent {
            biased: EXPONENT_BIAS + size,
        },
        Sign::Minus => Exponent {
            biased: EXPONENT_BIAS - size,
        },
    }
}

/// Returns the characters of a number line after the E, whose index is `end`. If there is no E, `end` is the number of
/// characters, and the result is empty.
fn exponent_part(text: &[Character], end: usize) -> &[Character]
    requires { end ≡ position_or_len is_exponent text.now }
    ensures { result.now ≡ exponent_part text.now }
{
    if end < text.len() {
        &text[end + 1..]
    } else {
        &[]
    }
}

/// Returns the digits of the mantissa that count: the first ten before the E of a number line, whose index is `end`. If
/// there is an E but no digit before it, the mantissa is 1. If there is no E, `end` is the number of characters.
fn mantissa_digits(text: &[Character], end: usize) -> ReadDigits
    requires { end ≡ position_or_len is_exponent text.now }
    ensures number { result.number ≡ lines.number_from 0 (lines.mantissa_digits text.now) }
    ensures count { result.count ≡ length (lines.mantissa_digits text.now) }
{
    let digits = first_digits(&text[..end], MANTISSA_DIGITS);
    if digits.count == 0 && end < text.len() {
        ReadDigits {
            number: 1,
            count: 1,
        }
    } else {
        digits
    }
}

/// Returns how many of the `count` digits of the mantissa that count are after the first radix mark, 0 to 10.
fn decimal_places(mantissa: &[Character], count: u8) -> u8
    requires { count ≤ 10 }
    ensures value { result ≡ places_in mantissa.now count }
    ensures bound { result ≤ 10 }
{
    let point = point_place(mantissa);
    if point < mantissa.len() {
        count.saturating_sub(first_digits(&mantissa[..point], MANTISSA_DIGITS).count)
    } else {
        0
    }
}

/// Returns the first digits among the characters of a number line, at most `most` of them (0 to 10). Other characters
/// are skipped.
fn first_digits(text: &[Character], most: u8) -> ReadDigits
    requires { most ≤ 10 }
    ensures number { result.number ≡ lines.number_from 0 (take most (lines.digits_in text.now)) }
    ensures count { result.count ≡ length (take most (lines.digits_in text.now)) }
    ensures bound { result.number < 10 ^ most }
{
    let mut digits = ReadDigits {
        number: 0,
        count: 0,
    };
    for character in text {
        digits = digits.read(*character, most);
    }
    digits
}

/// Returns the sign of the characters of a mantissa or an exponent: plus if there is an even number of minus signs
/// among them, otherwise minus.
fn sign_of(text: &[Character]) -> Sign
    ensures { result ≡ lines.sign_in text.now }
{
    let mut signs: usize = 0;
    for character in text {
        if character.is_minus() {
            signs += 1;
        }
    }
    if signs % 2 == 0 {
        Sign::Plus
    } else {
        Sign::Minus
    }
}

/// Returns the index of the first radix mark among the characters of a mantissa, or the number of characters if there
/// is none.
fn point_place(text: &[Character]) -> usize
    ensures place { result ≡ position_or_len is_point text.now }
    ensures bound { result ≤ length text.now }
{
    for (index, character) in text.iter().enumerate() {
        if character.is_point() {
            return index;
        }
    }
    text.len()
}

/// Returns the value of a digit, 0 to 9, or `None` for any other character.
fn digit_of(character: Character) -> Option<u8>
    ensures value { result ≡ lines.digit_of character }
    ensures bound { IfSome result (λ digit. digit < 10) }
{
    match character {
        Character::Zero => Some(0),
        Character::One => Some(1),
        Character::Two => Some(2),
        Character::Three => Some(3),
        Character::Four => Some(4),
        Character::Five => Some(5),
        Character::Six => Some(6),
        Character::Seven => Some(7),
        Character::Eight => Some(8),
        Character::Nine => Some(9),
        Character::Point | Character::Exponent | Character::Minus => None,
    }
}
