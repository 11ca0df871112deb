//! Reads the numbers that words contain.

ghost use Rattle.std.specs.Prelude.{◌≡◌, ◌≤◌, ◌<◌, ◌^◌, IfSome};
ghost use Rattle.h41_lines.specs.Numbers as spec;

/// Returns the number that a word's digits form in a radix from 2 to 36. Letters may be in either case, and leading zeros are
/// allowed. Returns `None` if the word is empty, if one of its bytes is not a digit, or if the number is greater than `most`.
pub fn number_up_to(most: u32, radix: u32, word: &[u8]) -> Option<u32>
    requires most_in { most ≤ 9999999 }
    requires radix_from_two { 2 ≤ radix }
    requires radix_in { radix ≤ 36 }
    ensures small { IfSome result (λ number. number ≤ most) }
    ensures value { result ≡ spec.number_up_to most radix word.now }
{
    if word.is_empty() {
        return None;
    }
    let mut value = 0;
    for byte in word {
        let digit = char::from(*byte).to_digit(radix)?;
        value = value * radix + digit;
        if value > most {
            return None;
        }
    }
    Some(value)
}

/// Returns the number, 1 to `most`, that a word's decimal digits form. Leading zeros are allowed. Returns `None` if the
/// word is not a decimal number, or if the number is 0 or greater than `most`.
pub fn count_up_to(most: u32, word: &[u8]) -> Option<u32>
    requires { most ≤ 9999999 }
    ensures small { IfSome result (λ number. number ≤ most) }
    ensures value { result ≡ spec.count_up_to most word.now }
{
    let count = number_up_to(most, 10, word)?;
    if count == 0 {
        return None;
    }
    Some(count)
}

/// Returns the number that a word of `least` to `most` hexadecimal digits, of either case, forms. Returns `None` for any other
/// word.
pub fn hexadecimal(least: usize, most: usize, word: &[u8]) -> Option<u16>
    requires { most ≤ 4 }
    ensures small { IfSome result (λ number. number < 16 ^ most) }
    ensures value { result ≡ spec.hexadecimal least most word.now }
{
    if word.len() < least || word.len() > most {
        return None;
    }
    Some(number_up_to(0xFFFF, 16, word)? as u16)
}
