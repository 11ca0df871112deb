//! Writes decimal digits into texts.

ghost use Rattle.std.specs.Prelude.{◌≡◌, ◌+◌, ◌*◌, ◌<◌, ◌≤◌, ◌++◌, [], ◌∷◌, length};
ghost use Rattle.std.specs.Fmt.{decimal};
ghost use Rattle.arrayvec.specs.ArrayString.{array_string_len};
ghost use Rattle.h41_show.specs.Digits.{digits_text, grouped_digits};

use arrayvec::ArrayString;

/// The capacity, in bytes, of the text of a number, a register or ALPHA: the 24 bytes of ALPHA need 72 if each is shown
/// as `\` and two hexadecimal digits.
pub const TEXT_CAPACITY: usize = 80;

/// The text of a number, a register or ALPHA while it is written.
pub(crate) type DisplayText = ArrayString<TEXT_CAPACITY>;

/// Appends an ASCII character to a text.
pub(crate) fn push_byte(text: &mut DisplayText, byte: u8)
    requires room { array_string_len text.old < 80 }
    requires ascii { byte < 128 }
    ensures { text.new.bytes ≡ text.old.bytes ++ byte ∷ [] }
{
    text.push(char::from(byte));
}

/// Appends the `count` lowest decimal digits of a number, the lowest last. For example, 7 with a `count` of 3 is
/// written as `007`.
pub(crate) fn push_digits(text: &mut DisplayText, number: u64, count: usize)
    requires { array_string_len text.old + count ≤ 80 }
    ensures bytes { text.new.bytes ≡ text.old.bytes ++ digits_text count number }
    ensures size { array_string_len text.new ≡ array_string_len text.old + count }
{
    if count > 0 {
        push_digits(text, number / 10, count - 1);
        push_byte(text, b'0' + (number % 10) as u8);
    }
}

/// Appends a number with all its decimal digits and no leading zeros; 0 is written as `0`.
pub(crate) fn push_decimal(text: &mut DisplayText, number: u64)
    requires { array_string_len text.old + length (decimal number) ≤ 80 }
    ensures { text.new.bytes ≡ text.old.bytes ++ decimal number }
{
    if number >= 10 {
        push_decimal(text, number / 10);
    }
    push_byte(text, b'0' + (number % 10) as u8);
}

/// Appends a number with all its decimal digits in groups of three, separated by the ASCII character `mark`, for
/// example `1,234,567`.
pub(crate) fn push_grouped(text: &mut DisplayText, number: u64, mark: u8)
    requires room { array_string_len text.old + 2 * length (decimal number) ≤ 80 }
    requires mark { mark < 128 }
    ensures bytes { text.new.bytes ≡ text.old.bytes ++ grouped_digits mark (decimal number) }
    ensures most { length text.new.bytes ≤ length text.old.bytes + 2 * length (decimal number) }
{
    if number >= 1000 {
        push_grouped(text, number / 1000, mark);
        push_byte(text, mark);
        push_digits(text, number % 1000, 3);
    } else {
        push_decimal(text, number);
    }
}
