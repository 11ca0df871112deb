//! Writes a number as the display shows it.

ghost use Rattle.std.specs.Prelude.{◌≡◌, ◌+◌, ◌-◌, ◌*◌, ◌^◌, ◌<◌, ◌≤◌, ◌++◌, [], ◌∷◌, min, is_some};
ghost use Rattle.std.specs.Prelude.{IfSome};
ghost use Rattle.arrayvec.specs.ArrayString.{array_string_len};
ghost use Rattle.h41_decimal.specs.Units.{size, units};
ghost use Rattle.h41_show.specs.NumberText as spec;

use crate::digits::{
    DisplayText, TEXT_CAPACITY, push_byte, push_decimal, push_digits, push_grouped,
};
use crate::format::{Format, Notation, RadixMark};
use crate::rounding::{Rounded, power_of_ten, round, without_last};
use arrayvec::ArrayString;
use h41_decimal::{Magnitude, Sign, Ten};

/// The most digits that FIX shows, before and after the radix mark together.
const DIGITS: u32 = 10;

/// The number that is added to an exponent, -99 to 99, so that the sum is not negative.
const EXPONENT_ZERO: u32 = 99;

/// Returns the text of a number in a display format.
///
/// FIX rounds to as many decimals as the format's `digits` and ten digits allow, and groups the digits before the
/// decimals if the format says so. A number of 10^10 or more, and a number other than zero that would be shown as zero,
/// is shown as in SCI. SCI and ENG show up to eight digits, and an exponent of two digits; the exponent of ENG is a
/// multiple of 3.
///
/// Halves are rounded away from zero. If rounding would result in exponent 100, SCI and ENG cut instead.
///
/// This follows the Owner's Handbook, except the eight digits, the cut, the zeros that replace missing digits in ENG,
/// and the exponent of zero (this project's choice).
pub fn number_text(number: Ten, format: Format) -> ArrayString<TEXT_CAPACITY>
    ensures { result.bytes ≡ spec.number_text format (units number) }
{
    let mut text = DisplayText::new();
    match number {
        Ten::Zero => push_zero(&mut text, format),
        Ten::Nonzero(sign, x) => {
            push_sign(&mut text, sign);
            push_size(&mut text, x, format);
        }
    }
    text
}

/// Appends `-` for a negative number, and nothing for a positive one.
fn push_sign(text: &mut DisplayText, sign: Sign)
    requires { array_string_len text.old ≡ 0 }
    ensures bytes { text.new.bytes ≡ text.old.bytes ++ spec.sign_text sign }
    ensures most { array_string_len text.new ≤ 1 }
{
    match sign {
        Sign::Plus => {}
        Sign::Minus => push_byte(text, b'-'),
    }
}

/// Appends the number zero in a display format.
fn push_zero(text: &mut DisplayText, format: Format)
    requires { array_string_len text.old ≤ 1 }
    ensures { text.new.bytes ≡ text.old.bytes ++ spec.size_text format 0 }
{
    match format.notation {
        Notation::Fixed => {
            let decimals = fixed_decimals(0, format.digits);
            push_steps(text, format, DecimalSteps { decimals, count: 0 });
        }
        Notation::Scientific | Notation::Engineering => {
            push_mantissa(text, format.radix, 0, mantissa_decimals(format.digits));
            push_exponent(text, EXPONENT_ZERO);
        }
    }
}

/// Appends an absolute value greater than zero in a display format.
fn push_size(text: &mut DisplayText, x: Magnitude, format: Format)
    requires { array_string_len text.old ≤ 1 }
    ensures { text.new.bytes ≡ text.old.bytes ++ spec.size_text format (size x) }
{
    match format.notation {
        Notation::Fixed => match fixed(x, format.digits) {
            Some(steps) => push_steps(text, format, steps),
            None => push_scientific(text, x, format),
        },
        Notation::Scientific | Notation::Engineering => push_scientific(text, x, format),
    }
}

/// An absolute value as FIX shows it: a whole number of units of its last decimal. For example, 1.25 with two decimals
/// is 125.
#[derive(Clone, Copy)]
struct DecimalSteps {
    /// The number of decimals that are shown, 0 to 9.
    decimals: u32,
    /// The absolute value in units of the last decimal.
    count: u64,
    ghost few: { decimals ≤ 9 },
}

/// Returns an absolute value as FIX shows it if the display digit is `digits`, or `None` if FIX shows it as SCI does:
/// if it is 10^10 or more, or would be shown as zero.
fn fixed(x: Magnitude, digits: u8) -> Option<DecimalSteps>
    ensures fixed { is_some result ≡ spec.is_fixed digits (size x) }
    ensures decimals { IfSome result (λ s. s.decimals ≡ spec.fixed_decimals digits (size x)) }
    ensures count { IfSome result (λ s. s.count ≡ spec.fixed_count digits (size x)) }
{
    let above_least = x.steps();
    if above_least >= EXPONENT_ZERO + DIGITS {
        return None;
    }
    let decimals = fixed_decimals(above_least.saturating_sub(EXPONENT_ZERO), digits);
    // The number of the ten digits that are after the last decimal.
    let dropped = EXPONENT_ZERO + DIGITS - 1 - above_least - decimals;
    if dropped > DIGITS {
        return None;
    }
    match without_last(x.mantissa.digits, dropped) {
        0 => None,
        count => Some(DecimalSteps { decimals, count }),
    }
}

/// Returns how many decimals FIX shows if the display digit is `digits` and `whole` + 1 digits, 1 to 10, are before the
/// radix mark: `digits`, but at most as many as ten digits allow.
fn fixed_decimals(whole: u32, digits: u8) -> u32
    requires { whole ≤ 9 }
    ensures { result ≡ min digits (9 - whole) }
{
    u32::from(digits).min(9 - whole)
}

/// Returns how many digits SCI and ENG show after the first one if the display digit is `digits`: `digits`, but at most
/// 7.
fn mantissa_decimals(digits: u8) -> u32
    ensures value { result ≡ spec.mantissa_decimals digits }
    ensures most { result ≤ 7 }
{
    u32::from(digits).min(7)
}

/// Appends an absolute value as FIX shows it, given in units of its last decimal.
fn push_steps(text: &mut DisplayText, format: Format, steps: DecimalSteps)
    requires { array_string_len text.old ≤ 1 }
    ensures { text.new.bytes ≡ text.old.bytes ++ spec.steps_text format steps.decimals steps.count }
{
    let whole = steps.count / power_of_ten(steps.decimals);
    push_integer(text, format, whole);
    push_fixed_mark(text, format);
    push_digits(text, steps.count, steps.decimals as usize);
}

/// Appends the digits before the radix mark as FIX shows them: in groups of three if the display format says so.
fn push_integer(text: &mut DisplayText, format: Format, whole: u64)
    requires { array_string_len text.old ≤ 1 }
    ensures bytes { text.new.bytes ≡ text.old.bytes ++ spec.integer_text format whole }
    ensures most { array_string_len text.new ≤ 41 }
{
    if format.grouping {
        push_grouped(text, whole, group_byte(format.radix));
    } else {
        push_decimal(text, whole);
    }
}

/// Appends the radix mark as FIX shows it: if the display digit is above 0 or digits are grouped; otherwise nothing.
fn push_fixed_mark(text: &mut DisplayText, format: Format)
    requires { array_string_len text.old ≤ 41 }
    ensures bytes { text.new.bytes ≡ text.old.bytes ++ spec.fixed_mark format }
    ensures most { array_string_len text.new ≤ 42 }
{
    if format.digits > 0 || format.grouping {
        push_byte(text, radix_byte(format.radix));
    }
}

/// Appends an absolute value greater than zero, as SCI and ENG show it.
fn push_scientific(text: &mut DisplayText, x: Magnitude, format: Format)
    requires { array_string_len text.old ≤ 1 }
    ensures { text.new.bytes ≡ text.old.bytes ++ spec.scientific_text format (size x) }
{
    let decimals = mantissa_decimals(format.digits);
    let Rounded {
        digits,
        above_least,
    } = round(x, decimals);
    let extra = extra_digits(format.notation, above_least);
    let filled = digits * power_of_ten(extra.saturating_sub(decimals));
    push_mantissa(text, format.radix, filled, decimals.saturating_sub(extra));
    push_exponent(text, above_least - extra);
}

/// Returns how many digits the notation shows before the radix mark in addition to the first one, 0 to 2. In ENG it
/// makes the exponent a multiple of 3. `above_least` is the exponent of the first digit plus 99.
fn extra_digits(notation: Notation, above_least: u32) -> u32
    ensures value { result ≡ spec.extra_digits notation (above_least + 9) }
    ensures most { result ≤ 2 }
    ensures within { result ≤ above_least }
{
    match notation {
        Notation::Engineering => above_least % 3,
        Notation::Fixed | Notation::Scientific => 0,
    }
}

/// Appends a mantissa with this number of decimals, at most 7. `count` is the mantissa in units of its last decimal:
/// for example, 125 with two decimals is written as `1.25`.
fn push_mantissa(text: &mut DisplayText, radix: RadixMark, count: u64, decimals: u32)
    requires room { array_string_len text.old ≤ 1 }
    requires decimals { decimals ≤ 7 }
    ensures bytes { text.new.bytes ≡ text.old.bytes ++ spec.mantissa_text radix decimals count }
    ensures most { array_string_len text.new ≤ 29 }
{
    push_decimal(text, count / power_of_ten(decimals));
    push_byte(text, radix_byte(radix));
    push_digits(text, count, decimals as usize);
}

/// Appends an exponent, -99 to 99, as a space or `-` and two digits. `above_least` is the exponent plus 99.
fn push_exponent(text: &mut DisplayText, above_least: u32)
    requires room { array_string_len text.old ≤ 29 }
    requires range { above_least ≤ 198 }
    ensures { text.new.bytes ≡ text.old.bytes ++ spec.exponent_text (above_least + 9) }
{
    if above_least >= EXPONENT_ZERO {
        push_byte(text, b' ');
        push_digits(text, u64::from(above_least - EXPONENT_ZERO), 2);
    } else {
        push_byte(text, b'-');
        push_digits(text, u64::from(EXPONENT_ZERO - above_least), 2);
    }
}

/// Returns the ASCII character of the radix mark: `.` or `,`.
fn radix_byte(radix: RadixMark) -> u8
    ensures value { result ≡ spec.radix_byte radix }
    ensures ascii { result < 128 }
{
    match radix {
        RadixMark::Point => b'.',
        RadixMark::Comma => b',',
    }
}

/// Returns the ASCII character that separates groups of three digits: a comma if the radix mark is a point, otherwise a
/// point.
fn group_byte(radix: RadixMark) -> u8
    ensures value { result ≡ spec.group_byte radix }
    ensures ascii { result < 128 }
{
    match radix {
        RadixMark::Point => b',',
        RadixMark::Comma => b'.',
    }
}
