//! Writes the contents of registers and of ALPHA as the display shows them.

ghost use Rattle.std.specs.Prelude.{◌≡◌, ◌++◌};
ghost use Rattle.arrayvec.specs.ArrayString.{array_string_len};
ghost use Rattle.h41_digits.specs.Register as digits;
ghost use Rattle.h41_show.specs.RegisterText as spec;

use crate::characters::{ALPHA_DATA, KIND_PLACE, after_nulls, alpha_data};
use crate::digits::{DisplayText, TEXT_CAPACITY, push_byte};
use crate::format::Format;
use crate::number::number_text;
use arrayvec::ArrayString;
use h41_decimal::Ten;
use h41_digits::{PLACES, Reg, glyph};
use h41_lines::characters::push_characters;
use h41_ram::Ram;

/// Returns the text of a register's content: a number in the display format, ALPHA data as characters, and any other
/// content as the 14 digits in upper-case hexadecimal. Leading nulls of ALPHA data are not shown. Its bytes 20 to 7E
/// (hexadecimal) except `\` are shown as ASCII characters; any other byte is shown as `\` and two hexadecimal digits
/// (this project's choice).
pub fn register_text(register: Reg, format: Format) -> ArrayString<TEXT_CAPACITY>
    ensures { result.bytes ≡ spec.register_text format register }
{
    if let Some(number) = Ten::from_reg(register) {
        return number_text(number, format);
    }
    let mut text = DisplayText::new();
    if register.get(KIND_PLACE) == ALPHA_DATA {
        push_characters(&mut text, after_nulls(&alpha_data(register)));
    } else {
        push_register(&mut text, register);
    }
    text
}

/// Returns the text of the ALPHA register: its bytes without leading nulls. Bytes 20 to 7E (hexadecimal) except `\` are
/// shown as ASCII characters; any other byte is shown as `\` and two hexadecimal digits (this project's choice).
pub fn alpha_text<const REGS: usize>(ram: &Ram<REGS>) -> ArrayString<TEXT_CAPACITY>
    ensures { result.bytes ≡ spec.alpha_text ram.now.registers }
{
    let mut text = DisplayText::new();
    push_characters(&mut text, after_nulls(&ram.alpha()));
    text
}

/// Appends the 14 digits of a register in upper-case hexadecimal, the leftmost, digit 13, first.
fn push_register(text: &mut DisplayText, register: Reg)
    requires { array_string_len text.old ≡ 0 }
    ensures { text.new.bytes ≡ text.old.bytes ++ digits.text register }
{
    for place in (0..PLACES).rev() {
        push_byte(text, glyph(register.get(place)));
    }
}
