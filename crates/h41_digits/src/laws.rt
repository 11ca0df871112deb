//! Laws of registers. Each law is the contract of a function with an empty body.

ghost use Rattle.h41_digits.specs.RegisterLaws.{ValueIsInjective, TextTellsValue, SetByteIsRead};

/// States that two registers with the same number of digits are equal if they hold the same number.
pub fn value_is_injective()
    ensures { ValueIsInjective }
{}

/// States that the text of a register is the hexadecimal text of its number, with one character for each digit.
pub fn text_tells_value()
    ensures { TextTellsValue }
{}

/// States that reading a byte of a register, after a byte was written there, returns the byte that was written.
pub fn set_byte_is_read()
    ensures { SetByteIsRead }
{}
