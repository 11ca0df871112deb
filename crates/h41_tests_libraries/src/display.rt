//! Tests of h41_show: numbers in the display formats of the Owner's Handbook, and at the limits of each rule.

use crate::judge::wants;
use h41_decimal::Ten;
use h41_digits::Reg;
use h41_ram::{Ram, flags};
use h41_show::{Format, Notation, RadixMark, alpha_text, number_text, register_text};
use std::process::Abort;
use std::test::Fail;

/// A row of a test table: a number as the 14 hexadecimal digits of a register, the number of digits of the display
/// format, and the expected text.
type TextRow = (u64, u8, &'static str);

/// Test rows for the display format FIX, with the point as the radix mark and with digit grouping.
static FIXED: [TextRow; 28] = [
    (0x00000000000000, 4, "0.0000"),
    (0x00000000000000, 0, "0."),
    (0x00000000000000, 9, "0.000000000"),
    (0x01000000000000, 4, "1.0000"),
    (0x94000000000997, 2, "-4.00-03"),
    (0x09999600000002, 1, "1,000.0"),
    (0x04000000000995, 4, "4.0000-05"),
    (0x05000000000995, 4, "0.0001"),
    (0x95000000000995, 4, "-0.0001"),
    (0x04999999999995, 4, "5.0000-05"),
    (0x01234567891006, 4, "1,234,567.891"),
    (0x01234567891006, 2, "1,234,567.89"),
    (0x01234567891006, 0, "1,234,568."),
    (0x01234567890009, 4, "1,234,567,890."),
    (0x91234567890009, 0, "-1,234,567,890."),
    (0x09999999999009, 0, "9,999,999,999."),
    (0x01000000000010, 2, "1.00 10"),
    (0x91000000000010, 0, "-1. 10"),
    (0x09999999999999, 9, "1.000000000"),
    (0x09999999999998, 9, "0.100000000"),
    (0x05000000000990, 9, "0.000000001"),
    (0x04999999999990, 9, "5.0000000-10"),
    (0x05000000000999, 0, "1."),
    (0x04999999999999, 0, "5.-01"),
    (0x09999999999999, 0, "1."),
    (0x01000000000901, 9, "1.0000000-99"),
    (0x09999999999099, 9, "9.9999999 99"),
    (0x09995000000002, 0, "1,000."),
];

/// Test rows for the display format SCI, with the point as the radix mark.
static SCIENTIFIC: [TextRow; 12] = [
    (0x00000000000000, 4, "0.0000 00"),
    (0x00000000000000, 0, "0. 00"),
    (0x00000000000000, 9, "0.0000000 00"),
    (0x01234567891006, 4, "1.2346 06"),
    (0x01234567891006, 7, "1.2345679 06"),
    (0x01234567891006, 9, "1.2345679 06"),
    (0x91234500000005, 0, "-1. 05"),
    (0x09999950000005, 4, "1.0000 06"),
    (0x09999999999099, 4, "9.9999 99"),
    (0x99999999999099, 0, "-9. 99"),
    (0x09999999999901, 2, "1.00-98"),
    (0x02500000000000, 0, "3. 00"),
];

/// Test rows for the display format ENG, with the point as the radix mark.
static ENGINEERING: [TextRow; 14] = [
    (0x00000000000000, 3, "0.000 00"),
    (0x01234560000004, 3, "12.35 03"),
    (0x01234560000004, 0, "10. 03"),
    (0x01234560000004, 1, "12. 03"),
    (0x01234560000005, 0, "100. 03"),
    (0x01234560000005, 1, "120. 03"),
    (0x01234560000005, 2, "123. 03"),
    (0x09996000000002, 2, "1.00 03"),
    (0x09994000000002, 2, "999. 00"),
    (0x01234567891999, 9, "123.45679-03"),
    (0x91000000000998, 2, "-10.0-03"),
    (0x01000000000901, 2, "1.00-99"),
    (0x09999999999099, 3, "9.999 99"),
    (0x09999999999098, 3, "1.000 99"),
];

/// Returns the decimal number in a register that is given by its 14 digits. Fails if they contain no number.
fn held(register: u64) -> Result<Ten, Fail> {
    let register = Reg::from_u64(register).ok_or("14 digits")?;
    Ok(Ten::from_reg(register).ok_or("a number")?)
}

/// Returns the display format FIX, SCI or ENG with `digits` digits, with the point as the radix mark and with digit
/// grouping.
fn pointed(notation: Notation, digits: u8) -> Format {
    Format {
        notation,
        digits,
        radix: RadixMark::Point,
        grouping: true,
    }
}

/// Tests that each number of a table is displayed in the format `notation` as the expected text of its row.
fn texts(rt: &impl Abort, notation: Notation, rows: &[TextRow]) -> Result<(), Fail> {
    for (register, digits, text) in rows {
        let shown = number_text(held(*register)?, pointed(notation, *digits));
        wants(rt, text, shown.as_str() == *text);
    }
    Ok(())
}

#[test]
fn notations(rt: HostRuntime) -> Result<(), Fail> {
    texts(&rt, Notation::Fixed, &FIXED)?;
    texts(&rt, Notation::Scientific, &SCIENTIFIC)?;
    texts(&rt, Notation::Engineering, &ENGINEERING)
}

#[test]
fn marks(rt: HostRuntime) -> Result<(), Fail> {
    let number = held(0x0123_4567_8910_06)?;
    let rows = [
        (Notation::Fixed, 2, true, "1.234.567,89"),
        (Notation::Fixed, 2, false, "1234567,89"),
        (Notation::Fixed, 0, false, "1234568"),
        (Notation::Scientific, 0, false, "1, 06"),
    ];
    for (notation, digits, grouping, text) in rows {
        let format = Format {
            notation,
            digits,
            radix: RadixMark::Comma,
            grouping,
        };
        wants(&rt, text, number_text(number, format).as_str() == text);
    }
    Ok(())
}

#[test]
fn registers(rt: HostRuntime) -> Result<(), Fail> {
    let format = pointed(Notation::Fixed, 4);
    for (register, text) in [
        (0x01000000000000, "1.0000"),
        (0x10004142435C00, "ABC\\5C\\00"),
        (0x1F000000000000, ""),
        (0x10FF00207E7F1F, "\\FF\\00 ~\\7F\\1F"),
        (0x90000000000000, "90000000000000"),
        (0x0A00000000000F, "0A00000000000F"),
    ] {
        let register = Reg::from_u64(register).ok_or("14 digits")?;
        wants(&rt, text, register_text(register, format).as_str() == text);
    }
    Ok(())
}

#[test]
fn alpha_and_formats_by_flags(rt: HostRuntime) {
    let mut ram = Ram::<64>::new();
    let format = pointed(Notation::Fixed, 4);
    wants(&rt, "at the start", Format::from_flags(&ram) == format);
    wants(&rt, "an empty ALPHA", alpha_text(&ram).as_str() == "");
    ram.set_alpha(*b"\0\0\0\0\0\0\0\0\0\0\0\0\0\0\0\0\0\0\0HELLO");
    wants(&rt, "HELLO", alpha_text(&ram).as_str() == "HELLO");
    for flag in [
        flags::DIGITS_8,
        flags::DIGITS_4,
        flags::DIGITS_2,
        flags::DIGITS_1,
        flags::ENGINEERING,
    ] {
        ram.set_flag(flag, true);
    }
    ram.set_flag(flags::DECIMAL_POINT, false);
    ram.set_flag(flags::DIGIT_GROUPING, false);
    let fixed = Format {
        notation: Notation::Fixed,
        digits: 9,
        radix: RadixMark::Comma,
        grouping: false,
    };
    wants(&rt, "FIX by flags", Format::from_flags(&ram) == fixed);
    ram.set_flag(flags::FIXED, false);
    let notation = Format::from_flags(&ram).notation;
    wants(&rt, "ENG by flags", notation == Notation::Engineering);
    ram.set_flag(flags::ENGINEERING, false);
    let notation = Format::from_flags(&ram).notation;
    wants(&rt, "SCI by flags", notation == Notation::Scientific);
}
