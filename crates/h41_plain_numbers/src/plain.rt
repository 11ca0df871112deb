//! Reads number lines of program memory that are digits and radix marks alone in one pass.

ghost use Rattle.std.specs.Prelude.{◌≡◌, ◌<◌, ◌≤◌, ◌+◌, ◌^◌, IfNone, IfSome, IsTrue};
ghost use Rattle.h41_codes.specs.Heads.{IsIn};
ghost use Rattle.h41_plain_numbers.specs.MemoryNumbers.{HasNoNumber, HasNumber};
ghost use Rattle.h41_plain_numbers.specs.private.PlainReading.{EndsNowhere, EndsPlain};
ghost use Rattle.h41_plain_numbers.specs.private.PlainReading.{IsTypedPlain, with_code};
ghost use Rattle.h41_program.specs.ProgramBytes.{byte_count};
ghost use Rattle.h41_ram.specs.RegisterMap.{is_sound};

use h41_codes::laws::{byte_round_trip, first_bytes};
use h41_codes::{Head, head_of};
use h41_decimal::{Exponent, Sign, Ten};
use h41_numbers::laws::plain_texts_are_typed;
use h41_program::{ByteReader, final_position, position_by};
use h41_ram::Ram;

/// The greatest number of digits of a number line that this module reads: 10, as many as a mantissa has.
const MANTISSA_DIGITS: u8 = 10;

/// The byte of the radix mark in a number line: 1A (hexadecimal). The bytes of the digits are 10 to 19.
const RADIX_MARK: u8 = 0x1A;

/// The greatest number of bytes that are read for a number line: 16 for the line, and 1 for the byte after it.
const NUMBER_AND_NEXT: u16 = 17;

/// The exponent 0 as `Exponent` stores it: increased by 99.
const EXPONENT_BIAS: u32 = 99;

/// The digits that are read so far of a number line of program memory.
#[derive(Clone, Copy)]
struct PlainDigits {
    /// The digits that are read so far as one whole number, without the radix mark.
    number: u64,
    /// How many digits are read so far.
    count: u8,
    /// How many of the digits that are read so far are after the radix mark.
    places: u8,
    /// Whether a radix mark was read.
    marked: bool,
}

impl PlainDigits {
    /// Returns these digits with one more byte of the number line read: that of a digit, 10 to 19 (hexadecimal), or
    /// that of a radix mark, 1A. Before a digit, fewer than 10 digits must be read.
    #[inline(always)]
    fn read(self, code: u8) -> Self
        requires code { IsIn 0x10 0x1B code }
        requires room { code < 0x1A → self.count < 10 }
        requires few { self.count ≤ 10 }
        requires below { self.number < 10 ^ self.count }
        requires places { self.places ≤ self.count }
        ensures digits { result ≡ with_code self code }
        ensures more { result.count ≤ self.count + 1 }
        ensures few { result.count ≤ 10 }
        ensures below { result.number < 10 ^ result.count }
        ensures places { result.places ≤ result.count }
    {
        if code < RADIX_MARK {
            PlainDigits {
                number: 10 * self.number + u64::from(code - 0x10),
                count: self.count + 1,
                places: if self.marked {
                    self.places + 1
                } else {
                    self.places
                },
                marked: self.marked,
            }
        } else {
            PlainDigits {
                number: self.number,
                count: self.count,
                places: self.places,
                marked: true,
            }
        }
    }

    /// Returns the number that the digits form, with the sign plus and the exponent 0. `places` of the digits are after
    /// the radix mark.
    #[inline(always)]
    fn ten(self) -> Ten
        requires { self.places ≤ 10 }
        ensures { IsTypedPlain self.number self.places result }
    {
        let exponent = Exponent {
            biased: EXPONENT_BIAS,
        };
        Ten::typed(Sign::Plus, self.number, self.places, exponent)
    }
}

/// Returns the number of the number line at a position in program memory, and the position of the next line, or that of
/// the byte after the number if no line follows. `None` if there is no such number line at the position.
///
/// The number line must consist of digits and radix marks only, with one to ten digits, and must be followed by a byte
/// that is before the last bytes of program memory (`final_position`) and does not continue a number.
#[inline(never)]
pub fn plain_number<const REGS: usize>(ram: &Ram<REGS>, at: u16) -> Option<(Ten, u16)>
    requires { IsTrue (is_sound ram.now.registers) }
    ensures some { IfSome result (λ found. HasNumber ram.now.registers at found.0 found.1) }
    ensures none { IfNone result (HasNoNumber ram.now.registers at) }
{
    byte_round_trip();
    first_bytes();
    plain_texts_are_typed();
    let last = final_position(ram);
    if at >= last {
        return None;
    }
    match plain_digits(ram, at, last) {
        Some((digits, behind, byte)) => {
            let number = digits.ten();
            Some((number, position_by(ram, behind, byte)))
        }
        None => None,
    }
}

/// Returns the digits of the number line at position `at` of program memory, the position after the line, and the byte
/// there. `None` if the line has another byte than those of digits and radix marks, no digit or more than 10, or if the
/// byte after it is not found within 17 bytes and before `last`, the position of the last bytes of program memory.
#[inline(always)]
fn plain_digits<const REGS: usize>(
    ram: &Ram<REGS>,
    at: u16,
    last: u16,
) -> Option<(PlainDigits, u16, u8)>
    requires from { at < last }
    requires last { last < byte_count ram.now.registers }
    requires bound { last < 65000 }
    requires sound { IsTrue (is_sound ram.now.registers) }
    ensures some { IfSome result
        (λ found. EndsPlain ram.now.registers at last found.0 found.1 found.2) }
    ensures none { IfNone result (EndsNowhere ram.now.registers at last) }
{
    let mut digits = PlainDigits {
        number: 0,
        count: 0,
        places: 0,
        marked: false,
    };
    let mut reader = ByteReader::at(ram, at);
    for position in at..last.min(at + NUMBER_AND_NEXT) {
        let byte = reader.read(ram, position);
        let Head::Number = head_of(byte) else {
            if digits.count == 0 {
                return None;
            }
            return Some((digits, position, byte));
        };
        if byte > RADIX_MARK {
            return None;
        }
        if digits.count == MANTISSA_DIGITS && byte < RADIX_MARK {
            return None;
        }
        digits = digits.read(byte);
    }
    None
}
