//! Reads the display format from the flags.

ghost use Rattle.std.specs.Prelude.{◌≡◌, ◌≤◌};
ghost use Rattle.h41_ram.specs.NamedFlags.{decimal_point, engineering, fixed};
ghost use Rattle.h41_ram.specs.RegisterMap.{flag_of};
ghost use Rattle.h41_show.specs.DisplayFormat as spec;

use crate::format::{Notation, RadixMark};
use h41_ram::{Ram, flags};

/// Returns the notation of numbers that the flags determine: FIX if flag 40 is set, otherwise ENG if flag 41 is set,
/// otherwise SCI.
pub(crate) fn notation<const REGS: usize>(ram: &Ram<REGS>) -> Notation
    ensures { result ≡ spec.notation_of (flag_of ram.now.registers fixed)
        (flag_of ram.now.registers engineering) }
{
    if ram.flag(flags::FIXED) {
        Notation::Fixed
    } else if ram.flag(flags::ENGINEERING) {
        Notation::Engineering
    } else {
        Notation::Scientific
    }
}

/// Returns the number that flags 36 to 39 form as four bits, 0 to 15. Flag 36 is the highest bit.
pub(crate) fn display_digit<const REGS: usize>(ram: &Ram<REGS>) -> u8
    ensures { result ≡ spec.display_digit ram.now.registers }
{
    weight(ram.flag(flags::DIGITS_8), 8)
        + weight(ram.flag(flags::DIGITS_4), 4)
        + weight(ram.flag(flags::DIGITS_2), 2)
        + weight(ram.flag(flags::DIGITS_1), 1)
}

/// Returns `amount` if the flag is set, otherwise 0.
fn weight(flag: bool, amount: u8) -> u8
    requires { amount ≤ 8 }
    ensures value { result ≡ spec.weight flag amount }
    ensures most { result ≤ amount }
{
    if flag { amount } else { 0 }
}

/// Returns the radix mark that the flags determine: the point if flag 28 is set, otherwise the comma.
pub(crate) fn radix<const REGS: usize>(ram: &Ram<REGS>) -> RadixMark
    ensures { result ≡ spec.radix_of (flag_of ram.now.registers decimal_point) }
{
    if ram.flag(flags::DECIMAL_POINT) {
        RadixMark::Point
    } else {
        RadixMark::Comma
    }
}
