//! The registers that are not zero in the initial state: c, d and that of .END.

ghost use Rattle.std.specs.Prelude.{◌≡◌, ◌<◌, ◌≤◌};
ghost use Rattle.h41_ram.specs.RegisterMap as spec;

use h41_digits::Reg;

/// The number of data registers from R00, at the curtain, to the first statistics register, R11.
const STATISTICS: u16 = 11;

/// Returns register c of the initial state for a curtain at an address from 1 to 3FF. It contains the address of the
/// statistics registers (R11 on), the constant 169 (hexadecimal), the curtain, and the address of .END., directly below
/// the curtain.
pub fn start_c(curtain: u16) -> Reg
    requires above { 0 < curtain }
    requires below { curtain < 1024 }
    ensures { result ≡ spec.start_c curtain }
{
    let c = with_three_digits(Reg::zero(), 0, curtain - 1);
    let c = with_three_digits(c, 3, curtain);
    let c = with_three_digits(c, 6, 0x169);
    with_three_digits(c, 11, curtain + STATISTICS)
}

/// Returns a copy of a register in which three digits, from `place` (at most 11) upwards, are those of `number`, 000 to
/// FFF.
fn with_three_digits(register: Reg, place: usize, number: u16) -> Reg
    requires place { place < 12 }
    requires number { number < 4096 }
    ensures { result ≡ spec.with_three_places register place number }
{
    register.with_number(place, place + 2, u64::from(number))
}

/// Returns register d of the initial state: flags 26, 28, 29, 37 and 40 are set.
pub fn start_d() -> Reg
    ensures { result ≡ spec.start_d }
{
    Reg::zero()
        .with_byte(3, 0x2C)
        .with_byte(2, 0x04)
        .with_byte(1, 0x80)
}

/// Returns the register of a program that consists of .END. alone: C0 00 20 in its last three bytes, 0 in the other
/// four.
pub fn empty_program() -> Reg
    ensures { result ≡ spec.empty_program }
{
    Reg::zero().with_byte(2, 0xC0).with_byte(0, 0x20)
}
