//! Registers of program memory, and the addresses in register c.
ghost use Rattle.std.specs.Prelude.{◌≡◌, ◌+◌, ◌*◌, ◌<◌, ◌≤◌, length};
ghost use Rattle.h41_ram.specs.RegisterMap as spec;
ghost use Rattle.h41_program.specs.Rewriting.{program_register};

use h41_digits::Reg;
use h41_ram::StatusRegister;

/// The address of register c, 00D, which contains the curtain and the address of the register with `.END.`.
pub const C: u16 = StatusRegister::C as u16;

/// The place (digit, 0 rightmost) in register c of the lowest digit of the address of the register with `.END.`.
pub const END_PLACE: usize = 0;

/// The place (digit, 0 rightmost) in register c of the lowest digit of the curtain, the address of data register R00.
pub const CURTAIN_PLACE: usize = 3;

/// The place (digit, 0 rightmost) in register c of the lowest digit of the address of the first statistics register.
pub const STATISTICS_PLACE: usize = 11;

/// The number of addresses that three hexadecimal digits can have, 000 to FFF.
pub const ADDRESSES: u16 = 4096;

/// Returns the address, 000 to FFF, in three digits of a register: `place` (the lowest, at most 11), `place` + 1 and
/// `place` + 2.
pub fn address_at(register: Reg, place: usize) -> u16
    requires { place < 12 }
    ensures value { result ≡ spec.three_digits register place }
    ensures bound { result < 4096 }
{
    register.number(place, place + 2) as u16
}

/// Returns a copy of a register with an address, 000 to FFF, in three of its digits: `place` (the lowest, at most 11),
/// `place` + 1 and `place` + 2.
pub fn with_address(register: Reg, place: usize, address: u16) -> Reg
    requires place { place < 12 }
    requires address { address < 4096 }
    ensures { result ≡ spec.with_three_places register place address }
{
    register.with_number(place, place + 2, u64::from(address))
}

/// Returns the register with seven of the bytes of program memory, the first one leftmost, after 7 times `below` bytes
/// are skipped.
pub fn register_of(bytes: &[u8], below: usize) -> Reg
    requires { 7 * below + 7 ≤ length bytes.now }
    ensures { result ≡ program_register bytes.now below }
{
    let first = 7 * below;
    Reg::zero()
        .with_byte(6, bytes[first])
        .with_byte(5, bytes[first + 1])
        .with_byte(4, bytes[first + 2])
        .with_byte(3, bytes[first + 3])
        .with_byte(2, bytes[first + 4])
        .with_byte(1, bytes[first + 5])
        .with_byte(0, bytes[first + 6])
}
