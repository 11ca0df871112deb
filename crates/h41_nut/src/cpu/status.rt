//! Executes the words that set, clear and copy status bits.

ghost use Rattle.std.specs.Prelude.{◌≡◌};
ghost use Rattle.h41_nut.specs.Pointers as spec;

use crate::cpu::Cpu;
use crate::status_bits::{StatusBits, named};
use bitflags::Flags;
use h41_words::StatusBit;

impl Cpu {
    /// Returns whether a status bit, S0 to S13, is set.
    pub(crate) fn is_status_set(&self, bit: StatusBit) -> bool
        ensures { result ≡ spec.is_status_set bit self.now }
    {
        self.status.contains(named(bit))
    }

    /// Executes `SETF n` and `CLRF n`: sets or clears a status bit, S0 to S13.
    pub(crate) fn set_status(&mut self, bit: StatusBit, on: bool)
        ensures { self.new ≡ spec.with_status bit on self.old }
    {
        self.status.set(named(bit), on);
    }

    /// Executes `ST=0`: clears the status bits S0 to S7.
    pub(crate) fn clear_status_byte(&mut self)
        ensures { self.new ≡ spec.with_status_byte 0 self.old }
    {
        self.set_status_byte(0);
    }

    /// Returns the status bits S0 to S7 as a byte, of which S0 is the lowest bit.
    pub(crate) fn status_byte(&self) -> u8
        ensures { result ≡ spec.status_byte self.now }
    {
        (self.status.bits() % 256) as u8
    }

    /// Sets the status bits S0 to S7 to the bits of a byte, of which S0 is the lowest. S8 to S13 do not change.
    pub(crate) fn set_status_byte(&mut self, byte: u8)
        ensures { self.new ≡ spec.with_status_byte byte self.old }
    {
        self.status = StatusBits::from_bits_retain(
            self.status.bits() / 256 * 256 + u16::from(byte),
        );
    }
}
