//! The registers of memory, and what the calculator stores in its status registers: flags, ALPHA and the parts of
//! memory.

ghost use Rattle.std.specs.Prelude.{◌≡◌, ◌<◌, ◌≤◌, ◌&&◌, ◌||◌, false, true, length, nat_le, nat_lt};
ghost use Rattle.std.specs.Prelude.{slice_set};
ghost use Rattle.h41_ram.specs.RegisterMap as spec;
ghost use Rattle.h41_ram.specs.RamState.{KeepsMark};
ghost use Rattle.h41_ram.specs.RamState as state;
ghost use Rattle.h41_ram.specs.NamedRegisters as named;
ghost use Rattle.h41_ram.specs.private.KeptParts as kept;

use crate::alpha::{self, ALPHA_LENGTH};
use crate::parts::Parts;
use crate::start::{empty_program, start_c, start_d};
use crate::status::StatusRegister;
use h41_digits::Reg;
use std::marker::Model;

/// The number of status registers: T Z Y X L M N O P Q append a b c d e, at the addresses 000 to 00F.
pub const STATUS_REGISTERS: usize = 16;

/// The address of the first register of main memory, 0C0.
pub const MAIN_START: usize = 0x0C0;

/// The address of status register M, which contains the last seven bytes of ALPHA.
const M: usize = StatusRegister::M as usize;

/// The address of status register N, which contains the seven bytes of ALPHA before those of M.
const N: usize = StatusRegister::N as usize;

/// The address of status register O, which contains the seven bytes of ALPHA before those of N.
const O: usize = StatusRegister::O as usize;

/// The address of status register P, whose right three bytes are the first three bytes of ALPHA.
const P: usize = StatusRegister::P as usize;

/// The address of status register c, which contains the addresses of data register R00 (the curtain) and of .END.
const C: usize = StatusRegister::C as usize;

/// The address of status register d, which contains the 56 flags.
const D: usize = StatusRegister::D as usize;

/// The number of the flag that is the lowest bit of register d.
const LAST_FLAG: usize = 55;

/// The memory of a calculator with `REGS` registers of main memory, 64 to 320.
#[derive(Debug, Drop)]
pub struct Ram<const REGS: usize> {
    status: [Reg; STATUS_REGISTERS],
    main: [Reg; REGS],
    /// The curtain, the address of .END. and whether memory is sound, updated with each write to register c and to the
    /// register of .END., and the dirty flag of the program.
    parts: Parts,
}

impl<const REGS: usize> Model for Ram<REGS> {
    ghost use Rattle.h41_ram.specs.RamState.{RamState};
    ghost use Rattle.h41_ram.specs.RegisterMap.{IsMemory};
    ghost use Rattle.h41_ram.specs.private.KeptParts.{AreKept};

    ghost Value = { RamState };

    ghost view = { λ ram. record {
      registers = record { status = ram.status; main = ram.main };
      touched = ram.parts.touched;
    } };

    ghost invariant = { λ ram. IsMemory REGS (record { status = ram.status; main = ram.main })
        × AreKept (record { status = ram.status; main = ram.main }) ram.parts };
}

impl<const REGS: usize> Ram<REGS> {
    /// Returns the memory in its initial state (this project's choice): all registers are zero except c, d and the
    /// register of .END., which is the whole program. There are 100 data registers, or 17 if main memory has at most
    /// 100 registers. Flags 26, 28 and 29 are set, and the display is in FIX 4.
    pub fn new() -> Self
        requires at_least { 64 ≤ REGS }
        requires at_most { REGS ≤ 320 }
        ensures { result ≡ state.start_state REGS }
    {
        let size = if REGS < 101 { 17 } else { 100 };
        let curtain = MAIN_START + REGS - size;
        let end = curtain - 1;
        let mut status = [Reg::zero(); STATUS_REGISTERS];
        status[C] = start_c(curtain as u16);
        status[D] = start_d();
        let mut main = [Reg::zero(); REGS];
        main[end - MAIN_START] = empty_program();
        Ram::holding(&status, &main)
    }

    /// Returns the memory with these 16 status registers and this main memory of 64 to 320 registers. The dirty flag of
    /// the program is set.
    fn holding(status: &[Reg; STATUS_REGISTERS], main: &[Reg; REGS]) -> Self
        requires at_least { 64 ≤ REGS }
        requires at_most { REGS ≤ 320 }
        ensures registers { result.registers ≡ record { status = status.now; main = main.now } }
        ensures mark { result.touched ≡ true }
    {
        let parts = Parts::of(status[C], MAIN_START + REGS);
        let parts = parts.ended_by(main_register(main, parts.end));
        Ram {
            status: *status,
            main: *main,
            parts,
        }
    }

    /// Returns the memory, and replaces it by memory in its initial state (`Ram::new`).
    pub fn take(&mut self) -> Self
        ensures taken { result ≡ self.old }
        ensures left { self.new ≡ state.start_state REGS }
        ensures at_most { REGS ≤ 320 }
    {
        let taken = Ram {
            status: self.status,
            main: self.main,
            parts: self.parts,
        };
        *self = Ram::new();
        taken
    }

    /// Returns the register at an address of memory, 0000 to FFFF. An address that does not exist reads as zero (this
    /// project's choice).
    #[inline(always)]
    pub fn read(&self, address: u16) -> Reg
        ensures { result ≡ spec.register_at self.now.registers address }
    {
        let index = usize::from(address);
        if index < STATUS_REGISTERS {
            self.status[index]
        } else {
            main_register(&self.main, address)
        }
    }

    /// Returns the register at an address of main memory, which must exist: from 0C0 to below the top of memory.
    #[inline(always)]
    pub fn read_main(&self, address: u16) -> Reg
        requires from { spec.main_start ≤ address }
        requires to { address < spec.top_of self.now.registers }
        ensures { result ≡ spec.register_at self.now.registers address }
    {
        self.main[usize::from(address) - MAIN_START]
    }

    /// Writes the register at an address of memory, 0000 to FFFF, and sets the dirty flag if it is a register of the
    /// program. A write to an address that does not exist is ignored (this project's choice).
    #[inline(always)]
    pub fn write(&mut self, address: u16, register: Reg)
        ensures written { self.new ≡ state.with_written self.old address register }
        ensures mark { KeepsMark self.old self.new }
    {
        let index = usize::from(address);
        if index == C {
            self.write_c(register);
        } else if index < STATUS_REGISTERS {
            self.parts.touch_status(address);
            self.status[index] = register;
        } else if index >= MAIN_START {
            self.write_main(address, register);
        }
    }

    /// Writes register c, updates the curtain, the address of .END. and whether memory is sound, and sets the dirty
    /// flag.
    #[inline(never)]
    fn write_c(&mut self, c: Reg)
        ensures { self.new ≡ state.with_written self.old spec.c_address c }
    {
        let parts = Parts::of(c, MAIN_START + REGS);
        self.parts = parts.ended_by(main_register(&self.main, parts.end));
        self.status[C] = c;
    }

    /// Writes the register of main memory at an address from 0C0 on, if the address exists, and sets the dirty flag if
    /// it is a register of the program. A write to the register of .END. also determines whether memory is sound.
    #[inline(always)]
    fn write_main(&mut self, address: u16, register: Reg)
        requires { spec.main_start ≤ address }
        ensures { self.new ≡ state.with_written self.old address register }
    {
        let index = usize::from(address) - MAIN_START;
        if index < REGS {
            self.parts.touch(address);
        }
        self.put_main(index, register);
    }

    /// Writes the register of main memory with an index (0 is the register at 0C0), if there is one. A write to the
    /// register of .END. also determines whether memory is sound. The dirty flag does not change.
    #[inline(always)]
    fn put_main(&mut self, index: usize, register: Reg)
        requires { index < 65536 }
        ensures registers { self.new.registers ≡ record self.old.registers {
          main = slice_set self.old.registers.main index register;
        } }
        ensures mark { self.new.touched ≡ self.old.touched }
        ensures size { length self.old.registers.main ≡ REGS }
    {
        if index < REGS {
            if MAIN_START + index == usize::from(self.parts.end) {
                self.parts = self.parts.ended_by(register);
            }
            self.main[index] = register;
        }
    }

    /// Returns the dirty flag: whether a register of the program may have changed since `clear_touched`. These
    /// registers are c, and those from the register of .END. up to, but not including, the curtain. The flag is this
    /// project's own.
    #[inline(always)]
    pub fn program_touched(&self) -> bool
        ensures { result ≡ self.now.touched }
    {
        let parts = &self.parts;
        parts.touched
    }

    /// Clears the dirty flag, so that `program_touched` returns false until a register of the program is written.
    pub fn clear_touched(&mut self)
        ensures { self.new ≡ record self.old { touched = false } }
    {
        self.parts.clear_mark();
    }

    /// Returns the status register at an address from 0 to 15. The order is T Z Y X L M N O P Q append a b c d e.
    pub fn status(&self, n: usize) -> Reg
        requires { n < 16 }
        ensures { result ≡ spec.register_at self.now.registers n }
    {
        self.status[n]
    }

    /// Returns the content of the status register with a name, for example that of `StatusRegister::X`.
    pub fn status_register(&self, name: StatusRegister) -> Reg
        ensures { result ≡ named.status_of self.now.registers name }
    {
        self.read(name.address())
    }

    /// Writes the status register with a name, for example `StatusRegister::X`, and sets the dirty flag if it is a
    /// register of the program (c always is).
    pub fn set_status_register(&mut self, name: StatusRegister, register: Reg)
        ensures written { self.new ≡ state.with_written self.old (spec.address_of name) register }
        ensures mark { KeepsMark self.old self.new }
    {
        self.write(name.address(), register);
    }

    /// Returns the number of data registers, 0 to 512: those from the curtain up to the top of memory, as the
    /// calculator's SIZE.
    pub fn size(&self) -> u16
        ensures value { result ≡ named.size_of self.now.registers }
        ensures bound { result ≤ 512 }
    {
        (MAIN_START + REGS).saturating_sub(usize::from(self.curtain())) as u16
    }

    /// Returns the content of the data register with a number from 0 on, or `None` if the number is not below the
    /// number of data registers. R00 is at the curtain, R01 at the address above it.
    pub fn data(&self, n: u16) -> Option<Reg>
        ensures { result ≡ named.data_of self.now.registers n }
    {
        if n < self.size() {
            Some(self.read(self.curtain() + n))
        } else {
            None
        }
    }

    /// Returns whether a flag, 0 to 55, is set. The flag with number n is bit 55 - n of register d; bit 0 is the
    /// rightmost.
    pub fn flag(&self, flag: usize) -> bool
        requires { flag < 56 }
        ensures { result ≡ spec.flag_of self.now.registers flag }
    {
        bit(self.status[D], LAST_FLAG - flag)
    }

    /// Sets the flag with a number from 0 to 55 if `on` is true, otherwise clears it. No other flag changes.
    pub fn set_flag(&mut self, flag: usize, on: bool)
        requires { flag < 56 }
        ensures written { self.new ≡ state.with_flag_written self.old flag on }
        ensures mark { KeepsMark self.old self.new }
    {
        self.parts.touch_status(D as u16);
        self.status[D] = with_bit(self.status[D], LAST_FLAG - flag, on);
    }

    /// Returns the 24 bytes of ALPHA, the leftmost first. The calculator does not show leading bytes that are 0.
    pub fn alpha(&self) -> [u8; ALPHA_LENGTH]
        ensures { result ≡ spec.alpha_of self.now.registers }
    {
        alpha::text(
            self.status[P],
            self.status[O],
            self.status[N],
            self.status[M],
        )
    }

    /// Writes the 24 bytes of ALPHA, the leftmost first, to the status registers M, N, O and P. The left four bytes of
    /// P do not change.
    pub fn set_alpha(&mut self, text: [u8; ALPHA_LENGTH])
        ensures written { self.new ≡ state.with_alpha_written self.old text }
        ensures mark { KeepsMark self.old self.new }
    {
        self.parts.touch_status(M as u16);
        self.parts.touch_status(N as u16);
        self.parts.touch_status(O as u16);
        self.parts.touch_status(P as u16);
        let p = self.status[P];
        self.status[M] = alpha::seven_bytes(text, 17);
        self.status[N] = alpha::seven_bytes(text, 10);
        self.status[O] = alpha::seven_bytes(text, 3);
        self.status[P] = alpha::first_bytes(p, text);
    }

    /// Returns the registers of main memory in the order of their addresses. The first is at 0C0.
    pub fn main_memory(&self) -> [Reg; REGS]
        ensures { result ≡ self.now.registers.main }
    {
        self.main
    }

    /// Writes all registers of main memory, in the order of their addresses. The first is at 0C0. Sets the dirty flag
    /// if one of them is a register of the program.
    pub fn set_main_memory(&mut self, main: [Reg; REGS])
        ensures main { self.new ≡ state.with_main_written self.old main.entry }
        ensures mark { KeepsMark self.old self.new }
        ensures memory { spec.IsMemory REGS self.new.registers }
    {
        self.parts.touch_main(MAIN_START + REGS);
        let end = main_register(&main, self.parts.end);
        self.parts = self.parts.ended_by(end);
        self.main = main;
    }

    /// Returns the curtain: the address of data register R00, 000 to FFF, as register c contains it.
    #[inline(always)]
    pub fn curtain(&self) -> u16
        ensures value { result ≡ spec.curtain_of self.now.registers }
        ensures memory { spec.IsMemory REGS self.now.registers }
    {
        let parts = &self.parts;
        parts.curtain
    }

    /// Returns the address of the register that contains .END., 000 to FFF, as register c contains it.
    #[inline(always)]
    pub fn end_register(&self) -> u16
        ensures { result ≡ spec.end_of self.now.registers }
    {
        let parts = &self.parts;
        parts.end
    }

    /// Returns whether memory is sound (this project's choice): register c contains the constant 169 (hexadecimal), 0C0
    /// ≤ end < curtain ≤ top, and the last three bytes of the register at address end are .END. Here end is the address
    /// of .END. in register c, and top is the first address after main memory.
    pub fn is_sound(&self) -> bool
        ensures { result ≡ spec.is_sound self.now.registers }
    {
        let parts = &self.parts;
        parts.sound
    }
}

/// Returns the register of main memory at an address, or zero if main memory has no register there. The first register
/// is at 0C0.
#[inline(always)]
fn main_register<const REGS: usize>(main: &[Reg; REGS], address: u16) -> Reg
    ensures { result ≡ kept.main_register main.now address }
{
    let address = usize::from(address);
    if address >= MAIN_START && address - MAIN_START < REGS {
        main[address - MAIN_START]
    } else {
        Reg::zero()
    }
}

/// Returns whether a bit of a register, 0 to 55, is set. Bit 0 is the rightmost.
pub fn bit(register: Reg, bit: usize) -> bool
    requires { bit < 56 }
    ensures { result ≡ spec.bit_of register bit }
{
    register.to_u64() >> bit & 1 == 1
}

/// Returns a copy of a register in which one bit, 0 to 55, is set or cleared. Bit 0 is the rightmost.
fn with_bit(register: Reg, bit: usize, on: bool) -> Reg
    requires { bit < 56 }
    ensures { result ≡ spec.with_bit register bit on }
{
    let others = register.to_u64() & !(1 << bit);
    Reg::holding(others | u64::from(on) << bit)
}
