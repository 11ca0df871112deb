//! The addresses of the parts of memory (curtain and .END.), as register c and the register of .END. determine them.
//! They are stored, so that program lines need not compute them again.

ghost use Rattle.std.specs.Prelude.{◌≡◌, ◌<◌, ◌≤◌, ◌&&◌, false, true, nat_le, nat_lt};
ghost use Rattle.h41_ram.specs.RegisterMap as spec;
ghost use Rattle.h41_ram.specs.private.KeptParts as kept;

use crate::ram::{MAIN_START, bit};
use h41_digits::Reg;

/// The constant 169 (hexadecimal), which register c must contain for memory to be sound.
const SOUND: u16 = 0x169;

/// The parts of memory, as register c and the register of .END. determine them, and the dirty flag of the program.
/// `end` is the address of the register of .END., and `top` is the first address after main memory.
#[derive(Clone, Copy, Debug, PartialEq, Eq)]
pub struct Parts {
    /// The curtain: the address of data register R00, 000 to FFF.
    pub curtain: u16,
    /// The address of the register that contains .END., 000 to FFF.
    pub end: u16,
    /// Whether register c contains the constant 169 (hexadecimal), and 0C0 ≤ `end` < `curtain` ≤ top. Here top is the
    /// first address after main memory.
    pub ordered: bool,
    /// Whether memory is sound: `ordered` is true, and the last three bytes of the register at address `end` are .END.
    pub sound: bool,
    /// The dirty flag: whether register c or a register from address `end` up to, but not including, `curtain` was
    /// written since the flag was cleared. These registers contain the program.
    pub touched: bool,
}

impl Parts {
    /// Returns the parts of memory that a newly written register c determines. `top` is the first address after main
    /// memory. The dirty flag is set; `sound` is false until `ended_by` determines it.
    pub fn of(c: Reg, top: usize) -> Self
        ensures curtain { result.curtain ≡ spec.three_digits c 3 }
        ensures end { result.end ≡ spec.three_digits c 0 }
        ensures ordered { result.ordered ≡ kept.is_ordered c top }
        ensures touched { result.touched ≡ true }
    {
        let curtain = three_digits(c, 3);
        let end = three_digits(c, 0);
        let in_order = usize::from(end) >= MAIN_START
            && end < curtain
            && usize::from(curtain) <= top;
        Parts {
            curtain,
            end,
            ordered: three_digits(c, 6) == SOUND && in_order,
            sound: false,
            touched: true,
        }
    }

    /// Sets the dirty flag if `address` is that of a register of the program: from the register of .END. up to, but not
    /// including, the curtain.
    #[inline(always)]
    pub fn touch(&mut self, address: u16)
        ensures { self.new ≡ kept.with_touched self.old
            (nat_le self.old.end address && nat_lt address self.old.curtain) }
    {
        if self.end <= address && address < self.curtain {
            self.touched = true;
        }
    }

    /// Sets the dirty flag if `address`, that of a status register (0 to 15), is that of a register of the program:
    /// from the register of .END. up to, but not including, the curtain. In sound memory nothing needs to be compared,
    /// since the register of .END. is above the status registers.
    #[inline(always)]
    pub fn touch_status(&mut self, address: u16)
        requires status { address < 16 }
        requires above { self.old.sound ≡ true → 16 ≤ self.old.end }
        ensures { self.new ≡ kept.with_touched self.old
            (nat_le self.old.end address && nat_lt address self.old.curtain) }
    {
        if !self.sound {
            self.touch(address);
        }
    }

    /// Sets the dirty flag if any register of main memory belongs to the program: is from the register of .END. up to,
    /// but not including, the curtain. `top` is the first address after main memory.
    pub fn touch_main(&mut self, top: usize)
        ensures { self.new ≡ kept.with_touched self.old
            (nat_lt self.old.end self.old.curtain && nat_lt self.old.end top
            && nat_lt spec.main_start self.old.curtain) }
    {
        let begins = self.end < self.curtain && usize::from(self.end) < top;
        if begins && MAIN_START < usize::from(self.curtain) {
            self.touched = true;
        }
    }

    /// Clears the dirty flag, which reports that a register of the program was written.
    pub fn clear_mark(&mut self)
        ensures { self.new ≡ record self.old { touched = false } }
    {
        self.touched = false;
    }

    /// Returns the parts of memory with `sound` updated: true if `ordered` is true and the last three bytes of
    /// `register`, the one at address `end`, are .END.
    pub fn ended_by(self, register: Reg) -> Self
        ensures { result ≡ record self { sound = self.ordered && spec.is_final_end register } }
    {
        Parts {
            sound: self.ordered && is_final_end(register),
            ..self
        }
    }
}

/// Returns the number, 000 to FFF, that three digits of a register form: those at `place` (the lowest digit), `place` +
/// 1 and `place` + 2. `place` is at most 11.
fn three_digits(register: Reg, place: usize) -> u16
    requires { place < 12 }
    ensures { result ≡ spec.three_digits register place }
{
    register.number(place, place + 2) as u16
}

/// Returns whether the last three bytes of a register are the .END. of memory, which its third byte distinguishes from
/// an END: bytes C0 to CD, any byte, and a byte below F0 with bit 5 set.
fn is_final_end(register: Reg) -> bool
    ensures { result ≡ spec.is_final_end register }
{
    (0xC0..=0xCD).contains(&register.byte(2)) && register.byte(0) < 0xF0 && bit(register, 5)
}
