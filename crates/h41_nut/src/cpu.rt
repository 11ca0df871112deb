//! The registers of the Nut processor, their initial values, and what microcode words do to them.

ghost use Rattle.std.specs.Prelude.{◌≡◌, ◌^◌, ◌<◌, false, true};
ghost use Rattle.h41_nut.specs.Processor.{initial_state, at_function};
ghost use Rattle.h41_nut.specs.RegisterWords.{with_display};

use crate::addresses::END_OF_FUNCTION;
use crate::base::Base;
use crate::status_bits::StatusBits;
use bitflags::Flags;
use h41_digits::Reg;
use h41_fields::Pointer;
use std::marker::Model;

mod arithmetic;
mod jumps;
pub(crate) mod pointers;
pub(crate) mod registers;
mod status;

/// The number of return addresses that the processor stores, 4.
const RETURNS: usize = 4;

/// The registers of the Nut processor, and its carry, base of arithmetic, selected memory address and display state.
#[derive(Debug, Drop)]
pub struct Cpu {
    a: Reg,
    b: Reg,
    c: Reg,
    m: Reg,
    n: Reg,
    g: u8,
    t: u8,
    status: StatusBits,
    p: usize,
    q: usize,
    active: Pointer,
    pc: u16,
    returns: [u16; RETURNS],
    carry: bool,
    base: Base,
    selected: u16,
    display: bool,
}

impl Model for Cpu {
    ghost use Rattle.std.specs.Prelude.{◌^◌, ◌<◌};
    ghost use Rattle.h41_nut.specs.Processor.{Processor};

    ghost Value = { Processor };

    ghost view = { λ cpu. record {
      a = cpu.a;
      b = cpu.b;
      c = cpu.c;
      m = cpu.m;
      n = cpu.n;
      g = cpu.g;
      t = cpu.t;
      status = cpu.status.0;
      p = cpu.p;
      q = cpu.q;
      active = cpu.active;
      pc = cpu.pc;
      returns = cpu.returns;
      carry = cpu.carry;
      base = cpu.base;
      selected = cpu.selected;
      display = cpu.display;
    } };

    ghost invariant = { λ cpu.
        (cpu.p < 14) × (cpu.q < 14) × (cpu.status.0 < 2 ^ 14) × (cpu.selected < 2 ^ 10) };
}

impl Cpu {
    /// Returns the state before the first function is called: everything is zero, except the address of the next word,
    /// 00F0, and the display, which is on. The base is 16 and the active pointer is P.
    pub fn new() -> Self
        ensures { result ≡ initial_state }
    {
        Cpu {
            a: Reg::zero(),
            b: Reg::zero(),
            c: Reg::zero(),
            m: Reg::zero(),
            n: Reg::zero(),
            g: 0,
            t: 0,
            status: StatusBits::empty(),
            p: 0,
            q: 0,
            active: Pointer::P,
            pc: END_OF_FUNCTION,
            returns: [0; RETURNS],
            carry: false,
            base: Base::Hexadecimal,
            selected: 0,
            display: true,
        }
    }

    /// Sets the state in which a function begins at an address: everything is as in `Cpu::new`, except that this is the
    /// address of the next word, the newest return address is 00F0, and the display does not change (this project's
    /// choice).
    pub fn enter(&mut self, address: u16)
        ensures { self.new ≡ at_function self.old address }
    {
        let display = self.display;
        *self = Cpu {
            pc: address,
            returns: [END_OF_FUNCTION, 0, 0, 0],
            display,
            ..Cpu::new()
        };
    }

    /// Turns the display off, as turning the calculator off does.
    pub fn turn_display_off(&mut self)
        ensures { self.new ≡ with_display false self.old }
    {
        self.display = false;
    }

    /// Turns the display on, as each accepted key does.
    pub fn turn_display_on(&mut self)
        ensures { self.new ≡ with_display true self.old }
    {
        self.display = true;
    }

    /// Returns the register A, which has 14 digits.
    pub fn a(&self) -> Reg
        ensures { result ≡ self.now.a }
    {
        self.a
    }

    /// Returns the register B, which has 14 digits.
    pub fn b(&self) -> Reg
        ensures { result ≡ self.now.b }
    {
        self.b
    }

    /// Returns the register C, which has 14 digits.
    pub fn c(&self) -> Reg
        ensures { result ≡ self.now.c }
    {
        self.c
    }

    /// Returns the register M, which has 14 digits.
    pub fn m(&self) -> Reg
        ensures { result ≡ self.now.m }
    {
        self.m
    }

    /// Returns the register N, which has 14 digits.
    pub fn n(&self) -> Reg
        ensures { result ≡ self.now.n }
    {
        self.n
    }

    /// Returns the register G, which has 8 bits.
    pub fn g(&self) -> u8
        ensures { result ≡ self.now.g }
    {
        self.g
    }

    /// Returns the register T, which has 8 bits.
    pub fn t(&self) -> u8
        ensures { result ≡ self.now.t }
    {
        self.t
    }

    /// Returns the 14 status bits as a number. S0 is its lowest bit, S13 its highest.
    pub fn status(&self) -> u16
        ensures value { result ≡ self.now.status }
        ensures bound { result < 2 ^ 14 }
    {
        self.status.bits()
    }

    /// Returns the digit position, 0 (the rightmost) to 13, to which the pointer P is set.
    pub fn p(&self) -> usize
        ensures value { result ≡ self.now.p }
        ensures bound { result < 14 }
    {
        self.p
    }

    /// Returns the digit position, 0 (the rightmost) to 13, to which the pointer Q is set.
    pub fn q(&self) -> usize
        ensures value { result ≡ self.now.q }
        ensures bound { result < 14 }
    {
        self.q
    }

    /// Returns which of the two pointers, P and Q, is active.
    pub fn active(&self) -> Pointer
        ensures { result ≡ self.now.active }
    {
        self.active
    }

    /// Returns the address of the next microcode word, 0000 to FFFF.
    pub fn pc(&self) -> u16
        ensures { result ≡ self.now.pc }
    {
        self.pc
    }

    /// Returns the four return addresses, the newest first. A missing address is 0000.
    pub fn returns(&self) -> [u16; RETURNS]
        ensures { result ≡ self.now.returns }
    {
        self.returns
    }

    /// Returns the processor's carry flag.
    pub fn carry(&self) -> bool
        ensures { result ≡ self.now.carry }
    {
        self.carry
    }

    /// Returns the base in which arithmetic words compute, 16 or 10.
    pub fn base(&self) -> Base
        ensures { result ≡ self.now.base }
    {
        self.base
    }

    /// Returns the address of the memory register that `RAM SLCT` selected, 0 to 3FF, whether a register exists there or not.
    pub fn selected(&self) -> u16
        ensures value { result ≡ self.now.selected }
        ensures bound { result < 2 ^ 10 }
    {
        self.selected
    }

    /// Returns whether the display is on.
    pub fn display(&self) -> bool
        ensures { result ≡ self.now.display }
    {
        self.display
    }
}
