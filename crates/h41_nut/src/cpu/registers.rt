//! Executes the words that load, copy and rotate registers, and those that set the base, the display or the memory
//! address.

ghost use Rattle.std.specs.Prelude.{◌≡◌, ◌<◌, ◌≤◌};
ghost use Rattle.h41_pages.specs.Addresses.{first_address};
ghost use Rattle.h41_words.specs.Counts.{word_count};
ghost use Rattle.h41_nut.specs.Arrivals.{address_after_both};
ghost use Rattle.h41_nut.specs.MemoryWords.{block_address, with_selected};
ghost use Rattle.h41_nut.specs.private.ProcessorSteps.{GoesOn, GoesTo, selecting_and_loading};
ghost use Rattle.h41_nut.specs.RegisterWords as spec;

use crate::base::Base;
use crate::cpu::Cpu;
use crate::cpu::jumps::arrival;
use crate::cpu::pointers::{place_above, place_below};
use crate::refusal::WordRefusal;
use h41_digits::{PLACES, Reg};
use h41_words::{DigitPlace, LoadedDigit, RegisterTransfer, Word};

impl Cpu {
    /// Returns the address in the digits 6 to 3 of C, 0000 to FFFF.
    pub(crate) fn address_in_c(&self) -> u16
        ensures { result ≡ spec.address_in_c self.now }
    {
        self.c.number(3, 6) as u16
    }

    /// Returns the low ten bits of the digits 2 to 0 of C, which are a word or a memory address.
    pub(crate) fn word_in_c(&self) -> u16
        ensures value { result ≡ spec.word_in_c self.now }
        ensures bound { result < word_count }
    {
        (self.c.number(0, 2) % 1024) as u16
    }

    /// Copies the number of a word to the digits 2 to 0 of C. The other digits do not change.
    fn put_word(&mut self, word: Word)
        ensures { self.new ≡ spec.with_word_in_c word self.old }
    {
        self.c = self.c.with_number(0, 2, u64::from(word.number()));
    }

    /// Executes `LDI`: copies the second word to the digits 2 to 0 of C and continues after it. The error is SystemRom
    /// (08) if the next address is in pages 0 to 3 and not 00F0; nothing changes then.
    pub(crate) fn load_immediate(&mut self, second: Word) -> Result<(), WordRefusal>
        ensures { GoesTo address_after_both (spec.with_word_in_c second) self.old self.new result }
    {
        let next = self.pc.wrapping_add(2);
        arrival(next)?;
        self.put_word(second);
        self.arrive(next, false);
        Ok(())
    }

    /// Executes `FETCH S&X` after the word was read: copies it to the digits 2 to 0 of C and continues. The error is
    /// SystemRom (08) if the next address is 0000; nothing changes then.
    pub(crate) fn load_word(&mut self, word: Word) -> Result<(), WordRefusal>
        requires { first_address ≤ self.old.pc }
        ensures { GoesOn (spec.with_word_in_c word) self.old self.new result }
    {
        let next = self.following()?;
        self.put_word(word);
        self.arrive(next, false);
        Ok(())
    }

    /// Executes `LD@R n`: writes a digit to C at the position of the active pointer, and moves the pointer one position
    /// to the right.
    pub(crate) fn load_digit(&mut self, digit: LoadedDigit)
        ensures { self.new ≡ spec.with_digit_loaded digit self.old }
    {
        let place = self.pointer();
        self.c = self.c.with(place, digit.number());
        self.set_pointer(place_below(place));
    }

    /// Executes `C=KEY`: copies the key's code, a byte, to the digits 4 and 3 of C.
    pub(crate) fn load_key(&mut self, key: u8)
        ensures { self.new ≡ spec.with_key_in_c key self.old }
    {
        self.c = self.c.with_number(3, 4, u64::from(key));
    }

    /// Copies 14 digits to C, for `READ DATA`, `C=C OR A` and `C=C AND A`.
    pub(crate) fn load_register(&mut self, register: Reg)
        ensures { self.new ≡ spec.with_c register self.old }
    {
        self.c = register;
    }

    /// Executes `RCR n`: rotates C right by 0 to 13 digits.
    pub(crate) fn rotate_right(&mut self, digits: DigitPlace)
        ensures { self.new ≡ spec.with_c_rotated digits self.old }
    {
        self.c = rotated(self.c, usize::from(digits.number()));
    }

    /// Executes `CLRABC`: sets A, B and C to zero.
    pub(crate) fn clear_registers(&mut self)
        ensures { self.new ≡ spec.with_abc_clear self.old }
    {
        self.a = Reg::zero();
        self.b = Reg::zero();
        self.c = Reg::zero();
    }

    /// Sets the selected memory address, for `RAM SLCT` and `WRIT n`. It has ten bits.
    pub(crate) fn select(&mut self, address: u16)
        requires { address < word_count }
        ensures { self.new ≡ with_selected address self.old }
    {
        self.selected = address;
    }

    /// Sets the selected memory address, which has ten bits, and copies the register there to C, for `READ n`.
    pub(crate) fn select_and_load(&mut self, address: u16, register: Reg)
        requires { address < word_count }
        ensures { self.new ≡ selecting_and_loading address register self.old }
    {
        self.selected = address;
        self.c = register;
    }

    /// Executes `SETHEX` and `SETDEC`: sets the base of arithmetic, 16 or 10.
    pub(crate) fn set_base(&mut self, base: Base)
        ensures { self.new ≡ spec.with_base base self.old }
    {
        self.base = base;
    }

    /// Executes `DISOFF` and `DISTOG`: turns the display on or off.
    pub(crate) fn set_display(&mut self, on: bool)
        ensures { self.new ≡ spec.with_display on self.old }
    {
        self.display = on;
    }

    /// Executes the words that copy a register or the low status bits to another register, or exchange two, for example
    /// `G=C`, `C=M` and `ST<>T`.
    #[inline(always)]
    pub(crate) fn transfer(&mut self, transfer: RegisterTransfer)
        ensures { self.new ≡ spec.after_transfer transfer self.old }
    {
        let (c, g, t) = (self.c, self.g, self.t);
        let status = self.status_byte();
        match transfer {
            RegisterTransfer::CToG => self.g = self.byte_at_pointer(),
            RegisterTransfer::GToC => self.put_byte_at_pointer(g),
            RegisterTransfer::ExchangeCG => {
                let byte = self.byte_at_pointer();
                self.put_byte_at_pointer(g);
                self.g = byte;
            }
            RegisterTransfer::CToM => self.m = c,
            RegisterTransfer::MToC => self.c = self.m,
            RegisterTransfer::ExchangeCM => (self.c, self.m) = (self.m, c),
            RegisterTransfer::CToN => self.n = c,
            RegisterTransfer::NToC => self.c = self.n,
            RegisterTransfer::ExchangeCN => (self.c, self.n) = (self.n, c),
            RegisterTransfer::StatusToT => self.t = status,
            RegisterTransfer::TToStatus => self.set_status_byte(t),
            RegisterTransfer::ExchangeStatusT => {
                self.t = status;
                self.set_status_byte(t);
            }
            RegisterTransfer::CToStatus => self.set_status_byte(c.byte(0)),
            RegisterTransfer::StatusToC => self.c = c.with_byte(0, status),
            RegisterTransfer::ExchangeCStatus => {
                self.c = c.with_byte(0, status);
                self.set_status_byte(c.byte(0));
            }
        }
    }

    /// Returns the byte of C at the active pointer: its low digit is at the pointer's position, its high digit one
    /// position to the left. To the left of position 13 is position 0.
    fn byte_at_pointer(&self) -> u8
        ensures { result ≡ spec.byte_at_pointer self.now }
    {
        let place = self.pointer();
        self.c.get(place) + 16 * self.c.get(place_above(place))
    }

    /// Writes a byte to C at the active pointer: the low digit to the pointer's position, the high digit one position
    /// to the left. To the left of position 13 is position 0.
    fn put_byte_at_pointer(&mut self, byte: u8)
        ensures { self.new ≡ spec.with_byte_at_pointer byte self.old }
    {
        let place = self.pointer();
        self.c = self
            .c
            .with(place, byte % 16)
            .with(place_above(place), byte / 16);
    }

    /// Returns the memory address of a register, 0 to 15, in the block of 16 registers that contains the selected
    /// address.
    pub(crate) fn block_address(&self, register: u8) -> u16
        requires { register < 16 }
        ensures value { result ≡ block_address register self.now }
        ensures bound { result < word_count }
    {
        self.selected / 16 * 16 + u16::from(register)
    }
}

/// Returns the content of a register rotated right by 0 to 13 digits.
fn rotated(register: Reg, digits: usize) -> Reg
    requires { digits < 14 }
    ensures { result ≡ spec.rotated_register register digits }
{
    if digits == 0 {
        return register;
    }
    let leaving = register.number(0, digits - 1);
    let staying = register.number(digits, PLACES - 1);
    register
        .with_number(0, PLACES - 1 - digits, staying)
        .with_number(PLACES - digits, PLACES - 1, leaving)
}

/// Returns the bits that are set in at least one of two register contents.
pub(crate) fn digits_or(x: Reg, y: Reg) -> Reg
    ensures { result ≡ spec.digits_or x y }
{
    Reg::holding(x.to_u64() | y.to_u64())
}

/// Returns the bits that are set in both of two register contents.
pub(crate) fn digits_and(x: Reg, y: Reg) -> Reg
    ensures { result ≡ spec.digits_and x y }
{
    Reg::holding(x.to_u64() & y.to_u64())
}
