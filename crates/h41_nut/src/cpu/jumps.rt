//! Sets the address of the next word: after the executed word, by jumps, and by returns.

ghost use Rattle.std.specs.Prelude.{◌≡◌, ◌<◌, ◌≤◌, ◌==◌, IfOk};
ghost use Rattle.std.specs.Result.{result_err};
ghost use Rattle.h41_nut.specs.Addresses as addresses;
ghost use Rattle.h41_nut.specs.Addresses.{displaced_address, end_of_function};
ghost use Rattle.h41_pages.specs.Addresses.{first_address};
ghost use Rattle.h41_nut.specs.Arrivals as arrivals;
ghost use Rattle.h41_nut.specs.private.ProcessorSteps.{GoesTo, GoesOn, GoesOnTelling, JumpsLong};
ghost use Rattle.h41_nut.specs.private.ProcessorSteps.{JumpsShort, ReturnsIf, TellsEnd};
ghost use Rattle.h41_nut.specs.Jumps as spec;
ghost use Rattle.h41_nut.specs.RegisterWords.{with_address_pushed, with_address_popped};

use crate::addresses::END_OF_FUNCTION;
use crate::cpu::Cpu;
use crate::refusal::WordRefusal;
use h41_pages::FIRST_ADDRESS;
use h41_words::{Condition, Displacement, LongJumpKind, SecondWord};

impl Cpu {
    /// Returns the address just after that of the word which is executed. The address after FFFF is 0000.
    #[inline(always)]
    pub(crate) fn next_address(&self) -> u16
        ensures { result ≡ arrivals.next_address self.now }
    {
        self.pc.wrapping_add(1)
    }

    /// Returns the address just after that of the word which is executed, or SystemRom (08) if it is 0000. The word is
    /// in pages 4 to F, so that no other address after it is in the system's ROM.
    #[inline(always)]
    pub(crate) fn following(&self) -> Result<u16, WordRefusal>
        requires { first_address ≤ self.now.pc }
        ensures refusal { result_err result ≡ arrivals.refusal_to_go_on self.now }
        ensures address { IfOk result (λ next. next ≡ arrivals.next_address self.now) }
    {
        match self.pc.checked_add(1) {
            Some(next) => Ok(next),
            None => Err(WordRefusal::SystemRom(0)),
        }
    }

    /// Sets the address of the next word, and the carry.
    #[inline(always)]
    pub(crate) fn arrive(&mut self, address: u16, carry: bool)
        ensures { self.new ≡ arrivals.at_address address carry self.old }
    {
        self.pc = address;
        self.carry = carry;
    }

    /// Jumps to an address and clears the carry; returns whether it is 00F0, at which a function ends. The error is
    /// SystemRom (08) if the address is in pages 0 to 3 and not 00F0; nothing changes then.
    #[inline(always)]
    pub(crate) fn go_to(&mut self, address: u16) -> Result<bool, WordRefusal>
        ensures change { GoesTo (λ _. address) (λ s. s) self.old self.new result }
        ensures end { TellsEnd result self.new }
    {
        let ends = arrival(address)?;
        self.arrive(address, false);
        Ok(ends)
    }

    /// Continues with the word after the one that is executed, and clears the carry. The error is SystemRom (08) if the
    /// next address is 0000; nothing changes then.
    #[inline(always)]
    pub(crate) fn go_on(&mut self) -> Result<(), WordRefusal>
        requires { first_address ≤ self.old.pc }
        ensures { GoesOn (λ s. s) self.old self.new result }
    {
        self.answer(false)
    }

    /// Continues with the word after the one that is executed, with the result of a test as the carry. The error is
    /// SystemRom (08) if the next address is 0000; nothing changes then.
    #[inline(always)]
    pub(crate) fn answer(&mut self, test: bool) -> Result<(), WordRefusal>
        requires { first_address ≤ self.old.pc }
        ensures { GoesOnTelling test self.old self.new result }
    {
        let next = self.following()?;
        self.arrive(next, test);
        Ok(())
    }

    /// Executes `?NC XQ`, `?C XQ`, `?NC GO` and `?C GO`: jumps to the address in both words if the carry meets the
    /// condition of the second word, otherwise continues after both. `XQ` adds the address after both words as the
    /// newest return address if it jumps. Returns whether the next address is 00F0, at which a function ends; the error
    /// is SystemRom (08) if it is another one in pages 0 to 3.
    #[inline(always)]
    pub(crate) fn long_jump(
        &mut self,
        low_byte: u8,
        second: SecondWord,
    ) -> Result<bool, WordRefusal>
        ensures change { JumpsLong low_byte second self.old self.new result }
        ensures end { TellsEnd result self.new }
    {
        let after_both = self.pc.wrapping_add(2);
        if !is_taken(second.condition, self.carry) {
            return self.go_to(after_both);
        }
        let address = u16::from(second.high_byte) * 256 + u16::from(low_byte);
        let ends = arrival(address)?;
        if second.kind == LongJumpKind::Execute {
            self.push(after_both);
        }
        self.arrive(address, false);
        Ok(ends)
    }

    /// Executes `JNC` and `JC`: jumps by the displacement, counted in words from the word's own address, if the carry
    /// meets the condition, otherwise continues after the word. Returns whether the next address is 00F0, at which a
    /// function ends; the error is SystemRom (08) if it is another one in pages 0 to 3.
    #[inline(always)]
    pub(crate) fn short_jump(
        &mut self,
        condition: Condition,
        displacement: Displacement,
    ) -> Result<bool, WordRefusal>
        requires { first_address ≤ self.old.pc }
        ensures change { JumpsShort condition displacement self.old self.new result }
        ensures end { TellsEnd result self.new }
    {
        if is_taken(condition, self.carry) {
            self.go_to(displaced(self.pc, displacement))
        } else {
            self.go_on()?;
            Ok(false)
        }
    }

    /// Executes `RTN`: jumps to the newest return address and removes it. Returns whether that address is 00F0, at
    /// which a function ends; the error is SystemRom (08) if it is another one in pages 0 to 3.
    pub(crate) fn return_to_newest(&mut self) -> Result<bool, WordRefusal>
        ensures change { GoesTo spec.newest_return spec.with_return_popped self.old self.new
            result }
        ensures end { TellsEnd result self.new }
    {
        let address = self.returns[0];
        let ends = arrival(address)?;
        self.pop();
        self.arrive(address, false);
        Ok(ends)
    }

    /// Executes `?C RTN` and `?NC RTN`: jumps to the newest return address and removes it if the carry meets the
    /// condition, otherwise continues after the word. Returns whether the next address is 00F0, at which a function
    /// ends; the error is SystemRom (08) if it is another one in pages 0 to 3.
    pub(crate) fn return_if(&mut self, condition: Condition) -> Result<bool, WordRefusal>
        requires { first_address ≤ self.old.pc }
        ensures change { ReturnsIf condition self.old self.new result }
        ensures end { TellsEnd result self.new }
    {
        if is_taken(condition, self.carry) {
            self.return_to_newest()
        } else {
            self.go_on()?;
            Ok(false)
        }
    }

    /// Executes `XQ->GO`: removes the newest return address.
    pub(crate) fn drop_return(&mut self)
        ensures { self.new ≡ spec.with_return_popped self.old }
    {
        self.pop();
    }

    /// Executes `PUSH ADR`: adds the address in digits 6 to 3 of C as the newest return address. The oldest one is
    /// lost.
    pub(crate) fn push_address(&mut self)
        ensures { self.new ≡ with_address_pushed self.old }
    {
        self.push(self.address_in_c());
    }

    /// Executes `POP ADR`: copies the newest return address to digits 6 to 3 of C and removes it.
    pub(crate) fn pop_address(&mut self)
        ensures { self.new ≡ with_address_popped self.old }
    {
        let address = self.returns[0];
        self.c = self.c.with_number(3, 6, u64::from(address));
        self.pop();
    }

    /// Executes `GOTO KEY`: jumps to the address after the word, with its low byte replaced by the key's code. Returns
    /// whether that address is 00F0, at which a function ends; the error is SystemRom (08) if it is another one in
    /// pages 0 to 3.
    pub(crate) fn go_to_key(&mut self, key: u8) -> Result<bool, WordRefusal>
        ensures change { GoesTo (spec.key_target key) (λ s. s) self.old self.new result }
        ensures end { TellsEnd result self.new }
    {
        self.go_to(self.next_address() / 256 * 256 + u16::from(key))
    }

    /// Removes the newest of the four return addresses. The others move up, and the oldest is then 0000.
    fn pop(&mut self)
        ensures { self.new ≡ spec.with_return_popped self.old }
    {
        let [_newest, second, third, fourth] = self.returns;
        self.returns = [second, third, fourth, 0];
    }

    /// Adds a return address as the newest of four. The oldest one is lost.
    fn push(&mut self, address: u16)
        ensures { self.new ≡ spec.with_return_pushed address self.old }
    {
        let [newest, second, third, _oldest] = self.returns;
        self.returns = [address, newest, second, third];
    }
}

/// Returns whether a jump or a return with a condition is taken if the carry has this value.
#[inline(always)]
fn is_taken(condition: Condition, carry: bool) -> bool
    ensures { result ≡ spec.is_taken condition carry }
{
    match condition {
        Condition::NoCarry => !carry,
        Condition::Carry => carry,
    }
}

/// Returns the address that is `displacement` words after an address, or before it if the displacement is negative,
/// modulo 65,536.
#[inline(always)]
fn displaced(address: u16, displacement: Displacement) -> u16
    ensures { result ≡ displaced_address address displacement }
{
    let words = displacement.words();
    if words < 0 {
        address.wrapping_sub(u16::from(words.unsigned_abs()))
    } else {
        address.wrapping_add(u16::from(words.unsigned_abs()))
    }
}

/// Returns whether a jump target is 00F0, at which a function ends, or SystemRom (08) if it is another address in pages
/// 0 to 3.
#[inline(always)]
pub(crate) fn arrival(address: u16) -> Result<bool, WordRefusal>
    ensures refusal { result_err result ≡ arrivals.arrival_refusal address }
    ensures end { IfOk result (λ ends. ends ≡ (address == end_of_function)) }
{
    if address >= FIRST_ADDRESS {
        Ok(false)
    } else if is_closed(address) {
        Err(WordRefusal::SystemRom(address))
    } else {
        Ok(true)
    }
}

/// Returns whether an address in pages 0 to 3 cannot be a jump target, which is true of each except 00F0. It is a cold
/// function of its own, because few words jump there.
#[cold]
#[inline(never)]
fn is_closed(address: u16) -> bool
    requires { address < first_address }
    ensures { result ≡ addresses.is_closed address }
{
    address != END_OF_FUNCTION
}
