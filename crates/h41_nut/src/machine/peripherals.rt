//! Executes the words of peripherals, and refuses those that are no instruction.

ghost use Rattle.std.specs.Prelude.{◌≡◌, ◌≤◌};
ghost use Rattle.h41_pages.specs.Addresses.{first_address};
ghost use Rattle.h41_nut.specs.private.ProcessorSteps.{GoesOnUnless};
ghost use Rattle.h41_nut.specs.Unheld as spec;

use crate::cpu::Cpu;
use crate::refusal::WordRefusal;
use h41_words::UnassignedWord;

/// Executes `PRPH SLCT`: does nothing and continues if the digits 1 and 0 of C are zero. Otherwise the error is
/// PeripheralNotHeld (10). The error is SystemRom (08) if the next address is 0000.
pub fn select_peripheral(cpu: &mut Cpu) -> Result<(), WordRefusal>
    requires { first_address ≤ cpu.old.pc }
    ensures { GoesOnUnless (spec.peripheral_refusal cpu.old) (λ s. s) cpu.old cpu.new result }
{
    if cpu.c().byte(0) != 0 {
        return Err(WordRefusal::PeripheralNotHeld(cpu.pc()));
    }
    cpu.go_on()
}

/// Returns why the word `word` at the address `address`, which is no instruction, is refused: WordNotInProfile (07) for
/// 3FC, PeripheralNotHeld (10) for words of peripherals, UndefinedWord (06) for any other.
pub fn constant_refusal(word: UnassignedWord, address: u16) -> WordRefusal
    ensures { result ≡ spec.constant_refusal word address }
{
    let number = word.word().number();
    if number == 0x3FC {
        WordRefusal::WordNotInProfile(address)
    } else if matches!(number % 64, 0x24 | 0x2C) || (number % 64 == 0 && number >= 0x200) {
        WordRefusal::PeripheralNotHeld(address)
    } else {
        WordRefusal::UndefinedWord(address)
    }
}
