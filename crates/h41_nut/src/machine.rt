//! Executes one microcode word: the word at the processor's address.

ghost use Rattle.std.specs.Prelude.{◌≡◌, ◌<◌, ◌≤◌, ◌==◌, ◌&&◌, false, true, is_ok, IfOk, OnOk};
ghost use Rattle.h41_words.specs.WordTable.{row_of};
ghost use Rattle.h41_words.specs.declared.rows.Bank.{Bank};
ghost use Rattle.h41_words.specs.declared.rows.Row.TheVariants.{EnableBank};
ghost use Rattle.h41_pages.specs.Addresses.{first_address};
ghost use Rattle.h41_pages.specs.PageMap.{with_chosen};
ghost use Rattle.h41_nut.specs.Addresses.{end_of_function};
ghost use Rattle.h41_nut.specs.private.ProcessorSteps.{TellsEnd};
ghost use Rattle.h41_nut.specs.private.RowStep.{Changed, Ran, RanWithin, is_jump, is_test};
ghost use Rattle.h41_nut.specs.private.RowStep.{is_within};
ghost use Rattle.h41_nut.specs.WordStep.{Stepped, nut_of, row_writes_program, writes_program};
ghost use Rattle.h41_ram.specs.RamState.{KeepsMark, MarksIf};

use crate::base::Base;
use crate::cpu::Cpu;
use crate::cpu::pointers::{place_above, place_below};
use crate::cpu::registers::{digits_and, digits_or};
use crate::keys::Keys;
use crate::machine::memory::{read_data, read_register, write_data, write_register};
use crate::machine::peripherals::{constant_refusal, select_peripheral};
use crate::machine::rom::{fetch, fetch_word, write_rom};
use crate::refusal::WordRefusal;
use h41_pages::Pages;
use h41_ram::Ram;
use h41_words::{Row, SecondWord, Word, row};

mod memory;
mod peripherals;
mod rom;

/// Executes the word at the processor's address. The first of the following errors is returned, and then nothing
/// changes. The order is this project's choice. The address after FFFF is 0000.
///
/// The errors are: of the fetch of the word, SystemRom (08) or EmptyPage (09); of the word itself, UndefinedWord (06),
/// WordNotInProfile (07), PeripheralNotHeld (10) or Asleep (11); of the fetch of a second word, SystemRom (08) or
/// EmptyPage (09); of a read or write of a page, SystemRom (08) or ReadOnly (12); of the next address, SystemRom (08)
/// if it is in pages 0 to 3 and not 00F0.
#[inline(always)]
pub fn step<const REGS: usize>(
    cpu: &mut Cpu,
    ram: &mut Ram<REGS>,
    pages: &mut Pages,
    keys: &mut Keys,
) -> Result<(), WordRefusal>
    ensures change { Stepped result cpu.old ram.old.registers pages.old keys.old cpu.new
        ram.new.registers pages.new keys.new }
    ensures mark { KeepsMark ram.old ram.new }
    ensures marked { MarksIf (writes_program (nut_of cpu.old ram.old.registers pages.old keys.old)
        && is_ok result) ram.old ram.new }
{
    step_to_end(cpu, ram, pages, keys)?;
    Ok(())
}

/// Executes the word at the processor's address, and returns whether the next address is 00F0, at which a function
/// ends. Only words that jump or return test this, because no other word leads there. The errors are those of `step`,
/// and nothing changes then.
#[inline(always)]
pub fn step_to_end<const REGS: usize>(
    cpu: &mut Cpu,
    ram: &mut Ram<REGS>,
    pages: &mut Pages,
    keys: &mut Keys,
) -> Result<bool, WordRefusal>
    ensures change { Stepped result cpu.old ram.old.registers pages.old keys.old cpu.new
        ram.new.registers pages.new keys.new }
    ensures mark { KeepsMark ram.old ram.new }
    ensures marked { MarksIf (writes_program (nut_of cpu.old ram.old.registers pages.old keys.old)
        && is_ok result) ram.old ram.new }
    ensures end { IfOk result (λ ends. ends ≡ (cpu.new.pc == end_of_function)) }
{
    let word = fetch(pages, cpu.pc())?;
    execute_row(word, row(word), cpu, ram, pages, keys)
}

/// Executes a word at an address in pages 4 to F. `row` is its row in the table of words. Returns whether the next
/// address is 00F0, at which a function ends; only words that jump or return can lead there. The errors are those of
/// `step`, except those of the fetch of the word.
#[inline(always)]
fn execute_row<const REGS: usize>(
    word: Word,
    row: Row,
    cpu: &mut Cpu,
    ram: &mut Ram<REGS>,
    pages: &mut Pages,
    keys: &mut Keys,
) -> Result<bool, WordRefusal>
    requires held { first_address ≤ cpu.old.pc }
    requires row { row_of word ≡ row }
    ensures change { Ran row result cpu.old ram.old.registers pages.old keys.old cpu.new
        ram.new.registers pages.new keys.new }
    ensures mark { KeepsMark ram.old ram.new }
    ensures marked { MarksIf (row_writes_program row (nut_of cpu.old ram.old.registers pages.old
        keys.old) && is_ok result) ram.old ram.new }
    ensures end { TellsEnd result cpu.new }
{
    match row {
        Row::LongJump(low_byte) => {
            let second = fetch(pages, cpu.next_address())?;
            cpu.long_jump(low_byte, SecondWord::of(second))
        }
        Row::ShortJump(condition, displacement) => cpu.short_jump(condition, displacement),
        Row::ReturnIf(condition) => cpu.return_if(condition),
        Row::Return => cpu.return_to_newest(),
        Row::GoToAddress => cpu.go_to(cpu.address_in_c()),
        Row::GoToKey => cpu.go_to_key(keys.ky),
        _ => {
            execute_straight(word, row, cpu, ram, pages, keys)?;
            Ok(false)
        }
    }
}

/// Executes a word that neither jumps nor returns, at an address in pages 4 to F. `row` is its row in the table of
/// words. No function ends at its next address. The errors are those of `step`, except those of the fetch of the word.
#[inline(always)]
fn execute_straight<const REGS: usize>(
    word: Word,
    row: Row,
    cpu: &mut Cpu,
    ram: &mut Ram<REGS>,
    pages: &mut Pages,
    keys: &mut Keys,
) -> Result<(), WordRefusal>
    requires held { first_address ≤ cpu.old.pc }
    requires row { row_of word ≡ row }
    requires straight { is_jump row ≡ false }
    ensures change { Ran row result cpu.old ram.old.registers pages.old keys.old cpu.new
        ram.new.registers pages.new keys.new }
    ensures mark { KeepsMark ram.old ram.new }
    ensures marked { MarksIf (row_writes_program row (nut_of cpu.old ram.old.registers pages.old
        keys.old) && is_ok result) ram.old ram.new }
    ensures end { OnOk result ((cpu.new.pc == end_of_function) ≡ false) }
{
    let address = cpu.pc();
    match row {
        Row::Arithmetic(operation, field) => cpu.arithmetic::<REGS>(operation, field),
        Row::Write(register) => write_register(cpu, ram, register),
        Row::Read(register) => read_register(cpu, ram, register),
        Row::Constant(word) => Err(constant_refusal(word, address)),
        Row::WriteRom => write_rom(cpu, pages),
        Row::EnableBank(_) => {
            let page = (address / 0x1000) as u8;
            cpu.go_on()?;
            enable_bank(pages, page, word);
            Ok(())
        }
        Row::ClearKeyFlag => {
            cpu.go_on()?;
            keys.flag = false;
            Ok(())
        }
        Row::PowerOff => Err(WordRefusal::Asleep(address)),
        Row::LoadImmediate => {
            let second = fetch(pages, cpu.next_address())?;
            cpu.load_immediate(second)
        }
        Row::WriteData => write_data(cpu, ram),
        Row::ReadData => read_data(cpu, ram),
        Row::FetchWord => fetch_word(cpu, pages),
        Row::SelectPeripheral => select_peripheral(cpu),
        _ => execute_within(row, cpu, *keys),
    }
}

/// Executes a word for which `is_within` is true: it uses only the processor and the keyboard, and is not arithmetic, a
/// jump, a return, `CLRKEY`, `POWOFF` or `PRPH SLCT`. Execution continues with the word after it. The only error is
/// SystemRom (08) if the next address is 0000; nothing changes then.
#[inline(always)]
fn execute_within(row: Row, cpu: &mut Cpu, keys: Keys) -> Result<(), WordRefusal>
    requires held { first_address ≤ cpu.old.pc }
    requires within { is_within row ≡ true }
    ensures { RanWithin row keys cpu.old cpu.new result }
{
    match row {
        Row::TestStatus(bit) => cpu.answer(cpu.is_status_set(bit)),
        Row::TestPointer(place) => cpu.answer(cpu.pointer() == usize::from(place.number())),
        Row::TestPointersEqual => cpu.answer(cpu.p() == cpu.q()),
        Row::TestKeyFlag => cpu.answer(keys.flag),
        Row::TestLowBattery | Row::Nop => cpu.go_on(),
        _ => {
            let next = cpu.following()?;
            change(row, cpu, keys);
            cpu.arrive(next, false);
            Ok(())
        }
    }
}

/// Changes the registers of the processor as a word does for which `is_within` is true: one that uses only the
/// processor and the keyboard, and is not arithmetic, a jump, a return, `CLRKEY`, `POWOFF` or `PRPH SLCT`. The caller
/// moves to the next word.
#[inline(always)]
fn change(row: Row, cpu: &mut Cpu, keys: Keys)
    requires within { is_within row ≡ true }
    requires change { is_test row ≡ false }
    ensures { Changed row keys cpu.old cpu.new }
{
    match row {
        Row::ClearStatus(bit) => cpu.set_status(bit, false),
        Row::SetStatus(bit) => cpu.set_status(bit, true),
        Row::SetPointer(place) => cpu.set_pointer(usize::from(place.number())),
        Row::RotateRight(digits) => cpu.rotate_right(digits),
        Row::LoadDigit(digit) => cpu.load_digit(digit),
        Row::ClearStatusByte => cpu.clear_status_byte(),
        Row::DecrementPointer => cpu.set_pointer(place_below(cpu.pointer())),
        Row::IncrementPointer => cpu.set_pointer(place_above(cpu.pointer())),
        Row::Transfer(transfer) => cpu.transfer(transfer),
        Row::DropReturn => cpu.drop_return(),
        Row::SelectPointer(pointer) => cpu.select_pointer(pointer),
        Row::ClearRegisters => cpu.clear_registers(),
        Row::ReadKey => cpu.load_key(keys.ky),
        Row::SetHexadecimal => cpu.set_base(Base::Hexadecimal),
        Row::SetDecimal => cpu.set_base(Base::Decimal),
        Row::DisplayOff => cpu.set_display(false),
        Row::ToggleDisplay => cpu.set_display(!cpu.display()),
        Row::PushAddress => cpu.push_address(),
        Row::PopAddress => cpu.pop_address(),
        Row::SelectRegister => cpu.select(cpu.word_in_c()),
        Row::Or => cpu.load_register(digits_or(cpu.c(), cpu.a())),
        Row::And => cpu.load_register(digits_and(cpu.c(), cpu.a())),
        _ => unreachable!(),
    }
}

/// Activates the bank of page `page` that a word `ENBANK1` to `ENBANK4` names. The caller has already set the address
/// of the next word. The function is separate and cold, and decodes the word again, so that the code that executes all
/// other words is shorter.
#[cold]
#[inline(never)]
fn enable_bank(pages: &mut Pages, page: u8, word: Word)
    requires { page < 16 }
    ensures { (bank : Bank) → row_of word ≡ EnableBank bank
        → pages.new ≡ with_chosen pages.old page bank }
{
    if let Row::EnableBank(bank) = row(word) {
        pages.choose(page, bank);
    }
}
