//! Changing the number of data registers.
ghost use Rattle.std.specs.Prelude.{◌≡◌, ◌-◌, ◌<◌, true, is_ok, IsTrue, OnErr};
ghost use Rattle.h41_ram.specs.RegisterMap.{IsMemory, is_sound, top_of};
ghost use Rattle.h41_program.specs.private.ProgramPlaces.{IsMove};
ghost use Rattle.h41_program.specs.Rewriting.{HasOutcome};
ghost use Rattle.h41_program.specs.Size.{with_size, resized_c, resized_register, size_outcome};
ghost use Rattle.h41_ram.specs.RamState.{KeepsMark, MarksIf};

use crate::refusal::ProgramRefusal;
use crate::registers::{
    ADDRESSES, C, CURTAIN_PLACE, END_PLACE, STATISTICS_PLACE, address_at, with_address,
};
use crate::rewriting::free_register;
use h41_digits::Reg;
use h41_ram::laws::mark_is_kept;
use h41_ram::{MAIN_START, Ram};

/// Sets the number of data registers. The programs and the statistics registers move with the curtain, the address of
/// data register R00. Data registers that remain keep their values; new ones become zero, and so do registers that no
/// longer belong to programs (this project's choice). Memory must be sound.
///
/// The errors: SizeTooLarge (17) if main memory has no more registers than `size`, NoRoom (16) if the programs do not
/// fit into main memory. After an error nothing has changed.
pub fn set_size<const REGS: usize>(ram: &mut Ram<REGS>, size: u16) -> Result<(), ProgramRefusal>
    requires { IsTrue (is_sound ram.old.registers) }
    ensures size { HasOutcome ram.old.registers ram.new.registers result
        (size_outcome ram.old.registers size) }
    ensures sound { IsTrue (is_sound ram.new.registers) }
    ensures unchanged { OnErr result (ram.new ≡ ram.old) }
    ensures mark { KeepsMark ram.old ram.new }
    ensures marked { MarksIf (is_ok result) ram.old ram.new }
{
    let curtain = ram.curtain();
    let end = ram.end_register();
    if usize::from(size) >= REGS {
        return Err(ProgramRefusal::SizeTooLarge);
    }
    let new_curtain = MAIN_START as u16 + REGS as u16 - size;
    if new_curtain + end < MAIN_START as u16 + curtain {
        return Err(ProgramRefusal::NoRoom);
    }
    resize(ram, new_curtain, new_curtain + end - curtain);
    Ok(())
}

/// Moves the curtain (the address of data register R00) to `curtain` and the register with `.END.` to the address
/// `end`. The programs, the statistics registers and the data registers move with them.
fn resize<const REGS: usize>(ram: &mut Ram<REGS>, curtain: u16, end: u16)
    requires place { IsMove ram.old.registers curtain end }
    requires memory { IsMemory REGS ram.old.registers }
    ensures change { ram.new.registers ≡ with_size ram.old.registers
        (top_of ram.old.registers - curtain) }
    ensures mark { KeepsMark ram.old ram.new }
    ensures marked { ram.new.touched ≡ true }
{
    let c = moved_addresses(ram, curtain, end);
    let mut main = ram.main_memory();
    for (index, register) in main.iter_mut().enumerate() {
        *register = moved_register(ram, curtain, end, MAIN_START as u16 + index as u16);
    }
    mark_is_kept();
    ram.write(C, c);
    ram.set_main_memory(main);
}

/// Returns register c with `curtain` as the address of data register R00 and `end` as the address of the register with
/// `.END.`. The address of the statistics registers moves with the curtain.
fn moved_addresses<const REGS: usize>(ram: &Ram<REGS>, curtain: u16, end: u16) -> Reg
    requires { IsMove ram.now.registers curtain end }
    ensures { result ≡ resized_c ram.now.registers (top_of ram.now.registers - curtain) }
{
    let c = ram.status(usize::from(C));
    let statistics = (address_at(c, STATISTICS_PLACE) + curtain + ADDRESSES - ram.curtain())
        % ADDRESSES;
    let c = with_address(c, END_PLACE, end);
    let c = with_address(c, CURTAIN_PLACE, curtain);
    with_address(c, STATISTICS_PLACE, statistics)
}

/// Returns what the register of memory at an address contains after the curtain (the address of data register R00) and
/// the register with `.END.` are moved to `curtain` and `end`. New data registers are zero.
fn moved_register<const REGS: usize>(ram: &Ram<REGS>, curtain: u16, end: u16, address: u16) -> Reg
    requires place { IsMove ram.now.registers curtain end }
    requires address { address < top_of ram.now.registers }
    ensures { result ≡ resized_register ram.now.registers (top_of ram.now.registers - curtain)
        address }
{
    if address < end {
        free_register(ram, address)
    } else if address < curtain {
        ram.read(address + ram.end_register() - end)
    } else {
        ram.data(address - curtain).unwrap_or(Reg::zero())
    }
}
