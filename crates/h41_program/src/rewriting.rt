//! Writing all of the programs in memory at once.
ghost use Rattle.std.specs.Prelude.{◌≡◌, ◌<◌, length, true};
ghost use Rattle.h41_ram.specs.RegisterMap.{IsMemory, top_of};
ghost use Rattle.h41_program.specs.private.ProgramPlaces.{IsPlace};
ghost use Rattle.h41_program.specs.Rewriting.{with_program_bytes, rewritten_register};
ghost use Rattle.h41_program.specs.Rewriting as spec;
ghost use Rattle.h41_ram.specs.RamState.{KeepsMark};

use crate::registers::{C, END_PLACE, register_of, with_address};
use h41_digits::Reg;
use h41_ram::laws::mark_is_kept;
use h41_ram::{MAIN_START, Ram};

/// Writes the given bytes, which fill whole registers, as the programs in memory, and writes `end`, the address of the
/// register with `.END.`, to register c. Registers that no longer belong to programs become zero (this project's
/// choice).
pub fn rewrite<const REGS: usize>(ram: &mut Ram<REGS>, bytes: &[u8], end: u16)
    requires place { IsPlace ram.old.registers (length bytes.now) end }
    requires memory { IsMemory REGS ram.old.registers }
    ensures change { ram.new.registers ≡ with_program_bytes ram.old.registers bytes.now }
    ensures mark { KeepsMark ram.old ram.new }
    ensures marked { ram.new.touched ≡ true }
{
    let c = with_address(ram.status(usize::from(C)), END_PLACE, end);
    let mut main = ram.main_memory();
    for (index, register) in main.iter_mut().enumerate() {
        *register = new_register(ram, bytes, end, MAIN_START as u16 + index as u16);
    }
    mark_is_kept();
    ram.write(C, c);
    ram.set_main_memory(main);
}

/// Returns what the register of memory at an address contains after the given bytes are written as the programs in
/// memory. `end` is the address of the register with `.END.`.
fn new_register<const REGS: usize>(ram: &Ram<REGS>, bytes: &[u8], end: u16, address: u16) -> Reg
    requires place { IsPlace ram.now.registers (length bytes.now) end }
    requires address { address < top_of ram.now.registers }
    ensures { result ≡ rewritten_register ram.now.registers bytes.now address }
{
    let curtain = ram.curtain();
    if address < end {
        free_register(ram, address)
    } else if address < curtain {
        register_of(bytes, usize::from(curtain - 1 - address))
    } else {
        ram.read(address)
    }
}

/// Returns what the register at `address`, which is below the new place of `.END.`, contains after the programs are moved:
/// its old contents if it was also below the old place of `.END.`, otherwise zero, because it contained program lines.
pub fn free_register<const REGS: usize>(ram: &Ram<REGS>, address: u16) -> Reg
    ensures { result ≡ spec.free_register ram.now.registers address }
{
    if address < ram.end_register() {
        ram.read(address)
    } else {
        Reg::zero()
    }
}
