//! Executes the words that write and read the registers of memory.

ghost use Rattle.std.specs.Prelude.{◌≡◌, ◌≤◌, ◌&&◌, is_ok, OnOk, OnErr};
ghost use Rattle.h41_pages.specs.Addresses.{first_address};
ghost use Rattle.h41_nut.specs.private.ProcessorSteps.{GoesOn};
ghost use Rattle.h41_nut.specs.MemoryWords as spec;
ghost use Rattle.h41_ram.specs.RamState.{KeepsMark, MarksIf, sets_mark};

use crate::cpu::Cpu;
use crate::refusal::WordRefusal;
use h41_ram::Ram;
use h41_words::{BlockRegister, ReadRegister};

/// Executes `WRIT n`: writes C to a register of the selected block of 16 registers, and selects this register. The
/// error is SystemRom (08) if the next address is 0000; nothing changes then.
pub fn write_register<const REGS: usize>(
    cpu: &mut Cpu,
    ram: &mut Ram<REGS>,
    register: BlockRegister,
) -> Result<(), WordRefusal>
    requires { first_address ≤ cpu.old.pc }
    ensures processor { GoesOn (spec.selecting_in_block register) cpu.old cpu.new result }
    ensures written { OnOk result (ram.new.registers
        ≡ spec.with_c_in_block ram.old.registers register cpu.old) }
    ensures unchanged { OnErr result (ram.new.registers ≡ ram.old.registers) }
    ensures mark { KeepsMark ram.old ram.new }
    ensures marked { MarksIf (sets_mark ram.old.registers (spec.block_address register cpu.old)
        && is_ok result) ram.old ram.new }
{
    let address = cpu.block_address(register.number());
    cpu.go_on()?;
    cpu.select(address);
    ram.write(address, cpu.c());
    Ok(())
}

/// Executes `READ n`: copies a register of the selected block of 16 registers to C, and selects this register. The
/// error is SystemRom (08) if the next address is 0000; nothing changes then.
pub fn read_register<const REGS: usize>(
    cpu: &mut Cpu,
    ram: &Ram<REGS>,
    register: ReadRegister,
) -> Result<(), WordRefusal>
    requires { first_address ≤ cpu.old.pc }
    ensures { GoesOn (spec.with_register_in_c ram.now.registers register) cpu.old cpu.new result }
{
    let address = cpu.block_address(register.number());
    cpu.go_on()?;
    cpu.select_and_load(address, ram.read(address));
    Ok(())
}

/// Executes `WRIT DATA`: writes C to the selected register. The error is SystemRom (08) if the next address is 0000;
/// nothing changes then.
pub fn write_data<const REGS: usize>(cpu: &mut Cpu, ram: &mut Ram<REGS>) -> Result<(), WordRefusal>
    requires { first_address ≤ cpu.old.pc }
    ensures processor { GoesOn (λ s. s) cpu.old cpu.new result }
    ensures written { OnOk result (ram.new.registers
        ≡ spec.with_c_at ram.old.registers cpu.old.selected cpu.old) }
    ensures unchanged { OnErr result (ram.new.registers ≡ ram.old.registers) }
    ensures mark { KeepsMark ram.old ram.new }
    ensures marked { MarksIf (sets_mark ram.old.registers cpu.old.selected && is_ok result) ram.old
        ram.new }
{
    cpu.go_on()?;
    ram.write(cpu.selected(), cpu.c());
    Ok(())
}

/// Executes `READ DATA`: copies the selected register to C. The error is SystemRom (08) if the next address is 0000;
/// nothing changes then.
pub fn read_data<const REGS: usize>(cpu: &mut Cpu, ram: &Ram<REGS>) -> Result<(), WordRefusal>
    requires { first_address ≤ cpu.old.pc }
    ensures { GoesOn (spec.with_selected_in_c ram.now.registers) cpu.old cpu.new result }
{
    cpu.go_on()?;
    cpu.load_register(ram.read(cpu.selected()));
    Ok(())
}
