//! Clears the data registers, as CLRG does.

ghost use Rattle.std.specs.Prelude.{◌≡◌};
ghost use Rattle.h41_rows.specs.RowEffects.{with_cleared_data};
ghost use Rattle.h41_ram.specs.RamState.{KeepsMark};
ghost use Rattle.h41_rows.specs.RowMarks.{LeavesMark};

use h41_digits::Reg;
use h41_ram::laws::mark_is_kept;
use h41_ram::{MAIN_START, Ram};

/// Sets all data registers to zero, as CLRG does.
pub fn clear_data<const REGS: usize>(ram: &mut Ram<REGS>)
    ensures change { ram.new.registers ≡ with_cleared_data ram.old.registers }
    ensures mark { KeepsMark ram.old ram.new }
    ensures left { LeavesMark ram.old ram.new }
{
    mark_is_kept();
    let first = usize::from(ram.curtain())
        .saturating_sub(MAIN_START)
        .min(REGS);
    for place in first..REGS {
        ram.write((MAIN_START + place) as u16, Reg::zero());
    }
}
