//! Sets the flags of the display format and of the angle unit.

ghost use Rattle.std.specs.Prelude.{◌≡◌, ◌<◌, [], ◌∷◌};
ghost use Rattle.h41_ram.specs.NamedFlags as named;
ghost use Rattle.h41_rows.specs.LineRows.{change, format};
ghost use Rattle.h41_rows.specs.RowEffects.{with_flags};
ghost use Rattle.h41_ram.specs.RamState.{KeepsMark};
ghost use Rattle.h41_rows.specs.RowMarks.{LeavesMark};

use h41_ram::{Ram, flags};

/// Sets the display format: the operand of FIX, SCI or ENG, 0 to 9, in flags 36 to 39 as four bits, of which flag 36 is
/// the highest, and the notation in flags 40 (set for FIX) and 41 (set for ENG). Both are clear for SCI.
pub fn set_format<const REGS: usize>(
    ram: &mut Ram<REGS>,
    digits: u8,
    fixed: bool,
    engineering: bool,
)
    requires { digits < 10 }
    ensures change { ram.new.registers ≡ with_flags (format digits fixed engineering).flags
        ram.old.registers }
    ensures mark { KeepsMark ram.old ram.new }
    ensures left { LeavesMark ram.old ram.new }
{
    ram.set_flag(flags::DIGITS_8, digits / 8 % 2 == 1);
    ram.set_flag(flags::DIGITS_4, digits / 4 % 2 == 1);
    ram.set_flag(flags::DIGITS_2, digits / 2 % 2 == 1);
    ram.set_flag(flags::DIGITS_1, digits % 2 == 1);
    ram.set_flag(flags::FIXED, fixed);
    ram.set_flag(flags::ENGINEERING, engineering);
}

/// Sets the unit of angles: flag 42, which means GRAD, becomes `grads`, and flag 43, which means RAD, becomes
/// `radians`. If both are clear, the unit is DEG.
pub fn set_angles<const REGS: usize>(ram: &mut Ram<REGS>, grads: bool, radians: bool)
    ensures change { ram.new.registers
        ≡ with_flags (change named.grads grads ∷ change named.radians radians ∷ [])
        ram.old.registers }
    ensures mark { KeepsMark ram.old ram.new }
    ensures left { LeavesMark ram.old ram.new }
{
    ram.set_flag(flags::GRADS, grads);
    ram.set_flag(flags::RADIANS, radians);
}
