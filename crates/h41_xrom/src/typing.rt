//! What typed numbers, typed letters, the correction key in ALPHA mode and the key ALPHA do to memory and to stack lift.

ghost use Rattle.std.specs.Prelude.{◌≡◌, [], ◌∷◌, ◌++◌, take, Ok};
ghost use Rattle.h41_positions.specs.LabelledMachine.{Keeps, machine_of};
ghost use Rattle.h41_ram.specs.RegisterMap.{alpha_of};
ghost use Rattle.h41_focal.specs.LineStep.{left_done};
ghost use Rattle.h41_xrom.specs.KeyActions.{BeginsNumber, ChangesNumber};
ghost use Rattle.h41_xrom.specs.KeyActions.{with_alpha_toggled, with_letters, with_text};
ghost use Rattle.h41_ram.specs.RamState.{KeepsMark};
ghost use Rattle.h41_rows.specs.RowMarks.{LeavesMark};
ghost use Rattle.h41_xrom.specs.private.PrivateCalls.{lettered};

use h41_codes::Number;
use h41_focal::Machine;
use h41_keys::Action;
use h41_ram::flags::{ALPHA_ENTRY, ALPHA_MODE, NUMBER_ENTRY};
use h41_ram::{ALPHA_LENGTH, Ram};
use h41_rows::{append_text, bring_in, replace_text, written};

/// Writes the number that was begun by its first key to X. The stack is lifted first if stack lift is enabled.
/// Stack lift is enabled afterwards, and flag 22 is set.
pub fn begin_number<const REGS: usize>(machine: &mut Machine<REGS>, number: &Number)
    ensures number { BeginsNumber number.now (machine_of machine.old)
        (Ok (left_done (machine_of machine.new))) }
    ensures keeps { Keeps machine.old machine.new }
    ensures left { LeavesMark machine.old.ram machine.new.ram }
{
    let focal = &mut machine.focal;
    bring_in(&mut machine.ram, written(number), focal.lift);
    machine.ram.set_flag(NUMBER_ENTRY, true);
    focal.lift = true;
}

/// Writes the number that is being typed to X again, after a further key. The stack is not lifted.
pub fn change_number<const REGS: usize>(machine: &mut Machine<REGS>, number: &Number)
    ensures number { ChangesNumber number.now (machine_of machine.old)
        (Ok (left_done (machine_of machine.new))) }
    ensures keeps { Keeps machine.old machine.new }
    ensures left { LeavesMark machine.old.ram machine.new.ram }
{
    bring_in(&mut machine.ram, written(number), false);
}

/// Performs what a typed letter, the correction key in ALPHA mode, or the key ALPHA does to memory. Other actions
/// change nothing.
pub fn type_letters<const REGS: usize>(ram: &mut Ram<REGS>, action: Action)
    ensures memory { ram.new.registers ≡ lettered action ram.old.registers }
    ensures mark { KeepsMark ram.old ram.new }
    ensures left { LeavesMark ram.old ram.new }
{
    match action {
        Action::ToggleAlpha => toggle_alpha(ram),
        Action::BeginText(letter) => begin_text(ram, letter),
        Action::AddLetter(letter) => add_letter(ram, letter),
        Action::TakeLetter => take_letter(ram),
        Action::ClearAlpha => clear_alpha(ram),
        _ => {}
    }
}

/// Switches ALPHA mode (flag 48) on if it is off, and off if it is on.
fn toggle_alpha<const REGS: usize>(ram: &mut Ram<REGS>)
    ensures memory { ram.new.registers ≡ with_alpha_toggled ram.old.registers }
    ensures mark { KeepsMark ram.old ram.new }
    ensures left { LeavesMark ram.old ram.new }
{
    let on = !ram.flag(ALPHA_MODE);
    ram.set_flag(ALPHA_MODE, on);
}

/// Replaces ALPHA by one letter, and sets flag 23.
fn begin_text<const REGS: usize>(ram: &mut Ram<REGS>, letter: u8)
    ensures memory { ram.new.registers ≡ with_letters ram.old.registers (letter ∷ []) }
    ensures mark { KeepsMark ram.old ram.new }
    ensures left { LeavesMark ram.old ram.new }
{
    replace_text(ram, &[letter]);
    ram.set_flag(ALPHA_ENTRY, true);
}

/// Appends one letter to ALPHA, and sets flag 23. ALPHA keeps its last 24 characters.
fn add_letter<const REGS: usize>(ram: &mut Ram<REGS>, letter: u8)
    ensures memory { ram.new.registers ≡ with_letters ram.old.registers
        (alpha_of ram.old.registers ++ letter ∷ []) }
    ensures mark { KeepsMark ram.old ram.new }
    ensures left { LeavesMark ram.old ram.new }
{
    append_text(ram, &[letter]);
    ram.set_flag(ALPHA_ENTRY, true);
}

/// Removes the last of the 24 characters of ALPHA.
fn take_letter<const REGS: usize>(ram: &mut Ram<REGS>)
    ensures memory { ram.new.registers ≡ with_text ram.old.registers
        (take 23 (alpha_of ram.old.registers)) }
    ensures mark { KeepsMark ram.old ram.new }
    ensures left { LeavesMark ram.old ram.new }
{
    let alpha = ram.alpha();
    replace_text(ram, &alpha[..ALPHA_LENGTH - 1]);
}

/// Removes all characters of ALPHA.
fn clear_alpha<const REGS: usize>(ram: &mut Ram<REGS>)
    ensures memory { ram.new.registers ≡ with_text ram.old.registers [] }
    ensures mark { KeepsMark ram.old ram.new }
    ensures left { LeavesMark ram.old ram.new }
{
    replace_text(ram, &[]);
}
