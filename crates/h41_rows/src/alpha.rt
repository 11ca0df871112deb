//! Changes the ALPHA register, which has 24 characters, and copies characters from it.

ghost use Rattle.h41_rows.specs.Computing.{ChangesAlpha};
ghost use Rattle.std.specs.Prelude.{◌≡◌, ℕ, ◌-◌, ◌++◌, [], ◌∷◌, length, replicate, take};
ghost use Rattle.h41_ram.specs.RegisterMap.{digits_from};
ghost use Rattle.h41_rows.specs.RowEffects.{last_24, six_characters, text_register};
ghost use Rattle.h41_rows.specs.RowEffects.{with_alpha_change};
ghost use Rattle.h41_rows.specs.Rows.{Appends, AppendsNamed, Becomes, LosesSix};
ghost use Rattle.h41_ram.specs.RamState.{KeepsMark};
ghost use Rattle.h41_rows.specs.RowMarks.{LeavesMark};

use h41_digits::Reg;
use h41_ram::{ALPHA_LENGTH, Ram};
use h41_show::characters::{ALPHA_DATA, KIND_PLACE, REGISTER_CHARACTERS, after_nulls, alpha_data};
use h41_show::{Format, register_text};

/// Replaces the content of ALPHA by a text. If the text is longer than 24 characters, its last 24 remain.
pub fn replace_text<const REGS: usize>(ram: &mut Ram<REGS>, text: &[u8])
    ensures change { ChangesAlpha ram.old.registers ram.new.registers (Becomes text.now) }
    ensures mark { KeepsMark ram.old ram.new }
    ensures left { LeavesMark ram.old ram.new }
{
    ram.set_alpha(put_behind([0; ALPHA_LENGTH], text));
}

/// Appends a text to ALPHA. If there are then more than 24 characters, the last 24 remain.
pub fn append_text<const REGS: usize>(ram: &mut Ram<REGS>, text: &[u8])
    ensures change { ChangesAlpha ram.old.registers ram.new.registers (Appends text.now) }
    ensures mark { KeepsMark ram.old ram.new }
    ensures left { LeavesMark ram.old ram.new }
{
    ram.set_alpha(put_behind(ram.alpha(), text));
}

/// Appends the content of the register at an address to ALPHA: a number as the display shows it, ALPHA data as its
/// characters, and a register that is neither as its hexadecimal digits (this project's choice). The last 24 characters
/// of ALPHA remain.
pub fn append_register<const REGS: usize>(ram: &mut Ram<REGS>, address: u16)
    ensures change { ram.new.registers ≡ with_alpha_change ram.old.registers address
        (Some AppendsNamed) ram.old.registers }
    ensures mark { KeepsMark ram.old ram.new }
    ensures left { LeavesMark ram.old ram.new }
{
    let register = ram.read(address);
    if register.get(KIND_PLACE) == ALPHA_DATA {
        append_text(ram, after_nulls(&alpha_data(register)));
    } else {
        let text = register_text(register, Format::from_flags(ram));
        append_text(ram, text.as_str().as_bytes());
    }
}

/// Removes the first six characters of ALPHA, as ASHF does. Leading nulls do not count as characters.
pub fn shift_six<const REGS: usize>(ram: &mut Ram<REGS>)
    ensures change { ChangesAlpha ram.old.registers ram.new.registers LosesSix }
    ensures mark { KeepsMark ram.old ram.new }
    ensures left { LeavesMark ram.old ram.new }
{
    let alpha = ram.alpha();
    let shown = after_nulls(&alpha);
    replace_text(ram, &shown[shown.len().min(REGISTER_CHARACTERS)..]);
}

/// Returns the first six characters of ALPHA as the content of a register with ALPHA data, as ASTO stores them. Leading
/// nulls of ALPHA do not count as characters.
pub fn first_six<const REGS: usize>(ram: &Ram<REGS>) -> Reg
    ensures { result ≡ text_register (six_characters ram.now.registers) }
{
    let alpha = ram.alpha();
    holding_bytes(first_at_right(after_nulls(&alpha)))
}

/// Returns the last 24 bytes of `old` followed by `text`.
fn put_behind(old: [u8; ALPHA_LENGTH], text: &[u8]) -> [u8; ALPHA_LENGTH]
    ensures { result ≡ last_24 (old ++ text.now) }
{
    let last = &text[text.len().saturating_sub(ALPHA_LENGTH)..];
    let kept = ALPHA_LENGTH - last.len();
    let mut bytes = [0; ALPHA_LENGTH];
    bytes[..kept].copy_from_slice(&old[last.len()..]);
    bytes[kept..].copy_from_slice(last);
    bytes
}

/// Returns the first six characters of a text. If the text has fewer, null characters precede them.
fn first_at_right(text: &[u8]) -> [u8; REGISTER_CHARACTERS]
    ensures { result ≡ replicate (6 - length (take 6 text.now)) 0 ++ take 6 text.now }
{
    let count = text.len().min(REGISTER_CHARACTERS);
    let mut bytes = [0; REGISTER_CHARACTERS];
    bytes[REGISTER_CHARACTERS - count..].copy_from_slice(&text[..count]);
    bytes
}

/// Returns the content of a register that contains these six bytes as ALPHA data.
fn holding_bytes(bytes: [u8; REGISTER_CHARACTERS]) -> Reg
    ensures { result ≡ digits_from bytes (0 ∷ 1 ∷ 2 ∷ 3 ∷ 4 ∷ 5 ∷ []) ++ 0 ∷ 1 ∷ [] }
{
    Reg::zero()
        .with_byte(5, bytes[0])
        .with_byte(4, bytes[1])
        .with_byte(3, bytes[2])
        .with_byte(2, bytes[3])
        .with_byte(1, bytes[4])
        .with_byte(0, bytes[5])
        .with(KIND_PLACE, ALPHA_DATA)
}
