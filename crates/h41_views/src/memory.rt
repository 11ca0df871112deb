//! The memory, as `show ram`, `show stack` and `show flags` print it.

ghost use Rattle.std.specs.Prelude.{◌≡◌, ◌+◌, ◌*◌, ◌<◌, ◌≤◌, ◌++◌, IfOk, Some};
ghost use Rattle.std.specs.Fmt.{WritesOnOk};
ghost use Rattle.arrayvec.specs.ArrayString.{array_string_len};
ghost use Rattle.h41_views.specs.Views as spec;
ghost use Rattle.h41_views.specs.Views.{flags_below, level_line};
ghost use Rattle.h41_lines.specs.Characters.{two_digits};
ghost use Rattle.h41_ram.specs.RegisterMap.{register_at};

use crate::text::text_of;
use arrayvec::ArrayString;
use h41_digits::{Digits, Reg};
use h41_lines::characters::two_digits as digits_of;
use h41_ram::Ram;
use std::alloc::{AllocError, Global};
use std::fmt;

/// The number of flags: 56.
const FLAGS: usize = 56;

/// The capacity, in bytes, of the text with the numbers of the set flags: two digits for each of 56 flags, and a space
/// between them, need at most 167.
const FLAGS_TEXT: usize = 168;

/// Returns a line with an address and the 14 digits of the register there, for example `0C0=00000000000000`.
/// OutOfMemory (21) if allocation failed.
pub fn register_text<const REGS: usize>(
    alloc: Global,
    ram: &Ram<REGS>,
    address: u16,
) -> Result<Vec<u8>, AllocError>
    ensures { IfOk result (λ text. text.items ≡ spec.register_line ram.now.registers address) }
{
    let register = ram.read(address);
    text_of(alloc, RegisterLine { address, register })
}

/// Returns five lines with the registers T, Z, Y, X and L, each with its name, for example `X=00000000000000`.
/// OutOfMemory (21) if allocation failed.
pub fn stack_text<const REGS: usize>(alloc: Global, ram: &Ram<REGS>) -> Result<Vec<u8>, AllocError>
    ensures { IfOk result (λ text. text.items ≡ spec.stack_text ram.now.registers) }
{
    text_of(alloc, StackLines::of(ram))
}

/// Returns one line with the numbers of the flags that are set, two decimal digits each, separated by spaces.
/// OutOfMemory (21) if allocation failed.
#[tactic(auto, unfolding(crate::specs::Views::flags_line))]
pub fn flags_text<const REGS: usize>(alloc: Global, ram: &Ram<REGS>) -> Result<Vec<u8>, AllocError>
    ensures { IfOk result (λ text. text.items ≡ spec.flags_line ram.now.registers) }
{
    let mut line = Vec::from_slice(alloc, set_flags(ram).as_str().as_bytes())?;
    line.push(b'\n')?;
    Ok(line)
}

/// A register with its address, which is printed with three hexadecimal digits.
#[derive(Clone, Copy)]
struct RegisterLine {
    address: u16,
    register: Reg,
}

impl fmt::Display for RegisterLine {
    ghost use Rattle.std.specs.Prelude.{Some};
    ghost use Rattle.h41_views.specs.Views.{address_line};

    ghost output = { λ line. Some (address_line line.address line.register) };

    #[tactic(auto, unfolding(crate::specs::Views::address_line))]
    fn fmt<W: fmt::Write>(&self, f: &mut fmt::Formatter<W>) -> fmt::Result {
        let name = Digits::<3>::holding(u64::from(self.address % 0x1000));
        writeln!(f, "{name}={}", self.register)
    }
}

/// The five registers that `show stack` prints: T, Z, Y, X and L.
#[derive(Clone, Copy)]
struct StackLines {
    t: Reg,
    z: Reg,
    y: Reg,
    x: Reg,
    l: Reg,
}

impl StackLines {
    /// Returns the registers T, Z, Y, X and L of a memory, which are at addresses 000 to 004.
    fn of<const REGS: usize>(ram: &Ram<REGS>) -> Self
        ensures t { result.t ≡ register_at ram.now.registers 0 }
        ensures z { result.z ≡ register_at ram.now.registers 1 }
        ensures y { result.y ≡ register_at ram.now.registers 2 }
        ensures x { result.x ≡ register_at ram.now.registers 3 }
        ensures l { result.l ≡ register_at ram.now.registers 4 }
    {
        StackLines {
            t: ram.status(0),
            z: ram.status(1),
            y: ram.status(2),
            x: ram.status(3),
            l: ram.status(4),
        }
    }
}

impl fmt::Display for StackLines {
    ghost use Rattle.std.specs.Prelude.{Some};
    ghost use Rattle.h41_views.specs.Views.{levels_text};

    ghost output = { λ lines. Some (levels_text lines.t lines.z lines.y lines.x lines.l) };

    #[tactic(auto, unfolding(crate::specs::Views::levels_text))]
    fn fmt<W: fmt::Write>(&self, f: &mut fmt::Formatter<W>) -> fmt::Result {
        write_level(f, "T", self.t)?;
        write_level(f, "Z", self.z)?;
        write_level(f, "Y", self.y)?;
        write_level(f, "X", self.x)?;
        write_level(f, "L", self.l)
    }
}

/// Writes a line with a register of the stack or L: its name, `=` and the contents of the register.
#[tactic(auto, unfolding(crate::specs::Views::level_line))]
fn write_level<W: fmt::Write>(f: &mut fmt::Formatter<W>, name: &str, register: Reg) -> fmt::Result
    ensures { WritesOnOk W.write_str_gives f.old result (level_line name.now register) f.new }
{
    writeln!(f, "{name}={register}")
}

/// Returns the numbers of the flags that are set, in ascending order, two decimal digits each, separated by spaces.
fn set_flags<const REGS: usize>(ram: &Ram<REGS>) -> ArrayString<FLAGS_TEXT>
    ensures { result.bytes ≡ flags_below 56 ram.now.registers }
{
    let mut flags = ArrayString::new();
    for flag in 0..FLAGS {
        if ram.flag(flag) {
            if !flags.is_empty() {
                flags.push(' ');
            }
            push_number(&mut flags, flag);
        }
    }
    flags
}

/// Appends the number of a flag as two decimal digits. The number must be below 100.
fn push_number(flags: &mut ArrayString<FLAGS_TEXT>, flag: usize)
    requires room { array_string_len flags.old + 2 ≤ FLAGS_TEXT }
    requires number { flag < 100 }
    ensures { flags.new.bytes ≡ flags.old.bytes ++ two_digits flag }
{
    flags.push_str(digits_of(flag as u8).as_str());
}
