//! The processor, as `show cpu` prints it.

ghost use Rattle.std.specs.Prelude.{◌≡◌, IfOk, Some};
ghost use Rattle.std.specs.Fmt.{WritesOnOk};
ghost use Rattle.h41_digits.specs.Register.{hexadecimal_text, text};
ghost use Rattle.h41_views.specs.Views as spec;
ghost use Rattle.h41_views.specs.Views.{registers_line, memories_line, pointers_line, modes_line};
ghost use Rattle.h41_views.specs.Views.{returns_line, pointer_text, base_text, bit_text};

use crate::text::text_of;
use h41_digits::Digits;
use h41_fields::Pointer;
use h41_nut::{Base, Cpu, Keys};
use std::alloc::{AllocError, Global};
use std::fmt;

/// Returns five lines with the state of the processor: its registers A, B and C; M and N; G, T, the status bits and the
/// pointers; the address, the carry, the arithmetic mode, the selected register and the keyboard; and its return
/// addresses. OutOfMemory (21) if allocation failed.
pub fn processor_text(alloc: Global, cpu: &Cpu, keys: &Keys) -> Result<Vec<u8>, AllocError>
    ensures { IfOk result (λ text. text.items ≡ spec.processor_text cpu.now keys.now) }
{
    text_of(alloc, Processor { cpu, keys })
}

/// The processor as it is printed: five lines, each with its line end.
#[derive(Clone, Copy)]
struct Processor<'a> {
    cpu: &'a Cpu,
    keys: &'a Keys,
}

impl fmt::Display for Processor<'_> {
    ghost use Rattle.std.specs.Prelude.{Some};
    ghost use Rattle.h41_views.specs.Views.{processor_text};

    ghost output = { λ shown. Some (processor_text shown.cpu.now shown.keys.now) };

    #[tactic(auto, unfolding(crate::specs::Views::processor_text))]
    fn fmt<W: fmt::Write>(&self, f: &mut fmt::Formatter<W>) -> fmt::Result {
        write_registers(f, self.cpu)?;
        write_memories(f, self.cpu)?;
        write_pointers(f, self.cpu)?;
        write_modes(f, self.cpu, self.keys)?;
        write_returns(f, self.cpu)
    }
}

/// Writes the line with the processor's registers A, B and C.
#[tactic(auto, unfolding(crate::specs::Views::registers_line))]
fn write_registers<W: fmt::Write>(f: &mut fmt::Formatter<W>, cpu: &Cpu) -> fmt::Result
    ensures { WritesOnOk W.write_str_gives f.old result (registers_line cpu.now) f.new }
{
    let (a, b, c) = (cpu.a(), cpu.b(), cpu.c());
    writeln!(f, "A={a} B={b} C={c}")
}

/// Writes the line with the processor's registers M and N.
#[tactic(auto, unfolding(crate::specs::Views::memories_line))]
fn write_memories<W: fmt::Write>(f: &mut fmt::Formatter<W>, cpu: &Cpu) -> fmt::Result
    ensures { WritesOnOk W.write_str_gives f.old result (memories_line cpu.now) f.new }
{
    let (m, n) = (cpu.m(), cpu.n());
    writeln!(f, "M={m} N={n}")
}

/// Writes the line with the processor's registers G and T, its status bits, its pointers P and Q, and the name of the
/// selected pointer. All numbers are hexadecimal.
#[tactic(auto, unfolding(crate::specs::Views::pointers_line))]
fn write_pointers<W: fmt::Write>(f: &mut fmt::Formatter<W>, cpu: &Cpu) -> fmt::Result
    ensures { WritesOnOk W.write_str_gives f.old result (pointers_line cpu.now) f.new }
{
    let g = byte_digits(cpu.g());
    let t = byte_digits(cpu.t());
    let status = word_digits(cpu.status());
    let p = Digits::<1>::holding(cpu.p() as u64);
    let q = Digits::<1>::holding(cpu.q() as u64);
    let active = pointer_name(cpu.active());
    writeln!(f, "G={g} T={t} ST={status} P={p} Q={q} PT={active}")
}

/// Writes the line with the address of the next word (PC), the carry, the arithmetic mode, the address of the selected
/// register, and the keyboard's code and flag. All numbers are hexadecimal.
#[tactic(auto, unfolding(crate::specs::Views::modes_line))]
fn write_modes<W: fmt::Write>(f: &mut fmt::Formatter<W>, cpu: &Cpu, keys: &Keys) -> fmt::Result
    ensures { WritesOnOk W.write_str_gives f.old result (modes_line cpu.now keys.now) f.new }
{
    let pc = word_digits(cpu.pc());
    let carry = bit(cpu.carry());
    let base = base_name(cpu.base());
    let selected = Digits::<3>::holding(u64::from(cpu.selected()));
    let ky = byte_digits(keys.ky);
    let flag = bit(keys.flag);
    writeln!(
        f,
        "PC={pc} CY={carry} MODE={base} RAM={selected} KY={ky} KF={flag}"
    )
}

/// Writes the line with the processor's four return addresses, the newest first, as four hexadecimal digits each.
#[tactic(auto, unfolding(crate::specs::Views::returns_line))]
fn write_returns<W: fmt::Write>(f: &mut fmt::Formatter<W>, cpu: &Cpu) -> fmt::Result
    ensures { WritesOnOk W.write_str_gives f.old result (returns_line cpu.now) f.new }
{
    let [newest, second, third, fourth] = cpu.returns();
    let newest = word_digits(newest);
    let second = word_digits(second);
    let third = word_digits(third);
    let fourth = word_digits(fourth);
    writeln!(f, "RTN={newest} {second} {third} {fourth}")
}

/// Returns the two hexadecimal digits of a byte.
fn byte_digits(byte: u8) -> Digits<2>
    ensures { text result ≡ hexadecimal_text 2 byte }
{
    Digits::holding(u64::from(byte))
}

/// Returns the four hexadecimal digits of a number of 16 bits.
fn word_digits(word: u16) -> Digits<4>
    ensures { text result ≡ hexadecimal_text 4 word }
{
    Digits::holding(u64::from(word))
}

/// Returns the name of a pointer: `P` or `Q`.
fn pointer_name(pointer: Pointer) -> &'static str
    ensures { result.now ≡ pointer_text pointer }
{
    match pointer {
        Pointer::P => "P",
        Pointer::Q => "Q",
    }
}

/// Returns the name of an arithmetic mode: `HEX` or `DEC`.
fn base_name(base: Base) -> &'static str
    ensures { result.now ≡ base_text base }
{
    match base {
        Base::Hexadecimal => "HEX",
        Base::Decimal => "DEC",
    }
}

/// Returns a bit as `0` or `1`.
fn bit(bit: bool) -> &'static str
    ensures { result.now ≡ bit_text bit }
{
    if bit { "1" } else { "0" }
}
