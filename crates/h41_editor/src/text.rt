//! The text that the display shows in program mode.
ghost use Rattle.std.specs.Prelude.{◌≡◌, ◌≤◌, ◌++◌, length, IsTrue};
ghost use Rattle.h41_editor.specs.ProgramText as spec;
ghost use Rattle.h41_positions.specs.FocalState.{machine_with};
ghost use Rattle.h41_ram.specs.RegisterMap.{is_sound};

use crate::numbered::{NumberedLine, numbered_line};
use arrayvec::ArrayString;
use h41_pages::Pages;
use h41_positions::Focal;
use h41_ram::Ram;
use h41_text::write_line;
use itoa::Buffer;

/// The capacity, in bytes, of the text that the display shows in program mode: the number of a line, a space and the
/// text of the line.
pub const PROGRAM_TEXT_CAPACITY: usize = 60;

/// The address of the first register of main memory: 0C0 (hexadecimal).
const MAIN_START: u16 = 0x0C0;

/// Returns the text that the display shows in program mode: the number of the line at the calculator's position, with
/// at least two digits, a space, and the text of the line. At line 00 it is `00 REG n`, with the number of registers
/// that are free for programs. It is `?` if the program has no line at the position, or if memory is not sound
/// (`Ram::is_sound`). The rules are in docs/KEYBOARD.md.
pub fn program_text<const REGS: usize>(
    ram: &Ram<REGS>,
    pages: &Pages,
    focal: &Focal,
) -> ArrayString<PROGRAM_TEXT_CAPACITY>
    ensures { spec.ShowsProgram pages.now
        (machine_with ram.now.registers focal.now.state) result.bytes }
{
    if !ram.is_sound() {
        unknown_text()
    } else if focal.is_at_line_00 {
        line_00_text(ram)
    } else {
        match numbered_line(ram, pages, focal) {
            Some(numbered) => numbered_text(&numbered),
            None => unknown_text(),
        }
    }
}

/// Returns `?`, the text that the display shows in program mode if no line can be shown.
fn unknown_text() -> ArrayString<PROGRAM_TEXT_CAPACITY>
    ensures { result.bytes ≡ spec.unknown_text }
{
    let mut text = ArrayString::new();
    text.push_str("?");
    text
}

/// Returns the text that the display shows at line 00: `00 REG n`, with the number of registers that are free for
/// programs, in decimal.
fn line_00_text<const REGS: usize>(ram: &Ram<REGS>) -> ArrayString<PROGRAM_TEXT_CAPACITY>
    requires { IsTrue (is_sound ram.now.registers) }
    ensures { result.bytes ≡ spec.line_00_text ram.now.registers }
{
    let mut text = ArrayString::new();
    text.push_str("00 REG ");
    text.push_str(Buffer::new().format(ram.end_register() - MAIN_START));
    text
}

/// Returns the text that the display shows for a program line: its number with at least two digits, a space, and the
/// text of the line.
fn numbered_text(numbered: &NumberedLine) -> ArrayString<PROGRAM_TEXT_CAPACITY>
    ensures { result.bytes ≡ spec.numbered_text numbered.now }
{
    let mut text = ArrayString::new();
    if numbered.number < 10 {
        text.push_str("0");
    }
    text.push_str(Buffer::new().format(numbered.number));
    text.push_str(" ");
    text.push_str(write_line(numbered.placed.line).as_str());
    text
}
