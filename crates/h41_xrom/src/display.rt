//! The text that the display shows.

ghost use Rattle.std.specs.Prelude.{◌≡◌, ◌≤◌, length};
ghost use Rattle.h41_positions.specs.LabelledMachine.{machine_of};
ghost use Rattle.h41_xrom.specs.Display as spec;
ghost use Rattle.h41_xrom.specs.Display.{ShowsDisplay};

use crate::calculator::Calculator;
use arrayvec::ArrayString;
use h41_codes::{Line, Number};
use h41_editor::program_text;
use h41_focal::Machine;
use h41_keys::{Input, Prompt, TypedEntry};
use h41_lines::characters::push_characters;
use h41_pages::Pages;
use h41_ram::flags::ALPHA_MODE;
use h41_ram::{Ram, StatusRegister};
use h41_show::{Format, TEXT_CAPACITY, alpha_text, register_text};
use h41_text::write_line;

/// The cursor, which is shown after a number or a line that is being typed.
const CURSOR: &str = "_";

impl<const REGS: usize> Calculator<REGS> {
    /// Returns the text that the display shows, the first of these that applies: nothing while the display is off, the
    /// message, a prompt, the program line at the position in program mode, ALPHA if flag 48 is set, the number that is
    /// being typed, otherwise X in the display format.
    pub fn display(&self) -> ArrayString<TEXT_CAPACITY>
        ensures { ShowsDisplay self.now.state result.bytes }
    {
        if !self.cpu().display() {
            return ArrayString::new();
        }
        if let Some(message) = self.message() {
            return message;
        }
        match self.input().prompt {
            Some(prompt) => prompt_text(&prompt),
            None => self.shown_entry(),
        }
    }

    /// Returns the text that the display shows without a message or a prompt, the first of these that applies: the
    /// program line at the position in program mode, ALPHA if flag 48 is set, the number that is being typed, otherwise
    /// X in the display format.
    fn shown_entry(&self) -> ArrayString<TEXT_CAPACITY>
        ensures { spec.ShowsEntry self.now.state result.bytes }
    {
        let input = self.input();
        if input.program_mode {
            return shown_line(self.machine(), self.pages(), input.entry);
        }
        entry_text(self.ram(), input.entry)
    }
}

/// Returns the text that the display shows for a prompt: the function that waits for its operand, with what was typed
/// of it.
fn prompt_text(prompt: &Prompt) -> ArrayString<TEXT_CAPACITY>
    ensures { result.bytes ≡ spec.shown_prompt prompt.now }
{
    let mut text = ArrayString::new();
    push_characters(&mut text, &prompt.text());
    text
}

/// Returns the text that the display shows in program mode: the program line at the position, with the cursor if a
/// number or a text line is being typed.
fn shown_line<const REGS: usize>(
    machine: &Machine<REGS>,
    pages: &Pages,
    entry: TypedEntry,
) -> ArrayString<TEXT_CAPACITY>
    ensures { spec.ShowsShownLine pages.now (machine_of machine.now) entry result.bytes }
{
    let mut text = ArrayString::new();
    text.push_str(program_text(&machine.ram, pages, &machine.focal).as_str());
    text.push_str(cursor_of(entry));
    text
}

/// Returns the cursor if a number or a text line is being typed, otherwise an empty text.
fn cursor_of(entry: TypedEntry) -> &'static str
    ensures text { result.now ≡ spec.cursor_of entry }
    ensures fits { length result.now ≤ 1 }
{
    match entry {
        TypedEntry::Number(_) | TypedEntry::TextLine(_) => CURSOR,
        TypedEntry::Nothing | TypedEntry::Append | TypedEntry::Letters => "",
    }
}

/// Returns the text that the display shows outside program mode: ALPHA if flag 48 is set, otherwise the number that is
/// being typed, otherwise X in the display format.
fn entry_text<const REGS: usize>(ram: &Ram<REGS>, entry: TypedEntry) -> ArrayString<TEXT_CAPACITY>
    ensures { result.bytes ≡ spec.entry_text ram.now.registers entry }
{
    if ram.flag(ALPHA_MODE) {
        return alpha_text(ram);
    }
    match entry {
        TypedEntry::Number(number) => typed_number(number),
        _ => register_text(
            ram.status_register(StatusRegister::X),
            Format::from_flags(ram),
        ),
    }
}

/// Returns the text that the display shows for a number that is being typed: the number line that it would be, followed
/// by the cursor.
fn typed_number(number: Number) -> ArrayString<TEXT_CAPACITY>
    ensures { result.bytes ≡ spec.typed_number number }
{
    let mut text = ArrayString::new();
    text.push_str(write_line(Line::Number(number)).as_str());
    text.push_str(CURSOR);
    text
}
