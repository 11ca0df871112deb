//! The line that a trace prints before each step.

ghost use Rattle.std.specs.Prelude.{◌≡◌};
ghost use Rattle.h41_debug.specs.Traces as spec;
ghost use Rattle.h41_debug.specs.Traces.{TellsAt, TellsLine, TellsStep};

use crate::bench::Bench;
use arrayvec::ArrayString;
use h41_breakpoints::Location;
use h41_dis::instruction;
use h41_pages::{FetchRefusal, Pages};
use h41_positions::{Position, line_at};
use h41_ram::Ram;
use h41_text::write_line;
use h41_words::{Word, length};
use h41_xrom::Calculator;

/// The most bytes of the text of an instruction in microcode or of a program line.
const NEXT: usize = 51;

/// The most bytes that a trace prints for a step, without the line end: 11 for where the calculator is, a space, and at
/// most 51 for what is executed next.
pub const TRACE_CAPACITY: usize = 63;

/// The text that a trace prints for an instruction or a program line that cannot be read.
const UNKNOWN: &str = "?";

impl<const REGS: usize> Bench<REGS> {
    /// Returns what a trace prints for the next step, without the line end: where the calculator is, as
    /// `Bench::position` returns it, a space, and the text of the next instruction or program line. This text is `?` if
    /// the line, or a word of the instruction, cannot be read.
    pub fn trace_line(&self) -> ArrayString<TRACE_CAPACITY>
        ensures { TellsStep self.now.state result.bytes }
    {
        let mut text = ArrayString::new();
        text.push_str(self.position().as_str());
        text.push_str(" ");
        text.push_str(text_at(self.calculator(), self.location()).as_str());
        text
    }
}

/// Returns the text of the instruction or the program line at a location, or `?` if it cannot be read.
fn text_at<const REGS: usize>(
    calculator: &Calculator<REGS>,
    location: Location,
) -> ArrayString<NEXT>
    ensures { TellsAt location calculator.now.state result.bytes }
{
    match location {
        Location::Word(address) => instruction_text(calculator.pages(), address),
        Location::Line(position) => line_text(calculator.ram(), calculator.pages(), position),
    }
}

/// Returns the text of the program line at a position, or `?` if it cannot be read because memory is not sound
/// (`Ram::is_sound`) or no line is there.
fn line_text<const REGS: usize>(
    ram: &Ram<REGS>,
    pages: &Pages,
    position: Position,
) -> ArrayString<NEXT>
    ensures { TellsLine pages.now ram.now.registers position result.bytes }
{
    let mut text = ArrayString::new();
    if !ram.is_sound() {
        text.push_str(UNKNOWN);
        return text;
    }
    match line_at(ram, pages, position) {
        Ok(placed) => text.push_str(write_line(placed.line).as_str()),
        Err(_) => text.push_str(UNKNOWN),
    }
    text
}

/// Returns the text of the instruction of one or two words at an address, or `?` if one of its words cannot be read.
fn instruction_text(pages: &Pages, address: u16) -> ArrayString<NEXT>
    ensures { result.bytes ≡ spec.instruction_at pages.now address }
{
    let mut text = ArrayString::new();
    match pages.fetch(address) {
        Ok(first) if length(first) == 2 => {
            let second = pages.fetch(address.wrapping_add(1));
            text.push_str(with_second(first, second).as_str());
        }
        Ok(first) => text.push_str(instruction(first, None).as_str()),
        Err(_) => text.push_str(UNKNOWN),
    }
    text
}

/// Returns the text of an instruction of two words, or `?` if the second word could not be read.
fn with_second(first: Word, second: Result<Word, FetchRefusal>) -> ArrayString<32>
    ensures { result.bytes ≡ spec.with_second first second }
{
    match second {
        Ok(second) => instruction(first, Some(second)),
        Err(_) => {
            let mut text = ArrayString::new();
            text.push_str(UNKNOWN);
            text
        }
    }
}
