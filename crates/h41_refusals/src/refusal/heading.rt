//! The number and the name of each refusal, as the bench prints them.

ghost use Rattle.std.specs.Prelude.{◌≡◌, ◌≤◌, length};
ghost use Rattle.h41_refusals.specs.Refusals as spec;

use crate::refusal::Refusal;
use h41_asm::SourceFault;
use h41_commands::LineRefusal;
use h41_nut::WordRefusal;
use h41_program::ProgramRefusal;
use h41_xrom::CalculatorRefusal;

impl Refusal {
    ghost use Rattle.std.specs.Prelude.{◌≡◌, ◌≤◌, length};
    ghost use Rattle.h41_refusals.specs.Refusals.{heading};

    /// Returns the refusal as `! NN Name`, for example `! 24 Busy`, at most 22 bytes.
    pub fn heading(self) -> &'static str
        ensures text { result.now ≡ heading self }
        ensures short { length result.now ≤ 22 }
    {
        match self {
            Refusal::NoSuchPage => "! 01 NoSuchPage",
            Refusal::Occupied => "! 02 Occupied",
            Refusal::NotPlugged => "! 03 NotPlugged",
            Refusal::Calculator(refusal) => calculator_heading(refusal),
            Refusal::Line(refusal) => line_heading(refusal),
            Refusal::BreakFull => "! 19 BreakFull",
            Refusal::NoBreak => "! 20 NoBreak",
            Refusal::OutOfMemory => "! 21 OutOfMemory",
            Refusal::ReadFault => "! 22 ReadFault",
            Refusal::WriteFault => "! 23 WriteFault",
        }
    }
}

/// Returns the refusal of the calculator as `! NN Name`, for example `! 13 NotInProfile`, at most 22 bytes.
fn calculator_heading(refusal: CalculatorRefusal) -> &'static str
    ensures text { result.now ≡ spec.heading_of (spec.calculator_name refusal) }
    ensures short { length result.now ≤ 22 }
{
    match refusal {
        CalculatorRefusal::Word(refusal) => word_heading(refusal),
        CalculatorRefusal::NotInProfile => "! 13 NotInProfile",
        CalculatorRefusal::Program(refusal) => program_heading(refusal),
        CalculatorRefusal::MemoryLost => "! 15 MemoryLost",
        CalculatorRefusal::KeyNotHeld => "! 18 KeyNotHeld",
        CalculatorRefusal::Busy => "! 24 Busy",
    }
}

/// Returns the refusal of a microcode word as `! NN Name`, for example `! 09 EmptyPage`, at most 22 bytes.
fn word_heading(refusal: WordRefusal) -> &'static str
    ensures text { result.now ≡ spec.heading_of (spec.word_name refusal) }
    ensures short { length result.now ≤ 22 }
{
    match refusal {
        WordRefusal::UndefinedWord(_) => "! 06 UndefinedWord",
        WordRefusal::WordNotInProfile(_) => "! 07 WordNotInProfile",
        WordRefusal::SystemRom(_) => "! 08 SystemRom",
        WordRefusal::EmptyPage(_) => "! 09 EmptyPage",
        WordRefusal::PeripheralNotHeld(_) => "! 10 PeripheralNotHeld",
        WordRefusal::Asleep(_) => "! 11 Asleep",
        WordRefusal::ReadOnly(_) => "! 12 ReadOnly",
    }
}

/// Returns the refusal of program memory as `! NN Name`, for example `! 16 NoRoom`, at most 22 bytes.
fn program_heading(refusal: ProgramRefusal) -> &'static str
    ensures text { result.now ≡ spec.heading_of (spec.program_name refusal) }
    ensures short { length result.now ≤ 22 }
{
    match refusal {
        ProgramRefusal::BrokenProgram => "! 14 BrokenProgram",
        ProgramRefusal::NoRoom => "! 16 NoRoom",
        ProgramRefusal::SizeTooLarge => "! 17 SizeTooLarge",
    }
}

/// Returns the refusal of a command's lines as `! NN Name`, for example `! 50 BadCommand`, at most 22 bytes.
fn line_heading(refusal: LineRefusal) -> &'static str
    ensures text { result.now ≡ spec.heading_of (spec.line_name refusal) }
    ensures short { length result.now ≤ 22 }
{
    match refusal {
        LineRefusal::BadImage => "! 04 BadImage",
        LineRefusal::Source(fault, _) => source_heading(fault),
        LineRefusal::BadText(_) => "! 41 BadText",
        LineRefusal::BadCommand => "! 50 BadCommand",
        LineRefusal::BadNumber => "! 51 BadNumber",
        LineRefusal::NoEnd => "! 52 NoEnd",
        LineRefusal::LineTooLong => "! 53 LineTooLong",
    }
}

/// Returns the error in a source as `! NN Name`, for example `! 30 BadLine`, at most 22 bytes.
fn source_heading(fault: SourceFault) -> &'static str
    ensures text { result.now ≡ spec.heading_of (spec.source_name fault) }
    ensures short { length result.now ≤ 22 }
{
    match fault {
        SourceFault::BadLine => "! 30 BadLine",
        SourceFault::BadOperand => "! 31 BadOperand",
        SourceFault::LabelTwice => "! 32 LabelTwice",
        SourceFault::NoLabel => "! 33 NoLabel",
        SourceFault::TooFar => "! 34 TooFar",
        SourceFault::TooLong => "! 35 TooLong",
    }
}
