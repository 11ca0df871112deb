//! Tests of h41_program and h41_walk over memory: edits of programs, and searches for lines and labels.

ghost use Rattle.std.specs.Prelude.{IsTrue};
ghost use Rattle.h41_program.specs.Lines.{is_inner};
ghost use Rattle.h41_ram.specs.RegisterMap.{is_sound};

use h41_codes::{Function, Line, RegisterFunction, ShortRegister, decode};
use h41_digits::Reg;
use h41_program::{
    InFront, ListedLine, ProgramRefusal, close_last, delete, final_position, first_from, global,
    insert, is_last_open, load, replace, set_size, start_of,
};
use h41_ram::Ram;
use h41_walk::{end_of, line_at, line_before, line_number, next};

/// One step of a test: a call on memory with its arguments and the expected result, in which a program line is given by
/// its bytes; or a register with its expected digits. Positions are bytes from the start of program memory.
enum Step {
    Load(&'static [u8], Result<u16, ProgramRefusal>),
    Insert(u16, &'static [u8], Result<u16, ProgramRefusal>),
    Replace(u16, &'static [u8], Result<u16, ProgramRefusal>),
    Delete(u16, Result<InFront, ProgramRefusal>),
    SetSize(u16, Result<(), ProgramRefusal>),
    Next(u16, Result<u16, ProgramRefusal>),
    StartOf(u16, u16),
    Final(u16),
    Global(&'static [u8], Option<u16>),
    /// The expected number of the program line at a position. The variants `EndOf` and `Before` are the expected end of
    /// its program, and the expected line before it.
    Number(u16, Option<u16>),
    EndOf(u16, Option<u16>),
    Before(u16, Option<u16>),
    /// Whether the last program is expected to be open, which means that it has lines but no END. The variant `Close`
    /// closes it.
    Open(Result<bool, ProgramRefusal>),
    Close(Result<(), ProgramRefusal>),
    /// The first program line from a position on is expected to be `RCL 05` in its short form. The numbers are the
    /// position, that of `RCL 05`, and the position after it.
    Recall(u16, u16, u16),
    /// The program lines at two positions are expected to be equal.
    SameLine(u16, u16),
    /// Writes a number, the second field, into the register at an address, the first field.
    Write(u16, u64),
    /// The register at an address, the first field, is expected to contain a number, the second field.
    Register(u16, u64),
}

/// Returns the program line with which `bytes` begin, or STOP if they begin with no line, or with a null or `.END.`,
/// which cannot be inserted.
fn line(bytes: &[u8]) -> Line
    ensures { IsTrue (is_inner result) }
{
    match decode(bytes) {
        Ok((line, _)) => inner_line(line),
        Err(_) => Line::Plain(Function::Stop),
    }
}

/// Returns a program line unchanged if it can be inserted into a program, and STOP if it is a null or `.END.`.
fn inner_line(line: Line) -> Line
    ensures { IsTrue (is_inner result) }
{
    match line {
        Line::Null | Line::FinalEnd(_, _) => Line::Plain(Function::Stop),
        _ => line,
    }
}

/// Returns whether a program line is at this position and is `RCL 05` in its short form.
fn is_recall(listed: ListedLine, position: u16) -> bool {
    let recall = Line::Register(RegisterFunction::RecallRegister, ShortRegister::new(5));
    listed.position == position && listed.line == recall
}

/// Returns whether the first program line from `at` on is `RCL 05` at `position`, and `behind` is the position after
/// it, according to both `line_at` and `first_from`.
fn finds_recall(ram: &Ram<320>, at: u16, position: u16, behind: u16) -> bool
    requires { IsTrue (is_sound ram.now.registers) }
{
    match (line_at(ram, at), first_from(ram, at)) {
        (Ok(listed), Some(found)) => {
            listed == found.listed && is_recall(found.listed, position) && found.behind == behind
        }
        _ => false,
    }
}

/// Makes the call of a test step on `ram`, and returns whether its result is the expected one.
fn makes(ram: &mut Ram<320>, step: &Step) -> bool
    requires { IsTrue (is_sound ram.old.registers) }
{
    match step {
        Step::Load(bytes, answer) => load(ram, bytes) == *answer,
        Step::Insert(before, bytes, answer) => insert(ram, *before, line(bytes)) == *answer,
        Step::Replace(at, bytes, answer) => replace(ram, *at, line(bytes)) == *answer,
        Step::Delete(at, answer) => delete(ram, *at) == *answer,
        Step::SetSize(size, answer) => set_size(ram, *size) == *answer,
        Step::Next(at, answer) => next(ram, *at) == *answer,
        Step::StartOf(at, answer) => start_of(ram, *at) == *answer,
        Step::Final(answer) => final_position(ram) == *answer,
        Step::Global(name, answer) => global(ram, name) == *answer,
        Step::Number(at, answer) => line_number(ram, *at) == *answer,
        Step::EndOf(at, answer) => end_of(ram, *at) == *answer,
        Step::Before(at, answer) => line_before(ram, *at) == *answer,
        Step::Open(answer) => is_last_open(ram) == *answer,
        Step::Close(answer) => close_last(ram) == *answer,
        Step::Recall(at, position, behind) => finds_recall(ram, *at, *position, *behind),
        Step::SameLine(at, other) => line_at(ram, *at) == line_at(ram, *other),
        Step::Write(address, digits) => match Reg::from_u64(*digits) {
            Some(register) => {
                ram.write(*address, register);
                true
            }
            None => false,
        },
        Step::Register(address, digits) => ram.read(*address).to_u64() == *digits,
    }
}

/// Names and steps of tests, each of which starts with memory in its initial state.
static ROWS: [(&str, &[Step]); 12] = [
    (
        "two recalls",
        &[
            Step::Load(&[0x90, 0x05, 0x25], Ok(0)),
            Step::Recall(2, 2, 3),
            Step::Next(0, Ok(2)),
            Step::Next(2, Ok(4)),
            Step::Next(4, Ok(4)),
            Step::Register(0x19B, 0x90_0525_00C0_0020),
        ],
    ),
    (
        "one recall",
        &[Step::Load(&[0x25], Ok(0)), Step::Recall(0, 0, 1)],
    ),
    (
        "a worked program, and sizes",
        &[
            Step::Load(
                &[0xC0, 0x00, 0xF2, 0x00, 0x54, 0x11, 0x83, 0x13, 0x43],
                Ok(0),
            ),
            Step::Register(0x19B, 0xC0_00F2_0054_1183),
            Step::Register(0x19A, 0x13_4300_00C0_0020),
            Step::Global(b"T", Some(0)),
            Step::Next(8, Ok(11)),
            Step::SetSize(319, Err(ProgramRefusal::NoRoom)),
            Step::SetSize(320, Err(ProgramRefusal::SizeTooLarge)),
            Step::SetSize(99, Ok(())),
            Step::Register(0x19A, 0),
        ],
    ),
    (
        "numbers parted and joined",
        &[
            Step::Load(&[0x11, 0x00, 0x12, 0x25], Ok(0)),
            Step::SameLine(1, 2),
            Step::Insert(1, &[0x83], Ok(1)),
            Step::Register(0x19B, 0x11_8312_25C0_0020),
            Step::Delete(1, Ok(InFront::Line(0))),
            Step::Register(0x19B, 0x11_0012_25C0_0020),
            Step::Insert(3, &[0x13], Ok(4)),
            Step::Register(0x19B, 0x11_0012_0013_2500),
        ],
    ),
    (
        "programs begin behind an END",
        &[
            Step::Load(&[0x25, 0xC0, 0x00, 0x00, 0x26], Ok(0)),
            Step::StartOf(0, 0),
            Step::StartOf(1, 0),
            Step::StartOf(2, 4),
            Step::StartOf(4, 4),
        ],
    ),
    (
        "lines by their numbers",
        &[
            Step::Load(&[0x25, 0xC0, 0x00, 0x00, 0x26, 0x27], Ok(0)),
            Step::Number(0, Some(1)),
            Step::Number(1, Some(2)),
            Step::Number(2, None),
            Step::Number(4, Some(1)),
            Step::Number(11, Some(3)),
            Step::EndOf(1, Some(1)),
            Step::EndOf(2, Some(11)),
            Step::Final(11),
            Step::Before(4, None),
            Step::Before(5, Some(4)),
            Step::Before(6, None),
        ],
    ),
    (
        "the last program is closed once, and not packed anew",
        &[
            Step::Load(&[0x25, 0x26], Ok(0)),
            Step::Write(0x19B, 0x25_2600_00C0_002D),
            Step::Open(Ok(true)),
            Step::Close(Ok(())),
            Step::Open(Ok(false)),
            Step::Register(0x19B, 0x25_26C0_0000_0000),
            Step::Register(0x19A, 0x00_0000_00C0_0020),
            Step::Write(0x19A, 0x00_0000_00C0_002D),
            Step::Close(Ok(())),
            Step::Register(0x19A, 0x00_0000_00C0_002D),
        ],
    ),
    (
        "packing moves lines, and a deleted line may be its program's first",
        &[
            Step::Load(&[0x25, 0xC0, 0x00, 0x00, 0x26, 0x27], Ok(0)),
            Step::Delete(4, Ok(InFront::Start(4))),
            Step::Delete(1, Ok(InFront::Line(0))),
            Step::Delete(0, Ok(InFront::Start(0))),
            Step::Write(0x19B, 0x00_2526_00C0_0020),
            Step::Insert(2, &[0x83], Ok(1)),
            Step::Replace(2, &[0x90, 0x11], Ok(2)),
            Step::Register(0x19B, 0x25_8390_11C0_0020),
            Step::Delete(4, Ok(InFront::Line(2))),
        ],
    ),
    (
        "positions without a line",
        &[
            Step::Load(&[0x90, 0x05, 0x25], Ok(0)),
            Step::Insert(1, &[0x83], Err(ProgramRefusal::BrokenProgram)),
            Step::Delete(5, Err(ProgramRefusal::BrokenProgram)),
            Step::Register(0x19B, 0x90_0525_00C0_0020),
        ],
    ),
    (
        "bytes that are no line",
        &[
            Step::Load(&[0x25; 8], Ok(0)),
            Step::Write(0x19B, 0x25_0000_AF25_2525),
            Step::Next(0, Ok(1)),
            Step::EndOf(0, None),
            Step::Insert(0, &[0x83], Err(ProgramRefusal::BrokenProgram)),
            Step::Register(0x19B, 0x25_0000_AF25_2525),
        ],
    ),
    (
        "an .END. before the last",
        &[
            Step::Load(&[0x25; 8], Ok(0)),
            Step::Write(0x19B, 0x25_C000_2025_2525),
            Step::Insert(0, &[0x26], Ok(0)),
            Step::Register(0x19B, 0x26_2500_00C0_0020),
            Step::Register(0x19A, 0),
        ],
    ),
    (
        "a replaced line is one change",
        &[
            Step::SetSize(319, Ok(())),
            Step::Load(&[0x25; 4], Ok(0)),
            Step::Insert(0, &[0x26], Err(ProgramRefusal::NoRoom)),
            Step::Replace(0, &[0x26], Ok(0)),
            Step::Register(0x0C0, 0x26_2525_25C0_0020),
        ],
    ),
];

#[test]
fn rows_of_steps(rt: HostRuntime) {
    for (name, steps) in &ROWS {
        let mut ram = Ram::<320>::new();
        for step in *steps {
            assert!(rt; ram.is_sound(), "{name}");
            assert!(rt; makes(&mut ram, step), "{name}");
        }
    }
}
