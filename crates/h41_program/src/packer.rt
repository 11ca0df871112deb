//! Packing program lines one after another, without nulls between them, except to separate two numbers.
ghost use Rattle.std.specs.Prelude.{◌≡◌, ◌+◌, ◌∷◌, [], ◌≤◌, List, length, IsTrue, not, false};
ghost use Rattle.std.specs.Prelude.{is_ok, OnErr};
ghost use Rattle.std.specs.Option.{option_map_or};
ghost use Rattle.h41_program.specs.Lines.{is_number, is_end};
ghost use Rattle.h41_codes.specs.ByteGrammar.{spelling, IsLine};
ghost use Rattle.h41_codes.specs.declared.line.Line.{Line as Spoken};
ghost use Rattle.h41_program.specs.Edits.{with_last_end};
ghost use Rattle.h41_program.specs.private.EditSteps.{Writes};
ghost use Rattle.h41_ram.specs.RegisterMap.{curtain_of, is_sound, main_start};
ghost use Rattle.h41_program.specs.private.Packers.{Packs, Pushes, Puts, null_between};
ghost use Rattle.h41_program.specs.Packing.{filled_up};
ghost use Rattle.h41_ram.specs.RamState.{KeepsMark, MarksIf};

use crate::kinds::{is_end, is_number};
use crate::refusal::ProgramRefusal;
use crate::rewriting::rewrite;
use arrayvec::ArrayVec;
use h41_codes::{EndMarks, Line, Link, encode};
use h41_ram::{MAIN_START, Ram};

/// The most bytes of lines, 2237. Together with the three bytes of `.END.` they fill the largest memory, which has 320
/// registers.
const MOST: usize = 2237;

/// The bytes of the lines that fit into memory, and of `.END.`: at most 2240.
pub type Bytes = ArrayVec<u8, 2240>;

/// Program lines one after another, as program memory stores them: without nulls, except between two numbers.
#[derive(Drop)]
pub struct Packer {
    /// The bytes of the appended lines, in their order. If `full` is true, the bytes of the lines that did not fit are
    /// missing.
    pub bytes: Bytes,
    /// Whether the lines have more than 2237 bytes.
    pub full: bool,
    /// The last line that was appended, or `None` if there are none.
    pub last: Option<Line>,
}

impl Packer {
    /// Returns a packer to which no line has been appended yet.
    pub fn new() -> Self
        ensures { Packs result [] }
    {
        Packer {
            bytes: Bytes::new(),
            full: false,
            last: None,
        }
    }

    /// Appends a line to the packed lines. If it is a number after a number, a null separates them.
    pub fn put(&mut self, line: Line)
        requires { IsLine line }
        ensures { Puts self.old self.new (line ∷ []) }
    {
        self.part(is_number(line));
        self.push_line(&line);
        self.last = Some(line);
    }

    /// Appends a null if the last packed line is a number and the line that follows is one, too. `number` says whether
    /// the line that follows is a number.
    fn part(&mut self, number: bool)
        ensures { Pushes self.old self.new (null_between number self.old.last) }
    {
        if number && self.ends_with_number() {
            self.push(&[0x00]);
        }
    }

    /// Appends an END to the packed lines if there are any and the last is no END.
    pub fn close(&mut self)
        ensures { (lines : List Spoken) → Packs self.old lines
            → Packs self.new (with_last_end lines) }
    {
        if self.is_open() {
            self.put(Line::End(Link::new(0), EndMarks::new(0)));
        }
    }

    /// Writes the packed lines into program memory in place of the programs there, followed by nulls that fill the
    /// register and by `.END.`. NoRoom (16) if they do not fit into main memory; nothing changes then. Memory must be
    /// sound.
    pub fn write<const REGS: usize>(self, ram: &mut Ram<REGS>) -> Result<(), ProgramRefusal>
        requires { IsTrue (is_sound ram.old.registers) }
        ensures lines { Writes self ram.old.registers ram.new.registers result }
        ensures small { curtain_of ram.old.registers ≤ main_start + 320 }
        ensures unchanged { OnErr result (ram.new ≡ ram.old) }
        ensures mark { KeepsMark ram.old ram.new }
        ensures marked { MarksIf (is_ok result) ram.old ram.new }
    {
        let Packer { bytes, full, .. } = self;
        let curtain = ram.curtain();
        let room = usize::from(curtain) - MAIN_START;
        if full || bytes.len() + 3 > 7 * room {
            return Err(ProgramRefusal::NoRoom);
        }
        let program = filled(bytes);
        let registers = program.len() / 7;
        rewrite(ram, program.as_slice(), curtain - registers as u16);
        Ok(())
    }

    /// Returns whether there are packed lines and the last is a number.
    fn ends_with_number(&self) -> bool
        ensures { result ≡ option_map_or is_number self.now.last false }
    {
        match self.last {
            Some(line) => is_number(line),
            None => false,
        }
    }

    /// Returns whether there are packed lines and the last is no END.
    pub fn is_open(&self) -> bool
        ensures { result ≡ option_map_or (λ line. not (is_end line)) self.now.last false }
    {
        match &self.last {
            Some(line) => !is_end(line),
            None => false,
        }
    }

    /// Appends the encoded bytes of a line to those of the packed lines if there are then at most 2237, and `full` is
    /// not set. Otherwise sets `full` and appends nothing.
    fn push_line(&mut self, line: &Line)
        requires { IsLine line.now }
        ensures { Pushes self.old self.new (spelling line.now) }
    {
        let mut out = [0; 18];
        let count = encode(*line, &mut out).unwrap_or(0);
        self.push(&out[..count]);
    }

    /// Appends bytes to those of the packed lines if there are then at most 2237, and `full` is not set. Otherwise sets
    /// `full` and appends nothing.
    fn push(&mut self, more: &[u8])
        ensures { Pushes self.old self.new more.now }
    {
        if self.full || more.len() > MOST.saturating_sub(self.bytes.len()) {
            self.full = true;
            return;
        }
        for byte in more {
            self.bytes.push(*byte);
        }
    }
}

/// Returns the bytes of lines, at most 2237, followed by at most six nulls and by `.END.` (C0 00 20). Together they
/// fill whole registers of seven bytes.
fn filled(lines: Bytes) -> Bytes
    requires { length lines.items ≤ 2237 }
    ensures { result.items ≡ filled_up lines.items }
{
    let mut bytes = lines;
    let nulls = 6 - (bytes.len() + 2) % 7;
    for _null in 0..nulls {
        bytes.push(0x00);
    }
    bytes.push(0xC0);
    bytes.push(0x00);
    bytes.push(0x20);
    bytes
}
