//! Loading programs after those in memory.
ghost use Rattle.std.specs.Prelude.{◌≡◌, ◌≤◌, is_ok, IsTrue, IfOk, OnOk, OnErr};
ghost use Rattle.std.specs.Option.{ForSome};
ghost use Rattle.h41_codes.specs.ByteGrammar.{IsLine};
ghost use Rattle.h41_ram.specs.RegisterMap.{is_sound};
ghost use Rattle.h41_program.specs.Edits.{Closes, Loads};
ghost use Rattle.h41_program.specs.LastProgram.{LeavesClosed, MarksClosing, open_in};
ghost use Rattle.h41_program.specs.private.LoadSteps.{PacksProgram, PutsLoaded};
ghost use Rattle.h41_program.specs.private.LoadSteps.{listed_option, kept_option};
ghost use Rattle.h41_program.specs.private.Packers.{Puts};
ghost use Rattle.h41_program.specs.ProgramLines.{AnswersOf};
ghost use Rattle.h41_ram.specs.RamState.{KeepsMark, MarksIf};

use crate::given::{are_nulls, line_in};
use crate::kinds::{is_end, is_final_end};
use crate::laws::changes_are_read;
use crate::packer::Packer;
use crate::reading::{Found, first_from};
use crate::refusal::ProgramRefusal;
use h41_codes::Line;
use h41_ram::Ram;

/// Loads the program lines in bytes after the programs in memory, and returns the position of the first loaded line (a
/// byte of program memory, counted from 0), at most 2237. If the last program in memory has lines but no END, an END is
/// appended to it first. A final END or `.END.` of the bytes is dropped, and nulls are skipped (this project's choice).
/// Memory must be sound.
///
/// The errors: BrokenProgram (14) if bytes of memory or given bytes are no line, or if an `.END.` is not at the end of
/// the given bytes; NoRoom (16) if the programs do not fit into main memory. After an error nothing has changed.
pub fn load<const REGS: usize>(ram: &mut Ram<REGS>, bytes: &[u8]) -> Result<u16, ProgramRefusal>
    requires { IsTrue (is_sound ram.old.registers) }
    ensures lines { Loads ram.old.registers ram.new.registers bytes.now result }
    ensures bound { IfOk result (λ start. start ≤ 2237) }
    ensures sound { IsTrue (is_sound ram.new.registers) }
    ensures unchanged { OnErr result (ram.new ≡ ram.old) }
    ensures mark { KeepsMark ram.old ram.new }
    ensures marked { MarksIf (is_ok result) ram.old ram.new }
{
    let mut packer = packed_program(ram)?;
    packer.close();
    let start = packer.bytes.len() as u16;
    put_loaded(&mut packer, bytes)?;
    packer.write(ram)?;
    Ok(start)
}

/// Returns whether the last program in memory has lines but no END. BrokenProgram (14) if the list of lines does not reach `.END.`. Memory
/// must be sound.
pub fn is_last_open<const REGS: usize>(ram: &Ram<REGS>) -> Result<bool, ProgramRefusal>
    requires { IsTrue (is_sound ram.now.registers) }
    ensures { AnswersOf open_in ram.now.registers 0 result }
{
    match packed_program(ram) {
        Ok(packer) => Ok(packer.is_open()),
        Err(refusal) => Err(refusal),
    }
}

/// Appends an END to the last program in memory if it has lines but no END. Otherwise nothing changes, and the programs
/// are not packed. Memory must be sound.
///
/// The errors: BrokenProgram (14) if the list of lines does not reach `.END.`, NoRoom (16) if the programs do not fit
/// into main memory. After an error nothing has changed.
pub fn close_last<const REGS: usize>(ram: &mut Ram<REGS>) -> Result<(), ProgramRefusal>
    requires { IsTrue (is_sound ram.old.registers) }
    ensures lines { Closes ram.old.registers ram.new.registers result }
    ensures sound { IsTrue (is_sound ram.new.registers) }
    ensures read { OnOk result (LeavesClosed ram.old.registers ram.new.registers) }
    ensures unchanged { OnErr result (ram.new ≡ ram.old) }
    ensures mark { KeepsMark ram.old ram.new }
    ensures marked { MarksClosing (is_ok result) ram.old ram.new }
{
    changes_are_read();
    let mut packer = packed_program(ram)?;
    if !packer.is_open() {
        return Ok(());
    }
    packer.close();
    packer.write(ram)
}

/// Returns the lines of memory before `.END.`, packed one after another. BrokenProgram (14) if the list of lines does
/// not reach `.END.`.
pub fn packed_program<const REGS: usize>(ram: &Ram<REGS>) -> Result<Packer, ProgramRefusal>
    requires { IsTrue (is_sound ram.now.registers) }
    ensures { PacksProgram ram.now.registers result }
{
    let mut packer = Packer::new();
    let mut at = 0;
    while let Some(found) = first_from(ram, at) {
        let Found { listed, behind } = found;
        if is_final_end(listed.line) {
            return Ok(packer);
        }
        packer.put(listed.line);
        at = behind;
    }
    Err(ProgramRefusal::BrokenProgram)
}

/// Appends the program lines in bytes to the packed lines, without a final END or `.END.` and without nulls.
/// BrokenProgram (14) if bytes are no line, or if an `.END.` is not at the end.
fn put_loaded(packer: &mut Packer, bytes: &[u8]) -> Result<(), ProgramRefusal>
    ensures { PutsLoaded packer.old packer.new bytes.now result }
{
    let mut pending: Option<Line> = None;
    let mut at = 0;
    while let Some(taken) = line_in(bytes, at) {
        put_pending(packer, pending);
        at = taken.behind;
        if is_final_end(taken.line) {
            return if are_nulls(&bytes[at..]) {
                Ok(())
            } else {
                Err(ProgramRefusal::BrokenProgram)
            };
        }
        pending = Some(taken.line);
    }
    if !are_nulls(&bytes[at..]) {
        return Err(ProgramRefusal::BrokenProgram);
    }
    put_last(packer, pending);
    Ok(())
}

/// Appends a line to the packed lines, if there is one. The line is pending because it was read from bytes, and another
/// line or `.END.` follows it.
fn put_pending(packer: &mut Packer, pending: Option<Line>)
    requires { ForSome pending IsLine }
    ensures { Puts packer.old packer.new (listed_option pending) }
{
    if let Some(line) = pending {
        packer.put(line);
    }
}

/// Appends the last line that was read from bytes, if there is one, to the packed lines, unless it is an END.
fn put_last(packer: &mut Packer, pending: Option<Line>)
    requires { ForSome pending IsLine }
    ensures { Puts packer.old packer.new (kept_option pending) }
{
    if let Some(line) = pending {
        if !is_end(&line) {
            packer.put(line);
        }
    }
}
