//! Inserting, replacing and deleting program lines. A position is the number of a byte of program memory, counted from
//! 0.
ghost use Rattle.std.specs.Prelude.{◌≡◌, slice_get, is_ok, IsTrue, IfOk, IfSome, OnOk, OnErr};
ghost use Rattle.h41_codes.specs.ByteGrammar.{IsLine};
ghost use Rattle.h41_ram.specs.RegisterMap.{is_sound};
ghost use Rattle.h41_program.specs.Edits.{Edits, LeavesChanged, Stands, StandsBefore, StandsNew};
ghost use Rattle.h41_program.specs.Edits.{count_before, without_answer};
ghost use Rattle.h41_program.specs.Edits.{position_in_front};
ghost use Rattle.h41_program.specs.Edits.{with_inserted, with_replaced, without_deleted};
ghost use Rattle.h41_program.specs.private.EditSteps.{Counts, IsChange, PacksChanged};
ghost use Rattle.h41_program.specs.private.EditSteps.{lines_of_change};
ghost use Rattle.h41_program.specs.private.EditSteps.{listed_of, new_part};
ghost use Rattle.h41_program.specs.private.EditSteps as spec;
ghost use Rattle.h41_program.specs.Lines.{is_inner};
ghost use Rattle.h41_program.specs.private.Packers.{Puts, line_if};
ghost use Rattle.h41_program.specs.FirstLines.{behind};
ghost use Rattle.h41_program.specs.private.Reading.{AnswersFrom};
ghost use Rattle.h41_program.specs.declared.editing.Change.TheVariants.{Put};
ghost use Rattle.h41_ram.specs.RamState.{KeepsMark, MarksIf};

use crate::kinds::{is_end, is_final_end};
use crate::packer::Packer;
use crate::ranges::know_ranges;
use crate::reading::{Found, first_from};
use crate::refusal::ProgramRefusal;
use h41_codes::Line;
use h41_codes::laws::byte_round_trip;
use h41_ram::Ram;

/// A change of the lines in program memory at one of them.
#[derive(Clone, Copy)]
enum Change {
    /// A line is written before the existing line or instead of it.
    Put(Line, Placement),
    /// The existing line is deleted.
    Delete,
}

/// Whether a new line is inserted before an existing line or replaces it.
#[derive(Clone, Copy)]
enum Placement {
    /// The new line is inserted before the existing line.
    Before,
    /// The new line replaces the existing line.
    Instead,
}

/// What precedes a line that was deleted: the line before it in the same program, or the start of the program.
#[derive(Clone, Copy, Debug, PartialEq, Eq)]
pub enum InFront {
    /// The line before the deleted one in its program is at this position (a byte of program memory, counted from 0).
    Line(u16),
    /// The deleted line was the first of its program, which now begins at this position (a byte of program memory,
    /// counted from 0).
    Start(u16),
}

/// Inserts a line before the line at a position (a byte of program memory, counted from 0), or as the last line if
/// `.END.` is there. Returns the position of the new line, which may differ from `before` because the programs are
/// packed. The line must not be a null or `.END.`. Memory must be sound.
///
/// The errors: BrokenProgram (14) if there is no line at the position or the list of lines does not reach `.END.`,
/// NoRoom (16) if the programs do not fit into main memory. After an error nothing has changed.
pub fn insert<const REGS: usize>(
    ram: &mut Ram<REGS>,
    before: u16,
    line: Line,
) -> Result<u16, ProgramRefusal>
    requires sound { IsTrue (is_sound ram.old.registers) }
    requires inner { IsTrue (is_inner line) }
    ensures lines { Edits ram.old.registers ram.new.registers (with_inserted line) before
        (without_answer result) }
    ensures sound { IsTrue (is_sound ram.new.registers) }
    ensures read { OnOk result (LeavesChanged ram.old.registers (with_inserted line) before
        ram.new.registers) }
    ensures answer { IfOk result (StandsNew ram.old.registers before ram.new.registers) }
    ensures stands { IfOk result (Stands ram.new.registers line) }
    ensures unchanged { OnErr result (ram.new ≡ ram.old) }
    ensures mark { KeepsMark ram.old ram.new }
    ensures marked { MarksIf (is_ok result) ram.old ram.new }
{
    place_line(ram, before, line, Placement::Before)
}

/// Deletes the line at a position (a byte of program memory, counted from 0); `.END.` remains. Returns the position of
/// the line before it or, if the deleted line was the first of its program, the start of that program. Memory must be
/// sound.
///
/// The errors: BrokenProgram (14) if there is no line at the position or the list of lines does not reach `.END.`,
/// NoRoom (16) if the programs do not fit into main memory. After an error nothing has changed.
pub fn delete<const REGS: usize>(ram: &mut Ram<REGS>, at: u16) -> Result<InFront, ProgramRefusal>
    requires { IsTrue (is_sound ram.old.registers) }
    ensures lines { Edits ram.old.registers ram.new.registers without_deleted at
        (without_answer result) }
    ensures sound { IsTrue (is_sound ram.new.registers) }
    ensures read { OnOk result (LeavesChanged ram.old.registers without_deleted at
        ram.new.registers) }
    ensures answer { IfOk result (StandsBefore ram.old.registers at ram.new.registers) }
    ensures unchanged { OnErr result (ram.new ≡ ram.old) }
    ensures mark { KeepsMark ram.old ram.new }
    ensures marked { MarksIf (is_ok result) ram.old ram.new }
{
    byte_round_trip();
    let count = change_at(ram, at, Change::Delete)?;
    Ok(in_front(ram, count))
}

/// Replaces the line at a position (a byte of program memory, counted from 0), or inserts the new line as the last one
/// if `.END.` is there. Returns the position of the new line. The line must not be a null or `.END.`. Because this is
/// one change, only the new lines have to fit. Memory must be sound.
///
/// The errors: BrokenProgram (14) if there is no line at the position or the list of lines does not reach `.END.`,
/// NoRoom (16) if the programs do not fit into main memory. After an error nothing has changed.
pub fn replace<const REGS: usize>(
    ram: &mut Ram<REGS>,
    at: u16,
    line: Line,
) -> Result<u16, ProgramRefusal>
    requires sound { IsTrue (is_sound ram.old.registers) }
    requires inner { IsTrue (is_inner line) }
    ensures lines { Edits ram.old.registers ram.new.registers (with_replaced line) at
        (without_answer result) }
    ensures sound { IsTrue (is_sound ram.new.registers) }
    ensures read { OnOk result (LeavesChanged ram.old.registers (with_replaced line) at
        ram.new.registers) }
    ensures answer { IfOk result (StandsNew ram.old.registers at ram.new.registers) }
    ensures stands { IfOk result (Stands ram.new.registers line) }
    ensures unchanged { OnErr result (ram.new ≡ ram.old) }
    ensures mark { KeepsMark ram.old ram.new }
    ensures marked { MarksIf (is_ok result) ram.old ram.new }
{
    place_line(ram, at, line, Placement::Instead)
}

/// Inserts a line before the line at position `at` of program memory, or replaces that line, and returns the position
/// of the new line. The errors: BrokenProgram (14) if there is no line at the position or the list of lines does not
/// reach `.END.`, NoRoom (16) if the programs do not fit into main memory. After an error nothing has changed.
fn place_line<const REGS: usize>(
    ram: &mut Ram<REGS>,
    at: u16,
    line: Line,
    placement: Placement,
) -> Result<u16, ProgramRefusal>
    requires sound { IsTrue (is_sound ram.old.registers) }
    requires inner { IsTrue (is_inner line) }
    ensures lines { Edits ram.old.registers ram.new.registers (lines_of_change (Put line placement))
        at
        (without_answer result) }
    ensures sound { IsTrue (is_sound ram.new.registers) }
    ensures read { OnOk result (LeavesChanged ram.old.registers
        (lines_of_change (Put line placement)) at
        ram.new.registers) }
    ensures answer { IfOk result (StandsNew ram.old.registers at ram.new.registers) }
    ensures stands { IfOk result (Stands ram.new.registers line) }
    ensures unchanged { OnErr result (ram.new ≡ ram.old) }
    ensures mark { KeepsMark ram.old ram.new }
    ensures marked { MarksIf (is_ok result) ram.old ram.new }
{
    byte_round_trip();
    know_ranges(&line);
    let count = change_at(ram, at, Change::Put(line, placement))?;
    let new = line_behind(ram, count).unwrap().listed;
    Ok(new.position)
}

/// Inserts, replaces or deletes a line at position `at` of program memory, and returns how many lines of memory precede
/// the line that is there. The errors: BrokenProgram (14) if there is no line at the position or the list of lines does
/// not reach `.END.`, NoRoom (16) if the programs do not fit into main memory. After an error nothing has changed.
fn change_at<const REGS: usize>(
    ram: &mut Ram<REGS>,
    at: u16,
    change: Change,
) -> Result<u16, ProgramRefusal>
    requires sound { IsTrue (is_sound ram.old.registers) }
    requires change { IsChange change }
    ensures lines { Edits ram.old.registers ram.new.registers (lines_of_change change) at
        (without_answer result) }
    ensures sound { IsTrue (is_sound ram.new.registers) }
    ensures count { IfOk result (Counts ram.old.registers at) }
    ensures unchanged { OnErr result (ram.new ≡ ram.old) }
    ensures mark { KeepsMark ram.old ram.new }
    ensures marked { MarksIf (is_ok result) ram.old ram.new }
{
    let Some(found) = first_from(ram, at) else {
        return Err(ProgramRefusal::BrokenProgram);
    };
    let place = found.listed.position;
    let count = lines_before(ram, place);
    packed_changed(ram, place, &change)?.write(ram)?;
    Ok(count)
}

/// Returns how many lines, counted from the start of program memory, have their first byte before the position `place`.
fn lines_before<const REGS: usize>(ram: &Ram<REGS>, place: u16) -> u16
    requires { IsTrue (is_sound ram.now.registers) }
    ensures { AnswersFrom (count_before place) ram.now.registers 0 result }
{
    let mut count = 0;
    let mut at = 0;
    while let Some(found) = first_from(ram, at) {
        let Found { listed, behind } = found;
        if listed.position >= place {
            return count;
        }
        count += 1;
        if is_final_end(listed.line) {
            return count;
        }
        at = behind;
    }
    count
}

/// Returns the line that has `count` lines before it, counted from the start of program memory, and the position of the
/// byte after it. `None` if there is no such line.
fn line_behind<const REGS: usize>(ram: &Ram<REGS>, count: u16) -> Option<Found>
    requires { IsTrue (is_sound ram.now.registers) }
    ensures line { AnswersFrom (λ lines. slice_get lines count) ram.now.registers 0
        (listed_of result) }
    ensures behind { IfSome result (λ found. found.behind ≡ behind found.listed) }
{
    let mut left = count;
    let mut at = 0;
    while let Some(found) = first_from(ram, at) {
        let Found { listed, behind } = found;
        if left == 0 {
            return Some(found);
        }
        if is_final_end(listed.line) {
            return None;
        }
        left -= 1;
        at = behind;
    }
    None
}

/// Returns what precedes the line that has `count` lines before it, counted from the start of program memory: the line
/// before it if both are in the same program, otherwise the start of its program.
fn in_front<const REGS: usize>(ram: &Ram<REGS>, count: u16) -> InFront
    requires { IsTrue (is_sound ram.now.registers) }
    ensures { AnswersFrom (position_in_front count) ram.now.registers 0 result }
{
    if count == 0 {
        return InFront::Start(0);
    }
    match line_behind(ram, count - 1) {
        Some(found) if is_end(&found.listed.line) => InFront::Start(found.behind),
        Some(found) => InFront::Line(found.listed.position),
        None => InFront::Start(0),
    }
}

/// Returns the lines of memory before `.END.`, packed, with a change at the line whose first byte is at position
/// `place`. BrokenProgram (14) if no line begins there or if the list of lines does not reach `.END.`.
fn packed_changed<const REGS: usize>(
    ram: &Ram<REGS>,
    place: u16,
    change: &Change,
) -> Result<Packer, ProgramRefusal>
    requires sound { IsTrue (is_sound ram.now.registers) }
    requires change { IsChange change.now }
    ensures { PacksChanged ram.now.registers (lines_of_change change.now place) place result }
{
    let mut packer = Packer::new();
    let mut met = false;
    let mut at = 0;
    while let Some(found) = first_from(ram, at) {
        let Found { listed, behind } = found;
        let here = listed.position == place;
        met |= here;
        put_new(&mut packer, change, here);
        if is_final_end(listed.line) {
            return if met {
                Ok(packer)
            } else {
                Err(ProgramRefusal::BrokenProgram)
            };
        }
        put_if(&mut packer, &listed.line, is_kept(change, here));
        at = behind;
    }
    Err(ProgramRefusal::BrokenProgram)
}

/// Appends a line to the packed lines if `wanted` is true.
fn put_if(packer: &mut Packer, line: &Line, wanted: bool)
    requires { IsLine line.now }
    ensures { Puts packer.old packer.new (line_if wanted line.now) }
{
    if wanted {
        packer.put(*line);
    }
}

/// Appends the new line of an insertion or a replacement to the packed lines if `here` is true, that is, if they have
/// reached the line that is changed. A deletion has no new line.
fn put_new(packer: &mut Packer, change: &Change, here: bool)
    requires { IsChange change.now }
    ensures { Puts packer.old packer.new (new_part here change.now) }
{
    match change {
        Change::Put(line, _) => put_if(packer, line, here),
        Change::Delete => {}
    }
}

/// Returns whether an existing line remains after a change. `here` says whether it is the line that is changed; that
/// line only remains if another one is inserted before it.
fn is_kept(change: &Change, here: bool) -> bool
    ensures { result ≡ spec.is_kept here change.now }
{
    match change {
        Change::Put(_, Placement::Before) => true,
        Change::Put(_, Placement::Instead) | Change::Delete => !here,
    }
}
