//! Inserts, replaces and deletes program lines in program mode.
ghost use Rattle.std.specs.Prelude.{◌≡◌, is_ok, IfErr, IfOk, IsTrue, OnErr};
ghost use Rattle.h41_editor.specs.Changes.{Deletes, Inserts, InsertsAt, MarksDeletion, Replaces};
ghost use Rattle.h41_editor.specs.Changes.{with_line_shown};
ghost use Rattle.h41_editor.specs.Moves.{made_as};
ghost use Rattle.h41_editor.specs.private.Placing.{HasNoNext};
ghost use Rattle.h41_positions.specs.FocalState.{machine_with};
ghost use Rattle.h41_positions.specs.declared.position.Position.TheVariants.{Memory};
ghost use Rattle.h41_program.specs.Lines.{is_inner};
ghost use Rattle.h41_ram.specs.RamState.{KeepsMark, MarksIf};
ghost use Rattle.h41_ram.specs.RegisterMap.{is_sound};

use crate::moves::is_last;
use crate::numbered::numbered_line;
use h41_codes::Line;
use h41_pages::Pages;
use h41_positions::laws::positions_are_read;
use h41_positions::{Focal, PlacedLine, Position, line_at, next, start_of};
use h41_program::{InFront, ProgramRefusal, delete, insert, is_final_end, replace};
use h41_ram::Ram;

/// Inserts a line after the shown line, and shows the new one. If an END or `.END.` is shown, the line is inserted
/// before it; at line 00 it becomes the first line of the program. All return addresses are cleared. The line must not
/// be a null or `.END.`.
///
/// BrokenProgram (14) if the program has no line at the calculator's position, if the list of lines of program memory
/// does not reach `.END.`, or if the position is in a page; NoRoom (16) if memory has no room for the line. A refusal
/// changes neither programs nor position. The rules are in docs/KEYBOARD.md.
pub fn insert_line<const REGS: usize>(
    ram: &mut Ram<REGS>,
    pages: &Pages,
    focal: &mut Focal,
    line: Line,
) -> Result<(), ProgramRefusal>
    requires sound { IsTrue (is_sound ram.old.registers) }
    requires inner { IsTrue (is_inner line) }
    ensures line { Inserts pages.now line (machine_with ram.old.registers focal.old.state)
        (made_as (machine_with ram.new.registers focal.new.state) result) }
    ensures unchanged { OnErr result (machine_with ram.new.registers focal.new.state
        ≡ machine_with ram.old.registers focal.old.state) }
    ensures sound { IsTrue (is_sound ram.new.registers) }
    ensures mark { KeepsMark ram.old ram.new }
    ensures marked { MarksIf (is_ok result) ram.old ram.new }
    ensures labels { focal.new.labels ≡ focal.old.labels }
{
    positions_are_read();
    let before = match numbered_line(ram, pages, focal) {
        Some(shown) => place_for_line(ram, pages, focal, &shown.placed)?,
        None => return Err(ProgramRefusal::BrokenProgram),
    };
    match before {
        Position::Memory(before) => {
            let byte = insert(ram, before, line)?;
            show_line(focal, byte);
            Ok(())
        }
        Position::Page(_) => Err(ProgramRefusal::BrokenProgram),
    }
}

/// Returns the position before which `insert_line` inserts a line: the start of the program at line 00, the position of
/// the shown line if this is an END or `.END.`, and the position of the next line otherwise. BrokenProgram (14) if no
/// line can be read at the calculator's position.
fn place_for_line<const REGS: usize>(
    ram: &Ram<REGS>,
    pages: &Pages,
    focal: &Focal,
    shown: &PlacedLine,
) -> Result<Position, ProgramRefusal>
    requires { IsTrue (is_sound ram.now.registers) }
    ensures place { IfOk result
        (InsertsAt pages.now (machine_with ram.now.registers focal.now.state) shown.now) }
    ensures none { IfErr result
        (HasNoNext pages.now (machine_with ram.now.registers focal.now.state)) }
{
    if focal.is_at_line_00 {
        Ok(start_of(ram, pages, focal.position))
    } else if is_last(shown) {
        Ok(shown.position)
    } else {
        next(ram, pages, focal.position)
    }
}

/// Replaces the shown line by another one, and shows it. All return addresses are cleared. The line must not be a null
/// or `.END.`.
///
/// BrokenProgram (14) if the list of lines of program memory has no line at the calculator's position or does not reach
/// `.END.`, or if the position is in a page; NoRoom (16) if memory has no room for the line. A refusal changes neither
/// programs nor position.
pub fn replace_line<const REGS: usize>(
    ram: &mut Ram<REGS>,
    focal: &mut Focal,
    line: Line,
) -> Result<(), ProgramRefusal>
    requires sound { IsTrue (is_sound ram.old.registers) }
    requires inner { IsTrue (is_inner line) }
    ensures line { Replaces line (machine_with ram.old.registers focal.old.state)
        (made_as (machine_with ram.new.registers focal.new.state) result) }
    ensures unchanged { OnErr result (machine_with ram.new.registers focal.new.state
        ≡ machine_with ram.old.registers focal.old.state) }
    ensures sound { IsTrue (is_sound ram.new.registers) }
    ensures mark { KeepsMark ram.old ram.new }
    ensures marked { MarksIf (is_ok result) ram.old ram.new }
    ensures labels { focal.new.labels ≡ focal.old.labels }
{
    match focal.position {
        Position::Memory(at) => {
            let byte = replace(ram, at, line)?;
            show_line(focal, byte);
            Ok(())
        }
        Position::Page(_) => Err(ProgramRefusal::BrokenProgram),
    }
}

/// Deletes the shown line, and shows the line before it, or line 00 if it was the first line of its program. All return
/// addresses are cleared. At line 00 and at `.END.` nothing changes.
///
/// BrokenProgram (14) if no line can be read at the calculator's position, if the list of lines of program memory has
/// none there or does not reach `.END.`, and at any line of a page except `.END.`; NoRoom (16) if memory has no room. A
/// refusal changes neither programs nor position. The rules are in docs/KEYBOARD.md.
pub fn delete_line<const REGS: usize>(
    ram: &mut Ram<REGS>,
    pages: &Pages,
    focal: &mut Focal,
) -> Result<(), ProgramRefusal>
    requires { IsTrue (is_sound ram.old.registers) }
    ensures line { Deletes pages.now (machine_with ram.old.registers focal.old.state)
        (made_as (machine_with ram.new.registers focal.new.state) result) }
    ensures unchanged { OnErr result (machine_with ram.new.registers focal.new.state
        ≡ machine_with ram.old.registers focal.old.state) }
    ensures sound { IsTrue (is_sound ram.new.registers) }
    ensures mark { KeepsMark ram.old ram.new }
    ensures marked { MarksDeletion (is_ok result) pages.now
        (machine_with ram.old.registers focal.old.state) ram.old ram.new }
    ensures labels { focal.new.labels ≡ focal.old.labels }
{
    let position = focal.position;
    if focal.is_at_line_00 || is_final_end(line_at(ram, pages, position)?.line) {
        return Ok(());
    }
    match position {
        Position::Memory(at) => {
            match delete(ram, at)? {
                InFront::Line(byte) => show_line(focal, byte),
                InFront::Start(start) => focal.halt_at(Position::Memory(start)),
            }
            Ok(())
        }
        Position::Page(_) => Err(ProgramRefusal::BrokenProgram),
    }
}

/// Moves the calculator to the program line at position `byte` of program memory, and clears all return addresses.
fn show_line(focal: &mut Focal, byte: u16)
    ensures state { focal.new.state ≡ with_line_shown (Memory byte) focal.old.state }
    ensures labels { focal.new.labels ≡ focal.old.labels }
{
    focal.go_to(Position::Memory(byte));
    focal.returns.clear();
}
