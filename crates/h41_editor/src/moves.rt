//! The effect of SST, BST and `GTO . .` in program mode.
ghost use Rattle.std.specs.Prelude.{◌≡◌, is_ok, IsTrue, Ok, OnErr};
ghost use Rattle.h41_editor.specs.Moves.{GoesToEnd, ShowsBefore, ShowsEnd, ShowsNext, ShowsStart};
ghost use Rattle.h41_editor.specs.Moves.{made_as};
ghost use Rattle.h41_editor.specs.Moves as spec;
ghost use Rattle.h41_positions.specs.FocalState.{machine_with};
ghost use Rattle.h41_program.specs.LastProgram.{MarksClosing};
ghost use Rattle.h41_ram.specs.RamState.{KeepsMark};
ghost use Rattle.h41_ram.specs.RegisterMap.{is_sound};

use crate::numbered::numbered_line;
use h41_pages::Pages;
use h41_positions::{Focal, PlacedLine, Position, end_of, line_at, line_before, next, start_of};
use h41_program::laws::lists_are_determined;
use h41_program::{ProgramRefusal, close_last, final_position, is_end, is_final_end, is_last_open};
use h41_ram::Ram;

/// Moves to the next program line, as `SST` does in program mode: from line 00 to the line at the calculator's
/// position, and from the last line of a program to its line 00. BrokenProgram (14) if no line can be read at the
/// position; nothing changes then. The rules are in docs/KEYBOARD.md.
pub fn show_next<const REGS: usize>(
    ram: &Ram<REGS>,
    pages: &Pages,
    focal: &mut Focal,
) -> Result<(), ProgramRefusal>
    requires { IsTrue (is_sound ram.now.registers) }
    ensures line { ShowsNext pages.now (machine_with ram.now.registers focal.old.state)
        (made_as (machine_with ram.now.registers focal.new.state) result) }
    ensures unchanged { OnErr result (focal.new ≡ focal.old) }
    ensures labels { focal.new.labels ≡ focal.old.labels }
{
    let position = focal.position;
    if focal.is_at_line_00 {
        focal.go_to(position);
        return Ok(());
    }
    if is_last(&line_at(ram, pages, position)?) {
        show_start(ram, pages, focal);
    } else {
        let following = next(ram, pages, position)?;
        focal.go_to(following);
    }
    Ok(())
}

/// Moves to the program line before, as `BST` does in program mode: from the first line to line 00, and from line 00 to
/// the program's END or `.END.`. BrokenProgram (14) if the program has no line at the calculator's position, or from
/// line 00 if it has no end; nothing changes then. The rules are in docs/KEYBOARD.md.
pub fn show_before<const REGS: usize>(
    ram: &Ram<REGS>,
    pages: &Pages,
    focal: &mut Focal,
) -> Result<(), ProgramRefusal>
    requires { IsTrue (is_sound ram.now.registers) }
    ensures line { ShowsBefore pages.now (machine_with ram.now.registers focal.old.state)
        (made_as (machine_with ram.now.registers focal.new.state) result) }
    ensures unchanged { OnErr result (focal.new ≡ focal.old) }
    ensures labels { focal.new.labels ≡ focal.old.labels }
{
    let shown = match numbered_line(ram, pages, focal) {
        Some(shown) => shown.placed,
        None => return Err(ProgramRefusal::BrokenProgram),
    };
    if focal.is_at_line_00 {
        return show_end(ram, pages, focal, &shown);
    }
    match line_before(ram, pages, shown.position) {
        Some(before) => focal.go_to(before),
        None => show_start(ram, pages, focal),
    }
    Ok(())
}

/// Moves to line 00 of the last program in memory, as `GTO . .` does. If the last program has lines but no END, an END
/// is appended first, and all return addresses are cleared. BrokenProgram (14) if the list of lines of program memory
/// does not reach `.END.`; NoRoom (16) if memory has no room for the END. A refusal changes neither programs nor
/// position.
pub fn go_to_end<const REGS: usize>(
    ram: &mut Ram<REGS>,
    focal: &mut Focal,
) -> Result<(), ProgramRefusal>
    requires { IsTrue (is_sound ram.old.registers) }
    ensures line { GoesToEnd (machine_with ram.old.registers focal.old.state)
        (made_as (machine_with ram.new.registers focal.new.state) result) }
    ensures unchanged { OnErr result (machine_with ram.new.registers focal.new.state
        ≡ machine_with ram.old.registers focal.old.state) }
    ensures sound { IsTrue (is_sound ram.new.registers) }
    ensures mark { KeepsMark ram.old ram.new }
    ensures marked { MarksClosing (is_ok result) ram.old ram.new }
    ensures labels { focal.new.labels ≡ focal.old.labels }
{
    lists_are_determined();
    let open = is_last_open(ram).unwrap_or(false);
    close_last(ram)?;
    let start = Position::Memory(h41_program::start_of(ram, final_position(ram)));
    if open {
        focal.halt_at(start);
    } else {
        focal.go_to_line_00(start);
    }
    Ok(())
}

/// Returns whether a program line is the last of its program: an END or `.END.`.
pub fn is_last(placed: &PlacedLine) -> bool
    ensures { result ≡ spec.is_last placed.now }
{
    is_end(&placed.line) || is_final_end(placed.line)
}

/// Moves the calculator to line 00 of the program that contains its position.
fn show_start<const REGS: usize>(ram: &Ram<REGS>, pages: &Pages, focal: &mut Focal)
    requires { IsTrue (is_sound ram.now.registers) }
    ensures done { ShowsStart pages.now (machine_with ram.now.registers focal.old.state)
        (Ok (machine_with ram.now.registers focal.new.state)) }
    ensures labels { focal.new.labels ≡ focal.old.labels }
{
    let start = start_of(ram, pages, focal.position);
    focal.go_to_line_00(start);
}

/// Moves the calculator to the END or `.END.` of the program that contains the shown line. BrokenProgram (14) if the
/// program has no end; nothing changes then.
fn show_end<const REGS: usize>(
    ram: &Ram<REGS>,
    pages: &Pages,
    focal: &mut Focal,
    shown: &PlacedLine,
) -> Result<(), ProgramRefusal>
    requires { IsTrue (is_sound ram.now.registers) }
    ensures line { ShowsEnd pages.now (machine_with ram.now.registers focal.old.state) shown.now
        (made_as (machine_with ram.now.registers focal.new.state) result) }
    ensures unchanged { OnErr result (focal.new ≡ focal.old) }
    ensures labels { focal.new.labels ≡ focal.old.labels }
{
    match end_of(ram, pages, shown.position) {
        Some(end) => {
            focal.go_to(end);
            Ok(())
        }
        None => Err(ProgramRefusal::BrokenProgram),
    }
}
