//! What the keyboard has to know about the program line at the position.

ghost use Rattle.std.specs.Prelude.{◌≡◌};
ghost use Rattle.h41_positions.specs.LabelledMachine.{machine_of};
ghost use Rattle.h41_xrom.specs.KeyActions.{IsPlace};
ghost use Rattle.h41_xrom.specs.private.PrivateCalls.{IsFinalAt, PutsEnd};

use h41_focal::Machine;
use h41_keys::Place;
use h41_pages::Pages;
use h41_positions::{Position, line_in_page};
use h41_program::{is_final_end, is_last_open};
use h41_ram::Ram;

/// Returns whether the program line at the position is in memory or in a page. For a page, the result also says whether
/// deleting the line would change nothing, and whether `GTO . .` would put an END into memory.
pub fn shown_place<const REGS: usize>(machine: &Machine<REGS>, pages: &Pages) -> Place
    ensures { IsPlace pages.now (machine_of machine.now)
        (machine_of machine.now).focal.position result }
{
    match machine.focal.position {
        Position::Memory(_) => Place::Memory,
        Position::Page(address) => {
            let is_final = is_final_at(&machine.ram, pages, address);
            Place::Page {
                deletes_nothing: machine.focal.is_at_line_00 || is_final,
                puts_end: puts_end(&machine.ram),
            }
        }
    }
}

/// Returns whether the line at an address of a page is `.END.`. The result is false if memory is not sound.
fn is_final_at<const REGS: usize>(ram: &Ram<REGS>, pages: &Pages, address: u16) -> bool
    ensures { IsFinalAt pages.now ram.now.registers address result }
{
    let Ok(first) = line_in_page(pages, address) else {
        return false;
    };
    ram.is_sound() && is_final_end(first.line)
}

/// Returns whether `GTO . .` would put an END into memory: whether the last program has lines and no END of its own.
/// The result is false if memory is not sound, or if its list of lines does not reach `.END.`.
fn puts_end<const REGS: usize>(ram: &Ram<REGS>) -> bool
    ensures { PutsEnd ram.now.registers result }
{
    if !ram.is_sound() {
        return false;
    }
    match is_last_open(ram) {
        Ok(open) => open,
        Err(_) => false,
    }
}
