//! The program line at the calculator's position, with its number in its program.
ghost use Rattle.std.specs.Prelude.{IsTrue};
ghost use Rattle.h41_editor.specs.NumberedLines.{HasNumbered};
ghost use Rattle.h41_ram.specs.RegisterMap.{is_sound};

use h41_pages::Pages;
use h41_positions::{Focal, PlacedLine, line_at, line_number};
use h41_ram::Ram;

/// A program line with its position and its number in its program.
#[derive(Clone, Copy, Debug, PartialEq, Eq)]
pub struct NumberedLine {
    /// The program line and its position in memory or in a page.
    pub placed: PlacedLine,
    /// The number of the line in its program, from 1 on.
    pub number: u16,
}

/// Returns the program line at the calculator's position, which is the first line from there on, with its number in its
/// program. `None` if no line can be read there, or if its program has no line there, for example because the position
/// is inside another line.
pub fn numbered_line<const REGS: usize>(
    ram: &Ram<REGS>,
    pages: &Pages,
    focal: &Focal,
) -> Option<NumberedLine>
    requires { IsTrue (is_sound ram.now.registers) }
    ensures { HasNumbered pages.now ram.now.registers focal.now.state.position result }
{
    match line_at(ram, pages, focal.position) {
        Ok(placed) => {
            let number = line_number(ram, pages, placed.position)?;
            Some(NumberedLine { placed, number })
        }
        Err(_) => None,
    }
}
