//! The line at a position, and the program, labels and lines that are found from there, in program memory and in pages.

ghost use Rattle.std.specs.Prelude.{◌≡◌, ◌<◌, IsTrue};
ghost use Rattle.std.specs.Option.{option_map};
ghost use Rattle.h41_pages.specs.Addresses as addresses;
ghost use Rattle.h41_positions.specs.Positions.{EndOf, LineAndNext, LineAt, LineBefore, LineInPage};
ghost use Rattle.h41_positions.specs.Positions.{LocalFrom, NextAt, NumberAt, ShortLineAt, StartOf};
ghost use Rattle.h41_positions.specs.Positions as spec;
ghost use Rattle.h41_positions.specs.declared.position.Position.TheVariants.{Memory};
ghost use Rattle.h41_positions.specs.private.PagePlaces.{InPageAndNext};
ghost use Rattle.h41_ram.specs.RegisterMap.{is_sound};

use crate::page_code::PageCode;
use crate::position::{PlacedLine, Position};
use h41_codes::{Line, Parameter, ShortLine};
use h41_pages::{PAGE_WORDS, Pages};
use h41_program::ProgramRefusal;
use h41_program::laws::{each_is_listed, lists_are_determined, one_list};
use h41_ram::Ram;
use h41_walk::Programs;

/// The number of words in a page, 4096.
const WORDS: u16 = PAGE_WORDS as u16;

/// The number of 16-bit addresses, 65,536.
const ADDRESSES: usize = 0x10000;

/// Returns the page of an address, 0 to 15, and the offset of its word in the page, 0 to 4095.
fn place_of(address: u16) -> (usize, u16)
    ensures page { result.0 ≡ addresses.page_of address }
    ensures offset { result.1 ≡ addresses.offset_of address }
    ensures held { result.0 < 16 }
    ensures inside { result.1 < 4096 }
{
    (usize::from(address / WORDS), address % WORDS)
}

/// Returns the position of the word at an offset of a page. The offset 4096 is the start of the next page; after page F
/// this is page 0.
fn in_page(page: usize, offset: u16) -> Position
    requires { page < 16 }
    ensures { result ≡ spec.in_page page offset }
{
    Position::Page(((page * PAGE_WORDS + usize::from(offset)) % ADDRESSES) as u16)
}

/// Returns the position of the byte of program memory that a search found, or `None` if it found none.
#[inline(always)]
pub fn byte_found(found: Option<u16>) -> Option<Position>
    ensures { result ≡ option_map Memory found }
{
    match found {
        Some(byte) => Some(Position::Memory(byte)),
        None => None,
    }
}

/// Returns the position of the word at the offset of a page that a search found, or `None` if it found none.
#[inline(always)]
fn offset_found(page: usize, found: Option<u16>) -> Option<Position>
    requires { page < 16 }
    ensures { result ≡ option_map (spec.in_page page) found }
{
    match found {
        Some(offset) => Some(in_page(page, offset)),
        None => None,
    }
}

/// Returns the line at a position, which is the first line from there on after any nulls, with the position of its
/// first byte. BrokenProgram (14) if there is none. Memory must be sound (`Ram::is_sound`).
pub fn line_at<const REGS: usize>(
    ram: &Ram<REGS>,
    pages: &Pages,
    at: Position,
) -> Result<PlacedLine, ProgramRefusal>
    requires { IsTrue (is_sound ram.now.registers) }
    ensures { LineAt pages.now ram.now.registers at result }
{
    match at {
        Position::Memory(at) => match h41_walk::line_at(ram, at) {
            Ok(listed) => Ok(PlacedLine {
                position: Position::Memory(listed.position),
                line: listed.line,
            }),
            Err(refusal) => Err(refusal),
        },
        Position::Page(address) => line_in_page(pages, address),
    }
}

/// Returns the line at an address of a page, which is the first line from there on after any nulls, with the position of its first byte.
/// BrokenProgram (14) if there is none.
pub fn line_in_page(pages: &Pages, address: u16) -> Result<PlacedLine, ProgramRefusal>
    ensures { LineInPage pages.now address result }
{
    let (page, offset) = place_of(address);
    match h41_walk::line_at(&PageCode::of(pages, page), offset) {
        Ok(listed) => Ok(PlacedLine {
            position: in_page(page, listed.position),
            line: listed.line,
        }),
        Err(refusal) => Err(refusal),
    }
}

/// Returns the position of the line after the line at a position. If no line follows, it is the position of the byte or
/// word just after that line. The position after the `.END.` of memory is its own; after the END or `.END.` of a page's
/// program it is the next word. 0000 follows FFFF. BrokenProgram (14) if there is no line at the position. Memory must
/// be sound (`Ram::is_sound`).
pub fn next<const REGS: usize>(
    ram: &Ram<REGS>,
    pages: &Pages,
    at: Position,
) -> Result<Position, ProgramRefusal>
    requires { IsTrue (is_sound ram.now.registers) }
    ensures { NextAt pages.now ram.now.registers at result }
{
    match at {
        Position::Memory(at) => match h41_walk::next(ram, at) {
            Ok(byte) => Ok(Position::Memory(byte)),
            Err(refusal) => Err(refusal),
        },
        Position::Page(address) => {
            let (page, offset) = place_of(address);
            match h41_walk::next(&PageCode::of(pages, page), offset) {
                Ok(behind) => Ok(in_page(page, behind)),
                Err(refusal) => Err(refusal),
            }
        }
    }
}

/// Returns the line at a position, as `line_at` does, and the next position, as `next` does, in one pass. BrokenProgram
/// (14) if there is no line. Memory must be sound (`Ram::is_sound`).
#[inline(always)]
pub fn line_and_next<const REGS: usize>(
    ram: &Ram<REGS>,
    pages: &Pages,
    at: Position,
) -> Result<(Line, Position), ProgramRefusal>
    requires { IsTrue (is_sound ram.now.registers) }
    ensures { LineAndNext pages.now ram.now.registers at result }
{
    match at {
        Position::Memory(at) => match h41_walk::line_and_next(ram, at) {
            Ok((line, byte)) => Ok((line, Position::Memory(byte))),
            Err(refusal) => Err(refusal),
        },
        Position::Page(address) => in_page_and_next(pages, address),
    }
}

/// Returns the first line at or after an address of a page, and the position of the line after it, as `next` returns
/// it. BrokenProgram (14) if there is no line.
#[inline(never)]
fn in_page_and_next(pages: &Pages, address: u16) -> Result<(Line, Position), ProgramRefusal>
    ensures { InPageAndNext pages.now address result }
{
    let (page, offset) = place_of(address);
    match h41_walk::line_and_next(&PageCode::of(pages, page), offset) {
        Ok((line, behind)) => Ok((line, in_page(page, behind))),
        Err(refusal) => Err(refusal),
    }
}

/// Returns the line whose first byte is at this position of memory, if it is one of the lines that `ShortLine` can
/// represent, such as `SIN`, and the next position, as `next` returns it. `None` for other lines, nulls and bytes that
/// are no line, and always in pages. Memory must be sound (`Ram::is_sound`).
#[inline(always)]
pub fn short_line<const REGS: usize>(
    ram: &Ram<REGS>,
    pages: &Pages,
    at: Position,
) -> Option<(ShortLine, Position)>
    requires { IsTrue (is_sound ram.now.registers) }
    ensures { ShortLineAt pages.now ram.now.registers at result }
{
    match at {
        Position::Memory(at) => match h41_program::short_line(ram, at) {
            Some((line, byte)) => Some((line, Position::Memory(byte))),
            None => None,
        },
        Position::Page(_) => None,
    }
}

/// Returns the position at which the program that contains a position begins. In memory this is the byte after the last
/// END that begins before the position, or 0 if there is none; `.END.` does not count. In a page it is the lowest start
/// of a keystroke function, at or before the position, from which the lines read in turn include the line at the
/// position; without one, it is the position itself. Memory must be sound.
#[inline(never)]
pub fn start_of<const REGS: usize>(ram: &Ram<REGS>, pages: &Pages, at: Position) -> Position
    requires { IsTrue (is_sound ram.now.registers) }
    ensures { StartOf pages.now ram.now.registers at result }
{
    match at {
        Position::Memory(at) => Position::Memory(h41_program::start_of(ram, at)),
        Position::Page(address) => {
            let (page, offset) = place_of(address);
            in_page(page, PageCode::of(pages, page).start_of(offset))
        }
    }
}

/// Returns the position of the first `LBL n` with this label from a position to the end of its program, otherwise that
/// of the first one in the program. `None` if there is none. Memory must be sound (`Ram::is_sound`).
#[inline(never)]
pub fn local<const REGS: usize>(
    ram: &Ram<REGS>,
    pages: &Pages,
    at: Position,
    label: Parameter,
) -> Option<Position>
    requires { IsTrue (is_sound ram.now.registers) }
    ensures { LocalFrom label pages.now ram.now.registers at result }
{
    each_is_listed();
    lists_are_determined();
    one_list();
    match at {
        Position::Memory(at) => {
            let byte = h41_walk::local(ram, at, label);
            byte_found(byte)
        }
        Position::Page(address) => {
            let (page, offset) = place_of(address);
            let found = h41_walk::local(&PageCode::of(pages, page), offset, label);
            offset_found(page, found)
        }
    }
}

/// Returns the position of the end of the program that contains a position: its END, or `.END.` if that is before any
/// END. `None` if the program has neither, because bytes that are no line or the end of the page precede it. Memory
/// must be sound (`Ram::is_sound`).
pub fn end_of<const REGS: usize>(ram: &Ram<REGS>, pages: &Pages, at: Position) -> Option<Position>
    requires { IsTrue (is_sound ram.now.registers) }
    ensures { EndOf pages.now ram.now.registers at result }
{
    lists_are_determined();
    one_list();
    match at {
        Position::Memory(at) => {
            let byte = h41_walk::end_of(ram, at);
            byte_found(byte)
        }
        Position::Page(address) => {
            let (page, offset) = place_of(address);
            let found = h41_walk::end_of(&PageCode::of(pages, page), offset);
            offset_found(page, found)
        }
    }
}

/// Returns the number of the line whose first byte is at exactly this position, in its program. The first line has
/// number 1. `None` if no line of the program begins at the position. Memory must be sound (`Ram::is_sound`).
pub fn line_number<const REGS: usize>(
    ram: &Ram<REGS>,
    pages: &Pages,
    position: Position,
) -> Option<u16>
    requires { IsTrue (is_sound ram.now.registers) }
    ensures { NumberAt pages.now ram.now.registers position result }
{
    lists_are_determined();
    one_list();
    match position {
        Position::Memory(byte) => h41_walk::line_number(ram, byte),
        Position::Page(address) => {
            let (page, offset) = place_of(address);
            h41_walk::line_number(&PageCode::of(pages, page), offset)
        }
    }
}

/// Returns the position of the line before the line whose first byte is at exactly this position, in its program.
/// `None` if no line of the program begins at the position, or if it is the first. Memory must be sound
/// (`Ram::is_sound`).
pub fn line_before<const REGS: usize>(
    ram: &Ram<REGS>,
    pages: &Pages,
    position: Position,
) -> Option<Position>
    requires { IsTrue (is_sound ram.now.registers) }
    ensures { LineBefore pages.now ram.now.registers position result }
{
    lists_are_determined();
    one_list();
    match position {
        Position::Memory(at) => {
            let byte = h41_walk::line_before(ram, at);
            byte_found(byte)
        }
        Position::Page(address) => {
            let (page, offset) = place_of(address);
            let found = h41_walk::line_before(&PageCode::of(pages, page), offset);
            offset_found(page, found)
        }
    }
}
