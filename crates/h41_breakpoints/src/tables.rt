//! Tables of bits that record which words and program lines have a breakpoint.

ghost use Rattle.std.specs.Prelude.{◌≡◌, [], IfOk};
ghost use Rattle.h41_breakpoints.specs.private.Tables.{AreTablesOf, location_bit};
ghost use Rattle.h41_breakpoints.specs.private.Tables.{with_location_bit};

use crate::bit_table::BitTable;
use crate::location::Location;
use h41_positions::Position;
use std::alloc::{AllocError, Global};
use std::marker::Model;

/// The number of addresses of words, and of positions in pages: 0000 to FFFF.
const ADDRESSES: usize = 65_536;

/// The number of positions in program memory that have a bit: 0 to 9,999.
const POSITIONS: usize = 10_000;

/// Three tables of bits that record where breakpoints are: one bit for each address of a word, one for each of the
/// positions 0 to 9,999 in program memory, and one for each position in a page.
#[derive(Drop)]
pub struct Tables {
    words: BitTable<ADDRESSES>,
    lines: BitTable<POSITIONS>,
    page_lines: BitTable<ADDRESSES>,
}

impl Model for Tables {
    ghost use Rattle.h41_breakpoints.specs.private.Tables.{BitTables};

    ghost Value = { BitTables };

    ghost view = { λ tables. record {
      words = tables.words;
      lines = tables.lines;
      page_lines = tables.page_lines;
    } };
}

impl Tables {
    /// Returns the tables for an empty set of breakpoints. OutOfMemory (21) if allocation fails.
    pub fn new(alloc: Global) -> Result<Self, AllocError>
        ensures { IfOk result (AreTablesOf []) }
    {
        Ok(Tables {
            words: BitTable::new(alloc)?,
            lines: BitTable::new(alloc)?,
            page_lines: BitTable::new(alloc)?,
        })
    }

    /// Returns the bit of a location, which is set if the location has a breakpoint. `None` for a position in program
    /// memory from 10,000 on, because it has no bit.
    #[inline(always)]
    pub fn get(&self, location: Location) -> Option<bool>
        ensures { result ≡ location_bit self.now location }
    {
        match location {
            Location::Word(address) => self.words.get(usize::from(address)),
            Location::Line(Position::Memory(byte)) => self.lines.get(usize::from(byte)),
            Location::Line(Position::Page(address)) => self.page_lines.get(usize::from(address)),
        }
    }

    /// Sets or clears the bit of a location. Does nothing for a position in program memory from 10,000 on, because it
    /// has no bit.
    pub fn set(&mut self, location: Location, bit: bool)
        ensures { self.new ≡ with_location_bit self.old location bit }
    {
        match location {
            Location::Word(address) => self.words.set(usize::from(address), bit),
            Location::Line(Position::Memory(byte)) => self.lines.set(usize::from(byte), bit),
            Location::Line(Position::Page(address)) => self
                .page_lines
                .set(usize::from(address), bit),
        }
    }
}
