//! Program memory, as a place that contains programs. Its lines are read up to `.END.`, which is followed by itself.

ghost use Rattle.std.specs.Prelude.{IsTrue};
ghost use Rattle.h41_ram.specs.RegisterMap.{is_sound};
ghost use Rattle.h41_program.specs.ProgramLines.{memory_source};
ghost use Rattle.h41_walk.specs.Searches.{MemoryStarts};

use crate::code::Code;
use crate::programs::Programs;
use h41_codes::Line;
use h41_program::{Found, LinePlace, is_final_end, short_line};
use h41_ram::Ram;

impl<const REGS: usize> Code for Ram<REGS> {
    ghost source = { λ ram. memory_source ram.registers };

    ghost is_readable = { λ ram. IsTrue (is_sound ram.registers) };

    #[inline(always)]
    fn first_from(&self, at: u16) -> Option<Found> {
        h41_program::first_from(self, at)
    }

    #[inline(always)]
    fn byte_at(&self, at: u16) -> u8 {
        h41_program::byte_at(self, at)
    }

    #[inline(always)]
    fn ends(&self, line: &Line) -> bool {
        is_final_end(*line)
    }

    #[inline(always)]
    fn stays(&self) -> bool {
        true
    }

    #[inline(always)]
    fn place_from(&self, at: u16) -> Option<LinePlace> {
        h41_program::place_from(self, at)
    }

    #[inline(always)]
    fn position_from(&self, at: u16) -> u16 {
        h41_program::position_from(self, at)
    }

    #[inline(always)]
    fn quick_next(&self, at: u16) -> Option<u16> {
        match short_line(self, at) {
            Some((_line, next)) => Some(next),
            None => None,
        }
    }
}

impl<const REGS: usize> Programs for Ram<REGS> {
    ghost starts = { λ ram at start. MemoryStarts ram.registers at start };

    #[inline(always)]
    fn start_of(&self, at: u16) -> u16 {
        h41_program::start_of(self, at)
    }
}
