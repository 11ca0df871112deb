//! Searches in the whole list of lines: for the start of a program, and for a global label.
ghost use Rattle.std.specs.Prelude.{◌≡◌, IsTrue};
ghost use Rattle.h41_ram.specs.RegisterMap.{is_sound};
ghost use Rattle.h41_program.specs.Lines as spec;
ghost use Rattle.h41_program.specs.ProgramLines.{AnswersOf, HasPlace, memory_source};
ghost use Rattle.h41_program.specs.private.Reading.{OfPlace};
ghost use Rattle.h41_program.specs.Searches.{named_in, position_of, start_in};

use crate::kinds::is_named;
use crate::laws::one_list;
use crate::reading::{LinePlace, byte_at, first_from, place_from};
use h41_codes::laws::byte_round_trip;
use h41_ram::Ram;

/// Returns the position where the program that contains a position of program memory starts: the byte after the last
/// END whose first byte is before the position, or 0 if there is none. `.END.` does not count. Memory must be sound.
pub fn start_of<const REGS: usize>(ram: &Ram<REGS>, at: u16) -> u16
    requires { IsTrue (is_sound ram.now.registers) }
    ensures { AnswersOf (start_in at) ram.now.registers 0 result }
{
    byte_round_trip();
    one_list();
    let mut start = 0;
    let mut position = 0;
    while let Some(place) = place_from(ram, position) {
        if place.ends_memory {
            return start;
        }
        if place.position >= at {
            return start;
        }
        if place.ends_program {
            start = place.behind;
        }
        position = place.behind;
    }
    start
}

/// Returns the position of the last global label in memory whose name is exactly `name`, or `None` if there is none.
/// Memory must be sound.
pub fn global<const REGS: usize>(ram: &Ram<REGS>, name: &[u8]) -> Option<u16>
    requires { IsTrue (is_sound ram.now.registers) }
    ensures { AnswersOf (λ lines. position_of (named_in name.now lines))
        ram.now.registers 0 result }
{
    let mut last = None;
    let mut position = 0;
    while let Some(place) = place_from(ram, position) {
        if place.ends_memory {
            return last;
        }
        if is_named_at(ram, position, &place, name) {
            last = Some(place.position);
        }
        position = place.behind;
    }
    last
}

/// Returns whether the line that begins at `place`, which is the first line from the position `at` on, is the global
/// label with this name. The line is only decoded if it has as many bytes as that label and if its last byte is the
/// last character of the name.
#[inline(always)]
fn is_named_at<const REGS: usize>(ram: &Ram<REGS>, at: u16, place: &LinePlace, name: &[u8]) -> bool
    requires sound { IsTrue (is_sound ram.now.registers) }
    requires place { HasPlace ram.now.registers at place.now }
    ensures { OfPlace (memory_source ram.now.registers) at place.now
        (λ line. result ≡ spec.is_named name.now line) }
{
    if usize::from(place.behind - place.position) != name.len() + 4 {
        return false;
    }
    if !name.is_empty() && byte_at(ram, place.behind - 1) != name[name.len() - 1] {
        return false;
    }
    match first_from(ram, at) {
        Some(found) => is_named(found.listed.line, name),
        None => false,
    }
}
