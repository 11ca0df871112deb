//! Writes where the calculator is, as `show pos` prints it.

ghost use Rattle.std.specs.Prelude.{◌≡◌, ◌≤◌, length};
ghost use Rattle.h41_debug.specs.Positions as spec;

use crate::bench::Bench;
use arrayvec::ArrayString;
use h41_breakpoints::Location;
use h41_lines::characters::address_digits;
use h41_positions::Position;
use h41_views::byte_digits;
use h41_xrom::Mode;

/// The most bytes of the text that `Bench::position` returns: a mode of at most 5, a space, and `P` with four digits.
const CAPACITY: usize = 11;

impl<const REGS: usize> Bench<REGS> {
    /// Returns what the calculator is doing and where it is: `Micro` and the address of the next word while a function
    /// in microcode runs; otherwise `Run` or `Idle`, and the index of the next line's byte in program memory, or `P`
    /// and the address of the next line in a page. Addresses are hexadecimal, indices in memory are decimal. For
    /// example `Run P6003`. The form is this project's choice.
    pub fn position(&self) -> ArrayString<CAPACITY>
        ensures { result.bytes ≡ spec.position_text self.now.state }
    {
        let mut text = ArrayString::new();
        text.push_str(mode_name(self.calculator().mode()));
        text.push_str(" ");
        text.push_str(location_digits(self.location()).as_str());
        text
    }
}

/// Returns the name of what the calculator is doing: `Idle`, `Run` (a program runs) or `Micro` (a function in microcode
/// runs).
fn mode_name(mode: Mode) -> &'static str
    ensures text { result.now ≡ spec.mode_name mode }
    ensures short { length result.now ≤ 5 }
{
    match mode {
        Mode::Idle => "Idle",
        Mode::Run => "Run",
        Mode::Micro(_) => "Micro",
    }
}

/// Returns the text of a location: for a word its address as four hexadecimal digits, for a line in a page the same
/// after `P`, and for a line in program memory the decimal index of its byte.
fn location_digits(location: Location) -> ArrayString<5>
    ensures { result.bytes ≡ spec.location_digits location }
{
    let mut digits = ArrayString::new();
    match location {
        Location::Word(address) => digits.push_str(address_digits(address).as_str()),
        Location::Line(position) => match position {
            Position::Memory(byte) => digits.push_str(byte_digits(byte).as_str()),
            Position::Page(address) => {
                digits.push('P');
                digits.push_str(address_digits(address).as_str());
            }
        },
    }
    digits
}
