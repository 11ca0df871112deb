//! The line that prints a refusal: its number, its name, and the address or line number after them.

ghost use Rattle.std.specs.Prelude.{◌≡◌, ◌≤◌, ◌<◌, ◌++◌};
ghost use Rattle.arrayvec.specs.ArrayString.{array_string_len};
ghost use Rattle.h41_refusals.specs.Refusals.{detail_text, word_detail};

use crate::refusal::Refusal;
use arrayvec::ArrayString;
use h41_commands::LineRefusal;
use h41_lines::characters::address_digits;
use h41_nut::WordRefusal;
use h41_xrom::CalculatorRefusal;
use itoa::Buffer;

/// The most bytes of the line of a refusal: 22 without its detail, a space, the 20 digits of a line number, and LF.
const LINE: usize = 44;

/// What a refusal prints after its name: an address or the number of a line.
#[derive(Clone, Copy, Debug, PartialEq, Eq)]
pub enum Detail {
    /// The address of the refused word, which is printed as four hexadecimal digits.
    Address(u16),
    /// The number of the wrong line, counted from 1, which is printed in decimal.
    Line(usize),
}

impl Refusal {
    ghost use Rattle.std.specs.Prelude.{◌≡◌};
    ghost use Rattle.h41_refusals.specs.Refusals.{detail, refusal_line};

    /// Returns the line that prints the refusal, with its LF: `! NN Name`, followed by a space and the address in four
    /// hexadecimal digits, or the line number, if it has such a detail. It allocates no memory, so that a refusal can be
    /// printed whatever else fails.
    pub fn line(self) -> ArrayString<LINE>
        ensures { result.bytes ≡ refusal_line self }
    {
        let mut line = ArrayString::new();
        line.push_str(self.heading());
        push_detail(&mut line, self.detail());
        line.push('\n');
        line
    }

    /// Returns what the refusal prints after its name: the address of a refused word, or the number of the wrong line
    /// of a source or of a program's text. `None` for all other refusals.
    pub fn detail(self) -> Option<Detail>
        ensures { result ≡ detail self }
    {
        match self {
            Refusal::Calculator(CalculatorRefusal::Word(refusal)) => {
                Some(Detail::Address(word_address(refusal)))
            }
            Refusal::Line(LineRefusal::Source(_, line) | LineRefusal::BadText(line)) => {
                Some(Detail::Line(line))
            }
            _ => None,
        }
    }
}

/// Returns the address that the refusal of a microcode word contains.
fn word_address(refusal: WordRefusal) -> u16
    ensures { result ≡ word_detail refusal }
{
    match refusal {
        WordRefusal::UndefinedWord(address)
        | WordRefusal::WordNotInProfile(address)
        | WordRefusal::SystemRom(address)
        | WordRefusal::EmptyPage(address)
        | WordRefusal::PeripheralNotHeld(address)
        | WordRefusal::Asleep(address)
        | WordRefusal::ReadOnly(address) => address,
    }
}

/// Appends a space and the address (four hexadecimal digits) or the line number (decimal) of a refusal, or nothing for
/// `None`. `line` has at most 22 bytes before.
fn push_detail(line: &mut ArrayString<LINE>, detail: Option<Detail>)
    requires { array_string_len line.old ≤ 22 }
    ensures written { line.new.bytes ≡ line.old.bytes ++ detail_text detail }
    ensures room { array_string_len line.new < LINE }
{
    match detail {
        None => {}
        Some(Detail::Address(address)) => {
            line.push(' ');
            line.push_str(address_digits(address).as_str());
        }
        Some(Detail::Line(number)) => {
            line.push(' ');
            line.push_str(Buffer::new().format(number));
        }
    }
}
