//! Program memory, as `show lines` prints it.

ghost use Rattle.std.specs.Prelude.{◌≡◌, ◌<◌, ◌++◌, IfOk, OnOk, IsTrue};
ghost use Rattle.h41_ram.specs.RegisterMap.{is_sound};
ghost use Rattle.h41_program.specs.Lines as lines;
ghost use Rattle.h41_views.specs.ProgramListing as spec;

use arrayvec::ArrayString;
use h41_lines::characters::two_digits;
use h41_program::{ListedLine, first_from, is_final_end};
use h41_ram::Ram;
use h41_text::write_line;
use std::alloc::{AllocError, Global};

/// Returns the lines of program memory from the first on, each with its position (four decimal digits) and its text. If
/// memory is not sound (`Ram::is_sound`), the text is empty. OutOfMemory (21) if allocation failed.
pub fn program_text<const REGS: usize>(
    alloc: Global,
    ram: &Ram<REGS>,
) -> Result<Vec<u8>, AllocError>
    ensures { IfOk result (λ listing. spec.ListsProgram ram.now.registers listing.items) }
{
    let mut listing = Vec::new(alloc);
    if !ram.is_sound() {
        return Ok(listing);
    }
    let mut at = 0;
    while let Some(found) = first_from(ram, at) {
        push_line(&mut listing, &found.listed)?;
        if is_last(&found.listed) {
            return Ok(listing);
        }
        at = found.behind;
    }
    Ok(listing)
}

/// Returns whether a program line is `.END.`, the last line of program memory.
fn is_last(listed: &ListedLine) -> bool
    ensures { result ≡ lines.is_final_end listed.now.line }
{
    is_final_end(listed.line)
}

/// Appends a program line as `show lines` prints it: its position as four decimal digits, a space, its text and LF. The
/// position must be below 10,000. OutOfMemory (21) if allocation failed.
#[tactic(auto, unfolding(crate::specs::ProgramListing::listed_line))]
fn push_line(listing: &mut Vec<u8>, listed: &ListedLine) -> Result<(), AllocError>
    requires { listed.now.position < 10000 }
    ensures { OnOk result (listing.new.items ≡ listing.old.items ++ spec.listed_line listed.now) }
{
    listing.extend_from_slice(byte_digits(listed.position).as_str().as_bytes())?;
    listing.extend_from_slice(b" ")?;
    listing.extend_from_slice(write_line(listed.line).as_str().as_bytes())?;
    listing.extend_from_slice(b"\n")
}

/// Returns the last four decimal digits of a position in program memory, with leading zeros.
pub fn byte_digits(byte: u16) -> ArrayString<4>
    ensures { result.bytes ≡ spec.byte_digits byte }
{
    let mut digits = ArrayString::new();
    digits.push_str(two_digits((byte / 100 % 100) as u8).as_str());
    digits.push_str(two_digits((byte % 100) as u8).as_str());
    digits
}
