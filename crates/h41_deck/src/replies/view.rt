//! Executes `show`.

ghost use Rattle.std.specs.Prelude.{◌≡◌, ◌++◌, Err, IfOk, false, true};
ghost use Rattle.h41_commands.specs.declared.commands.Command.TheVariants as commands;
ghost use Rattle.h41_deck.specs.Replies.{view_takes_memory};
ghost use Rattle.h41_deck.specs.Views.{line_of};
ghost use Rattle.h41_deck.specs.private.Writing.{SaysAlone, is_write_fault};

use crate::replies::image::image_shown;
use crate::replies::{say_made, write_line};
use h41_commands::View;
use h41_debug::Bench;
use h41_ends::{Sink, write_whole};
use h41_refusals::{CommandFault, Refusal};
use h41_show::alpha_text;
use h41_views::{
    flags_text, functions_text, processor_text, program_text, register_text, stack_text,
};
use std::alloc::{AllocError, Global};

/// Writes the text of a view, as `show` does, and returns why it is refused, if it is. The text of `show pos` is
/// written without an allocation. OutOfMemory (21) if allocation failed; nothing is written then. `WriteFault` (23) if
/// writing fails.
#[inline(never)]
pub fn show<W: Sink, const REGS: usize>(
    alloc: Global,
    bench: &Bench<REGS>,
    view: View,
    writer: &mut W,
) -> Result<Option<Refusal>, CommandFault>
    requires clear { W.failed writer.old ≡ false }
    ensures text { SaysAlone result (commands.Show view) bench.now.state bench.now.state
        W.contents writer.old writer.new }
    ensures memory { result ≡ Err CommandFault.OutOfMemory → view_takes_memory view ≡ true }
    ensures mark { W.failed writer.new ≡ is_write_fault result }
{
    let calculator = bench.calculator();
    let ram = calculator.ram();
    let text = match view {
        View::Cpu => processor_text(alloc, calculator.cpu(), calculator.keys())?,
        View::Register(address) => register_text(alloc, ram, address)?,
        View::Stack => stack_text(alloc, ram)?,
        View::Flags => flags_text(alloc, ram)?,
        View::Alpha => line_of(alloc, alpha_text(ram).as_str())?,
        View::Display => line_of(alloc, calculator.display().as_str())?,
        View::Position => {
            write_line(bench.position().as_str(), writer)?;
            return Ok(None);
        }
        View::Lines => program_text(alloc, ram)?,
        View::Image(page, bank) => {
            let image = image_shown(alloc, calculator.pages(), page, bank)?;
            return Ok(say_made(image, writer)?);
        }
        View::Functions => functions_text(alloc, calculator.pages())?,
    };
    write_whole(writer, &text)?;
    Ok(None)
}

/// Returns a text followed by a line end. OutOfMemory (21) if allocation failed.
fn line_of(alloc: Global, text: &str) -> Result<Vec<u8>, AllocError>
    ensures { IfOk result (λ line. line.items ≡ line_of text.now) }
{
    let mut line = Vec::from_slice(alloc, text.as_bytes())?;
    line.push(b'\n')?;
    Ok(line)
}
