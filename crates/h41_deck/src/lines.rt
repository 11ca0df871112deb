//! Executes single lines of a deck.

ghost use Rattle.std.specs.Prelude.{◌≡◌, true, false, Err, Some};
ghost use Rattle.h41_commands.specs.private.Entries.{what_is_spelled};
ghost use Rattle.h41_commands.specs.FirstLines.{first_line, opens_block};
ghost use Rattle.h41_commands.specs.Items.{line_spelled};
ghost use Rattle.h41_deck.specs.private.AnsweredItems.{AnswersItem, AnswersLine};
ghost use Rattle.h41_deck.specs.private.Writing.{is_write_fault};
ghost use Rattle.h41_deck.specs.Replies.{item_takes_memory};

use crate::replies::{Outcome, apply, end, say_alone};
use h41_commands::{FirstLine, GivenCommand, Item, KeyBuffer, line_command};
use h41_debug::Bench;
use h41_ends::Sink;
use h41_refusals::{CommandFault, Refusal};
use std::alloc::Global;

/// Executes the command in a line that opens no block, and writes its reply. `first` says which command the first word
/// of `line` names. A `key` command writes its keys to `keys`. Returns whether a refusal was printed. The error flag of
/// the writer must be clear.
///
/// # Errors
///
/// `OutOfMemory` (21), only for commands that allocate memory: nothing is written. `WriteFault` (23): a prefix of the
/// reply is written.
#[inline(always)]
pub fn answer_line<W: Sink, const REGS: usize>(
    alloc: Global,
    bench: &mut Bench<REGS>,
    first: FirstLine,
    line: &[u8],
    keys: &mut KeyBuffer,
    writer: &mut W,
) -> Result<Outcome, CommandFault>
    requires clear { W.failed writer.old ≡ false }
    requires first { first_line line.now ≡ Some first }
    requires plain { opens_block first.kind ≡ false }
    ensures reply { AnswersLine result line.now bench.old.state bench.new.state
        W.contents writer.old writer.new }
    ensures memory { result ≡ Err CommandFault.OutOfMemory
        → item_takes_memory (line_spelled line.now) ≡ true }
    ensures mark { W.failed writer.new ≡ is_write_fault result }
{
    match line_command(first, line, keys) {
        Ok(command) => {
            let refusal = say_alone(alloc, bench, command, writer)?;
            Ok(end(refusal, writer)?)
        }
        Err(refusal) => Ok(end(Some(Refusal::Line(refusal)), writer)?),
    }
}

/// Executes one item of a deck, which is a command with its block or lines that are refused, and writes its reply.
/// Returns whether a refusal was printed. The error flag of the writer must be clear.
///
/// # Errors
///
/// `OutOfMemory` (21), only for commands that allocate memory: nothing is written. `WriteFault` (23): a prefix of the
/// reply is written.
pub fn answer<W: Sink, const REGS: usize>(
    alloc: Global,
    bench: &mut Bench<REGS>,
    item: Item,
    writer: &mut W,
) -> Result<Outcome, CommandFault>
    requires { W.failed writer.old ≡ false }
    ensures reply { AnswersItem result item bench.old.state bench.new.state
        W.contents writer.old writer.new }
    ensures memory { result ≡ Err CommandFault.OutOfMemory
        → item_takes_memory (what_is_spelled item) ≡ true }
    ensures mark { W.failed writer.new ≡ is_write_fault result }
{
    match item {
        Item::Given(GivenCommand { command, block }) => apply(alloc, bench, command, block, writer),
        Item::Refused(refusal) => Ok(end(Some(Refusal::from(refusal)), writer)?),
    }
}
