//! Reads the items (commands with their blocks, or refused lines) of a deck one at a time.

ghost use Rattle.std.specs.Prelude.{◌≡◌, ◌≢◌, ◌⊎◌, ◌≤◌, [], IfOk, OnOk, Err, Ok, true, false, None};
ghost use Rattle.std.specs.Prelude.{Some};
ghost use Rattle.std.specs.Io.KnownBytes.{Keeps};
ghost use Rattle.h41_ends.specs.Ends as lines;
ghost use Rattle.h41_ends.specs.InputLines.{CountsOn, IsStopped, IsTold, line_in, most_left};
ghost use Rattle.h41_lines.specs.Words.{words_of};
ghost use Rattle.h41_commands.specs.private.BlockReading.{HearsBlock, HearsTaken, ReadsBlock};
ghost use Rattle.h41_commands.specs.private.BlockReading.{ReadsTaken};
ghost use Rattle.h41_commands.specs.private.TakenBlocks.{HasTaken};
ghost use Rattle.h41_commands.specs.private.Entries.{what_is_spelled};
ghost use Rattle.h41_commands.specs.Commands.{command_of, kind_of};
ghost use Rattle.h41_commands.specs.Faults.{is_write_fault};
ghost use Rattle.h41_commands.specs.FirstLines.{first_line, opens_block};
ghost use Rattle.h41_commands.specs.private.ItemReading.{HearsFirst, LeavesFewer, ReadsFirst};
ghost use Rattle.h41_commands.specs.private.ItemReading.{TellsFirst, kind_returned};
ghost use Rattle.h41_commands.specs.Items.{is_open};

use crate::blocks::Block;
use crate::commands::parse::block_command;
use crate::commands::{BlockKind, Command};
use crate::fault::ItemFault;
use crate::item::{GivenCommand, Item};
use crate::line::{FirstLine, first_line, is_end};
use crate::refusal::LineRefusal;
use h41_ends::{InputLines, LineReadFault, Sink, Talk};
use std::alloc::Global;

/// Reads up to the end of the first line of the next command, and returns the kind of that line and where its first
/// word ends; `input.line()` then returns the line. Empty lines and comments are skipped. Returns `None` at the end of
/// the deck. The writer is flushed before each read, unless it is flushed already.
///
/// # Errors
///
/// `ReadFault` (22) if a read fails, or the deck has more than 67,108,864 bytes; `WriteFault` (23) if the writer cannot be
/// flushed.
#[inline(always)]
pub fn read_first_line<R: Talk<W>, W: Sink>(
    input: &mut InputLines,
    reader: &mut R,
    writer: &mut W,
) -> Result<Option<FirstLine>, LineReadFault>
    requires reader_clear { R.failed reader.old ≡ false }
    requires writer_clear { W.failed writer.old ≡ false }
    ensures line { ReadsFirst (kind_returned result)
        (R.remaining reader.old) (R.remaining reader.new) input.old input.new }
    ensures heard { HearsFirst (kind_returned result) (R.reads reader.old) (R.reads reader.new)
        (W.contents writer.old) input.old input.new }
    ensures first { IfOk result (TellsFirst (line_in input.new)) }
    ensures shorter { OnOk result (most_left input.new ≤ most_left input.old) }
    ensures fewer { IfOk result (LeavesFewer input.old input.new) }
    ensures end { result ≡ Ok None → IsTold input.new }

    // ReadFault (22) is returned only if a read failed or the deck is too long, and only after a flush.
    ensures stopped { result ≡ Err LineReadFault.ReadFault → IsStopped input.new }
    ensures cause { result ≡ Err LineReadFault.ReadFault
        → (R.failed reader.new ≡ true) ⊎ (input.new.is_over ≡ true) }
    ensures flushed { result ≡ Err LineReadFault.ReadFault → W.flushed writer.new ≡ true }

    ensures kept { Keeps (W.contents writer.old) (W.contents writer.new) }
    ensures counted { CountsOn input.old input.new (R.given reader.old) (R.given reader.new) }
    ensures reader { result ≢ Err LineReadFault.ReadFault → R.failed reader.new ≡ false }
    ensures writer { W.failed writer.new ≡ lines.is_write_fault result }
{
    while input.next_line(reader, writer)? {
        if let Some(first) = first_line(input.line()) {
            return Ok(Some(first));
        }
    }
    Ok(None)
}

/// Reads the lines of a block up to `end`, and returns the command with its block. The first line of the command is the
/// line that `input` read last; `first` says which block it opens. Returns a refused item if the deck ends before `end`,
/// NoEnd (52), or otherwise if the first line is not a valid command, BadCommand (50) or BadNumber (51).
///
/// # Errors
///
/// `OutOfMemory` (21) if allocation failed; `ReadFault` (22) if a read fails, or the deck has more than 67,108,864
/// bytes; `WriteFault` (23) if the writer cannot be flushed.
#[inline(never)]
pub fn read_block<R: Talk<W>, W: Sink>(
    alloc: Global,
    first: FirstLine,
    input: &mut InputLines,
    reader: &mut R,
    writer: &mut W,
) -> Result<Item, ItemFault>
    requires reader_clear { R.failed reader.old ≡ false }
    requires writer_clear { W.failed writer.old ≡ false }
    requires first { first_line (line_in input.old) ≡ Some first }
    requires opens { opens_block first.kind ≡ true }
    ensures item { ReadsBlock result (command_of (words_of (line_in input.old)))
        (R.remaining reader.old) (R.remaining reader.new) input.old input.new }
    ensures heard { HearsBlock result (command_of (words_of (line_in input.old)))
        (R.reads reader.old) (R.reads reader.new) (W.contents writer.old) input.old input.new }
    ensures bound { OnOk result (most_left input.new ≤ most_left input.old) }
    ensures open { IfOk result (λ item. is_open (what_is_spelled item) ≡ true
        → input.new.at_end ≡ true) }
    ensures stopped { result ≡ Err ItemFault.ReadFault → IsStopped input.new }
    ensures cause { result ≡ Err ItemFault.ReadFault
        → (R.failed reader.new ≡ true) ⊎ (input.new.is_over ≡ true) }
    ensures flushed { result ≡ Err ItemFault.ReadFault → W.flushed writer.new ≡ true }
    ensures kept { Keeps (W.contents writer.old) (W.contents writer.new) }
    ensures counted { CountsOn input.old input.new (R.given reader.old) (R.given reader.new) }
    ensures reader { result ≢ Err ItemFault.ReadFault → R.failed reader.new ≡ false }
    ensures writer { W.failed writer.new ≡ is_write_fault result }
{
    let command = block_command(first, input.line());
    let block = Block::of_kind(alloc, opened_kind(&command));
    let Some(block) = read_lines(block, input, reader, writer)? else {
        return Ok(Item::Refused(LineRefusal::NoEnd));
    };
    Ok(match command {
        Ok(command) => Item::Given(GivenCommand { command, block }),
        Err(refusal) => Item::Refused(refusal),
    })
}

/// Returns the kind of the block of a command, or `None` if its line is refused.
fn opened_kind(command: &Result<Command<'_>, LineRefusal>) -> Option<BlockKind>
    ensures { IfOk command.now (λ given. result ≡ kind_of given) }
{
    match command {
        Ok(given) => given.block_kind(),
        Err(_) => None,
    }
}

/// Reads the deck lines of a block up to its `end` and returns the block, or `None` if the deck ends first. The errors
/// are OutOfMemory (21), ReadFault (22) and WriteFault (23).
fn read_lines<R: Talk<W>, W: Sink>(
    block: Block,
    input: &mut InputLines,
    reader: &mut R,
    writer: &mut W,
) -> Result<Option<Block>, ItemFault>
    requires empty { HasTaken block [] }
    requires reader_clear { R.failed reader.old ≡ false }
    requires writer_clear { W.failed writer.old ≡ false }
    ensures block { ReadsTaken result block.kind (R.remaining reader.old) (R.remaining reader.new)
        input.old input.new }
    ensures heard { HearsTaken result block.kind (R.reads reader.old) (R.reads reader.new)
        (W.contents writer.old) input.old input.new }
    ensures bound { OnOk result (most_left input.new ≤ most_left input.old) }
    ensures end { result ≡ Ok None → input.new.at_end ≡ true }
    ensures stopped { result ≡ Err ItemFault.ReadFault → IsStopped input.new }
    ensures cause { result ≡ Err ItemFault.ReadFault
        → (R.failed reader.new ≡ true) ⊎ (input.new.is_over ≡ true) }
    ensures flushed { result ≡ Err ItemFault.ReadFault → W.flushed writer.new ≡ true }
    ensures kept { Keeps (W.contents writer.old) (W.contents writer.new) }
    ensures counted { CountsOn input.old input.new (R.given reader.old) (R.given reader.new) }
    ensures reader { result ≢ Err ItemFault.ReadFault → R.failed reader.new ≡ false }
    ensures writer { W.failed writer.new ≡ is_write_fault result }
{
    let mut block = block;
    while input.next_line(reader, writer)? {
        let line = input.line();
        if is_end(line) {
            return Ok(Some(block));
        }
        block.line(line)?;
    }
    Ok(None)
}
