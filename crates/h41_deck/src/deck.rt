//! Executes the commands of a deck in turn.

ghost use Rattle.std.specs.Prelude.{◌≡◌, ◌≢◌, ◌≤◌, Err, IfOk, OnOk, true, false};
ghost use Rattle.h41_debug.specs.Bench.{start};
ghost use Rattle.h41_ends.specs.Ends.{GivesWithin};
ghost use Rattle.h41_deck.specs.Deck.{EndsKnown, LeavesDeck, PassedOn, ReadsInTurn, WritesDeck};
ghost use Rattle.h41_deck.specs.Deck.{is_write_fault};
ghost use Rattle.h41_deck.specs.private.AnsweredLines.{AnswersLines};

use crate::lines::{answer, answer_line};
use crate::replies::Outcome;
use h41_commands::{KeyBuffer, read_block, read_first_line};
use h41_debug::Bench;
use h41_ends::{InputLines, Sink, Talk, flush};
use h41_refusals::Fault;
use std::alloc::Global;

/// Reads a deck line by line, executes its commands on a bench with `REGS` main registers, 64 to 320, and writes what they print
/// and nothing else. Each reply is written before the next command's line is read to its end, and the writer is flushed before
/// each read. The error flags of the reader and the writer must be clear. The result says whether a refusal was printed.
///
/// # Errors
///
/// `ReadFault` (22) if a read fails, or the deck has more than 67,108,864 bytes; `WriteFault` (23) if a write fails;
/// `OutOfMemory` (21) if allocation failed. Each ends the deck, and what was written before remains. After `ReadFault`, every
/// command whose last line end was read within the limit has been executed.
pub fn run_deck<R: Talk<W>, W: Sink, const REGS: usize>(
    alloc: Global,
    reader: &mut R,
    writer: &mut W,
) -> Result<Outcome, Fault>
    requires at_least { 64 ≤ REGS }
    requires at_most { REGS ≤ 320 }
    requires reader_clear { R.failed reader.old ≡ false }
    requires writer_clear { W.failed writer.old ≡ false }

    // What is written is the text of the deck, if the bytes that the reader delivers and the writer accepts are known.
    ensures deck { WritesDeck REGS result (R.remaining reader.old) W.contents
        writer.old writer.new }
    ensures outcome { IfOk result (EndsKnown REGS (R.remaining reader.old)) }
    ensures flushed { OnOk result (W.flushed writer.new ≡ true) }

    // After an error, the replies to the first commands that were read are written and flushed. If writing failed, a prefix of
    // them is written. If reading failed, they are the replies to all commands whose last line end was read. If allocation
    // failed, the next command is one that allocates memory, or no command was executed.
    ensures left { LeavesDeck REGS result R.Source W.Sink
        reader.old reader.new writer.old writer.new }
    ensures passed { PassedOn result (W.flushed writer.new) }

    // At each read, the replies to all commands whose last line end was read are written and flushed, and nothing else is written.
    // At most one byte more is read than a deck may have.
    ensures turns { ReadsInTurn REGS (R.reads reader.old) (R.reads reader.new)
        (W.contents writer.old) }
    ensures bound { GivesWithin (R.given reader.old) (R.given reader.new) }

    // The error flags say which stream failed.
    ensures reader { result ≢ Err Fault.ReadFault → R.failed reader.new ≡ false }
    ensures writer { W.failed writer.new ≡ is_write_fault result }
{
    match answer_deck::<R, W, REGS>(alloc, reader, writer) {
        Err(Fault::OutOfMemory) => {
            flush(writer)?;
            Err(Fault::OutOfMemory)
        }
        answered => answered,
    }
}

/// Executes the commands of a deck, which it reads from `reader`, on a new bench, and writes what they print. Returns
/// whether a refusal was printed. The errors are those of `run_deck`; after `OutOfMemory` (21), the replies may not be
/// flushed yet.
fn answer_deck<R: Talk<W>, W: Sink, const REGS: usize>(
    alloc: Global,
    reader: &mut R,
    writer: &mut W,
) -> Result<Outcome, Fault>
    requires at_least { 64 ≤ REGS }
    requires at_most { REGS ≤ 320 }
    requires reader_clear { R.failed reader.old ≡ false }
    requires writer_clear { W.failed writer.old ≡ false }
    ensures lines { AnswersLines REGS result R.Source W.Sink
        reader.old reader.new writer.old writer.new }
    ensures turns { ReadsInTurn REGS (R.reads reader.old) (R.reads reader.new)
        (W.contents writer.old) }
    ensures bound { GivesWithin (R.given reader.old) (R.given reader.new) }
{
    let mut bench = Bench::<REGS>::new(alloc)?;
    answer_lines(alloc, &mut bench, reader, writer)
}

/// Executes the commands of a deck, which it reads from `reader`, on a bench in its initial state, and writes what they
/// print. Returns whether a refusal was printed. The errors are those of `run_deck`; after `OutOfMemory` (21), the
/// replies may not be flushed yet.
fn answer_lines<R: Talk<W>, W: Sink, const REGS: usize>(
    alloc: Global,
    bench: &mut Bench<REGS>,
    reader: &mut R,
    writer: &mut W,
) -> Result<Outcome, Fault>
    requires at_least { 64 ≤ REGS }
    requires at_most { REGS ≤ 320 }
    requires new { bench.old.state ≡ start REGS }
    requires reader_clear { R.failed reader.old ≡ false }
    requires writer_clear { W.failed writer.old ≡ false }
    ensures lines { AnswersLines REGS result R.Source W.Sink
        reader.old reader.new writer.old writer.new }
    ensures turns { ReadsInTurn REGS (R.reads reader.old) (R.reads reader.new)
        (W.contents writer.old) }
    ensures bound { GivesWithin (R.given reader.old) (R.given reader.new) }
{
    let mut input = InputLines::new();
    let mut keys = KeyBuffer::new();
    let mut outcome = Outcome::Accepted;
    while let Some(first) = read_first_line(&mut input, reader, writer)? {
        if first.kind.opens_block() {
            let item = read_block(alloc, first, &mut input, reader, writer)?;
            let answered = answer(alloc, bench, item, writer)?;
            outcome = outcome.and(answered);
            continue;
        }
        let next = answer_line(alloc, bench, first, input.line(), &mut keys, writer)?;
        outcome = outcome.and(next);
    }
    flush(writer)?;
    Ok(outcome)
}
