//! Executes a deck with a given size of memory.

ghost use Rattle.std.specs.Prelude.{◌≡◌, ◌≢◌, true, false, Err, IfOk, OnOk};
ghost use Rattle.h41_deck.specs.Deck.{EndsKnown, LeavesDeck, PassedOn, ReadsInTurn, WritesDeck};
ghost use Rattle.h41_deck.specs.Deck.{is_write_fault};
ghost use Rattle.h41_ends.specs.Ends.{GivesWithin};
ghost use Rattle.h41_jobs.specs.MemorySizes.{registers_of};

use h41_deck::{Outcome, run_deck};
use h41_ends::{Sink, Talk};
use h41_jobs::MemorySize;
use h41_refusals::Fault;
use std::alloc::Global;

/// Executes the deck that `reader` delivers on a bench with this size of memory, and writes its replies to `writer`.
/// Returns whether a refusal was printed.
///
/// # Errors
///
/// `ReadFault` (22), `WriteFault` (23) and `OutOfMemory` (21).
pub(crate) fn run_with<R: Talk<W>, W: Sink>(
    alloc: Global,
    size: MemorySize,
    reader: &mut R,
    writer: &mut W,
) -> Result<Outcome, Fault>
    requires reader_clear { R.failed reader.old ≡ false }
    requires writer_clear { W.failed writer.old ≡ false }
    ensures deck { WritesDeck (registers_of size) result
        (R.remaining reader.old) W.contents writer.old writer.new }
    ensures outcome { IfOk result (EndsKnown (registers_of size) (R.remaining reader.old)) }
    ensures flushed { OnOk result (W.flushed writer.new ≡ true) }
    ensures left { LeavesDeck (registers_of size) result R.Source W.Sink
        reader.old reader.new writer.old writer.new }
    ensures passed { PassedOn result (W.flushed writer.new) }
    ensures turns { ReadsInTurn (registers_of size) (R.reads reader.old) (R.reads reader.new)
        (W.contents writer.old) }
    ensures bound { GivesWithin (R.given reader.old) (R.given reader.new) }
    ensures reader { result ≢ Err Fault.ReadFault → R.failed reader.new ≡ false }
    ensures writer { W.failed writer.new ≡ is_write_fault result }
{
    match size {
        MemorySize::BareC => run_deck::<R, W, 64>(alloc, reader, writer),
        MemorySize::OneModule => run_deck::<R, W, 128>(alloc, reader, writer),
        MemorySize::TwoModules => run_deck::<R, W, 192>(alloc, reader, writer),
        MemorySize::ThreeModules => run_deck::<R, W, 256>(alloc, reader, writer),
        MemorySize::Cv => run_deck::<R, W, 320>(alloc, reader, writer),
    }
}
