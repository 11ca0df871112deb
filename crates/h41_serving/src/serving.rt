//! Executes a deck, assembles a source or lists words from one stream to another, and returns the exit status.

ghost use Rattle.std.specs.Prelude.{◌≡◌, ◌≢◌, ◌≤◌, true, false, IfSome};
ghost use Rattle.h41_ends.specs.Ends.{GivesWithin};
ghost use Rattle.h41_jobs.specs.Texts.{mistake_line};
ghost use Rattle.h41_serving.specs.Statuses.{EndsJob, ErrorFlagGivesStatus, IsTaskStatus};
ghost use Rattle.h41_serving.specs.Statuses.{TellsFault};
ghost use Rattle.h41_serving.specs.Statuses.{fault_line};
ghost use Rattle.h41_serving.specs.Tasks.{JobLeavesFront, JobLeavesPartial, JobLeavesUnread};
ghost use Rattle.h41_serving.specs.Tasks.{JobPassedOn};
ghost use Rattle.h41_serving.specs.Tasks.{JobWritesText, TaskInTurn, Tells, TellsWord};
ghost use Rattle.h41_serving.specs.Tasks.{ended_of_deck};
ghost use Rattle.h41_serving.specs.private.CarriedOut.{CarriesOut};

use crate::inputs::{assemble_source, list_words};
use crate::memory::run_with;
use h41_deck::Outcome;
use h41_ends::{Sink, Talk};
use h41_jobs::{Ended, Job, Task, mistake_line, write_text};
use h41_refusals::Fault;
use std::alloc::Global;

/// The exit status if nothing was refused and nothing failed: 0.
pub const ACCEPTED: u8 = 0;

/// The exit status if a refusal was printed: 1.
pub const REFUSED: u8 = 1;

/// The exit status if reading, writing or allocation failed: 3.
pub const FAILED: u8 = 3;

/// The exit status if the command line or a word of a list is wrong: 2.
pub const MISTAKEN: u8 = 2;

/// Does the task of `job` with the bytes of `reader`, writes what it prints to `writer`, and returns the exit status:
/// 0, 1 if a refusal was printed, 2 if a word of a list is wrong, or 3 if reading, writing or allocation failed. For 2
/// and 3 a line that says what is wrong goes to `faults`. The error flags of the three streams must be clear.
pub fn serve<R: Talk<W>, W: Sink, E: Sink>(
    alloc: Global,
    job: Job<'_>,
    reader: &mut R,
    writer: &mut W,
    faults: &mut E,
) -> u8
    requires reader_clear { R.failed reader.old ≡ false }
    requires writer_clear { W.failed writer.old ≡ false }
    requires faults_clear { E.failed faults.old ≡ false }
    ensures status { IsTaskStatus job.entry.task result }

    // If nothing failed, the complete text is written and flushed, and the status says how the deck, source or list
    // ended.
    ensures text { JobWritesText result job.entry R.Source W.Sink reader.old writer.old writer.new }
    ensures flushed { result ≢ 3 → W.flushed writer.new ≡ true }
    ensures outcome { result ≢ 3 → IfSome (R.remaining reader.old) (EndsJob job.entry result) }

    // A wrong word is reported by its number, if `faults` accepts the line. If nothing is wrong, `faults` is not used.
    ensures silent { result ≤ 1 → faults.new ≡ faults.old }
    ensures mistake { TellsWord result job.entry R.Source E.Sink reader.old faults.old faults.new }

    // If a read or a write failed, the status is 3.
    ensures reader { ErrorFlagGivesStatus result (R.failed reader.new) }
    ensures writer { ErrorFlagGivesStatus result (W.failed writer.new) }

    // If something failed, the replies to the first commands of a deck are written, and nothing of a source or of a
    // list. If writing failed, a prefix of these replies, or of the text of the source or list, is written. What is
    // written is flushed before the error is reported. The error says correctly what failed, and its line is reported
    // if `faults` accepts it.
    ensures partial { JobLeavesPartial result job.entry R.Source W.Sink
        reader.old reader.new writer.old writer.new }
    ensures unread { JobLeavesUnread job.entry R.Source W.Sink
        reader.old reader.new writer.old writer.new }
    ensures cut { JobLeavesFront result job.entry R.Source W.Sink
        reader.old reader.new writer.old writer.new }
    ensures passed { JobPassedOn result job.entry (W.failed writer.new) (W.flushed writer.new) }
    ensures fault { TellsFault result job.entry.task R.Source W.Sink E.Sink
        reader.old reader.new writer.old writer.new faults.old faults.new }

    // At each read of a deck, the replies to all commands whose last line end was read are written and flushed, and
    // nothing else is written. Of any input, at most one byte more is read than the limit.
    ensures turns { TaskInTurn job.entry.task (R.reads reader.old) (R.reads reader.new)
        (W.contents writer.old) }
    ensures bound { GivesWithin (R.given reader.old) (R.given reader.new) }
{
    match carry_out(alloc, job.task, reader, writer) {
        Ok(Ended::Accepted) => ACCEPTED,
        Ok(Ended::Refused) => REFUSED,
        Ok(Ended::WrongWord(number)) => tell_mistake(number, faults),
        Err(fault) => tell(fault, faults),
    }
}

/// Executes the deck, assembles the source or lists the words that `reader` delivers, and writes the text to `writer`.
/// Returns whether a refusal was printed, or the number of a wrong word.
///
/// # Errors
///
/// `ReadFault` (22), `WriteFault` (23) and `OutOfMemory` (21).
fn carry_out<R: Talk<W>, W: Sink>(
    alloc: Global,
    task: Task,
    reader: &mut R,
    writer: &mut W,
) -> Result<Ended, Fault>
    requires reader_clear { R.failed reader.old ≡ false }
    requires writer_clear { W.failed writer.old ≡ false }
    ensures carried { CarriesOut task result R.Source W.Sink
        reader.old reader.new writer.old writer.new }
    ensures turns { TaskInTurn task (R.reads reader.old) (R.reads reader.new)
        (W.contents writer.old) }
{
    match task {
        Task::Run { memory } => Ok(ended(run_with(alloc, memory, reader, writer)?)),
        Task::Assemble { origin } => assemble_source(alloc, origin, reader, writer),
        Task::List { origin } => list_words(alloc, origin, reader, writer),
    }
}

/// Returns the outcome of a deck as an `Ended`: whether a refusal was printed.
fn ended(outcome: Outcome) -> Ended
    ensures { result ≡ ended_of_deck outcome }
{
    match outcome {
        Outcome::Accepted => Ended::Accepted,
        Outcome::Refused => Ended::Refused,
    }
}

/// Reports a wrong word of a list by its number, counted from 1, as far as `faults` accepts the line. Returns the exit
/// status 2.
fn tell_mistake<E: Sink>(number: usize, faults: &mut E) -> u8
    requires { E.failed faults.old ≡ false }
    ensures status { result ≡ 2 }
    ensures line { Tells E.Sink faults.old faults.new (mistake_line number) }
{
    tell_text(mistake_line(number).as_str(), faults);
    MISTAKEN
}

/// Reports an error by its line, for example `! 22 ReadFault`, as far as `faults` accepts it. Returns the exit status
/// 3.
pub fn tell<E: Sink>(fault: Fault, faults: &mut E) -> u8
    requires { E.failed faults.old ≡ false }
    ensures status { result ≡ 3 }
    ensures line { Tells E.Sink faults.old faults.new (fault_line fault) }
{
    tell_text(fault.refusal().line().as_str(), faults);
    FAILED
}

/// Writes a text to `faults` and flushes it. If a write or the flush fails, nothing more is written to it.
pub(crate) fn tell_text<E: Sink>(text: &str, faults: &mut E)
    requires { E.failed faults.old ≡ false }
    ensures { Tells E.Sink faults.old faults.new text.now }
{
    let _ = write_text(faults, text.as_bytes());
}
