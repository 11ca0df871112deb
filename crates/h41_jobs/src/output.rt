//! Writes a text, or the answer to a source or a list of words, and flushes it.

ghost use Rattle.std.specs.Prelude.{◌≡◌, true, false, IfOk, OnOk, OnErr, is_err};
ghost use Rattle.h41_ends.specs.Ends.{Appended};
ghost use Rattle.h41_jobs.specs.Outputs.{AppendsFront};

use crate::ended::{Answer, Ended};
use h41_ends::{Sink, WriteFault, flush, write_whole};

/// Writes a text completely, and flushes it.
///
/// # Errors
///
/// `WriteFault` (23) if a write or the flush fails. A prefix of the text, or all of it, is written then.
pub fn write_text<W: Sink>(writer: &mut W, text: &[u8]) -> Result<(), WriteFault>
    requires { W.failed writer.old ≡ false }
    ensures text { OnOk result (Appended W.contents writer.old writer.new text.now) }
    ensures front { OnErr result (AppendsFront W.contents writer.old writer.new text.now) }
    ensures flushed { OnOk result (W.flushed writer.new ≡ true) }
    ensures mark { W.failed writer.new ≡ is_err result }
{
    write_whole(writer, text)?;
    flush(writer)
}

/// Writes the text of `answer` completely, flushes it, and returns `answer.ended`.
///
/// # Errors
///
/// `WriteFault` (23) if a write or the flush fails. A prefix of the text, or all of it, is written then.
pub fn write_answer<W: Sink>(writer: &mut W, answer: &Answer) -> Result<Ended, WriteFault>
    requires { W.failed writer.old ≡ false }
    ensures ended { IfOk result (λ ended. ended ≡ answer.now.ended) }
    ensures text { OnOk result (Appended W.contents writer.old writer.new answer.now.text.items) }
    ensures front { OnErr result
        (AppendsFront W.contents writer.old writer.new answer.now.text.items) }
    ensures flushed { OnOk result (W.flushed writer.new ≡ true) }
    ensures mark { W.failed writer.new ≡ is_err result }
{
    write_text(writer, &answer.text)?;
    Ok(answer.ended)
}
