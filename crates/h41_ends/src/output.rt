//! Writes an output completely.

ghost use Rattle.std.specs.Prelude.{◌≡◌, true, false, OnOk, is_err};
ghost use Rattle.std.specs.Io.KnownBytes.{Keeps};
ghost use Rattle.h41_ends.specs.Ends.{Writes};

use crate::fault::WriteFault;
use crate::sink::Sink;

/// Writes all bytes to the sink. If a write accepts only a part of them, further writes follow. The error flag of the
/// sink must be clear.
///
/// # Errors
///
/// `WriteFault` (23) if a write fails or accepts no byte. A prefix of the bytes, and not all of them, is written then.
pub fn write_whole<W: Sink>(writer: &mut W, bytes: &[u8]) -> Result<(), WriteFault>
    requires { W.failed writer.old ≡ false }
    ensures written { Writes result W.contents writer.old writer.new bytes.now }
    ensures mark { W.failed writer.new ≡ is_err result }
{
    let mut written = 0;
    while written < bytes.len() {
        match writer.write(&bytes[written..]) {
            Ok(0) | Err(_) => return Err(WriteFault),
            Ok(count) => written += count,
        }
    }
    Ok(())
}

/// Flushes the sink, so that bytes in its buffer are passed on. The error flag of the sink must be clear.
///
/// # Errors
///
/// `WriteFault` (23) if the flush fails.
pub fn flush<W: Sink>(writer: &mut W) -> Result<(), WriteFault>
    requires { W.failed writer.old ≡ false }
    ensures bytes { Keeps (W.contents writer.old) (W.contents writer.new) }
    ensures flushed { OnOk result (W.flushed writer.new ≡ true) }
    ensures mark { W.failed writer.new ≡ is_err result }
{
    match writer.flush() {
        Ok(()) => Ok(()),
        Err(_) => Err(WriteFault),
    }
}

/// Flushes the sink, unless it was flushed after its last write. The error flag of the sink must be clear.
///
/// # Errors
///
/// `WriteFault` (23) if the flush fails.
#[inline(always)]
pub fn flush_rest<W: Sink>(writer: &mut W) -> Result<(), WriteFault>
    requires { W.failed writer.old ≡ false }
    ensures bytes { Keeps (W.contents writer.old) (W.contents writer.new) }
    ensures flushed { OnOk result (W.flushed writer.new ≡ true) }
    ensures mark { W.failed writer.new ≡ is_err result }
{
    if writer.is_flushed() {
        return Ok(());
    }
    flush(writer)
}
