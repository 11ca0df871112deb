//! The sinks that bytes are written to.

ghost use Rattle.std.specs.Prelude.{◌≡◌, ◌||◌, ℕ, Bool, Option, false, List, is_err, is_ok};
ghost use Rattle.std.specs.Io.{WritesAtMost};
ghost use Rattle.std.specs.Io.KnownBytes.{Keeps, WriteAppends};

use std::io;
use std::io::Write;

/// An output stream like `std::io::Write`, with an error flag that says whether a call has failed, and a flag that says whether
/// it was flushed after its last write. An interrupted call is a failed call like any other.
pub trait Sink {
    ghost use Rattle.h41_ends.specs.Ends.{is_failed_write};

    // The bytes that the sink has accepted, if they are known.
    ghost contents: { Self → Option (List ℕ) };

    // The error flag: whether a call has failed.
    ghost failed: { Self → Bool };

    // Whether the sink was flushed after its last write.
    ghost flushed: { Self → Bool };

    /// Writes a prefix of `bytes` and returns its length. A call that fails writes nothing and sets the error flag. A call
    /// that accepts no byte of a text that is not empty sets the flag too. No call clears it. The flag must be clear before
    /// the call, so that nothing is written after a failure.
    fn write(&mut self, bytes: &[u8]) -> io::Result<usize>
        requires { failed self.old ≡ false }
        ensures bound { WritesAtMost result bytes.now }
        ensures bytes { WriteAppends (contents self.old) (contents self.new) result bytes.now }
        ensures mark { failed self.new ≡ (failed self.old || is_failed_write result bytes.now) }
        ensures flushed { flushed self.new ≡ false };

    /// Passes on the bytes that are still in a buffer. A call that fails sets the error flag, which must be clear before
    /// the call.
    fn flush(&mut self) -> io::Result<()>
        requires { failed self.old ≡ false }
        ensures bytes { Keeps (contents self.old) (contents self.new) }
        ensures mark { failed self.new ≡ (failed self.old || is_err result) }
        ensures flushed { flushed self.new ≡ is_ok result };

    /// Returns the error flag: whether a call has failed.
    fn failed(&self) -> bool
        ensures { result ≡ failed self.now };

    /// Returns whether the sink was flushed after its last write.
    fn is_flushed(&self) -> bool
        ensures { result ≡ flushed self.now };
}

/// A `Sink` that writes to a `Write` of the standard library, with its error flag.
#[derive(Drop)]
pub struct ToWrite<W> {
    writer: W,
    has_failed: bool,
    is_flushed: bool,
}

impl<W> ToWrite<W> {
    ghost use Rattle.h41_ends.specs.Ends.{writer_of, has_write_failed, is_write_flushed};

    /// Returns a sink for a writer, with a clear error flag. It is not flushed yet.
    pub fn new(writer: W) -> Self
        ensures writer { writer_of result ≡ writer }
        ensures clear { has_write_failed result ≡ false }
        ensures flushed { is_write_flushed result ≡ false }
    {
        ToWrite {
            writer,
            has_failed: false,
            is_flushed: false,
        }
    }

    /// Returns the `Write` that the sink wrote to. Whether a write failed, and whether all bytes were flushed, is not known
    /// afterwards.
    pub fn into_inner(self) -> W
        ensures { result ≡ writer_of self }
    {
        self.writer
    }
}

impl<W: Write> Sink for ToWrite<W> {
    ghost contents = { λ s. W.contents s.writer };

    ghost failed = { λ s. s.has_failed };

    ghost flushed = { λ s. s.is_flushed };

    fn write(&mut self, bytes: &[u8]) -> io::Result<usize> {
        self.is_flushed = false;
        let result = self.writer.write(bytes);
        match &result {
            Ok(0) if !bytes.is_empty() => self.has_failed = true,
            Err(_) => self.has_failed = true,
            Ok(_) => {}
        }
        result
    }

    fn flush(&mut self) -> io::Result<()> {
        let result = self.writer.flush();
        self.is_flushed = result.is_ok();
        if result.is_err() {
            self.has_failed = true;
        }
        result
    }

    fn failed(&self) -> bool {
        self.has_failed
    }

    fn is_flushed(&self) -> bool {
        self.is_flushed
    }
}
