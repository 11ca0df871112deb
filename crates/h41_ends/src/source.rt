//! The sources that bytes are read from.

ghost use Rattle.std.specs.Prelude.{◌≡◌, ◌||◌, ℕ, Bool, Option, false, List, [], ◌∷◌, None};
ghost use Rattle.std.specs.Prelude.{is_err, is_some, option_copied};
ghost use Rattle.std.specs.Io.{ReadsAtMost};
ghost use Rattle.std.specs.Io.KnownBytes.{ReadConsumes};
ghost use Rattle.std.specs.declared.io.Error.{Error};

use crate::sink::Sink;
use std::io;
use std::io::Read;

/// An input stream like `std::io::Read`, with an error flag that says whether a call has failed. An
/// interrupted call is a failed call like any other.
pub trait Source {
    ghost use Rattle.h41_ends.specs.Ends.{failure_after, given_more};

    // The bytes that further reads will deliver, if they are known.
    ghost remaining: { Self → Option (List ℕ) };

    // The error flag: whether a call has failed.
    ghost failed: { Self → Bool };

    // The error of the last call that failed, if one has failed.
    ghost failure: { Self → Option Error };

    // How many bytes the reads of this source have delivered, counted up to 2 ^ 64 - 1.
    ghost given: { Self → ℕ };

    /// Reads some bytes into the beginning of `buffer` and returns how many. 0 is the end of the
    /// input if the buffer has room. A call that fails reads nothing and sets the error flag, which
    /// no call clears.
    fn read(&mut self, buffer: &mut [u8]) -> io::Result<usize>
        ensures bound { ReadsAtMost result buffer.new }
        ensures bytes { ReadConsumes (remaining self.old) (remaining self.new) result buffer.new }
        ensures mark { failed self.new ≡ (failed self.old || is_err result) }
        ensures failure { failure self.new ≡ failure_after (failure self.old) result }
        ensures given { given self.new ≡ given_more (given self.old) result };

    /// Returns the error flag: whether a call has failed.
    fn failed(&self) -> bool
        ensures { result ≡ failed self.now };
}

/// An input stream that is read while the replies to it are written to an output stream. Each read is passed the sink
/// that the replies are written to, so that contracts can state what was written and flushed before the read.
pub trait Talk<W: Sink>: Source {
    ghost use Rattle.h41_ends.specs.Ends.{failure_after, given_more};
    ghost use Rattle.h41_ends.specs.ReadEvents.{AddsReads, ReadEvent, read_event};

    // The calls of `read_after` in order, if they are known: for each, what the sink had accepted before it, whether
    // that was flushed, and the bytes that the call delivered.
    ghost reads: { Self → Option (List ReadEvent) };

    /// Reads some bytes into the beginning of `buffer` and returns how many, as `Source::read` does. `writer` is the
    /// sink to which the replies to the bytes read so far were written; the call does not write to it.
    fn read_after(&mut self, writer: &W, buffer: &mut [u8]) -> io::Result<usize>
        ensures bound { ReadsAtMost result buffer.new }
        ensures bytes { ReadConsumes (Self.remaining self.old) (Self.remaining self.new)
            result buffer.new }
        ensures mark { Self.failed self.new ≡ (Self.failed self.old || is_err result) }
        ensures failure { Self.failure self.new ≡ failure_after (Self.failure self.old) result }
        ensures given { Self.given self.new ≡ given_more (Self.given self.old) result }
        ensures reads { AddsReads (reads self.old) (reads self.new)
            (read_event (W.contents writer.now) (W.flushed writer.now) result buffer.new ∷ []) };
}

/// A `Source` that reads from a `Read` of the standard library. It keeps the error of the last call that failed; its
/// error flag is set if there is one.
#[derive(Drop)]
pub struct FromRead<R> {
    reader: R,
    error: Option<io::Error>,
    /// How many bytes its reads have delivered. The count stops at the greatest `usize`.
    given: usize,
}

impl<R> FromRead<R> {
    ghost use Rattle.h41_ends.specs.Ends.{reader_of, has_read_failed, read_failure, read_given};

    /// Returns a source for a reader, with a clear error flag.
    pub fn new(reader: R) -> Self
        ensures reader { reader_of result ≡ reader }
        ensures clear { has_read_failed result ≡ false }
        ensures given { read_given result ≡ 0 }
    {
        FromRead {
            reader,
            error: None,
            given: 0,
        }
    }

    /// Returns the `Read` that the source reads from. The error flag and the last error are dropped.
    pub fn into_inner(self) -> R
        ensures { result ≡ reader_of self }
    {
        self.reader
    }

    /// Returns the error of the last call that failed, as the `Read` returned it, or `None` if no call has failed.
    pub fn error(&self) -> Option<&io::Error>
        ensures failed { is_some result ≡ has_read_failed self.now }
        ensures error { option_copied result ≡ read_failure self.now }
    {
        self.error.as_ref()
    }
}

impl<R: Read> Source for FromRead<R> {
    ghost remaining = { λ s. R.remaining s.reader };

    ghost failed = { λ s. is_some s.error };

    ghost failure = { λ s. s.error };

    ghost given = { λ s. s.given };

    fn read(&mut self, buffer: &mut [u8]) -> io::Result<usize> {
        match self.reader.read(buffer) {
            Ok(count) => {
                self.given = self.given.saturating_add(count);
                Ok(count)
            }
            Err(error) => {
                self.error = Some(error);
                Err(error)
            }
        }
    }

    fn failed(&self) -> bool {
        self.error.is_some()
    }
}

impl<R: Read, W: Sink> Talk<W> for FromRead<R> {
    ghost reads = { λ s. None };

    fn read_after(&mut self, _writer: &W, buffer: &mut [u8]) -> io::Result<usize> {
        self.read(buffer)
    }
}
