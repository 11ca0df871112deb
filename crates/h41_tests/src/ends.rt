//! Input and output streams for tests, which deliver and accept a few bytes per call, and fail at a given call.

ghost use Rattle.std.specs.Prelude.{◌≡◌, ◌+◌, ◌-◌, ◌≤◌, ◌<◌, ℕ, false, min, None, Some, take, drop};
ghost use Rattle.std.specs.Prelude.{length};

use h41_deck::{Sink, Source, Talk};
use std::alloc::Global;
use std::io;
use std::io::ErrorKind;

/// An input stream over a slice, which delivers at most `most` bytes per call and fails after `calls` calls.
#[derive(Drop)]
pub struct SourceInPieces<'a> {
    /// The bytes that are not delivered yet.
    pub rest: &'a [u8],
    /// The most bytes that one call of `read` delivers, at least 1.
    pub most: usize,
    /// How many calls of `read` still succeed before one fails.
    pub calls: usize,
    /// The error flag: whether a read has failed.
    pub has_failed: bool,
    /// The error of the failed read, if one has failed.
    pub failure: Option<io::Error>,
    /// The number of bytes delivered, at most 2^64 - 1.
    pub given: usize,
    ghost some: { 0 < most },
}

impl Source for SourceInPieces<'_> {
    ghost remaining = { λ s. Some s.rest.now };

    ghost failed = { λ s. s.has_failed };

    ghost failure = { λ s. s.failure };

    ghost given = { λ s. s.given };

    fn read(&mut self, buffer: &mut [u8]) -> io::Result<usize> {
        if self.calls == 0 {
            let error = io::Error::from(ErrorKind::Other);
            self.has_failed = true;
            self.failure = Some(error);
            return Err(error);
        }
        self.calls -= 1;
        let count = self.rest.len().min(self.most).min(buffer.len());
        buffer[..count].copy_from_slice(&self.rest[..count]);
        self.rest = &self.rest[count..];
        self.given = given_with(self.given, count);
        Ok(count)
    }

    fn failed(&self) -> bool {
        self.has_failed
    }
}

impl<W: Sink> Talk<W> for SourceInPieces<'_> {
    ghost reads = { λ _. None };

    fn read_after(&mut self, _writer: &W, buffer: &mut [u8]) -> io::Result<usize> {
        self.read(buffer)
    }
}

/// Returns `given` + `count`, the number of bytes delivered, or 2^64 - 1 if the sum is greater.
pub fn given_with(given: usize, count: usize) -> usize
    ensures { result ≡ given + min count (18446744073709551615 - given) }
{
    given.saturating_add(count)
}

/// An output stream that accepts at most `most` bytes per write. After `calls` writes, each write and flush fails.
#[derive(Drop)]
pub struct Slow {
    /// The bytes that were accepted, in order.
    pub taken: Vec<u8>,
    /// The most bytes that one write accepts.
    pub most: usize,
    /// How many further writes succeed. After them, each write and each flush fails.
    pub calls: usize,
    /// The error flag: whether a call has failed, or a write has accepted nothing.
    pub has_failed: bool,
    /// Whether the stream was flushed after its last write.
    pub is_flushed: bool,
}

impl Sink for Slow {
    ghost contents = { λ s. Some s.taken.items };

    ghost failed = { λ s. s.has_failed };

    ghost flushed = { λ s. s.is_flushed };

    fn write(&mut self, bytes: &[u8]) -> io::Result<usize> {
        self.is_flushed = false;
        let count = bytes.len().min(self.most);
        if self.calls == 0 || self.taken.extend_from_slice(&bytes[..count]).is_err() {
            self.has_failed = true;
            return Err(io::Error::from(ErrorKind::Other));
        }
        self.calls -= 1;
        if count == 0 && !bytes.is_empty() {
            self.has_failed = true;
        }
        Ok(count)
    }

    fn flush(&mut self) -> io::Result<()> {
        self.is_flushed = self.calls > 0;
        if self.calls == 0 {
            self.has_failed = true;
            return Err(io::Error::from(ErrorKind::Other));
        }
        Ok(())
    }

    fn is_flushed(&self) -> bool {
        self.is_flushed
    }

    fn failed(&self) -> bool {
        self.has_failed
    }
}

/// Returns an input stream that delivers a text, at most `most` bytes per call (at least 1), and fails after `calls`
/// calls.
pub fn reader<'a>(text: &'a str, most: usize, calls: usize) -> SourceInPieces<'a>
    requires { 0 < most }
    ensures { result.has_failed ≡ false }
{
    SourceInPieces {
        rest: text.as_bytes(),
        most,
        calls,
        has_failed: false,
        failure: None,
        given: 0,
    }
}

/// Returns an output stream that accepts at most `most` bytes per write. After `calls` writes, each write and flush
/// fails.
pub fn writer(alloc: Global, most: usize, calls: usize) -> Slow
    ensures { result.has_failed ≡ false }
{
    Slow {
        taken: Vec::new(alloc),
        most,
        calls,
        has_failed: false,
        is_flushed: false,
    }
}

/// An input stream of many bytes that takes little memory: the bytes `before`, then `blanks` spaces, then the bytes
/// `after`. No read fails. Contracts say nothing about its bytes.
#[derive(Drop)]
pub struct Long<'a> {
    /// The bytes before the spaces that are not delivered yet.
    pub before: &'a [u8],
    /// The number of spaces that are not delivered yet.
    pub blanks: usize,
    /// The bytes after the spaces that are not delivered yet.
    pub after: &'a [u8],
    /// The number of bytes delivered, at most 2^64 - 1.
    pub given: usize,
}

impl Source for Long<'_> {
    ghost remaining = { λ _. None };

    ghost failed = { λ _. false };

    ghost failure = { λ _. None };

    ghost given = { λ s. s.given };

    fn read(&mut self, buffer: &mut [u8]) -> io::Result<usize> {
        if self.before.is_empty() && self.blanks > 0 {
            let count = self.blanks.min(buffer.len());
            buffer[..count].fill(b' ');
            self.blanks -= count;
            self.given = given_with(self.given, count);
            return Ok(count);
        }
        let given = self.given;
        let rest = if self.before.is_empty() {
            &mut self.after
        } else {
            &mut self.before
        };
        let count = rest.len().min(buffer.len());
        buffer[..count].copy_from_slice(&rest[..count]);
        *rest = &rest[count..];
        self.given = given_with(given, count);
        Ok(count)
    }

    fn failed(&self) -> bool {
        false
    }
}

impl<W: Sink> Talk<W> for Long<'_> {
    ghost reads = { λ _. None };

    fn read_after(&mut self, _writer: &W, buffer: &mut [u8]) -> io::Result<usize> {
        self.read(buffer)
    }
}
