//! Streams for tests that fail once, and an input stream that checks whether the replies to earlier commands are
//! flushed before each read.

ghost use Rattle.std.specs.Prelude.{◌≡◌, ◌<◌, ◌≤◌, false, None, Some, length};

use crate::ends::given_with;
use crate::pieces::Commands;
use h41_deck::{Sink, Source, Talk};
use std::alloc::Global;
use std::cell::Cell;
use std::io;
use std::io::ErrorKind;

/// An input stream over bytes, which delivers at most `most` of them per call. One call can be made to fail.
#[derive(Drop)]
pub struct Reader<'a> {
    rest: &'a [u8],
    most: usize,
    fails: Option<usize>,
    calls: usize,
    has_failed: bool,
    failure: Option<io::Error>,
    given: usize,
    watched: Option<(Commands, &'a Cell<usize>)>,
    was_late: bool,
    ghost some: { 0 < most },
}

impl<'a> Reader<'a> {
    /// Returns an input stream over `bytes`, which delivers at most `most` bytes per call, and at least one as long as
    /// there are some. The call with the number `fails`, counted from 0, fails; `None` for no failure.
    pub fn new(bytes: &'a [u8], most: usize, fails: Option<usize>) -> Self
        ensures { result.has_failed ≡ false }
    {
        let most = if most == 0 { 1 } else { most };
        Reader {
            rest: bytes,
            most,
            fails,
            calls: 0,
            has_failed: false,
            failure: None,
            given: 0,
            watched: None,
            was_late: false,
        }
    }

    /// Makes the stream check at each read that the replies to all commands of `deck` whose end was delivered are
    /// flushed: that `passed`, the number of flushed bytes, is the length of these replies.
    pub fn watch(&mut self, deck: Commands, passed: &'a Cell<usize>)
        ensures { self.new.has_failed ≡ self.old.has_failed }
    {
        self.watched = Some((deck, passed));
    }

    /// Returns whether, at each read since `watch`, the replies to all commands whose end was delivered were flushed.
    pub fn was_in_time(&self) -> bool {
        !self.was_late
    }

    /// Returns the number of reads so far, including a failed one.
    pub fn calls(&self) -> usize {
        self.calls
    }
}

/// Returns the number of bytes of the replies to those commands of a deck whose end is in its first `given` bytes.
fn count_within(deck: Commands, given: usize) -> usize {
    let mut end = 0usize;
    let mut count = 0usize;
    for (lines, reply) in deck {
        end = end.saturating_add(lines.len());
        if end <= given {
            count = count.saturating_add(reply.len());
        }
    }
    count
}

impl Source for Reader<'_> {
    ghost remaining = { λ s. Some s.rest.now };

    ghost failed = { λ s. s.has_failed };

    ghost failure = { λ s. s.failure };

    ghost given = { λ s. s.given };

    fn read(&mut self, buffer: &mut [u8]) -> io::Result<usize> {
        let call = self.calls;
        self.calls = call.saturating_add(1);
        if let Some((deck, passed)) = self.watched {
            if passed.get() != count_within(deck, self.given) {
                self.was_late = true;
            }
        }
        if self.fails == Some(call) {
            let error = io::Error::from(ErrorKind::Other);
            self.has_failed = true;
            self.failure = Some(error);
            return Err(error);
        }
        let count = self.rest.len().min(self.most).min(buffer.len());
        buffer[..count].copy_from_slice(&self.rest[..count]);
        self.rest = &self.rest[count..];
        self.given = given_with(self.given, count);
        Ok(count)
    }

    fn failed(&self) -> bool {
        self.has_failed
    }
}

impl<W: Sink> Talk<W> for Reader<'_> {
    ghost reads = { λ _. None };

    fn read_after(&mut self, _writer: &W, buffer: &mut [u8]) -> io::Result<usize> {
        self.read(buffer)
    }
}

/// How one call of an output stream fails.
#[derive(Clone, Copy, Debug, PartialEq, Eq)]
pub enum Once {
    /// The call returns an error.
    Fails,
    /// A write accepts no byte; a flush returns an error.
    TakesNothing,
}

/// An output stream that accepts at most `most` bytes per call. One of its calls, writes and flushes counted together,
/// can be made to fail or to accept nothing.
#[derive(Drop)]
pub struct Writer<'a> {
    /// The bytes that were accepted, in order.
    pub taken: Vec<u8>,
    most: usize,
    fails: Option<(usize, Once)>,
    calls: usize,
    flushes: usize,
    has_failed: bool,
    is_flushed: bool,
    passed: Option<&'a Cell<usize>>,
}

impl<'a> Writer<'a> {
    /// Returns an output stream that has accepted nothing, and accepts at most `most` bytes per write. If `fails` is a
    /// number, counted from 0 over writes and flushes, and a `Once`, the call with this number fails as the `Once`
    /// says.
    pub fn new(alloc: Global, most: usize, fails: Option<(usize, Once)>) -> Self
        ensures { result.has_failed ≡ false }
    {
        Writer {
            taken: Vec::new(alloc),
            most,
            fails,
            calls: 0,
            flushes: 0,
            has_failed: false,
            is_flushed: false,
            passed: None,
        }
    }

    /// Makes each successful flush store in `passed` how many bytes were accepted until then.
    pub fn tell(&mut self, passed: &'a Cell<usize>)
        ensures { self.new.has_failed ≡ self.old.has_failed }
    {
        self.passed = Some(passed);
    }

    /// Returns the number of writes and flushes so far.
    pub fn calls(&self) -> usize {
        self.calls
    }

    /// Returns the number of calls of `flush` so far.
    pub fn flushes(&self) -> usize {
        self.flushes
    }

    /// Returns whether everything that was accepted is flushed.
    pub fn is_passed_on(&self) -> bool {
        self.is_flushed
    }

    /// Counts a write or a flush, and returns how it must fail, or `None` if it must succeed.
    fn next_call(&mut self) -> Option<Once>
        ensures taken { self.new.taken ≡ self.old.taken }
        ensures mark { self.new.has_failed ≡ self.old.has_failed }
        ensures flushed { self.new.is_flushed ≡ self.old.is_flushed }
    {
        let call = self.calls;
        self.calls = call.saturating_add(1);
        match self.fails {
            Some((fails, once)) if fails == call => Some(once),
            _ => None,
        }
    }
}

impl Sink for Writer<'_> {
    ghost contents = { λ s. Some s.taken.items };

    ghost failed = { λ s. s.has_failed };

    ghost flushed = { λ s. s.is_flushed };

    fn write(&mut self, bytes: &[u8]) -> io::Result<usize> {
        self.is_flushed = false;
        let once = self.next_call();
        let count = match once {
            Some(_) => 0,
            None => bytes.len().min(self.most),
        };
        if once == Some(Once::Fails) || self.taken.extend_from_slice(&bytes[..count]).is_err() {
            self.has_failed = true;
            return Err(io::Error::from(ErrorKind::Other));
        }
        if count == 0 && !bytes.is_empty() {
            self.has_failed = true;
        }
        Ok(count)
    }

    fn flush(&mut self) -> io::Result<()> {
        let once = self.next_call();
        self.flushes = self.flushes.saturating_add(1);
        self.is_flushed = once.is_none();
        if once.is_some() {
            self.has_failed = true;
            return Err(io::Error::from(ErrorKind::Other));
        }
        if let Some(passed) = self.passed {
            passed.set(self.taken.len());
        }
        Ok(())
    }

    fn is_flushed(&self) -> bool {
        self.is_flushed
    }

    fn failed(&self) -> bool {
        self.has_failed
    }
}
