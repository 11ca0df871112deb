//! Reads the lines of an input one at a time, over reads of any size.

ghost use Rattle.std.specs.Prelude.{◌≡◌, ◌≤◌, true, false};
ghost use Rattle.h41_ends.specs.Ends.{most_bytes};

use crate::fault::LineReadFault;
use crate::input::MOST_BYTES;
use crate::line_ends::line_end;
use crate::output::flush_rest;
use crate::sink::Sink;
use crate::source::Talk;
use h41_lines::lines::without_return;

/// The most bytes of a line that `InputLines::line` returns: 201, one more than a deck line may have, so that a caller
/// sees that a line is too long.
pub const MOST_TOLD: usize = 201;

/// How many bytes of an unfinished line are kept between reads: 202. A line with so many bytes is too long even if the last of
/// them is a CR.
const KEPT: usize = MOST_TOLD + 1;

/// The size of the buffer of an `InputLines`, in bytes.
const BLOCK: usize = 4096;

/// Reads an input line by line. It keeps a block of the bytes that were read and not yet returned.
#[derive(Debug, Drop)]
pub struct InputLines {
    buffer: [u8; BLOCK],
    /// The index in `buffer` of the first byte that was read and is not part of a returned line.
    start: usize,
    /// The index in `buffer` just after the last byte that was read.
    end: usize,
    /// The index in `buffer` at which the line that was returned last begins.
    line_start: usize,
    /// The index in `buffer` just after the line that was returned last.
    line_end: usize,
    /// How many bytes of the input were read, at most `MOST_BYTES`. A byte above this limit is not counted.
    count: usize,
    /// Whether a read has shown that the input has more than `MOST_BYTES` bytes.
    is_over: bool,
    /// Whether a read has reached the end of the input.
    at_end: bool,
    ghost held: { start ≤ end },
    ghost held_end: { end ≤ 4096 },
    ghost told: { line_start ≤ line_end },
    ghost told_end: { line_end ≤ 4096 },
    ghost bound: { count ≤ most_bytes },
    ghost within: { at_end ≡ true → is_over ≡ false },
    ghost nothing: { at_end ≡ true → start ≡ end },
}

impl InputLines {
    ghost use Rattle.std.specs.Prelude.{◌≡◌, ◌≢◌, ◌⊎◌, ◌≤◌, ◌<◌, ◌+◌, ◌==◌, ℕ, [], true, false};
    ghost use Rattle.std.specs.Prelude.{Some, Err, Ok, OnErr, OnOk, position};
    ghost use Rattle.std.specs.Io.KnownBytes.{Keeps};
    ghost use Rattle.h41_ends.specs.Ends.{is_write_fault};
    ghost use Rattle.h41_ends.specs.HeardLines.{AreNone, Hears};
    ghost use Rattle.h41_ends.specs.InputLines.{CountsOn, HasRead, IsCounted, IsStopped, IsTold};
    ghost use Rattle.h41_ends.specs.InputLines.{IsUnended};
    ghost use Rattle.h41_ends.specs.InputLines.{ReadsMore, held_in, line_in, lines_told, most_left};
    ghost use Rattle.h41_ends.specs.private.ReadingOn.{Shortens, TakesRead, TellsEnded, TellsLast};
    ghost use Rattle.h41_ends.specs.private.ReadingOn.{ReachesEnd, reads_left};

    /// Returns an `InputLines` that has read nothing yet.
    pub fn new() -> Self
        ensures nothing { HasRead [] [] result }
        ensures counted { (given : ℕ) → IsCounted result given given }
        ensures goes_on { result.at_end ≡ false }
    {
        InputLines {
            buffer: [0; BLOCK],
            start: 0,
            end: 0,
            line_start: 0,
            line_end: 0,
            count: 0,
            is_over: false,
            at_end: false,
        }
    }

    /// Returns the line that `next_line` has just read, without its line end (LF, or CR and LF). Of a line of more than
    /// 201 bytes, it returns the first 201. Before the first call of `next_line`, it returns no bytes. After a call that
    /// did not return `Ok(true)`, the line before may be lost.
    #[inline(always)]
    pub fn line(&self) -> &[u8]
        ensures { result.now ≡ line_in self.now }
    {
        &self.buffer[self.line_start..self.line_end]
    }

    /// Reads up to the end of the next line and returns whether there is one; `line` then returns it. Of a line of more
    /// than 201 bytes the rest is skipped and not kept. The writer is flushed before each read, unless it is flushed
    /// already. The error flags of the reader and the writer must be clear.
    ///
    /// # Errors
    ///
    /// `ReadFault` (22) if a read fails, or if the line's end is not within the first 67,108,864 bytes; `WriteFault`
    /// (23) if the writer cannot be flushed.
    #[inline(always)]
    pub fn next_line<R: Talk<W>, W: Sink>(
        &mut self,
        reader: &mut R,
        writer: &mut W,
    ) -> Result<bool, LineReadFault>
        requires reader_clear { R.failed reader.old ≡ false }
        requires writer_clear { W.failed writer.old ≡ false }
        ensures lines { ReadsMore (R.remaining reader.old) (R.remaining reader.new)
            self.old self.new (lines_told result self.new) }
        ensures heard { Hears AreNone (R.reads reader.old) (R.reads reader.new)
            (W.contents writer.old) self.old self.new (lines_told result self.new) }
        ensures end { result ≡ Ok false → IsTold self.new }
        ensures bound { OnOk result (most_left self.new ≤ most_left self.old) }
        ensures fewer { result ≡ Ok true → most_left self.new < most_left self.old }

        // ReadFault (22) is returned only if a read failed or the input is too long, and only after a flush.
        ensures stopped { result ≡ Err LineReadFault.ReadFault → IsStopped self.new }
        ensures cause { result ≡ Err LineReadFault.ReadFault
            → (R.failed reader.new ≡ true) ⊎ (self.new.is_over ≡ true) }
        ensures flushed { result ≡ Err LineReadFault.ReadFault → W.flushed writer.new ≡ true }

        ensures kept { Keeps (W.contents writer.old) (W.contents writer.new) }
        ensures counted { CountsOn self.old self.new (R.given reader.old) (R.given reader.new) }
        ensures reader { result ≢ Err LineReadFault.ReadFault → R.failed reader.new ≡ false }
        ensures writer { W.failed writer.new ≡ is_write_fault result }
    {
        loop {
            if let Some(end) = line_end(self.held()) {
                self.tell_ended(end);
                return Ok(true);
            }
            if self.at_end {
                return Ok(false);
            }
            if !self.read_more(reader, writer)? {
                return Ok(self.tell_last());
            }
        }
    }

    /// Returns the buffered bytes: those that were read and are not part of a returned line.
    #[inline(always)]
    fn held(&self) -> &[u8]
        ensures { result.now ≡ held_in self.now }
    {
        &self.buffer[self.start..self.end]
    }

    /// Makes the buffered bytes before the LF at `end`, at most the first 201, the line that `line` returns. `end` is
    /// counted from the first buffered byte. A CR before the LF is not part of the line.
    #[inline(always)]
    fn tell_ended(&mut self, end: usize)
        requires { Some end ≡ position (λ byte. byte == 10) (held_in self.old) }
        ensures { TellsEnded self.old end self.new }
    {
        let line = without_return(&self.held()[..end]).len();
        self.line_start = self.start;
        self.line_end = self.start + line.min(MOST_TOLD);
        self.start += end + 1;
    }

    /// Makes the buffered bytes, at most the first 201, the last line of the input, if there are any, and returns
    /// whether there are. It is called when a read has reached the end of the input.
    #[inline(never)]
    fn tell_last(&mut self) -> bool
        requires { self.old.is_over ≡ false }
        ensures { TellsLast self.old result self.new }
    {
        let count = self.end - self.start;
        self.line_start = self.start;
        self.line_end = self.start + count.min(MOST_TOLD);
        self.start = self.end;
        self.at_end = true;
        count > 0
    }

    /// Flushes the writer, shortens the unfinished line in the buffer to 202 bytes, and reads more bytes after it.
    /// Returns whether there were any; if not, the end of the input is reached. `ReadFault` (22) if the read fails or
    /// the input has more than 67,108,864 bytes; `WriteFault` (23) if the writer cannot be flushed.
    #[inline(never)]
    fn read_more<R: Talk<W>, W: Sink>(
        &mut self,
        reader: &mut R,
        writer: &mut W,
    ) -> Result<bool, LineReadFault>
        requires unended { IsUnended (held_in self.old) }
        requires goes_on { self.old.at_end ≡ false }
        requires reader_clear { R.failed reader.old ≡ false }
        requires writer_clear { W.failed writer.old ≡ false }
        ensures lines { ReadsMore (R.remaining reader.old) (R.remaining reader.new)
            self.old self.new [] }
        ensures heard { Hears AreNone (R.reads reader.old) (R.reads reader.new)
            (W.contents writer.old) self.old self.new [] }
        ensures goes_on { self.new.at_end ≡ false }
        ensures less { result ≡ Ok true → reads_left self.new < reads_left self.old }
        ensures end { result ≡ Ok false → ReachesEnd (R.remaining reader.new) self.new }
        ensures bound { OnOk result (most_left self.new ≤ most_left self.old) }
        ensures stopped { OnErr result (IsStopped self.new) }
        ensures cause { result ≡ Err LineReadFault.ReadFault
            → (R.failed reader.new ≡ true) ⊎ (self.new.is_over ≡ true) }
        ensures flushed { result ≡ Err LineReadFault.ReadFault → W.flushed writer.new ≡ true }
        ensures kept { Keeps (W.contents writer.old) (W.contents writer.new) }
        ensures counted { CountsOn self.old self.new (R.given reader.old) (R.given reader.new) }
        ensures reader { result ≢ Err LineReadFault.ReadFault → R.failed reader.new ≡ false }
        ensures writer { W.failed writer.new ≡ is_write_fault result }
    {
        flush_rest(writer)?;
        if self.is_over {
            return Err(LineReadFault::ReadFault);
        }
        self.shorten();
        let most = (BLOCK - self.end).min(MOST_BYTES - self.count + 1);
        match reader.read_after(writer, &mut self.buffer[self.end..self.end + most]) {
            Ok(count) => {
                self.take_read(count);
                Ok(count > 0)
            }
            Err(_) => Err(LineReadFault::ReadFault),
        }
    }

    /// Moves the buffered bytes to the start of the buffer, and drops those after the first 202. The line that was
    /// returned last is dropped, too.
    fn shorten(&mut self)
        ensures { Shortens self.old self.new }
    {
        let kept = (self.end - self.start).min(KEPT);
        self.buffer.copy_within(self.start..self.start + kept, 0);
        self.start = 0;
        self.end = kept;
        self.line_start = 0;
        self.line_end = 0;
    }

    /// Adds the `count` bytes that were just read into the buffer to the buffered bytes, as many as the limit of
    /// 67,108,864 bytes permits. If there are more, it notes that the input is too long.
    fn take_read(&mut self, count: usize)
        requires room { self.old.end + count ≤ 4096 }
        requires clear { self.old.is_over ≡ false }
        requires goes_on { self.old.at_end ≡ false }
        ensures { TakesRead self.old count self.new }
    {
        let room = MOST_BYTES - self.count;
        let taken = count.min(room);
        self.end += taken;
        self.count += taken;
        self.is_over = count > room;
    }
}
