//! Executes `run`, `trace`, `break` and `unbreak`.

ghost use Rattle.std.specs.Prelude.{◌≡◌, ◌≤◌, [], false, length, is_err};
ghost use Rattle.h41_commands.specs.declared.commands.Command.TheVariants as commands;
ghost use Rattle.h41_deck.specs.Answers.{ends_by};
ghost use Rattle.h41_deck.specs.Replies.{Reply};
ghost use Rattle.h41_deck.specs.Runs as spec;
ghost use Rattle.h41_deck.specs.private.Writing.{RunsAlone, IsTraceLine, TracesAlone};

use arrayvec::ArrayString;
use h41_breakpoints::Location;
use h41_debug::laws::steps_are_traced;
use h41_debug::{Bench, Stop, TRACE_CAPACITY};
use h41_ends::{Sink, WriteFault, write_whole};
use h41_refusals::Refusal;
use itoa::Buffer;

/// Room for what `run` prints: `ran`, ten digits, `Refused`, two spaces and LF, which are 23 bytes at most.
const RAN: usize = 24;

/// The most bytes of a line of a trace, with its LF.
const TRACED: usize = TRACE_CAPACITY + 1;

/// Makes a run of at most `limit` steps, and writes how many it made and why it stopped. Returns the refusal of the
/// next step, if the run stopped because of it. The error flag of the writer must be clear.
///
/// # Errors
///
/// `WriteFault` (23): the run was made, and a prefix of the line is written.
#[inline(never)]
pub fn run<W: Sink, const REGS: usize>(
    bench: &mut Bench<REGS>,
    limit: u32,
    writer: &mut W,
) -> Result<Option<Refusal>, WriteFault>
    requires { W.failed writer.old ≡ false }
    ensures text { RunsAlone result limit bench.old.state bench.new.state
        W.contents writer.old writer.new }
    ensures mark { W.failed writer.new ≡ is_err result }
{
    let (made, stop) = bench.run(limit);
    write_whole(writer, ran_text(made, stop).as_str().as_bytes())?;
    Ok(stop_refusal(stop))
}

/// Returns the line that `run` prints: how many steps were made, and why the run stopped.
fn ran_text(made: u32, stop: Stop) -> ArrayString<RAN>
    ensures { result.bytes ≡ spec.ran_text made stop }
{
    let mut text = ArrayString::new();
    text.push_str("ran ");
    text.push_str(Buffer::new().format(made));
    text.push_str(" ");
    text.push_str(stop_name(stop));
    text.push_str("\n");
    text
}

/// Returns the word that `run` prints for the reason to stop: `Idle`, `Break`, `Limit` or `Refused`.
fn stop_name(stop: Stop) -> &'static str
    ensures text { result.now ≡ spec.stop_name stop }
    ensures short { length result.now ≤ 7 }
{
    match stop {
        Stop::Idle => "Idle",
        Stop::Break => "Break",
        Stop::Limit => "Limit",
        Stop::Refused(_) => "Refused",
    }
}

/// Returns the refusal because of which a run stopped, or `None` if it stopped for another reason.
fn stop_refusal(stop: Stop) -> Option<Refusal>
    ensures { result ≡ spec.stop_refusal stop }
{
    match stop {
        Stop::Refused(refusal) => Some(Refusal::Calculator(refusal)),
        Stop::Idle | Stop::Break | Stop::Limit => None,
    }
}

/// Makes `count` single steps, or fewer if one is refused; then no further step is made, and its refusal is returned.
/// Before each step one line is written: where the calculator is, and what it executes next. The error flag of the writer
/// must be clear.
///
/// # Errors
///
/// `WriteFault` (23): no further line is written, but the remaining steps are made, because what a command does to the
/// bench does not depend on its writer.
#[inline(never)]
pub fn trace<W: Sink, const REGS: usize>(
    bench: &mut Bench<REGS>,
    count: u32,
    writer: &mut W,
) -> Result<Option<Refusal>, WriteFault>
    requires { W.failed writer.old ≡ false }
    ensures text { TracesAlone result count bench.old.state bench.new.state
        W.contents writer.old writer.new }
    ensures mark { W.failed writer.new ≡ is_err result }
{
    steps_are_traced();
    for made in 0..count {
        let line = traced_line(bench);
        if let Err(fault) = write_whole(writer, line.as_str().as_bytes()) {
            let _ = bench.steps(count - made);
            return Err(fault);
        }
        if let Err(refusal) = bench.step() {
            return Ok(Some(Refusal::Calculator(refusal)));
        }
    }
    Ok(None)
}

/// Returns the line that a trace prints for the next step, with its LF.
fn traced_line<const REGS: usize>(bench: &Bench<REGS>) -> ArrayString<TRACED>
    ensures { IsTraceLine bench.now.state result.bytes }
{
    let mut line = ArrayString::new();
    line.push_str(bench.trace_line().as_str());
    line.push_str("\n");
    line
}

/// Sets a breakpoint at a location. Returns the refusal BreakFull (19) if breakpoints are set at 16 other locations,
/// otherwise `None`.
pub fn set_break<const REGS: usize>(bench: &mut Bench<REGS>, location: Location) -> Option<Refusal>
    ensures { Reply (commands.Break location) [] bench.old.state bench.new.state (ends_by result) }
{
    match bench.break_at(location) {
        Ok(()) => None,
        Err(_) => Some(Refusal::BreakFull),
    }
}

/// Removes the breakpoint at a location. Returns the refusal NoBreak (20) if none is set there, otherwise `None`.
pub fn unbreak<const REGS: usize>(bench: &mut Bench<REGS>, location: Location) -> Option<Refusal>
    ensures { Reply (commands.Unbreak location) []
        bench.old.state bench.new.state (ends_by result) }
{
    match bench.unbreak(location) {
        Ok(()) => None,
        Err(_) => Some(Refusal::NoBreak),
    }
}
