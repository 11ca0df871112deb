//! Makes runs, which are single steps up to a reason to stop.

ghost use Rattle.std.specs.Prelude.{◌≡◌, ◌<◌, ◌≤◌, ◌+◌, false, true, if◌then◌else◌, nat_lt, None};
ghost use Rattle.std.specs.FinSet.{len};
ghost use Rattle.h41_debug.specs.private.Advancing.{Advances, EndsFor, IfRunning, KeepsOn};
ghost use Rattle.h41_debug.specs.Bench.{Steps};
ghost use Rattle.h41_debug.specs.KeptInTurn.{KeepsAfterRun};
ghost use Rattle.h41_debug.specs.LabelledBench.{calculator_of};
ghost use Rattle.h41_debug.specs.Positions.{location_of};
ghost use Rattle.h41_debug.specs.Run.{Run};
ghost use Rattle.h41_debug.specs.private.Running.{runs_function, stop_after, stop_running};
ghost use Rattle.h41_xrom.specs.declared.calculator.Mode.TheVariants.{Micro};

use crate::bench::Bench;
use h41_breakpoints::Location;
use h41_xrom::laws::step_is_determined;
use h41_xrom::{CalculatorRefusal, Caller, Mode};

/// Why a run of single steps stops.
#[derive(Clone, Copy, Debug, PartialEq, Eq)]
pub enum Stop {
    /// Neither a program nor a function runs.
    Idle,
    /// A breakpoint is set at the location of what would be executed next.
    Break,
    /// As many single steps were made as the limit permits.
    Limit,
    /// The next step is refused, for this reason.
    Refused(CalculatorRefusal),
}

impl<const REGS: usize> Bench<REGS> {
    /// Makes single steps, at most `limit`, up to the first reason to stop. Returns how many steps were made, and the
    /// reason. The reasons are tested in this order: neither a program nor a function runs, a breakpoint is set at the
    /// location of the next step, `limit` steps were made, the next step is refused. A breakpoint where the run begins
    /// does not stop it. A refused step changes nothing.
    pub fn run(&mut self, limit: u32) -> (u32, Stop)
        ensures run { Run limit self.old.state self.new.state result.0 result.1 }
        ensures kept { KeepsAfterRun result.0 result.1 (calculator_of self.old)
            (calculator_of self.new) }
    {
        if self.calculator().mode() == Mode::Idle {
            return (0, Stop::Idle);
        }
        if limit == 0 {
            return (0, Stop::Limit);
        }
        self.advance(limit)
    }

    /// Makes one single step in any state, and further ones, at most `limit` in all, up to the first reason to stop.
    /// Returns how many steps were made, and the reason. If a program or a function runs at the start, the result is
    /// that of `run`. All single steps are made here. `limit` is at least 1.
    pub(crate) fn advance(&mut self, limit: u32) -> (u32, Stop)
        requires some { 1 ≤ limit }
        ensures most { result.0 ≤ limit }
        ensures steps { Steps result.0 self.old.state self.new.state None }
        ensures ends { EndsFor limit result.0 self.new.state result.1 }
        ensures run { IfRunning self.old.state
            (Run limit self.old.state self.new.state result.0 result.1) }
        ensures kept { KeepsAfterRun result.0 result.1 (calculator_of self.old)
            (calculator_of self.new) }
    {
        let watched = self.breakpoint_count() != 0;
        let mut made = 0;
        loop {
            if let Some(stop) = self.stop(made > 0, watched) {
                return (made, stop);
            }
            if made == limit {
                return (made, Stop::Limit);
            }
            let (now, refused) = self.go_on(made, limit, watched);
            if let Some(refusal) = refused {
                return (now, Stop::Refused(refusal));
            }
            made = now;
        }
    }

    /// Makes single steps of one kind, words or program lines, without testing for a reason to stop before the first.
    /// `from` steps of at most `limit` were made before. If `watched` is false, no breakpoint may be set. Returns how
    /// many steps are made then in all, and why the next one is refused, if it is.
    fn go_on(&mut self, from: u32, limit: u32, watched: bool) -> (u32, Option<CalculatorRefusal>)
        requires below { from < limit }
        requires clear { stop_after (nat_lt 0 from) self.old.state ≡ None }
        requires free { watched ≡ false → len self.old.state.breakpoints ≡ 0 }
        ensures steps { Advances limit from self.old.state result.0 self.new.state result.1 }
        ensures kept { KeepsOn from (calculator_of self.old) result.0 (calculator_of self.new)
            result.1 }
    {
        if let Mode::Micro(caller) = self.calculator().mode() {
            return self.words(caller, from, limit, watched);
        }
        self.lines(from, limit, watched)
    }

    /// Executes words while a function in microcode runs: up to the limit, to the end of the function, to a breakpoint,
    /// or to a word that is refused. `caller` is what continues when the function ends. `from` steps of at most `limit`
    /// were made before. Breakpoints are tested if `watched` is true; otherwise none may be set. Returns how many steps
    /// are made then in all, and why the next one is refused, if it is. Only this function calls `step_word`, so that
    /// its machine code exists once.
    #[inline(never)]
    fn words(
        &mut self,
        caller: Caller,
        from: u32,
        limit: u32,
        watched: bool,
    ) -> (u32, Option<CalculatorRefusal>)
        requires below { from < limit }
        requires mode { self.old.state.calculator.mode ≡ Micro caller }
        requires clear { stop_after (nat_lt 0 from) self.old.state ≡ None }
        requires free { watched ≡ false → len self.old.state.breakpoints ≡ 0 }
        ensures steps { Advances limit from self.old.state result.0 self.new.state result.1 }
        ensures kept { KeepsOn from (calculator_of self.old) result.0 (calculator_of self.new)
            result.1 }
    {
        step_is_determined();
        let mut made = from;
        while made < limit {
            let until = next_look(made, limit, watched);
            for word in made..until {
                match self.step_word(caller) {
                    Ok(true) => {}
                    Ok(false) => return (word + 1, None),
                    Err(refusal) => return (word, Some(refusal)),
                }
            }
            made = until;
            if watched && self.has_breakpoint(self.word_location()) {
                return (made, None);
            }
        }
        (limit, None)
    }

    /// Returns the address of the next word as a location, while a function in microcode runs, without testing whether
    /// one does.
    #[inline(always)]
    fn word_location(&self) -> Location
        requires { runs_function self.now.state.calculator.mode ≡ true }
        ensures { result ≡ location_of self.now.state.calculator }
    {
        Location::Word(self.calculator().cpu().pc())
    }

    /// Executes program lines while no function in microcode runs: up to the limit, to a line after which no program
    /// runs or a breakpoint is set, or to a line that is refused. `from` steps of at most `limit` were made before.
    /// Returns how many are made then in all, and why the next one is refused, if it is.
    #[inline(never)]
    fn lines(&mut self, from: u32, limit: u32, watched: bool) -> (u32, Option<CalculatorRefusal>)
        requires below { from < limit }
        requires mode { runs_function self.old.state.calculator.mode ≡ false }
        requires clear { stop_after (nat_lt 0 from) self.old.state ≡ None }
        requires free { watched ≡ false → len self.old.state.breakpoints ≡ 0 }
        ensures steps { Advances limit from self.old.state result.0 self.new.state result.1 }
        ensures kept { KeepsOn from (calculator_of self.old) result.0 (calculator_of self.new)
            result.1 }
    {
        step_is_determined();
        for made in from..limit {
            match self.step_line() {
                Ok(()) => {}
                Err(refusal) => return (made, Some(refusal)),
            }
            match self.calculator().mode() {
                Mode::Run => {}
                _ => return (made + 1, None),
            }
            match self.stop_at_breakpoint(watched) {
                None => {}
                Some(_) => return (made + 1, None),
            }
        }
        (limit, None)
    }

    /// Returns why a run stops here, apart from its limit, or `None`. Before its first step (`stepped` is false) a run
    /// does not stop. Breakpoints are tested only if `watched`; otherwise none may be set.
    #[inline(always)]
    fn stop(&self, stepped: bool, watched: bool) -> Option<Stop>
        requires { watched ≡ false → len self.now.state.breakpoints ≡ 0 }
        ensures { result ≡ stop_after stepped self.now.state }
    {
        if !stepped {
            return None;
        }
        match self.calculator().mode() {
            Mode::Idle => Some(Stop::Idle),
            _ => self.stop_at_breakpoint(watched),
        }
    }

    /// Returns `Break` if a breakpoint is set at the location of what is executed next, otherwise `None`. Breakpoints
    /// are tested only if `watched`; otherwise none may be set.
    #[inline(always)]
    fn stop_at_breakpoint(&self, watched: bool) -> Option<Stop>
        requires { watched ≡ false → len self.now.state.breakpoints ≡ 0 }
        ensures { result ≡ stop_running self.now.state }
    {
        if !watched {
            return None;
        }
        if self.has_breakpoint(self.location()) {
            return Some(Stop::Break);
        }
        None
    }
}

/// Returns the number of steps from the start of the run after which breakpoints are next tested. If a breakpoint is
/// set (`watched`), this is one more than the `made` steps so far. Otherwise it is `limit`, the greatest number of
/// steps.
#[inline(always)]
fn next_look(made: u32, limit: u32, watched: bool) -> u32
    requires { made < limit }
    ensures look { result ≡ (if watched then made + 1 else limit) }
    ensures after { made < result }
    ensures most { result ≤ limit }
{
    if watched { made + 1 } else { limit }
}
