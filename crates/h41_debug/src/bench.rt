//! The bench: a calculator with breakpoints, single steps and keys.

ghost use Rattle.std.specs.Prelude.{◌≡◌, ◌≤◌, IfOk, OnErr, OnOk, is_err, is_ok};
ghost use Rattle.std.specs.FinSet.{len};
ghost use Rattle.std.specs.Result.{result_err};
ghost use Rattle.std.specs.Borrow.{sem};
ghost use Rattle.h41_breakpoints.specs.Breakpoints.{is_set, lacks_breakpoint, most_breakpoints};
ghost use Rattle.h41_breakpoints.specs.Breakpoints.{refuses_breakpoint};
ghost use Rattle.h41_debug.specs.Bench.{PressesInTurn, Steps, start, with_calculator, with_set};
ghost use Rattle.h41_debug.specs.Bench.{without_set};
ghost use Rattle.h41_debug.specs.KeptInTurn.{KeepsAfterCount, KeepsAfterKeys};
ghost use Rattle.h41_debug.specs.LabelledBench.{calculator_of};
ghost use Rattle.h41_debug.specs.Positions.{location_of};
ghost use Rattle.h41_xrom.specs.Calculator.{RefusesLine, RefusesStep, Step, StepsByLine};
ghost use Rattle.h41_xrom.specs.Calculator.{machine_of, mode_after_word};
ghost use Rattle.h41_xrom.specs.KeptLabels.{KeepsAfterLine, KeepsAfterStep};
ghost use Rattle.h41_xrom.specs.LabelledCalculator.{no_searches};
ghost use Rattle.h41_xrom.specs.declared.calculator.Mode.TheVariants.{Micro};
ghost use Rattle.h41_focal.specs.OutsideCalls.{Program};

use crate::run::Stop;
use h41_breakpoints::{BreakFull, Breakpoints, Location, NoBreak};
use h41_keys::Key;
use h41_xrom::{Calculator, CalculatorRefusal, Caller, Mode};
use std::alloc::{AllocError, Global};
use std::marker::Model;

/// The bench: a calculator with `REGS` main registers, 64 to 320, and the breakpoints that its user has set.
#[derive(Drop)]
pub struct Bench<const REGS: usize> {
    calculator: Calculator<REGS>,
    breakpoints: Breakpoints,
}

impl<const REGS: usize> Model for Bench<REGS> {
    ghost use Rattle.std.specs.Coded.{codes};
    ghost use Rattle.std.specs.FinSet as set;
    ghost use Rattle.h41_debug.specs.LabelledBench.{LabelledBench};
    ghost use Rattle.h41_breakpoints.specs.Breakpoints.{location_cmp};
    ghost use Rattle.h41_breakpoints.specs.contracts.location.Location as member;

    ghost Value = { LabelledBench };

    ghost coded = { Prim.hlevel (codes, set.code {R = location_cmp} member.the_row.coded) };

    ghost view = { λ bench. record {
      state = record { calculator = bench.calculator.state; breakpoints = bench.breakpoints };
      cache = bench.calculator.cache;
    } };
}

impl<const REGS: usize> Bench<REGS> {
    ghost use Rattle.h41_debug.specs.Lending.{LendsCalculator};

    /// Returns a bench in its initial state: nothing is plugged, nothing runs, and no breakpoint is set.
    ///
    /// # Errors
    ///
    /// OutOfMemory (21) if allocation failed.
    pub fn new(alloc: Global) -> Result<Self, AllocError>
        requires at_least { 64 ≤ REGS }
        requires at_most { REGS ≤ 320 }
        ensures state { IfOk result (λ bench. bench.state ≡ start REGS) }
        ensures cache { IfOk result (λ bench. bench.cache ≡ no_searches) }
    {
        let breakpoints = Breakpoints::new(alloc)?;
        Ok(Bench {
            calculator: Calculator::new(alloc)?,
            breakpoints,
        })
    }

    /// Returns the calculator of the bench, for reading.
    pub fn calculator(&self) -> &Calculator<REGS>
        ensures state { result.now.state ≡ self.now.state.calculator }
        ensures cache { result.now.cache ≡ self.now.cache }
    {
        &self.calculator
    }

    /// Returns the calculator of the bench, for calls that change it.
    pub fn calculator_mut(&mut self) -> &mut Calculator<REGS>
        ensures* writes_back { sem 𝓛 (LendsCalculator REGS.row self.entry result) }
        ensures value { result.now ≡ calculator_of self.old }
    {
        &mut self.calculator
    }

    /// Returns the location of what is executed next: the address of the next word while a function in microcode runs,
    /// otherwise the position of the next program line.
    pub fn location(&self) -> Location
        ensures { result ≡ location_of self.now.state.calculator }
    {
        match self.calculator.mode() {
            Mode::Micro(_) => Location::Word(self.calculator.cpu().pc()),
            _ => Location::Line(self.calculator.focal().position),
        }
    }

    /// Makes one single step: executes the next word while a function in microcode runs, otherwise the program line at
    /// the position.
    ///
    /// # Errors
    ///
    /// A word: UndefinedWord (06), WordNotInProfile (07), SystemRom (08), EmptyPage (09), PeripheralNotHeld (10),
    /// Asleep (11) or ReadOnly (12). A line: MemoryLost (15), BrokenProgram (14) or NotInProfile (13). Nothing is
    /// changed then.
    pub fn step(&mut self) -> Result<(), CalculatorRefusal>
        ensures refusal { RefusesStep self.old.state.calculator (result_err result) }
        ensures change { OnOk result (Step self.old.state.calculator self.new.state.calculator) }
        ensures others { self.new.state
            ≡ with_calculator self.new.state.calculator self.old.state }
        ensures unchanged { OnErr result (self.new.state ≡ self.old.state) }
        ensures kept { KeepsAfterStep (is_ok result) (calculator_of self.old)
            (calculator_of self.new) }
    {
        let (_made, stop) = self.advance(1);
        if let Stop::Refused(refusal) = stop {
            return Err(refusal);
        }
        Ok(())
    }

    /// Executes the next word while a function in microcode runs, as a single step, and returns whether the function
    /// still runs. `caller` is what continues when the function ends. It is inlined so that the loop over words is
    /// compiled as one piece.
    ///
    /// # Errors
    ///
    /// UndefinedWord (06), WordNotInProfile (07), SystemRom (08), EmptyPage (09), PeripheralNotHeld (10), Asleep (11) or
    /// ReadOnly (12). Nothing is changed then.
    #[inline(always)]
    pub(crate) fn step_word(&mut self, caller: Caller) -> Result<bool, CalculatorRefusal>
        requires { self.old.state.calculator.mode ≡ Micro caller }
        ensures refusal { RefusesStep self.old.state.calculator (result_err result) }
        ensures change { OnOk result (Step self.old.state.calculator self.new.state.calculator) }
        ensures mode { IfOk result
            (λ on. self.new.state.calculator.mode ≡ mode_after_word on caller) }
        ensures others { self.new.state
            ≡ with_calculator self.new.state.calculator self.old.state }
        ensures unchanged { OnErr result (self.new.state ≡ self.old.state) }
        ensures kept { KeepsAfterStep (is_ok result) (calculator_of self.old)
            (calculator_of self.new) }
    {
        self.calculator.step_word(caller)
    }

    /// Executes the program line at the position, as a single step while no function in microcode runs. The errors are
    /// those of `step` for a line; nothing is changed then.
    #[inline(always)]
    pub(crate) fn step_line(&mut self) -> Result<(), CalculatorRefusal>
        ensures refusal { RefusesLine self.old.state.calculator (result_err result) }
        ensures change { OnOk result
            (StepsByLine self.old.state.calculator self.new.state.calculator) }
        ensures others { self.new.state
            ≡ with_calculator self.new.state.calculator self.old.state }
        ensures unchanged { OnErr result (self.new.state ≡ self.old.state) }
        ensures kept { KeepsAfterLine Program self.old.state.calculator.nut.pages
            (machine_of self.old.state.calculator) self.old.cache self.new.cache }
    {
        self.calculator.step_line()
    }

    /// Makes `count` single steps, up to the first that is refused.
    ///
    /// # Errors
    ///
    /// Those of `step`. The refused step changes nothing; the steps before it remain made.
    pub fn steps(&mut self, count: u32) -> Result<(), CalculatorRefusal>
        ensures steps { Steps count self.old.state self.new.state (result_err result) }
        ensures kept { KeepsAfterCount count (result_err result) (calculator_of self.old)
            (calculator_of self.new) }
    {
        let mut left = count;
        while left > 0 {
            let (made, stop) = self.advance(left);
            if let Stop::Refused(refusal) = stop {
                return Err(refusal);
            }
            left -= made;
        }
        Ok(())
    }

    /// Presses keys in turn, up to the first that is refused.
    ///
    /// # Errors
    ///
    /// KeyNotHeld (18), MemoryLost (15), BrokenProgram (14), NotInProfile (13) or NoRoom (16). The refused key changes nothing;
    /// the keys before it remain pressed.
    pub fn press(&mut self, keys: &[Key]) -> Result<(), CalculatorRefusal>
        ensures keys { PressesInTurn keys.now self.old.state self.new.state (result_err result) }
        ensures kept { KeepsAfterKeys keys.now (calculator_of self.old) (calculator_of self.new) }
    {
        for key in keys {
            self.calculator.key(*key)?;
        }
        Ok(())
    }

    /// Returns whether a breakpoint is set at a location.
    pub fn has_breakpoint(&self, location: Location) -> bool
        ensures { result ≡ is_set self.now.state.breakpoints location }
    {
        self.breakpoints.contains(location)
    }

    /// Returns how many breakpoints are set, at most 16.
    pub fn breakpoint_count(&self) -> usize
        ensures count { result ≡ len self.now.state.breakpoints }
        ensures most { result ≤ most_breakpoints }
    {
        self.breakpoints.count()
    }

    /// Sets a breakpoint at a location. If it is set already, nothing changes.
    ///
    /// # Errors
    ///
    /// BreakFull (19) if breakpoints are set at 16 other locations. Nothing is changed then.
    pub fn break_at(&mut self, location: Location) -> Result<(), BreakFull>
        ensures refusal { is_err result ≡ refuses_breakpoint self.old.state.breakpoints location }
        ensures change { OnOk result (self.new.state ≡ with_set location self.old.state) }
        ensures unchanged { OnErr result (self.new.state ≡ self.old.state) }
        ensures cache { self.new.cache ≡ self.old.cache }
    {
        self.breakpoints.insert(location)
    }

    /// Removes the breakpoint at a location.
    ///
    /// # Errors
    ///
    /// NoBreak (20) if no breakpoint is set there. Nothing is changed then.
    pub fn unbreak(&mut self, location: Location) -> Result<(), NoBreak>
        ensures refusal { is_err result ≡ lacks_breakpoint self.old.state.breakpoints location }
        ensures change { OnOk result (self.new.state ≡ without_set location self.old.state) }
        ensures unchanged { OnErr result (self.new.state ≡ self.old.state) }
        ensures cache { self.new.cache ≡ self.old.cache }
    {
        self.breakpoints.remove(location)
    }
}
