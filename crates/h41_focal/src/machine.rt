//! The machine: memory and the other state of keystroke programs as one value.

ghost use Rattle.std.specs.Prelude.{◌≡◌, ◌≤◌, ℕ, false, true, [], OnErr};
ghost use Rattle.h41_focal.specs.MachineCalls.{Steps, Types};
ghost use Rattle.h41_focal.specs.LabelSearches.{StepKeeps, TypingKeeps};
ghost use Rattle.h41_positions.specs.LabelledMachine.{AreRight, begun_ram};
ghost use Rattle.h41_positions.specs.LabelledMachine.{machine_of, with_line_begun};
ghost use Rattle.h41_positions.specs.FocalState.{machine_with, start};
ghost use Rattle.h41_focal.specs.private.MachineSteps.{StepsMachine};
ghost use Rattle.h41_labels.specs.KeptAnswers.{IsRight};
ghost use Rattle.h41_ram.specs.RamState.{KeepsMark};
ghost use Rattle.h41_ram.specs.RegisterMap as registers;

use crate::laws::kept_answers_stay_right;
use crate::lines::{carry_out, standing};
use crate::origin::Origin;
use crate::outcome::LineOutcome;
use crate::refusal::FocalRefusal;
use crate::short_lines::{carry_short, number_standing, short_standing};
use crate::stack_lines::number_line;
use h41_codes::Line;
use h41_pages::Pages;
use h41_positions::Focal;
use h41_ram::Ram;
use h41_rows::number_register;
use std::marker::Model;

/// Memory and the other state of keystroke programs. Executing lines, editing programs and pressing keys change it.
#[derive(Drop)]
pub struct Machine<const REGS: usize> {
    /// Memory: the stack, ALPHA, flags, data registers and programs.
    pub ram: Ram<REGS>,
    /// The state besides memory: the position in programs, the return addresses, stack lift and the label cache.
    pub focal: Focal,
}

impl<const REGS: usize> Model for Machine<REGS> {
    ghost use Rattle.h41_positions.specs.LabelledMachine.{LabelledMachine};

    ghost Value = { LabelledMachine };

    ghost view = { λ machine. record { ram = machine.ram; focal = machine.focal } };
}

impl<const REGS: usize> Machine<REGS> {
    /// Returns a machine in its initial state: initial memory, line 00 of its empty program, no return addresses,
    /// stack lift on, and an empty label cache. `REGS`, the number of registers of main memory, must be 64 to 320.
    pub fn new() -> Self
        requires at_least { 64 ≤ REGS }
        requires at_most { REGS ≤ 320 }
        ensures machine { machine_of result ≡ machine_with (registers.start REGS) start }
        ensures mark { result.ram.touched ≡ true }
        ensures labels { result.focal.labels ≡ [] }
        ensures right { AreRight result }
    {
        Machine {
            ram: Ram::new(),
            focal: Focal::new(),
        }
    }

    /// Prepares the label cache for the execution of a line: if the dirty flag of memory is set, clears it and empties
    /// the cache, because programs may have changed.
    #[inline(always)]
    fn begin(&mut self)
        requires { AreRight self.old }
        ensures begun { self.new ≡ with_line_begun self.old }
        ensures right { IsRight self.new.focal.labels self.new.ram.registers }
    {
        if self.ram.program_touched() {
            self.focal.forget_labels();
            self.ram.clear_touched();
        }
    }

    /// Executes the program line at the position with all that it calls, and returns its outcome. If the line names
    /// something that is no label in memory, the name is searched in the modules, then among the calculator's own
    /// functions. The errors, in this order: MemoryLost (15) if memory is not sound; BrokenProgram (14) if no line can be
    /// read at the position; NotInProfile (13) if the bench does not support the line, or the function that it names;
    /// BrokenProgram (14) if a line that a test or loop skips cannot be read. After an error nothing has changed. The
    /// rules are in docs/LINES.md.
    #[inline(always)]
    pub fn step(&mut self, pages: &Pages) -> Result<LineOutcome, FocalRefusal>
        requires { AreRight self.old }
        ensures line { Steps pages.now (machine_of self.old) (machine_of self.new) result }
        ensures unchanged { OnErr result (machine_of self.new ≡ machine_of self.old) }
        ensures kept { StepKeeps pages.now self.old self.new }
        ensures mark { KeepsMark (begun_ram self.old.ram) self.new.ram }
        ensures clear { self.new.ram.touched ≡ false }
        ensures right { AreRight self.new }
    {
        kept_answers_stay_right();
        match short_standing(self, pages) {
            Some((line, next)) => carry_short(self, pages, Origin::Program(next), line),
            None => self.step_other(pages),
        }
    }

    /// Executes the program line at the position as `step_long` does.
    #[inline(always)]
    fn step_other(&mut self, pages: &Pages) -> Result<LineOutcome, FocalRefusal>
        requires { AreRight self.old }
        ensures { StepsMachine pages.now self.old self.new result }
    {
        match self.step_long(pages) {
            Ok(outcome) => Ok(outcome),
            Err(refusal) => Err(refusal),
        }
    }

    /// Executes the program line at the position as `step` does, if it is no short line (one of at most three bytes,
    /// without a text). This is a function of its own so that the machine code for short lines remains small.
    #[inline(never)]
    fn step_long(&mut self, pages: &Pages) -> Result<LineOutcome, FocalRefusal>
        requires { AreRight self.old }
        ensures { StepsMachine pages.now self.old self.new result }
    {
        kept_answers_stay_right();
        if let Some((number, next)) = number_standing(self) {
            self.begin();
            let register = number_register(number);
            return Ok(number_line(self, Origin::Program(next), register));
        }
        self.begin();
        let (line, next) = standing(self, pages)?;
        carry_out(self, pages, Origin::Program(next), &line)
    }

    /// Executes a typed line with all that it calls, and returns its outcome. The errors, in this order: MemoryLost (15)
    /// if memory is not sound; NotInProfile (13) if the bench does not support the line, or the function that it names.
    /// After an error nothing has changed.
    pub fn key(&mut self, pages: &Pages, line: &Line) -> Result<LineOutcome, FocalRefusal>
        requires { AreRight self.old }
        ensures line { Types pages.now line.now (machine_of self.old) (machine_of self.new) result }
        ensures unchanged { OnErr result (machine_of self.new ≡ machine_of self.old) }
        ensures kept { TypingKeeps line.now self.old self.new }
        ensures mark { KeepsMark (begun_ram self.old.ram) self.new.ram }
        ensures clear { self.new.ram.touched ≡ false }
        ensures right { AreRight self.new }
    {
        kept_answers_stay_right();
        self.begin();
        if !self.ram.is_sound() {
            return Err(FocalRefusal::MemoryLost);
        }
        carry_out(self, pages, Origin::Typed, line)
    }
}
