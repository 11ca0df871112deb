//! The calculator: processor, memory, pages and keys, and whether a program or a function runs.

ghost use Rattle.std.specs.Prelude.{◌≡◌, ◌≤◌, None, IfOk, IfErr, OnOk, OnErr, length};
ghost use Rattle.std.specs.Prelude.{is_ok, option_map};
ghost use Rattle.std.specs.Result.{result_err};
ghost use Rattle.h41_positions.specs.LabelledMachine as labelled;
ghost use Rattle.h41_positions.specs.FocalState as focal;
ghost use Rattle.h41_positions.specs.FocalState.{machine_with};
ghost use Rattle.h41_ram.specs.RegisterMap as registers;
ghost use Rattle.h41_ram.specs.RegisterMap.{RegisterMap};
ghost use Rattle.h41_pages.specs.PageMap.{unplug_refusal};
ghost use Rattle.h41_xrom.specs.Calculator.{RefusesLine, RefusesPage, RefusesStep, RefusesStepIn};
ghost use Rattle.h41_xrom.specs.Calculator.{Step, StepIn, StepsByLine, TakesPage, after_answer};
ghost use Rattle.h41_xrom.specs.Calculator.{call_refusal, after_call, caller_in, with_function};
ghost use Rattle.h41_xrom.specs.Calculator.{machine_of};
ghost use Rattle.h41_xrom.specs.Calculator.{mode_after, mode_after_word, mode_of, not_typing};
ghost use Rattle.h41_xrom.specs.Calculator.{after_reset, start, with_answer, with_page};
ghost use Rattle.h41_xrom.specs.Calculator.{with_shown};
ghost use Rattle.h41_xrom.specs.Calculator.{without_page};
ghost use Rattle.h41_xrom.specs.KeptLabels.{KeepsAfterKey, KeepsAfterLine, KeepsAfterMeaning};
ghost use Rattle.h41_xrom.specs.KeptLabels.{KeepsAfterProgram, KeepsAfterStep, KeepsAfterStepIn};
ghost use Rattle.h41_xrom.specs.KeyActions as keys;
ghost use Rattle.h41_xrom.specs.LabelledCalculator.{cache_of, no_searches};
ghost use Rattle.h41_xrom.specs.private.PrivateCalls.{Accepts, IsAccepted};
ghost use Rattle.h41_keys.specs.declared.input.TypedEntry.TheVariants as entries;
ghost use Rattle.h41_focal.specs.Outcomes.{answer_of};
ghost use Rattle.h41_focal.specs.OutsideCalls.{Program};
ghost use Rattle.h41_xrom.specs.declared.calculator.Mode.TheVariants.{Micro};
ghost use Rattle.h41_xrom.specs.Programs.{Becomes, Loads, change_refusal, size_makes};

use crate::acting::act;
use crate::messages::{DisplayText, fault_text, test_text};
use crate::places::shown_place;
use crate::refusal::CalculatorRefusal;
use h41_focal::laws::kept_answers_stay_right;
use h41_focal::{Focal, LineOutcome, Machine};
use h41_keys::{Action, Flags, Input, Key, TypedEntry, press};
use h41_nut::{Cpu, Keys, WordRefusal, step_to_end};
use h41_pages::{FIRST_ADDRESS, Pages, PlugRefusal, UnplugRefusal};
use h41_positions::Position;
use h41_program::{load, set_size};
use h41_ram::Ram;
use h41_ram::flags::ALPHA_MODE;
use h41_show::{Format, alpha_text, register_text};
use std::alloc::{AllocError, Global};
use std::marker::Model;

/// What the calculator is doing: nothing, executing a keystroke program, or executing a function in microcode.
#[derive(Clone, Copy, Debug, PartialEq, Eq)]
pub enum Mode {
    /// Nothing runs: the calculator waits for a key.
    Idle,
    /// A keystroke program runs.
    Run,
    /// A function in microcode runs. When it ends, its caller continues.
    Micro(Caller),
}

/// What continues when a function in microcode ends: nothing, or a keystroke program.
#[derive(Clone, Copy, Debug, PartialEq, Eq)]
pub enum Caller {
    /// Nothing: the function was called while nothing ran.
    Nothing,
    /// The keystroke program that called the function.
    Program,
}

impl Caller {
    /// Returns the caller of a function in microcode that starts while the calculator is in this mode: what continues
    /// when the function ends.
    fn in_mode(mode: Mode) -> Self
        ensures { result ≡ caller_in mode }
    {
        match mode {
            Mode::Idle => Caller::Nothing,
            Mode::Run => Caller::Program,
            Mode::Micro(caller) => caller,
        }
    }

    /// Returns the mode after a function in microcode has ended: `Run` if a keystroke program called it, otherwise
    /// `Idle`.
    fn mode(self) -> Mode
        ensures { result ≡ mode_of self }
    {
        match self {
            Caller::Nothing => Mode::Idle,
            Caller::Program => Mode::Run,
        }
    }
}

/// The whole calculator: processor, memory with `REGS` registers of main memory (64 to 320), pages, keys, keystroke
/// programs, and whether a program or a function runs.
#[derive(Drop)]
pub struct Calculator<const REGS: usize> {
    cpu: Cpu,
    /// Memory, and the rest of the state of keystroke programs: the position, the return stack and stack lift.
    machine: Machine<REGS>,
    pages: Pages,
    keys: Keys,
    /// What the keyboard remembers between keys: SHIFT, program mode, a prompt, and the number or text that is being
    /// typed.
    input: Input,
    /// The message: the text that the display shows before anything else, if there is one.
    message: Option<DisplayText>,
    mode: Mode,
}

impl<const REGS: usize> Model for Calculator<REGS> {
    ghost use Rattle.std.specs.Prelude.{option_map};
    ghost use Rattle.h41_positions.specs.LabelledMachine.{AreRight};
    ghost use Rattle.h41_nut.specs.WordStep.{nut_of};
    ghost use Rattle.h41_xrom.specs.LabelledCalculator.{LabelledCalculator, cache_of};

    ghost Value = { LabelledCalculator };

    ghost view = { λ all. record {
      state = record {
        nut = nut_of all.cpu all.machine.ram.registers all.pages all.keys;
        focal = all.machine.focal.state;
        input = all.input;
        message = option_map (λ text. text.bytes) all.message;
        mode = all.mode;
      };
      cache = cache_of all.machine;
    } };

    // While the dirty flag of memory is clear, each entry of the label cache is what a search would find.
    ghost invariant = { λ all. AreRight all.machine };
}

impl<const REGS: usize> Calculator<REGS> {
    /// Returns a calculator in its initial state: nothing is plugged and nothing runs. `REGS`, the number of registers
    /// of main memory, must be 64 to 320.
    ///
    /// # Errors
    ///
    /// OutOfMemory (21) if allocation failed.
    pub fn new(alloc: Global) -> Result<Self, AllocError>
        requires at_least { 64 ≤ REGS }
        requires at_most { REGS ≤ 320 }
        ensures state { IfOk result (λ calculator. calculator.state ≡ start REGS) }
        ensures cache { IfOk result (λ calculator. calculator.cache ≡ no_searches) }
    {
        Ok(Calculator {
            cpu: Cpu::new(),
            machine: Machine::new(),
            pages: Pages::new(alloc)?,
            keys: Keys::new(),
            input: Input::new(),
            message: None,
            mode: Mode::Idle,
        })
    }

    /// Returns the Nut processor of the calculator with its registers.
    pub fn cpu(&self) -> &Cpu
        ensures { result.now ≡ self.now.state.nut.processor }
    {
        &self.cpu
    }

    /// Returns the memory of the calculator: status registers and main memory.
    pub fn ram(&self) -> &Ram<REGS>
        ensures registers { result.now.registers ≡ self.now.state.nut.ram }
        ensures mark { result.now.touched ≡ self.now.cache.touched }
    {
        &self.machine.ram
    }

    /// Returns the pages of the address space with what is plugged at them.
    pub fn pages(&self) -> &Pages
        ensures { result.now ≡ self.now.state.nut.pages }
    {
        &self.pages
    }

    /// Returns the mode: whether nothing, a keystroke program or a function in microcode runs.
    pub fn mode(&self) -> Mode
        ensures { result ≡ self.now.state.mode }
    {
        self.mode
    }

    /// Returns the keyboard as the processor sees it: the code of the last key and the key flag.
    pub fn keys(&self) -> &Keys
        ensures { result.now ≡ self.now.state.nut.keys }
    {
        &self.keys
    }

    /// Returns the state, besides memory, of keystroke programs: the position, the return stack and stack lift.
    pub fn focal(&self) -> &Focal
        ensures state { result.now.state ≡ self.now.state.focal }
        ensures labels { result.now.labels ≡ self.now.cache.labels }
    {
        &self.machine.focal
    }

    /// Returns memory together with the rest of the state of keystroke programs: the position, the return stack and
    /// stack lift.
    pub fn machine(&self) -> &Machine<REGS>
        ensures machine { labelled.machine_of result.now ≡ machine_of self.now.state }
        ensures cache { cache_of result.now ≡ self.now.cache }
    {
        &self.machine
    }

    /// Returns what the keyboard remembers between keys: SHIFT, program mode, a prompt, and the number or text that is being
    /// typed.
    pub fn input(&self) -> &Input
        ensures { result.now ≡ self.now.state.input }
    {
        &self.input
    }

    /// Returns the message: the text that the display shows before anything else, if there is one.
    pub fn message(&self) -> Option<DisplayText>
        ensures { option_map (λ text. text.bytes) result ≡ self.now.state.message }
    {
        self.message
    }

    /// Starts the function in microcode at an address, which ends the entry of a number or text.
    ///
    /// # Errors
    ///
    /// Busy (24) while a program or a function runs; SystemRom (08) if the address is below 4000. That includes 00F0,
    /// because a call is not a jump to the end of a function. Nothing is changed then.
    pub fn call(&mut self, address: u16) -> Result<(), CalculatorRefusal>
        ensures refusal { result_err result ≡ call_refusal self.old.state address }
        ensures change { OnOk result (self.new.state ≡ after_call address self.old.state) }
        ensures unchanged { OnErr result (self.new.state ≡ self.old.state) }
        ensures cache { self.new.cache ≡ self.old.cache }
    {
        if self.mode != Mode::Idle {
            return Err(CalculatorRefusal::Busy);
        }
        if address < FIRST_ADDRESS {
            return Err(CalculatorRefusal::Word(WordRefusal::SystemRom(address)));
        }
        self.end_entry();
        self.enter(address);
        Ok(())
    }

    /// Ends the entry of the number or text that is being typed, if there is one.
    fn end_entry(&mut self)
        ensures state { self.new.state ≡ not_typing self.old.state }
        ensures cache { self.new.cache ≡ self.old.cache }
    {
        match self.input.entry {
            TypedEntry::Nothing => {}
            _ => self.input.entry = TypedEntry::Nothing,
        }
    }

    /// Starts the function in microcode at an address. The mode becomes `Micro`, with what continues when the function
    /// ends.
    fn enter(&mut self, address: u16)
        ensures state { self.new.state ≡ with_function address self.old.state }
        ensures cache { self.new.cache ≡ self.old.cache }
    {
        self.cpu.enter(address);
        self.mode = Mode::Micro(Caller::in_mode(self.mode));
    }

    /// Executes one word of microcode while a function runs, which ends when its next address is 00F0. Otherwise
    /// executes the program line at the position.
    ///
    /// # Errors
    ///
    /// For a word: an error with a number from 06 to 12 (see `WordRefusal`). For a line: MemoryLost (15) if memory is
    /// not sound, BrokenProgram (14) if bytes are not a line, NotInProfile (13) if the bench does not support the line.
    /// Nothing is changed then.
    #[inline(always)]
    pub fn step(&mut self) -> Result<(), CalculatorRefusal>
        ensures refusal { RefusesStep self.old.state (result_err result) }
        ensures change { OnOk result (Step self.old.state self.new.state) }
        ensures unchanged { OnErr result (self.new.state ≡ self.old.state) }
        ensures kept { KeepsAfterStep (is_ok result) self.old self.new }
    {
        match self.mode {
            Mode::Idle | Mode::Run => self.step_line(),
            Mode::Micro(caller) => {
                self.step_word(caller)?;
                Ok(())
            }
        }
    }

    /// Executes the program line at the position and shows its result, or starts a module's function. This is what
    /// `step` does while no function in microcode runs.
    ///
    /// # Errors
    ///
    /// MemoryLost (15) if memory is not sound, BrokenProgram (14) if bytes are not a line, NotInProfile (13) if the
    /// bench does not support the line. Nothing is changed then.
    #[inline(always)]
    pub fn step_line(&mut self) -> Result<(), CalculatorRefusal>
        ensures refusal { RefusesLine self.old.state (result_err result) }
        ensures change { OnOk result (StepsByLine self.old.state self.new.state) }
        ensures unchanged { OnErr result (self.new.state ≡ self.old.state) }
        ensures kept { KeepsAfterLine Program self.old.state.nut.pages (machine_of self.old.state)
            self.old.cache self.new.cache }
    {
        match self.machine.step(&self.pages) {
            Ok(outcome) => {
                self.end_entry();
                self.end_line(outcome);
                Ok(())
            }
            Err(refusal) => Err(refusal.into()),
        }
    }

    /// Shows the result of a line that was executed, and changes the mode if the line stops or starts a program; or starts
    /// the function in microcode that the line calls.
    #[inline(always)]
    fn end_line(&mut self, outcome: LineOutcome)
        ensures state { self.new.state
            ≡ after_answer (answer_of self.old.state.nut.ram outcome) self.old.state }
        ensures cache { self.new.cache ≡ self.old.cache }
    {
        match outcome {
            LineOutcome::Done => {}
            LineOutcome::Begins(address) => self.enter(address),
            outcome => self.end_other(outcome),
        }
    }

    /// Shows the result of a line that was executed, and changes the mode if the line stops or starts a program.
    #[inline(always)]
    fn end_other(&mut self, outcome: LineOutcome)
        ensures state { self.new.state
            ≡ with_answer (answer_of self.old.state.nut.ram outcome) self.old.state }
        ensures cache { self.new.cache ≡ self.old.cache }
    {
        self.mode = mode_after_line(self.mode, &outcome);
        self.show(outcome);
    }

    /// Shows the result of an executed line in the display: a text, an error or the answer of a test as the message.
    /// `OFF` turns the display off. Few lines of a program show a result, so this is not compiled into the loop over lines.
    #[cold]
    #[inline(never)]
    fn show(&mut self, outcome: LineOutcome)
        ensures state { self.new.state
            ≡ with_shown (answer_of self.old.state.nut.ram outcome) self.old.state }
        ensures cache { self.new.cache ≡ self.old.cache }
    {
        match outcome {
            LineOutcome::ViewedAlpha | LineOutcome::Prompted => {
                self.message = Some(alpha_text(&self.machine.ram));
            }
            LineOutcome::ViewedRegister(address) => {
                let register = self.machine.ram.read(address);
                let format = Format::from_flags(&self.machine.ram);
                self.message = Some(register_text(register, format));
            }
            LineOutcome::Cleared => self.message = None,
            LineOutcome::Failed(fault) => self.message = Some(fault_text(fault)),
            LineOutcome::Answered(holds) => self.message = Some(test_text(holds)),
            LineOutcome::TurnedOff => self.cpu.turn_display_off(),
            LineOutcome::Done | LineOutcome::Stopped | LineOutcome::Runs | LineOutcome::Begins(_) =>
                {}
        }
    }

    /// Presses a key. An accepted key stores its code, sets the key flag and turns the display on; while nothing runs it also
    /// removes the message.
    ///
    /// # Errors
    ///
    /// In this order: KeyNotHeld (18) if the bench does not support the key in this state, or if in program mode it would change
    /// lines in a page; while nothing runs, MemoryLost (15) if memory is not sound, BrokenProgram (14) if bytes are not a line or
    /// a program has no line at the position, NotInProfile (13) if the bench does not support a line, NoRoom (16) if memory is
    /// full. Nothing is changed then.
    pub fn key(&mut self, key: Key) -> Result<(), CalculatorRefusal>
        ensures key { keys.Presses key self.old.state self.new.state (result_err result) }
        ensures kept { KeepsAfterKey (is_ok result) key self.old self.new }
    {
        let mut input = self.input;
        match press(&mut input, key, self.waits(), self.key_flags()) {
            Ok(action) => self.accept(key, input, action),
            Err(refusal) => Err(refusal.into()),
        }
    }

    /// Performs what an accepted key does, stores its code, sets the key flag and turns the display on.
    ///
    /// # Errors
    ///
    /// MemoryLost (15) if nothing runs and memory is not sound, BrokenProgram (14) if bytes are not a line or a program
    /// has no line at the position, NotInProfile (13) if the bench does not support a line, NoRoom (16) if memory is
    /// full. Nothing is changed then.
    fn accept(&mut self, key: Key, input: Input, action: Action) -> Result<(), CalculatorRefusal>
        requires { IsAccepted self.old.state action }
        ensures key { Accepts key input action self.old.state self.new.state (result_err result) }
        ensures kept { KeepsAfterMeaning (is_ok result) action input self.old self.new }
    {
        self.check_memory()?;
        match act(&mut self.machine, &self.pages, input.program_mode, action) {
            Ok(outcome) => {
                self.tell(key, input);
                self.end_line(outcome);
                Ok(())
            }
            Err(refusal) => Err(refusal),
        }
    }

    /// Returns MemoryLost (15) if nothing runs and memory is not sound, because a key cannot be performed then.
    fn check_memory(&self) -> Result<(), CalculatorRefusal>
        ensures { result_err result ≡ keys.key_refusal self.now.state }
    {
        if self.mode == Mode::Idle && !self.machine.ram.is_sound() {
            return Err(CalculatorRefusal::MemoryLost);
        }
        Ok(())
    }

    /// Returns whether nothing, a program or a function runs, as a value of the keyboard's type `Activity`.
    fn waits(&self) -> h41_keys::Activity
        ensures { result ≡ keys.activity_of self.now.state.mode }
    {
        match self.mode {
            Mode::Idle => h41_keys::Activity::Idle,
            Mode::Run => h41_keys::Activity::Run,
            Mode::Micro(_) => h41_keys::Activity::Micro,
        }
    }

    /// Returns the rest of the state that decides what a key means: ALPHA mode (flag 48), whether there is a message,
    /// and whether the position is in memory or in a page.
    fn key_flags(&self) -> Flags
        ensures { keys.HasFlags self.now.state result }
    {
        Flags {
            alpha: self.machine.ram.flag(ALPHA_MODE),
            message: self.message.is_some(),
            place: shown_place(&self.machine, &self.pages),
        }
    }

    /// Stores the code of an accepted key for the processor, sets the key flag, turns the display on, and stores
    /// `input` as what the keyboard remembers. While nothing runs, also removes the message.
    fn tell(&mut self, key: Key, input: Input)
        ensures state { self.new.state ≡ keys.with_key_accepted key input self.old.state }
        ensures cache { self.new.cache ≡ self.old.cache }
    {
        self.keys = Keys {
            ky: key.code(),
            flag: true,
        };
        self.cpu.turn_display_on();
        self.input = input;
        if self.mode == Mode::Idle {
            self.message = None;
        }
    }

    /// Executes one word of microcode while a function runs, and returns whether the function still runs. When it ends,
    /// stack lift is enabled, and the mode is that of `caller`. This is what `step` does while a function runs.
    ///
    /// # Errors
    ///
    /// An error with a number from 06 to 12 (see `WordRefusal`). Nothing is changed then.
    #[inline(always)]
    pub fn step_word(&mut self, caller: Caller) -> Result<bool, CalculatorRefusal>
        requires { self.old.state.mode ≡ Micro caller }
        ensures refusal { RefusesStepIn (Micro caller) self.old.state (result_err result) }
        ensures change { OnOk result (StepIn (Micro caller) self.old.state self.new.state) }
        ensures kept { KeepsAfterStepIn (Micro caller) (is_ok result) self.old self.new }
        ensures running { IfOk result (λ runs. self.new.state.mode ≡ mode_after_word runs caller) }
        ensures unchanged { OnErr result (self.new.state ≡ self.old.state) }
    {
        kept_answers_stay_right();
        let ends = step_to_end(
            &mut self.cpu,
            &mut self.machine.ram,
            &mut self.pages,
            &mut self.keys,
        )?;
        if ends {
            self.mode = caller.mode();
            let focal = &mut self.machine.focal;
            focal.lift = true;
            return Ok(false);
        }
        Ok(true)
    }

    /// Loads the program lines in `bytes` after the programs in memory, moves to line 00 of the first of them, and
    /// clears the return stack. Stack lift and the message are unchanged.
    ///
    /// # Errors
    ///
    /// Busy (24) while a program or a function runs; MemoryLost (15) if memory is not sound; BrokenProgram (14) if
    /// bytes of memory or given bytes are not a line, or an `.END.` is not at the end of the given bytes; NoRoom (16)
    /// if memory is full. Nothing is changed then.
    pub fn load(&mut self, bytes: &[u8]) -> Result<(), CalculatorRefusal>
        ensures load { Loads bytes.now self.old.state self.new.state (result_err result) }
        ensures kept { KeepsAfterProgram (is_ok result) self.old self.new }
    {
        kept_answers_stay_right();
        self.check_change()?;
        let start = load(&mut self.machine.ram, bytes)?;
        self.machine.focal.halt_at(Position::Memory(start));
        self.input.entry = TypedEntry::Nothing;
        Ok(())
    }

    /// Sets the number of data registers, as the calculator's SIZE does, and ends the entry of a number or text.
    ///
    /// # Errors
    ///
    /// Busy (24) while a program or a function runs; MemoryLost (15) if memory is not sound; SizeTooLarge (17) if no
    /// register would be left for `.END.`; NoRoom (16) if the programs would not fit. Nothing is changed then.
    pub fn set_size(&mut self, count: u16) -> Result<(), CalculatorRefusal>
        ensures size { Becomes (size_makes self.old.state count) self.old.state self.new.state
            (result_err result) }
        ensures kept { KeepsAfterProgram (is_ok result) self.old self.new }
    {
        kept_answers_stay_right();
        self.check_change()?;
        set_size(&mut self.machine.ram, count)?;
        self.end_entry();
        Ok(())
    }

    /// Returns an error if programs cannot be changed: Busy (24) while a program or a function runs, MemoryLost (15) if
    /// memory is not sound.
    fn check_change(&self) -> Result<(), CalculatorRefusal>
        ensures { result_err result ≡ change_refusal self.now.state }
    {
        if self.mode != Mode::Idle {
            return Err(CalculatorRefusal::Busy);
        }
        if !self.machine.ram.is_sound() {
            return Err(CalculatorRefusal::MemoryLost);
        }
        Ok(())
    }

    /// Plugs 4,096 words at a bank of a page. If `writable` is true, microcode can write them.
    ///
    /// # Errors
    ///
    /// In this order: NoSuchPage (01) if the page is not 4 to F or the bank is not 1 to 4, Occupied (02) if the bank is
    /// plugged, BadImage (04) if there are not 4,096 words or one is above 3FF, OutOfMemory (21) if allocation failed.
    /// Nothing is changed then.
    pub fn plug(
        &mut self,
        alloc: Global,
        page: u8,
        bank: u8,
        writable: bool,
        words: &[u16],
    ) -> Result<(), PlugRefusal>
        ensures accepted { OnOk result (TakesPage self.old.state page bank words.now) }
        ensures change { OnOk result (self.new.state
            ≡ with_page page bank writable words.now self.old.state) }
        ensures unchanged { OnErr result (self.new.state ≡ self.old.state) }
        ensures cache { self.new.cache ≡ self.old.cache }
        ensures refusal { IfErr result (RefusesPage self.old.state page bank words.now) }
    {
        self.pages.plug(alloc, page, bank, writable, words)
    }

    /// Unplugs all banks of a page, 4 to F.
    ///
    /// # Errors
    ///
    /// NoSuchPage (01) if the page is not 4 to F, NotPlugged (03) if no bank of it is plugged. Nothing is changed then.
    pub fn unplug(&mut self, page: u8) -> Result<(), UnplugRefusal>
        ensures refusal { result_err result ≡ unplug_refusal self.old.state.nut.pages page }
        ensures change { OnOk result (self.new.state ≡ without_page page self.old.state) }
        ensures unchanged { OnErr result (self.new.state ≡ self.old.state) }
        ensures cache { self.new.cache ≡ self.old.cache }
    {
        self.pages.unplug(page)
    }

    /// Restores the initial state of the calculator, but keeps plugged pages. Bank 1 becomes the active bank of each
    /// page.
    pub fn reset(&mut self)
        ensures state { self.new.state ≡ after_reset self.old.state }
        ensures cache { self.new.cache ≡ no_searches }
    {
        self.cpu = Cpu::new();
        self.machine = initial_machine(&self.machine);
        self.pages.choose_first_banks();
        self.keys = Keys::new();
        self.input = Input::new();
        self.message = None;
        self.mode = Mode::Idle;
    }
}

/// Returns memory and the rest of the state of keystroke programs in their initial state, with as many registers of
/// main memory as `machine` has.
fn initial_machine<const REGS: usize>(machine: &Machine<REGS>) -> Machine<REGS>
    ensures machine { labelled.machine_of result
        ≡ machine_with (registers.start (length machine.now.ram.registers.main)) focal.start }
    ensures cache { cache_of result ≡ no_searches }
    ensures right { labelled.AreRight result }
{
    // Reading memory gives the proof its bounds: 64 to 320 registers.
    let _curtain = machine.ram.curtain();
    Machine::new()
}

/// Returns the mode after an executed line with this outcome: `Idle` if the line stops a program or fails, `Run` if it
/// starts one, otherwise `mode` unchanged.
#[inline(always)]
fn mode_after_line(mode: Mode, outcome: &LineOutcome) -> Mode
    ensures { (memory : RegisterMap) → result ≡ mode_after (answer_of memory outcome.now) mode }
{
    match outcome {
        LineOutcome::Stopped
        | LineOutcome::TurnedOff
        | LineOutcome::Prompted
        | LineOutcome::Failed(_) => Mode::Idle,
        LineOutcome::Runs => Mode::Run,
        _ => mode,
    }
}
