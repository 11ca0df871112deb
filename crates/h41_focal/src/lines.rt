//! Reading the program line at the position, and executing a line of any kind.

ghost use Rattle.std.specs.Prelude.{◌≡◌, ℕ, Ok, OnErr, IsTrue};
ghost use Rattle.h41_codes.specs.declared.line.Line.TheVariants.{BranchIndirect, Named};
ghost use Rattle.h41_focal.specs.LabelSearches.{search_for};
ghost use Rattle.h41_positions.specs.LabelledMachine.{machine_of};
ghost use Rattle.h41_focal.specs.LineStep.{Stands};
ghost use Rattle.h41_focal.specs.private.Carrying.{GoesToTarget};
ghost use Rattle.h41_focal.specs.private.Carrying.{CarriesAs};
ghost use Rattle.h41_focal.specs.private.Carrying.{TakesBranch, TakesNamed, TakesShort};
ghost use Rattle.h41_focal.specs.private.Searching.{AsksFrom, AsksOf, KeepsRest};
ghost use Rattle.h41_labels.specs.KeptAnswers.{IsRight};
ghost use Rattle.h41_pages.specs.PageMap.{PageMap};
ghost use Rattle.h41_rows.specs.Computing.{meant_by};
ghost use Rattle.h41_ram.specs.RegisterMap.{is_sound};

use crate::alpha_lines::text_line;
use crate::course::fail;
use crate::labels::{go_back, to_label, to_name};
use crate::machine::Machine;
use crate::operand_lines::is_parameter_out;
use crate::origin::Origin;
use crate::outcome::LineOutcome;
use crate::refusal::FocalRefusal;
use crate::register_lines::{recall, store};
use crate::short_lines::carry_short;
use crate::stack_lines::{be_silent, do_nothing, number_line};
use h41_codes::{
    Branch, Line, NameFunction, Parameter, RegisterFunction, ShortLine, ShortRegister, Text,
};
use h41_pages::Pages;
use h41_positions::{Position, line_and_next};
use h41_ram::Ram;
use h41_rows::{BranchTarget, branch_target, data_address, written};

/// Returns the program line at the position, and the position of the next line. MemoryLost (15) if memory is not sound;
/// BrokenProgram (14) if no line can be read there.
#[inline(always)]
pub fn standing<const REGS: usize>(
    machine: &Machine<REGS>,
    pages: &Pages,
) -> Result<(Line, Position), FocalRefusal>
    ensures { Stands pages.now (machine_of machine.now) result }
{
    let Machine { ram, focal } = machine;
    if !ram.is_sound() {
        return Err(FocalRefusal::MemoryLost);
    }
    match line_and_next(ram, pages, focal.position) {
        Ok(standing) => Ok(standing),
        Err(_) => Err(FocalRefusal::BrokenProgram),
    }
}

/// Executes a program line or a typed line with all that it calls, and returns its outcome. NotInProfile (13) if the
/// bench does not support the line or the function that it names; BrokenProgram (14) if the line that a test or loop
/// skips cannot be read. After these errors nothing has changed.
#[inline(never)]
pub fn carry_out<const REGS: usize>(
    machine: &mut Machine<REGS>,
    pages: &Pages,
    origin: Origin,
    line: &Line,
) -> Result<LineOutcome, FocalRefusal>
    requires sound { IsTrue (is_sound machine.old.ram.registers) }
    requires right { IsRight machine.old.focal.labels machine.old.ram.registers }
    ensures taken { CarriesAs pages.now origin line.now (machine_of machine.old)
        (machine_of machine.new) result }
    ensures unchanged { OnErr result (machine_of machine.new ≡ machine_of machine.old) }
    ensures kept { AsksOf origin line.now machine.old machine.new }
{
    let short = match line {
        Line::Null => return Ok(do_nothing(machine, origin)),
        Line::GlobalLabel(_, _, _) => return Ok(be_silent(machine, origin)),
        Line::Number(number) => return Ok(number_line(machine, origin, written(number))),
        Line::Named(function, name) => return named(machine, pages, origin, *function, *name),
        Line::End(_, _) => return Ok(go_back(machine, pages, origin)),
        Line::FinalEnd(_, _) => return Ok(go_back(machine, pages, origin)),
        Line::Text(text) => return Ok(text_line(machine, origin, text)),
        Line::LocalLabel(label) => ShortLine::LocalLabel(*label),
        Line::Register(function, register) => ShortLine::Register(*function, *register),
        Line::Plain(function) => ShortLine::Plain(*function),
        Line::WithOperand(function, operand) => ShortLine::WithOperand(*function, *operand),
        Line::Module(number, entry) => ShortLine::Module(*number, *entry),
        Line::BranchIndirect(branch, register) => ShortLine::BranchIndirect(*branch, *register),
        Line::ShortGoTo(label, distance) => ShortLine::ShortGoTo(*label, *distance),
        Line::BranchTo(branch, distance, backwards, label) => {
            ShortLine::BranchTo(*branch, *distance, *backwards, *label)
        }
    };
    carry_short(machine, pages, origin, short)
}

/// Executes `GTO` or `XEQ` with a name. NotInProfile (13) for `W`, the line with a name whose code has no function, and
/// for a function of the calculator that the bench does not support; BrokenProgram (14) if the line that the function
/// skips cannot be read. After these errors nothing has changed.
fn named<const REGS: usize>(
    machine: &mut Machine<REGS>,
    pages: &Pages,
    origin: Origin,
    function: NameFunction,
    name: Text<15>,
) -> Result<LineOutcome, FocalRefusal>
    requires sound { IsTrue (is_sound machine.old.ram.registers) }
    requires right { IsRight machine.old.focal.labels machine.old.ram.registers }
    ensures taken { TakesNamed pages.now origin function name (machine_of machine.old)
        (machine_of machine.new) result }
    ensures unchanged { OnErr result (machine_of machine.new ≡ machine_of machine.old) }
    ensures kept { AsksOf origin (Named function name) machine.old machine.new }
{
    match function {
        NameFunction::GoToName => to_name(machine, pages, origin, Branch::GoTo, name),
        NameFunction::ExecuteName => to_name(machine, pages, origin, Branch::Execute, name),
        NameFunction::Wordless => Err(FocalRefusal::NotInProfile),
    }
}

/// Executes `RCL` or `STO` with one of the data registers 00 to 15. If there is no such register, the error is
/// NONEXISTENT; then the outcome is `Failed`, or `Done` if flag 25 was set.
#[inline(always)]
pub fn short<const REGS: usize>(
    machine: &mut Machine<REGS>,
    origin: Origin,
    function: RegisterFunction,
    register: ShortRegister,
) -> Result<LineOutcome, FocalRefusal>
    ensures taken { (pages : PageMap) → TakesShort pages origin function register
        (machine_of machine.old) (machine_of machine.new) result }
    ensures unchanged { OnErr result (machine.new ≡ machine.old) }
    ensures keeps { KeepsRest machine.old machine.new }
{
    match (
        data_address(&machine.ram, u16::from(register.number())),
        function,
    ) {
        (Ok(address), RegisterFunction::RecallRegister) => Ok(recall(machine, origin, address)),
        (Ok(address), RegisterFunction::StoreRegister) => Ok(store(machine, origin, address)),
        (Err(fault), _) => Ok(fail(machine, origin, fault)),
    }
}

/// Executes `GTO IND` or `XEQ IND` with a register, which contains the number or the name of the label. The errors are
/// NONEXISTENT and ALPHA DATA; then the outcome is `Failed`, or `Done` if flag 25 was set. NotInProfile (13) if the
/// bench does not support the register, or the function that the register names; BrokenProgram (14) if the line that
/// the function skips cannot be read. After these errors nothing has changed.
pub fn indirect<const REGS: usize>(
    machine: &mut Machine<REGS>,
    pages: &Pages,
    origin: Origin,
    branch: Branch,
    register: Parameter,
) -> Result<LineOutcome, FocalRefusal>
    requires sound { IsTrue (is_sound machine.old.ram.registers) }
    requires right { IsRight machine.old.focal.labels machine.old.ram.registers }
    ensures taken { TakesBranch pages.now origin branch register (machine_of machine.old)
        (machine_of machine.new) result }
    ensures unchanged { OnErr result (machine_of machine.new ≡ machine_of machine.old) }
    ensures kept { AsksOf origin (BranchIndirect branch register) machine.old machine.new }
{
    if is_parameter_out(register) {
        return Err(FocalRefusal::NotInProfile);
    }
    match branch_target(&machine.ram, branch, register) {
        Ok(target) => to_target(machine, pages, origin, branch, target),
        Err(fault) => Ok(fail(machine, origin, fault)),
    }
}

/// Executes `GTO IND` or `XEQ IND` after its register was read: `target` is the local label or the name in the
/// register.
fn to_target<const REGS: usize>(
    machine: &mut Machine<REGS>,
    pages: &Pages,
    origin: Origin,
    branch: Branch,
    target: BranchTarget,
) -> Result<LineOutcome, FocalRefusal>
    requires sound { IsTrue (is_sound machine.old.ram.registers) }
    requires right { IsRight machine.old.focal.labels machine.old.ram.registers }
    ensures done { GoesToTarget pages.now origin branch target (machine_of machine.old)
        (machine_of machine.new) result }
    ensures unchanged { OnErr result (machine_of machine.new ≡ machine_of machine.old) }
    ensures kept { AsksFrom origin (λ from. search_for from (Ok (meant_by target)))
        machine.old machine.new }
{
    match target {
        BranchTarget::Label(label) => Ok(to_label(machine, pages, origin, branch, label)),
        BranchTarget::Name(name) => to_name(machine, pages, origin, branch, name),
    }
}
