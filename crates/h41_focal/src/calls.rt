//! Calling what is outside program memory: the functions of modules, and the calculator's own functions by name.

ghost use Rattle.std.specs.Prelude.{◌≡◌, IsTrue, OnErr, true};
ghost use Rattle.h41_focal.specs.OutsideCalls.{IsNamed};
ghost use Rattle.h41_focal.specs.private.Arrivals.{outcome_of_entry, state_in_entry};
ghost use Rattle.h41_focal.specs.private.Carrying.{CallsEntry, CallsNamed, IsFunction};
ghost use Rattle.h41_focal.specs.private.Searching.{KeepsRest};
ghost use Rattle.h41_pages.specs.FunctionTables.{entry_at};
ghost use Rattle.h41_positions.specs.LabelledMachine.{machine_of};
ghost use Rattle.h41_ram.specs.RegisterMap.{is_sound};

use crate::course::fail;
use crate::functions::plain;
use crate::labels::arrive;
use crate::machine::Machine;
use crate::origin::Origin;
use crate::outcome::LineOutcome;
use crate::refusal::FocalRefusal;
use h41_codes::{Branch, EntryNumber, Function, Line, ModuleNumber};
use h41_pages::{Entry, Pages};
use h41_positions::{Focal, Position};
use h41_rows::LineFault;
use h41_text::read_line;

/// Executes an XROM line: calls the function of a module with this XROM number and entry number. If there is none, the
/// error is NONEXISTENT; then the outcome is `Failed`, or `Done` if flag 25 was set.
#[inline(never)]
pub fn call_module<const REGS: usize>(
    machine: &mut Machine<REGS>,
    pages: &Pages,
    origin: Origin,
    number: ModuleNumber,
    entry: EntryNumber,
) -> LineOutcome
    ensures done { CallsEntry origin true (entry_at pages.now number entry)
        (machine_of machine.old) (machine_of machine.new) result }
    ensures keeps { KeepsRest machine.old machine.new }
{
    call_entry(
        machine,
        origin,
        true,
        pages.entry(number.number(), entry.number()),
    )
}

/// Calls what has the name that a line calls and that is no label in memory: the function of a module with this name,
/// otherwise the calculator's own function, which is executed in place of the line. If there is neither, the error is
/// NONEXISTENT; then the outcome is `Failed`, or `Done` if flag 25 was set. NotInProfile (13) if the bench does not
/// support the function, BrokenProgram (14) if the line that the function skips cannot be read. After these errors
/// nothing has changed.
#[inline(never)]
pub fn call_named<const REGS: usize>(
    machine: &mut Machine<REGS>,
    pages: &Pages,
    origin: Origin,
    name: &[u8],
) -> Result<LineOutcome, FocalRefusal>
    requires { IsTrue (is_sound machine.old.ram.registers) }
    ensures done { CallsNamed pages.now origin name.now (machine_of machine.old)
        (machine_of machine.new) result }
    ensures unchanged { OnErr result (machine.new ≡ machine.old) }
    ensures keeps { KeepsRest machine.old machine.new }
{
    if let Some((number, entry)) = pages.find(name) {
        return Ok(call_entry(machine, origin, false, pages.entry(number, entry)));
    }
    match function_named(name) {
        Some(function) => plain(machine, pages, origin, function),
        None => Ok(fail(machine, origin, LineFault::Nonexistent)),
    }
}

/// Calls the function of a module's table entry, and returns the outcome. `lifts` says whether the line turns stack lift
/// on. If `entry` is `None`, the error is NONEXISTENT.
fn call_entry<const REGS: usize>(
    machine: &mut Machine<REGS>,
    origin: Origin,
    lifts: bool,
    entry: Option<Entry>,
) -> LineOutcome
    ensures done { CallsEntry origin lifts entry (machine_of machine.old) (machine_of machine.new)
        result }
    ensures keeps { KeepsRest machine.old machine.new }
{
    match entry {
        Some(entry) => begin_entry(&mut machine.focal, origin, lifts, entry),
        None => fail(machine, origin, LineFault::Nonexistent),
    }
}

/// Starts the function of a module's table entry, and returns the outcome. If it is in microcode, a program moves to the
/// next line. If it is a keystroke program, the position moves to its first line: the next line of a calling program
/// becomes the newest return address, and a typed line starts it without return addresses.
fn begin_entry(focal: &mut Focal, origin: Origin, lifts: bool, entry: Entry) -> LineOutcome
    ensures state { focal.new.state ≡ state_in_entry origin lifts entry focal.old.state }
    ensures labels { focal.new.labels ≡ focal.old.labels }
    ensures outcome { result ≡ outcome_of_entry origin entry }
{
    if let Origin::Program(next) = origin {
        focal.go_to(next);
        focal.lift = lifts || focal.lift;
    }
    if entry.keystroke {
        let start = Position::Page(entry.address);
        arrive(focal, origin, Branch::Execute, start)
    } else {
        LineOutcome::Begins(entry.address)
    }
}

/// Returns the calculator's own function without an operand that has this name, for example `SIN`, or `None` if there
/// is none.
pub fn function_named(name: &[u8]) -> Option<Function>
    ensures { IsNamed name.now result }
{
    match read_line(name) {
        Ok(line) => function_of(&line),
        Err(_) => None,
    }
}

/// Returns the function of a program line that is a function without an operand, otherwise `None`.
fn function_of(line: &Line) -> Option<Function>
    ensures { IsFunction line.now result }
{
    match line {
        Line::Plain(function) => Some(*function),
        _ => None,
    }
}
