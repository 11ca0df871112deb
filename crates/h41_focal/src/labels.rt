//! Branches to labels, calls of programs, and returns.

ghost use Rattle.std.specs.Prelude.{◌≡◌, ℕ, IsTrue, OnErr, Some};
ghost use Rattle.h41_positions.specs.LabelledMachine.{local_search};
ghost use Rattle.h41_positions.specs.LabelledMachine.{machine_of};
ghost use Rattle.h41_focal.specs.private.Arrivals.{ReturnsFrom, answer_at, focal_at};
ghost use Rattle.h41_focal.specs.private.Carrying.{GoesBack, GoesToLabel, GoesToName};
ghost use Rattle.h41_focal.specs.private.Searching.{AsksFrom, KeepsRest};
ghost use Rattle.h41_labels.specs.KeptAnswers.{IsRight};
ghost use Rattle.h41_labels.specs.declared.search.Search.TheVariants.{Global};
ghost use Rattle.h41_ram.specs.RegisterMap.{is_sound};

use crate::calls::call_named;
use crate::course::fail;
use crate::machine::Machine;
use crate::origin::Origin;
use crate::outcome::LineOutcome;
use crate::refusal::FocalRefusal;
use arrayvec::ArrayVec;
use h41_codes::{Branch, Parameter, Text};
use h41_pages::Pages;
use h41_positions::{Focal, Position, start_of};
use h41_rows::LineFault;

/// Executes `GTO` (`Branch::GoTo`) or `XEQ` (`Branch::Execute`) with a local label. The search begins after the line,
/// or for a typed line at the position. If the program has no such label, the error is NONEXISTENT; then the outcome is
/// `Failed`, or `Done` if flag 25 was set.
#[inline(always)]
pub fn to_label<const REGS: usize>(
    machine: &mut Machine<REGS>,
    pages: &Pages,
    origin: Origin,
    branch: Branch,
    label: Parameter,
) -> LineOutcome
    requires sound { IsTrue (is_sound machine.old.ram.registers) }
    requires right { IsRight machine.old.focal.labels machine.old.ram.registers }
    ensures done { GoesToLabel pages.now origin branch label (machine_of machine.old)
        (machine_of machine.new) result }
    ensures kept { AsksFrom origin (λ from. local_search from label)
        machine.old machine.new }
{
    let from = match origin {
        Origin::Program(next) => next,
        Origin::Typed => machine.focal.position,
    };
    match machine.focal.local(&machine.ram, pages, from, label) {
        Some(position) => arrive(&mut machine.focal, origin, branch, position),
        None => fail(machine, origin, LineFault::Nonexistent),
    }
}

/// Executes `GTO` or `XEQ` with a name: moves to the last global label in memory with this name. If there is none,
/// `GTO` fails with NONEXISTENT (the outcome is `Failed`, or `Done` if flag 25 was set), and `XEQ` calls what has this
/// name outside memory. NotInProfile (13) if that is a function that the bench does not support, BrokenProgram (14) if
/// the line that the function skips cannot be read. After these errors nothing has changed.
pub fn to_name<const REGS: usize>(
    machine: &mut Machine<REGS>,
    pages: &Pages,
    origin: Origin,
    branch: Branch,
    name: Text<15>,
) -> Result<LineOutcome, FocalRefusal>
    requires sound { IsTrue (is_sound machine.old.ram.registers) }
    requires right { IsRight machine.old.focal.labels machine.old.ram.registers }
    ensures done { GoesToName pages.now origin branch name (machine_of machine.old)
        (machine_of machine.new) result }
    ensures unchanged { OnErr result (machine_of machine.new ≡ machine_of machine.old) }
    ensures kept { AsksFrom origin (λ from. Some (Global name)) machine.old machine.new }
{
    match (machine.focal.global(&machine.ram, name), branch) {
        (Some(byte), _) => {
            let label = Position::Memory(byte);
            Ok(arrive(&mut machine.focal, origin, branch, label))
        }
        (None, Branch::GoTo) => Ok(fail(machine, origin, LineFault::Nonexistent)),
        (None, Branch::Execute) => call_named(machine, pages, origin, name.characters()),
    }
}

/// Moves the position to a label that `GTO` or `XEQ` found, and returns the outcome. For `XEQ` in a program the next
/// line becomes the newest return address, and a seventh one replaces the oldest. A typed `XEQ` clears all return
/// addresses, and its outcome is `Runs`.
#[inline(always)]
pub fn arrive(focal: &mut Focal, origin: Origin, branch: Branch, position: Position) -> LineOutcome
    ensures state { focal.new.state ≡ focal_at origin branch position focal.old.state }
    ensures labels { focal.new.labels ≡ focal.old.labels }
    ensures answer { result ≡ answer_at origin branch }
{
    focal.go_to(position);
    match (branch, origin) {
        (Branch::GoTo, _) => LineOutcome::Done,
        (Branch::Execute, Origin::Program(next)) => {
            match focal.returns.as_slice() {
                [_, second, third, fourth, fifth, sixth] => {
                    focal.returns = ArrayVec::from([
                        *second, *third, *fourth, *fifth, *sixth, next,
                    ]);
                }
                _ => focal.returns.push(next),
            }
            LineOutcome::Done
        }
        (Branch::Execute, Origin::Typed) => {
            focal.returns.clear();
            LineOutcome::Runs
        }
    }
}

/// Executes `RTN`, `END` or `.END.`: moves the position to the newest return address and removes it. If there is none,
/// or if the line is typed, moves to line 00 of the program and clears all return addresses. The outcome is `Stopped`
/// if a program has no return address.
#[inline(always)]
pub fn go_back<const REGS: usize>(
    machine: &mut Machine<REGS>,
    pages: &Pages,
    origin: Origin,
) -> LineOutcome
    requires { IsTrue (is_sound machine.old.ram.registers) }
    ensures done { GoesBack pages.now origin
        (machine_of machine.old) (machine_of machine.new) result }
    ensures keeps { KeepsRest machine.old machine.new }
{
    match origin {
        Origin::Program(_) => return_from(machine, pages),
        Origin::Typed => {
            let start = start_of(&machine.ram, pages, machine.focal.position);
            machine.focal.halt_at(start);
            LineOutcome::Done
        }
    }
}

/// Moves the position to the newest return address and removes it. If there is none, moves to line 00 of the program,
/// and the outcome is `Stopped`.
#[inline(always)]
fn return_from<const REGS: usize>(machine: &mut Machine<REGS>, pages: &Pages) -> LineOutcome
    requires { IsTrue (is_sound machine.old.ram.registers) }
    ensures done { ReturnsFrom pages.now (machine_of machine.old) (machine_of machine.new) result }
    ensures keeps { KeepsRest machine.old machine.new }
{
    match machine.focal.returns.pop() {
        Some(position) => {
            machine.focal.go_to(position);
            LineOutcome::Done
        }
        None => {
            let start = start_of(&machine.ram, pages, machine.focal.position);
            machine.focal.halt_at(start);
            LineOutcome::Stopped
        }
    }
}
