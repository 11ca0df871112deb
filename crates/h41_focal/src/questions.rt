//! Tests of X, which skip the next line if they are false.

ghost use Rattle.std.specs.Prelude.{◌≡◌, ℕ, IsTrue, OnErr};
ghost use Rattle.h41_positions.specs.LabelledMachine.{machine_of};
ghost use Rattle.h41_focal.specs.private.Carrying.{CarriesWork, Leads, test_answer};
ghost use Rattle.h41_focal.specs.declared.works.FunctionWork.TheVariants.{Ask};
ghost use Rattle.h41_focal.specs.private.Searching.{KeepsRest};
ghost use Rattle.h41_ram.specs.RegisterMap.{is_sound};

use crate::course::{fail, go_on_lifting};
use crate::machine::Machine;
use crate::origin::Origin;
use crate::outcome::LineOutcome;
use crate::refusal::FocalRefusal;
use h41_pages::Pages;
use h41_positions::next;
use h41_ram::Ram;
use h41_rows::{Test, asks};

/// Returns the origin of a line after its test, with the position at which a program continues: the next line if the
/// test is true (`holds`), otherwise the one after it. A typed line remains a typed line. BrokenProgram (14) if the
/// line to be skipped cannot be read.
#[inline(always)]
pub fn lead<const REGS: usize>(
    ram: &Ram<REGS>,
    pages: &Pages,
    origin: Origin,
    holds: bool,
) -> Result<Origin, FocalRefusal>
    requires sound { IsTrue (is_sound ram.now.registers) }
    ensures { Leads pages.now origin ram.now.registers holds result }
{
    match origin {
        Origin::Typed => Ok(Origin::Typed),
        Origin::Program(following) if holds => Ok(Origin::Program(following)),
        Origin::Program(following) => match next(ram, pages, following) {
            Ok(position) => Ok(Origin::Program(position)),
            Err(_) => Err(FocalRefusal::BrokenProgram),
        },
    }
}

/// Returns the outcome of a test: `Answered` with its result if the line was typed, otherwise `Done`.
pub fn answer(origin: Origin, holds: bool) -> LineOutcome
    ensures { result ≡ test_answer origin holds }
{
    match origin {
        Origin::Program(_) => LineOutcome::Done,
        Origin::Typed => LineOutcome::Answered(holds),
    }
}

/// Executes a test of X, for example `X=0?` or `X<Y?`: if it is true, the program continues at the next line, otherwise
/// at the one after it. A typed test returns its answer (`Answered`) instead. Stack lift is turned on. If the test
/// compares numbers and a register contains none, the error is ALPHA DATA. BrokenProgram (14) if the line to be skipped
/// cannot be read; nothing changes then.
pub fn ask<const REGS: usize>(
    machine: &mut Machine<REGS>,
    pages: &Pages,
    origin: Origin,
    test: Test,
) -> Result<LineOutcome, FocalRefusal>
    requires { IsTrue (is_sound machine.old.ram.registers) }
    ensures carried { CarriesWork pages.now origin (Ask test) (machine_of machine.old)
        (machine_of machine.new) result }
    ensures unchanged { OnErr result (machine.new ≡ machine.old) }
    ensures keeps { KeepsRest machine.old machine.new }
{
    match asks(&machine.ram, test) {
        Ok(holds) => {
            let lead = lead(&machine.ram, pages, origin, holds)?;
            go_on_lifting(&mut machine.focal, lead);
            Ok(answer(origin, holds))
        }
        Err(fault) => Ok(fail(machine, origin, fault)),
    }
}
