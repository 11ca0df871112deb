//! Executing short lines: program lines of at most three bytes, without a text.

ghost use Rattle.std.specs.Prelude.{◌≡◌, false, IfNone, IfSome, Ok, OnErr, IsTrue};
ghost use Rattle.h41_codes.specs.ShortLines.{line_of};
ghost use Rattle.h41_positions.specs.LabelledMachine.{machine_of};
ghost use Rattle.h41_focal.specs.LineStep.{Stands};
ghost use Rattle.h41_focal.specs.private.Carrying.{StandsNoNumber, StandsNoShort, StandsNumber};
ghost use Rattle.h41_focal.specs.private.Carrying.{CarriesAs};
ghost use Rattle.h41_focal.specs.private.Searching.{AsksOf};
ghost use Rattle.h41_labels.specs.KeptAnswers.{IsRight};
ghost use Rattle.h41_pages.specs.PageMap.{PageMap};
ghost use Rattle.h41_ram.specs.RegisterMap.{is_sound};

use crate::functions::plain_at_once;
use crate::labels::to_label;
use crate::lines::short;
use crate::machine::Machine;
use crate::origin::Origin;
use crate::outcome::LineOutcome;
use crate::rare_lines::{indirect_line, module_line, operand_line};
use crate::refusal::FocalRefusal;
use crate::stack_lines::be_silent;
use h41_codes::{Branch, Parameter, ShortLine};
use h41_decimal::Ten;
use h41_pages::Pages;
use h41_plain_numbers::plain_number;
use h41_positions::{Position, short_line};
use h41_ram::Ram;

/// Returns the short line (at most three bytes, without a text) whose first byte is at the position, and the position
/// of the next line. `None` for all other lines, if no line can be read there, if memory is not sound, and if the dirty
/// flag of memory is set.
#[inline(always)]
pub fn short_standing<const REGS: usize>(
    machine: &Machine<REGS>,
    pages: &Pages,
) -> Option<(ShortLine, Position)>
    ensures clear { IfSome result (λ found. machine.now.ram.touched ≡ false) }
    ensures some { IfSome result
        (λ found. Stands pages.now (machine_of machine.now) (Ok (line_of found.0, found.1))) }
    ensures none { IfNone result
        (machine.now.ram.touched ≡ false → StandsNoShort pages.now (machine_of machine.now)) }
{
    let Machine { ram, focal } = machine;
    if !ram.is_sound() || ram.program_touched() {
        return None;
    }
    short_line(ram, pages, focal.position)
}

/// Returns the number that the number line at the position writes to X, and the position of the next line, if it can be
/// read in one pass. `None` otherwise, and always for a position in a plug-in page.
#[inline(always)]
pub fn number_standing<const REGS: usize>(machine: &Machine<REGS>) -> Option<(Ten, Position)>
    ensures some { IfSome result (λ found. (pages : PageMap)
        → StandsNumber pages (machine_of machine.now) found.0 found.1) }
    ensures none { IfNone result (StandsNoNumber (machine_of machine.now)) }
{
    let Machine { ram, focal } = machine;
    if !ram.is_sound() {
        return None;
    }
    match focal.position {
        Position::Memory(at) => match plain_number(ram, at) {
            Some((number, next)) => Some((number, Position::Memory(next))),
            None => None,
        },
        Position::Page(_) => None,
    }
}

/// Executes a short line (at most three bytes, without a text) with all that it calls, and returns its outcome.
/// NotInProfile (13) if the bench does not support the line, or the function that it names; BrokenProgram (14) if a line
/// to be skipped cannot be read. After these errors nothing has changed.
#[inline(always)]
pub fn carry_short<const REGS: usize>(
    machine: &mut Machine<REGS>,
    pages: &Pages,
    origin: Origin,
    line: ShortLine,
) -> Result<LineOutcome, FocalRefusal>
    requires sound { IsTrue (is_sound machine.old.ram.registers) }
    requires right { IsRight machine.old.focal.labels machine.old.ram.registers }
    ensures taken { CarriesAs pages.now origin (line_of line) (machine_of machine.old)
        (machine_of machine.new) result }
    ensures unchanged { OnErr result (machine_of machine.new ≡ machine_of machine.old) }
    ensures kept { AsksOf origin (line_of line) machine.old machine.new }
{
    match line {
        ShortLine::LocalLabel(_) => Ok(be_silent(machine, origin)),
        ShortLine::Register(function, register) => short(machine, origin, function, register),
        ShortLine::Plain(function) => plain_at_once(machine, pages, origin, function),
        ShortLine::WithOperand(function, operand) => operand_line(
            machine, pages, origin, function, operand,
        ),
        ShortLine::Module(number, entry) => Ok(module_line(machine, pages, origin, number, entry)),
        ShortLine::BranchIndirect(branch, register) => indirect_line(
            machine, pages, origin, branch, register,
        ),
        ShortLine::ShortGoTo(label, _) => {
            let label = Parameter::new(label.number());
            Ok(to_label(machine, pages, origin, Branch::GoTo, label))
        }
        ShortLine::BranchTo(branch, _, _, label) => Ok(to_label(
            machine, pages, origin, branch, label,
        )),
    }
}
