//! Performs what a pressed key does to memory and to the rest of the state of keystroke programs.

ghost use Rattle.std.specs.Prelude.{◌≡◌, OnErr, is_ok};
ghost use Rattle.h41_positions.specs.LabelledMachine.{AreRight, machine_of};
ghost use Rattle.h41_xrom.specs.KeptLabels.{KeepsAfterAction};
ghost use Rattle.h41_xrom.specs.KeyActions.{Acts};
ghost use Rattle.h41_xrom.specs.LabelledCalculator.{cache_of};
ghost use Rattle.h41_xrom.specs.private.PrivateCalls.{IsActed, acted_as, edited_as, line_as};

use crate::refusal::CalculatorRefusal;
use crate::storing::stored_line;
use crate::typing::{begin_number, change_number, type_letters};
use h41_codes::{Function, Line};
use h41_editor::{delete_line, go_to_end, insert_line, replace_line, show_before, show_next};
use h41_focal::laws::kept_answers_stay_right;
use h41_focal::{FocalRefusal, LineOutcome, Machine};
use h41_keys::Action;
use h41_pages::Pages;
use h41_program::ProgramRefusal;

/// The program line `CLX`.
const CLEAR_X: Line = Line::Plain(Function::ClearX);

/// Performs what a key does to memory and to the rest of the state of keystroke programs, and returns what remains to
/// be done, as the outcome of a line: its result is shown, a function in microcode starts, and a program stops or starts.
/// The display and the mode are not changed.
///
/// # Errors
///
/// BrokenProgram (14) if bytes are not a program line, NotInProfile (13) if the bench does not support a line, NoRoom
/// (16) if the programs would not fit into main memory. Nothing is changed then.
pub fn act<const REGS: usize>(
    machine: &mut Machine<REGS>,
    pages: &Pages,
    program_mode: bool,
    action: Action,
) -> Result<LineOutcome, CalculatorRefusal>
    requires acted { IsActed action machine.old.ram.registers }
    requires right { AreRight machine.old }
    ensures effect { Acts pages.now program_mode action (machine_of machine.old)
        (acted_as (machine_of machine.new) result) }
    ensures unchanged { OnErr result (machine_of machine.new ≡ machine_of machine.old) }
    ensures kept { KeepsAfterAction pages.now program_mode (is_ok result) action
        (machine_of machine.old) (cache_of machine.old) (cache_of machine.new) }
    ensures right { AreRight machine.new }
{
    kept_answers_stay_right();
    match action {
        Action::Nothing => Ok(LineOutcome::Done),
        Action::Stop => Ok(LineOutcome::Stopped),
        Action::Run => Ok(LineOutcome::Runs),
        Action::Step if program_mode => edited(show_next(&machine.ram, pages, &mut machine.focal)),
        Action::Step => carried(machine.step(pages)),
        Action::StepBack => edited(show_before(&machine.ram, pages, &mut machine.focal)),
        Action::GoToEnd => edited(go_to_end(&mut machine.ram, &mut machine.focal)),
        Action::CarryOut(line) => carried(machine.key(pages, &line)),
        Action::Insert(line) => {
            let stored = stored_line(machine, pages, line);
            edited(insert_line(&mut machine.ram, pages, &mut machine.focal, stored))
        }
        Action::Replace(line) => edited(replace_line(&mut machine.ram, &mut machine.focal, line)),
        Action::Delete => edited(delete_line(&mut machine.ram, pages, &mut machine.focal)),
        Action::EndNumber => carried(machine.key(pages, &CLEAR_X)),
        Action::BeginNumber(number) => {
            begin_number(machine, &number);
            Ok(LineOutcome::Done)
        }
        Action::ChangeNumber(number) => {
            change_number(machine, &number);
            Ok(LineOutcome::Done)
        }
        _ => {
            type_letters(&mut machine.ram, action);
            Ok(LineOutcome::Done)
        }
    }
}

/// Returns the result of an edit of the program, or of a move to another line, as the result of a key: nothing remains
/// to be done (`LineOutcome::Done`), or the edit's error, BrokenProgram (14) or NoRoom (16).
fn edited(given: Result<(), ProgramRefusal>) -> Result<LineOutcome, CalculatorRefusal>
    ensures { result ≡ edited_as given }
{
    match given {
        Ok(()) => Ok(LineOutcome::Done),
        Err(refusal) => Err(refusal.into()),
    }
}

/// Returns the result of a program line or a typed line as the result of a key.
fn carried(given: Result<LineOutcome, FocalRefusal>) -> Result<LineOutcome, CalculatorRefusal>
    ensures { result ≡ line_as given }
{
    match given {
        Ok(outcome) => Ok(outcome),
        Err(refusal) => Err(refusal.into()),
    }
}
