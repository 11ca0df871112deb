//! Program lines that change ALPHA or switch ALPHA mode.

ghost use Rattle.std.specs.Prelude.{◌≡◌, ◌≤◌, ℕ, IfNone, IfSome, length};
ghost use Rattle.h41_codes.specs.declared.line.Line.TheVariants as lines;
ghost use Rattle.h41_positions.specs.LabelledMachine.{machine_of};
ghost use Rattle.h41_focal.specs.private.Carrying.{DoesLine, DoesWork, IsAppended, ReplacesAlpha};
ghost use Rattle.h41_focal.specs.private.Carrying.{PutsText};
ghost use Rattle.h41_focal.specs.declared.works.FunctionWork.TheVariants.{Alpha};
ghost use Rattle.h41_focal.specs.private.Searching.{KeepsRest};
ghost use Rattle.h41_ram.specs.RamState.{KeepsMark};
ghost use Rattle.h41_rows.specs.RowMarks.{LeavesMark};

use crate::course::go_on_lifting;
use crate::machine::Machine;
use crate::origin::Origin;
use crate::outcome::LineOutcome;
use crate::works::AlphaWork;
use h41_codes::Text;
use h41_ram::Ram;
use h41_ram::flags::ALPHA_MODE;
use h41_rows::{append_text, replace_text, shift_six};

/// The code, 7F, of the append sign: a text line that begins with it is appended to ALPHA.
const APPEND: u8 = 0x7F;

/// Executes `CLA`, `ASHF` (removes the first six characters of ALPHA), `AON` or `AOFF`, and turns stack lift on. The
/// program continues at the next line; for a typed line the position does not change.
pub fn change_alpha<const REGS: usize>(
    machine: &mut Machine<REGS>,
    origin: Origin,
    work: AlphaWork,
) -> LineOutcome
    ensures done { DoesWork origin (Alpha work) (machine_of machine.old)
        (machine_of machine.new) result }
    ensures keeps { KeepsRest machine.old machine.new }
{
    match work {
        AlphaWork::Clear => {
            replace_text(&mut machine.ram, &[]);
            go_on_lifting(&mut machine.focal, origin);
            LineOutcome::Done
        }
        AlphaWork::Shift => {
            shift_six(&mut machine.ram);
            go_on_lifting(&mut machine.focal, origin);
            LineOutcome::Done
        }
        AlphaWork::Mode(on) => {
            machine.ram.set_flag(ALPHA_MODE, on);
            go_on_lifting(&mut machine.focal, origin);
            LineOutcome::Done
        }
    }
}

/// Executes a text line: the text replaces ALPHA. If it begins with the append sign (7F), the rest is appended to ALPHA
/// instead. A text without characters leaves ALPHA unchanged. Stack lift is turned on.
pub fn text_line<const REGS: usize>(
    machine: &mut Machine<REGS>,
    origin: Origin,
    text: &Text<15>,
) -> LineOutcome
    ensures done { DoesLine origin (lines.Text text.now) (machine_of machine.old)
        (machine_of machine.new) result }
    ensures keeps { KeepsRest machine.old machine.new }
{
    put_text(&mut machine.ram, text.characters());
    go_on_lifting(&mut machine.focal, origin);
    LineOutcome::Done
}

/// Writes the text of a text line to ALPHA. It replaces ALPHA, or the rest is appended to ALPHA if the text begins with
/// the append sign (7F). A text without characters changes nothing.
fn put_text<const REGS: usize>(ram: &mut Ram<REGS>, text: &[u8])
    ensures change { PutsText text.now ram.old.registers ram.new.registers }
    ensures mark { KeepsMark ram.old ram.new }
    ensures left { LeavesMark ram.old ram.new }
{
    match text {
        [] => {}
        characters => match appended(characters) {
            Some(rest) => append_text(ram, rest),
            None => replace_text(ram, characters),
        },
    }
}

/// Returns the part of a text after the append sign (7F), or `None` if the text does not begin with it.
fn appended(text: &[u8]) -> Option<&[u8]>
    ensures appends { IfSome result (λ rest. IsAppended text.now rest.now) }
    ensures replaces { IfNone result (ReplacesAlpha text.now) }
{
    match text {
        [] => None,
        [APPEND, rest @ ..] => Some(rest),
        _ => None,
    }
}
