//! The program line that a line typed in program mode is stored as.

ghost use Rattle.std.specs.Prelude.{IfSome, IsTrue};
ghost use Rattle.h41_positions.specs.LabelledMachine.{machine_of};
ghost use Rattle.h41_program.specs.Lines.{is_inner};
ghost use Rattle.h41_ram.specs.RegisterMap.{is_sound};
ghost use Rattle.h41_xrom.specs.KeyActions.{IsStoredAs};
ghost use Rattle.h41_xrom.specs.private.PrivateCalls.{StoresFor};

use h41_codes::{EntryNumber, Line, ModuleNumber, NameFunction};
use h41_focal::{Machine, function_named};
use h41_pages::Pages;
use h41_program::global;

/// Returns the program line as which a typed line is stored in program mode. It is the typed line itself, except for
/// `XEQ` with a name that is not a label in memory: that becomes the XROM line of a module's function with the name,
/// otherwise the calculator's own function, if there is one.
pub fn stored_line<const REGS: usize>(machine: &Machine<REGS>, pages: &Pages, line: Line) -> Line
    requires sound { IsTrue (is_sound machine.now.ram.registers) }
    requires inner { IsTrue (is_inner line) }
    ensures line { IsStoredAs pages.now machine.now.ram.registers line result }
    ensures inner { IsTrue (is_inner result) }
{
    match &line {
        Line::Named(NameFunction::ExecuteName, name) => {
            match stored_for(machine, pages, name.characters()) {
                Some(stored) => stored,
                None => line,
            }
        }
        _ => line,
    }
}

/// Returns the program line that is stored in place of `XEQ` with a name: the XROM line of a module's function with the
/// name, otherwise the calculator's own function. `None` if the name is that of a label in memory, or if there is no
/// such function.
fn stored_for<const REGS: usize>(
    machine: &Machine<REGS>,
    pages: &Pages,
    name: &[u8],
) -> Option<Line>
    requires { IsTrue (is_sound machine.now.ram.registers) }
    ensures line { StoresFor pages.now machine.now.ram.registers name.now result }
    ensures inner { IfSome result (λ line. IsTrue (is_inner line)) }
{
    if global(&machine.ram, name).is_some() {
        return None;
    }
    if let Some((number, entry)) = pages.find(name) {
        return Some(Line::Module(ModuleNumber::new(number), EntryNumber::new(entry)));
    }
    match function_named(name) {
        Some(function) => Some(Line::Plain(function)),
        None => None,
    }
}
