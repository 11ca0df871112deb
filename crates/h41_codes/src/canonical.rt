//! The shortest spelling of a program line.
ghost use Rattle.std.specs.Prelude.{◌≡◌};
ghost use Rattle.h41_codes.specs.Canon.{canonical_line, shortest_function, shortest_branch};
ghost use Rattle.h41_codes.specs.declared.line.Operand.TheVariants.{Direct};

use crate::functions::{Branch, ParameterFunction, RegisterFunction};
use crate::line::{Line, Operand};
use crate::numbers::{Distance, EndMarks, FinalMarks, Link, Parameter, ShortLabel, ShortRegister};

/// The number of registers, 00 to 15, for which `RCL` and `STO` have a spelling in one byte. Register 16 is the first
/// without one.
const SHORT_REGISTERS: u8 = 16;

/// The number of labels, 00 to 14, for which `LBL` has a spelling in one byte and `GTO` one in two bytes. Label 15 is
/// the first without one.
const SHORT_LABELS: u8 = 15;

/// Returns the canonical line of a program line: the one that takes the fewest bytes of all lines with the same
/// canonical line. For example, `RCL 05` in two bytes becomes `RCL 05` in one. Distances, links, keys and the status
/// bits of an END, which only the calculator uses, become 0.
pub fn canon(line: Line) -> Line
    ensures { result ≡ canonical_line line }
{
    match line {
        Line::WithOperand(function, operand) => short_function(function, operand),
        Line::BranchTo(branch, _, _, label) => short_branch(branch, label),
        Line::ShortGoTo(label, _) => Line::ShortGoTo(label, 0),
        Line::GlobalLabel(_, _, name) => Line::GlobalLabel(Link::new(0), 0, name),
        Line::End(_, _) => Line::End(Link::new(0), EndMarks::new(0)),
        Line::FinalEnd(_, _) => Line::FinalEnd(Link::new(0), FinalMarks::new(0)),
        _ => line,
    }
}

/// Returns the program line with the fewest bytes for a function with a parameter, direct or indirect. For example,
/// `RCL 05` takes one byte, and `RCL 20` two.
fn short_function(function: ParameterFunction, operand: Operand) -> Line
    ensures { result ≡ shortest_function function operand }
{
    match operand {
        Operand::Direct(parameter) => short_direct(function, parameter),
        Operand::Indirect(parameter) => Line::WithOperand(function, Operand::Indirect(parameter)),
    }
}

/// Returns the program line with the fewest bytes for a function with a direct parameter: `RCL` and `STO` with
/// registers 00 to 15, and `LBL` with labels 00 to 14, take one byte; all others two.
fn short_direct(function: ParameterFunction, parameter: Parameter) -> Line
    ensures { result ≡ shortest_function function (Direct parameter) }
{
    let number = parameter.number();
    match function {
        ParameterFunction::Recall if number < SHORT_REGISTERS => {
            Line::Register(RegisterFunction::RecallRegister, ShortRegister::new(number))
        }
        ParameterFunction::Store if number < SHORT_REGISTERS => {
            Line::Register(RegisterFunction::StoreRegister, ShortRegister::new(number))
        }
        ParameterFunction::Label if number < SHORT_LABELS => Line::LocalLabel(ShortLabel::new(
            number,
        )),
        _ => Line::WithOperand(function, Operand::Direct(parameter)),
    }
}

/// Returns the program line with the fewest bytes for `GTO` or `XEQ` with a local label: `GTO` with labels 00 to 14
/// takes two bytes; all others three. The distance becomes 0.
fn short_branch(branch: Branch, label: Parameter) -> Line
    ensures { result ≡ shortest_branch branch label }
{
    let number = label.number();
    match branch {
        Branch::GoTo if number < SHORT_LABELS => Line::ShortGoTo(ShortLabel::new(number), 0),
        _ => Line::BranchTo(branch, Distance::new(0), false, label),
    }
}
