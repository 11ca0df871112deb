//! Tests for the kinds of lines that program memory treats differently.
ghost use Rattle.std.specs.Prelude.{◌≡◌};
ghost use Rattle.h41_codes.specs.declared.line.Line.TheVariants.{WithOperand};
ghost use Rattle.h41_program.specs.Lines as spec;

use h41_codes::{Line, Operand, Parameter, ParameterFunction};

/// Returns whether a line is `.END.`.
pub fn is_final_end(line: Line) -> bool
    ensures { result ≡ spec.is_final_end line }
{
    matches!(line, Line::FinalEnd(_, _))
}

/// Returns whether a line is one that a program can contain: neither a null nor `.END.`.
pub fn is_inner(line: Line) -> bool
    ensures { result ≡ spec.is_inner line }
{
    !matches!(line, Line::Null | Line::FinalEnd(_, _))
}

/// Returns whether a line is `END`. `.END.` is not.
pub fn is_end(line: &Line) -> bool
    ensures { result ≡ spec.is_end line.now }
{
    matches!(line, Line::End(_, _))
}

/// Returns whether a line is a number line, that is, one whose bytes are the characters of a number.
pub fn is_number(line: Line) -> bool
    ensures { result ≡ spec.is_number line }
{
    matches!(line, Line::Number(_))
}

/// Returns whether a line is the local label `LBL n` whose number n is that of `label`, in one byte or in two.
pub fn is_label(line: Line, label: Parameter) -> bool
    ensures { result ≡ spec.is_label label line }
{
    match line {
        Line::LocalLabel(short) => short.number() == label.number(),
        Line::WithOperand(function, operand) => is_long_label(function, operand, label),
        _ => false,
    }
}

/// Returns whether a function and its operand are `LBL n` with the number n of `label`, as a two-byte line. `LBL IND`
/// is not.
fn is_long_label(function: ParameterFunction, operand: Operand, label: Parameter) -> bool
    ensures { result ≡ spec.is_label label (WithOperand function operand) }
{
    match operand {
        Operand::Direct(long) => {
            matches!(function, ParameterFunction::Label) && long.number() == label.number()
        }
        Operand::Indirect(_) => false,
    }
}

/// Returns whether a line is the global label (`LBL` with a name) that has exactly the characters `name`.
pub fn is_named(line: Line, name: &[u8]) -> bool
    ensures { result ≡ spec.is_named name.now line }
{
    match line {
        Line::GlobalLabel(_, _, label) => label.characters() == name,
        _ => false,
    }
}
