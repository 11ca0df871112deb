//! The ranges of the parts of a program line, for example of a register number.
ghost use Rattle.h41_codes.specs.ByteGrammar.{IsLine};

use h41_codes::{Line, Operand};

/// Makes it known to the prover that the parts of a line are in their ranges, for example that a register number is in
/// its own range, and does nothing else. The calls are necessary because the ranges of a type with a model are known
/// only after one of its methods is called.
pub fn know_ranges(line: &Line)
    ensures { IsLine line.now }
{
    match line {
        Line::Null | Line::Plain(_) => {}
        Line::LocalLabel(label) => {
            label.number();
        }
        Line::Number(number) => {
            number.characters();
        }
        Line::Named(_, name) => {
            name.characters();
        }
        Line::Register(_, register) => {
            register.number();
        }
        Line::WithOperand(_, Operand::Direct(parameter) | Operand::Indirect(parameter)) => {
            parameter.number();
        }
        Line::Module(number, entry) => {
            number.number();
            entry.number();
        }
        Line::BranchIndirect(_, register) => {
            register.number();
        }
        Line::ShortGoTo(label, distance) => {
            let _distance = *distance;
            label.number();
        }
        Line::GlobalLabel(link, key, name) => {
            let _key = *key;
            link.number();
            name.characters();
        }
        Line::End(link, marks) => {
            link.number();
            marks.number();
        }
        Line::FinalEnd(link, marks) => {
            link.number();
            marks.number();
        }
        Line::BranchTo(_, distance, _, label) => {
            distance.number();
            label.number();
        }
        Line::Text(text) => {
            text.characters();
        }
    }
}
