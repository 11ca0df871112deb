//! Common parts of the results of accepted keys.
ghost use Rattle.std.specs.Prelude.{◌≡◌};
ghost use Rattle.h41_keys.specs.KeyPress as press;

use crate::action::Action;
use crate::input::{Input, Pressed, TypedEntry};
use h41_codes::{Function, Line};

/// Returns the result of an accepted key, which is a given action of the calculator and a given state of the keyboard.
pub(crate) fn does(action: Action, input: Input) -> Pressed
    ensures { result ≡ press.does action input }
{
    Pressed { action, input }
}

/// Returns a keyboard state in which SHIFT is off and a given number or text is being typed. Program mode and the
/// prompt stay.
pub(crate) fn typing(input: Input, entry: TypedEntry) -> Input
    ensures { result ≡ press.with_entry input entry }
{
    Input {
        shift: false,
        entry,
        ..input
    }
}

/// Returns a keyboard state in which SHIFT is off and no number or text is being typed. Program mode and the prompt
/// stay.
pub(crate) fn ended(input: Input) -> Input
    ensures { result ≡ press.without_entry input }
{
    typing(input, TypedEntry::Nothing)
}

/// Returns the text that is being typed, or `Nothing` if a number is being typed.
pub(crate) fn without_number(entry: TypedEntry) -> TypedEntry
    ensures { result ≡ press.without_number entry }
{
    match entry {
        TypedEntry::Number(_) => TypedEntry::Nothing,
        other => other,
    }
}

/// Returns the result of typing a program line: it is inserted in program mode, and executed otherwise. Outside program
/// mode a text that is being typed continues, and a number ends.
pub(crate) fn line_typed(input: Input, line: Line) -> Pressed
    ensures { result ≡ press.line_typed input line }
{
    if input.program_mode {
        does(Action::Insert(line), ended(input))
    } else {
        does(
            Action::CarryOut(line),
            typing(input, without_number(input.entry)),
        )
    }
}

/// Returns the result of typing a function without a parameter, such as SIN: its program line is inserted in program
/// mode, and executed otherwise.
pub(crate) fn function_typed(input: Input, function: Function) -> Pressed
    ensures { result ≡ press.function_typed input function }
{
    line_typed(input, Line::Plain(function))
}
