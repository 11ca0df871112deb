//! The effect of each key on an open prompt, which waits for the parameter of a function.
ghost use Rattle.std.specs.Prelude.{◌≡◌, ◌<◌, ◌≤◌, [], length, IfSome};
ghost use Rattle.h41_codes.specs.Counts.{parameter_count};
ghost use Rattle.h41_keys.specs.Keyboard.{row_of};
ghost use Rattle.h41_keys.specs.PromptKeys as spec;
ghost use Rattle.h41_keys.specs.Prompts.{stack_register};

use crate::key::{Digit, Key};
use crate::letters::{with_letter, without_last};
use crate::meaning::{Meaning, letter, plain, shifted_letter};
use crate::prompt::{NAME_MOST, Prompt, PromptFunction, Typed};
use crate::prompt_step::PromptStep;
use h41_codes::{Function, Text};

/// Returns the effect of a key on an open prompt, depending on what is typed of the parameter and on whether SHIFT was
/// pressed. Returns `None` if the key is refused.
pub(crate) fn prompt_step(prompt: Prompt, shift: bool, key: Key) -> Option<PromptStep>
    ensures { result ≡ spec.prompt_step prompt prompt.typed shift key }
{
    let held = prompt;
    match &held.typed {
        Typed::Nothing => with_nothing(prompt, plain(key)),
        Typed::Digit(digit) => with_digit_typed(prompt, *digit, plain(key)),
        Typed::Stack => with_stack_typed(prompt, key),
        Typed::Point => with_point_typed(prompt, plain(key)),
        Typed::Name(name) => with_name_typed(prompt, name.characters(), shift, key),
    }
}

/// Returns the step that keeps the prompt open with a given part of the parameter typed.
fn goes_on(prompt: Prompt, typed: Typed) -> Option<PromptStep>
    ensures { result ≡ spec.goes_on prompt typed }
{
    Some(PromptStep::Becomes(Prompt { typed, ..prompt }))
}

/// Returns the step that ends the prompt with the program line of its function and a parameter, 0 to 127.
fn ends_with(prompt: Prompt, parameter: u8) -> Option<PromptStep>
    requires { parameter < parameter_count }
    ensures { result ≡ spec.ends_with prompt parameter }
{
    Some(PromptStep::Types(prompt.function.parameter_line(prompt.indirect, parameter)))
}

/// Returns the step that keeps the prompt open and adds IND if the parameter is direct, or removes IND if it is
/// indirect.
fn turns_indirect(prompt: Prompt) -> Option<PromptStep>
    ensures { result ≡ spec.turns_indirect prompt }
{
    Some(PromptStep::Becomes(Prompt {
        indirect: !prompt.indirect,
        ..prompt
    }))
}

/// Returns the effect of a key on a prompt of which nothing is typed yet: a digit, `.`, `+ - * /` after STO, SHIFT
/// (IND), ALPHA (a name) or BACK. Returns `None` if the function does not accept the key.
fn with_nothing(prompt: Prompt, meaning: Meaning) -> Option<PromptStep>
    ensures { result ≡ spec.with_nothing prompt meaning }
{
    match meaning {
        Meaning::Digit(digit) => first_digit(prompt, digit),
        Meaning::Point => first_point(prompt),
        Meaning::Function(function) => combined(prompt, combining(function)),
        Meaning::Shift => {
            if prompt.function.row().indirect {
                turns_indirect(prompt)
            } else {
                None
            }
        }
        Meaning::Alpha => {
            if prompt.function.row().named && !prompt.indirect {
                goes_on(prompt, Typed::Name(no_name()))
            } else {
                None
            }
        }
        Meaning::Back => Some(PromptStep::Cancels),
        _ => None,
    }
}

/// Returns a name without characters, for a prompt whose name is about to be typed.
fn no_name() -> Text<NAME_MOST>
    ensures { result ≡ [] }
{
    match Text::new(&[]) {
        Some(name) => name,
        None => unreachable!(),
    }
}

/// Returns the effect of the first digit on a prompt: the parameter is complete if it has one digit; otherwise a second
/// digit is expected.
fn first_digit(prompt: Prompt, digit: Digit) -> Option<PromptStep>
    ensures { result ≡ spec.first_digit prompt digit }
{
    if prompt.digits() == 1 {
        ends_with(prompt, digit.value())
    } else {
        goes_on(prompt, Typed::Digit(digit))
    }
}

/// Returns the effect of the decimal point as the first key of a prompt: a stack register is expected, or the second
/// point of `GTO . .`. Returns `None` if the function takes neither.
fn first_point(prompt: Prompt) -> Option<PromptStep>
    ensures { result ≡ spec.first_point prompt }
{
    if prompt.indirect || prompt.function.row().registers {
        goes_on(prompt, Typed::Stack)
    } else if matches!(prompt.function, PromptFunction::GoTo) {
        goes_on(prompt, Typed::Point)
    } else {
        None
    }
}

/// Returns the function ST+, ST-, ST* or ST/ that the key `+`, `-`, `*` or `/` selects after STO, or `None` for any
/// other function.
fn combining(function: Function) -> Option<PromptFunction>
    ensures { result ≡ spec.combined_function function }
{
    match function {
        Function::Add => Some(PromptFunction::StoreAdd),
        Function::Subtract => Some(PromptFunction::StoreSubtract),
        Function::Multiply => Some(PromptFunction::StoreMultiply),
        Function::Divide => Some(PromptFunction::StoreDivide),
        _ => None,
    }
}

/// Returns the effect of `+`, `-`, `*` or `/` on a prompt of STO without IND: the prompt becomes one of ST+, ST-, ST*
/// or ST/. Returns `None` for other prompts and functions.
fn combined(prompt: Prompt, sign: Option<PromptFunction>) -> Option<PromptStep>
    ensures { result ≡ spec.step_combined prompt sign }
{
    match sign {
        Some(function) => {
            if matches!(prompt.function, PromptFunction::Store) && !prompt.indirect {
                Some(PromptStep::Becomes(Prompt { function, ..prompt }))
            } else {
                None
            }
        }
        None => None,
    }
}

/// Returns the effect of a key on a prompt of which the first of two digits is typed: the second digit completes the
/// parameter, SHIFT turns IND on or off if the function allows it, and BACK deletes the digit. Returns `None` for any
/// other key.
fn with_digit_typed(prompt: Prompt, first: Digit, meaning: Meaning) -> Option<PromptStep>
    ensures { result ≡ spec.with_digit_typed prompt first meaning }
{
    match meaning {
        Meaning::Digit(digit) => ends_with(prompt, 10 * first.value() + digit.value()),
        Meaning::Shift => {
            if prompt.function.row().indirect && prompt.function.row().digits == 2 {
                turns_indirect(prompt)
            } else {
                None
            }
        }
        Meaning::Back => goes_on(prompt, Typed::Nothing),
        _ => None,
    }
}

/// Returns the effect of a key on a prompt after the decimal point: a letter T, Z, Y, X or L names a stack register,
/// SHIFT turns IND on or off if the function works on registers, and BACK deletes the point. Returns `None` for any
/// other key.
fn with_stack_typed(prompt: Prompt, key: Key) -> Option<PromptStep>
    ensures { result ≡ spec.with_stack_typed prompt (row_of key).plain (row_of key).letter }
{
    match plain(key) {
        Meaning::Shift => {
            if prompt.function.row().registers {
                turns_indirect(prompt)
            } else {
                None
            }
        }
        Meaning::Back => goes_on(prompt, Typed::Nothing),
        _ => lettered(prompt, letter(key)),
    }
}

/// Returns the effect of a letter on a prompt after the decimal point: the parameter is complete if the letter names a
/// stack register. Returns `None` for other letters.
fn lettered(prompt: Prompt, meaning: Meaning) -> Option<PromptStep>
    ensures { result ≡ spec.step_by_letter prompt meaning }
{
    match meaning {
        Meaning::Letter(letter) => match stack_parameter(letter) {
            Some(parameter) => ends_with(prompt, parameter),
            None => None,
        },
        _ => None,
    }
}

/// Returns the parameter, 112 to 116, that means the stack register T, Z, Y, X or L, or `None` for any other letter.
fn stack_parameter(letter: u8) -> Option<u8>
    ensures value { result ≡ stack_register letter }
    ensures bound { IfSome result (λ parameter. parameter < parameter_count) }
{
    match letter {
        b'T' => Some(112),
        b'Z' => Some(113),
        b'Y' => Some(114),
        b'X' => Some(115),
        b'L' => Some(116),
        _ => None,
    }
}

/// Returns the effect of a key on the prompt `GTO .`: another point goes to the end of program memory, and BACK deletes
/// the point. Returns `None` for any other key.
fn with_point_typed(prompt: Prompt, meaning: Meaning) -> Option<PromptStep>
    ensures { result ≡ spec.with_point_typed prompt meaning }
{
    match meaning {
        Meaning::Point => Some(PromptStep::GoesToEnd),
        Meaning::Back => goes_on(prompt, Typed::Nothing),
        _ => None,
    }
}

/// Returns the effect of a key on a prompt of which a name is being typed: ALPHA ends the name, BACK deletes its last
/// letter, and letters are added to it. Returns `None` for any other key.
fn with_name_typed(prompt: Prompt, name: &[u8], shift: bool, key: Key) -> Option<PromptStep>
    requires { length name.now ≤ NAME_MOST }
    ensures { result ≡ spec.in_name prompt name.now shift (row_of key) }
{
    match (plain(key), shift) {
        (Meaning::Alpha, _) => name_ended(prompt, name),
        (Meaning::Back, false) => name_shortened(prompt, name),
        (_, false) => name_letter(prompt, name, letter(key)),
        (_, true) => name_letter(prompt, name, shifted_letter(key)),
    }
}

/// Returns the effect of a letter key on a prompt of which a name is being typed. Returns `None` if the key types no
/// letter, or if the name already has seven characters.
fn name_letter(prompt: Prompt, name: &[u8], meaning: Meaning) -> Option<PromptStep>
    ensures { result ≡ spec.name_letter prompt name.now meaning }
{
    match meaning {
        Meaning::Letter(letter) => match with_letter(name, letter) {
            Some(longer) => goes_on(prompt, Typed::Name(longer)),
            None => None,
        },
        _ => None,
    }
}

/// Returns the effect of ALPHA on a prompt of which a name is being typed: the program line with the name is typed.
/// Returns `None` if the name is empty, or if the function takes no name.
fn name_ended(prompt: Prompt, name: &[u8]) -> Option<PromptStep>
    requires { length name.now ≤ NAME_MOST }
    ensures { result ≡ spec.name_ended prompt name.now }
{
    if !name.is_empty() && prompt.function.row().named {
        Some(PromptStep::Types(prompt.function.name_line(name)))
    } else {
        None
    }
}

/// Returns the effect of BACK on a prompt of which a name is being typed: the last letter is deleted, or the prompt is
/// cancelled if the name is empty.
fn name_shortened(prompt: Prompt, name: &[u8]) -> Option<PromptStep>
    requires { length name.now ≤ NAME_MOST }
    ensures { result ≡ spec.name_shortened prompt name.now }
{
    if name.is_empty() {
        Some(PromptStep::Cancels)
    } else {
        goes_on(prompt, Typed::Name(without_last(name)))
    }
}
