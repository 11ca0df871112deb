//! The effect of a key in each state of the keyboard.
ghost use Rattle.std.specs.Prelude.{◌≡◌, None, IfOk, OnErr};
ghost use Rattle.h41_keys.specs.Keyboard.{row_of};
ghost use Rattle.h41_keys.specs.KeyPress as spec;
ghost use Rattle.h41_keys.specs.StoredLines.{StoresLine};

use crate::action::{Action, KeyNotHeld};
use crate::input::{Activity, Flags, Input, Place, Pressed, TypedEntry};
use crate::key::Key;
use crate::meaning::{Meaning, meaning_of, plain};
use crate::number::{digit_typed, exponent_typed, point_typed, shortened, sign_turned};
use crate::prompt::{Prompt, PromptFunction, Typed};
use crate::prompt_keys::prompt_step;
use crate::prompt_step::PromptStep;
use crate::text::{append_pressed, letter_taken, letter_typed};
use crate::typing::{does, ended, function_typed, line_typed, typing, without_number};
use h41_codes::{Function, Number};

/// Presses a key and returns the action that the calculator has to perform. Returns KeyNotHeld (18) if the bench does not support
/// the key in this state, or if in program mode it would insert, replace or delete a line, or insert an END, while a line of a page
/// is shown. A refused key must change nothing: here `input` does not change, and a caller whose calculator refuses the action
/// later has to restore the input from before.
pub fn press(
    input: &mut Input,
    key: Key,
    mode: Activity,
    flags: Flags,
) -> Result<Action, KeyNotHeld>
    ensures accepted { IfOk result (λ done. spec.Accepts input.old key mode flags done input.new) }
    ensures refused { OnErr result (spec.presses input.old key mode flags ≡ None) }
    ensures unchanged { OnErr result (input.new ≡ input.old) }
    ensures stored { IfOk result (λ action. StoresLine action) }
{
    match pressed(*input, key, mode, flags) {
        Some(pressed) => {
            *input = pressed.input;
            Ok(pressed.action)
        }
        None => Err(KeyNotHeld),
    }
}

/// Returns the action and the new keyboard state for a key, or `None` if the key is refused as KeyNotHeld (18).
fn pressed(input: Input, key: Key, mode: Activity, flags: Flags) -> Option<Pressed>
    ensures { result ≡ spec.presses input key mode flags }
{
    match mode {
        Activity::Idle => {
            let (place, program_mode) = (flags.place, input.program_mode);
            held_at(place, program_mode, idle(input, key, flags))
        }
        Activity::Run => while_running(input, plain(key)),
        Activity::Micro => while_in_microcode(input, plain(key)),
    }
}

/// Returns the action and the new keyboard state for a key while a program runs: R/S stops the program, and other keys
/// cause no action. Returns `None` if the key has no meaning.
fn while_running(input: Input, meaning: Meaning) -> Option<Pressed>
    ensures { result ≡ spec.while_running input meaning }
{
    match meaning {
        Meaning::Nothing => None,
        Meaning::RunStop => Some(does(Action::Stop, input)),
        _ => Some(does(Action::Nothing, input)),
    }
}

/// Returns the action and the new keyboard state for a key while a function in microcode runs: no key causes an action.
/// Returns `None` if the key has no meaning.
fn while_in_microcode(input: Input, meaning: Meaning) -> Option<Pressed>
    ensures { result ≡ spec.while_in_microcode input meaning }
{
    match meaning {
        Meaning::Nothing => None,
        _ => Some(does(Action::Nothing, input)),
    }
}

/// Returns the given result of a key while nothing runs, or `None` if the key is refused: in program mode, while a line
/// of a page is shown, because it would change lines.
fn held_at(place: Place, program_mode: bool, pressed: Option<Pressed>) -> Option<Pressed>
    ensures { result ≡ spec.held_at place program_mode pressed }
{
    match (place, pressed) {
        (
            Place::Page {
                deletes_nothing,
                puts_end,
            },
            Some(pressed),
        ) if program_mode => if is_held(deletes_nothing, puts_end, pressed.action) {
            Some(pressed)
        } else {
            None
        },
        _ => pressed,
    }
}

/// Returns whether an action is supported in program mode while a line of a page is shown. Inserting and replacing
/// lines is not; deleting a line is only if nothing would be deleted; `GTO . .` only if no END would be inserted.
fn is_held(deletes_nothing: bool, puts_end: bool, action: Action) -> bool
    ensures { result ≡ spec.is_held deletes_nothing puts_end action }
{
    match action {
        Action::Insert(_) | Action::Replace(_) => false,
        Action::Delete => deletes_nothing,
        Action::GoToEnd => !puts_end,
        _ => true,
    }
}

/// Returns the action and the new keyboard state for a key while nothing runs and the shown line is in program memory.
/// BACK without SHIFT, while a message is shown, only removes the message. Returns `None` if the key is refused.
fn idle(input: Input, key: Key, flags: Flags) -> Option<Pressed>
    ensures { result ≡ spec.press_in_idle input key flags }
{
    if flags.message && !input.shift && matches!(key, Key::Back) {
        return Some(does(Action::Nothing, input));
    }
    let held = input;
    match held.prompt {
        Some(prompt) => in_prompt(input, prompt, key),
        None => acts(input, meaning_of(key, flags.alpha, input.shift)),
    }
}

/// Returns the action and the new keyboard state for a key while a prompt is open. Returns `None` if the prompt does
/// not accept the key. While a name is typed, SHIFT acts on the next letter.
fn in_prompt(input: Input, prompt: Prompt, key: Key) -> Option<Pressed>
    ensures { result ≡ spec.in_prompt input prompt key }
{
    if matches!(prompt.typed, Typed::Name(_)) && matches!(plain(key), Meaning::Shift) {
        acts(input, Meaning::Shift)
    } else {
        stepped(input, prompt_step(prompt, input.shift, key))
    }
}

/// Returns the action and the new keyboard state for an effect of a key on a prompt, or `None` if there is none.
fn stepped(input: Input, step: Option<PromptStep>) -> Option<Pressed>
    ensures { result ≡ spec.press_of_step input step }
{
    match step {
        Some(PromptStep::Becomes(prompt)) => Some(does(
            Action::Nothing,
            Input {
                shift: false,
                prompt: Some(prompt),
                ..input
            },
        )),
        Some(PromptStep::Cancels) => Some(does(Action::Nothing, prompt_ended(input))),
        Some(PromptStep::Types(line)) => Some(line_typed(prompt_ended(input), line)),
        Some(PromptStep::GoesToEnd) => Some(does(Action::GoToEnd, ended(prompt_ended(input)))),
        None => None,
    }
}

/// Returns a keyboard state in which SHIFT is off and no prompt is open.
fn prompt_ended(input: Input) -> Input
    ensures { result ≡ spec.prompt_ended input }
{
    Input {
        shift: false,
        prompt: None,
        ..input
    }
}

/// Returns the action and the new keyboard state for a key with a given meaning while no prompt is open. Returns `None`
/// if the key has no meaning.
fn acts(input: Input, meaning: Meaning) -> Option<Pressed>
    ensures { result ≡ spec.acts input meaning }
{
    Some(match meaning {
        Meaning::Nothing => return None,
        Meaning::Shift => does(Action::Nothing, shifted(input)),
        Meaning::Alpha => does(Action::ToggleAlpha, ended(input)),
        Meaning::Program => does(Action::Nothing, program_mode_turned(input)),
        Meaning::Step => does(Action::Step, ended(input)),
        Meaning::StepBack => does(Action::StepBack, ended(input)),
        Meaning::RunStop => run_pressed(input),
        Meaning::Back => back_pressed(input),
        Meaning::LetterBack => letter_taken(input),
        Meaning::Digit(digit) => digit_typed(input, digit),
        Meaning::Point => point_typed(input),
        Meaning::Exponent => exponent_typed(input),
        Meaning::Sign => sign_pressed(input),
        Meaning::Function(function) => function_typed(input, function),
        Meaning::Ask(function) => does(Action::Nothing, asking(input, function)),
        Meaning::Letter(letter) => letter_typed(input, letter),
        Meaning::Append => append_pressed(input),
    })
}

/// Returns the keyboard state after SHIFT: shift is on if it was off, and off if it was on.
fn shifted(input: Input) -> Input
    ensures { result ≡ spec.with_shift_turned input }
{
    Input {
        shift: !input.shift,
        ..input
    }
}

/// Returns the keyboard state after PRGM: program mode is toggled, SHIFT is off, and no number or text is being typed.
fn program_mode_turned(input: Input) -> Input
    ensures { result ≡ spec.program_mode_turned input }
{
    Input {
        program_mode: !input.program_mode,
        ..ended(input)
    }
}

/// Returns the keyboard state after a function asked for its parameter: a prompt of the function is open, of which
/// nothing is typed. SHIFT is off, and a number that was being typed ends.
fn asking(input: Input, function: PromptFunction) -> Input
    ensures { result ≡ spec.with_prompt input function }
{
    Input {
        prompt: Some(Prompt {
            function,
            indirect: false,
            typed: Typed::Nothing,
        }),
        ..typing(input, without_number(input.entry))
    }
}

/// Returns the action and the new keyboard state for R/S while nothing runs: STOP is inserted in program mode, and
/// otherwise the program runs.
fn run_pressed(input: Input) -> Pressed
    ensures { result ≡ spec.run_pressed input input.program_mode }
{
    if input.program_mode {
        function_typed(input, Function::Stop)
    } else {
        does(Action::Run, ended(input))
    }
}

/// Returns the action and the new keyboard state for CHS: the sign of a number that is being typed changes; otherwise
/// the function CHS is typed.
fn sign_pressed(input: Input) -> Pressed
    ensures { result ≡ spec.sign_pressed input input.entry }
{
    match input.entry {
        TypedEntry::Number(_) => sign_turned(input),
        _ => function_typed(input, Function::ChangeSign),
    }
}

/// Returns the action and the new keyboard state for BACK outside ALPHA mode: the last character of a number that is
/// being typed is deleted; otherwise the shown line (in program mode) is, or X is cleared.
fn back_pressed(input: Input) -> Pressed
    ensures { result ≡ spec.back_pressed input input.entry }
{
    let held = input;
    match &held.entry {
        TypedEntry::Number(number) => shortened(input, number),
        _ => clearing(input),
    }
}

/// Returns the action and the new keyboard state for BACK outside ALPHA mode while no number is being typed: in program
/// mode the shown line is deleted, and otherwise X is cleared (CLX).
fn clearing(input: Input) -> Pressed
    ensures { result ≡ spec.press_of_clear input input.program_mode }
{
    if input.program_mode {
        does(Action::Delete, ended(input))
    } else {
        function_typed(input, Function::ClearX)
    }
}
