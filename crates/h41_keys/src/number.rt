//! Numbers that are typed character by character.
ghost use Rattle.std.specs.Prelude.{◌≡◌, ◌+◌, ◌≤◌, ◌++◌, ◌∷◌, length, filter, IsTrue};
ghost use Rattle.std.specs.List.{list_any};
ghost use Rattle.h41_codes.specs.Counts.{number_most};
ghost use Rattle.h41_codes.specs.NumberCharacters.{is_point};
ghost use Rattle.h41_codes.specs.declared.characters.Character.TheVariants as characters;
ghost use Rattle.h41_keys.specs.KeyPress as press;
ghost use Rattle.h41_keys.specs.NumberTyping as spec;

use crate::action::Action;
use crate::input::{Input, Pressed, TypedEntry};
use crate::key::Digit;
use crate::typing::{does, ended, typing};
use h41_codes::{Character, Line, NUMBER_MOST, Number, exponent_place};

/// Returns the action and the new keyboard state for a digit key. The digit is appended to the number that is being
/// typed, or begins one. Nothing is appended if the mantissa has ten digits or the exponent two.
pub(crate) fn digit_typed(input: Input, digit: Digit) -> Pressed
    ensures { result ≡ press.number_typed input (λ text. spec.with_digit text digit) }
{
    let held = input;
    let text = characters(&held.entry);
    if has_room(text) {
        grown(input, text, &[digit.character()])
    } else {
        becomes(input, text, text)
    }
}

/// Returns the action and the new keyboard state for the decimal point key. The point is appended to the number that is
/// being typed, or begins one. Nothing changes if the number has a point or an exponent.
pub(crate) fn point_typed(input: Input) -> Pressed
    ensures { result ≡ press.number_typed input spec.with_point }
{
    let held = input;
    let text = characters(&held.entry);
    if has_point(text) || exponent_place(text) < text.len() {
        becomes(input, text, text)
    } else {
        grown(input, text, &[Character::Point])
    }
}

/// Returns the action and the new keyboard state for EEX. `E` is appended to the number that is being typed; if it has
/// no digit, `1E`. Nothing changes if it has an exponent already.
pub(crate) fn exponent_typed(input: Input) -> Pressed
    ensures { result ≡ press.number_typed input spec.with_exponent }
{
    let held = input;
    let text = characters(&held.entry);
    if exponent_place(text) < text.len() {
        becomes(input, text, text)
    } else if count_of_digits(text) == 0 {
        grown(input, text, &[Character::One, Character::Exponent])
    } else {
        grown(input, text, &[Character::Exponent])
    }
}

/// Returns the action and the new keyboard state for CHS while a number is being typed: the sign of the exponent
/// changes, or that of the mantissa if there is no exponent.
pub(crate) fn sign_turned(input: Input) -> Pressed
    ensures { result ≡ press.number_typed input spec.with_sign_turned }
{
    let held = input;
    let text = characters(&held.entry);
    let end = exponent_place(text);
    if end < text.len() {
        let part = &text[end + 1..];
        if begins_with_minus(part) {
            spliced(
                input,
                text,
                &text[..end],
                &[Character::Exponent],
                &part[1..],
            )
        } else {
            spliced(
                input,
                text,
                &text[..end],
                &[Character::Exponent, Character::Minus],
                part,
            )
        }
    } else if begins_with_minus(text) {
        becomes(input, text, &text[1..])
    } else {
        spliced(input, text, &[], &[Character::Minus], text)
    }
}

/// Returns the action and the new keyboard state for BACK while a number is being typed: its last character is deleted,
/// which ends the number if it was its only one.
pub(crate) fn shortened(input: Input, number: &Number) -> Pressed
    ensures { result ≡ press.number_becomes input number.now (spec.without_last number.now) }
{
    let text = number.characters();
    becomes(input, text, &text[..text.len() - 1])
}

/// Returns the characters of the number that is being typed, or an empty slice if no number is being typed.
fn characters(entry: &TypedEntry) -> &[Character]
    ensures text { result.now ≡ press.number_in entry.now }
    ensures bound { length result.now ≤ number_most }
{
    match entry {
        TypedEntry::Number(number) => number.characters(),
        _ => &[],
    }
}

/// Returns the action and the new keyboard state for appending characters to a number. The number does not change if it
/// would have more than 16 characters.
fn grown(input: Input, text: &[Character], more: &[Character]) -> Pressed
    requires text { length text.now ≤ number_most }
    requires more { length more.now ≤ number_most }
    ensures { result ≡ press.press_of_number input text.now (text.now ++ more.now) }
{
    spliced(input, text, text, more, &[])
}

/// Returns the action and the new keyboard state for replacing the number that is being typed by three parts, one after
/// the other. The number does not change if they have more than 16 characters together.
fn spliced(
    input: Input,
    text: &[Character],
    front: &[Character],
    more: &[Character],
    rest: &[Character],
) -> Pressed
    requires text { length text.now ≤ number_most }
    requires front { length front.now ≤ number_most }
    requires more { length more.now ≤ number_most }
    requires rest { length rest.now ≤ number_most }
    ensures { result ≡ press.press_of_number input text.now (front.now ++ more.now ++ rest.now) }
{
    let middle = front.len() + more.len();
    let count = middle + rest.len();
    if count > NUMBER_MOST {
        return becomes(input, text, text);
    }
    let mut cells = [Character::Zero; NUMBER_MOST];
    cells[..front.len()].copy_from_slice(front);
    cells[front.len()..middle].copy_from_slice(more);
    cells[middle..count].copy_from_slice(rest);
    becomes(input, text, &cells[..count])
}

/// Returns the action and the new keyboard state for the characters of a number before and after a key: the number
/// begins, changes, ends (if `after` is empty), or remains as it is.
fn becomes(input: Input, before: &[Character], after: &[Character]) -> Pressed
    requires { length after.now ≤ number_most }
    ensures { result ≡ press.number_becomes input before.now after.now }
{
    match Number::new(after) {
        None => number_ended(input),
        Some(number) => {
            if before.is_empty() {
                number_begun(input, number)
            } else if after.len() == before.len() {
                does(Action::Nothing, typing(input, input.entry))
            } else {
                number_changed(input, number)
            }
        }
    }
}

/// Returns the action and the new keyboard state for the first character of a number. In program mode a number line is
/// inserted; otherwise the number is entered into X.
fn number_begun(input: Input, number: Number) -> Pressed
    ensures { result ≡ press.number_begun input input.program_mode number }
{
    let action = if input.program_mode {
        Action::Insert(Line::Number(number))
    } else {
        Action::BeginNumber(number)
    };
    does(action, typing(input, TypedEntry::Number(number)))
}

/// Returns the action and the new keyboard state for another change of a number that is being typed. In program mode
/// its number line is replaced; otherwise the number in X is.
fn number_changed(input: Input, number: Number) -> Pressed
    ensures { result ≡ press.number_changed input input.program_mode number }
{
    let action = if input.program_mode {
        Action::Replace(Line::Number(number))
    } else {
        Action::ChangeNumber(number)
    };
    does(action, typing(input, TypedEntry::Number(number)))
}

/// Returns the action and the new keyboard state for deleting the only character of a number. In program mode its line
/// is deleted; otherwise X becomes zero.
fn number_ended(input: Input) -> Pressed
    ensures { result ≡ press.number_ended input input.program_mode }
{
    if input.program_mode {
        does(Action::Delete, ended(input))
    } else {
        does(Action::EndNumber, ended(input))
    }
}

/// Returns whether one more digit may be typed to a number: if it has an exponent, whether this has fewer than two
/// digits; otherwise, whether the number has fewer than ten.
fn has_room(text: &[Character]) -> bool
    ensures { result ≡ spec.has_room text.now }
{
    let end = exponent_place(text);
    if end < text.len() {
        count_of_digits(&text[end + 1..]) < 2
    } else {
        count_of_digits(text) < 10
    }
}

/// Returns how many of a number entry's characters are digits; `.`, `E` and `-` are not.
fn count_of_digits(text: &[Character]) -> usize
    ensures { result ≡ spec.count_of_digits text.now }
{
    let mut count: usize = 0;
    for character in text {
        if is_digit(*character) {
            count += 1;
        }
    }
    count
}

/// Returns whether a number entry has a decimal point.
fn has_point(text: &[Character]) -> bool
    ensures { result ≡ list_any is_point text.now }
{
    for character in text {
        if character.is_point() {
            return true;
        }
    }
    false
}

/// Returns whether the mantissa or the exponent of a number entry begins with `-`.
fn begins_with_minus(part: &[Character]) -> bool
    ensures value { result ≡ spec.begins_with_minus part.now }
    ensures some { IsTrue result → 1 ≤ length part.now }
{
    !part.is_empty() && part[0].is_minus()
}

/// Returns whether a character of a number entry is a digit, not `.`, `E` or `-`.
fn is_digit(character: Character) -> bool
    ensures { result ≡ spec.is_digit character }
{
    !matches!(
        character,
        Character::Point | Character::Exponent | Character::Minus
    )
}
