//! Texts for ALPHA that are typed letter by letter.
ghost use Rattle.std.specs.Prelude.{◌≡◌, ◌≤◌, length, true};
ghost use Rattle.h41_codes.specs.Counts.{text_most};
ghost use Rattle.h41_keys.specs.KeyPress as press;
ghost use Rattle.h41_keys.specs.NumberTyping as typed;

use crate::action::Action;
use crate::input::{Input, Pressed, TypedEntry};
use crate::letters::{with_letter, without_last};
use crate::typing::{does, ended, typing};
use h41_codes::{Line, Text};

/// The append sign: a text line that begins with it appends its other characters to ALPHA.
const APPEND: u8 = 0x7F;

/// Returns the action and the new keyboard state for a letter key in ALPHA mode. Outside program mode, the letter is
/// appended to ALPHA, or is the first of a new text; in program mode, it is added to a text line.
pub(crate) fn letter_typed(input: Input, letter: u8) -> Pressed
    ensures { result ≡ press.letter_typed input input.program_mode input.entry letter }
{
    if input.program_mode {
        letter_of_line(input, letter)
    } else {
        let action = match input.entry {
            TypedEntry::Append | TypedEntry::Letters => Action::AddLetter(letter),
            _ => Action::BeginText(letter),
        };
        does(action, typing(input, TypedEntry::Letters))
    }
}

/// Returns the action and the new keyboard state for a letter key in program mode. The letter begins a text line, or is
/// added to the text line that is being typed, if it has fewer than 15 characters.
fn letter_of_line(input: Input, letter: u8) -> Pressed
    ensures { result ≡ press.letter_typed input true input.entry letter }
{
    let held = input;
    match &held.entry {
        TypedEntry::Append => line_begun(input, &[APPEND, letter]),
        TypedEntry::TextLine(text) => match with_letter(text.characters(), letter) {
            Some(longer) => line_changed(input, longer),
            None => does(Action::Nothing, typing(input, input.entry)),
        },
        _ => line_begun(input, &[letter]),
    }
}

/// Returns the action and the new keyboard state for beginning a text line with the given letters, in program mode: the
/// line is inserted.
fn line_begun(input: Input, letters: &[u8]) -> Pressed
    requires { length letters.now ≤ text_most }
    ensures { result ≡ press.text_line input press.inserts letters.now }
{
    match Text::new(letters) {
        Some(text) => does(
            Action::Insert(Line::Text(text)),
            typing(input, TypedEntry::TextLine(text)),
        ),
        None => unreachable!(),
    }
}

/// Returns the action and the new keyboard state for changing the text of the text line that is being typed, in program
/// mode: the line is replaced.
fn line_changed(input: Input, text: Text<15>) -> Pressed
    ensures { result ≡ press.changed_line input text }
{
    does(
        Action::Replace(Line::Text(text)),
        typing(input, TypedEntry::TextLine(text)),
    )
}

/// Returns the action and the new keyboard state for BACK in ALPHA mode. Outside program mode, the last letter is
/// deleted if letters are being typed; otherwise ALPHA is cleared. In program mode, the last letter of the text line,
/// or the line, is deleted.
pub(crate) fn letter_taken(input: Input) -> Pressed
    ensures { result ≡ press.letter_taken input input.program_mode input.entry }
{
    if input.program_mode {
        letter_taken_of_line(input)
    } else if matches!(input.entry, TypedEntry::Letters) {
        does(Action::TakeLetter, typing(input, TypedEntry::Letters))
    } else {
        does(Action::ClearAlpha, ended(input))
    }
}

/// Returns the action and the new keyboard state for BACK in ALPHA mode and program mode. The last letter is deleted if
/// a text line is being typed; otherwise the shown line is.
fn letter_taken_of_line(input: Input) -> Pressed
    ensures { result ≡ press.letter_taken input true input.entry }
{
    let held = input;
    match &held.entry {
        TypedEntry::TextLine(text) => shortened(input, text.characters()),
        _ => does(Action::Delete, ended(input)),
    }
}

/// Returns the action and the new keyboard state for deleting the last letter of a text line. If no letter remains
/// other than the append sign 7F (hexadecimal), the line is deleted.
fn shortened(input: Input, text: &[u8]) -> Pressed
    requires { length text.now ≤ text_most }
    ensures { result ≡ press.text_shortened input (typed.without_last text.now) }
{
    let shorter: Text<15> = without_last(text);
    if has_letter(shorter.characters()) {
        line_changed(input, shorter)
    } else {
        does(Action::Delete, ended(input))
    }
}

/// Returns whether a text line has a character other than the append sign 7F (hexadecimal), which can only be its
/// first.
fn has_letter(text: &[u8]) -> bool
    ensures { result ≡ press.has_letter text.now }
{
    match text {
        [] => false,
        [first] => *first != APPEND,
        _ => true,
    }
}

/// Returns the action and the new keyboard state for SHIFT XEQ in ALPHA mode: letters that follow are appended to
/// ALPHA. If letters are already being typed outside program mode, only SHIFT goes off.
pub(crate) fn append_pressed(input: Input) -> Pressed
    ensures { result ≡ press.append_pressed input input.program_mode input.entry }
{
    if !input.program_mode && matches!(input.entry, TypedEntry::Letters) {
        does(Action::Nothing, typing(input, TypedEntry::Letters))
    } else {
        does(Action::Nothing, typing(input, TypedEntry::Append))
    }
}
