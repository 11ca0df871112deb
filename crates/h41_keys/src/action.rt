//! The actions that keys cause.
use h41_codes::{Line, Number};

/// The action that a key causes. In addition, every accepted key makes its code readable, sets the key flag and turns the display
/// on, and if nothing runs it removes a message.
#[derive(Clone, Copy, Debug, PartialEq, Eq)]
pub enum Action {
    /// The calculator does nothing more than for every accepted key: the key only changes the state of the keyboard, or
    /// has no effect.
    Nothing,
    /// The running program stops (R/S).
    Stop,
    /// The program runs from the current line (R/S).
    Run,
    /// `SST`: the next program line is executed, or in program mode the line after the shown one is shown.
    Step,
    /// `BST`: the program line before the shown one is shown.
    StepBack,
    /// A program line was typed outside program mode. It is executed.
    CarryOut(Line),
    /// In program mode, a program line was typed or begun. It is inserted after the shown line; before it if that is an
    /// END; and as the first line if line 00 is shown.
    Insert(Line),
    /// In program mode, more of the shown number or text was typed, or part of it was deleted. The shown program line
    /// is replaced by the given one.
    Replace(Line),
    /// In program mode, the shown program line is deleted. Line 00 and `.END.` are never deleted.
    Delete,
    /// The first character of a number was typed outside program mode. The number is entered into X, and flag 22 is
    /// set.
    BeginNumber(Number),
    /// The number that is being typed changed. The number in X is replaced by the given one.
    ChangeNumber(Number),
    /// The only character of the number that is being typed was deleted outside program mode, by BACK or by CHS on a
    /// sign alone. X becomes zero, and stack lift is disabled.
    EndNumber,
    /// Flag 48 is toggled: ALPHA mode begins or ends.
    ToggleAlpha,
    /// ALPHA is cleared, and the given letter, a byte, is its first. Flag 23 is set.
    BeginText(u8),
    /// The given letter, a byte, is appended to ALPHA. Flag 23 is set.
    AddLetter(u8),
    /// The last character of ALPHA is deleted, if it has one.
    TakeLetter,
    /// ALPHA is cleared.
    ClearAlpha,
    /// `GTO . .`: the position moves to the end of program memory, and a new program begins there.
    GoToEnd,
}

/// KeyNotHeld (18): the bench does not support this key in this state of the keyboard, or the key would change lines in program
/// mode while a line of a page is shown.
#[derive(Clone, Copy, Debug, PartialEq, Eq, thiserror::Error)]
#[error("the key has no meaning here")]
pub struct KeyNotHeld;
