//! The state of the keyboard between keys.
use crate::action::Action;
use crate::prompt::Prompt;
use h41_codes::{Number, Text};

/// A number or a text that is being typed.
#[derive(Clone, Copy, Debug, PartialEq, Eq)]
pub enum TypedEntry {
    /// Neither a number nor a text is being typed.
    Nothing,
    /// A number is being typed. The value has its characters so far.
    Number(Number),
    /// SHIFT XEQ was pressed in ALPHA mode: letters that follow are appended to ALPHA. No letter has been typed yet.
    Append,
    /// Letters are being typed into ALPHA, outside program mode.
    Letters,
    /// In program mode, a text line is being typed. The value has its characters so far; if the line appends to ALPHA,
    /// they begin with 7F (hexadecimal).
    TextLine(Text<15>),
}

/// The state of the keyboard between two keys: SHIFT, program mode, and what is being typed.
#[derive(Clone, Copy, Debug, PartialEq, Eq)]
pub struct Input {
    /// Whether `SHIFT` was pressed for the next key.
    pub shift: bool,
    /// Whether the keyboard is in program mode, in which lines are stored instead of being executed.
    pub program_mode: bool,
    /// The number or text that is being typed.
    pub entry: TypedEntry,
    /// The function that waits for its parameter, if a prompt is open.
    pub prompt: Option<Prompt>,
}

/// What the calculator is doing.
#[derive(Clone, Copy, Debug, PartialEq, Eq)]
pub enum Activity {
    /// The calculator waits for keys.
    Idle,
    /// The calculator runs a program.
    Run,
    /// The calculator runs a function in microcode.
    Micro,
}

/// Whether the shown program line is in program memory or in a page of a module. This determines what keys can do in
/// program mode.
#[derive(Clone, Copy, Debug, PartialEq, Eq)]
pub enum Place {
    /// The shown program line is in program memory. Keys insert, replace and delete lines.
    Memory,
    /// The shown program line is in a page. Keys that would insert, replace or delete lines are refused.
    Page {
        /// Whether BACK would not delete a line even in program memory, because the shown line is line 00 or `.END.`.
        deletes_nothing: bool,
        /// Whether `GTO . .` would insert an END into program memory, in which case it is refused.
        puts_end: bool,
    },
}

/// What determines the meaning of a key besides the state of the keyboard: ALPHA mode, a message, and the shown line.
#[derive(Clone, Copy, Debug, PartialEq, Eq)]
pub struct Flags {
    /// Flag 48: ALPHA mode, in which keys type letters.
    pub alpha: bool,
    /// Whether the display shows a message.
    pub message: bool,
    /// Where the shown program line is. It is used in program mode only.
    pub place: Place,
}

/// The result of an accepted key: the calculator's action and the new state of the keyboard.
#[derive(Clone, Copy, Debug, PartialEq, Eq)]
pub struct Pressed {
    /// The action that the calculator has to perform because of the key.
    pub action: Action,
    /// The state of the keyboard after the key.
    pub input: Input,
}

impl Input {
    ghost use Rattle.std.specs.Prelude.{◌≡◌};
    ghost use Rattle.h41_keys.specs.KeyPress.{start};

    /// Returns the initial state of the keyboard: SHIFT and program mode are off, no number or text is being typed, and
    /// no prompt is open.
    pub fn new() -> Self
        ensures { result ≡ start }
    {
        Input {
            shift: false,
            program_mode: false,
            entry: TypedEntry::Nothing,
            prompt: None,
        }
    }
}
