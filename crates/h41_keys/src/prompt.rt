//! Prompts: functions that wait for their parameter.
ghost use Rattle.std.specs.Prelude.{◌≡◌, ◌≤◌, ◌+◌, ◌++◌, length};
ghost use Rattle.arrayvec.specs.ArrayVec.{array_vec_len};
ghost use Rattle.h41_keys.specs.Prompts as spec;

use crate::key::Digit;
use arrayvec::ArrayVec;
use h41_codes::{
    Branch, Distance, Line, Link, NameFunction, Operand, Parameter, ParameterFunction, Text, canon,
};
use h41_text::{branch_name, parameter_function_name};

/// The greatest number of characters of a name that is typed into a prompt: 7.
pub const NAME_MOST: usize = 7;

/// The parameter that means the local label A: 102. The labels B to J follow it.
const FIRST_LETTER: u8 = 102;

/// The greatest number of characters of the text that the display shows for a prompt, as in `ASTO IND "ABCDEFG_`: 18.
pub const PROMPT_CAPACITY: usize = 18;

/// A function that asks for its parameter before its program line is typed.
#[derive(Clone, Copy, Debug, PartialEq, Eq)]
pub enum PromptFunction {
    /// `XEQ`: calls the program line with a label.
    Execute,
    /// `STO`: stores X in a register.
    Store,
    /// `ST+`: adds X to a register.
    StoreAdd,
    /// `ST-`: subtracts X from a register.
    StoreSubtract,
    /// `ST*`: multiplies a register by X.
    StoreMultiply,
    /// `ST/`: divides a register by X.
    StoreDivide,
    /// `RCL`: recalls the content of a register to X.
    Recall,
    /// `LBL`: a label, at which GTO and XEQ can continue.
    Label,
    /// `GTO`: continues at a label.
    GoTo,
    /// `ISG`: increments a counter in a register, and skips the next line if the counter exceeds its final value.
    IncrementSkip,
    /// `SF`: sets a flag.
    SetFlag,
    /// `CF`: clears a flag.
    ClearFlag,
    /// `FS?`: tests whether a flag is set.
    TestSet,
    /// `VIEW`: shows the content of a register.
    View,
    /// `ASTO`: stores characters of ALPHA in a register.
    StoreAlpha,
    /// `ARCL`: appends the content of a register to ALPHA.
    RecallAlpha,
    /// `FIX`: selects the fixed format of the display.
    Fixed,
    /// `SCI`: selects the scientific format of the display.
    Scientific,
    /// `ENG`: selects the engineering format of the display.
    Engineering,
}

/// The kind of program line that a prompt produces.
#[derive(Clone, Copy)]
pub(crate) enum PromptLines {
    /// Program lines of a function with a parameter, such as `STO 05`.
    Parameter(ParameterFunction),
    /// Program lines that continue at a label or call it (GTO and XEQ).
    Branching(Branch),
}

/// The row of the table of prompts for a function: which parameters it accepts.
#[derive(Clone, Copy)]
pub(crate) struct PromptRow {
    /// The kind of program line that the prompt produces. It also gives the function's name.
    pub(crate) lines: PromptLines,
    /// The number of digits of a direct parameter, 1 or 2. An indirect parameter always has two.
    pub(crate) digits: u8,
    /// Whether the parameter may be indirect (IND), so that SHIFT turns IND on or off.
    pub(crate) indirect: bool,
    /// Whether the parameter is a register, so that the stack registers can be named without IND.
    pub(crate) registers: bool,
    /// Whether the parameter may be a name, which ALPHA begins.
    pub(crate) named: bool,
}

/// The part of a parameter that is typed into a prompt so far.
#[derive(Clone, Copy, Debug, PartialEq, Eq)]
pub enum Typed {
    /// No part of the parameter is typed yet.
    Nothing,
    /// The first digit of a parameter of two digits.
    Digit(Digit),
    /// The decimal point of a stack register such as `ST X`, before the letter.
    Stack,
    /// The point of `GTO .`. Another point goes to the end of program memory.
    Point,
    /// A name, with at most seven characters, that is being typed.
    Name(Text<NAME_MOST>),
}

/// A function that waits for its parameter, and the part of the parameter that is typed.
#[derive(Clone, Copy, Debug, PartialEq, Eq)]
pub struct Prompt {
    /// The function that waits for its parameter.
    pub function: PromptFunction,
    /// Whether the parameter is indirect (IND): the function takes its parameter from the given register.
    pub indirect: bool,
    /// The part of the parameter that is typed so far.
    pub typed: Typed,
}

impl PromptFunction {
    ghost use Rattle.std.specs.Prelude.{◌≡◌, ◌<◌, ◌≤◌, length};
    ghost use Rattle.h41_codes.specs.Counts.{parameter_count};
    ghost use Rattle.h41_keys.specs.Prompts.{name_line, parameter_line, prompt_name, prompt_row};

    /// Returns the row of the table of prompts for the function: which parameters it accepts, and the kind of line.
    pub(crate) fn row(self) -> PromptRow
        ensures { result ≡ prompt_row self }
    {
        match self {
            PromptFunction::Execute => PromptRow::branching(Branch::Execute),
            PromptFunction::GoTo => PromptRow::branching(Branch::GoTo),
            PromptFunction::Label => PromptRow {
                lines: PromptLines::Parameter(ParameterFunction::Label),
                digits: 2,
                indirect: false,
                registers: false,
                named: true,
            },
            PromptFunction::Store => PromptRow::register(ParameterFunction::Store),
            PromptFunction::StoreAdd => PromptRow::register(ParameterFunction::StoreAdd),
            PromptFunction::StoreSubtract => PromptRow::register(ParameterFunction::StoreSubtract),
            PromptFunction::StoreMultiply => PromptRow::register(ParameterFunction::StoreMultiply),
            PromptFunction::StoreDivide => PromptRow::register(ParameterFunction::StoreDivide),
            PromptFunction::Recall => PromptRow::register(ParameterFunction::Recall),
            PromptFunction::IncrementSkip => PromptRow::register(ParameterFunction::IncrementSkip),
            PromptFunction::View => PromptRow::register(ParameterFunction::View),
            PromptFunction::StoreAlpha => PromptRow::register(ParameterFunction::StoreAlpha),
            PromptFunction::RecallAlpha => PromptRow::register(ParameterFunction::RecallAlpha),
            PromptFunction::SetFlag => PromptRow::flag(ParameterFunction::SetFlag),
            PromptFunction::ClearFlag => PromptRow::flag(ParameterFunction::ClearFlag),
            PromptFunction::TestSet => PromptRow::flag(ParameterFunction::TestSet),
            PromptFunction::Fixed => PromptRow::format(ParameterFunction::Fixed),
            PromptFunction::Scientific => PromptRow::format(ParameterFunction::Scientific),
            PromptFunction::Engineering => PromptRow::format(ParameterFunction::Engineering),
        }
    }

    /// Returns the name of the function, such as `STO`, as the display shows it: at most four characters.
    pub fn name(self) -> &'static str
        ensures text { result.now ≡ prompt_name self }
        ensures bound { length result.now ≤ 4 }
    {
        self.row().lines.name()
    }

    /// Returns the program line of the function with a parameter, 0 to 127, direct or indirect (IND), in its shortest
    /// spelling.
    pub(crate) fn parameter_line(self, indirect: bool, parameter: u8) -> Line
        requires { parameter < parameter_count }
        ensures { result ≡ parameter_line self indirect parameter }
    {
        self.row()
            .lines
            .with_parameter(indirect, Parameter::new(parameter))
    }

    /// Returns the program line of the function with a name of at most seven characters. A name of one letter A to J
    /// means a local label.
    pub(crate) fn name_line(self, name: &[u8]) -> Line
        requires { length name.now ≤ NAME_MOST }
        ensures { result ≡ name_line self name.now }
    {
        match name {
            [letter] => {
                if is_local_letter(*letter) {
                    self.parameter_line(false, FIRST_LETTER + (*letter - b'A'))
                } else {
                    self.row().lines.with_name(name)
                }
            }
            _ => self.row().lines.with_name(name),
        }
    }
}

impl PromptRow {
    ghost use Rattle.std.specs.Prelude.{◌≡◌};
    ghost use Rattle.h41_keys.specs.Prompts as spec;

    /// Returns the row of the table of prompts for a function whose parameter is a register.
    fn register(function: ParameterFunction) -> Self
        ensures { result ≡ spec.register function }
    {
        PromptRow {
            lines: PromptLines::Parameter(function),
            digits: 2,
            indirect: true,
            registers: true,
            named: false,
        }
    }

    /// Returns the row of the table of prompts for a function whose parameter is a flag.
    fn flag(function: ParameterFunction) -> Self
        ensures { result ≡ spec.flag function }
    {
        PromptRow {
            lines: PromptLines::Parameter(function),
            digits: 2,
            indirect: true,
            registers: false,
            named: false,
        }
    }

    /// Returns the row of the table of prompts for a function whose parameter is a number of display digits, 0 to 9.
    fn format(function: ParameterFunction) -> Self
        ensures { result ≡ spec.format function }
    {
        PromptRow {
            lines: PromptLines::Parameter(function),
            digits: 1,
            indirect: true,
            registers: false,
            named: false,
        }
    }

    /// Returns the row of the table of prompts for GTO or XEQ, whose parameter is a label or a name.
    fn branching(branch: Branch) -> Self
        ensures { result ≡ spec.branch_row branch }
    {
        PromptRow {
            lines: PromptLines::Branching(branch),
            digits: 2,
            indirect: true,
            registers: false,
            named: true,
        }
    }
}

impl PromptLines {
    ghost use Rattle.std.specs.Prelude.{◌≡◌, ◌≤◌, length};
    ghost use Rattle.h41_keys.specs.Prompts.{line_naming, line_with, lines_name};

    /// Returns the name of the function, such as `STO`, with which the program lines begin: at most four characters.
    fn name(self) -> &'static str
        ensures text { result.now ≡ lines_name self }
        ensures bound { length result.now ≤ 4 }
    {
        match self {
            PromptLines::Parameter(function) => parameter_function_name(function),
            PromptLines::Branching(branch) => branch_name(branch),
        }
    }

    /// Returns the program line with a given parameter, direct or indirect (IND), in its shortest spelling.
    fn with_parameter(self, indirect: bool, parameter: Parameter) -> Line
        ensures { result ≡ line_with self indirect parameter }
    {
        match (self, indirect) {
            (PromptLines::Parameter(function), false) => {
                canon(Line::WithOperand(function, Operand::Direct(parameter)))
            }
            (PromptLines::Parameter(function), true) => {
                canon(Line::WithOperand(function, Operand::Indirect(parameter)))
            }
            (PromptLines::Branching(branch), false) => {
                canon(Line::BranchTo(branch, Distance::new(0), false, parameter))
            }
            (PromptLines::Branching(branch), true) => Line::BranchIndirect(branch, parameter),
        }
    }

    /// Returns the program line with a given name, of at most seven characters, that is not the letter of a local
    /// label. Among the functions with a parameter, only LBL takes a name.
    fn with_name(self, name: &[u8]) -> Line
        requires { length name.now ≤ NAME_MOST }
        ensures { result ≡ line_naming self name.now }
    {
        match self {
            PromptLines::Parameter(_) => Line::GlobalLabel(Link::new(0), 0, text(name)),
            PromptLines::Branching(Branch::GoTo) => {
                Line::Named(NameFunction::GoToName, text(name))
            }
            PromptLines::Branching(Branch::Execute) => {
                Line::Named(NameFunction::ExecuteName, text(name))
            }
        }
    }
}

/// Returns the text that consists of given characters, of which there are at most `MOST`.
fn text<const MOST: usize>(characters: &[u8]) -> Text<MOST>
    requires { length characters.now ≤ MOST }
    ensures { result ≡ characters.now }
{
    match Text::new(characters) {
        Some(text) => text,
        None => unreachable!(),
    }
}

/// Returns whether a character is one of the letters A to J, which are also names of local labels.
fn is_local_letter(letter: u8) -> bool
    ensures { result ≡ spec.is_local_letter letter }
{
    b'A' <= letter && letter <= b'J'
}

impl Prompt {
    ghost use Rattle.std.specs.Prelude.{◌≡◌};
    ghost use Rattle.std.specs.Prelude.{codes};
    ghost use Rattle.h41_keys.specs.Prompts.{prompt_text, digits_wanted, typed_text};

    /// Returns the number of digits that the parameter of the prompt has, 1 or 2. An indirect parameter has two.
    pub(crate) fn digits(&self) -> u8
        ensures { result ≡ digits_wanted self.now.function self.now.indirect }
    {
        if self.indirect {
            2
        } else {
            self.function.row().digits
        }
    }

    /// Returns the text that the display shows for the prompt, for example `STO IND 1_`. It ends in `_`.
    pub fn text(&self) -> ArrayVec<u8, PROMPT_CAPACITY>
        ensures { result.items ≡ prompt_text self.now }
    {
        let mut text = ArrayVec::new();
        push(&mut text, self.function.name().as_bytes());
        if self.indirect {
            push(&mut text, b" IND");
        }
        let (before, typed) = self.typed_parts();
        push(&mut text, before.as_bytes());
        push(&mut text, typed);
        push(&mut text, b"_");
        text
    }

    /// Returns two parts of the text that the display shows for the prompt: the one before the typed part of the
    /// parameter, and the typed part. `_` follows them.
    fn typed_parts(&self) -> (&str, &[u8])
        ensures parts { typed_text self.now.function self.now.indirect self.now.typed
            ≡ result.0.now ++ result.1.now ++ codes "_" }
        ensures bound { length result.0.now + length result.1.now ≤ 9 }
    {
        match &self.typed {
            Typed::Nothing if self.digits() == 1 => (" ", b""),
            Typed::Nothing => (" _", b""),
            Typed::Digit(digit) => (" ", digit.text().as_bytes()),
            Typed::Stack => (" ST ", b""),
            Typed::Point => (" .", b""),
            Typed::Name(name) => (" \"", name.characters()),
        }
    }
}

/// Appends bytes to a text that has room for them.
fn push(text: &mut ArrayVec<u8, PROMPT_CAPACITY>, more: &[u8])
    requires { array_vec_len text.old + length more.now ≤ PROMPT_CAPACITY }
    ensures items { text.new.items ≡ text.old.items ++ more.now }
    ensures count { array_vec_len text.new ≡ array_vec_len text.old + length more.now }
{
    for byte in more {
        text.push(*byte);
    }
}
