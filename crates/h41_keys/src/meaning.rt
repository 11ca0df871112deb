//! The meanings of keys. They depend on SHIFT and ALPHA mode, not on what is being typed.
ghost use Rattle.std.specs.Prelude.{◌≡◌};
ghost use Rattle.h41_keys.specs.Keyboard as spec;

use crate::key::{Digit, Key};
use crate::prompt::PromptFunction;
use h41_codes::Function;

/// What a key means, depending on SHIFT and ALPHA mode.
#[derive(Clone, Copy, Debug, PartialEq, Eq)]
pub enum Meaning {
    /// The key has no meaning and is refused.
    Nothing,
    /// `SHIFT`: the next key has its shifted meaning.
    Shift,
    /// `ALPHA`: ALPHA mode begins or ends.
    Alpha,
    /// `PRGM`: program mode begins or ends.
    Program,
    /// `SST`: the next program line is executed, or in program mode shown.
    Step,
    /// `BST`: the program line before the shown one is shown.
    StepBack,
    /// `R/S`: the program runs, or stops.
    RunStop,
    /// `BACK`: the last typed character is deleted.
    Back,
    /// `BACK` in ALPHA mode: the last letter is deleted.
    LetterBack,
    /// A decimal digit of a number that is being typed.
    Digit(Digit),
    /// The decimal point of a number that is being typed.
    Point,
    /// `EEX`: the exponent of a number that is being typed begins.
    Exponent,
    /// `CHS`: the sign of the number that is being typed changes, or else that of X.
    Sign,
    /// A function without a parameter, such as SIN.
    Function(Function),
    /// A function that asks for its parameter, such as STO.
    Ask(PromptFunction),
    /// A letter or other character that is typed in ALPHA mode, given as its byte.
    Letter(u8),
    /// `SHIFT XEQ` in ALPHA mode: letters that follow are appended to ALPHA.
    Append,
}

/// Returns what a key does. `letters` is whether ALPHA mode is on, `shift` whether SHIFT was pressed directly before the
/// key.
pub(crate) fn meaning_of(key: Key, letters: bool, shift: bool) -> Meaning
    ensures { result ≡ spec.meaning_of key letters shift }
{
    match (letters, shift) {
        (false, false) => plain(key),
        (false, true) => shifted(key),
        (true, false) => letter(key),
        (true, true) => shifted_letter(key),
    }
}

/// Returns the meaning of a key outside ALPHA mode, without SHIFT.
pub(crate) fn plain(key: Key) -> Meaning
    ensures { result ≡ (spec.row_of key).plain }
{
    match key {
        Key::Program => Meaning::Program,
        Key::Alpha => Meaning::Alpha,
        Key::SigmaPlus => Meaning::Function(Function::AddStatistics),
        Key::Reciprocal => Meaning::Function(Function::Reciprocal),
        Key::SquareRoot => Meaning::Function(Function::SquareRoot),
        Key::CommonLogarithm => Meaning::Function(Function::CommonLogarithm),
        Key::NaturalLogarithm => Meaning::Function(Function::NaturalLogarithm),
        Key::ExchangeXY => Meaning::Function(Function::ExchangeXY),
        Key::RollDown => Meaning::Function(Function::RollDown),
        Key::Sine => Meaning::Function(Function::Sine),
        Key::Cosine => Meaning::Function(Function::Cosine),
        Key::Tangent => Meaning::Function(Function::Tangent),
        Key::Shift => Meaning::Shift,
        Key::Execute => Meaning::Ask(PromptFunction::Execute),
        Key::Store => Meaning::Ask(PromptFunction::Store),
        Key::Recall => Meaning::Ask(PromptFunction::Recall),
        Key::SingleStep => Meaning::Step,
        Key::Enter => Meaning::Function(Function::Enter),
        Key::ChangeSign => Meaning::Sign,
        Key::EnterExponent => Meaning::Exponent,
        Key::Back => Meaning::Back,
        Key::Minus => Meaning::Function(Function::Subtract),
        Key::Seven => Meaning::Digit(Digit::Seven),
        Key::Eight => Meaning::Digit(Digit::Eight),
        Key::Nine => Meaning::Digit(Digit::Nine),
        Key::Plus => Meaning::Function(Function::Add),
        Key::Four => Meaning::Digit(Digit::Four),
        Key::Five => Meaning::Digit(Digit::Five),
        Key::Six => Meaning::Digit(Digit::Six),
        Key::Times => Meaning::Function(Function::Multiply),
        Key::One => Meaning::Digit(Digit::One),
        Key::Two => Meaning::Digit(Digit::Two),
        Key::Three => Meaning::Digit(Digit::Three),
        Key::Divide => Meaning::Function(Function::Divide),
        Key::Zero => Meaning::Digit(Digit::Zero),
        Key::Point => Meaning::Point,
        Key::RunStop => Meaning::RunStop,
        _ => Meaning::Nothing,
    }
}

/// Returns the meaning of a key outside ALPHA mode, after SHIFT.
fn shifted(key: Key) -> Meaning
    ensures { result ≡ (spec.row_of key).shifted }
{
    match key {
        Key::Program => Meaning::Program,
        Key::Alpha => Meaning::Alpha,
        Key::SigmaPlus => Meaning::Function(Function::SubtractStatistics),
        Key::Reciprocal => Meaning::Function(Function::Power),
        Key::SquareRoot => Meaning::Function(Function::Square),
        Key::CommonLogarithm => Meaning::Function(Function::PowerOfTen),
        Key::NaturalLogarithm => Meaning::Function(Function::Exponential),
        Key::ExchangeXY => Meaning::Function(Function::ClearStatistics),
        Key::RollDown => Meaning::Function(Function::Percent),
        Key::Sine => Meaning::Function(Function::ArcSine),
        Key::Cosine => Meaning::Function(Function::ArcCosine),
        Key::Tangent => Meaning::Function(Function::ArcTangent),
        Key::Shift => Meaning::Shift,
        Key::Store => Meaning::Ask(PromptFunction::Label),
        Key::Recall => Meaning::Ask(PromptFunction::GoTo),
        Key::SingleStep => Meaning::StepBack,
        Key::ChangeSign => Meaning::Ask(PromptFunction::IncrementSkip),
        Key::EnterExponent => Meaning::Function(Function::Return),
        Key::Back => Meaning::Function(Function::ClearX),
        Key::Minus => Meaning::Function(Function::TestXEqualsY),
        Key::Seven => Meaning::Ask(PromptFunction::SetFlag),
        Key::Eight => Meaning::Ask(PromptFunction::ClearFlag),
        Key::Nine => Meaning::Ask(PromptFunction::TestSet),
        Key::Plus => Meaning::Function(Function::TestXAtMostY),
        Key::Four => Meaning::Function(Function::Beep),
        Key::Five => Meaning::Function(Function::PolarToRectangular),
        Key::Six => Meaning::Function(Function::RectangularToPolar),
        Key::Times => Meaning::Function(Function::TestXGreaterThanY),
        Key::One => Meaning::Ask(PromptFunction::Fixed),
        Key::Two => Meaning::Ask(PromptFunction::Scientific),
        Key::Three => Meaning::Ask(PromptFunction::Engineering),
        Key::Divide => Meaning::Function(Function::TestXZero),
        Key::Zero => Meaning::Function(Function::Pi),
        Key::Point => Meaning::Function(Function::LastX),
        Key::RunStop => Meaning::Ask(PromptFunction::View),
        _ => Meaning::Nothing,
    }
}

/// Returns the meaning of a key in ALPHA mode, without SHIFT.
pub(crate) fn letter(key: Key) -> Meaning
    ensures { result ≡ (spec.row_of key).letter }
{
    match key {
        Key::Program => Meaning::Program,
        Key::Alpha => Meaning::Alpha,
        Key::SigmaPlus => Meaning::Letter(b'A'),
        Key::Reciprocal => Meaning::Letter(b'B'),
        Key::SquareRoot => Meaning::Letter(b'C'),
        Key::CommonLogarithm => Meaning::Letter(b'D'),
        Key::NaturalLogarithm => Meaning::Letter(b'E'),
        Key::ExchangeXY => Meaning::Letter(b'F'),
        Key::RollDown => Meaning::Letter(b'G'),
        Key::Sine => Meaning::Letter(b'H'),
        Key::Cosine => Meaning::Letter(b'I'),
        Key::Tangent => Meaning::Letter(b'J'),
        Key::Shift => Meaning::Shift,
        Key::Execute => Meaning::Letter(b'K'),
        Key::Store => Meaning::Letter(b'L'),
        Key::Recall => Meaning::Letter(b'M'),
        Key::SingleStep => Meaning::Step,
        Key::Enter => Meaning::Letter(b'N'),
        Key::ChangeSign => Meaning::Letter(b'O'),
        Key::EnterExponent => Meaning::Letter(b'P'),
        Key::Back => Meaning::LetterBack,
        Key::Minus => Meaning::Letter(b'Q'),
        Key::Seven => Meaning::Letter(b'R'),
        Key::Eight => Meaning::Letter(b'S'),
        Key::Nine => Meaning::Letter(b'T'),
        Key::Plus => Meaning::Letter(b'U'),
        Key::Four => Meaning::Letter(b'V'),
        Key::Five => Meaning::Letter(b'W'),
        Key::Six => Meaning::Letter(b'X'),
        Key::Times => Meaning::Letter(b'Y'),
        Key::One => Meaning::Letter(b'Z'),
        Key::Two => Meaning::Letter(b'='),
        Key::Three => Meaning::Letter(b'?'),
        Key::Divide => Meaning::Letter(b':'),
        Key::Zero => Meaning::Letter(b' '),
        Key::Point => Meaning::Letter(b','),
        _ => Meaning::Nothing,
    }
}

/// Returns the meaning of a key in ALPHA mode, after SHIFT.
pub(crate) fn shifted_letter(key: Key) -> Meaning
    ensures { result ≡ (spec.row_of key).shifted_letter }
{
    match key {
        Key::Program => Meaning::Program,
        Key::Alpha => Meaning::Alpha,
        Key::Shift => Meaning::Shift,
        Key::Execute => Meaning::Append,
        Key::Store => Meaning::Ask(PromptFunction::StoreAlpha),
        Key::Recall => Meaning::Ask(PromptFunction::RecallAlpha),
        Key::SingleStep => Meaning::StepBack,
        Key::Back => Meaning::Function(Function::ClearAlpha),
        Key::Minus => Meaning::Letter(b'-'),
        Key::Seven => Meaning::Letter(b'7'),
        Key::Eight => Meaning::Letter(b'8'),
        Key::Nine => Meaning::Letter(b'9'),
        Key::Plus => Meaning::Letter(b'+'),
        Key::Four => Meaning::Letter(b'4'),
        Key::Five => Meaning::Letter(b'5'),
        Key::Six => Meaning::Letter(b'6'),
        Key::Times => Meaning::Letter(b'*'),
        Key::One => Meaning::Letter(b'1'),
        Key::Two => Meaning::Letter(b'2'),
        Key::Three => Meaning::Letter(b'3'),
        Key::Divide => Meaning::Letter(b'/'),
        Key::Zero => Meaning::Letter(b'0'),
        Key::Point => Meaning::Letter(b'.'),
        Key::RunStop => Meaning::Function(Function::ViewAlpha),
        _ => Meaning::Nothing,
    }
}
