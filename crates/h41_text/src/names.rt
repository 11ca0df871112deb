//! The names of functions, as listings and prompts show them. Each name is written once. Those of functions with and without a parameter
//! are in two lists, from which macros generate look-ups and tables.
ghost use Rattle.std.specs.Prelude.{◌≡◌, ◌+◌, ◌-◌, ◌<◌, ◌≤◌, length, slice_index_or, []};
ghost use Rattle.h41_text.specs.LineText.{high_parameters};
ghost use Rattle.h41_text.specs.Names as spec;
ghost use Rattle.h41_text.specs.private.Places.{IsPlaced};
ghost use Rattle.h41_text.specs.private.TextParts as part;

use crate::places::{FUNCTION_PLACES, name_hash};
use h41_codes::{Branch, Character, Function, NameFunction, ParameterFunction, RegisterFunction};

/// Lists the functions without a parameter, with their names. `$write` is the macro that generates an array from the
/// list, and `$with` are its arguments.
macro_rules! functions {
    ($write:ident $with:tt) => {
        $write! { $with Function
            Add => "+",
            Subtract => "-",
            Multiply => "*",
            Divide => "/",
            TestXLessThanY => "X<Y?",
            TestXGreaterThanY => "X>Y?",
            TestXAtMostY => "X<=Y?",
            AddStatistics => "S+",
            SubtractStatistics => "S-",
            AddHours => "HMS+",
            SubtractHours => "HMS-",
            Modulo => "MOD",
            Percent => "%",
            PercentChange => "%CH",
            PolarToRectangular => "P-R",
            RectangularToPolar => "R-P",
            NaturalLogarithm => "LN",
            Square => "X^2",
            SquareRoot => "SQRT",
            Power => "Y^X",
            ChangeSign => "CHS",
            Exponential => "E^X",
            CommonLogarithm => "LOG",
            PowerOfTen => "10^X",
            ExponentialLessOne => "E^X-1",
            Sine => "SIN",
            Cosine => "COS",
            Tangent => "TAN",
            ArcSine => "ASIN",
            ArcCosine => "ACOS",
            ArcTangent => "ATAN",
            OctalToDecimal => "DEC",
            Reciprocal => "1/X",
            AbsoluteValue => "ABS",
            Factorial => "FACT",
            TestXNotZero => "X#0?",
            TestXPositive => "X>0?",
            LogarithmOfOneMore => "LN1+X",
            TestXNegative => "X<0?",
            TestXZero => "X=0?",
            IntegerPart => "INT",
            FractionPart => "FRC",
            DegreesToRadians => "D-R",
            RadiansToDegrees => "R-D",
            DecimalToHours => "HMS",
            HoursToDecimal => "HR",
            Round => "RND",
            DecimalToOctal => "OCT",
            ClearStatistics => "CLS",
            ExchangeXY => "X<>Y",
            Pi => "PI",
            ClearStack => "CLST",
            RollUp => "R^",
            RollDown => "RDN",
            LastX => "LASTX",
            ClearX => "CLX",
            TestXEqualsY => "X=Y?",
            TestXDiffersFromY => "X#Y?",
            Signum => "SIGN",
            TestXAtMostZero => "X<=0?",
            Mean => "MEAN",
            StandardDeviation => "SDEV",
            ViewAlpha => "AVIEW",
            ClearDisplay => "CLD",
            Degrees => "DEG",
            Radians => "RAD",
            Grads => "GRAD",
            Enter => "ENTER^",
            Stop => "STOP",
            Return => "RTN",
            Beep => "BEEP",
            ClearAlpha => "CLA",
            ShiftAlpha => "ASHF",
            Pause => "PSE",
            ClearRegisters => "CLRG",
            AlphaOff => "AOFF",
            AlphaOn => "AON",
            TurnOff => "OFF",
            Prompt => "PROMPT",
            Advance => "ADV",
        }
    };
}

/// Lists the functions with a parameter, with their names. `$write` is the macro that generates an array from the list,
/// and `$with` are its arguments.
macro_rules! parameter_functions {
    ($write:ident $with:tt) => {
        $write! { $with ParameterFunction
            Recall => "RCL",
            Store => "STO",
            StoreAdd => "ST+",
            StoreSubtract => "ST-",
            StoreMultiply => "ST*",
            StoreDivide => "ST/",
            IncrementSkip => "ISG",
            DecrementSkip => "DSE",
            View => "VIEW",
            StatisticsRegisters => "SREG",
            StoreAlpha => "ASTO",
            RecallAlpha => "ARCL",
            Fixed => "FIX",
            Scientific => "SCI",
            Engineering => "ENG",
            Tone => "TONE",
            SetFlag => "SF",
            ClearFlag => "CF",
            TestSetAndClear => "FS?C",
            TestClearAndClear => "FC?C",
            TestSet => "FS?",
            TestClear => "FC?",
            Exchange => "X<>",
            Label => "LBL",
        }
    };
}

pub(crate) use parameter_functions;

/// Generates the array of the names, as strings, from a list of functions.
macro_rules! all_texts {
    (() $kind:ident $($name:ident => $text:literal,)*) => {
        [$($text,)*]
    };
}

/// Generates the array of the functions, as variants of their enum, from a list of functions.
macro_rules! all_names {
    (() $kind:ident $($name:ident => $text:literal,)*) => {
        [$($kind::$name,)*]
    };
}

/// All functions without a parameter, in the order of `functions!`.
static FUNCTIONS: [Function; 80] = functions!(all_names());

/// The names of the functions without a parameter, in the order of `FUNCTIONS`.
static FUNCTION_NAMES: [&str; 80] = functions!(all_texts());

/// The names of the functions with a parameter, in the order of `ParameterFunction`.
static PARAMETER_FUNCTION_NAMES: [&str; 24] = parameter_functions!(all_texts());

/// Returns the function without a parameter that has this name, for example `SIN`, or `None` if there is none.
pub(crate) fn function_named(name: &[u8]) -> Option<Function>
    ensures { result ≡ part.function_of name.now }
{
    function_among(&FUNCTIONS, &FUNCTION_PLACES, name)
}

/// Returns the function in `functions` that has this name, or `None` if there is none. `places` contains, at the index
/// of a name's hash, the index of the function in `functions`.
fn function_among(functions: &[Function], places: &[u8], name: &[u8]) -> Option<Function>
    requires { IsPlaced spec.function_name functions.now places.now }
    ensures { result ≡ part.with_text spec.function_name functions.now name.now }
{
    let function = functions[usize::from(places[usize::from(name_hash(name))])];
    if function_name(function).as_bytes() == name {
        Some(function)
    } else {
        None
    }
}

/// Returns the name of a function without a parameter, at most 6 characters, for example `SIN`.
pub(crate) fn function_name(function: Function) -> &'static str
    ensures text { result.now ≡ spec.function_name function }
    ensures bound { length result.now ≤ 6 }
{
    FUNCTION_NAMES[function as usize]
}

/// Returns the name of a function with a parameter, at most 4 characters, for example `STO`.
pub fn parameter_function_name(function: ParameterFunction) -> &'static str
    ensures text { result.now ≡ spec.parameter_function_name function }
    ensures bound { length result.now ≤ 4 }
{
    PARAMETER_FUNCTION_NAMES[function as usize]
}

/// Returns the name of a function that a one-byte line applies to one of the registers 00 to 15: `RCL` or `STO`.
pub(crate) fn register_function_name(function: RegisterFunction) -> &'static str
    ensures text { result.now ≡ spec.register_function_name function }
    ensures bound { length result.now ≤ 6 }
{
    match function {
        RegisterFunction::RecallRegister => parameter_function_name(ParameterFunction::Recall),
        RegisterFunction::StoreRegister => parameter_function_name(ParameterFunction::Store),
    }
}

/// Returns the name of a function whose operand is a name in quotes: `GTO`, `XEQ` or `W`.
pub(crate) fn name_function_name(function: NameFunction) -> &'static str
    ensures text { result.now ≡ spec.name_function_name function }
    ensures bound { length result.now ≤ 3 }
{
    match function {
        NameFunction::GoToName => branch_name(Branch::GoTo),
        NameFunction::ExecuteName => branch_name(Branch::Execute),
        NameFunction::Wordless => "W",
    }
}

/// Returns the name of a branch: `GTO` or `XEQ`.
pub fn branch_name(branch: Branch) -> &'static str
    ensures text { result.now ≡ spec.branch_name branch }
    ensures bound { length result.now ≤ 3 }
{
    match branch {
        Branch::GoTo => "GTO",
        Branch::Execute => "XEQ",
    }
}

/// The ASCII characters of which a number line can consist, in the order of `Character`.
static CHARACTER_BYTES: [u8; 13] = *b"0123456789.E-";

/// Returns the ASCII character of a character of a number line: a decimal digit, `.`, `E` or `-`.
pub(crate) fn character_byte(character: Character) -> u8
    ensures text { result ≡ spec.character_byte character }
    ensures bound { result < 128 }
{
    CHARACTER_BYTES[character as usize]
}

/// Returns the character of a number line that an ASCII character is, or `None` if it is not a decimal digit, `.`, `E`
/// or `-`.
pub(crate) fn character_of(byte: u8) -> Option<Character>
    ensures { result ≡ part.character_of byte }
{
    Some(match byte {
        b'0' => Character::Zero,
        b'1' => Character::One,
        b'2' => Character::Two,
        b'3' => Character::Three,
        b'4' => Character::Four,
        b'5' => Character::Five,
        b'6' => Character::Six,
        b'7' => Character::Seven,
        b'8' => Character::Eight,
        b'9' => Character::Nine,
        b'.' => Character::Point,
        b'E' => Character::Exponent,
        b'-' => Character::Minus,
        _ => return None,
    })
}

/// Returns the text of a parameter from 100 to 127, at most 6 characters, for example `X` for 115.
pub(crate) fn high_parameter(number: u8) -> &'static str
    requires low { 100 ≤ number }
    requires high { number < 128 }
    ensures text { result.now ≡ slice_index_or high_parameters (number - 100) [] }
    ensures bound { length result.now ≤ 6 }
{
    match number {
        100 => "100",
        101 => "101",
        102 => "A",
        103 => "B",
        104 => "C",
        105 => "D",
        106 => "E",
        107 => "F",
        108 => "G",
        109 => "H",
        110 => "I",
        111 => "J",
        112 => "T",
        113 => "Z",
        114 => "Y",
        115 => "X",
        116 => "L",
        117 => "M",
        118 => "N",
        119 => "O",
        120 => "P",
        121 => "Q",
        122 => "append",
        123 => "a",
        124 => "b",
        125 => "c",
        126 => "d",
        _ => "e",
    }
}
