//! The byte codes of functions and of the characters of numbers. Each code is written once, in a list from which macros
//! generate the translation in both directions.
ghost use Rattle.std.specs.Prelude.{◌≡◌, ◌<◌, ◌≤◌, ◌⊎◌};
ghost use Rattle.h41_codes.specs.Codes as spec;
ghost use Rattle.h41_codes.specs.Heads.{IsParameterCode};

use crate::characters::Character;
use crate::functions::{Branch, Function, NameFunction, ParameterFunction, RegisterFunction};

/// The functions whose program line is a single byte, each with its code, 40 to 8F (hexadecimal). A part of the list
/// has 16 functions. `$write` is the macro that generates one direction, and `$with` its arguments.
macro_rules! functions {
    ($write:ident $with:tt) => {
        $write! { $with Function
            from_40 {
                0x40 => Add,
                0x41 => Subtract,
                0x42 => Multiply,
                0x43 => Divide,
                0x44 => TestXLessThanY,
                0x45 => TestXGreaterThanY,
                0x46 => TestXAtMostY,
                0x47 => AddStatistics,
                0x48 => SubtractStatistics,
                0x49 => AddHours,
                0x4A => SubtractHours,
                0x4B => Modulo,
                0x4C => Percent,
                0x4D => PercentChange,
                0x4E => PolarToRectangular,
                0x4F => RectangularToPolar,
            }
            from_50 {
                0x50 => NaturalLogarithm,
                0x51 => Square,
                0x52 => SquareRoot,
                0x53 => Power,
                0x54 => ChangeSign,
                0x55 => Exponential,
                0x56 => CommonLogarithm,
                0x57 => PowerOfTen,
                0x58 => ExponentialLessOne,
                0x59 => Sine,
                0x5A => Cosine,
                0x5B => Tangent,
                0x5C => ArcSine,
                0x5D => ArcCosine,
                0x5E => ArcTangent,
                0x5F => OctalToDecimal,
            }
            from_60 {
                0x60 => Reciprocal,
                0x61 => AbsoluteValue,
                0x62 => Factorial,
                0x63 => TestXNotZero,
                0x64 => TestXPositive,
                0x65 => LogarithmOfOneMore,
                0x66 => TestXNegative,
                0x67 => TestXZero,
                0x68 => IntegerPart,
                0x69 => FractionPart,
                0x6A => DegreesToRadians,
                0x6B => RadiansToDegrees,
                0x6C => DecimalToHours,
                0x6D => HoursToDecimal,
                0x6E => Round,
                0x6F => DecimalToOctal,
            }
            from_70 {
                0x70 => ClearStatistics,
                0x71 => ExchangeXY,
                0x72 => Pi,
                0x73 => ClearStack,
                0x74 => RollUp,
                0x75 => RollDown,
                0x76 => LastX,
                0x77 => ClearX,
                0x78 => TestXEqualsY,
                0x79 => TestXDiffersFromY,
                0x7A => Signum,
                0x7B => TestXAtMostZero,
                0x7C => Mean,
                0x7D => StandardDeviation,
                0x7E => ViewAlpha,
                0x7F => ClearDisplay,
            }
            from_80 {
                0x80 => Degrees,
                0x81 => Radians,
                0x82 => Grads,
                0x83 => Enter,
                0x84 => Stop,
                0x85 => Return,
                0x86 => Beep,
                0x87 => ClearAlpha,
                0x88 => ShiftAlpha,
                0x89 => Pause,
                0x8A => ClearRegisters,
                0x8B => AlphaOff,
                0x8C => AlphaOn,
                0x8D => TurnOff,
                0x8E => Prompt,
                0x8F => Advance,
            }
        }
    };
}

/// The functions with a parameter, each with its code, which is the first byte of the program line.
macro_rules! parameter_functions {
    ($write:ident $with:tt) => {
        $write! { $with ParameterFunction
            all {
                0x90 => Recall,
                0x91 => Store,
                0x92 => StoreAdd,
                0x93 => StoreSubtract,
                0x94 => StoreMultiply,
                0x95 => StoreDivide,
                0x96 => IncrementSkip,
                0x97 => DecrementSkip,
                0x98 => View,
                0x99 => StatisticsRegisters,
                0x9A => StoreAlpha,
                0x9B => RecallAlpha,
                0x9C => Fixed,
                0x9D => Scientific,
                0x9E => Engineering,
                0x9F => Tone,
                0xA8 => SetFlag,
                0xA9 => ClearFlag,
                0xAA => TestSetAndClear,
                0xAB => TestClearAndClear,
                0xAC => TestSet,
                0xAD => TestClear,
                0xCE => Exchange,
                0xCF => Label,
            }
        }
    };
}

/// The characters of number entries, each with its code, 10 to 1C (hexadecimal).
macro_rules! characters {
    ($write:ident $with:tt) => {
        $write! { $with Character
            all {
                0x10 => Zero,
                0x11 => One,
                0x12 => Two,
                0x13 => Three,
                0x14 => Four,
                0x15 => Five,
                0x16 => Six,
                0x17 => Seven,
                0x18 => Eight,
                0x19 => Nine,
                0x1A => Point,
                0x1B => Exponent,
                0x1C => Minus,
            }
        }
    };
}

/// Generates the match from a code to its name, for one part of a list. The code must be in that part.
macro_rules! name_beside {
    ((all $value:expr) $kind:ident all $part:tt) => { match_code!($kind $part $value) };
    ((from_40 $value:expr) $kind:ident from_40 $part:tt $($more:tt)*) => { match_code!($kind $part $value) };
    ((from_50 $value:expr) $kind:ident from_50 $part:tt $($more:tt)*) => { match_code!($kind $part $value) };
    ((from_60 $value:expr) $kind:ident from_60 $part:tt $($more:tt)*) => { match_code!($kind $part $value) };
    ((from_70 $value:expr) $kind:ident from_70 $part:tt $($more:tt)*) => { match_code!($kind $part $value) };
    ((from_80 $value:expr) $kind:ident from_80 $part:tt $($more:tt)*) => { match_code!($kind $part $value) };
    ($with:tt $kind:ident $other:ident $part:tt $($more:tt)*) => { name_beside!($with $kind $($more)*) };
}

/// Generates the match from a code to its name for one part of a list. `name_beside` has selected this part.
macro_rules! match_code {
    ($kind:ident { $($code:literal => $name:ident,)* } $value:expr) => {
        match $value {
            $($code => $kind::$name,)*
            _ => unreachable!(),
        }
    };
}

/// Generates the match from each name of a list to its code.
macro_rules! code_beside {
    (($value:expr) $kind:ident $($part:ident { $($code:literal => $name:ident,)* })*) => {
        match $value {
            $($($kind::$name => $code,)*)*
        }
    };
}

/// Returns the one-byte function with a given code of HP's byte table, 40 to 8F (hexadecimal).
pub(crate) fn function(code: u8) -> Function
    requires low { 0x40 ≤ code }
    requires high { code < 0x90 }
    ensures { spec.function_code result ≡ code }
{
    match code {
        0x40..=0x4F => function_from_40(code),
        0x50..=0x5F => function_from_50(code),
        0x60..=0x6F => function_from_60(code),
        0x70..=0x7F => function_from_70(code),
        _ => function_from_80(code),
    }
}

/// Returns the one-byte function with a given code of HP's byte table, 40 to 4F (hexadecimal).
fn function_from_40(code: u8) -> Function
    requires low { 0x40 ≤ code }
    requires high { code ≤ 0x4F }
    ensures { spec.function_code result ≡ code }
{
    functions!(name_beside (from_40 code))
}

/// Returns the one-byte function with a given code of HP's byte table, 50 to 5F (hexadecimal).
fn function_from_50(code: u8) -> Function
    requires low { 0x50 ≤ code }
    requires high { code ≤ 0x5F }
    ensures { spec.function_code result ≡ code }
{
    functions!(name_beside (from_50 code))
}

/// Returns the one-byte function with a given code of HP's byte table, 60 to 6F (hexadecimal).
fn function_from_60(code: u8) -> Function
    requires low { 0x60 ≤ code }
    requires high { code ≤ 0x6F }
    ensures { spec.function_code result ≡ code }
{
    functions!(name_beside (from_60 code))
}

/// Returns the one-byte function with a given code of HP's byte table, 70 to 7F (hexadecimal).
fn function_from_70(code: u8) -> Function
    requires low { 0x70 ≤ code }
    requires high { code ≤ 0x7F }
    ensures { spec.function_code result ≡ code }
{
    functions!(name_beside (from_70 code))
}

/// Returns the one-byte function with a given code of HP's byte table, 80 to 8F (hexadecimal).
fn function_from_80(code: u8) -> Function
    requires low { 0x80 ≤ code }
    requires high { code ≤ 0x8F }
    ensures { spec.function_code result ≡ code }
{
    functions!(name_beside (from_80 code))
}

/// Returns the code of a one-byte function in HP's byte table, 40 to 8F (hexadecimal).
pub(crate) fn function_code(function: Function) -> u8
    ensures { result ≡ spec.function_code function }
{
    functions!(code_beside(function))
}

/// Returns the function with a parameter that has a given code: 90 to 9F, A8 to AD, CE or CF (hexadecimal).
#[inline(always)]
pub(crate) fn parameter_function(code: u8) -> ParameterFunction
    requires { IsParameterCode code }
    ensures { spec.parameter_function_code result ≡ code }
{
    parameter_functions!(name_beside (all code))
}

/// Returns the code of a function with a parameter, which is the first byte of its program line: 90 to 9F, A8 to AD, CE
/// or CF (hexadecimal).
pub(crate) fn parameter_function_code(function: ParameterFunction) -> u8
    ensures { result ≡ spec.parameter_function_code function }
{
    parameter_functions!(code_beside(function))
}

/// Returns the character of a number entry with a given code, 10 to 1C (hexadecimal).
pub(crate) fn character(code: u8) -> Character
    requires low { 0x10 ≤ code }
    requires high { code ≤ 0x1C }
    ensures { spec.character_code result ≡ code }
{
    characters!(name_beside (all code))
}

/// Returns the code of a character of a number entry, 10 to 1C (hexadecimal).
pub(crate) fn character_code(character: Character) -> u8
    ensures { result ≡ spec.character_code character }
{
    characters!(code_beside(character))
}

/// Returns the first byte of a program line with a name: 1D for `GTO`, 1E for `XEQ`, 1F for `W` (hexadecimal).
pub(crate) fn name_function_code(function: NameFunction) -> u8
    ensures { result ≡ spec.name_function_code function }
{
    match function {
        NameFunction::GoToName => 0x1D,
        NameFunction::ExecuteName => 0x1E,
        NameFunction::Wordless => 0x1F,
    }
}

/// Returns the byte that spells `RCL 00` (20, hexadecimal) or `STO 00` (30). Registers 01 to 15 follow in order.
pub(crate) fn register_function_code(function: RegisterFunction) -> u8
    ensures { result ≡ spec.register_function_code function }
{
    match function {
        RegisterFunction::RecallRegister => 0x20,
        RegisterFunction::StoreRegister => 0x30,
    }
}

/// Returns the first byte of a three-byte `GTO` (D0, hexadecimal) or `XEQ` (E0) line. Its low digit, here 0, is the
/// high digit of the distance.
pub(crate) fn branch_code(branch: Branch) -> u8
    ensures { result ≡ spec.branch_code branch }
{
    match branch {
        Branch::GoTo => 0xD0,
        Branch::Execute => 0xE0,
    }
}
