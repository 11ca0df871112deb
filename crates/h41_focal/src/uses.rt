//! What functions with an operand do, by the kind of their operand.

ghost use Rattle.std.specs.Prelude.{◌≡◌, ◌≢◌};
ghost use Rattle.h41_focal.specs.private.Works.{IsUse, highest_of};
ghost use Rattle.h41_codes.specs.declared.functions.ParameterFunction.TheVariants as functions;

use h41_codes::ParameterFunction;
use h41_rows::ValueOfTwo;

/// What a function with a register does.
#[derive(Clone, Copy)]
pub enum RegisterUse {
    /// `RCL`: writes the register to X.
    Recall,
    /// `STO`: stores X in the register.
    Store,
    /// `ST+`, `ST-`, `ST*` and `ST/`: the register receives the register plus, minus, times or divided by X.
    Combine(ValueOfTwo),
    /// `ISG`: increases the counter in the register, and skips the next line when the loop ends.
    CountUp,
    /// `DSE`: decreases the counter in the register, and skips the next line when the loop ends.
    CountDown,
    /// `VIEW`: shows the register in the display.
    View,
    /// `ASTO`: stores the first six characters of ALPHA in the register.
    StoreAlpha,
    /// `ARCL`: appends the text of the register to ALPHA.
    RecallAlpha,
    /// `X<>`: exchanges X and the register.
    Exchange,
}

/// What a function whose operand is a digit, 0 to 9, does.
#[derive(Clone, Copy)]
pub enum DigitsUse {
    /// `FIX`, `SCI` and `ENG`: set the display format. The values are those of flag 40 (set for `FIX`) and flag 41 (set
    /// for `ENG`).
    Format(bool, bool),
    /// `TONE`: has no effect, because the bench has no sound.
    Tone,
}

/// What a function with a flag does.
#[derive(Clone, Copy)]
pub enum FlagUse {
    /// `SF` (true) and `CF` (false): sets or clears the flag.
    Change(bool),
    /// `FS?` (true) and `FC?` (false): tests whether the flag is set or clear, and skips the next line if not.
    Ask(bool),
    /// `FS?C` (true) and `FC?C` (false): tests whether the flag is set or clear, skips the next line if not, and clears
    /// the flag.
    AskAndClear(bool),
}

impl FlagUse {
    /// Returns the highest flag that a function with a flag accepts: 55 for `FS?` and `FC?`, otherwise 29.
    pub fn highest(self) -> u8
        ensures { result ≡ highest_of self }
    {
        match self {
            FlagUse::Change(_) => 29,
            FlagUse::Ask(_) => 55,
            FlagUse::AskAndClear(_) => 29,
        }
    }
}

/// What a function with an operand does, by the kind of its operand.
#[derive(Clone, Copy)]
pub enum OperandUse {
    /// The operand is a register, for example of `RCL`.
    Register(RegisterUse),
    /// The operand is a digit, 0 to 9, for example of `FIX`.
    Digits(DigitsUse),
    /// The operand is a flag, for example of `SF`.
    Flag(FlagUse),
    /// The operand is a label: `LBL`, which has no effect when it is executed.
    Label,
}

/// Returns what a function with an operand does, by the kind of its operand. The function must not be `SREG`, which the
/// bench does not support.
#[inline(always)]
pub fn use_of(function: ParameterFunction) -> OperandUse
    requires { function ≢ functions.StatisticsRegisters }
    ensures { IsUse function result }
{
    match function {
        ParameterFunction::Recall => OperandUse::Register(RegisterUse::Recall),
        ParameterFunction::Store => OperandUse::Register(RegisterUse::Store),
        ParameterFunction::StoreAdd => OperandUse::Register(RegisterUse::Combine(ValueOfTwo::Sum)),
        ParameterFunction::StoreSubtract => OperandUse::Register(RegisterUse::Combine(
            ValueOfTwo::Difference,
        )),
        ParameterFunction::StoreMultiply => OperandUse::Register(RegisterUse::Combine(
            ValueOfTwo::Product,
        )),
        ParameterFunction::StoreDivide => OperandUse::Register(RegisterUse::Combine(
            ValueOfTwo::Quotient,
        )),
        ParameterFunction::IncrementSkip => OperandUse::Register(RegisterUse::CountUp),
        ParameterFunction::DecrementSkip => OperandUse::Register(RegisterUse::CountDown),
        ParameterFunction::View => OperandUse::Register(RegisterUse::View),
        ParameterFunction::StatisticsRegisters => unreachable!(),
        ParameterFunction::StoreAlpha => OperandUse::Register(RegisterUse::StoreAlpha),
        ParameterFunction::RecallAlpha => OperandUse::Register(RegisterUse::RecallAlpha),
        ParameterFunction::Fixed => OperandUse::Digits(DigitsUse::Format(true, false)),
        ParameterFunction::Scientific => OperandUse::Digits(DigitsUse::Format(false, false)),
        ParameterFunction::Engineering => OperandUse::Digits(DigitsUse::Format(false, true)),
        ParameterFunction::Tone => OperandUse::Digits(DigitsUse::Tone),
        ParameterFunction::SetFlag => OperandUse::Flag(FlagUse::Change(true)),
        ParameterFunction::ClearFlag => OperandUse::Flag(FlagUse::Change(false)),
        ParameterFunction::TestSetAndClear => OperandUse::Flag(FlagUse::AskAndClear(true)),
        ParameterFunction::TestClearAndClear => OperandUse::Flag(FlagUse::AskAndClear(false)),
        ParameterFunction::TestSet => OperandUse::Flag(FlagUse::Ask(true)),
        ParameterFunction::TestClear => OperandUse::Flag(FlagUse::Ask(false)),
        ParameterFunction::Exchange => OperandUse::Register(RegisterUse::Exchange),
        ParameterFunction::Label => OperandUse::Label,
    }
}
