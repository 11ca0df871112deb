//! What functions without an operand do.

ghost use Rattle.std.specs.Prelude.{◌≡◌};
ghost use Rattle.std.specs.Option.{option_map};
ghost use Rattle.h41_rows.specs.FunctionRows.{function_row};
ghost use Rattle.h41_focal.specs.private.Works.{row_of_work};

use h41_codes::Function;
use h41_rows::{Test, ValueOfOne, ValueOfTwo};

/// How a function without an operand changes the stack.
#[derive(Clone, Copy)]
pub enum Movement {
    /// `X<>Y`: exchanges X and Y.
    Exchange,
    /// `R^`: rolls the stack up: Z to T, Y to Z, X to Y and T to X.
    RollUp,
    /// `RDN`: rolls the stack down: T to Z, Z to Y, Y to X and X to T.
    RollDown,
    /// `LASTX`: writes LAST X to X.
    LastX,
    /// `ENTER^`: lifts the stack and leaves X unchanged.
    Enter,
    /// `PI`: writes the number pi to X.
    Pi,
    /// `CLST`: writes zero to X, Y, Z and T.
    ClearStack,
    /// `CLX`: writes zero to X.
    ClearX,
}

/// How a function without an operand changes ALPHA or ALPHA mode.
#[derive(Clone, Copy)]
pub enum AlphaWork {
    /// `CLA`: removes all characters of ALPHA.
    Clear,
    /// `ASHF`: removes the first six characters of ALPHA.
    Shift,
    /// `AON` (true) and `AOFF` (false): switches ALPHA mode on or off.
    Mode(bool),
}

/// How a function without an operand changes the display or stops the program.
#[derive(Clone, Copy)]
pub enum DisplayWork {
    /// `AVIEW`: shows ALPHA.
    ViewAlpha,
    /// `CLD`: removes the text that the display shows instead of X.
    Clear,
    /// `PROMPT`: shows ALPHA and stops the program.
    Prompt,
    /// `STOP`: stops the program.
    Stop,
    /// `OFF`: stops the program and turns the display off.
    TurnOff,
}

/// What a function without an operand does.
#[derive(Clone, Copy)]
pub enum FunctionWork {
    /// Writes a value computed from Y and X to X and drops the stack, for example `+`. LAST X receives the old X.
    OfYAndX(ValueOfTwo),
    /// Writes a value computed from X to X, for example `SQRT`. LAST X receives the old X.
    OfX(ValueOfOne),
    /// `X^2`: X receives X times X, and LAST X the old X.
    Square,
    /// `%`: X receives X percent of Y, and LAST X the old X. Y is unchanged.
    Percent,
    /// `CHS`: the sign of the number in X changes. LAST X is unchanged.
    ChangeSign,
    /// A test of X, for example `X=0?`, which skips the next line if it is false.
    Ask(Test),
    /// Changes the stack, for example `RDN`.
    Move(Movement),
    /// Changes ALPHA or ALPHA mode, for example `CLA`.
    Alpha(AlphaWork),
    /// Changes the display or stops the program, for example `AVIEW`.
    Display(DisplayWork),
    /// `DEG`, `RAD` and `GRAD`: select the unit of angles. The values are those of flag 42 (set for grads) and flag 43
    /// (set for radians).
    Angles(bool, bool),
    /// `CLRG`: writes zero to all data registers.
    ClearRegisters,
    /// `RTN`: returns to the newest return address, or stops the program if there is none.
    Return,
    /// `BEEP`, `PSE` and `ADV`: have no effect, because the bench has no sound, pause or printer.
    Nothing,
}

/// Returns what a function without an operand does, or `None` if the bench does not support the function.
#[inline(always)]
pub fn work_of(function: Function) -> Option<FunctionWork>
    ensures { option_map row_of_work result ≡ function_row function }
{
    Some(match function {
        Function::Add => FunctionWork::OfYAndX(ValueOfTwo::Sum),
        Function::Subtract => FunctionWork::OfYAndX(ValueOfTwo::Difference),
        Function::Multiply => FunctionWork::OfYAndX(ValueOfTwo::Product),
        Function::Divide => FunctionWork::OfYAndX(ValueOfTwo::Quotient),
        Function::Modulo => FunctionWork::OfYAndX(ValueOfTwo::Remainder),
        Function::Percent => FunctionWork::Percent,
        Function::Square => FunctionWork::Square,
        Function::SquareRoot => FunctionWork::OfX(ValueOfOne::Root),
        Function::ChangeSign => FunctionWork::ChangeSign,
        Function::Reciprocal => FunctionWork::OfX(ValueOfOne::Inverse),
        Function::AbsoluteValue => FunctionWork::OfX(ValueOfOne::AbsoluteValue),
        Function::IntegerPart => FunctionWork::OfX(ValueOfOne::IntegerPart),
        Function::FractionPart => FunctionWork::OfX(ValueOfOne::Fraction),
        Function::Round => FunctionWork::OfX(ValueOfOne::Displayed),
        Function::Signum => FunctionWork::OfX(ValueOfOne::Unit),
        Function::TestXLessThanY => FunctionWork::Ask(Test::XLessThanY),
        Function::TestXGreaterThanY => FunctionWork::Ask(Test::XGreaterThanY),
        Function::TestXAtMostY => FunctionWork::Ask(Test::XAtMostY),
        Function::TestXNotZero => FunctionWork::Ask(Test::XNotZero),
        Function::TestXPositive => FunctionWork::Ask(Test::XPositive),
        Function::TestXNegative => FunctionWork::Ask(Test::XNegative),
        Function::TestXZero => FunctionWork::Ask(Test::XZero),
        Function::TestXEqualsY => FunctionWork::Ask(Test::XEqualsY),
        Function::TestXDiffersFromY => FunctionWork::Ask(Test::XDiffersFromY),
        Function::TestXAtMostZero => FunctionWork::Ask(Test::XAtMostZero),
        Function::ExchangeXY => FunctionWork::Move(Movement::Exchange),
        Function::Pi => FunctionWork::Move(Movement::Pi),
        Function::ClearStack => FunctionWork::Move(Movement::ClearStack),
        Function::RollUp => FunctionWork::Move(Movement::RollUp),
        Function::RollDown => FunctionWork::Move(Movement::RollDown),
        Function::LastX => FunctionWork::Move(Movement::LastX),
        Function::ClearX => FunctionWork::Move(Movement::ClearX),
        Function::Enter => FunctionWork::Move(Movement::Enter),
        Function::ViewAlpha => FunctionWork::Display(DisplayWork::ViewAlpha),
        Function::ClearDisplay => FunctionWork::Display(DisplayWork::Clear),
        Function::Prompt => FunctionWork::Display(DisplayWork::Prompt),
        Function::Stop => FunctionWork::Display(DisplayWork::Stop),
        Function::TurnOff => FunctionWork::Display(DisplayWork::TurnOff),
        Function::Degrees => FunctionWork::Angles(false, false),
        Function::Radians => FunctionWork::Angles(false, true),
        Function::Grads => FunctionWork::Angles(true, false),
        Function::Return => FunctionWork::Return,
        Function::Beep | Function::Pause | Function::Advance => FunctionWork::Nothing,
        Function::ClearAlpha => FunctionWork::Alpha(AlphaWork::Clear),
        Function::ShiftAlpha => FunctionWork::Alpha(AlphaWork::Shift),
        Function::AlphaOff => FunctionWork::Alpha(AlphaWork::Mode(false)),
        Function::AlphaOn => FunctionWork::Alpha(AlphaWork::Mode(true)),
        Function::ClearRegisters => FunctionWork::ClearRegisters,
        _ => return None,
    })
}
