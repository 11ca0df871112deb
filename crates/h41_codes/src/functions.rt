//! The functions of the HP-41. Each comment begins with the name that a listing shows.

/// A function whose line is a single byte.
#[derive(Clone, Copy, Debug, PartialEq, Eq)]
pub enum Function {
    /// `+`: adds X to Y.
    Add,
    /// `-`: subtracts X from Y.
    Subtract,
    /// `*`: multiplies Y by X.
    Multiply,
    /// `/`: divides Y by X.
    Divide,
    /// `X<Y?`: tests whether X is less than Y.
    TestXLessThanY,
    /// `X>Y?`: tests whether X is greater than Y.
    TestXGreaterThanY,
    /// `X<=Y?`: tests whether X is at most Y.
    TestXAtMostY,
    /// `S+`: adds X and Y to the statistics registers.
    AddStatistics,
    /// `S-`: subtracts X and Y from the statistics registers.
    SubtractStatistics,
    /// `HMS+`: adds X to Y, in hours, minutes and seconds.
    AddHours,
    /// `HMS-`: subtracts X from Y, in hours, minutes and seconds.
    SubtractHours,
    /// `MOD`: the remainder of Y divided by X.
    Modulo,
    /// `%`: X percent of Y, written to X.
    Percent,
    /// `%CH`: the change from Y to X in percent of Y.
    PercentChange,
    /// `P-R`: converts X and Y from polar to rectangular coordinates.
    PolarToRectangular,
    /// `R-P`: converts X and Y from rectangular to polar coordinates.
    RectangularToPolar,
    /// `LN`: the natural logarithm of X.
    NaturalLogarithm,
    /// `X^2`: the square of X.
    Square,
    /// `SQRT`: the square root of X.
    SquareRoot,
    /// `Y^X`: Y to the power of X.
    Power,
    /// `CHS`: changes the sign of X.
    ChangeSign,
    /// `E^X`: e to the power of X.
    Exponential,
    /// `LOG`: the common (base 10) logarithm of X.
    CommonLogarithm,
    /// `10^X`: 10 to the power of X.
    PowerOfTen,
    /// `E^X-1`: e to the power of X, less 1.
    ExponentialLessOne,
    /// `SIN`: the sine of X.
    Sine,
    /// `COS`: the cosine of X.
    Cosine,
    /// `TAN`: the tangent of X.
    Tangent,
    /// `ASIN`: the arc sine of X.
    ArcSine,
    /// `ACOS`: the arc cosine of X.
    ArcCosine,
    /// `ATAN`: the arc tangent of X.
    ArcTangent,
    /// `DEC`: converts X from octal to decimal.
    OctalToDecimal,
    /// `1/X`: the reciprocal of X.
    Reciprocal,
    /// `ABS`: the absolute value of X.
    AbsoluteValue,
    /// `FACT`: the factorial of X.
    Factorial,
    /// `X#0?`: tests whether X is not 0.
    TestXNotZero,
    /// `X>0?`: tests whether X is positive.
    TestXPositive,
    /// `LN1+X`: the natural logarithm of 1 + X.
    LogarithmOfOneMore,
    /// `X<0?`: tests whether X is negative.
    TestXNegative,
    /// `X=0?`: tests whether X is 0.
    TestXZero,
    /// `INT`: the integer part of X.
    IntegerPart,
    /// `FRC`: the fraction part of X.
    FractionPart,
    /// `D-R`: converts X from degrees to radians.
    DegreesToRadians,
    /// `R-D`: converts X from radians to degrees.
    RadiansToDegrees,
    /// `HMS`: converts X from decimal hours to hours, minutes and seconds.
    DecimalToHours,
    /// `HR`: converts X from hours, minutes and seconds to decimal hours.
    HoursToDecimal,
    /// `RND`: rounds X to the digits of the display.
    Round,
    /// `OCT`: converts X from decimal to octal.
    DecimalToOctal,
    /// `CLS`: clears the statistics registers.
    ClearStatistics,
    /// `X<>Y`: exchanges X and Y.
    ExchangeXY,
    /// `PI`: enters the number pi in X.
    Pi,
    /// `CLST`: clears the stack.
    ClearStack,
    /// `R^`: rolls the stack up.
    RollUp,
    /// `RDN`: rolls the stack down.
    RollDown,
    /// `LASTX`: recalls the LAST X register to X.
    LastX,
    /// `CLX`: clears X.
    ClearX,
    /// `X=Y?`: tests whether X equals Y.
    TestXEqualsY,
    /// `X#Y?`: tests whether X differs from Y.
    TestXDiffersFromY,
    /// `SIGN`: the sign of X.
    Signum,
    /// `X<=0?`: tests whether X is at most 0.
    TestXAtMostZero,
    /// `MEAN`: the means of the x and y values in the statistics registers.
    Mean,
    /// `SDEV`: the standard deviations of the x and y values in the statistics registers.
    StandardDeviation,
    /// `AVIEW`: shows ALPHA.
    ViewAlpha,
    /// `CLD`: clears the display.
    ClearDisplay,
    /// `DEG`: selects degrees as the angular mode.
    Degrees,
    /// `RAD`: selects radians as the angular mode.
    Radians,
    /// `GRAD`: selects grads as the angular mode.
    Grads,
    /// `ENTER^`: copies X to Y.
    Enter,
    /// `STOP`: stops the program.
    Stop,
    /// `RTN`: returns to the calling program, or stops if there is none.
    Return,
    /// `BEEP`: plays four tones.
    Beep,
    /// `CLA`: clears ALPHA.
    ClearAlpha,
    /// `ASHF`: shifts ALPHA six characters to the left.
    ShiftAlpha,
    /// `PSE`: pauses the program.
    Pause,
    /// `CLRG`: clears the data registers.
    ClearRegisters,
    /// `AOFF`: switches ALPHA mode off.
    AlphaOff,
    /// `AON`: switches ALPHA mode on.
    AlphaOn,
    /// `OFF`: turns the calculator off.
    TurnOff,
    /// `PROMPT`: shows ALPHA and stops the program.
    Prompt,
    /// `ADV`: advances the printer's paper.
    Advance,
}

/// A function with a parameter, such as a register or a flag. The parameter may be direct or indirect.
#[derive(Clone, Copy, Debug, PartialEq, Eq)]
pub enum ParameterFunction {
    /// `RCL`: recalls the content of a register to X.
    Recall,
    /// `STO`: stores X in a register.
    Store,
    /// `ST+`: adds X to a register.
    StoreAdd,
    /// `ST-`: subtracts X from a register.
    StoreSubtract,
    /// `ST*`: multiplies a register by X.
    StoreMultiply,
    /// `ST/`: divides a register by X.
    StoreDivide,
    /// `ISG`: increments the loop counter in a register, and skips the next line if the counter is greater than its
    /// limit.
    IncrementSkip,
    /// `DSE`: decrements the loop counter in a register, and skips the next line if the counter is at most its limit.
    DecrementSkip,
    /// `VIEW`: shows the content of a register.
    View,
    /// `SREG`: selects the statistics registers.
    StatisticsRegisters,
    /// `ASTO`: stores characters of ALPHA in a register.
    StoreAlpha,
    /// `ARCL`: appends the content of a register to ALPHA.
    RecallAlpha,
    /// `FIX`: selects the fixed display format.
    Fixed,
    /// `SCI`: selects the scientific display format.
    Scientific,
    /// `ENG`: selects the engineering display format.
    Engineering,
    /// `TONE`: plays a tone.
    Tone,
    /// `SF`: sets a flag.
    SetFlag,
    /// `CF`: clears a flag.
    ClearFlag,
    /// `FS?C`: tests whether a flag is set, and clears it.
    TestSetAndClear,
    /// `FC?C`: tests whether a flag is clear, and clears it.
    TestClearAndClear,
    /// `FS?`: tests whether a flag is set.
    TestSet,
    /// `FC?`: tests whether a flag is clear.
    TestClear,
    /// `X<>`: exchanges X with a register.
    Exchange,
    /// `LBL`: a local label, at which `GTO` and `XEQ` can continue.
    Label,
}

/// What a program line does with a local label: it continues there, or calls it.
#[derive(Clone, Copy, Debug, PartialEq, Eq)]
pub enum Branch {
    /// `GTO`: continues at the program line with the label.
    GoTo,
    /// `XEQ`: calls the label: adds a return address and continues at the label.
    Execute,
}

/// What a program line does with a name.
#[derive(Clone, Copy, Debug, PartialEq, Eq)]
pub enum NameFunction {
    /// `GTO "NAME"`: continues at the label with this name.
    GoToName,
    /// `XEQ "NAME"`: calls the label or the function with this name.
    ExecuteName,
    /// `W "NAME"`: a code that the calculator never writes. It can be stored and listed, but has no other use.
    Wordless,
}

/// A function that has spellings in one byte for the registers 00 to 15.
#[derive(Clone, Copy, Debug, PartialEq, Eq)]
pub enum RegisterFunction {
    /// `RCL`: recalls a register, 00 to 15.
    RecallRegister,
    /// `STO`: stores X in a register, 00 to 15.
    StoreRegister,
}
