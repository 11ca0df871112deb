//! The outcome of an executed line: what the calculator shows, starts or does next.

use h41_rows::LineFault;

/// The outcome of an executed line: what the calculator shows, starts or does next. A text that the display shows is
/// made from memory as the line left it.
#[derive(Clone, Copy)]
pub enum LineOutcome {
    /// The line was executed, and a program continues.
    Done,
    /// The line stops a program.
    Stopped,
    /// The line stops a program and turns the display off (`OFF`).
    TurnedOff,
    /// The display shows ALPHA (`AVIEW`), and the program continues.
    ViewedAlpha,
    /// The display shows the register at this address (`VIEW`), and the program continues.
    ViewedRegister(u16),
    /// The display shows ALPHA (`PROMPT`), and the program stops.
    Prompted,
    /// The display no longer shows a text (`CLD`), and the program continues.
    Cleared,
    /// The answer of a typed test: true if the calculator shows `YES`, false if it shows `NO`.
    Answered(bool),
    /// A typed `XEQ` moved the position to a program: the program runs.
    Runs,
    /// The function of a module in microcode starts whose first word is at this address. A program continues after the
    /// line.
    Begins(u16),
    /// The line has an error: the display shows it, and the program stops.
    Failed(LineFault),
}
