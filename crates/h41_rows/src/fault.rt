//! The errors of program lines, which the display shows.
use thiserror::Error;

/// An error of a program line. It is not a refusal: the display shows its message, or the program continues if flag 25 is set. The rules
/// are in docs/LINES.md.
#[derive(Clone, Copy, Debug, PartialEq, Eq, Error)]
pub enum LineFault {
    /// ALPHA DATA: a number is needed, and a register contains none.
    #[error("ALPHA DATA")]
    AlphaData,
    /// DATA ERROR: a divisor is zero, a square root is that of a negative number, or a number of digits is above 9.
    #[error("DATA ERROR")]
    DataError,
    /// OUT OF RANGE: a result has an exponent above 99.
    #[error("OUT OF RANGE")]
    OutOfRange,
    /// NONEXISTENT: there is no such register, flag, label or function.
    #[error("NONEXISTENT")]
    Nonexistent,
}
