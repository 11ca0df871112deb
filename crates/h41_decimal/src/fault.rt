//! The errors of the arithmetic operations on decimals.

/// The reason why an arithmetic operation on decimals, for example a division, has no result.
#[derive(Clone, Copy, Debug, PartialEq, Eq)]
pub enum DecimalFault {
    /// The result does not exist: the divisor is zero, or the root is that of a negative number. The calculator shows DATA ERROR.
    Data,
    /// The exponent of the result is above 99. The calculator shows OUT OF RANGE.
    Range,
}
