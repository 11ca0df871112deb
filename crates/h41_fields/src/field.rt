//! The fields of a register, and the processor's pointers P and Q, which determine some of them.

/// One of the Nut processor's two pointers. Each names a place (digit) of a register, 0 to 13.
#[derive(Clone, Copy, Debug, PartialEq, Eq)]
pub enum Pointer {
    /// Pointer P. The field `P-Q` begins at its place.
    P,
    /// Pointer Q. The field `P-Q` ends at its place.
    Q,
}

/// A field: the places of a register that a word of microcode works on. A register has 14 places (digits), 0 rightmost
/// to 13 leftmost. The variants are in the order of the field numbers 0 to 7 in the words.
#[derive(Clone, Copy, Debug, PartialEq, Eq)]
pub enum Field {
    /// `@R`: the one place that the active pointer, P or Q, names.
    AtPointer,
    /// `S&X`: the exponent and its sign, places 0 to 2.
    SignAndExponent,
    /// `R<`: from place 0 to the place that the active pointer, P or Q, names, both included.
    ToPointer,
    /// `ALL`: places 0 to 13.
    All,
    /// `P-Q`: from the place that P names to the place that Q names, both included. If P's place is above Q's, from P's
    /// place to 13 (this project's choice).
    PToQ,
    /// `XS`: the exponent's sign, place 2.
    ExponentSign,
    /// `M`: the mantissa, places 3 to 12.
    Mantissa,
    /// `MS`: the mantissa's sign, place 13.
    MantissaSign,
}
