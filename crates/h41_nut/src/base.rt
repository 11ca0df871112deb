//! The base in which the processor's arithmetic words compute.

/// The base in which the processor's arithmetic words compute: 16 or 10.
#[derive(Clone, Copy, Debug, PartialEq, Eq)]
pub enum Base {
    /// Hexadecimal mode: base 16.
    Hexadecimal,
    /// Decimal mode: base 10.
    Decimal,
}
