//! The precision of rounding.

/// The digits that rounding keeps: up to a decimal place, or a count of digits.
#[derive(Clone, Copy, Debug, PartialEq, Eq)]
pub enum Places {
    /// The given number of digits after the radix mark, as FIX shows them.
    Decimals(u8),
    /// The given number of digits from the first one on, as SCI and ENG show them. Ten or more change no number.
    Digits(u8),
}
