//! Arithmetic on a span of a register, digit by digit, as the words of the Nut processor perform it: sums and differences in base
//! 16 or 10 with a carry, copies, exchanges, shifts and comparisons. Digits outside the span do not change. One rule applies to all
//! digits, including A to F in base 10 (this project's choice).
#![tactic(auto)]

mod comparisons;
pub mod laws;
mod moves;
mod spans;
mod sums;

pub use comparisons::{differs, less, nonzero};
pub use moves::{copy, exchange, shift_left, shift_right};
pub use sums::{add, dec, inc, neg, neg1, sub};
