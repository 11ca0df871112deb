//! The number of a number line from its characters, and the signs of exact sums, differences and products of two numbers.
#![tactic(auto)]

pub mod laws;
mod number;
mod signs;

pub use number::number_of;
pub use signs::{sign_of_difference, sign_of_product, sign_of_sum};
