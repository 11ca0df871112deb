//! The ten-digit decimals of the HP-41. The results of operations are the exact values, rounded to ten digits, halves away from
//! zero.
#![tactic(auto)]

mod entry;
pub mod fault;
pub mod laws;
mod likely;
mod modulo;
pub mod parts;
pub mod places;
mod register;
mod rounding;
pub mod sign;
mod sizes;
pub mod ten;
mod whole;

pub use fault::DecimalFault;
pub use parts::{Exponent, Magnitude, Mantissa};
pub use places::Places;
pub use sign::Sign;
pub use ten::Ten;
