//! Number lines of program memory that are digits and radix marks alone.
#![tactic(auto)]

mod plain;

pub use plain::plain_number;
