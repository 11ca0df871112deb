//! The whole calculator: processor, memory, pages, keys, display and keystroke programs.
#![tactic(auto)]

mod acting;
mod calculator;
mod display;
pub mod laws;
mod messages;
mod places;
mod refusal;
mod storing;
mod typing;

pub use calculator::{Calculator, Caller, Mode};
pub use refusal::CalculatorRefusal;
