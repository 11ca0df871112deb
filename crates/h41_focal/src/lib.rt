//! The lines of keystroke programs: what each line does to memory, the position and the display, and how it ends.
#![tactic(auto)]

mod addresses;
mod alpha_lines;
mod arithmetic;
mod calls;
mod course;
mod display_lines;
mod flag_lines;
mod functions;
mod labels;
pub mod laws;
mod lines;
mod loop_lines;
mod machine;
mod mode_lines;
mod operand_lines;
mod origin;
mod outcome;
mod questions;
mod rare_lines;
mod refusal;
mod register_lines;
mod register_uses;
mod short_lines;
mod stack_lines;
mod uses;
mod works;

pub use calls::function_named;
pub use h41_positions::{Focal, RETURNS};
pub use h41_rows::LineFault;
pub use machine::Machine;
pub use outcome::LineOutcome;
pub use refusal::FocalRefusal;
