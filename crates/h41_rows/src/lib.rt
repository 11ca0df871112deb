//! The effects of program lines: what each line computes, tests and changes.
#![tactic(auto)]

mod alpha;
mod answers;
mod clearing;
mod conditions;
mod counted_loops;
mod counters;
mod fault;
mod flags;
pub mod laws;
mod operands;
mod readings;
mod stack;
mod targets;
mod values;

pub use alpha::{append_register, append_text, first_six, replace_text, shift_six};
pub use clearing::clear_data;
pub use conditions::{Test, asks};
pub use counted_loops::{CountedLoop, loop_down, loop_up};
pub use fault::LineFault;
pub use flags::{set_angles, set_format};
pub use operands::{BranchTarget, branch_target, data_address, digit_of, flag_of, register_of};
pub use stack::{
    bring_in, bring_in_from, clear_stack, drop_into, enter, exchange, keep_last, roll_down,
    roll_up, store_x,
};
pub use values::{
    ValueOfOne, ValueOfTwo, compute_of_one, compute_of_two, number_register, pi, written, zero,
};
