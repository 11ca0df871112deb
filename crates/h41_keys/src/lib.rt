//! The keyboard of the HP-41: the meaning of each key in each state of the keyboard. Memory, stack and program belong
//! to the calculator: a key results in an action, which the calculator performs.
#![tactic(auto)]

mod action;
mod input;
mod key;
mod letters;
mod meaning;
mod number;
mod pressing;
mod prompt;
mod prompt_keys;
mod prompt_step;
mod text;
mod typing;

pub use action::{Action, KeyNotHeld};
pub use input::{Activity, Flags, Input, Place, Pressed, TypedEntry};
pub use key::{Digit, Key};
pub use meaning::Meaning;
pub use pressing::press;
pub use prompt::{NAME_MOST, PROMPT_CAPACITY, Prompt, PromptFunction, Typed};
pub use prompt_step::PromptStep;
