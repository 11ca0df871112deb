//! The texts that the `show` commands print of memory, the processor and the pages.
#![tactic(auto)]

mod functions;
mod image;
mod memory;
mod processor;
mod program;
mod text;

pub use functions::functions_text;
pub use image::image_text;
pub use memory::{flags_text, register_text, stack_text};
pub use processor::processor_text;
pub use program::{byte_digits, program_text};
