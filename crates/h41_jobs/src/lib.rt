//! The command line of the HP-41 bench: which task its words ask for, or how the program ends if they ask for none. And the jobs whose
//! input is read completely, assembling a source and listing words: what each prints and how it ends.
#![tactic(auto)]

mod arguments;
mod assemble;
mod ended;
mod ending;
mod input;
pub mod laws;
mod list;
mod memory;
mod numbers;
mod origin;
mod output;

pub use arguments::{Ending, Job, Task, read_words};
pub use assemble::assembly;
pub use ended::{Answer, Ended, mistake_line};
pub use ending::text_of;
pub use input::read_input;
pub use list::listing;
pub use memory::MemorySize;
pub use output::{write_answer, write_text};
