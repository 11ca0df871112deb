//! Input and output streams of a job: sources that deliver its bytes, and sinks that accept its
//! text.
#![tactic(auto)]

mod fault;
mod input;
mod input_lines;
mod line_ends;
mod output;
mod sink;
mod source;

pub use fault::{InputFault, LineReadFault, WriteFault};
pub use input::{MOST_BYTES, ReadInput, read_whole};
pub use input_lines::{InputLines, MOST_TOLD};
pub use line_ends::line_end;
pub use output::{flush, write_whole};
pub use sink::{Sink, ToWrite};
pub use source::{FromRead, Source, Talk};
