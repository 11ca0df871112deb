//! The deck language of the HP-41 bench: executes the commands of a deck in turn and writes their
//! replies.
#![tactic(auto)]

mod deck;
pub mod laws;
mod lines;
mod replies;

pub use deck::run_deck;
pub use h41_breakpoints::{BreakFull, Location, NoBreak};
pub use h41_commands::{
    Block, BlockKind, Command, LineRefusal, PageKind, PressedKeys, ProgramKind, View,
};
pub use h41_debug::{Bench, Stop};
pub use h41_ends::{
    FromRead, InputFault, ReadInput, Sink, Source, Talk, ToWrite, WriteFault, flush, read_whole,
    write_whole,
};
pub use h41_refusals::{CommandFault, Detail, Fault, Refusal};
pub use h41_xrom::{Calculator, CalculatorRefusal, Caller, Mode};
pub use replies::{Outcome, apply};
