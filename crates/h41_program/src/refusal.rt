//! The errors of calls that work on program memory. Decks print them with these numbers. After an error nothing has
//! changed.
use thiserror::Error;

/// The reasons why calls on program memory are refused: BrokenProgram (14), NoRoom (16) or SizeTooLarge (17).
#[derive(Clone, Copy, Debug, PartialEq, Eq, Error)]
pub enum ProgramRefusal {
    /// BrokenProgram (14): bytes are no program line, or there is no line at the position.
    #[error("these bytes are no line")]
    BrokenProgram,
    /// NoRoom (16): the programs do not fit into main memory.
    #[error("there is no room")]
    NoRoom,
    /// SizeTooLarge (17): main memory has too few registers for this number of data registers.
    #[error("the size is too large")]
    SizeTooLarge,
}
