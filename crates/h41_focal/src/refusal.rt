//! The errors of calls that execute lines. Decks print them with these numbers. After an error nothing has changed.
use thiserror::Error;

/// The reasons why a line is not executed: MemoryLost (15), BrokenProgram (14) or NotInProfile (13).
#[derive(Clone, Copy, Debug, PartialEq, Eq, Error)]
pub enum FocalRefusal {
    /// MemoryLost (15): memory is not sound (`Ram::is_sound`).
    #[error("memory is lost")]
    MemoryLost,
    /// BrokenProgram (14): the bytes at the position, or those of a line to be skipped, are no program line.
    #[error("these bytes are no line")]
    BrokenProgram,
    /// NotInProfile (13): the bench does not support this line.
    #[error("this line is not carried out")]
    NotInProfile,
}
