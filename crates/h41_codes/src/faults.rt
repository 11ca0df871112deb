//! The errors of reading and writing the bytes of program lines.
use thiserror::Error;

/// BrokenProgram (14): bytes begin with no program line.
#[derive(Clone, Copy, Debug, PartialEq, Eq, Error)]
#[error("these bytes begin with no line")]
pub struct BrokenProgram;

/// BufferShort (40): the slice is too short for the bytes of the program line.
#[derive(Clone, Copy, Debug, PartialEq, Eq, Error)]
#[error("the line does not fit")]
pub struct BufferShort;
