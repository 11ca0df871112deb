//! The I/O errors of reading and writing. Each type lists only the errors that its functions can
//! return.

ghost use Rattle.std.specs.Prelude.{◌≡◌};
ghost use Rattle.h41_ends.specs.declared.fault.InputFault.TheVariants as input;
ghost use Rattle.h41_ends.specs.declared.fault.LineReadFault.TheVariants as lines;

use std::alloc::{AllocError, AllocFailed};

/// The error WriteFault (23): the output cannot be written.
#[derive(Clone, Copy, Debug, PartialEq, Eq)]
pub struct WriteFault;

/// Why `read_whole` could not read an input: allocation failed, or a read failed.
#[derive(Clone, Copy, Debug, PartialEq, Eq)]
pub enum InputFault {
    /// OutOfMemory (21): allocation failed.
    OutOfMemory,
    /// ReadFault (22): a read failed.
    ReadFault,
}

impl From<AllocError> for InputFault {
    ghost from_gives = { λ _ fault. fault ≡ input.OutOfMemory };

    fn from(_error: AllocError) -> Self {
        InputFault::OutOfMemory
    }
}

impl<T: Drop> From<AllocFailed<T>> for InputFault {
    ghost from_gives = { λ _ fault. fault ≡ input.OutOfMemory };

    fn from(_error: AllocFailed<T>) -> Self {
        InputFault::OutOfMemory
    }
}

/// Why `InputLines::next_line` could not read the next line of an input: a read, the limit of the input's size, or the
/// flush before a read.
#[derive(Clone, Copy, Debug, PartialEq, Eq)]
pub enum LineReadFault {
    /// ReadFault (22): a read failed, or the input has more than 67,108,864 bytes.
    ReadFault,
    /// WriteFault (23): the output could not be flushed before a read.
    WriteFault,
}

impl From<WriteFault> for LineReadFault {
    ghost from_gives = { λ _ fault. fault ≡ lines.WriteFault };

    fn from(_fault: WriteFault) -> Self {
        LineReadFault::WriteFault
    }
}
