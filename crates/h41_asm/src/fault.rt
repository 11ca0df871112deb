//! The errors of an assembler source.

ghost use Rattle.std.specs.Prelude.{◌≡◌};
ghost use Rattle.h41_asm.specs.declared.fault.AssembleError.TheVariants.{OutOfMemory};
ghost use Rattle.h41_asm.specs.declared.fault.SpellError.TheVariants as spell_errors;

use std::alloc::{AllocError, AllocFailed};
use thiserror::Error;

/// Why a line of an assembler source is refused. The numbers and names are this project's own.
#[derive(Clone, Copy, Debug, PartialEq, Eq, Error)]
pub enum SourceFault {
    /// BadLine (30): the words after the label begin no mnemonic and no directive. One cause is a first word that ends
    /// in `:` but is not a valid label.
    #[error("no line of a source")]
    BadLine,
    /// BadOperand (31): the mnemonic or directive is known, but its operand is missing, is of another kind or out of
    /// range, or is followed by more words.
    #[error("an operand is missing, one too many, or none that is taken")]
    BadOperand,
    /// LabelTwice (32): an earlier source line has the same label.
    #[error("an earlier line has the label")]
    LabelTwice,
    /// NoLabel (33): no source line has the label to which this source line refers.
    #[error("no line has the label")]
    NoLabel,
    /// TooFar (34): the target of a short jump is not within -64 to 63 words of the jump.
    #[error("the jump does not reach so far")]
    TooFar,
    /// TooLong (35): a word or a label of the source is after the last address, FFFF (hexadecimal).
    #[error("past FFFF")]
    TooLong,
}

/// Why a source was not assembled: `Line` gives the first error of the source, with the number of its line;
/// `OutOfMemory` says that allocation failed.
#[derive(Clone, Copy, Debug, PartialEq, Eq, Error)]
pub enum AssembleError {
    /// A source line has an error. Source lines are counted from 1.
    #[error("line {line}: {fault}")]
    Line {
        /// Why the source line is refused (30 to 35).
        fault: SourceFault,
        /// The number of the source line, counted from 1.
        line: usize,
    },
    /// OutOfMemory (21): allocation failed. The source may be correct.
    #[error("out of memory")]
    OutOfMemory,
}

impl From<AllocError> for AssembleError {
    ghost from_gives = { λ _ error. error ≡ OutOfMemory };

    fn from(_error: AllocError) -> Self {
        AssembleError::OutOfMemory
    }
}

impl<T: Drop> From<AllocFailed<T>> for AssembleError {
    ghost from_gives = { λ _ error. error ≡ OutOfMemory };

    fn from(_error: AllocFailed<T>) -> Self {
        AssembleError::OutOfMemory
    }
}

/// Why no words were appended for a source line: `Fault` gives the error of the line, `OutOfMemory` says that
/// allocation failed. The line number is added by `at_line`.
#[derive(Clone, Copy)]
pub(crate) enum SpellError {
    /// The error of the source line (30 to 35), without the line's number.
    Fault(SourceFault),
    /// OutOfMemory (21): allocation failed.
    OutOfMemory,
}

impl SpellError {
    ghost use Rattle.h41_asm.specs.Refusals.{refusal_of};

    /// Returns the error with the number of the source line, counted from 1. OutOfMemory (21) has no line number.
    pub(crate) fn at_line(self, line: usize) -> AssembleError
        ensures { result ≡ refusal_of self line }
    {
        match self {
            SpellError::Fault(fault) => AssembleError::Line { fault, line },
            SpellError::OutOfMemory => AssembleError::OutOfMemory,
        }
    }
}

impl From<SourceFault> for SpellError {
    ghost from_gives = { λ fault error. error ≡ spell_errors.Fault fault };

    fn from(fault: SourceFault) -> Self {
        SpellError::Fault(fault)
    }
}

impl From<AllocError> for SpellError {
    ghost from_gives = { λ _ error. error ≡ spell_errors.OutOfMemory };

    fn from(_error: AllocError) -> Self {
        SpellError::OutOfMemory
    }
}

impl<T: Drop> From<AllocFailed<T>> for SpellError {
    ghost from_gives = { λ _ error. error ≡ spell_errors.OutOfMemory };

    fn from(_error: AllocFailed<T>) -> Self {
        SpellError::OutOfMemory
    }
}
