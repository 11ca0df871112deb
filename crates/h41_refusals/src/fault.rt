//! The errors that end a deck before its last command: failed allocation, reading and writing.

ghost use Rattle.std.specs.Prelude.{◌≡◌, ◌≤◌, length};
ghost use Rattle.h41_refusals.specs.Refusals.{of_fault, heading};
ghost use Rattle.h41_refusals.specs.declared.fault.CommandFault.TheVariants as command;
ghost use Rattle.h41_refusals.specs.declared.fault.Fault.TheVariants as deck;

use crate::refusal::Refusal;
use h41_commands::ItemFault;
use h41_ends::{InputFault, LineReadFault, WriteFault};
use std::alloc::AllocError;
use std::error::Error;
use std::fmt;

/// Why a command of a deck was not answered completely: allocation failed, or its reply could not be written.
#[derive(Clone, Copy, Debug, PartialEq, Eq)]
pub enum CommandFault {
    /// OutOfMemory (21): allocation failed. Nothing was changed and nothing was written.
    OutOfMemory,
    /// WriteFault (23): a write failed. The command was executed.
    WriteFault,
}

/// The I/O errors and failed allocations that end a deck before its last command.
#[derive(Clone, Copy, Debug, PartialEq, Eq)]
pub enum Fault {
    /// OutOfMemory (21): allocation failed.
    OutOfMemory,
    /// ReadFault (22): a read failed, or the input is too long.
    ReadFault,
    /// WriteFault (23): a write failed.
    WriteFault,
}

impl Fault {
    /// Returns the refusal with the same number and name, whose line is printed for this error, for example
    /// `! 22 ReadFault`.
    pub fn refusal(self) -> Refusal
        ensures { result ≡ of_fault self }
    {
        match self {
            Fault::OutOfMemory => Refusal::OutOfMemory,
            Fault::ReadFault => Refusal::ReadFault,
            Fault::WriteFault => Refusal::WriteFault,
        }
    }
}

impl fmt::Display for Fault {
    ghost use Rattle.std.specs.Prelude.{Some};
    ghost use Rattle.h41_refusals.specs.Refusals.{of_fault, heading};

    ghost output = { λ fault. Some (heading (of_fault fault)) };

    fn fmt<W: fmt::Write>(&self, f: &mut fmt::Formatter<W>) -> fmt::Result {
        f.write_str(self.refusal().heading())
    }
}

impl Error for Fault {}

impl From<AllocError> for CommandFault {
    ghost from_gives = { λ _ fault. fault ≡ command.OutOfMemory };

    fn from(_error: AllocError) -> Self {
        CommandFault::OutOfMemory
    }
}

impl From<WriteFault> for CommandFault {
    ghost from_gives = { λ _ fault. fault ≡ command.WriteFault };

    fn from(_fault: WriteFault) -> Self {
        CommandFault::WriteFault
    }
}

impl From<AllocError> for Fault {
    ghost from_gives = { λ _ fault. fault ≡ deck.OutOfMemory };

    fn from(_error: AllocError) -> Self {
        Fault::OutOfMemory
    }
}

impl From<WriteFault> for Fault {
    ghost from_gives = { λ _ fault. fault ≡ deck.WriteFault };

    fn from(_fault: WriteFault) -> Self {
        Fault::WriteFault
    }
}

impl From<InputFault> for Fault {
    ghost use Rattle.std.specs.Prelude.{◌≡◌};
    ghost use Rattle.h41_refusals.specs.Faults.{of_input};

    ghost from_gives = { λ fault own. own ≡ of_input fault };

    fn from(fault: InputFault) -> Self {
        match fault {
            InputFault::OutOfMemory => Fault::OutOfMemory,
            InputFault::ReadFault => Fault::ReadFault,
        }
    }
}

impl From<ItemFault> for Fault {
    ghost use Rattle.std.specs.Prelude.{◌≡◌};
    ghost use Rattle.h41_refusals.specs.Faults.{of_item};

    ghost from_gives = { λ fault own. own ≡ of_item fault };

    fn from(fault: ItemFault) -> Self {
        match fault {
            ItemFault::OutOfMemory => Fault::OutOfMemory,
            ItemFault::ReadFault => Fault::ReadFault,
            ItemFault::WriteFault => Fault::WriteFault,
        }
    }
}

impl From<LineReadFault> for Fault {
    ghost use Rattle.std.specs.Prelude.{◌≡◌};
    ghost use Rattle.h41_refusals.specs.Faults.{of_line};

    ghost from_gives = { λ fault own. own ≡ of_line fault };

    fn from(fault: LineReadFault) -> Self {
        match fault {
            LineReadFault::ReadFault => Fault::ReadFault,
            LineReadFault::WriteFault => Fault::WriteFault,
        }
    }
}

impl From<CommandFault> for Fault {
    ghost use Rattle.std.specs.Prelude.{◌≡◌};
    ghost use Rattle.h41_refusals.specs.Faults.{of_command};

    ghost from_gives = { λ fault own. own ≡ of_command fault };

    fn from(fault: CommandFault) -> Self {
        match fault {
            CommandFault::OutOfMemory => Fault::OutOfMemory,
            CommandFault::WriteFault => Fault::WriteFault,
        }
    }
}
