//! The errors that end the reading of a deck.

ghost use Rattle.std.specs.Prelude.{◌≡◌};
ghost use Rattle.h41_commands.specs.declared.fault.ItemFault.TheVariants as item;

use h41_ends::LineReadFault;
use std::alloc::AllocError;

/// Why the next command (or refused lines) of a deck could not be read completely.
#[derive(Clone, Copy, Debug, PartialEq, Eq)]
pub enum ItemFault {
    /// OutOfMemory (21): allocation failed.
    OutOfMemory,
    /// ReadFault (22): a read failed, or the deck has more than 67,108,864 bytes.
    ReadFault,
    /// WriteFault (23): the output could not be flushed before a read.
    WriteFault,
}

impl From<AllocError> for ItemFault {
    ghost from_gives = { λ _ fault. fault ≡ item.OutOfMemory };

    fn from(_error: AllocError) -> Self {
        ItemFault::OutOfMemory
    }
}

impl From<LineReadFault> for ItemFault {
    ghost use Rattle.std.specs.Prelude.{◌≡◌};
    ghost use Rattle.h41_commands.specs.Faults.{of_line};

    ghost from_gives = { λ fault own. own ≡ of_line fault };

    fn from(fault: LineReadFault) -> Self {
        match fault {
            LineReadFault::ReadFault => ItemFault::ReadFault,
            LineReadFault::WriteFault => ItemFault::WriteFault,
        }
    }
}
