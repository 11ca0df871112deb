//! The reasons why the execution of a microcode word is refused.

ghost use Rattle.std.specs.Prelude.{◌≡◌};
ghost use Rattle.h41_nut.specs.PageWords.{of_fetch, of_write};

use h41_pages::{FetchRefusal, ReadOnly};
use thiserror::Error;

/// The reason why the execution of a microcode word was refused, with an address. A refused word changes nothing.
#[derive(Clone, Copy, Debug, PartialEq, Eq, Error)]
pub enum WordRefusal {
    /// UndefinedWord (06): the word at this address is neither an instruction nor a word of a peripheral.
    #[error("the word at {0:04X} is undefined")]
    UndefinedWord(u16),
    /// WordNotInProfile (07): the word at this address is 3FC, which is not supported.
    #[error("the word at {0:04X} is not held")]
    WordNotInProfile(u16),
    /// SystemRom (08): this address is in pages 0 to 3, which belong to the system's ROM.
    #[error("{0:04X} lies in the system's ROM")]
    SystemRom(u16),
    /// EmptyPage (09): the active bank of this address's page is not plugged.
    #[error("no page is plugged at {0:04X}")]
    EmptyPage(u16),
    /// PeripheralNotHeld (10): the word at this address is for a peripheral, which is not supported.
    #[error("the word at {0:04X} is for a peripheral that is not held")]
    PeripheralNotHeld(u16),
    /// Asleep (11): the word at this address is POWOFF.
    #[error("the processor goes to sleep at {0:04X}")]
    Asleep(u16),
    /// ReadOnly (12): the active bank of this address's page is not plugged as writable.
    #[error("{0:04X} can't be written")]
    ReadOnly(u16),
}

impl From<FetchRefusal> for WordRefusal {
    ghost from_gives = { λ own refusal. refusal ≡ of_fetch own };

    fn from(refusal: FetchRefusal) -> Self {
        match refusal {
            FetchRefusal::SystemRom(address) => WordRefusal::SystemRom(address),
            FetchRefusal::EmptyPage(address) => WordRefusal::EmptyPage(address),
        }
    }
}

impl From<ReadOnly> for WordRefusal {
    ghost from_gives = { λ own refusal. refusal ≡ of_write own };

    fn from(refusal: ReadOnly) -> Self {
        WordRefusal::ReadOnly(refusal.address)
    }
}
