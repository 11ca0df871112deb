//! The reasons why calls on pages are refused. A refused call changes nothing. The numbers are those with which decks print
//! refusals.

ghost use Rattle.std.specs.Prelude.{◌≡◌};
ghost use Rattle.h41_pages.specs.declared.refusal.PlugRefusal.TheVariants as plug;
ghost use Rattle.h41_pages.specs.declared.refusal.ReadRefusal.TheVariants as read;
ghost use Rattle.h41_pages.specs.declared.refusal.ImageRefusal.TheVariants as image;

use std::alloc::AllocError;
use thiserror::Error;

/// The reasons why `Pages::plug` did not plug words: NoSuchPage (01), Occupied (02), BadImage (04) or OutOfMemory (21).
#[derive(Clone, Copy, Debug, PartialEq, Eq, Error)]
pub enum PlugRefusal {
    /// NoSuchPage (01): the page is not 4 to F, or the bank is not 1 to 4.
    #[error("there is no such page")]
    NoSuchPage,
    /// Occupied (02): the bank of the page is already plugged.
    #[error("the page is plugged")]
    Occupied,
    /// BadImage (04): there are not 4,096 words, or one is above 3FF.
    #[error("this is no image of a page")]
    BadImage,
    /// OutOfMemory (21): allocation failed.
    #[error("out of memory")]
    OutOfMemory,
}

/// The reasons why `Pages::unplug` did not unplug a page: NoSuchPage (01) or NotPlugged (03).
#[derive(Clone, Copy, Debug, PartialEq, Eq, Error)]
pub enum UnplugRefusal {
    /// NoSuchPage (01): the page is not 4 to F.
    #[error("there is no such page")]
    NoSuchPage,
    /// NotPlugged (03): no bank of the page is plugged.
    #[error("the page is not plugged")]
    NotPlugged,
}

/// The reasons why no word was fetched from an address: SystemRom (08) or EmptyPage (09).
#[derive(Clone, Copy, Debug, PartialEq, Eq, Error)]
pub enum FetchRefusal {
    /// SystemRom (08): this address is in pages 0 to 3, which belong to the system's ROM.
    #[error("{0:04X} lies in the system's ROM")]
    SystemRom(u16),
    /// EmptyPage (09): the active bank of this address's page is not plugged.
    #[error("no page is plugged at {0:04X}")]
    EmptyPage(u16),
}

/// ReadOnly (12): no word was written, because the active bank of this address's page is not plugged as writable.
#[derive(Clone, Copy, Debug, PartialEq, Eq, Error)]
#[error("{address:04X} can't be written")]
pub struct ReadOnly {
    /// The address that was to be written.
    pub address: u16,
}

/// The reasons why `image_read` did not read bytes as an image: BadImage (04) or OutOfMemory (21).
#[derive(Clone, Copy, Debug, PartialEq, Eq, Error)]
pub enum ReadRefusal {
    /// BadImage (04): there are not 8,192 bytes, or a word is above 3FF.
    #[error("this is no image of a page")]
    BadImage,
    /// OutOfMemory (21): allocation failed.
    #[error("out of memory")]
    OutOfMemory,
}

/// The reasons why `Pages::image_write` did not return the bytes of an image: NoSuchPage (01), NotPlugged (03) or
/// OutOfMemory (21).
#[derive(Clone, Copy, Debug, PartialEq, Eq, Error)]
pub enum ImageRefusal {
    /// NoSuchPage (01): the page is not 4 to F, or the bank is not 1 to 4.
    #[error("there is no such page")]
    NoSuchPage,
    /// NotPlugged (03): the bank of the page is not plugged.
    #[error("the page is not plugged")]
    NotPlugged,
    /// OutOfMemory (21): allocation failed.
    #[error("out of memory")]
    OutOfMemory,
}

impl From<AllocError> for PlugRefusal {
    ghost from_gives = { λ _ refusal. refusal ≡ plug.OutOfMemory };

    fn from(_error: AllocError) -> Self {
        PlugRefusal::OutOfMemory
    }
}

impl From<AllocError> for ReadRefusal {
    ghost from_gives = { λ _ refusal. refusal ≡ read.OutOfMemory };

    fn from(_error: AllocError) -> Self {
        ReadRefusal::OutOfMemory
    }
}

impl From<AllocError> for ImageRefusal {
    ghost from_gives = { λ _ refusal. refusal ≡ image.OutOfMemory };

    fn from(_error: AllocError) -> Self {
        ImageRefusal::OutOfMemory
    }
}
