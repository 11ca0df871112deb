//! The banks of a page: up to four images, of which one is active, that is, read and written.

ghost use Rattle.std.specs.Prelude.{◌≡◌, ◌<◌};
ghost use Rattle.h41_pages.specs.PageMap as spec;
ghost use Rattle.h41_pages.specs.private.AddressSpace.{space_size, word_place};

use crate::addresses::{PAGE_WORDS, PAGES, is_pluggable};
use h41_words::Bank;
use std::marker::Model;

/// The number of banks of a page, 4.
pub const BANKS: usize = 4;

/// The number of words in one bank of all pages, 65,536: one for each address.
pub const BANK_WORDS: usize = PAGES * PAGE_WORDS;

/// Returns whether a page and a bank are supported: pages 4 to F, banks 1 to 4 (this project's choice).
pub fn is_held(page: u8, bank: u8) -> bool
    ensures { result ≡ spec.is_held page bank }
{
    is_pluggable(page) && (1..=4).contains(&bank)
}

/// Returns the bank with a number from 1 to 4. Any other number returns bank 4.
pub fn bank_numbered(number: u8) -> Bank
    ensures { result ≡ spec.bank_numbered number }
{
    match number {
        1 => Bank::First,
        2 => Bank::Second,
        3 => Bank::Third,
        _ => Bank::Fourth,
    }
}

/// Returns the index, 0 to 3, of a bank among the banks of its page.
#[inline(always)]
pub fn bank_place(bank: Bank) -> usize
    ensures place { result ≡ spec.bank_place bank }
    ensures bound { result < 4 }
{
    match bank {
        Bank::First => 0,
        Bank::Second => 1,
        Bank::Third => 2,
        Bank::Fourth => 3,
    }
}

/// A bank of all pages, 1 to 4, stored as the position of its first word in the list of the words of all banks, so that
/// a fetch only has to add the address.
#[derive(Clone, Copy)]
pub struct ChosenBank {
    start: usize,
}

impl Model for ChosenBank {
    ghost use Rattle.std.specs.Prelude.{◌≡◌};
    ghost use Rattle.h41_words.specs.declared.rows.Bank.{Bank};
    ghost use Rattle.h41_pages.specs.private.AddressSpace.{bank_from, bank_start};

    ghost Value = { Bank };

    ghost view = { λ chosen. bank_from chosen.start };

    ghost invariant = { λ chosen. chosen.start ≡ bank_start (bank_from chosen.start) };

    ghost inverse = { λ bank. record { start = bank_start bank } };
}

impl ChosenBank {
    /// Returns the representation of a bank by the position of its first word in the list of the words of all banks.
    pub fn of(bank: Bank) -> Self
        ensures { result ≡ bank }
    {
        let start = match bank {
            Bank::First => 0,
            Bank::Second => BANK_WORDS,
            Bank::Third => 2 * BANK_WORDS,
            Bank::Fourth => 3 * BANK_WORDS,
        };
        ChosenBank { start }
    }

    /// Returns the bank, 1 to 4, that is represented by the position of its first word.
    pub fn bank(self) -> Bank
        ensures { result ≡ self }
    {
        match self.start / BANK_WORDS {
            0 => Bank::First,
            1 => Bank::Second,
            2 => Bank::Third,
            _ => Bank::Fourth,
        }
    }

    /// Returns the position, in the list of the words of all banks, of the word at an address, 0000 to FFFF, of this
    /// bank.
    #[inline(always)]
    pub fn word_place(self, address: u16) -> usize
        ensures place { result ≡ word_place self address }
        ensures bound { result < space_size }
    {
        self.start + usize::from(address)
    }
}
