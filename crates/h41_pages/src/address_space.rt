//! The words of all banks as one list, one bank after the other, so that a word is fetched with one index and a bank is activated
//! with one write.

ghost use Rattle.std.specs.Prelude.{◌≡◌, ◌<◌, ◌↔◌, IsSome, IfSome, IfOk, length};
ghost use Rattle.std.specs.Prelude.{slice_index, slice_set};
ghost use Rattle.h41_words.specs.Counts.{word_count};
ghost use Rattle.h41_pages.specs.Addresses.{page_count, page_size};
ghost use Rattle.h41_pages.specs.private.AddressSpace as spec;

use crate::addresses::{PAGE_WORDS, PAGES};
use crate::banks::{BANK_WORDS, BANKS, ChosenBank, bank_place};
use h41_words::{Bank, Word};
use std::alloc::{AllocError, Global};
use std::marker::Model;

/// The number of words in all four banks of the address space, 262,144.
const WORDS: usize = BANKS * BANK_WORDS;

/// The number that is stored for an address without a word: 400 (hexadecimal), the first number above all ten-bit
/// words.
const NOTHING: u16 = 0x400;

/// The ten-bit word at each address of each of the four banks, if there is one.
#[derive(Drop)]
pub struct AddressSpace {
    numbers: Vec<u16>,
}

impl Model for AddressSpace {
    ghost use Rattle.std.specs.Prelude.{◌≡◌, ℕ, List, vec_len};
    ghost use Rattle.h41_pages.specs.private.AddressSpace.{space_size};

    ghost Value = { List ℕ };

    ghost view = { λ space. space.numbers.items };

    ghost invariant = { λ space. vec_len space.numbers ≡ space_size };
}

impl AddressSpace {
    /// Returns an address space without words. The only error is `AllocError`, if allocation fails.
    pub fn new(alloc: Global) -> Result<Self, AllocError>
        ensures { IfOk result (λ space. space ≡ spec.empty_space) }
    {
        let mut numbers = Vec::new(alloc);
        numbers.resize(WORDS, NOTHING)?;
        Ok(AddressSpace { numbers })
    }

    /// Returns the word at an address, 0000 to FFFF, of a bank, or `None` if there is none.
    #[inline(always)]
    pub fn word(&self, bank: ChosenBank, address: u16) -> Option<Word>
        ensures fits { IsSome result
            ↔ (slice_index self.now (spec.word_place bank address) < word_count) }
        ensures value { IfSome result
            (λ word. word ≡ slice_index self.now (spec.word_place bank address)) }
    {
        Word::new(self.numbers[bank.word_place(address)])
    }

    /// Writes a word at an address, 0000 to FFFF, of a bank.
    pub fn set(&mut self, bank: Bank, address: u16, word: Word)
        ensures { self.new ≡ slice_set self.old (spec.word_place bank address) word }
    {
        self.numbers[ChosenBank::of(bank).word_place(address)] = word.number();
    }

    /// Writes the 4,096 words of a bank of a page, 0 to 15.
    pub fn put(&mut self, bank: Bank, page: usize, words: &[u16])
        requires page { page < page_count }
        requires size { length words.now ≡ page_size }
        ensures { self.new ≡ spec.with_page self.old (spec.page_place bank page) words.now }
    {
        let start = (bank_place(bank) * PAGES + page) * PAGE_WORDS;
        self.numbers[start..start + PAGE_WORDS].copy_from_slice(words);
    }

    /// Removes the words of all banks of a page, 0 to 15.
    pub fn clear(&mut self, page: usize)
        requires { page < page_count }
        ensures { self.new ≡ spec.without_page self.old page }
    {
        self.clear_bank(Bank::First, page);
        self.clear_bank(Bank::Second, page);
        self.clear_bank(Bank::Third, page);
        self.clear_bank(Bank::Fourth, page);
    }

    /// Removes the words of a bank of a page, 0 to 15.
    fn clear_bank(&mut self, bank: Bank, page: usize)
        requires { page < page_count }
        ensures { self.new ≡ spec.without_bank self.old bank page }
    {
        self.put(bank, page, &[NOTHING; PAGE_WORDS]);
    }
}
