//! The functions of modules. Word 0 of a page is its XROM number, word 1 the number of its table entries, and the table follows
//! with two words for each entry. All of this is read in bank 1.

ghost use Rattle.std.specs.Prelude.{◌≡◌, ◌<◌, ◌≤◌, ◌+◌, ◌++◌, find, option_map, IfOk, IfSome, OnOk};
ghost use Rattle.std.specs.Prelude.{All, Some, length, slice_index};
ghost use Rattle.h41_words.specs.Counts.{word_count};
ghost use Rattle.h41_pages.specs.private.AddedFunctions.{AddsAt, AddsOf};
ghost use Rattle.h41_pages.specs.Addresses.{page_size};
ghost use Rattle.h41_pages.specs.FunctionTables as spec;

use crate::addresses::{PAGE_WORDS, PAGES};
use crate::image::Image;
use crate::name::Name;
use crate::pages::Pages;
use arrayvec::ArrayVec;
use h41_words::{Bank, Word};
use std::alloc::{AllocError, Global};

/// The greatest XROM number of a module, 31.
const LAST_NUMBER: u16 = 31;

/// The greatest number of table entries of a page, 64.
const MOST_ENTRIES: u16 = 64;

/// The greatest number of characters of the name of a microcode function, 11.
const MICROCODE_NAME_LENGTH: usize = 11;

/// What a table entry of a module says about its function.
#[derive(Clone, Copy, Debug, PartialEq, Eq)]
pub struct Entry {
    /// The address of the function's first word: that of the page plus the offset in the entry.
    pub address: u16,
    /// Whether the function is a keystroke program; otherwise it is microcode.
    pub keystroke: bool,
}

/// A function of a plugged module, with its XROM number, its entry number and its name.
#[derive(Debug, Drop)]
pub struct ModuleFunction {
    /// The XROM number of its module, 1 to 31.
    pub number: u8,
    /// The number of its table entry, 0 to 63.
    pub entry: u8,
    /// The name of the function, if it has one.
    pub name: Option<Name>,
}

impl Pages {
    /// Returns the table entry with an XROM number and an entry number, in the lowest page with this XROM number.
    /// Returns `None` if there is no such page, or if the entry number is not below the page's number of entries. The
    /// number of entries is taken as 0 if it is above 64 or the XROM number is not 1 to 31 (this project's choice).
    pub fn entry(&self, number: u8, entry: u8) -> Option<Entry>
        ensures { result ≡ spec.entry_at self.now number entry }
    {
        let page = self.page_numbered(number)?;
        self.entry_of(page, entry)
    }

    /// Returns the table entry with an entry number of a page, 0 to 15, or `None` if bank 1 of the page is not plugged
    /// or the entry number is not below the page's number of entries.
    fn entry_of(&self, page: usize, entry: u8) -> Option<Entry>
        requires { page < 16 }
        ensures { result ≡ spec.entry_on self.now page entry }
    {
        match self.image(page, Bank::First) {
            None => None,
            Some(image) => image.entry(page, usize::from(entry)),
        }
    }

    /// Returns the lowest page, 0 to 15, that has an XROM number: word 0 of its bank 1 is this number. `None` if there
    /// is no such page.
    fn page_numbered(&self, number: u8) -> Option<usize>
        ensures page { result ≡ spec.page_numbered self.now number }
        ensures bound { IfSome result (λ page. page < 16) }
    {
        for page in 0..PAGES {
            if self.is_numbered(page, number) {
                return Some(page);
            }
        }
        None
    }

    /// Returns whether a page, 0 to 15, has an XROM number: whether its bank 1 is plugged and word 0 of it is this
    /// number.
    fn is_numbered(&self, page: usize, number: u8) -> bool
        requires { page < 16 }
        ensures { result ≡ spec.is_numbered number (spec.first_image self.now page) }
    {
        match self.image(page, Bank::First) {
            None => false,
            Some(image) => image.number() == u16::from(number),
        }
    }

    /// Returns the XROM number, 1 to 31, and the entry number, 0 to 63, of the first function whose name is `name`, in
    /// the order of the pages and then of their table entries. `None` if there is no such function.
    pub fn find(&self, name: &[u8]) -> Option<(u8, u8)>
        ensures found { result ≡ spec.function_of_name self.now name.now }
        ensures bound { IfSome result spec.AreNumbers }
    {
        for page in 0..PAGES {
            if let Some(numbers) = self.find_at(page, name) {
                return Some(numbers);
            }
        }
        None
    }

    /// Returns the XROM number, 1 to 31, and the number of the table entry, 0 to 63, of the first function of `page`, 0 to
    /// 15, whose name is `name`. The functions are in the order of their table entries. `None` if bank 1 of the page is
    /// not plugged or no function of it has the name.
    fn find_at(&self, page: usize, name: &[u8]) -> Option<(u8, u8)>
        requires { page < 16 }
        ensures found { result ≡ spec.found_in name.now (spec.functions_at self.now page) }
        ensures bound { IfSome result spec.AreNumbers }
    {
        match self.image(page, Bank::First) {
            None => None,
            Some(image) => image.find(name),
        }
    }

    /// Returns all functions of the plugged modules, in the order of the pages and then of their table entries. The
    /// only error is `AllocError`, if allocation fails.
    pub fn functions(&self, alloc: Global) -> Result<Vec<ModuleFunction>, AllocError>
        ensures { IfOk result (λ functions. functions.items ≡ spec.functions self.now) }
    {
        let mut functions = Vec::new(alloc);
        for page in 0..PAGES {
            self.add_functions_at(page, &mut functions)?;
        }
        Ok(functions)
    }

    /// Returns the offsets, 0 to 4,095, of the keystroke functions of a page, 0 to 15, in the order of the table
    /// entries in its bank 1. There are none if bank 1 is not plugged, or if the XROM number or the number of entries
    /// is out of range (this project's choice).
    pub fn keystroke_offsets(&self, page: usize) -> ArrayVec<u16, 64>
        requires { page < 16 }
        ensures offsets { result.items ≡ spec.keystroke_offsets self.now page }
        ensures bound { All (λ offset. offset < page_size) result.items }
    {
        match self.image(page, Bank::First) {
            None => ArrayVec::new(),
            Some(image) => image.keystroke_offsets(),
        }
    }

    /// Appends the functions of a page, 0 to 15, to a list, in the order of their table entries. The only error is
    /// `AllocError`, if allocation fails.
    fn add_functions_at(
        &self,
        page: usize,
        functions: &mut Vec<ModuleFunction>,
    ) -> Result<(), AllocError>
        requires { page < 16 }
        ensures { OnOk result (AddsAt self.now page functions.old.items functions.new.items) }
    {
        match self.image(page, Bank::First) {
            None => Ok(()),
            Some(image) => image.add_functions(functions),
        }
    }
}

impl Image {
    /// Returns word 0 of the image, 000 to 3FF. It is the XROM number if the image has functions.
    fn number(&self) -> u16
        ensures { result ≡ spec.number_in self.now.words }
    {
        self.word(0).number()
    }

    /// Returns the number of table entries, 0 to 64: word 1 of the image, or 0 if the XROM number is not 1 to 31 or
    /// word 1 is above 64.
    fn entry_count(&self) -> usize
        ensures count { result ≡ spec.entry_count self.now.words }
        ensures bound { result ≤ 64 }
    {
        let number = self.number();
        let count = self.word(1).number();
        if (1..=LAST_NUMBER).contains(&number) && count <= MOST_ENTRIES {
            usize::from(count)
        } else {
            0
        }
    }

    /// Returns whether the table entry with a number from 0 to 63 is that of a keystroke function: whether bit 9 of the
    /// entry's first word is set.
    fn is_keystroke(&self, entry: usize) -> bool
        requires { entry < 64 }
        ensures { result ≡ spec.is_keystroke self.now.words entry }
    {
        self.word(2 + 2 * entry).number() / 512 % 2 == 1
    }

    /// Returns the offset in the page, 0 to 4,095, of the function whose table entry has a number from 0 to 63.
    fn entry_offset(&self, entry: usize) -> usize
        requires { entry < 64 }
        ensures offset { result ≡ spec.entry_offset self.now.words entry }
        ensures bound { result < page_size }
    {
        let high = self.word(2 + 2 * entry).number() % 16;
        let low = self.word(3 + 2 * entry).number() % 256;
        usize::from(256 * high + low)
    }

    /// Returns the offsets in the page, 0 to 4,095, of the keystroke functions of the image, in the order of their
    /// table entries.
    fn keystroke_offsets(&self) -> ArrayVec<u16, 64>
        ensures offsets { result.items ≡ spec.keystroke_offsets_in self.now.words }
        ensures bound { All (λ offset. offset < page_size) result.items }
    {
        let mut offsets = ArrayVec::new();
        let count = self.entry_count();
        for entry in 0..count {
            if self.is_keystroke(entry) {
                offsets.push(self.entry_offset(entry) as u16);
            }
        }
        offsets
    }

    /// Returns the table entry with a number, for a page (0 to 15) that has this image. `None` if the number is not
    /// below the number of entries.
    fn entry(&self, page: usize, entry: usize) -> Option<Entry>
        requires { page < 16 }
        ensures { result ≡ spec.entry_of page entry self.now }
    {
        if entry >= self.entry_count() {
            return None;
        }
        Some(Entry {
            address: (page * PAGE_WORDS + self.entry_offset(entry)) as u16,
            keystroke: self.is_keystroke(entry),
        })
    }

    /// Returns the name of the microcode function at an offset, or `None` if there is none. The name ends directly
    /// before the function and is read backwards, one character from each word, up to the word that is marked as the
    /// last character. A name has at most 11 characters.
    fn name_before(&self, offset: usize) -> Option<Name>
        requires { offset < page_size }
        ensures { result ≡ spec.spelled_name (spec.words_before self.now.words offset) }
    {
        let mut name = Name::new();
        let count = offset.min(MICROCODE_NAME_LENGTH);
        for distance in 0..count {
            let word = self.word(offset - 1 - distance);
            name.push(character(word));
            if is_last(word) {
                return Some(name);
            }
        }
        None
    }

    /// Returns the name of the function whose table entry has a number from 0 to 63, or `None` if it has none. The name
    /// of a microcode function is in the words before it, that of a keystroke function is the name of the label with
    /// which it begins.
    fn entry_name(&self, entry: usize) -> Option<Name>
        requires { entry < 64 }
        ensures { result ≡ spec.entry_name self.now.words entry }
    {
        let offset = self.entry_offset(entry);
        if self.is_keystroke(entry) {
            self.label_name(offset)
        } else {
            self.name_before(offset)
        }
    }

    /// Returns whether the function whose table entry has a number from 0 to 63 has a name with exactly the bytes
    /// `name`.
    fn is_named(&self, entry: usize, name: &[u8]) -> bool
        requires { entry < 64 }
        ensures { result ≡ spec.is_named name.now (spec.function_in self.now.words entry) }
    {
        match self.entry_name(entry) {
            None => false,
            Some(own) => own.is(name),
        }
    }

    /// Returns the XROM number, the entry number and the name, if any, of the function whose table entry has this
    /// number. The number must be below that of the table entries.
    fn function(&self, entry: usize) -> ModuleFunction
        requires { entry < spec.entry_count self.now.words }
        ensures { result ≡ spec.function_in self.now.words entry }
    {
        let _count = self.entry_count();
        ModuleFunction {
            number: self.number() as u8,
            entry: entry as u8,
            name: self.entry_name(entry),
        }
    }

    /// Returns the XROM number, 1 to 31, and the entry number, 0 to 63, of the first function of the image with a name,
    /// in the order of the table entries. `None` if there is none.
    fn find(&self, name: &[u8]) -> Option<(u8, u8)>
        ensures found { result ≡ spec.found_in name.now (spec.functions_of self.now.words) }
        ensures bound { IfSome result spec.AreNumbers }
    {
        let count = self.entry_count();
        for entry in 0..count {
            if self.is_named(entry, name) {
                return Some((self.number() as u8, entry as u8));
            }
        }
        None
    }

    /// Appends the functions of the image to a list, in the order of their table entries. The only error is
    /// `AllocError`, if allocation fails.
    fn add_functions(&self, functions: &mut Vec<ModuleFunction>) -> Result<(), AllocError>
        ensures { OnOk result (AddsOf self.now.words functions.old.items functions.new.items) }
    {
        let count = self.entry_count();
        for entry in 0..count {
            functions.push(self.function(entry))?;
        }
        Ok(())
    }
}

/// Returns the character, 20 to 5F, of a word of a microcode function's name. Its code modulo 64 is in the low six bits
/// of the word.
fn character(word: Word) -> u8
    ensures { result ≡ spec.character word }
{
    let code = (word.number() % 64) as u8;
    if code < 0x20 { code + 0x40 } else { code }
}

/// Returns whether a word of a microcode function's name is marked as the last character: whether bit 7 of the word is
/// set.
fn is_last(word: Word) -> bool
    ensures { result ≡ spec.is_last word }
{
    word.number() / 128 % 2 == 1
}
