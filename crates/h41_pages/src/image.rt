//! The image of one bank of a page: its 4,096 words, and a copy of the keystroke code in them.

ghost use Rattle.std.specs.Prelude.{◌≡◌, ◌<◌, IfOk, IsFalse, IsTrue, All, length, option_map};
ghost use Rattle.std.specs.Prelude.{slice_index, slice_set};
ghost use Rattle.std.specs.List.{list_all};
ghost use Rattle.std.specs.Prelude.{nat_le};
ghost use Rattle.h41_words.specs.Counts.{word_count};
ghost use Rattle.h41_pages.specs.Addresses.{page_size};
ghost use Rattle.h41_pages.specs.KeystrokeCode.{code_byte, code_from};
ghost use Rattle.h41_pages.specs.PageMap.{is_image, is_writable, with_word};

use crate::addresses::PAGE_WORDS;
use h41_words::Word;
use std::alloc::{AllocError, Global};
use std::marker::Model;

/// The 4,096 ten-bit words of a bank of a page, and whether microcode can write them.
#[derive(Drop)]
pub struct Image {
    words: Vec<Word>,
    /// The keystroke code: the low byte of each word.
    code: Vec<u8>,
    writable: bool,
}

impl Model for Image {
    ghost use Rattle.std.specs.Prelude.{◌≡◌, vec_len};
    ghost use Rattle.h41_pages.specs.Addresses.{page_size};
    ghost use Rattle.h41_pages.specs.KeystrokeCode.{code_from};
    ghost use Rattle.h41_pages.specs.PageMap.{PageImage};

    ghost Value = { PageImage };

    ghost view = { λ image. record { words = image.words.items; writable = image.writable } };

    ghost invariant = { λ image.
        (vec_len image.words ≡ page_size) × (image.code.items ≡ code_from image.words.items 0) };
}

impl Image {
    /// Returns the image with 4,096 words, none of which may be above 3FF; `writable` says whether microcode can write
    /// them. The only error is `AllocError`, if allocation fails.
    pub fn new(alloc: Global, writable: bool, words: &[u16]) -> Result<Self, AllocError>
        requires size { length words.now ≡ page_size }
        requires each { All (λ word. word < word_count) words.now }
        ensures { IfOk result (λ image. image ≡ record { words = words.now; writable = writable }) }
    {
        let mut image = Vec::with_capacity(alloc, PAGE_WORDS)?;
        let mut code = Vec::with_capacity(alloc, PAGE_WORDS)?;
        for number in words {
            let word = Word::new(*number).unwrap();
            image.push(word)?;
            code.push(code_byte(word))?;
        }
        Ok(Image {
            words: image,
            code,
            writable,
        })
    }

    /// Returns the 4,096 words of the image, in the order of their offsets.
    pub fn words(&self) -> &[Word]
        ensures words { result.now ≡ self.now.words }
        ensures size { length result.now ≡ page_size }
    {
        self.words.as_slice()
    }

    /// Returns the keystroke code of the image: the low byte of each of its 4,096 words, in the order of their offsets.
    pub fn code(&self) -> &[u8]
        ensures code { result.now ≡ code_from self.now.words 0 }
        ensures size { length result.now ≡ page_size }
    {
        self.code.as_slice()
    }

    /// Returns the word of the image at an offset from 0 to 4,095.
    pub fn word(&self, offset: usize) -> Word
        requires { offset < page_size }
        ensures { result ≡ slice_index self.now.words offset }
    {
        self.words[offset]
    }

    /// Returns whether microcode can write the words of the image.
    pub fn is_writable(&self) -> bool
        ensures { result ≡ self.now.writable }
    {
        self.writable
    }

    /// Writes the word of the image at an offset from 0 to 4,095, whether the image is writable or not.
    pub fn write(&mut self, offset: usize, word: Word)
        requires { offset < page_size }
        ensures one { self.new ≡ record self.old { words = slice_set self.old.words offset word } }
        ensures word { word < word_count }
    {
        let _number = word.number();
        self.words[offset] = word;
        self.code[offset] = code_byte(word);
    }
}

/// Writes a word at an offset from 0 to 4,095 of an image if there is one and it is writable, and returns whether the
/// word was written.
#[inline(always)]
pub fn write_plugged(image: &mut Option<Image>, offset: usize, word: Word) -> bool
    requires { offset < page_size }
    ensures writable { result ≡ is_writable image.old }
    ensures word { word < word_count }
    ensures written { IsTrue result → image.new ≡ option_map (with_word offset word) image.old }
    ensures unchanged { IsFalse result → image.new ≡ image.old }
{
    match image {
        Some(image) if image.is_writable() => {
            image.write(offset, word);
            true
        }
        _ => false,
    }
}

/// Returns the byte of keystroke code in a word: its low eight bits.
fn code_byte(word: Word) -> u8
    ensures { result ≡ code_byte word }
{
    (word.number() % 256) as u8
}

/// Returns whether words can be the image of a bank: 4,096 words, none above 3FF.
pub fn is_image(words: &[u16]) -> bool
    ensures test { result ≡ is_image words.now }
    ensures size { IsTrue result → length words.now ≡ page_size }
    ensures each { IsTrue result → All (λ word. word < word_count) words.now }
{
    words.len() == PAGE_WORDS && all_fit(words)
}

/// Returns whether none of the given words is above 3FF, so that each fits into ten bits.
fn all_fit(words: &[u16]) -> bool
    ensures test { result ≡ list_all (λ word. nat_le word 0x3FF) words.now }
    ensures each { IsTrue result → All (λ word. word < word_count) words.now }
{
    words.iter().all(|word| *word <= 0x3FF)
}
