//! Images as bytes, as files contain them: two bytes for each word, the high byte first.

ghost use Rattle.std.specs.Prelude.{◌≡◌, ◌+◌, ◌*◌, ◌≤◌, ◌<◌, None, IfOk, IfErr, OnOk, IsTrue, All};
ghost use Rattle.std.specs.Prelude.{length, vec_len};
ghost use Rattle.h41_words.specs.Counts.{word_count};
ghost use Rattle.h41_pages.specs.Addresses.{page_size};
ghost use Rattle.h41_pages.specs.Images as spec;

use crate::addresses::PAGE_WORDS;
use crate::banks::{bank_numbered, is_held};
use crate::image::Image;
use crate::pages::Pages;
use crate::refusal::{ImageRefusal, ReadRefusal};
use byteorder::{BigEndian, ByteOrder};
use h41_words::Word;
use std::alloc::{AllocError, Global};

/// The number of bytes of an image: 8,192, two for each of the 4,096 words.
const IMAGE_BYTES: usize = 2 * PAGE_WORDS;

/// Returns the 4,096 words of an image that is given as 8,192 bytes, two for each word, the high byte first. The
/// errors, in this order: BadImage (04) if there are not 8,192 bytes or a word is above 3FF, OutOfMemory (21) if
/// allocation fails.
pub fn image_read(alloc: Global, bytes: &[u8]) -> Result<Vec<u16>, ReadRefusal>
    ensures accepted { OnOk result (spec.read_refusal bytes.now ≡ None) }
    ensures words { IfOk result (λ words. words.items ≡ spec.words_in bytes.now) }
    ensures refusal { IfErr result (spec.RefusesRead bytes.now) }
{
    if !is_image_bytes(bytes) {
        return Err(ReadRefusal::BadImage);
    }
    Ok(words_in(alloc, bytes)?)
}

/// Returns the 4,096 words that 8,192 bytes form, two bytes for each word, the high byte first. The only error is
/// `AllocError`, if allocation fails.
fn words_in(alloc: Global, bytes: &[u8]) -> Result<Vec<u16>, AllocError>
    requires { length bytes.now ≡ spec.image_size }
    ensures { IfOk result (λ words. words.items ≡ spec.words_in bytes.now) }
{
    let mut words = Vec::with_capacity(alloc, PAGE_WORDS)?;
    for offset in 0..PAGE_WORDS {
        words.push(word_from(bytes, 2 * offset))?;
    }
    Ok(words)
}

/// Returns whether bytes are those of an image: 8,192 bytes, two for each word with the high byte first, and no word
/// above 3FF.
pub fn is_image_bytes(bytes: &[u8]) -> bool
    ensures test { result ≡ spec.is_image_bytes bytes.now }
    ensures size { IsTrue result → length bytes.now ≡ spec.image_size }
{
    bytes.len() == IMAGE_BYTES && all_fit(bytes)
}

/// Returns whether none of the 4,096 words that 8,192 bytes form is above 3FF.
fn all_fit(bytes: &[u8]) -> bool
    requires { length bytes.now ≡ spec.image_size }
    ensures { result ≡ spec.all_fit bytes.now }
{
    for offset in 0..PAGE_WORDS {
        if word_from(bytes, 2 * offset) > 0x3FF {
            return false;
        }
    }
    true
}

/// Returns the number, 0000 to FFFF, that two bytes form, the high byte first. `place` is the index of the high byte.
fn word_from(bytes: &[u8], place: usize) -> u16
    requires { place + 1 < length bytes.now }
    ensures { result ≡ spec.word_from bytes.now place }
{
    BigEndian::read_u16(&bytes[place..])
}

impl Pages {
    /// Returns the 8,192 bytes of the image of a bank of a page, two for each word, the high byte first. The errors, in
    /// this order: NoSuchPage (01) if the page is not 4 to F or the bank is not 1 to 4 (this project's choice),
    /// NotPlugged (03) if the bank is not plugged, OutOfMemory (21) if allocation fails.
    pub fn image_write(&self, alloc: Global, page: u8, bank: u8) -> Result<Vec<u8>, ImageRefusal>
        ensures accepted { OnOk result (spec.image_refusal self.now page bank ≡ None) }
        ensures bytes { IfOk result (λ bytes. spec.IsImageAt self.now page bank bytes.items) }
        ensures size { IfOk result (λ bytes. vec_len bytes ≡ spec.image_size) }
        ensures refusal { IfErr result (spec.RefusesImage self.now page bank) }
    {
        if !is_held(page, bank) {
            return Err(ImageRefusal::NoSuchPage);
        }
        match self.image(usize::from(page), bank_numbered(bank)) {
            None => Err(ImageRefusal::NotPlugged),
            Some(image) => Ok(image.bytes(alloc)?),
        }
    }
}

impl Image {
    /// Returns the 8,192 bytes of the image, two for each word, the high byte first. The only error is `AllocError`, if
    /// allocation fails.
    fn bytes(&self, alloc: Global) -> Result<Vec<u8>, AllocError>
        ensures bytes { IfOk result (λ bytes. bytes.items ≡ spec.image_bytes self.now.words) }
        ensures size { IfOk result (λ bytes. vec_len bytes ≡ spec.image_size) }
    {
        bytes_of(alloc, self.words())
    }
}

/// Returns the bytes of words, two for each word, the high byte first. The only error is `AllocError`, if allocation
/// fails.
fn bytes_of(alloc: Global, words: &[Word]) -> Result<Vec<u8>, AllocError>
    ensures bytes { IfOk result (λ bytes. bytes.items ≡ spec.image_bytes words.now) }
    ensures size { IfOk result (λ bytes. vec_len bytes ≡ 2 * length words.now) }
{
    let mut bytes = Vec::with_capacity(alloc, IMAGE_BYTES)?;
    for word in words {
        bytes.extend_from_slice(&word_bytes(*word))?;
    }
    Ok(bytes)
}

/// Returns the two bytes of a word, the high byte first.
fn word_bytes(word: Word) -> [u8; 2]
    ensures { result ≡ spec.word_bytes word }
{
    let mut bytes = [0; 2];
    BigEndian::write_u16(&mut bytes, word.number());
    bytes
}
