//! The pages of the address space, and which images are plugged at them.

ghost use Rattle.std.specs.Prelude.{◌≡◌, ◌<◌, ◌≤◌, None, IfOk, IfErr, IfNone, OnOk, OnErr, All};
ghost use Rattle.std.specs.Prelude.{length, is_some, option_copied};
ghost use Rattle.std.specs.List.{list_any};
ghost use Rattle.std.specs.Result.{result_err};
ghost use Rattle.h41_words.specs.Counts.{word_count};
ghost use Rattle.h41_pages.specs.Addresses.{first_address, page_size};
ghost use Rattle.h41_pages.specs.FunctionTables.{code_of};
ghost use Rattle.h41_pages.specs.PageMap as spec;
ghost use Rattle.h41_pages.specs.PageMap.{with_page_image};

use crate::address_space::AddressSpace;
use crate::addresses::{FIRST_ADDRESS, PAGES, is_pluggable, offset_of, page_of};
use crate::banks::{BANKS, ChosenBank, bank_numbered, bank_place, is_held};
use crate::image::{Image, is_image, write_plugged};
use crate::refusal::{FetchRefusal, PlugRefusal, ReadOnly, UnplugRefusal};
use h41_words::{Bank, Word};
use std::alloc::{AllocError, Global};
use std::marker::Model;

/// The pages of the address space: sixteen pages of 4,096 words, each with four banks, of which one is active. Pages 4 to F can be
/// plugged, at banks 1 to 4.
#[derive(Drop)]
pub struct Pages {
    images: Vec<[Option<Image>; BANKS]>,
    chosen: [ChosenBank; PAGES],
    /// The word that is fetched at each address of each bank, if there is one.
    space: AddressSpace,
}

impl Model for Pages {
    ghost use Rattle.h41_pages.specs.PageMap.{PageMap};
    ghost use Rattle.h41_pages.specs.private.AddressSpace.{IsPages};

    ghost Value = { PageMap };

    ghost view = { λ all. record { images = all.images.items; chosen = all.chosen } };

    ghost invariant = { λ all.
        IsPages (record { images = all.images.items; chosen = all.chosen }) all.space };
}

impl Pages {
    /// Returns pages with nothing plugged, and bank 1 active everywhere. The only error is `AllocError`, if allocation fails.
    pub fn new(alloc: Global) -> Result<Self, AllocError>
        ensures { IfOk result (λ pages. pages ≡ spec.no_pages) }
    {
        Ok(Pages {
            images: no_images(alloc)?,
            chosen: [ChosenBank::of(Bank::First); PAGES],
            space: AddressSpace::new(alloc)?,
        })
    }

    /// Plugs 4,096 words at a bank of a page. The errors, in this order: NoSuchPage (01) if the page is not 4 to F or the bank is
    /// not 1 to 4 (this project's choice), Occupied (02) if the bank is already plugged, BadImage (04) if there are not 4,096 words
    /// or one is above 3FF, OutOfMemory (21) if allocation fails. After an error nothing has changed.
    pub fn plug(
        &mut self,
        alloc: Global,
        page: u8,
        bank: u8,
        writable: bool,
        words: &[u16],
    ) -> Result<(), PlugRefusal>
        ensures accepted { OnOk result (spec.plug_refusal self.old page bank words.now ≡ None) }
        ensures change { OnOk result (self.new
            ≡ with_page_image self.old page bank writable words.now) }
        ensures unchanged { OnErr result (self.new ≡ self.old) }
        ensures refusal { IfErr result (spec.RefusesPlug self.old page bank words.now) }
    {
        if let Some(refusal) = self.plug_refusal(page, bank, words) {
            return Err(refusal);
        }
        let image = Image::new(alloc, writable, words)?;
        let bank = bank_numbered(bank);
        self.images[usize::from(page)][bank_place(bank)] = Some(image);
        self.space.put(bank, usize::from(page), words);
        Ok(())
    }

    /// Returns the reason why words cannot be plugged at a bank of a page, or `None` if they can unless allocation
    /// fails. The reasons, in this order: NoSuchPage (01) if the page is not 4 to F or the bank is not 1 to 4, Occupied
    /// (02) if the bank is already plugged, BadImage (04) if there are not 4,096 words or one is above 3FF.
    fn plug_refusal(&self, page: u8, bank: u8, words: &[u16]) -> Option<PlugRefusal>
        ensures refusal { result ≡ spec.plug_refusal self.now page bank words.now }
        ensures page { IfNone result (page < 16) }
        ensures size { IfNone result (length words.now ≡ page_size) }
        ensures each { IfNone result (All (λ word. word < word_count) words.now) }
    {
        if !is_held(page, bank) {
            Some(PlugRefusal::NoSuchPage)
        } else if self.image(usize::from(page), bank_numbered(bank)).is_some() {
            Some(PlugRefusal::Occupied)
        } else if !is_image(words) {
            Some(PlugRefusal::BadImage)
        } else {
            None
        }
    }

    /// Unplugs all banks of a page, after which bank 1 is active. The errors: NoSuchPage (01) if the page is not 4 to
    /// F, NotPlugged (03) if none of its banks is plugged. After an error nothing has changed.
    pub fn unplug(&mut self, page: u8) -> Result<(), UnplugRefusal>
        ensures refusal { result_err result ≡ spec.unplug_refusal self.old page }
        ensures ok { OnOk result (self.new ≡ spec.without_images self.old page) }
        ensures unchanged { OnErr result (self.new ≡ self.old) }
    {
        if !is_pluggable(page) {
            return Err(UnplugRefusal::NoSuchPage);
        }
        let page = usize::from(page);
        if !is_any_plugged(&self.images[page]) {
            return Err(UnplugRefusal::NotPlugged);
        }
        self.images[page] = [None, None, None, None];
        self.chosen[page] = ChosenBank::of(Bank::First);
        self.space.clear(page);
        Ok(())
    }

    /// Activates a bank of a page, 0 to F: from now on, the words of this bank are read at the page's addresses. If the
    /// bank is not plugged, nothing changes (this project's choice). It is a cold function of its own, so that microcode
    /// words that activate no bank are faster.
    #[cold]
    #[inline(never)]
    pub fn choose(&mut self, page: u8, bank: Bank)
        requires { page < 16 }
        ensures { self.new ≡ spec.with_chosen self.old page bank }
    {
        let page = usize::from(page);
        if self.image(page, bank).is_some() {
            self.chosen[page] = ChosenBank::of(bank);
        }
    }

    /// Activates bank 1 of each of the 16 pages.
    pub fn choose_first_banks(&mut self)
        ensures { self.new ≡ spec.with_first_banks self.old }
    {
        let first = [ChosenBank::of(Bank::First); PAGES];
        self.chosen = first;
    }

    /// Returns the word at an address, in the active bank of its page. The errors: SystemRom (08) in pages 0 to 3, EmptyPage (09)
    /// if the active bank is not plugged. So there are words from address 4000 on only.
    #[tactic(auto, unfolding(crate::specs::PageMap::fetched))]
    #[inline(always)]
    pub fn fetch(&self, address: u16) -> Result<Word, FetchRefusal>
        ensures word { result ≡ spec.fetched self.now address }
        ensures held { OnOk result (first_address ≤ address) }
    {
        match self.space.word(self.chosen[page_of(address)], address) {
            Some(word) => Ok(word),
            None if address < FIRST_ADDRESS => Err(FetchRefusal::SystemRom(address)),
            None => Err(FetchRefusal::EmptyPage(address)),
        }
    }

    /// Returns the words from an address to the end of its page, in the active bank of the page. The errors: SystemRom (08) in
    /// pages 0 to 3, EmptyPage (09) if the active bank is not plugged.
    pub fn words_from(&self, address: u16) -> Result<&[Word], FetchRefusal>
        ensures refusal { result_err result ≡ spec.fetch_refusal self.now address }
        ensures words { IfOk result (λ words. words.now ≡ spec.words_from self.now address) }
    {
        self.fetch(address)?;
        match self.chosen_image(page_of(address)) {
            None => Ok(&[]),
            Some(image) => Ok(&image.words()[offset_of(address)..]),
        }
    }

    /// Returns the keystroke code of a page, 0 to 15: the low byte of each word of its bank 1, in the order of their
    /// offsets. It is empty if bank 1 is not plugged.
    pub fn code(&self, page: usize) -> &[u8]
        requires { page < 16 }
        ensures code { result.now ≡ code_of self.now page }
        ensures size { length result.now ≤ page_size }
    {
        match self.image(page, Bank::First) {
            None => &[],
            Some(image) => image.code(),
        }
    }

    /// Writes the word at an address, in the active bank of its page. The error is ReadOnly (12) if this bank is not plugged as
    /// writable; then nothing has changed.
    #[tactic(auto, unfolding(crate::specs::PageMap::written))]
    pub fn write(&mut self, address: u16, word: Word) -> Result<(), ReadOnly>
        ensures refusal { result_err result ≡ spec.write_refusal self.old address }
        ensures ok { OnOk result (self.new ≡ spec.written self.old address word) }
        ensures unchanged { OnErr result (self.new ≡ self.old) }
    {
        let page = page_of(address);
        let bank = self.chosen[page].bank();
        if !write_plugged(
            &mut self.images[page][bank_place(bank)],
            offset_of(address),
            word,
        ) {
            return Err(ReadOnly { address });
        }
        self.space.set(bank, address, word);
        Ok(())
    }

    /// Returns an error if the word at an address cannot be written: ReadOnly (12) if the active bank of its page is
    /// not plugged as writable.
    pub fn check_writable(&self, address: u16) -> Result<(), ReadOnly>
        ensures { result_err result ≡ spec.write_refusal self.now address }
    {
        match self.chosen_image(page_of(address)) {
            Some(image) if image.is_writable() => Ok(()),
            _ => Err(ReadOnly { address }),
        }
    }

    /// States what is true of all pages at any time: each plugged image has 4,096 words, none above 3FF, and its page
    /// and bank are supported.
    pub(crate) fn known(&self)
        ensures { spec.IsPageMap self.now }
    {
        let _images = &self.images;
    }

    /// Returns the image of a bank of a page, 0 to 15, or `None` if it is not plugged.
    pub(crate) fn image(&self, page: usize, bank: Bank) -> Option<&Image>
        requires { page < 16 }
        ensures { option_copied result ≡ spec.image_at self.now page bank }
    {
        self.images[page][bank_place(bank)].as_ref()
    }

    /// Returns the image of the active bank of a page, 0 to 15, or `None` if it is not plugged.
    #[inline(always)]
    fn chosen_image(&self, page: usize) -> Option<&Image>
        requires { page < 16 }
        ensures { option_copied result ≡ spec.chosen_image self.now page }
    {
        self.image(page, self.chosen[page].bank())
    }
}

/// Returns, for each of the 16 pages, four banks with nothing plugged. The only error is `AllocError`, if allocation
/// fails.
fn no_images(alloc: Global) -> Result<Vec<[Option<Image>; BANKS]>, AllocError>
    ensures { IfOk result (λ images. images.items ≡ spec.no_pages.images) }
{
    let mut images = Vec::with_capacity(alloc, PAGES)?;
    for _page in 0..PAGES {
        images.push([None, None, None, None])?;
    }
    Ok(images)
}

/// Returns whether any bank is plugged, among the images of a page's banks.
fn is_any_plugged(images: &[Option<Image>]) -> bool
    ensures { result ≡ list_any (λ image. is_some image) images.now }
{
    images.iter().any(|image| image.is_some())
}
