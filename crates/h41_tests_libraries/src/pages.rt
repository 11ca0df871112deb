//! Tests of h41_pages: the functions of a module, images that are plugged and unplugged, and banks.

use crate::judge::wants;
use h41_pages::{Entry, FetchRefusal, Pages, PlugRefusal, UnplugRefusal, image_read};
use h41_words::{Bank, Word};
use std::test::Fail;

/// The first 17 words of a module with the number 5 and the functions KIT and KILL. All other words of its page are 0.
const MODULE: [u16; 17] = [
    0x005, 0x002, 0x000, 0x00B, 0x000, 0x010, 0x000, 0x000, 0x094, 0x009, 0x00B, 0x3E0, 0x08C,
    0x00C, 0x009, 0x00B, 0x3E0,
];

/// Returns the 4,096 words of a page with a module that has the functions KIT and KILL.
fn module() -> [u16; 4096] {
    let mut words = [0; 4096];
    for (place, word) in MODULE.iter().enumerate() {
        words[place] = *word;
    }
    words
}

#[test]
fn functions_of_a_module(rt: HostRuntime) -> Result<(), Fail> {
    let mut pages = Pages::new(rt.alloc())?;
    pages.plug(rt.alloc(), 9, 1, false, &module())?;
    pages.plug(rt.alloc(), 8, 1, true, &[0; 4096])?;
    for (name, number) in [("KIT", Some((5, 0))), ("KILL", Some((5, 1))), ("KI", None)] {
        wants(&rt, name, pages.find(name.as_bytes()) == number);
    }
    let entry = Entry {
        address: 0x9010,
        keystroke: false,
    };
    wants(&rt, "the entry of 05,01", pages.entry(5, 1) == Some(entry));
    wants(&rt, "no entry of 05,02", pages.entry(5, 2).is_none());
    let functions = pages.functions(rt.alloc())?;
    wants(&rt, "two functions", functions.len() == 2);
    let name = functions[1].name.as_ref().ok_or("a name")?;
    wants(
        &rt,
        "the second name",
        name.as_bytes() == b"KILL".as_slice(),
    );
    Ok(())
}

#[test]
fn images_come_and_go(rt: HostRuntime) -> Result<(), Fail> {
    let mut pages = Pages::new(rt.alloc())?;
    pages.plug(rt.alloc(), 8, 1, true, &module())?;
    let again = pages.plug(rt.alloc(), 8, 1, true, &module());
    wants(&rt, "a page twice", again == Err(PlugRefusal::Occupied));
    let bytes = pages.image_write(rt.alloc(), 8, 1)?;
    let first = [0x00, 0x05, 0x00, 0x02, 0x00, 0x00, 0x00, 0x0B];
    wants(&rt, "the bytes of an image", bytes.len() == 8192);
    wants(&rt, "the first bytes", bytes.as_slice().starts_with(&first));
    let words = image_read(rt.alloc(), &bytes)?;
    wants(&rt, "read again", words.as_slice() == module().as_slice());
    let cut = image_read(rt.alloc(), &bytes[1..]);
    wants(&rt, "a byte less", cut.is_err());
    pages.write(0x8010, Word::new(0x3FF).ok_or("a word")?)?;
    wants(&rt, "written", pages.fetch(0x8010)?.number() == 0x3FF);
    pages.unplug(8)?;
    let unplugged = pages.unplug(8);
    wants(
        &rt,
        "unplugged",
        unplugged == Err(UnplugRefusal::NotPlugged),
    );
    let fetched = pages.fetch(0x8010);
    wants(
        &rt,
        "fetched",
        fetched == Err(FetchRefusal::EmptyPage(0x8010)),
    );
    Ok(())
}

/// Returns the 4,096 words of a page, all of which are `word`.
fn filled(word: u16) -> [u16; 4096] {
    [word; 4096]
}

#[test]
fn banks_keep_their_own_words(rt: HostRuntime) -> Result<(), Fail> {
    let mut pages = Pages::new(rt.alloc())?;
    for bank in 1..5 {
        pages.plug(rt.alloc(), 8, bank, bank == 2, &filled(u16::from(bank)))?;
    }
    for bank in [0, 5, 255] {
        let plugged = pages.plug(rt.alloc(), 9, bank, true, &filled(0));
        wants(&rt, "no such bank", plugged == Err(PlugRefusal::NoSuchPage));
    }
    for (bank, word) in [
        (Bank::Third, 3),
        (Bank::Fourth, 4),
        (Bank::First, 1),
        (Bank::Second, 2),
    ] {
        pages.choose(8, bank);
        wants(&rt, "of the bank", pages.fetch(0x8FFF)?.number() == word);
    }
    pages.write(0x8FFF, Word::new(0x3FF).ok_or("a word")?)?;
    for (bank, last) in [(1, 1), (2, 0xFF), (3, 3), (4, 4)] {
        let bytes = pages.image_write(rt.alloc(), 8, bank)?;
        wants(&rt, "its last word", bytes[8191] == last);
    }
    pages.choose(8, Bank::First);
    let written = pages.write(0x8000, Word::new(0).ok_or("a word")?);
    wants(&rt, "bank 1 is read alone", written.is_err());
    Ok(())
}

#[test]
fn banks_come_and_go(rt: HostRuntime) -> Result<(), Fail> {
    let mut pages = Pages::new(rt.alloc())?;
    pages.plug(rt.alloc(), 8, 2, false, &module())?;
    wants(&rt, "no function of bank 2", pages.find(b"KIT").is_none());
    wants(&rt, "bank 1 is chosen", pages.fetch(0x8000).is_err());
    pages.choose(8, Bank::Second);
    wants(&rt, "bank 2 is read", pages.fetch(0x8000)?.number() == 5);
    pages.plug(rt.alloc(), 8, 1, false, &module())?;
    pages.choose(8, Bank::Fourth);
    wants(&rt, "bank 2 stays", pages.fetch(0x8000)?.number() == 5);
    wants(&rt, "bank 1 is found", pages.find(b"KIT") == Some((5, 0)));
    pages.unplug(8)?;
    wants(
        &rt,
        "all are out",
        pages.image_write(rt.alloc(), 8, 1).is_err(),
    );
    wants(&rt, "and not read", pages.fetch(0x8000).is_err());
    pages.plug(rt.alloc(), 8, 2, false, &module())?;
    wants(&rt, "bank 1 again", pages.fetch(0x8000).is_err());
    pages.choose(8, Bank::Second);
    pages.choose_first_banks();
    wants(&rt, "bank 1 of each", pages.fetch(0x8000).is_err());
    Ok(())
}
