//! Fetches words from the pages, and executes the words that read and write the pages.

ghost use Rattle.std.specs.Prelude.{◌≡◌, ◌≤◌, IfOk, OnOk, OnErr};
ghost use Rattle.std.specs.Result.{result_err};
ghost use Rattle.h41_pages.specs.Addresses.{first_address};
ghost use Rattle.h41_nut.specs.PageWords.{word_at, system_refusal, word_or_zero};
ghost use Rattle.h41_nut.specs.MemoryWords as spec;
ghost use Rattle.h41_nut.specs.private.ProcessorSteps.{FetchesWord, WritesWord};

use crate::cpu::Cpu;
use crate::refusal::WordRefusal;
use h41_pages::{FetchRefusal, Pages};
use h41_words::Word;

/// Returns the word at an address. The errors are SystemRom (08) in pages 0 to 3, and EmptyPage (09) if the active bank
/// of the address's page is not plugged.
#[inline(always)]
pub fn fetch(pages: &Pages, address: u16) -> Result<Word, WordRefusal>
    ensures word { result ≡ word_at pages.now address }
    ensures held { OnOk result (first_address ≤ address) }
{
    Ok(pages.fetch(address)?)
}

/// Executes `WROM`: writes the low ten bits of the digits 2 to 0 of C to the address in the digits 6 to 3 of C. The
/// error is ReadOnly (12) if the active bank of that address's page is not plugged as writable; otherwise SystemRom
/// (08) if the next address is 0000. Nothing changes then.
pub fn write_rom(cpu: &mut Cpu, pages: &mut Pages) -> Result<(), WordRefusal>
    requires { first_address ≤ cpu.old.pc }
    ensures processor { WritesWord pages.old cpu.old cpu.new result }
    ensures written { OnOk result (pages.new ≡ spec.with_word_written pages.old cpu.old) }
    ensures unchanged { OnErr result (pages.new ≡ pages.old) }
{
    let address = cpu.address_in_c();
    pages.check_writable(address)?;
    let word = Word::new(cpu.word_in_c()).unwrap();
    cpu.go_on()?;
    pages.write(address, word)?;
    Ok(())
}

/// Executes `FETCH S&X`: copies the word at the address in the digits 6 to 3 of C to the digits 2 to 0 of C, or 000 if
/// the active bank of its page is not plugged (this project's choice). The error is SystemRom (08) if that address is
/// in pages 0 to 3, or if the next address is 0000.
#[tactic(auto, unfolding(h41_pages::specs::PageMap::fetched))]
pub fn fetch_word(cpu: &mut Cpu, pages: &Pages) -> Result<(), WordRefusal>
    requires { first_address ≤ cpu.old.pc }
    ensures { FetchesWord pages.now cpu.old cpu.new result }
{
    match pages.fetch(cpu.address_in_c()) {
        Ok(word) => cpu.load_word(word),
        Err(FetchRefusal::EmptyPage(_)) => cpu.load_word(Word::new(0).unwrap()),
        Err(refusal) => Err(refusal.into()),
    }
}
