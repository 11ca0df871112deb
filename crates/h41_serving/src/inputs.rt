//! Assembles a source or lists words: the input is read completely before anything is written.

ghost use Rattle.std.specs.Prelude.{◌≡◌, false};
ghost use Rattle.h41_jobs.specs.Texts.{AssemblyEnds, AssemblyText, HasNoWrongWord};
ghost use Rattle.h41_jobs.specs.Texts.{IsNotRefused, ListingEnds, ListingText};
ghost use Rattle.h41_serving.specs.private.CarriedOut.{CarriesOutWhole};

use h41_ends::{Sink, Source};
use h41_jobs::{Ended, assembly, listing, read_input, write_answer};
use h41_refusals::Fault;
use std::alloc::Global;

/// Assembles the source that `reader` delivers, with its first word at the address `origin`, and writes its words or
/// its first error to `writer`. Returns whether an error was written.
///
/// # Errors
///
/// `ReadFault` (22), `WriteFault` (23) and `OutOfMemory` (21).
pub(crate) fn assemble_source<R: Source, W: Sink>(
    alloc: Global,
    origin: u16,
    reader: &mut R,
    writer: &mut W,
) -> Result<Ended, Fault>
    requires reader_clear { R.failed reader.old ≡ false }
    requires writer_clear { W.failed writer.old ≡ false }
    ensures { CarriesOutWhole (AssemblyText origin) (AssemblyEnds origin) HasNoWrongWord result
        R.Source W.Sink reader.old reader.new writer.old writer.new }
{
    let source = read_input(alloc, reader)?;
    let answer = assembly(alloc, &source, origin)?;
    Ok(write_answer(writer, &answer)?)
}

/// Reads the words of a program in microcode from `reader` and writes their listing to `writer`, a line for each word.
/// `origin` is the address of the first word. If a word is not a hexadecimal number up to 3FF, nothing is written, and
/// the result says which word it is, counted from 1.
///
/// # Errors
///
/// `ReadFault` (22), `WriteFault` (23) and `OutOfMemory` (21).
pub(crate) fn list_words<R: Source, W: Sink>(
    alloc: Global,
    origin: u16,
    reader: &mut R,
    writer: &mut W,
) -> Result<Ended, Fault>
    requires reader_clear { R.failed reader.old ≡ false }
    requires writer_clear { W.failed writer.old ≡ false }
    ensures { CarriesOutWhole ListingText ListingEnds IsNotRefused result
        R.Source W.Sink reader.old reader.new writer.old writer.new }
{
    let words = read_input(alloc, reader)?;
    let answer = listing(alloc, &words, origin)?;
    Ok(write_answer(writer, &answer)?)
}
