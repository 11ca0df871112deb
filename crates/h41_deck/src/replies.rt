//! The replies to commands: what each does to the bench, and what it prints.

ghost use Rattle.std.specs.Prelude.{◌≡◌, true, false, Err, IfOk, None, Ok, OnErr, is_err};
ghost use Rattle.std.specs.Prelude.{length, vec_len, ◌≤◌, ℕ, List, []};
ghost use Rattle.h41_commands.specs.Commands.{kind_of};
ghost use Rattle.h41_commands.specs.private.Contents.{IsForPage, IsForProgram};
ghost use Rattle.h41_commands.specs.declared.commands.Command.TheVariants as commands;
ghost use Rattle.h41_ends.specs.Ends.{Writes};
ghost use Rattle.h41_pages.specs.Addresses.{page_size};
ghost use Rattle.h41_deck.specs.Answers.{ending_line, ends_by};
ghost use Rattle.h41_refusals.specs.Refusals.{refusal_line};
ghost use Rattle.h41_deck.specs.Views.{line_of};
ghost use Rattle.h41_deck.specs.private.Blocks.{LoadsTaken, PlugsTaken, PlugsWordsOf};
ghost use Rattle.h41_deck.specs.Replies.{LoadsBytes, Reply, is_silent, takes_memory};
ghost use Rattle.h41_deck.specs.private.Writing.{Acts, SaysAlone, Says, EndsAs, IsAccepted};
ghost use Rattle.h41_deck.specs.private.Writing.{IsRefusalOf, KeepsIfOutOfMemory, is_write_fault};
ghost use Rattle.h41_deck.specs.private.Writing.{made_text};

use crate::replies::listing::listed;
use crate::replies::running::{run, set_break, trace, unbreak};
use crate::replies::view::show;
use arrayvec::ArrayString;
use h41_commands::{Block, Command, PAGE_WORDS, PressedKeys};
use h41_debug::Bench;
use h41_ends::{Sink, WriteFault, write_whole};
use h41_pages::PlugRefusal;
use h41_refusals::{CommandFault, Refusal};
use std::alloc::{AllocError, Global};

/// The capacity of the buffer in which a short line is assembled before it is written: 22 bytes and a line end.
const SHORT_LINE: usize = 23;

mod image;
mod listing;
mod running;
mod view;

/// Whether a deck has printed a refusal.
#[derive(Clone, Copy, Debug, PartialEq, Eq)]
pub enum Outcome {
    /// No refusal was printed.
    Accepted,
    /// At least one refusal was printed.
    Refused,
}

impl Outcome {
    ghost use Rattle.h41_deck.specs.private.AnsweredItems.{outcome_and};

    /// Returns the outcome of a deck whose outcome so far is `self`, after its next command with the outcome `next`:
    /// `Refused` if one of them is, otherwise `Accepted`.
    pub(crate) fn and(self, next: Self) -> Self
        ensures { result ≡ outcome_and self next }
    {
        match self {
            Outcome::Accepted => next,
            Outcome::Refused => Outcome::Refused,
        }
    }
}

/// Executes a command with its block, and writes its reply. The error flag of the writer must be clear, and the block must be
/// of the command's kind. The result says whether a refusal was printed.
///
/// # Errors
///
/// `OutOfMemory` (21), only for commands that allocate memory: nothing is changed and nothing is written. `WriteFault` (23):
/// the command was executed, and a prefix of its reply is written.
pub fn apply<W: Sink, const REGS: usize>(
    alloc: Global,
    bench: &mut Bench<REGS>,
    command: Command<'_>,
    block: Block,
    writer: &mut W,
) -> Result<Outcome, CommandFault>
    requires clear { W.failed writer.old ≡ false }
    requires block { block.kind ≡ kind_of command }

    // The reply is written, or a prefix of it if writing failed, or nothing if allocation failed.
    ensures reply { Acts result command.entry block bench.old.state bench.new.state
        W.contents writer.old writer.new }

    // Allocation fails only for commands that allocate memory, and whose blocks are not refused.
    ensures memory { result ≡ Err CommandFault.OutOfMemory → takes_memory command.entry ≡ true }
    ensures accepted { result ≡ Err CommandFault.OutOfMemory → IsAccepted block }
    ensures unchanged { KeepsIfOutOfMemory result bench.old.state bench.new.state }

    // The error flag says whether writing failed.
    ensures mark { W.failed writer.new ≡ is_write_fault result }
{
    let refusal = say(alloc, bench, command, block, writer)?;
    Ok(end(refusal, writer)?)
}

/// Executes a command with its block, and writes what it prints except a refusal. Returns why the command is refused,
/// if it is; the caller writes the refusal. `OutOfMemory` (21) if allocation failed: nothing is changed and nothing is
/// written. `WriteFault` (23) if writing fails.
fn say<W: Sink, const REGS: usize>(
    alloc: Global,
    bench: &mut Bench<REGS>,
    command: Command<'_>,
    block: Block,
    writer: &mut W,
) -> Result<Option<Refusal>, CommandFault>
    requires clear { W.failed writer.old ≡ false }
    requires block { block.kind ≡ kind_of command }
    ensures text { Says result command.entry block bench.old.state bench.new.state
        W.contents writer.old writer.new }
    ensures memory { result ≡ Err CommandFault.OutOfMemory → takes_memory command.entry ≡ true }
    ensures accepted { result ≡ Err CommandFault.OutOfMemory → IsAccepted block }
    ensures unchanged { KeepsIfOutOfMemory result bench.old.state bench.new.state }
    ensures mark { W.failed writer.new ≡ is_write_fault result }
{
    if let Some(refusal) = block.refusal() {
        return Ok(Some(Refusal::from(refusal)));
    }
    match command {
        Command::Plug {
            page,
            bank,
            writable,
            ..
        } => Ok(plug(alloc, bench, block, page, bank, writable)?),
        Command::Load(_kind) => Ok(load(alloc, bench, block)?),
        _ => say_alone(alloc, bench, command, writer),
    }
}

/// Executes a command that has no block, and writes what it prints except a refusal. Returns why the command is
/// refused, if it is; the caller writes the refusal. `OutOfMemory` (21) if allocation failed: nothing is changed.
/// `WriteFault` (23) if writing fails.
#[inline(always)]
pub(crate) fn say_alone<W: Sink, const REGS: usize>(
    alloc: Global,
    bench: &mut Bench<REGS>,
    command: Command<'_>,
    writer: &mut W,
) -> Result<Option<Refusal>, CommandFault>
    requires clear { W.failed writer.old ≡ false }
    requires alone { kind_of command ≡ None }
    ensures text { SaysAlone result command.entry bench.old.state bench.new.state
        W.contents writer.old writer.new }
    ensures memory { result ≡ Err CommandFault.OutOfMemory → takes_memory command.entry ≡ true }
    ensures unchanged { KeepsIfOutOfMemory result bench.old.state bench.new.state }
    ensures mark { W.failed writer.new ≡ is_write_fault result }
{
    match command {
        Command::Run(limit) => Ok(run(bench, limit, writer)?),
        Command::Trace(count) => Ok(trace(bench, count, writer)?),
        Command::List { address, count } => {
            let listing = listed(alloc, bench.calculator().pages(), address, count)?;
            Ok(say_made(listing, writer)?)
        }
        Command::Show(view) => show(alloc, bench, view, writer),
        _ => Ok(carry_out(bench, command)),
    }
}

/// Executes a command that has no block and prints nothing but a refusal, for example `step`, and returns why it is
/// refused, if it is. The caller writes the refusal.
#[inline(always)]
fn carry_out<const REGS: usize>(bench: &mut Bench<REGS>, command: Command<'_>) -> Option<Refusal>
    requires { is_silent command ≡ true }
    ensures { (values : List ℕ)
        → Reply command.entry values bench.old.state bench.new.state (ends_by result) }
{
    match command {
        Command::Unplug(page) => unplug(bench, page),
        Command::Size(count) => size(bench, count),
        Command::Reset => reset(bench),
        Command::Call(address) => call(bench, address),
        Command::Key(keys) => press(bench, &keys),
        Command::Step(count) => step(bench, count),
        Command::Break(location) => set_break(bench, location),
        Command::Unbreak(location) => unbreak(bench, location),
        _ => unreachable!(),
    }
}

/// Plugs the contents of a block into the bank of a page, as `plug` does, and returns why this is refused, if it is.
/// OutOfMemory (21) if allocation failed; nothing is changed then.
fn plug<const REGS: usize>(
    alloc: Global,
    bench: &mut Bench<REGS>,
    block: Block,
    page: u8,
    bank: u8,
    writable: bool,
) -> Result<Option<Refusal>, AllocError>
    requires kind { IsForPage block }
    requires accepted { IsAccepted block }
    ensures plugs { IfOk result (PlugsTaken block page bank writable
        bench.old.state bench.new.state) }
    ensures unchanged { OnErr result (bench.new.state ≡ bench.old.state) }
{
    match block.into_words(alloc, page)? {
        Ok(words) => plug_words(alloc, bench, page, bank, writable, words),
        Err(refusal) => Ok(Some(Refusal::from(refusal))),
    }
}

/// Plugs at most 4096 words, filled with 000 to a whole page, into the bank of a page, and returns why this is refused,
/// if it is. OutOfMemory (21) if allocation failed; nothing is changed then.
fn plug_words<const REGS: usize>(
    alloc: Global,
    bench: &mut Bench<REGS>,
    page: u8,
    bank: u8,
    writable: bool,
    words: Vec<u16>,
) -> Result<Option<Refusal>, AllocError>
    requires { vec_len words ≤ page_size }
    ensures plugs { IfOk result (PlugsWordsOf words page bank writable
        bench.old.state bench.new.state) }
    ensures unchanged { OnErr result (bench.new.state ≡ bench.old.state) }
{
    let mut words = words;
    words.resize(PAGE_WORDS, 0)?;
    match bench
        .calculator_mut()
        .plug(alloc, page, bank, writable, &words)
    {
        Ok(()) => Ok(None),
        Err(refusal) => match refusal {
            PlugRefusal::OutOfMemory => Err(AllocError),
            other => Ok(Some(Refusal::from(other))),
        },
    }
}

/// Loads the program in a block into memory, as `load` does, and returns why this is refused, if it is. OutOfMemory
/// (21) if allocation failed; nothing is changed then.
fn load<const REGS: usize>(
    alloc: Global,
    bench: &mut Bench<REGS>,
    block: Block,
) -> Result<Option<Refusal>, AllocError>
    requires kind { IsForProgram block }
    requires accepted { IsAccepted block }
    ensures loads { IfOk result (LoadsTaken block bench.old.state bench.new.state) }
    ensures unchanged { OnErr result (bench.new.state ≡ bench.old.state) }
{
    match block.into_bytes(alloc)? {
        Ok(bytes) => Ok(load_bytes(bench, &bytes)),
        Err(refusal) => Ok(Some(Refusal::from(refusal))),
    }
}

/// Loads the program lines that these bytes spell into memory, and returns why this is refused, if it is.
fn load_bytes<const REGS: usize>(bench: &mut Bench<REGS>, bytes: &[u8]) -> Option<Refusal>
    ensures { LoadsBytes (Ok bytes.now) bench.old.state bench.new.state (ends_by result) }
{
    match bench.calculator_mut().load(bytes) {
        Ok(()) => None,
        Err(refusal) => Some(Refusal::Calculator(refusal)),
    }
}

/// Unplugs all banks of a page, and returns why this is refused, if it is. The caller writes the refusal.
fn unplug<const REGS: usize>(bench: &mut Bench<REGS>, page: u8) -> Option<Refusal>
    ensures { Reply (commands.Unplug page) [] bench.old.state bench.new.state (ends_by result) }
{
    match bench.calculator_mut().unplug(page) {
        Ok(()) => None,
        Err(refusal) => Some(Refusal::from(refusal)),
    }
}

/// Sets the number of data registers to `count`, and returns why this is refused, if it is.
fn size<const REGS: usize>(bench: &mut Bench<REGS>, count: u16) -> Option<Refusal>
    ensures { Reply (commands.Size count) [] bench.old.state bench.new.state (ends_by result) }
{
    match bench.calculator_mut().set_size(count) {
        Ok(()) => None,
        Err(refusal) => Some(Refusal::Calculator(refusal)),
    }
}

/// Restores the initial state of the calculator, as `reset` does. It returns `None`, because this is never refused.
fn reset<const REGS: usize>(bench: &mut Bench<REGS>) -> Option<Refusal>
    ensures { Reply commands.Reset [] bench.old.state bench.new.state (ends_by result) }
{
    bench.calculator_mut().reset();
    None
}

/// Starts the function in microcode at an address, and returns why this is refused, if it is.
fn call<const REGS: usize>(bench: &mut Bench<REGS>, address: u16) -> Option<Refusal>
    ensures { Reply (commands.Call address) [] bench.old.state bench.new.state (ends_by result) }
{
    match bench.calculator_mut().call(address) {
        Ok(()) => None,
        Err(refusal) => Some(Refusal::Calculator(refusal)),
    }
}

/// Presses keys in turn, up to the first that is refused, and returns why that one is refused, if there is one.
#[inline(never)]
fn press<const REGS: usize>(bench: &mut Bench<REGS>, keys: &PressedKeys<'_>) -> Option<Refusal>
    ensures { Reply (commands.Key keys.now) [] bench.old.state bench.new.state (ends_by result) }
{
    match bench.press(keys.as_slice()) {
        Ok(()) => None,
        Err(refusal) => Some(Refusal::Calculator(refusal)),
    }
}

/// Makes `count` single steps, up to the first that is refused, and returns why that one is refused, if there is one.
#[inline(never)]
fn step<const REGS: usize>(bench: &mut Bench<REGS>, count: u32) -> Option<Refusal>
    ensures { Reply (commands.Step count) [] bench.old.state bench.new.state (ends_by result) }
{
    match bench.steps(count) {
        Ok(()) => None,
        Err(refusal) => Some(Refusal::Calculator(refusal)),
    }
}

/// Writes the text of a reply, or returns the refusal if there is no text. `WriteFault` (23) if writing fails.
fn say_made<W: Sink>(
    made: Result<Vec<u8>, Refusal>,
    writer: &mut W,
) -> Result<Option<Refusal>, WriteFault>
    requires { W.failed writer.old ≡ false }
    ensures refusal { IfOk result (IsRefusalOf made) }
    ensures written { Writes result W.contents writer.old writer.new (made_text made) }
    ensures mark { W.failed writer.new ≡ is_err result }
{
    match made {
        Ok(text) => {
            write_whole(writer, &text)?;
            Ok(None)
        }
        Err(refusal) => Ok(Some(refusal)),
    }
}

/// Writes the line of a refusal, if there is one, and returns `Refused` if there is, otherwise `Accepted`. `WriteFault`
/// (23) if writing fails.
#[inline(always)]
pub(crate) fn end<W: Sink>(refusal: Option<Refusal>, writer: &mut W) -> Result<Outcome, WriteFault>
    requires { W.failed writer.old ≡ false }
    ensures outcome { IfOk result (EndsAs refusal) }
    ensures written { Writes result W.contents writer.old writer.new (ending_line refusal) }
    ensures mark { W.failed writer.new ≡ is_err result }
{
    match refusal {
        None => Ok(Outcome::Accepted),
        Some(refusal) => {
            tell(refusal, writer)?;
            Ok(Outcome::Refused)
        }
    }
}

/// Writes the line of a refusal, for example `! 50 BadCommand`. A line without details is written without building it
/// first. `WriteFault` (23) if writing fails.
#[inline(never)]
fn tell<W: Sink>(refusal: Refusal, writer: &mut W) -> Result<(), WriteFault>
    requires { W.failed writer.old ≡ false }
    ensures written { Writes result W.contents writer.old writer.new (refusal_line refusal) }
    ensures mark { W.failed writer.new ≡ is_err result }
{
    match refusal.detail() {
        None => write_line(refusal.heading(), writer),
        Some(_) => write_whole(writer, refusal.line().as_str().as_bytes()),
    }
}

/// Writes a text of at most 22 bytes and a line end in one call of `write_whole`. `WriteFault` (23) if writing fails.
#[inline(always)]
fn write_line<W: Sink>(text: &str, writer: &mut W) -> Result<(), WriteFault>
    requires clear { W.failed writer.old ≡ false }
    requires short { length text.now ≤ 22 }
    ensures written { Writes result W.contents writer.old writer.new (line_of text.now) }
    ensures mark { W.failed writer.new ≡ is_err result }
{
    let mut line = ArrayString::<SHORT_LINE>::new();
    line.push_str(text);
    line.push_str("\n");
    write_whole(writer, line.as_str().as_bytes())
}
