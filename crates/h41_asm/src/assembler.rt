//! Assembles the lines of a source in two passes: the first determines the addresses of the labels, the second the words.

ghost use Rattle.std.specs.Prelude.{◌≡◌, ℕ, ◌-ℤ◌, pos, ◌<◌, ◌≤◌, ◌++◌, [], ◌∷◌, None, Some, IfOk};
ghost use Rattle.std.specs.Prelude.{IfErr, List, OnOk, length};
ghost use Rattle.std.specs.Option.{ok_or};
ghost use Rattle.h41_asm.specs.Assembly.{Assembles, address_count};
ghost use Rattle.h41_asm.specs.private.CodeStatements.{entry_bits, in_label};
ghost use Rattle.h41_asm.specs.Faults.{assembly_fault, is_past, missing_fault, reach_fault};
ghost use Rattle.h41_asm.specs.private.KeptLines.{AreReadyFrom, KeepsLines, Says, SpellsBy};
ghost use Rattle.h41_asm.specs.private.KeptLines.{first_fault_by};
ghost use Rattle.h41_asm.specs.private.LabelTable.{AddsLabel, AddsName, AddsOwn, HoldsLabels};
ghost use Rattle.h41_asm.specs.private.LabelTable.{fault_by, first_own_fault, is_held, is_held_in};
ghost use Rattle.h41_asm.specs.private.LabelTable.{SpellsNext, jump_word, labels_in, line_fault_in};
ghost use Rattle.h41_asm.specs.Refusals.{IsFault, IsRefusal};
ghost use Rattle.h41_asm.specs.Statements.{EntryAt, LongJumpTo, ShortJumpTo};

use crate::emit::{entry_words, push_name};
use crate::fault::{AssembleError, SourceFault, SpellError};
use crate::kept::{KeptLine, keep};
use crate::source::{SourceLine, line_at, read_line};
use crate::statement::{Form, Statement, long_jump_words, read};
use crate::table::EntryKind;
use h41_words::{Condition, Displacement, LongJumpKind, Row, Word, word};
use indexmap::IndexMap;
use std::alloc::{AllocError, Global};

/// The number of 16-bit addresses: 10000 in hexadecimal.
const ADDRESSES: u32 = 0x10000;

/// The labels of a source, by name, with their addresses. They are in the order of their source lines.
type Labels<'a> = IndexMap<&'a [u8], u16>;

/// Returns the ROM words of a source; the address of the first is `origin`. An error reports the first error of the
/// source: first, by lines, BadLine (30), BadOperand (31), LabelTwice (32) and TooLong (35), which do not depend on the
/// addresses of labels; then, by lines, the errors of references, NoLabel (33) and TooFar (34). OutOfMemory (21) is
/// returned if allocation fails.
pub fn assemble(alloc: Global, text: &[u8], origin: u16) -> Result<Vec<Word>, AssembleError>
    ensures words { IfOk result (λ words. Assembles text.now origin words.items) }
    ensures ok { OnOk result (assembly_fault text.now origin ≡ None) }
    ensures err { IfErr result (IsRefusal (assembly_fault text.now origin)) }
{
    let mut labels = IndexMap::new(alloc);
    let mut lines = Vec::new(alloc);
    let mut names = Vec::new(alloc);
    place(&mut labels, &mut lines, &mut names, text, origin)?;
    spell(alloc, origin, &labels, &lines, &names)
}

/// Records the addresses of a source's labels in `labels`, and stores the statements of the source lines that have
/// words in `lines` and `names`; all three are empty before. Returns the first error of a source line among BadLine
/// (30), BadOperand (31), LabelTwice (32) and TooLong (35), or OutOfMemory (21).
#[inline(always)]
fn place<'a>(
    labels: &mut Labels<'a>,
    lines: &mut Vec<KeptLine>,
    names: &mut Vec<&'a [u8]>,
    text: &'a [u8],
    origin: u16,
) -> Result<(), AssembleError>
    requires labels { (name : List ℕ) → labels_in labels.old name ≡ None }
    requires lines { lines.old.items ≡ [] }
    requires names { names.old.items ≡ [] }
    ensures ok { OnOk result (first_own_fault origin text.now ≡ None) }
    ensures labels { OnOk result (HoldsLabels labels.new origin text.now) }
    ensures kept { OnOk result (KeepsLines text.now lines.new.items names.new.items) }
    ensures err { IfErr result (IsRefusal (first_own_fault origin text.now)) }
{
    let mut address = u32::from(origin);
    let mut number = 1;
    let mut start = 0;
    while start < text.len() {
        let (line, next) = line_at(text, start);
        match place_line(labels, address, read_line(line)) {
            Ok(statement) => {
                keep(lines, names, number, &statement)?;
                address += statement.length() as u32;
            }
            Err(error) => return Err(error.at_line(number)),
        }
        number += 1;
        start = next;
    }
    Ok(())
}

/// Records the label of a source line, if it has one, at an address from 0000 to 10000 (hexadecimal), and returns the
/// statement that the rest of the line is. The error is BadLine (30), BadOperand (31), LabelTwice (32), TooLong (35) or
/// OutOfMemory (21).
#[inline(always)]
fn place_line<'a>(
    labels: &mut Labels<'a>,
    address: u32,
    line: SourceLine<'a>,
) -> Result<Statement<'a>, SpellError>
    requires { address ≤ address_count }
    ensures ok { OnOk result (line_fault_in labels.old address line.entry ≡ None) }
    ensures read { IfOk result (λ said. Says said line.entry) }
    ensures labels { OnOk result (AddsLabel labels.old labels.new address line.entry) }
    ensures err { IfErr result (IsFault (line_fault_in labels.old address line.entry)) }
{
    let statement = match read(line) {
        Ok(statement) => statement,
        Err(fault) => return Err(SpellError::Fault(fault)),
    };
    if is_too_long(address, line.label, statement.length()) {
        return Err(SpellError::Fault(if is_held(labels, line.label) {
            SourceFault::LabelTwice
        } else {
            SourceFault::TooLong
        }));
    }
    if let Some(name) = line.label {
        if note(labels, name, address)? {
            return Err(SpellError::Fault(SourceFault::LabelTwice));
        }
    }
    Ok(statement)
}

/// Records the address of a label, and returns whether the label already had an address. The error means that
/// allocation failed.
#[inline(always)]
fn note<'a>(labels: &mut Labels<'a>, name: &'a [u8], address: u32) -> Result<bool, AllocError>
    requires { address < address_count }
    ensures added { OnOk result (AddsName labels.old labels.new address name.now) }
    ensures twice { IfOk result (λ held. held ≡ is_held (labels_in labels.old) (Some name.now)) }
{
    let before = labels.insert(name, address as u16)?;
    Ok(before.is_some())
}

/// Returns whether a label already has an address from an earlier source line. It is false if there is no label.
#[inline(always)]
fn is_held(labels: &Labels<'_>, label: Option<&[u8]>) -> bool
    ensures { result ≡ is_held_in labels.now label.entry }
{
    match label {
        Some(name) => labels.contains_key(name),
        None => false,
    }
}

/// Returns whether a source line at an address has something after the last address, FFFF: a label, or one of its
/// `length` words, which begin at this address.
#[inline(always)]
fn is_too_long(address: u32, label: Option<&[u8]>, length: usize) -> bool
    requires { address ≤ address_count }
    ensures { result ≡ is_past address (in_label label.entry) length }
{
    (label.is_some() && ADDRESSES <= address) || length > (ADDRESSES - address) as usize
}

/// Returns the ROM words of the source lines that the first pass stored, the first at `origin`. The error is the first
/// one of a reference, NoLabel (33) or TooFar (34), or OutOfMemory (21).
fn spell(
    alloc: Global,
    origin: u16,
    labels: &Labels<'_>,
    lines: &[KeptLine],
    names: &[&[u8]],
) -> Result<Vec<Word>, AssembleError>
    requires length { length names.now ≡ length lines.now }
    requires ready { AreReadyFrom origin lines.now names.now }
    ensures ok { OnOk result (first_fault_by labels.now origin lines.now names.now ≡ None) }
    ensures words { IfOk result (SpellsBy labels.now origin lines.now names.now) }
    ensures err { IfErr result (IsRefusal (first_fault_by labels.now origin lines.now names.now)) }
{
    let mut words = Vec::with_capacity(alloc, lines.len())?;
    let mut address = u32::from(origin);
    for (i, line) in lines.iter().enumerate() {
        let statement = line.form.with(names[i]);
        match push_statement(&mut words, labels, address, &statement) {
            Ok(()) => address += statement.length() as u32,
            Err(error) => return Err(error.at_line(line.number)),
        }
    }
    Ok(words)
}

/// Appends the ROM words of a statement at an address. The error is NoLabel (33), TooFar (34) or OutOfMemory (21).
#[inline(always)]
fn push_statement(
    words: &mut Vec<Word>,
    labels: &Labels<'_>,
    address: u32,
    statement: &Statement<'_>,
) -> Result<(), SpellError>
    requires { address ≤ address_count }
    ensures ok { OnOk result (fault_by labels.now address statement.now ≡ None) }
    ensures own { OnOk result (AddsOwn labels.now address statement.now words.old words.new) }
    ensures err { IfErr result (IsFault (fault_by labels.now address statement.now)) }
{
    match statement.form {
        Form::Nothing => Ok(()),
        Form::One(word) => push_one(words, word),
        Form::Two(first, second) => push_two(words, first, second),
        Form::Name => Ok(push_name(words, statement.name)?),
        Form::OutOfReach => Err(SpellError::Fault(SourceFault::TooFar)),
        Form::LongJumpTo(condition, kind) => {
            push_long_jump(words, labels, condition, kind, statement.name)
        }
        Form::ShortJumpTo(condition) => {
            push_short_jump(words, labels, address, condition, statement.name)
        }
        Form::EntryAt(kind) => push_entry(words, labels, kind, statement.name),
    }
}

/// Appends the two words of a jump by address (`?NC XQ` and the like) to a label. The error is NoLabel (33) or
/// OutOfMemory (21).
#[inline(always)]
fn push_long_jump(
    words: &mut Vec<Word>,
    labels: &Labels<'_>,
    condition: Condition,
    kind: LongJumpKind,
    name: &[u8],
) -> Result<(), SpellError>
    ensures ok { OnOk result (missing_fault (labels_in labels.now name.now) ≡ None) }
    ensures own { (address : ℕ) → OnOk result (SpellsNext (labels_in labels.now) address
        (LongJumpTo condition kind name.now) words.old.items words.new.items) }
    ensures err { IfErr result (IsFault (missing_fault (labels_in labels.now name.now))) }
{
    let target = label_address(labels, name)?;
    let (first, second) = long_jump_words(condition, kind, target);
    push_two(words, first, second)
}

/// Appends the word of a short jump (`JNC` or `JC`) to a label; the jump is at `address`. The error is NoLabel (33),
/// TooFar (34) or OutOfMemory (21).
#[inline(always)]
fn push_short_jump(
    words: &mut Vec<Word>,
    labels: &Labels<'_>,
    address: u32,
    condition: Condition,
    name: &[u8],
) -> Result<(), SpellError>
    requires { address ≤ address_count }
    ensures ok { OnOk result (reach_fault address (labels_in labels.now name.now) ≡ None) }
    ensures own { OnOk result (SpellsNext (labels_in labels.now) address
        (ShortJumpTo condition name.now) words.old.items words.new.items) }
    ensures err { IfErr result (IsFault
        (reach_fault address (labels_in labels.now name.now))) }
{
    let target = label_address(labels, name)?;
    let word = short_jump(condition, distance(address, target))?;
    push_one(words, word)
}

/// Appends the two words of the table entry of a function that begins at a label. The error is NoLabel (33) or
/// OutOfMemory (21).
#[inline(always)]
fn push_entry(
    words: &mut Vec<Word>,
    labels: &Labels<'_>,
    kind: EntryKind,
    name: &[u8],
) -> Result<(), SpellError>
    ensures ok { OnOk result (missing_fault (labels_in labels.now name.now) ≡ None) }
    ensures own { (address : ℕ) → OnOk result (SpellsNext (labels_in labels.now) address
        (EntryAt (entry_bits kind) name.now) words.old.items words.new.items) }
    ensures err { IfErr result (IsFault (missing_fault (labels_in labels.now name.now))) }
{
    let target = label_address(labels, name)?;
    let (first, second) = entry_words(kind, target);
    push_two(words, first, second)
}

/// Appends a ROM word to the words of the source. The error is OutOfMemory (21).
#[inline(always)]
fn push_one(words: &mut Vec<Word>, word: Word) -> Result<(), SpellError>
    ensures pushed { OnOk result (words.new.items ≡ words.old.items ++ word ∷ []) }
    ensures err { IfErr result (λ error. error ≡ SpellError.OutOfMemory) }
{
    Ok(words.push(word)?)
}

/// Appends two ROM words to the words of the source. The error is OutOfMemory (21).
#[inline(always)]
fn push_two(words: &mut Vec<Word>, first: Word, second: Word) -> Result<(), SpellError>
    ensures pushed { OnOk result (words.new.items ≡ words.old.items ++ first ∷ second ∷ []) }
    ensures err { IfErr result (λ error. error ≡ SpellError.OutOfMemory) }
{
    words.push(first)?;
    words.push(second)?;
    Ok(())
}

/// Returns the address of a label, or NoLabel (33) if no source line has the label.
#[inline(always)]
fn label_address(labels: &Labels<'_>, name: &[u8]) -> Result<u16, SourceFault>
    ensures { result ≡ ok_or (labels_in labels.now name.now) SourceFault.NoLabel }
{
    match labels.get(name) {
        Some(address) => Ok(*address),
        None => Err(SourceFault::NoLabel),
    }
}

/// Returns the number of words from one address to another; it is negative if the second is smaller.
#[inline(always)]
fn distance(from: u32, to: u16) -> i32
    requires { from ≤ address_count }
    ensures { result ≡ pos to -ℤ pos from }
{
    i32::from(to) - from as i32
}

/// Returns the word of a short jump, `JNC` or `JC`, by a displacement in words, or TooFar (34) if the displacement is
/// not from -64 to 63.
#[inline(always)]
fn short_jump(condition: Condition, displacement: i32) -> Result<Word, SourceFault>
    ensures { result ≡ jump_word condition displacement }
{
    if -64 <= displacement && displacement <= 63 {
        let displacement = Displacement::new(displacement as i8);
        Ok(word(Row::ShortJump(condition, displacement)))
    } else {
        Err(SourceFault::TooFar)
    }
}
