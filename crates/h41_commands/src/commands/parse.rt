//! Parses the words of a deck line as a command.

ghost use Rattle.std.specs.Prelude.{◌≡◌, ◌≤◌, ◌∷◌, [], ℕ, IfOk, None, Ok, Some, codes, drop};
ghost use Rattle.std.specs.Prelude.{false, length, true};
ghost use Rattle.h41_commands.specs.Commands.{break_location, call_command, location_by};
ghost use Rattle.h41_commands.specs.Commands.{read_plain, key_command, kind_of};
ghost use Rattle.h41_commands.specs.Commands.{load_command, reset_command, size_command};
ghost use Rattle.h41_commands.specs.Commands.{unplug_command, opening_command};
ghost use Rattle.h41_commands.specs.Commands.{and_then, command_of};
ghost use Rattle.h41_commands.specs.Commands.{counted_command, plug_at};
ghost use Rattle.h41_commands.specs.Commands.{plug_command, step_command, view_named};
ghost use Rattle.h41_commands.specs.Commands.{view_of, list_command, plug_at_bank, plug_with};
ghost use Rattle.h41_commands.specs.Commands.{bank_number, image_view, image_view_at, is_bank_word};
ghost use Rattle.h41_lines.specs.Words.{words_of};
ghost use Rattle.h41_commands.specs.DeckLines.{key_room};
ghost use Rattle.h41_commands.specs.FirstLines.{first_line, name_end, opens_block};
ghost use Rattle.h41_commands.specs.Items.{line_spelled};
ghost use Rattle.h41_commands.specs.Numbers as spec;
ghost use Rattle.h41_commands.specs.declared.commands.Command.{Command};
ghost use Rattle.h41_commands.specs.declared.commands.Command.TheVariants as commands;

use crate::commands::keys::KeyBuffer;
use crate::commands::number::{count_up_to, hexadecimal, number_up_to};
use crate::commands::{BlockKind, Command, FirstWord, PageKind, PlainKind, ProgramKind, View};
use crate::line::{FirstLine, LineKind};
use crate::refusal::LineRefusal;
use h41_breakpoints::Location;
use h41_keys::Key;
use h41_lines::words::LineWords;
use h41_positions::Position;

/// The greatest number of single steps of one command: 9,999,999.
const MOST_STEPS: u32 = 9_999_999;

/// The greatest position in memory that a breakpoint may have: 9,999.
const MOST_POSITION: u32 = 9_999;

/// The greatest number that `size` accepts: 9,999.
const MOST_REGISTERS: u32 = 9_999;

/// The greatest number of words of one listing: 4,096, the size of a page.
const MOST_WORDS: u32 = 4_096;

/// The number of the bank that a command means if it names none: 1.
const FIRST_BANK: u8 = 1;

/// Returns the command that a deck line which opens no block specifies. `first` says what `read_first_line` found in
/// the line. The keys of a `key` command are written to `keys`.
///
/// # Errors
///
/// LineTooLong (53) if the line is too long; BadCommand (50) if it is not a command, or a word of it is missing or one
/// too many; otherwise BadNumber (51) if a number is wrong.
#[inline(always)]
pub fn line_command<'a>(
    first: FirstLine,
    line: &[u8],
    keys: &'a mut KeyBuffer,
) -> Result<Command<'a>, LineRefusal>
    requires first { first_line line.now ≡ Some first }
    requires shut { opens_block first.kind ≡ false }
    ensures command { line_spelled line.now ≡ and_then result (λ command. Ok (command, [])) }
    ensures alone { IfOk result (λ command. kind_of command ≡ None) }
{
    match first.kind {
        LineKind::Named(FirstWord::Plain(kind)) => {
            plain(kind, operands(line, first.name_end), keys)
        }
        LineKind::Named(FirstWord::Unknown) => Err(LineRefusal::BadCommand),
        LineKind::Long => Err(LineRefusal::LineTooLong),
        LineKind::Named(FirstWord::Opening(_)) => unreachable!(),
    }
}

/// Returns the command of a deck line that opens a block. `first` says which block it opens. The errors are BadCommand
/// (50) and BadNumber (51).
pub(crate) fn block_command(first: FirstLine, line: &[u8]) -> Result<Command<'static>, LineRefusal>
    requires first { first_line line.now ≡ Some first }
    requires opens { opens_block first.kind ≡ true }
    ensures { result ≡ command_of (words_of line.now) }
{
    match first.kind {
        LineKind::Named(FirstWord::Opening(kind)) => {
            with_block(kind, operands(line, first.name_end))
        }
        LineKind::Named(FirstWord::Plain(_) | FirstWord::Unknown) | LineKind::Long => {
            unreachable!()
        }
    }
}

/// Returns the words of a deck line after its first word, which ends at the byte index `at`.
#[inline(always)]
fn operands(line: &[u8], at: usize) -> LineWords<'_>
    requires { at ≡ name_end line.now }
    ensures { words_of result.rest.now ≡ drop 1 (words_of line.now) }
{
    LineWords::new(&line[at..])
}

/// Returns the command of a deck line that opens a block of this kind, from the words after its first word. The errors
/// are BadCommand (50) and BadNumber (51).
fn with_block(kind: BlockKind, operands: LineWords<'_>) -> Result<Command<'static>, LineRefusal>
    ensures { result ≡ opening_command kind (words_of operands.entry.rest.now) }
{
    match kind {
        BlockKind::Page(kind) => plug(kind, operands),
        BlockKind::Program(kind) => load(kind, operands),
    }
}

/// Returns the command of a given kind without a block, from the words after its first word. The errors are BadCommand
/// (50) and BadNumber (51).
#[inline(always)]
fn plain<'a>(
    kind: PlainKind,
    operands: LineWords<'_>,
    keys: &'a mut KeyBuffer,
) -> Result<Command<'a>, LineRefusal>
    requires { length (words_of operands.rest.now) ≤ key_room }
    ensures command { result ≡ read_plain kind (words_of operands.entry.rest.now) }
    ensures alone { IfOk result (λ command. kind_of command ≡ None) }
{
    match kind {
        PlainKind::Unplug => Ok(Command::Unplug(unplugged_page(operands)?)),
        PlainKind::Size => Ok(Command::Size(register_count(operands)?)),
        PlainKind::Reset => {
            no_operand(operands)?;
            Ok(Command::Reset)
        }
        PlainKind::Call => Ok(Command::Call(called_address(operands)?)),
        PlainKind::Step => Ok(Command::Step(step_count(operands)?)),
        PlainKind::Run => Ok(Command::Run(most_steps(operands)?)),
        PlainKind::Trace => Ok(Command::Trace(most_steps(operands)?)),
        PlainKind::Break => Ok(Command::Break(break_location(operands)?)),
        PlainKind::Unbreak => Ok(Command::Unbreak(break_location(operands)?)),
        PlainKind::List => {
            let (address, count) = listed_words(operands)?;
            Ok(Command::List { address, count })
        }
        PlainKind::Show => Ok(Command::Show(view(operands)?)),
        PlainKind::Key => key(operands, keys),
    }
}

/// Returns the command `words P [bN] [rw]`, `image P [bN] [rw]` or `asm P [bN] [rw]`, whose block fills a bank of a
/// page, from the words after its first word. The errors are BadCommand (50) and BadNumber (51).
fn plug(kind: PageKind, mut operands: LineWords<'_>) -> Result<Command<'static>, LineRefusal>
    ensures { result ≡ plug_command kind (words_of operands.entry.rest.now) }
{
    match operands.next() {
        Some(page) => plug_with(kind, page, operands),
        None => Err(LineRefusal::BadCommand),
    }
}

/// Returns the command `words`, `image` or `asm` from the word that gives the page, and the words after it (`bN`,
/// `rw`). The errors are BadCommand (50) and BadNumber (51).
fn plug_with(
    kind: PageKind,
    page: &[u8],
    mut options: LineWords<'_>,
) -> Result<Command<'static>, LineRefusal>
    ensures { result ≡ plug_with kind page.now (words_of options.entry.rest.now) }
{
    let Some(option) = options.next() else {
        return plug_at(kind, page, FIRST_BANK, false);
    };
    let Some(other) = options.next() else {
        return plug_by(kind, page, option);
    };
    if other == "rw".as_bytes() && options.next().is_none() {
        return plug_at_bank(kind, page, option, true);
    }
    Err(LineRefusal::BadCommand)
}

/// Returns the command `words`, `image` or `asm` from the word that gives the page, and the word after it, which names
/// a bank (`bN`) or is `rw`. The errors are BadCommand (50) and BadNumber (51).
fn plug_by(kind: PageKind, page: &[u8], option: &[u8]) -> Result<Command<'static>, LineRefusal>
    ensures { result ≡ plug_with kind page.now (option.now ∷ []) }
{
    if option == "rw".as_bytes() {
        plug_at(kind, page, FIRST_BANK, true)
    } else {
        plug_at_bank(kind, page, option, false)
    }
}

/// Returns the command `words`, `image` or `asm` from the words that give the page and the bank (`bN`). The errors are
/// BadCommand (50) and BadNumber (51).
fn plug_at_bank(
    kind: PageKind,
    page: &[u8],
    bank: &[u8],
    writable: bool,
) -> Result<Command<'static>, LineRefusal>
    ensures { result ≡ plug_at_bank kind page.now bank.now writable }
{
    if !is_bank_word(bank) {
        return Err(LineRefusal::BadCommand);
    }
    plug_at(kind, page, bank_number(bank)?, writable)
}

/// Returns the command `words`, `image` or `asm` from the word that gives the page, and the number of the bank, 0 to 9.
/// BadNumber (51) if the page is not one hexadecimal digit.
fn plug_at(
    kind: PageKind,
    page: &[u8],
    bank: u8,
    writable: bool,
) -> Result<Command<'static>, LineRefusal>
    ensures { result ≡ plug_at kind page.now bank writable }
{
    let page = page_number(page)?;
    Ok(Command::Plug {
        kind,
        page,
        bank,
        writable,
    })
}

/// Returns whether a word names a bank: whether it begins with `b`.
fn is_bank_word(word: &[u8]) -> bool
    ensures { result ≡ is_bank_word word.now }
{
    matches!(word, [b'b', ..])
}

/// Returns the number, 0 to 9, of the bank that a word names: `bN`, where N is one decimal digit. BadNumber (51) if the
/// word has another length, or N is not a digit.
fn bank_number(word: &[u8]) -> Result<u8, LineRefusal>
    ensures { result ≡ bank_number word.now }
{
    if word.len() != 2 {
        return Err(LineRefusal::BadNumber);
    }
    Ok(number_up_to(9, 10, &word[1..])? as u8)
}

/// Returns the command `load` or `program`, whose block is a program, from the words after its first word. BadCommand
/// (50) if there are any.
fn load(kind: ProgramKind, mut operands: LineWords<'_>) -> Result<Command<'static>, LineRefusal>
    ensures { result ≡ load_command kind (words_of operands.entry.rest.now) }
{
    match operands.next() {
        None => Ok(Command::Load(kind)),
        Some(_) => Err(LineRefusal::BadCommand),
    }
}

/// Returns the page, 0 to 15, that the words after `unplug` name.
///
/// # Errors
///
/// BadCommand (50) if there is not exactly one word, BadNumber (51) if the word is not one hexadecimal digit.
fn unplugged_page(mut operands: LineWords<'_>) -> Result<u8, LineRefusal>
    ensures { unplug_command (words_of operands.entry.rest.now)
        ≡ and_then result (λ page. Ok (commands.Unplug page)) }
{
    match (operands.next(), operands.next()) {
        (Some(page), None) => page_number(page),
        _ => Err(LineRefusal::BadCommand),
    }
}

/// Returns the page, 0 to 15, that a word of one hexadecimal digit names. BadNumber (51) if the word is not such a
/// digit.
fn page_number(page: &[u8]) -> Result<u8, LineRefusal>
    ensures { result ≡ spec.hexadecimal 1 page.now }
{
    Ok(hexadecimal(1, 1, page)? as u8)
}

/// Returns the number of data registers, 0 to 9,999, that the word after `size` specifies. The errors are BadCommand (50)
/// and BadNumber (51).
fn register_count(mut operands: LineWords<'_>) -> Result<u16, LineRefusal>
    ensures { size_command (words_of operands.entry.rest.now)
        ≡ and_then result (λ count. Ok (commands.Size count)) }
{
    match (operands.next(), operands.next()) {
        (Some(count), None) => Ok(number_up_to(MOST_REGISTERS, 10, count)? as u16),
        _ => Err(LineRefusal::BadCommand),
    }
}

/// Checks that no word follows `reset`.
///
/// # Errors
///
/// BadCommand (50) if a word follows.
fn no_operand(mut operands: LineWords<'_>) -> Result<(), LineRefusal>
    ensures { reset_command (words_of operands.entry.rest.now)
        ≡ and_then result (λ none. Ok commands.Reset) }
{
    match operands.next() {
        None => Ok(()),
        Some(_) => Err(LineRefusal::BadCommand),
    }
}

/// Returns the address of four hexadecimal digits that the word after `call` specifies. The errors are BadCommand (50)
/// and BadNumber (51).
fn called_address(mut operands: LineWords<'_>) -> Result<u16, LineRefusal>
    ensures { call_command (words_of operands.entry.rest.now)
        ≡ and_then result (λ address. Ok (commands.Call address)) }
{
    match (operands.next(), operands.next()) {
        (Some(address), None) => hexadecimal(4, 4, address),
        _ => Err(LineRefusal::BadCommand),
    }
}

/// Returns the number of steps that the words after `step` specify, 0 to 9,999,999; 1 if there is none.
///
/// # Errors
///
/// BadCommand (50) if there is more than one word, BadNumber (51) if the word is not a number from 0 to 9,999,999.
fn step_count(mut operands: LineWords<'_>) -> Result<u32, LineRefusal>
    ensures { step_command (words_of operands.entry.rest.now)
        ≡ and_then result (λ count. Ok (commands.Step count)) }
{
    match (operands.next(), operands.next()) {
        (None, _) => Ok(1),
        (Some(count), None) => number_up_to(MOST_STEPS, 10, count),
        _ => Err(LineRefusal::BadCommand),
    }
}

/// Returns the number of steps that the words after `run` or `trace` specify, 0 to 9,999,999.
///
/// # Errors
///
/// BadCommand (50) if there is not exactly one word, BadNumber (51) if the word is not a number from 0 to 9,999,999.
fn most_steps(mut operands: LineWords<'_>) -> Result<u32, LineRefusal>
    ensures { (command : ℕ → Command) → counted_command command (words_of operands.entry.rest.now)
        ≡ and_then result (λ count. Ok (command count)) }
{
    match (operands.next(), operands.next()) {
        (Some(count), None) => number_up_to(MOST_STEPS, 10, count),
        _ => Err(LineRefusal::BadCommand),
    }
}

/// Returns the location of a breakpoint that the words after `break` or `unbreak` name.
///
/// # Errors
///
/// BadCommand (50) if there are not exactly two words or the first is not `w`, `l` or `p`; BadNumber (51) if the second
/// is not a number in its range.
fn break_location(mut operands: LineWords<'_>) -> Result<Location, LineRefusal>
    ensures { result ≡ break_location (words_of operands.entry.rest.now) }
{
    match (operands.next(), operands.next(), operands.next()) {
        (Some(kind), Some(number), None) => location_by(kind, number),
        _ => Err(LineRefusal::BadCommand),
    }
}

/// Returns the location of a breakpoint, from the word for its kind (`w`, `l` or `p`) and the word for its number. The
/// errors are BadCommand (50) if the kind is another, and BadNumber (51).
fn location_by(kind: &[u8], number: &[u8]) -> Result<Location, LineRefusal>
    ensures { result ≡ location_by kind.now number.now }
{
    match kind {
        b"w" => Ok(Location::Word(hexadecimal(4, 4, number)?)),
        b"l" => {
            let byte = number_up_to(MOST_POSITION, 10, number)? as u16;
            Ok(Location::Line(Position::Memory(byte)))
        }
        b"p" => {
            let address = hexadecimal(4, 4, number)?;
            Ok(Location::Line(Position::Page(address)))
        }
        _ => Err(LineRefusal::BadCommand),
    }
}

/// Returns the address and the number of words, 1 to 4,096, that the words after `list` specify. The errors are
/// BadCommand (50) and BadNumber (51).
fn listed_words(mut operands: LineWords<'_>) -> Result<(u16, u16), LineRefusal>
    ensures { list_command (words_of operands.entry.rest.now)
        ≡ and_then result (λ listed. Ok (commands.List listed.0 listed.1)) }
{
    match (operands.next(), operands.next(), operands.next()) {
        (Some(address), Some(count), None) => {
            let address = hexadecimal(4, 4, address)?;
            let count = count_up_to(MOST_WORDS, count)? as u16;
            Ok((address, count))
        }
        _ => Err(LineRefusal::BadCommand),
    }
}

/// Returns the command `key NAME ..`, from the words after `key`, and writes its keys to `keys`. BadCommand (50) if
/// there is none, or if one is not the name of a key.
fn key<'a>(operands: LineWords<'_>, keys: &'a mut KeyBuffer) -> Result<Command<'a>, LineRefusal>
    requires { length (words_of operands.rest.now) ≤ key_room }
    ensures command { result ≡ key_command (words_of operands.entry.rest.now) }
    ensures alone { IfOk result (λ command. kind_of command ≡ None) }
{
    keys.clear();
    for name in operands {
        match Key::named(name) {
            Some(key) => keys.push(key),
            None => return Err(LineRefusal::BadCommand),
        }
    }
    let pressed = keys.pressed();
    if pressed.as_slice().is_empty() {
        return Err(LineRefusal::BadCommand);
    }
    Ok(Command::Key(pressed))
}

/// Returns the part of the calculator's state that the words after `show` name.
///
/// # Errors
///
/// BadCommand (50) if the words name no part, BadNumber (51) if a number in them is wrong.
fn view(mut operands: LineWords<'_>) -> Result<View, LineRefusal>
    ensures { result ≡ view_of (words_of operands.entry.rest.now) }
{
    match (operands.next(), operands.next()) {
        (Some(what), None) => view_named(what),
        (Some(what), Some(operand)) => view_with(what, operand, operands),
        _ => Err(LineRefusal::BadCommand),
    }
}

/// Returns the view `ram hhh` or `image P [bN]`, from the first word after `show`, the second, and those after them.
/// The errors are BadCommand (50) and BadNumber (51).
fn view_with(what: &[u8], operand: &[u8], mut others: LineWords<'_>) -> Result<View, LineRefusal>
    ensures { result ≡ view_of (what.now ∷ operand.now ∷ words_of others.entry.rest.now) }
{
    if what == "image".as_bytes() {
        return image_with(operand, others);
    }
    if what == "ram".as_bytes() && others.next().is_none() {
        return Ok(View::Register(hexadecimal(3, 3, operand)?));
    }
    Err(LineRefusal::BadCommand)
}

/// Returns the view `image P [bN]`, from the word that gives the page and the words after it. The errors are BadCommand
/// (50) and BadNumber (51).
fn image_with(page: &[u8], mut others: LineWords<'_>) -> Result<View, LineRefusal>
    ensures { result ≡ view_of (codes "image" ∷ page.now ∷ words_of others.entry.rest.now) }
{
    match (others.next(), others.next()) {
        (None, _) => image_view(page, FIRST_BANK),
        (Some(bank), None) => image_view_at(page, bank),
        _ => Err(LineRefusal::BadCommand),
    }
}

/// Returns the view `image P bN`, from the words that give the page and the bank. The errors are BadCommand (50) and
/// BadNumber (51).
fn image_view_at(page: &[u8], bank: &[u8]) -> Result<View, LineRefusal>
    ensures { result ≡ image_view_at page.now bank.now }
{
    if !is_bank_word(bank) {
        return Err(LineRefusal::BadCommand);
    }
    image_view(page, bank_number(bank)?)
}

/// Returns the view of a page's image, from the word that gives the page and the number of the bank, 0 to 9. BadNumber
/// (51) if the page is not one hexadecimal digit.
fn image_view(page: &[u8], bank: u8) -> Result<View, LineRefusal>
    ensures { result ≡ image_view page.now bank }
{
    Ok(View::Image(page_number(page)?, bank))
}

/// Returns the view that one word after `show` names, such as `cpu`. BadCommand (50) if it names none.
#[tactic(auto, unfolding(crate::specs::Commands::view_named))]
fn view_named(what: &[u8]) -> Result<View, LineRefusal>
    ensures { result ≡ view_named what.now }
{
    match what {
        b"cpu" => Ok(View::Cpu),
        b"stack" => Ok(View::Stack),
        b"flags" => Ok(View::Flags),
        b"alpha" => Ok(View::Alpha),
        b"display" => Ok(View::Display),
        b"pos" => Ok(View::Position),
        b"lines" => Ok(View::Lines),
        b"functions" => Ok(View::Functions),
        _ => Err(LineRefusal::BadCommand),
    }
}
