//! Reads the statement of a source line: its instruction or directive, which follows the label.

ghost use Rattle.std.specs.Prelude.{◌≡◌, ◌+◌, ◌≤◌, ◌==◌, [], ◌∷◌, bytes_eq, codes, length};
ghost use Rattle.std.specs.Option.{ok_or, option_map};
ghost use Rattle.h41_words.specs.Counts.{place_count, status_bit_count};
ghost use Rattle.h41_words.specs.WordTable.{number_of};
ghost use Rattle.h41_asm.specs.declared.fault.SourceFault.TheVariants.{BadOperand};
ghost use Rattle.h41_asm.specs.private.CodeStatements.{found_in_code, in_code, in_form, in_line};
ghost use Rattle.h41_asm.specs.private.CodeStatements.{read_in_code, taken_operand, takes_in_code};
ghost use Rattle.h41_asm.specs.private.CodeStatements.{takes_numbered};
ghost use Rattle.h41_asm.specs.private.Openings as openings;
ghost use Rattle.h41_asm.specs.Operands.{number_in};
ghost use Rattle.h41_asm.specs.private.Openings.{Reads, ReadsSecond};
ghost use Rattle.h41_asm.specs.SourceLines.{words_of};
ghost use Rattle.h41_asm.specs.Statements as spec;

use crate::emit::rom_word;
use crate::fault::SourceFault;
use crate::names::reference_in;
use crate::opening::opening_of;
use crate::operands::{address_in, displacement_in, field_in, number_in, text_in, word_in};
use crate::source::SourceLine;
use crate::table::{EntryKind, Numbered, Opening, Taking};
use crate::words::SourceWords;
use h41_fields::Pointer;
use h41_words::{
    BlockRegister, Condition, DigitPlace, Displacement, LoadedDigit, LongJumpKind, ReadRegister,
    Row, SecondWord, StatusBit, Word, word,
};

/// The instruction or directive of a source line. It determines the line's words, some of which depend on the address
/// of a label.
#[derive(Clone, Copy)]
pub(crate) struct Statement<'a> {
    /// The form of the statement, which determines its words except for a label's address or a text.
    pub form: Form,
    /// The name that the form needs: the label to which the statement refers, or the text of a `NAME`. It is empty if
    /// the form needs none.
    pub name: &'a [u8],
}

/// The form of a source line's statement: what its words are, apart from a label's address and the text of a `NAME`.
#[derive(Clone, Copy)]
pub(crate) enum Form {
    /// A source line without words: it is empty or has only a label.
    Nothing,
    /// An instruction of one word, or a word that `CON` gives as a number.
    One(Word),
    /// An instruction of two words.
    Two(Word, Word),
    /// The words of the text of a `NAME` directive, one word a character.
    Name,
    /// A short jump by a displacement out of range (not -64 to 63 words). It is an error, TooFar (34).
    OutOfReach,
    /// A jump by address (two words), such as `?NC XQ`, to a label.
    LongJumpTo(Condition, LongJumpKind),
    /// A short jump (one word), `JNC` or `JC`, to a label.
    ShortJumpTo(Condition),
    /// The two words of the table entry of a function that begins at a label.
    EntryAt(EntryKind),
}

impl Form {
    /// Returns the statement of a form that needs no name.
    #[inline(always)]
    fn alone<'a>(self) -> Statement<'a>
        ensures { in_code result ≡ in_form self [] }
    {
        Statement {
            form: self,
            name: b"",
        }
    }

    /// Returns the statement of a form with the name that it needs: a label, or the text of a `NAME`.
    #[inline(always)]
    pub(crate) fn with(self, name: &[u8]) -> Statement<'_>
        ensures { in_code result ≡ in_form self name.now }
    {
        Statement { form: self, name }
    }
}

impl Statement<'_> {
    /// Returns the number of ROM words that the statement takes, 0 to 11.
    #[inline(always)]
    pub(crate) fn length(&self) -> usize
        ensures { result ≡ spec.statement_length (in_code self.now) }
    {
        match self.form {
            Form::Nothing => 0,
            Form::One(_) | Form::OutOfReach | Form::ShortJumpTo(_) => 1,
            Form::Two(..) | Form::LongJumpTo(..) | Form::EntryAt(_) => 2,
            Form::Name => self.name.len(),
        }
    }
}

/// Returns the statement that the words after a source line's label form; an empty line is a statement without words.
/// The error is BadLine (30) if the mnemonic or directive is unknown, and BadOperand (31) if it does not take the
/// operands.
#[inline(always)]
pub(crate) fn read(line: SourceLine<'_>) -> Result<Statement<'_>, SourceFault>
    ensures { read_in_code result ≡ spec.reading_of (in_line line.entry).code }
{
    match line.first {
        Some(first) => read_from(first, line.others),
        None => Ok(Form::Nothing.alone()),
    }
}

/// Returns the statement that a first word and the words `others` after it form. The error is BadLine (30) if the
/// mnemonic or directive is unknown, and BadOperand (31) if it does not take the operands.
#[inline(always)]
fn read_from<'a>(first: &[u8], others: SourceWords<'a>) -> Result<Statement<'a>, SourceFault>
    ensures { read_in_code result ≡ spec.reading_of (first.now ∷ words_of others.entry.rest.now) }
{
    match opening_of(first) {
        Some(opening) => opened(opening, others),
        None => Err(SourceFault::BadLine),
    }
}

/// Returns the statement that begins with a known first word and continues with the words `others`. The error is
/// BadLine (30) if no mnemonic begins so, and BadOperand (31) if it does not take the operands.
#[inline(always)]
fn opened(opening: Opening, others: SourceWords<'_>) -> Result<Statement<'_>, SourceFault>
    requires { openings.TellsWords opening }
    ensures { Reads (openings.statement_of opening) others.entry result }
{
    match opening {
        Opening::Single(number) => alone(rom_word(number), others),
        Opening::Taker(taking) => taken(taking, others),
        Opening::Data(number, numbered) => data_or(rom_word(number), numbered, others),
        Opening::Logic => logic(others),
        Opening::Push => pair("ADR", Row::PushAddress, others),
        Opening::Pop => pair("ADR", Row::PopAddress, others),
        Opening::Ram => pair("SLCT", Row::SelectRegister, others),
        Opening::Peripheral => pair("SLCT", Row::SelectPeripheral, others),
        Opening::Fetch => pair("S&X", Row::FetchWord, others),
        Opening::Select => {
            let p = Row::SelectPointer(Pointer::P);
            either("P", p, "Q", Row::SelectPointer(Pointer::Q), others)
        }
        Opening::GoTo => either("ADR", Row::GoToAddress, "KEY", Row::GoToKey, others),
        Opening::If(condition) => at_carry(condition, others),
    }
}

/// Returns the statement of a one-word instruction without an operand. The error is BadOperand (31) if any word
/// follows.
#[inline(always)]
fn alone(instruction: Word, others: SourceWords<'_>) -> Result<Statement<'_>, SourceFault>
    ensures { Reads (openings.without_operand instruction) others.entry result }
{
    if is_nothing(others) {
        Ok(Form::One(instruction).alone())
    } else {
        Err(SourceFault::BadOperand)
    }
}

/// Returns the statement of `instruction` (such as `READ DATA`) if the words after the first one are `DATA` alone, and
/// otherwise the statement of the instruction that begins with the same word and takes a number (such as `READ 5`). The
/// error is BadOperand (31).
fn data_or(
    instruction: Word,
    numbered: Numbered,
    others: SourceWords<'_>,
) -> Result<Statement<'_>, SourceFault>
    ensures { Reads (openings.data_or instruction (takes_numbered numbered)) others.entry result }
{
    if is_data(others) {
        Ok(Form::One(instruction).alone())
    } else {
        taken(Taking::Number(numbered), others)
    }
}

/// Returns whether the remaining words of a source line are `DATA` alone.
fn is_data(words: SourceWords<'_>) -> bool
    ensures { result ≡ spec.is_whole (words_of words.entry.rest.now) (codes "DATA") }
{
    let mut words = words;
    match words.next() {
        Some(word) => is(word, "DATA") && is_nothing(words),
        None => false,
    }
}

/// Returns the statement of the instruction `row`, whose mnemonic has the second word `name`, such as `ADR` in `PUSH
/// ADR`. The error is BadLine (30) if the second word is missing or another, and BadOperand (31) if more words follow.
fn pair<'a>(name: &str, row: Row, others: SourceWords<'a>) -> Result<Statement<'a>, SourceFault>
    ensures { ReadsSecond (openings.pair name.now (number_of row)) others.entry result }
{
    let mut others = others;
    let second = others.next().ok_or(SourceFault::BadLine)?;
    if is(second, name) {
        alone(word(row), others)
    } else {
        Err(SourceFault::BadLine)
    }
}

/// Returns the statement of the instruction `row` if the second word of the mnemonic is `name`, and of `other_row` if
/// it is `other_name`. The error is BadLine (30) if the second word is missing or another, and BadOperand (31) if more
/// words follow.
fn either<'a>(
    name: &str,
    row: Row,
    other_name: &str,
    other_row: Row,
    others: SourceWords<'a>,
) -> Result<Statement<'a>, SourceFault>
    ensures { ReadsSecond
        (openings.one_of_two name.now (number_of row) other_name.now (number_of other_row))
        others.entry result }
{
    let mut others = others;
    let second = others.next().ok_or(SourceFault::BadLine)?;
    if is(second, name) {
        alone(word(row), others)
    } else if is(second, other_name) {
        alone(word(other_row), others)
    } else {
        Err(SourceFault::BadLine)
    }
}

/// Returns the statement of `C=C OR A` or `C=C AND A`, by the words after `C=C`. The error is BadLine (30) if these are
/// wrong, and BadOperand (31) if more words follow.
fn logic(others: SourceWords<'_>) -> Result<Statement<'_>, SourceFault>
    ensures { ReadsSecond openings.logic others.entry result }
{
    let mut others = others;
    let second = others.next().ok_or(SourceFault::BadLine)?;
    if is(second, "OR") {
        pair("A", Row::Or, others)
    } else if is(second, "AND") {
        pair("A", Row::And, others)
    } else {
        Err(SourceFault::BadLine)
    }
}

/// Returns the statement of `RTN`, `XQ` or `GO` after `?C` or `?NC`: a return or a jump by address with a condition.
/// The error is BadLine (30) if the second word of the mnemonic is missing or another, and BadOperand (31) if a jump
/// has no valid operand or a return has one.
fn at_carry(condition: Condition, others: SourceWords<'_>) -> Result<Statement<'_>, SourceFault>
    ensures { ReadsSecond (openings.at_carry condition) others.entry result }
{
    let mut others = others;
    let second = others.next().ok_or(SourceFault::BadLine)?;
    if is(second, "RTN") {
        alone(word(Row::ReturnIf(condition)), others)
    } else if is(second, "XQ") {
        taken(Taking::LongJump(condition, LongJumpKind::Execute), others)
    } else if is(second, "GO") {
        taken(Taking::LongJump(condition, LongJumpKind::Go), others)
    } else {
        Err(SourceFault::BadLine)
    }
}

/// Returns whether a word of a source line equals a text.
#[inline(always)]
fn is(word: &[u8], text: &str) -> bool
    ensures { result ≡ bytes_eq word.now text.now }
{
    word == text.as_bytes()
}

/// Returns whether a source line has no more words.
#[inline(always)]
fn is_nothing(words: SourceWords<'_>) -> bool
    ensures { result ≡ (length (words_of words.entry.rest.now) == 0) }
{
    let mut words = words;
    words.next().is_none()
}

/// Returns the statement of a mnemonic or directive that takes one operand. The error is BadOperand (31) if it is
/// followed by no word, by several, or by one that it does not take.
#[inline(always)]
fn taken(taking: Taking, operands: SourceWords<'_>) -> Result<Statement<'_>, SourceFault>
    ensures { read_in_code result ≡ taken_operand taking operands.entry.rest }
{
    let mut operands = operands;
    match (operands.next(), operands.next()) {
        (Some(operand), None) => take_only(taking, operand),
        _ => Err(SourceFault::BadOperand),
    }
}

/// Returns the statement of a mnemonic or directive with a given operand. The error is BadOperand (31) if it does not
/// take this operand.
fn take_only(taking: Taking, operand: &[u8]) -> Result<Statement<'_>, SourceFault>
    ensures { read_in_code result ≡ ok_or (takes_in_code taking operand.now) BadOperand }
{
    match take(taking, operand) {
        Some(statement) => Ok(statement),
        None => Err(SourceFault::BadOperand),
    }
}

/// Returns the statement of a mnemonic or directive with a given operand, or `None` if it does not take this operand.
#[inline(always)]
fn take(taking: Taking, operand: &[u8]) -> Option<Statement<'_>>
    ensures { found_in_code result ≡ takes_in_code taking operand.now }
{
    match taking {
        Taking::LongJump(condition, kind) => take_address(condition, kind, operand),
        Taking::ShortJump(condition) => take_displacement(condition, operand),
        Taking::Immediate => {
            let number = word_in(operand)?;
            Some(Form::Two(word(Row::LoadImmediate), number).alone())
        }
        Taking::Constant => {
            let number = word_in(operand)?;
            Some(Form::One(number).alone())
        }
        Taking::Name => {
            let text = text_in(operand)?;
            Some(Form::Name.with(text))
        }
        Taking::Entry(kind) => {
            let name = reference_in(operand)?;
            Some(Form::EntryAt(kind).with(name))
        }
        Taking::Field(operation) => {
            let field = field_in(operand)?;
            Some(Form::One(word(Row::Arithmetic(operation, field))).alone())
        }
        Taking::Number(numbered) => take_number(numbered, operand),
    }
}

/// Returns the statement of an instruction that takes a number, such as `SETF 5`, or `None` if the operand is not a
/// number in its range.
fn take_number(numbered: Numbered, operand: &[u8]) -> Option<Statement<'_>>
    ensures { found_in_code result ≡ takes_numbered numbered operand.now }
{
    let row = numbered_row(numbered, operand)?;
    Some(Form::One(word(row)).alone())
}

/// Returns the row of the table of words for an instruction that takes a number, such as `SETF 5`, or `None` if the
/// operand is not a number in its range.
fn numbered_row(numbered: Numbered, operand: &[u8]) -> Option<Row>
    ensures { option_map spec.one_word result ≡ takes_numbered numbered operand.now }
{
    Some(match numbered {
        Numbered::ClearStatus => Row::ClearStatus(status_bit_in(operand)?),
        Numbered::SetStatus => Row::SetStatus(status_bit_in(operand)?),
        Numbered::TestStatus => Row::TestStatus(status_bit_in(operand)?),
        Numbered::TestPointer => Row::TestPointer(place_in(operand)?),
        Numbered::SetPointer => Row::SetPointer(place_in(operand)?),
        Numbered::RotateRight => Row::RotateRight(place_in(operand)?),
        Numbered::LoadDigit => Row::LoadDigit(LoadedDigit::new(number_in(0, 16, operand)?)),
        Numbered::Write => Row::Write(BlockRegister::new(number_in(0, 16, operand)?)),
        Numbered::Read => Row::Read(ReadRegister::new(number_in(1, 15, operand)?)),
    })
}

/// Returns the status bit that an operand numbers in decimal, 0 to 13, or `None` for any other operand.
fn status_bit_in(operand: &[u8]) -> Option<StatusBit>
    ensures { result ≡ number_in 0 status_bit_count operand.now }
{
    Some(StatusBit::new(number_in(0, 14, operand)?))
}

/// Returns the digit place of a register that an operand numbers in decimal, 0 to 13, or `None` for any other operand.
fn place_in(operand: &[u8]) -> Option<DigitPlace>
    ensures { result ≡ number_in 0 place_count operand.now }
{
    Some(DigitPlace::new(number_in(0, 14, operand)?))
}

/// Returns the statement of a jump by address with an operand: four hexadecimal digits, or a label `:name`. Returns
/// `None` for any other operand.
fn take_address(condition: Condition, kind: LongJumpKind, operand: &[u8]) -> Option<Statement<'_>>
    ensures { found_in_code result ≡ spec.takes_address condition kind operand.now }
{
    match address_in(operand) {
        Some(address) => {
            let (first, second) = long_jump_words(condition, kind, address);
            Some(Form::Two(first, second).alone())
        }
        None => {
            let name = reference_in(operand)?;
            Some(Form::LongJumpTo(condition, kind).with(name))
        }
    }
}

/// Returns the two words of a jump by address, with its condition, kind (`XQ` or `GO`) and target address.
pub(crate) fn long_jump_words(
    condition: Condition,
    kind: LongJumpKind,
    address: u16,
) -> (Word, Word)
    ensures { result.0 ∷ result.1 ∷ [] ≡ spec.long_jump_words condition kind address }
{
    let second = SecondWord {
        condition,
        kind,
        high_byte: (address / 256) as u8,
    };
    (word(Row::LongJump((address % 256) as u8)), second.word())
}

/// Returns the statement of a short jump with an operand: a displacement in words (a sign and two hexadecimal digits),
/// or a label `:name`. Returns `None` for any other operand. The displacement may be out of range.
fn take_displacement(condition: Condition, operand: &[u8]) -> Option<Statement<'_>>
    ensures { found_in_code result ≡ spec.takes_displacement condition operand.now }
{
    match displacement_in(operand) {
        Some(displacement) => Some(short_jump_by(condition, displacement)),
        None => {
            let name = reference_in(operand)?;
            Some(Form::ShortJumpTo(condition).with(name))
        }
    }
}

/// Returns the statement of a short jump by a displacement in words. If the displacement is not from -64 to 63, the
/// statement is an error when its words are written, TooFar (34).
pub(crate) fn short_jump_by<'a>(condition: Condition, displacement: i16) -> Statement<'a>
    ensures { in_code result ≡ spec.short_jump_by condition displacement }
{
    if -64 <= displacement && displacement <= 63 {
        let displacement = Displacement::new(displacement as i8);
        Form::One(word(Row::ShortJump(condition, displacement))).alone()
    } else {
        Form::OutOfReach.alone()
    }
}
