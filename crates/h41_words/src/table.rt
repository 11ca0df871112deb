//! The table of words: from a word to its row (its meaning), and from a row to its word. A word's column is its six low
//! bits, its line the four high bits, 0 to 15.
ghost use Rattle.std.specs.Prelude.{◌≡◌, ◌%◌, ◌/◌, ◌<◌, ◌⊎◌, IfSome, IfNone};
ghost use Rattle.h41_words.specs.Counts.{word_count, place_count};
ghost use Rattle.h41_words.specs.private.MappedColumns.{IsMappedColumn};
ghost use Rattle.h41_words.specs.WordTable as spec;

use crate::operands::{
    BlockRegister, DigitPlace, Displacement, LoadedDigit, ReadRegister, StatusBit,
};
use crate::operation::Operation;
use crate::rom_word::Word;
use crate::rows::{Bank, Condition, RegisterTransfer, Row};
use crate::unassigned::UnassignedWord;
use h41_fields::{Field, Pointer};

/// The instructions without a family, grouped by column (the six low bits of the word), each number with its row. The
/// code for both directions is generated from this list: `$write` is the macro that generates one of them, and `$with`
/// its arguments.
macro_rules! single_words {
    ($write:ident $with:tt) => {
        $write! { $with Row
            column_00 {
                0x000 => Nop,
                0x040 => WriteRom,
                0x100 => EnableBank(Bank::First),
                0x140 => EnableBank(Bank::Third),
                0x180 => EnableBank(Bank::Second),
                0x1C0 => EnableBank(Bank::Fourth),
            }
            column_18 {
                0x058 => Transfer(RegisterTransfer::CToG),
                0x098 => Transfer(RegisterTransfer::GToC),
                0x0D8 => Transfer(RegisterTransfer::ExchangeCG),
                0x158 => Transfer(RegisterTransfer::CToM),
                0x198 => Transfer(RegisterTransfer::MToC),
                0x1D8 => Transfer(RegisterTransfer::ExchangeCM),
                0x258 => Transfer(RegisterTransfer::StatusToT),
                0x298 => Transfer(RegisterTransfer::TToStatus),
                0x2D8 => Transfer(RegisterTransfer::ExchangeStatusT),
                0x358 => Transfer(RegisterTransfer::CToStatus),
                0x398 => Transfer(RegisterTransfer::StatusToC),
                0x3D8 => Transfer(RegisterTransfer::ExchangeCStatus),
            }
            column_20 {
                0x020 => DropReturn,
                0x060 => PowerOff,
                0x0A0 => SelectPointer(Pointer::P),
                0x0E0 => SelectPointer(Pointer::Q),
                0x120 => TestPointersEqual,
                0x160 => TestLowBattery,
                0x1A0 => ClearRegisters,
                0x1E0 => GoToAddress,
                0x220 => ReadKey,
                0x260 => SetHexadecimal,
                0x2A0 => SetDecimal,
                0x2E0 => DisplayOff,
                0x320 => ToggleDisplay,
                0x360 => ReturnIf(Condition::Carry),
                0x3A0 => ReturnIf(Condition::NoCarry),
                0x3E0 => Return,
            }
            column_30 {
                0x070 => Transfer(RegisterTransfer::CToN),
                0x0B0 => Transfer(RegisterTransfer::NToC),
                0x0F0 => Transfer(RegisterTransfer::ExchangeCN),
                0x130 => LoadImmediate,
                0x170 => PushAddress,
                0x1B0 => PopAddress,
                0x230 => GoToKey,
                0x270 => SelectRegister,
                0x2F0 => WriteData,
                0x330 => FetchWord,
                0x370 => Or,
                0x3B0 => And,
                0x3F0 => SelectPeripheral,
            }
            column_38 {
                0x038 => ReadData,
            }
            unmapped {
                0x3C4 => ClearStatusByte,
                0x3C8 => ClearKeyFlag,
                0x3CC => TestKeyFlag,
                0x3D4 => DecrementPointer,
                0x3DC => IncrementPointer,
            }
        }
    };
}

/// The operations of arithmetic words, each operation number, 00 to 1F, with its operation.
macro_rules! operations {
    ($write:ident $with:tt) => {
        $write! { $with Operation
            all {
                0x00 => ClearA,
                0x01 => ClearB,
                0x02 => ClearC,
                0x03 => ExchangeAB,
                0x04 => AToB,
                0x05 => ExchangeAC,
                0x06 => BToC,
                0x07 => ExchangeBC,
                0x08 => CToA,
                0x09 => AddBToA,
                0x0A => AddCToA,
                0x0B => IncrementA,
                0x0C => SubtractBFromA,
                0x0D => DecrementA,
                0x0E => SubtractCFromA,
                0x0F => DoubleC,
                0x10 => AddAToC,
                0x11 => IncrementC,
                0x12 => SubtractCFromAToC,
                0x13 => DecrementC,
                0x14 => NegateC,
                0x15 => ComplementC,
                0x16 => TestBNonzero,
                0x17 => TestCNonzero,
                0x18 => TestALessThanC,
                0x19 => TestALessThanB,
                0x1A => TestANonzero,
                0x1B => TestADiffersFromC,
                0x1C => ShiftRightA,
                0x1D => ShiftRightB,
                0x1E => ShiftRightC,
                0x1F => ShiftLeftA,
            }
        }
    };
}

/// The fields of arithmetic words, each field number, 0 to 7, with its field.
macro_rules! fields {
    ($write:ident $with:tt) => {
        $write! { $with Field
            all {
                0 => AtPointer,
                1 => SignAndExponent,
                2 => ToPointer,
                3 => All,
                4 => PToQ,
                5 => ExponentSign,
                6 => Mantissa,
                7 => MantissaSign,
            }
        }
    };
}

/// The numbers of status bits, pointer places and rotations in the instructions that take one: each line (the four high
/// bits of the word), with the number that it means. Lines 7 and 15 mean none.
macro_rules! mapped_column {
    ($write:ident $with:tt) => {
        $write! { $with
            0 => 3,
            1 => 4,
            2 => 5,
            3 => 10,
            4 => 8,
            5 => 6,
            6 => 11,
            8 => 2,
            9 => 9,
            10 => 7,
            11 => 13,
            12 => 1,
            13 => 12,
            14 => 0,
        }
    };
}

/// Generates the match from a number to the name that one part of a list gives it. Any other number has the given
/// value.
macro_rules! name_beside {
    ((all $($with:tt)*) $kind:ident all $part:tt) => { match_number!($kind $part $($with)*) };
    ((column_00 $($with:tt)*) $kind:ident column_00 $part:tt $($more:tt)*) => { match_number!($kind $part $($with)*) };
    ((column_18 $($with:tt)*) $kind:ident column_18 $part:tt $($more:tt)*) => { match_number!($kind $part $($with)*) };
    ((column_20 $($with:tt)*) $kind:ident column_20 $part:tt $($more:tt)*) => { match_number!($kind $part $($with)*) };
    ((column_30 $($with:tt)*) $kind:ident column_30 $part:tt $($more:tt)*) => { match_number!($kind $part $($with)*) };
    ((column_38 $($with:tt)*) $kind:ident column_38 $part:tt $($more:tt)*) => { match_number!($kind $part $($with)*) };
    ((unmapped $($with:tt)*) $kind:ident unmapped $part:tt $($more:tt)*) => { match_number!($kind $part $($with)*) };
    ($with:tt $kind:ident $other:ident $part:tt $($more:tt)*) => { name_beside!($with $kind $($more)*) };
}

/// Generates the match from a number to its name for one part of a list. `name_beside` has selected this part.
macro_rules! match_number {
    (
        $kind:ident { $($number:literal => $name:ident $(($operand:path))?,)* }
        of $value:expr, else $other:expr
    ) => {
        match $value {
            $($number => $kind::$name $(($operand))?,)*
            _ => $other,
        }
    };
}

/// Generates the match from each name of a list to the number beside it. Any other name has the given value.
macro_rules! number_beside {
    (
        (of $value:expr $(, else $other:expr)?) $kind:ident
        $($part:ident { $($number:literal => $name:ident $(($operand:path))?,)* })*
    ) => {
        match $value {
            $($($kind::$name $(($operand))? => $number,)*)*
            $(_ => $other,)?
        }
    };
}

/// Generates the match from a line (the four high bits of a word) to the number that the line means, `None` if it means
/// none.
macro_rules! number_of_line {
    ((of $value:expr) $($line:literal => $meant:literal,)*) => {
        match $value {
            $($line => Some($meant),)*
            _ => None,
        }
    };
}

/// Generates the match from a number, 0 to 13, to the line (the four high bits of a word) that means it.
macro_rules! line_of_number {
    ((of $value:expr) $($line:literal => $meant:literal,)*) => {
        match $value {
            $($meant => $line,)*
            _ => unreachable!(),
        }
    };
}

/// Returns the row of the table of words, which is the meaning, of a word. Every ten-bit word has one.
#[inline(always)]
pub fn row(word: Word) -> Row
    ensures row { result ≡ spec.row_of word }
    ensures length { spec.words_of result ≡ spec.length_of word }
{
    let number = word.number();
    if number % 2 == 1 {
        jump(word)
    } else if number % 4 == 2 {
        Row::Arithmetic(operation(number / 32 % 32), field(number / 4 % 8))
    } else {
        miscellaneous(word)
    }
}

/// Returns the row of the table of words for a jump, long or short: a word whose lowest bit is 1.
#[tactic(auto, unfolding(crate::specs::WordTable::number_of))]
#[inline(always)]
fn jump(word: Word) -> Row
    requires { word % 2 ≡ 1 }
    ensures number { spec.number_of result ≡ word }
    ensures valid { spec.IsRow result }
{
    let number = word.number();
    if number / 2 % 2 == 0 {
        Row::LongJump((number / 4) as u8)
    } else {
        short_jump(word)
    }
}

/// Returns the arithmetic operation with an operation number from 0 to 31.
#[inline(always)]
fn operation(number: u16) -> Operation
    requires { number < 32 }
    ensures { spec.operation_number result ≡ number }
{
    operations!(name_beside (all of number, else unreachable!()))
}

/// Returns the field of arithmetic words with a field number from 0 to 7.
#[inline(always)]
fn field(number: u16) -> Field
    requires { number < 8 }
    ensures { spec.field_number result ≡ number }
{
    fields!(name_beside (all of number, else unreachable!()))
}

/// Returns the row of the table of words for a short jump: a word whose two low bits are 1.
#[tactic(auto, unfolding(crate::specs::WordTable::number_of))]
#[inline(always)]
fn short_jump(word: Word) -> Row
    requires { word % 4 ≡ 3 }
    ensures number { spec.number_of result ≡ word }
    ensures valid { spec.IsRow result }
{
    let number = word.number();
    Row::ShortJump(condition(number / 4 % 2), displacement(number / 8))
}

/// Returns the condition that a bit encodes: 0 for a clear carry, 1 for a set carry.
#[inline(always)]
fn condition(bit: u16) -> Condition
    requires { bit < 2 }
    ensures { spec.condition_bit result ≡ bit }
{
    if bit == 0 {
        Condition::NoCarry
    } else {
        Condition::Carry
    }
}

/// Returns the displacement of a short jump, -64 to 63 words, that seven bits, 0 to 127, encode. The bits 64 to 127
/// encode -64 to -1.
#[inline(always)]
fn displacement(bits: u16) -> Displacement
    requires { bits < 128 }
    ensures { spec.displacement_bits result ≡ bits }
{
    let bits = bits as i16;
    let words = if bits < 64 { bits } else { bits - 128 };
    Displacement::new(words as i8)
}

/// Returns the row of the table of words for a word whose two low bits are 00.
#[tactic(auto, unfolding(crate::specs::WordTable::number_of))]
#[inline(always)]
fn miscellaneous(word: Word) -> Row
    requires { word % 4 ≡ 0 }
    ensures number { spec.number_of result ≡ word }
    ensures valid { spec.IsRow result }
{
    let number = word.number();
    let line = (number / 64) as u8;
    match number % 64 {
        0x00 => column_00(word),
        0x10 => Row::LoadDigit(LoadedDigit::new(line)),
        0x18 => column_18(word),
        0x20 => column_20(word),
        0x28 => Row::Write(BlockRegister::new(line)),
        0x30 => column_30(word),
        0x38 => column_38(word),
        0x24 | 0x2C | 0x34 => Row::Constant(UnassignedWord::new(word)),
        _ => match meant_by(line) {
            Some(meant) => mapped(word, meant),
            None => unmapped(word),
        },
    }
}

/// Returns the number, 0 to 13, of a status bit, pointer place or rotation that a line (the four high bits of the
/// word), 0 to 15, means. Returns `None` for lines 7 and 15.
#[inline(always)]
fn meant_by(line: u8) -> Option<u8>
    requires { line < 16 }
    ensures meant { IfSome result (λ number. spec.mapped_line number ≡ line) }
    ensures bound { IfSome result (λ number. number < place_count) }
    ensures none { IfNone result ((line ≡ 7) ⊎ (line ≡ 15)) }
{
    mapped_column!(number_of_line (of line))
}

/// Returns the row of the table of words for an instruction with a number `meant` from 0 to 13, such as `CLRF n`. The
/// word's four high bits encode this number.
#[tactic(auto, unfolding(crate::specs::WordTable::number_of))]
#[inline(always)]
fn mapped(word: Word, meant: u8) -> Row
    requires column { IsMappedColumn (word % 64) }
    requires meant { spec.mapped_line meant ≡ word / 64 }
    requires bound { meant < place_count }
    ensures number { spec.number_of result ≡ word }
    ensures valid { spec.IsRow result }
{
    match word.number() % 64 {
        0x04 => Row::ClearStatus(StatusBit::new(meant)),
        0x08 => Row::SetStatus(StatusBit::new(meant)),
        0x0C => Row::TestStatus(StatusBit::new(meant)),
        0x14 => Row::TestPointer(DigitPlace::new(meant)),
        0x1C => Row::SetPointer(DigitPlace::new(meant)),
        _ => Row::RotateRight(DigitPlace::new(meant)),
    }
}

/// Returns the row of the table of words for a word with 7 or 15 as its four high bits, in a column (the six low bits)
/// in which the other values encode the operand of an instruction, such as `CLRF n`.
#[tactic(auto, unfolding(crate::specs::WordTable::number_of))]
#[inline(always)]
fn unmapped(word: Word) -> Row
    requires column { IsMappedColumn (word % 64) }
    requires line { (word / 64 ≡ 7) ⊎ (word / 64 ≡ 15) }
    ensures number { spec.number_of result ≡ word }
    ensures valid { spec.IsRow result }
{
    single_words!(name_beside (unmapped of word.number(), else Row::Constant(UnassignedWord::new(word))))
}

/// Returns the row of the table of words for a word whose six low bits are 00 (hexadecimal).
#[tactic(auto, unfolding(crate::specs::WordTable::number_of))]
#[inline(always)]
fn column_00(word: Word) -> Row
    requires { word % 64 ≡ 0x00 }
    ensures number { spec.number_of result ≡ word }
    ensures valid { spec.IsRow result }
{
    single_words!(name_beside (column_00 of word.number(), else Row::Constant(UnassignedWord::new(word))))
}

/// Returns the row of the table of words for a word whose six low bits are 18 (hexadecimal).
#[tactic(auto, unfolding(crate::specs::WordTable::number_of))]
#[inline(always)]
fn column_18(word: Word) -> Row
    requires { word % 64 ≡ 0x18 }
    ensures number { spec.number_of result ≡ word }
    ensures valid { spec.IsRow result }
{
    single_words!(name_beside (column_18 of word.number(), else Row::Constant(UnassignedWord::new(word))))
}

/// Returns the row of the table of words for a word whose six low bits are 20 (hexadecimal).
#[tactic(auto, unfolding(crate::specs::WordTable::number_of))]
#[inline(always)]
fn column_20(word: Word) -> Row
    requires { word % 64 ≡ 0x20 }
    ensures number { spec.number_of result ≡ word }
    ensures valid { spec.IsRow result }
{
    single_words!(name_beside (column_20 of word.number(), else unreachable!()))
}

/// Returns the row of the table of words for a word whose six low bits are 30 (hexadecimal).
#[tactic(auto, unfolding(crate::specs::WordTable::number_of))]
#[inline(always)]
fn column_30(word: Word) -> Row
    requires { word % 64 ≡ 0x30 }
    ensures number { spec.number_of result ≡ word }
    ensures valid { spec.IsRow result }
{
    single_words!(name_beside (column_30 of word.number(), else Row::Constant(UnassignedWord::new(word))))
}

/// Returns the row of the table of words for a word whose six low bits are 38 (hexadecimal).
#[tactic(auto, unfolding(crate::specs::WordTable::number_of))]
#[inline(always)]
fn column_38(word: Word) -> Row
    requires { word % 64 ≡ 0x38 }
    ensures number { spec.number_of result ≡ word }
    ensures valid { spec.IsRow result }
{
    let number = word.number();
    let line = (number / 64) as u8;
    single_words!(name_beside (column_38 of number, else Row::Read(ReadRegister::new(line))))
}

/// Returns the ten-bit word that has a row of the table of words as its meaning.
pub fn word(row: Row) -> Word
    ensures { result ≡ spec.number_of row }
{
    Word::of(number(row))
}

/// Returns the number, 000 to 3FF (hexadecimal), of the word that has a row of the table of words as its meaning.
#[tactic(auto, unfolding(crate::specs::WordTable::number_of))]
fn number(row: Row) -> u16
    ensures value { result ≡ spec.number_of row }
    ensures bound { result < word_count }
{
    match row {
        Row::Arithmetic(operation, field) => {
            operation_number(operation) * 32 + field_number(field) * 4 + 2
        }
        Row::LongJump(low_byte) => u16::from(low_byte) * 4 + 1,
        Row::ShortJump(condition, displacement) => {
            displacement_bits(displacement) * 8 + condition_bit(condition) * 4 + 3
        }
        Row::ClearStatus(bit) => at(line_of(bit.number()), 0x04),
        Row::SetStatus(bit) => at(line_of(bit.number()), 0x08),
        Row::TestStatus(bit) => at(line_of(bit.number()), 0x0C),
        Row::TestPointer(place) => at(line_of(place.number()), 0x14),
        Row::SetPointer(place) => at(line_of(place.number()), 0x1C),
        Row::RotateRight(digits) => at(line_of(digits.number()), 0x3C),
        Row::LoadDigit(digit) => at(digit.number(), 0x10),
        Row::Write(register) => at(register.number(), 0x28),
        Row::Read(register) => at(register.number(), 0x38),
        Row::Constant(unassigned) => unassigned.word().number(),
        single => single_words!(number_beside (of single, else unreachable!())),
    }
}

/// Returns the number of the word whose four high bits are `line`, 0 to 15, and whose six low bits are `column`.
fn at(line: u8, column: u16) -> u16
    requires line { line < 16 }
    requires column { column < 64 }
    ensures value { result ≡ spec.word_at line column }
    ensures bound { result < word_count }
{
    u16::from(line) * 64 + column
}

/// Returns the four high bits of an instruction word, 0 to 14, that encode a status bit, pointer place or rotation from
/// 0 to 13.
fn line_of(meant: u8) -> u8
    requires { meant < place_count }
    ensures value { result ≡ spec.mapped_line meant }
    ensures bound { result < 15 }
{
    mapped_column!(line_of_number (of meant))
}

/// Returns the seven bits, 0 to 127, that encode a displacement of -64 to 63 words in a short jump. Those from 64 on
/// encode the negative displacements.
#[tactic(auto, using(crate::proofs::Displacements::bits_backward, crate::proofs::Displacements::bits_forward))]
fn displacement_bits(displacement: Displacement) -> u16
    ensures value { result ≡ spec.displacement_bits displacement }
    ensures bound { result < 128 }
{
    let words = displacement.words();
    let size = u16::from(words.unsigned_abs());
    if words < 0 { 128 - size } else { size }
}

/// Returns the bit that encodes a condition in bit 2 of a short jump: 0 for a clear carry, 1 for a set carry.
fn condition_bit(condition: Condition) -> u16
    ensures value { result ≡ spec.condition_bit condition }
    ensures bound { result < 2 }
{
    match condition {
        Condition::NoCarry => 0,
        Condition::Carry => 1,
    }
}

/// Returns the number, 0 to 31, of an arithmetic operation in the words.
fn operation_number(operation: Operation) -> u16
    ensures value { result ≡ spec.operation_number operation }
    ensures bound { result < 32 }
{
    operations!(number_beside (of operation))
}

/// Returns the number, 0 to 7, of a field in arithmetic words.
fn field_number(field: Field) -> u16
    ensures value { result ≡ spec.field_number field }
    ensures bound { result < 8 }
{
    fields!(number_beside (of field))
}

/// Returns the number of words, 1 or 2, of an instruction that begins with a word. A jump by address and `LDI` have
/// two.
pub fn length(word: Word) -> u16
    ensures { result ≡ spec.length_of word }
{
    match row(word) {
        Row::LongJump(_) | Row::LoadImmediate => 2,
        _ => 1,
    }
}
