//! The names that the texts of instructions contain: the mnemonics, and the names of the fields of a register.

ghost use Rattle.std.specs.Prelude.{◌≡◌, ◌≤◌, length};
ghost use Rattle.h41_words.specs.Mnemonics as spec;

use h41_fields::{Field, Pointer};
use h41_words::{Bank, Condition, LongJumpKind, Operation, RegisterTransfer, Row};

/// Returns the mnemonic of a row of the word table, without its operand. It is `CON` for the first word of an
/// instruction of two words, and for a word that is no instruction.
pub(crate) fn mnemonic(row: &Row) -> &'static str
    ensures { result.now ≡ spec.mnemonic row.now }
{
    match row {
        Row::Arithmetic(operation, _) => operation_name(*operation),
        Row::ShortJump(condition, _) => short_jump_name(*condition),
        Row::ClearStatus(_) => "CLRF",
        Row::SetStatus(_) => "SETF",
        Row::TestStatus(_) => "?FSET",
        Row::TestPointer(_) => "?R=",
        Row::SetPointer(_) => "R=",
        Row::RotateRight(_) => "RCR",
        Row::LoadDigit(_) => "LD@R",
        Row::Write(_) => "WRIT",
        Row::Read(_) => "READ",
        Row::Nop => "NOP",
        Row::WriteRom => "WROM",
        Row::EnableBank(bank) => bank_name(*bank),
        Row::ClearStatusByte => "ST=0",
        Row::ClearKeyFlag => "CLRKEY",
        Row::TestKeyFlag => "?KEY",
        Row::DecrementPointer => "R=R-1",
        Row::IncrementPointer => "R=R+1",
        Row::ReadData => "READ DATA",
        Row::DropReturn => "XQ->GO",
        Row::PowerOff => "POWOFF",
        Row::SelectPointer(pointer) => selection_name(*pointer),
        Row::TestPointersEqual => "?P=Q",
        Row::TestLowBattery => "?LLD",
        Row::ClearRegisters => "CLRABC",
        Row::GoToAddress => "GOTO ADR",
        Row::ReadKey => "C=KEY",
        Row::SetHexadecimal => "SETHEX",
        Row::SetDecimal => "SETDEC",
        Row::DisplayOff => "DISOFF",
        Row::ToggleDisplay => "DISTOG",
        Row::ReturnIf(condition) => return_name(*condition),
        Row::Return => "RTN",
        Row::PushAddress => "PUSH ADR",
        Row::PopAddress => "POP ADR",
        Row::GoToKey => "GOTO KEY",
        Row::SelectRegister => "RAM SLCT",
        Row::WriteData => "WRIT DATA",
        Row::FetchWord => "FETCH S&X",
        Row::Or => "C=C OR A",
        Row::And => "C=C AND A",
        Row::SelectPeripheral => "PRPH SLCT",
        Row::Transfer(transfer) => transfer_name(*transfer),
        Row::Constant(_) | Row::LongJump(_) | Row::LoadImmediate => "CON",
    }
}

/// Returns the mnemonic of an arithmetic instruction without the name of its field, for example `C=A+C`.
fn operation_name(operation: Operation) -> &'static str
    ensures { result.now ≡ spec.operation_text operation }
{
    match operation {
        Operation::ClearA => "A=0",
        Operation::ClearB => "B=0",
        Operation::ClearC => "C=0",
        Operation::ExchangeAB => "A<>B",
        Operation::AToB => "B=A",
        Operation::ExchangeAC => "A<>C",
        Operation::BToC => "C=B",
        Operation::ExchangeBC => "B<>C",
        Operation::CToA => "A=C",
        Operation::AddBToA => "A=A+B",
        Operation::AddCToA => "A=A+C",
        Operation::IncrementA => "A=A+1",
        Operation::SubtractBFromA => "A=A-B",
        Operation::DecrementA => "A=A-1",
        Operation::SubtractCFromA => "A=A-C",
        Operation::DoubleC => "C=C+C",
        Operation::AddAToC => "C=A+C",
        Operation::IncrementC => "C=C+1",
        Operation::SubtractCFromAToC => "C=A-C",
        Operation::DecrementC => "C=C-1",
        Operation::NegateC => "C=0-C",
        Operation::ComplementC => "C=-C-1",
        Operation::TestBNonzero => "?B#0",
        Operation::TestCNonzero => "?C#0",
        Operation::TestALessThanC => "?A<C",
        Operation::TestALessThanB => "?A<B",
        Operation::TestANonzero => "?A#0",
        Operation::TestADiffersFromC => "?A#C",
        Operation::ShiftRightA => "RSHFA",
        Operation::ShiftRightB => "RSHFB",
        Operation::ShiftRightC => "RSHFC",
        Operation::ShiftLeftA => "LSHFA",
    }
}

/// Returns the name of a field of a register, for example `S&X` for the exponent and its sign; at most three bytes.
pub(crate) fn field_name(field: Field) -> &'static str
    ensures text { result.now ≡ spec.field_text field }
    ensures short { length result.now ≤ 3 }
{
    match field {
        Field::AtPointer => "@R",
        Field::SignAndExponent => "S&X",
        Field::ToPointer => "R<",
        Field::All => "ALL",
        Field::PToQ => "P-Q",
        Field::ExponentSign => "XS",
        Field::Mantissa => "M",
        Field::MantissaSign => "MS",
    }
}

/// Returns the mnemonic of the instruction that copies or exchanges two registers, for example `C<>G`.
fn transfer_name(transfer: RegisterTransfer) -> &'static str
    ensures { result.now ≡ spec.transfer_text transfer }
{
    match transfer {
        RegisterTransfer::CToG => "G=C",
        RegisterTransfer::GToC => "C=G",
        RegisterTransfer::ExchangeCG => "C<>G",
        RegisterTransfer::CToM => "M=C",
        RegisterTransfer::MToC => "C=M",
        RegisterTransfer::ExchangeCM => "C<>M",
        RegisterTransfer::StatusToT => "T=ST",
        RegisterTransfer::TToStatus => "ST=T",
        RegisterTransfer::ExchangeStatusT => "ST<>T",
        RegisterTransfer::CToStatus => "ST=C",
        RegisterTransfer::StatusToC => "C=ST",
        RegisterTransfer::ExchangeCStatus => "C<>ST",
        RegisterTransfer::CToN => "N=C",
        RegisterTransfer::NToC => "C=N",
        RegisterTransfer::ExchangeCN => "C<>N",
    }
}

/// Returns the mnemonic of a short jump: `JNC` if it jumps when the carry is clear, `JC` if it jumps when the carry is
/// set.
fn short_jump_name(condition: Condition) -> &'static str
    ensures { result.now ≡ spec.short_jump_text condition }
{
    match condition {
        Condition::NoCarry => "JNC",
        Condition::Carry => "JC",
    }
}

/// Returns the mnemonic of a jump by address: `?NC XQ`, `?C XQ`, `?NC GO` or `?C GO`; at most six bytes.
pub(crate) fn long_jump_name(condition: Condition, kind: LongJumpKind) -> &'static str
    ensures text { result.now ≡ spec.long_jump_text condition kind }
    ensures short { length result.now ≤ 6 }
{
    match (condition, kind) {
        (Condition::NoCarry, LongJumpKind::Execute) => "?NC XQ",
        (Condition::Carry, LongJumpKind::Execute) => "?C XQ",
        (Condition::NoCarry, LongJumpKind::Go) => "?NC GO",
        (Condition::Carry, LongJumpKind::Go) => "?C GO",
    }
}

/// Returns the mnemonic of the instruction that activates a bank: `ENBANK1` to `ENBANK4`.
fn bank_name(bank: Bank) -> &'static str
    ensures { result.now ≡ spec.bank_text bank }
{
    match bank {
        Bank::First => "ENBANK1",
        Bank::Second => "ENBANK2",
        Bank::Third => "ENBANK3",
        Bank::Fourth => "ENBANK4",
    }
}

/// Returns the mnemonic of the instruction that selects a pointer: `SLCT P` or `SLCT Q`.
fn selection_name(pointer: Pointer) -> &'static str
    ensures { result.now ≡ spec.selection_text pointer }
{
    match pointer {
        Pointer::P => "SLCT P",
        Pointer::Q => "SLCT Q",
    }
}

/// Returns the mnemonic of a conditional return: `?NC RTN` if it returns when the carry is clear, `?C RTN` if it
/// returns when the carry is set.
fn return_name(condition: Condition) -> &'static str
    ensures { result.now ≡ spec.return_text condition }
{
    match condition {
        Condition::NoCarry => "?NC RTN",
        Condition::Carry => "?C RTN",
    }
}
