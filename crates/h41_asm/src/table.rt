//! The first words of mnemonics, and the directives, each with the kind of instruction or directive that it begins.

use h41_words::{Condition, LongJumpKind, Operation};

/// The kind of operand that a mnemonic or a directive takes. It also contains what the mnemonic itself determines, for
/// example the operation on a field, or the condition of a jump.
#[derive(Clone, Copy)]
pub(crate) enum Taking {
    /// The name of a field, such as `ALL` in `A=A+1 ALL`, with the operation on it.
    Field(Operation),
    /// A number, such as the 5 in `SETF 5`, with the instruction that takes it.
    Number(Numbered),
    /// `LDI hhh`: three hexadecimal digits, for the second word of the instruction.
    Immediate,
    /// `CON hhh`: three hexadecimal digits, which are the word itself.
    Constant,
    /// For a jump by address, such as `?NC XQ`: four hexadecimal digits of an address, or a label.
    LongJump(Condition, LongJumpKind),
    /// For a short jump, `JNC` or `JC`: a displacement in words, or a label.
    ShortJump(Condition),
    /// `NAME "text"`: a text in quotes, of 1 to 11 characters, for the name of a function.
    Name,
    /// `ENTRY :name` and `FOCAL :name`: the label at which a function begins.
    Entry(EntryKind),
}

/// The kind of a function of a module, as its table entry gives it.
#[derive(Clone, Copy)]
pub(crate) enum EntryKind {
    /// A function in microcode (`ENTRY`).
    Microcode,
    /// A keystroke program (`FOCAL`).
    Keystroke,
}

/// An instruction that takes a decimal number.
#[derive(Clone, Copy)]
pub(crate) enum Numbered {
    /// `CLRF n`: clears a status bit, 0 to 13.
    ClearStatus,
    /// `SETF n`: sets a status bit, 0 to 13.
    SetStatus,
    /// `?FSET n`: tests a status bit, 0 to 13.
    TestStatus,
    /// `?R= n`: tests whether the active pointer is at a digit place, 0 to 13.
    TestPointer,
    /// `R= n`: moves the active pointer to a digit place, 0 to 13.
    SetPointer,
    /// `RCR n`: rotates C right by 0 to 13 digits.
    RotateRight,
    /// `LD@R n`: loads a digit, 0 to 15, into C.
    LoadDigit,
    /// `WRIT n`: writes C to a register, 0 to 15, of a block of 16.
    Write,
    /// `READ n`: reads a register, 1 to 15, of a block of 16 into C.
    Read,
}

/// The kind of instruction or directive that the first word of a source line begins. ROM words are given by their
/// numbers.
#[derive(Clone, Copy)]
pub(crate) enum Opening {
    /// An instruction without an operand, and the number of its word, 000 to 3FF (hexadecimal).
    Single(u16),
    /// An instruction or a directive with one operand.
    Taker(Taking),
    /// `READ` or `WRIT`: with `DATA` after it, the instruction with the given word; with a number, the given
    /// instruction that takes a number.
    Data(u16, Numbered),
    /// `PUSH`, with which a source line begins if its mnemonic is `PUSH ADR`.
    Push,
    /// `POP`, with which a source line begins if its mnemonic is `POP ADR`.
    Pop,
    /// `RAM`, with which a source line begins if its mnemonic is `RAM SLCT`.
    Ram,
    /// `PRPH`, with which a source line begins if its mnemonic is `PRPH SLCT`.
    Peripheral,
    /// `FETCH`, with which a source line begins if its mnemonic is `FETCH S&X`.
    Fetch,
    /// `SLCT`, with which a source line begins if its mnemonic is `SLCT P` or `SLCT Q`.
    Select,
    /// `GOTO`, with which a source line begins if its mnemonic is `GOTO ADR` or `GOTO KEY`.
    GoTo,
    /// `C=C`, with which a source line begins if its mnemonic is `C=C OR A` or `C=C AND A`.
    Logic,
    /// `?C` or `?NC`, with which a source line begins if it is a return, a call or a jump with a condition.
    If(Condition),
}

/// The first words of all mnemonics and directives, each with the kind of instruction or directive that it begins.
pub(crate) static OPENINGS: [(&str, Opening); 95] = [
    ("NOP", Opening::Single(0x000)),
    ("WROM", Opening::Single(0x040)),
    ("ENBANK1", Opening::Single(0x100)),
    ("ENBANK2", Opening::Single(0x180)),
    ("ENBANK3", Opening::Single(0x140)),
    ("ENBANK4", Opening::Single(0x1C0)),
    ("ST=0", Opening::Single(0x3C4)),
    ("CLRKEY", Opening::Single(0x3C8)),
    ("?KEY", Opening::Single(0x3CC)),
    ("R=R-1", Opening::Single(0x3D4)),
    ("R=R+1", Opening::Single(0x3DC)),
    ("READ", Opening::Data(0x038, Numbered::Read)),
    ("G=C", Opening::Single(0x058)),
    ("C=G", Opening::Single(0x098)),
    ("C<>G", Opening::Single(0x0D8)),
    ("M=C", Opening::Single(0x158)),
    ("C=M", Opening::Single(0x198)),
    ("C<>M", Opening::Single(0x1D8)),
    ("T=ST", Opening::Single(0x258)),
    ("ST=T", Opening::Single(0x298)),
    ("ST<>T", Opening::Single(0x2D8)),
    ("ST=C", Opening::Single(0x358)),
    ("C=ST", Opening::Single(0x398)),
    ("C<>ST", Opening::Single(0x3D8)),
    ("XQ->GO", Opening::Single(0x020)),
    ("POWOFF", Opening::Single(0x060)),
    ("SLCT", Opening::Select),
    ("?P=Q", Opening::Single(0x120)),
    ("?LLD", Opening::Single(0x160)),
    ("CLRABC", Opening::Single(0x1A0)),
    ("GOTO", Opening::GoTo),
    ("C=KEY", Opening::Single(0x220)),
    ("SETHEX", Opening::Single(0x260)),
    ("SETDEC", Opening::Single(0x2A0)),
    ("DISOFF", Opening::Single(0x2E0)),
    ("DISTOG", Opening::Single(0x320)),
    ("?C", Opening::If(Condition::Carry)),
    ("?NC", Opening::If(Condition::NoCarry)),
    ("RTN", Opening::Single(0x3E0)),
    ("N=C", Opening::Single(0x070)),
    ("C=N", Opening::Single(0x0B0)),
    ("C<>N", Opening::Single(0x0F0)),
    ("PUSH", Opening::Push),
    ("POP", Opening::Pop),
    ("RAM", Opening::Ram),
    ("WRIT", Opening::Data(0x2F0, Numbered::Write)),
    ("FETCH", Opening::Fetch),
    ("C=C", Opening::Logic),
    ("PRPH", Opening::Peripheral),
    ("A=0", Opening::Taker(Taking::Field(Operation::ClearA))),
    ("B=0", Opening::Taker(Taking::Field(Operation::ClearB))),
    ("C=0", Opening::Taker(Taking::Field(Operation::ClearC))),
    ("A<>B", Opening::Taker(Taking::Field(Operation::ExchangeAB))),
    ("B=A", Opening::Taker(Taking::Field(Operation::AToB))),
    ("A<>C", Opening::Taker(Taking::Field(Operation::ExchangeAC))),
    ("C=B", Opening::Taker(Taking::Field(Operation::BToC))),
    ("B<>C", Opening::Taker(Taking::Field(Operation::ExchangeBC))),
    ("A=C", Opening::Taker(Taking::Field(Operation::CToA))),
    ("A=A+B", Opening::Taker(Taking::Field(Operation::AddBToA))),
    ("A=A+C", Opening::Taker(Taking::Field(Operation::AddCToA))),
    (
        "A=A+1",
        Opening::Taker(Taking::Field(Operation::IncrementA)),
    ),
    (
        "A=A-B",
        Opening::Taker(Taking::Field(Operation::SubtractBFromA)),
    ),
    (
        "A=A-1",
        Opening::Taker(Taking::Field(Operation::DecrementA)),
    ),
    (
        "A=A-C",
        Opening::Taker(Taking::Field(Operation::SubtractCFromA)),
    ),
    ("C=C+C", Opening::Taker(Taking::Field(Operation::DoubleC))),
    ("C=A+C", Opening::Taker(Taking::Field(Operation::AddAToC))),
    (
        "C=C+1",
        Opening::Taker(Taking::Field(Operation::IncrementC)),
    ),
    (
        "C=A-C",
        Opening::Taker(Taking::Field(Operation::SubtractCFromAToC)),
    ),
    (
        "C=C-1",
        Opening::Taker(Taking::Field(Operation::DecrementC)),
    ),
    ("C=0-C", Opening::Taker(Taking::Field(Operation::NegateC))),
    (
        "C=-C-1",
        Opening::Taker(Taking::Field(Operation::ComplementC)),
    ),
    (
        "?B#0",
        Opening::Taker(Taking::Field(Operation::TestBNonzero)),
    ),
    (
        "?C#0",
        Opening::Taker(Taking::Field(Operation::TestCNonzero)),
    ),
    (
        "?A<C",
        Opening::Taker(Taking::Field(Operation::TestALessThanC)),
    ),
    (
        "?A<B",
        Opening::Taker(Taking::Field(Operation::TestALessThanB)),
    ),
    (
        "?A#0",
        Opening::Taker(Taking::Field(Operation::TestANonzero)),
    ),
    (
        "?A#C",
        Opening::Taker(Taking::Field(Operation::TestADiffersFromC)),
    ),
    (
        "RSHFA",
        Opening::Taker(Taking::Field(Operation::ShiftRightA)),
    ),
    (
        "RSHFB",
        Opening::Taker(Taking::Field(Operation::ShiftRightB)),
    ),
    (
        "RSHFC",
        Opening::Taker(Taking::Field(Operation::ShiftRightC)),
    ),
    (
        "LSHFA",
        Opening::Taker(Taking::Field(Operation::ShiftLeftA)),
    ),
    (
        "CLRF",
        Opening::Taker(Taking::Number(Numbered::ClearStatus)),
    ),
    ("SETF", Opening::Taker(Taking::Number(Numbered::SetStatus))),
    (
        "?FSET",
        Opening::Taker(Taking::Number(Numbered::TestStatus)),
    ),
    ("?R=", Opening::Taker(Taking::Number(Numbered::TestPointer))),
    ("R=", Opening::Taker(Taking::Number(Numbered::SetPointer))),
    ("RCR", Opening::Taker(Taking::Number(Numbered::RotateRight))),
    ("LD@R", Opening::Taker(Taking::Number(Numbered::LoadDigit))),
    ("LDI", Opening::Taker(Taking::Immediate)),
    ("CON", Opening::Taker(Taking::Constant)),
    ("JNC", Opening::Taker(Taking::ShortJump(Condition::NoCarry))),
    ("JC", Opening::Taker(Taking::ShortJump(Condition::Carry))),
    ("NAME", Opening::Taker(Taking::Name)),
    ("ENTRY", Opening::Taker(Taking::Entry(EntryKind::Microcode))),
    ("FOCAL", Opening::Taker(Taking::Entry(EntryKind::Keystroke))),
];

/// The index in `OPENINGS` of the first word that has a given hash, 0 to 255. For a hash that no first word has, the
/// index has no meaning.
pub(crate) static PLACES: [u8; 256] = [
    0, 16, 0, 0, 60, 0, 75, 0, 0, 0, 0, 53, 0, 0, 14, 0, 90, 50, 0, 0, 0, 0, 61, 5, 7, 89, 0, 0,
    62, 0, 0, 0, 0, 0, 0, 0, 0, 0, 84, 0, 0, 38, 73, 0, 0, 71, 0, 0, 31, 0, 0, 0, 0, 0, 15, 0, 51,
    59, 0, 0, 0, 40, 0, 0, 65, 81, 80, 0, 0, 0, 0, 0, 12, 0, 0, 0, 88, 70, 27, 0, 0, 92, 63, 0, 0,
    72, 77, 1, 67, 0, 66, 57, 37, 0, 39, 6, 0, 0, 87, 33, 2, 0, 0, 0, 0, 0, 0, 93, 0, 0, 55, 0, 0,
    18, 68, 0, 25, 17, 0, 76, 0, 0, 0, 0, 0, 0, 0, 0, 0, 24, 0, 0, 44, 23, 0, 0, 0, 0, 0, 0, 0, 30,
    0, 64, 0, 52, 78, 0, 43, 0, 0, 0, 0, 13, 0, 94, 48, 0, 0, 3, 0, 83, 0, 0, 0, 0, 0, 0, 0, 0, 47,
    0, 0, 0, 0, 0, 45, 41, 0, 0, 0, 35, 20, 69, 42, 0, 0, 0, 0, 0, 0, 0, 0, 22, 29, 11, 0, 34, 0,
    0, 86, 8, 0, 19, 82, 54, 79, 0, 46, 21, 0, 0, 0, 0, 0, 26, 0, 36, 85, 4, 0, 28, 10, 91, 0, 0,
    0, 0, 0, 0, 0, 0, 0, 49, 0, 32, 0, 0, 74, 0, 0, 0, 0, 0, 0, 0, 56, 9, 0, 0, 0, 0, 0, 58, 0, 0,
];
