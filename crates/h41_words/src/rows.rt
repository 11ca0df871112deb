//! The rows of the table of words: the possible meanings of a word. The comment of each begins with the mnemonic.
use crate::operands::{
    BlockRegister, DigitPlace, Displacement, LoadedDigit, ReadRegister, StatusBit,
};
use crate::operation::Operation;
use crate::unassigned::UnassignedWord;
use h41_fields::{Field, Pointer};

/// The meaning of a ROM word that is not the second word of an instruction: one row of the table of words, with the
/// operands that this word contains, if any. `Constant` is the row of all words that are no instruction.
#[derive(Clone, Copy, Debug, PartialEq, Eq)]
pub enum Row {
    /// `A=A+1 ALL` and the like: performs an operation on a field of the registers A, B and C.
    Arithmetic(Operation, Field),
    /// `?NC XQ`, `?C XQ`, `?NC GO` or `?C GO`: the first word of a jump by address, with the low byte of the address. The second
    /// word (`SecondWord`) has the high byte and determines which of the four jumps it is.
    LongJump(u8),
    /// `JNC +hh` and `JC +hh`: jumps by a displacement if the carry is clear (`JNC`) or set (`JC`).
    ShortJump(Condition, Displacement),
    /// `CLRF n`: clears status bit `n`.
    ClearStatus(StatusBit),
    /// `SETF n`: sets status bit `n`.
    SetStatus(StatusBit),
    /// `?FSET n`: sets the carry if status bit `n` is set.
    TestStatus(StatusBit),
    /// `?R= n`: sets the carry if the active pointer is at digit place `n`.
    TestPointer(DigitPlace),
    /// `R= n`: moves the active pointer to digit place `n`.
    SetPointer(DigitPlace),
    /// `RCR n`: rotates C right by `n` digits.
    RotateRight(DigitPlace),
    /// `LD@R n`: writes the digit `n` to C at the active pointer's place, and moves the pointer down one place.
    LoadDigit(LoadedDigit),
    /// `WRIT n`: writes C to register `n` of the selected block of 16 registers of the memory, and selects this
    /// register.
    Write(BlockRegister),
    /// `READ n`: copies register `n` of the selected block of 16 registers of the memory to C, and selects this
    /// register.
    Read(ReadRegister),
    /// `CON hhh`: a word, with the number `hhh` in hexadecimal, that is no instruction.
    Constant(UnassignedWord),

    /// `NOP`: does nothing.
    Nop,
    /// `WROM`: writes the low ten bits of the digits 2 to 0 of C, as a word, to the address in the digits 6 to 3 of C.
    WriteRom,
    /// `ENBANK1` to `ENBANK4`: makes bank 1, 2, 3 or 4 the active bank of the page that contains the word.
    EnableBank(Bank),
    /// `ST=0`: clears the status bits 0 to 7.
    ClearStatusByte,
    /// `CLRKEY`: clears the key flag.
    ClearKeyFlag,
    /// `?KEY`: sets the carry if the key flag is set.
    TestKeyFlag,
    /// `R=R-1`: moves the active pointer down (to the right) by one digit place.
    DecrementPointer,
    /// `R=R+1`: moves the active pointer up (to the left) by one digit place.
    IncrementPointer,
    /// `G=C`, `C=M`, `ST<>T` and the like: copies one of two registers to the other, or exchanges them.
    Transfer(RegisterTransfer),
    /// `XQ->GO`: drops the newest return address.
    DropReturn,
    /// `POWOFF`: puts the processor to sleep.
    PowerOff,
    /// `SLCT P` and `SLCT Q`: makes the pointer P or Q the active one.
    SelectPointer(Pointer),
    /// `?P=Q`: sets the carry if the pointers P and Q are at the same digit place.
    TestPointersEqual,
    /// `?LLD`: sets the carry if the battery is low. The bench's battery never is, so the carry is cleared.
    TestLowBattery,
    /// `CLRABC`: clears A, B and C.
    ClearRegisters,
    /// `GOTO ADR`: jumps to the address in the digits 6 to 3 of C.
    GoToAddress,
    /// `C=KEY`: copies the code of the key, a byte, to the digits 4 and 3 of C.
    ReadKey,
    /// `SETHEX`: selects base 16 for arithmetic.
    SetHexadecimal,
    /// `SETDEC`: selects base 10 for arithmetic.
    SetDecimal,
    /// `DISOFF`: turns the display off.
    DisplayOff,
    /// `DISTOG`: turns the display on if it is off, and off if it is on.
    ToggleDisplay,
    /// `?C RTN` and `?NC RTN`: returns if the carry is set (`?C RTN`) or clear (`?NC RTN`).
    ReturnIf(Condition),
    /// `RTN`: returns to the newest return address and removes it.
    Return,
    /// `LDI hhh`: copies the word that follows to places 2 to 0 of C.
    LoadImmediate,
    /// `PUSH ADR`: makes the address in the digits 6 to 3 of C the newest return address.
    PushAddress,
    /// `POP ADR`: copies the newest return address to the digits 6 to 3 of C and removes it.
    PopAddress,
    /// `GOTO KEY`: jumps to the next address with its low byte replaced by the code of the key.
    GoToKey,
    /// `RAM SLCT`: selects the register of the memory whose address is the low ten bits of the digits 2 to 0 of C.
    SelectRegister,
    /// `WRIT DATA`: writes C to the selected register of the memory.
    WriteData,
    /// `READ DATA`: copies the selected register of the memory to C.
    ReadData,
    /// `FETCH S&X`: copies the word at the address in the digits 6 to 3 of C to the digits 2 to 0 of C.
    FetchWord,
    /// `C=C OR A`: writes the bitwise or of C and A to C.
    Or,
    /// `C=C AND A`: writes the bitwise and of C and A to C.
    And,
    /// `PRPH SLCT`: selects the peripheral whose number is in the digits 1 and 0 of C.
    SelectPeripheral,
}

/// The carry at which a jump or a return is taken.
#[derive(Clone, Copy, Debug, PartialEq, Eq)]
pub enum Condition {
    /// `NC`: the jump or return is taken if the carry is clear.
    NoCarry,
    /// `C`: the jump or return is taken if the carry is set.
    Carry,
}

/// A bank of a page, which `ENBANK1` to `ENBANK4` make the active bank.
#[derive(Clone, Copy, Debug, PartialEq, Eq)]
pub enum Bank {
    /// Bank 1, which `ENBANK1` activates.
    First,
    /// Bank 2, which `ENBANK2` activates.
    Second,
    /// Bank 3, which `ENBANK3` activates.
    Third,
    /// Bank 4, which `ENBANK4` activates.
    Fourth,
}

/// A copy from one register of the processor to another, or an exchange of two: C with G, M, N or the status bits 0 to
/// 7, or the status bits 0 to 7 with T.
#[derive(Clone, Copy, Debug, PartialEq, Eq)]
pub enum RegisterTransfer {
    /// `G=C`: copies the byte of C at the active pointer, whose low digit is at the pointer's place, to G.
    CToG,
    /// `C=G`: copies G to the byte of C at the active pointer, whose low digit is at the pointer's place.
    GToC,
    /// `C<>G`: exchanges G and the byte of C at the active pointer, whose low digit is at the pointer's place.
    ExchangeCG,
    /// `M=C`: copies C to M.
    CToM,
    /// `C=M`: copies M to C.
    MToC,
    /// `C<>M`: exchanges C and M.
    ExchangeCM,
    /// `N=C`: copies C to N.
    CToN,
    /// `C=N`: copies N to C.
    NToC,
    /// `C<>N`: exchanges C and N.
    ExchangeCN,
    /// `T=ST`: copies the status bits 0 to 7 to T.
    StatusToT,
    /// `ST=T`: copies T to the status bits 0 to 7.
    TToStatus,
    /// `ST<>T`: exchanges T and the status bits 0 to 7.
    ExchangeStatusT,
    /// `ST=C`: copies the low byte of C to the status bits 0 to 7.
    CToStatus,
    /// `C=ST`: copies the status bits 0 to 7 to the low byte of C.
    StatusToC,
    /// `C<>ST`: exchanges the status bits 0 to 7 and the low byte of C.
    ExchangeCStatus,
}
