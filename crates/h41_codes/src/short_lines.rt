//! Program lines of one to three bytes that contain no characters.
ghost use Rattle.std.specs.Prelude.{◌≡◌, ◌≢◌, ℕ, List, ◌∷◌, [], IfSome, IfNone};
ghost use Rattle.h41_codes.specs.ByteGrammar.{operand_byte, spelling, Begins, IsLine};
ghost use Rattle.h41_codes.specs.ByteGrammar as grammar;
ghost use Rattle.h41_codes.specs.Heads.{IsIn, IsOneByte, IsShort, IsTwoBytes};
ghost use Rattle.h41_codes.specs.ShortLines.{BeginsNoShort, BeginsShorts, line_of};

use crate::functions::{Branch, Function, ParameterFunction, RegisterFunction};
use crate::heads::{Head, head_of};
use crate::line::{Line, Operand};
use crate::numbers::{Distance, EntryNumber, ModuleNumber, Parameter, ShortLabel, ShortRegister};
use crate::table::{function, parameter_function};

/// A program line of one to three bytes that is no null, number, text, global label, `END`, `.END.` or line with a
/// name. It has the same parts as the `Line`, but no room for characters.
#[derive(Clone, Copy, Debug, PartialEq, Eq)]
pub enum ShortLine {
    /// `LBL 00` to `LBL 14`, spelled in one byte.
    LocalLabel(ShortLabel),
    /// `RCL 00` to `RCL 15` and `STO 00` to `STO 15`, spelled in one byte.
    Register(RegisterFunction, ShortRegister),
    /// A function without a parameter, such as `SIN`.
    Plain(Function),
    /// A function with a parameter, such as `ST+ 05` or `FIX IND X`.
    WithOperand(ParameterFunction, Operand),
    /// `XROM ii,jj`: function `jj` of the module with the number `ii`.
    Module(ModuleNumber, EntryNumber),
    /// `GTO IND` and `XEQ IND`, with the register that contains the label.
    BranchIndirect(Branch, Parameter),
    /// `GTO 00` to `GTO 14`, spelled in two bytes. The second byte contains the distance to the label.
    ShortGoTo(ShortLabel, u8),
    /// `GTO` and `XEQ` with a label, spelled in three bytes: the distance to the label, whether the branch leads
    /// backwards, and the label.
    BranchTo(Branch, Distance, bool, Parameter),
}

impl ShortLine {
    /// Returns the `Line` with the same parts as this short program line.
    pub fn line(self) -> Line
        ensures { result ≡ line_of self }
    {
        match self {
            ShortLine::LocalLabel(label) => Line::LocalLabel(label),
            ShortLine::Register(function, register) => Line::Register(function, register),
            ShortLine::Plain(function) => Line::Plain(function),
            ShortLine::WithOperand(function, operand) => Line::WithOperand(function, operand),
            ShortLine::Module(number, entry) => Line::Module(number, entry),
            ShortLine::BranchIndirect(branch, register) => Line::BranchIndirect(branch, register),
            ShortLine::ShortGoTo(label, distance) => Line::ShortGoTo(label, distance),
            ShortLine::BranchTo(branch, distance, backwards, label) => {
                Line::BranchTo(branch, distance, backwards, label)
            }
        }
    }
}

/// Returns the number of bytes, 1 to 3, of a program line without characters that begins with a given byte. `None` if
/// the byte begins other lines (null, number, text, global label, END, line with a name) or none.
#[inline(always)]
pub fn short_size(first: u8) -> Option<u16>
    ensures some { IfSome result (IsShort first) }
    ensures size { IfSome result (BeginsShorts first) }
    ensures none { IfNone result ((rest : List ℕ) → BeginsNoShort (first ∷ rest)) }
{
    if first == 0x00 {
        return None;
    }
    match head_of(first) {
        Head::OneByte => Some(1),
        Head::TwoBytes => Some(2),
        Head::ThreeBytes => Some(3),
        _ => None,
    }
}

/// Returns the program line of one to three bytes with which three given bytes begin. The first byte must begin a line
/// without characters that is not the null; bytes that do not belong to the line are ignored.
#[inline(always)]
pub fn short_line(first: u8, second: u8, third: u8) -> ShortLine
    requires { (size : ℕ) × IsShort first size }
    ensures { (size : ℕ) → IsShort first size
        → Begins (first ∷ second ∷ third ∷ []) (line_of result) size }
{
    match head_of(first) {
        Head::ThreeBytes => short_branch(first, second, third),
        Head::TwoBytes => short_pair(first, second),
        _ => short_byte(first),
    }
}

/// Returns the program line that is spelled by one byte, which is not the null: a label 00 to 14, `RCL` or `STO` of a
/// register 00 to 15, or a function without an operand.
#[inline(always)]
pub(crate) fn short_byte(first: u8) -> ShortLine
    requires byte { IsOneByte first }
    requires some { first ≢ 0x00 }
    ensures spelled { spelling (line_of result) ≡ first ∷ [] }
    ensures valid { IsLine (line_of result) }
{
    match first {
        0x40.. => ShortLine::Plain(function(first)),
        0x30.. => ShortLine::Register(
            RegisterFunction::StoreRegister,
            ShortRegister::new(first - 0x30),
        ),
        0x20.. => ShortLine::Register(
            RegisterFunction::RecallRegister,
            ShortRegister::new(first - 0x20),
        ),
        _ => ShortLine::LocalLabel(ShortLabel::new(first - 0x01)),
    }
}

/// Returns the program line that is spelled by two bytes: a function with an operand, `XROM`, `GTO IND`, `XEQ IND`, or
/// `GTO 00` to `GTO 14`.
#[inline(always)]
pub(crate) fn short_pair(first: u8, second: u8) -> ShortLine
    requires { IsTwoBytes first }
    ensures spelled { spelling (line_of result) ≡ first ∷ second ∷ [] }
    ensures valid { IsLine (line_of result) }
{
    match first {
        0xA0..=0xA7 => ShortLine::Module(
            ModuleNumber::new((first - 0xA0) * 4 + second / 64),
            EntryNumber::new(second % 64),
        ),
        0xAE => indirect_branch(second),
        0xB1..=0xBF => ShortLine::ShortGoTo(ShortLabel::new(first - 0xB1), second),
        _ => ShortLine::WithOperand(parameter_function(first), operand(second)),
    }
}

/// Returns the operand that the second byte of a line encodes. Bit 7 is set if the operand is indirect; the other bits
/// are the parameter.
#[inline(always)]
fn operand(byte: u8) -> Operand
    ensures spelled { operand_byte result ≡ byte }
    ensures valid { grammar.IsOperand result }
{
    let parameter = Parameter::new(byte % 0x80);
    if byte < 0x80 {
        Operand::Direct(parameter)
    } else {
        Operand::Indirect(parameter)
    }
}

/// Returns the `GTO IND` or `XEQ IND` line with a given second byte. Bit 7 is set for `XEQ IND`; the other bits are the
/// register.
#[inline(always)]
fn indirect_branch(second: u8) -> ShortLine
    ensures spelled { spelling (line_of result) ≡ 0xAE ∷ second ∷ [] }
    ensures valid { IsLine (line_of result) }
{
    let register = Parameter::new(second % 0x80);
    let branch = if second < 0x80 {
        Branch::GoTo
    } else {
        Branch::Execute
    };
    ShortLine::BranchIndirect(branch, register)
}

/// Returns the `GTO` or `XEQ` line that is spelled by three bytes. The first byte, D0 to EF (hexadecimal), determines
/// which; the third has bit 7 set if the branch leads backwards.
#[inline(always)]
pub(crate) fn short_branch(first: u8, second: u8, third: u8) -> ShortLine
    requires { IsIn 0xD0 0xF0 first }
    ensures spelled { spelling (line_of result) ≡ first ∷ second ∷ third ∷ [] }
    ensures valid { IsLine (line_of result) }
{
    let branch = if first < 0xE0 {
        Branch::GoTo
    } else {
        Branch::Execute
    };
    let distance = Distance::new(u16::from(first % 16) * 256 + u16::from(second));
    ShortLine::BranchTo(
        branch,
        distance,
        third >= 0x80,
        Parameter::new(third % 0x80),
    )
}
