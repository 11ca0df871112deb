//! The lines of programs.
use crate::characters::{Number, Text};
use crate::functions::{Branch, Function, NameFunction, ParameterFunction, RegisterFunction};
use crate::numbers::{
    Distance, EndMarks, EntryNumber, FinalMarks, Link, ModuleNumber, Parameter, ShortLabel,
    ShortRegister,
};

/// The operand of a function with a parameter: the parameter itself, or the register that contains the parameter
/// (`IND`).
#[derive(Clone, Copy, Debug, PartialEq, Eq)]
pub enum Operand {
    /// The parameter itself, such as 05 in `STO 05`.
    Direct(Parameter),
    /// `IND`: the register whose content is the parameter, such as 05 in `STO IND 05`.
    Indirect(Parameter),
}

/// A line of a program, with all information in its bytes. A line that can be spelled in two ways is therefore two values, and bits that
/// only the calculator uses are part of the value.
#[derive(Clone, Copy, Debug, PartialEq, Eq)]
pub enum Line {
    /// The null, which does nothing. It separates numbers and fills gaps.
    Null,
    /// `LBL 00` to `LBL 14`, spelled in one byte.
    LocalLabel(ShortLabel),
    /// A number entry, such as `-1.5E3`.
    Number(Number),
    /// `GTO`, `XEQ` or `W` with a name, such as `GTO "NAME"`.
    Named(NameFunction, Text<15>),
    /// `RCL 00` to `RCL 15` and `STO 00` to `STO 15`, spelled in one byte.
    Register(RegisterFunction, ShortRegister),
    /// A function without a parameter, such as `SIN`.
    Plain(Function),
    /// A function with a parameter, such as `ST+ 05` or `FIX IND X`.
    WithOperand(ParameterFunction, Operand),
    /// `XROM ii,jj`: function `jj` of the module with the number `ii`.
    Module(ModuleNumber, EntryNumber),
    /// `GTO IND` and `XEQ IND`, such as `GTO IND 05`, with the register that contains the label.
    BranchIndirect(Branch, Parameter),
    /// `GTO 00` to `GTO 14`, spelled in two bytes. The second byte contains the distance to the label.
    ShortGoTo(ShortLabel, u8),
    /// `LBL "NAME"`: its link to the label or END before it, the key to which it is assigned, and its name.
    GlobalLabel(Link, u8, Text<14>),
    /// `END`, with its link to the label or END before it, and its status bits.
    End(Link, EndMarks),
    /// `.END.`, the last line of program memory, with its link to the label or END before it, and its status bits.
    FinalEnd(Link, FinalMarks),
    /// `GTO 00` to `GTO e` and `XEQ 00` to `XEQ e`, spelled in three bytes: the distance to the label, whether the
    /// branch leads backwards, and the label.
    BranchTo(Branch, Distance, bool, Parameter),
    /// A text for ALPHA. If it begins with HP's append sign, the character 7F, the rest is appended to ALPHA; otherwise it replaces ALPHA.
    Text(Text<15>),
}
