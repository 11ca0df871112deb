//! What a program line is, by its first byte.
ghost use Rattle.std.specs.Prelude.{◌≡◌};
ghost use Rattle.h41_codes.specs.Heads.{BeginsKind, IsAlone};

use crate::decoder::one_byte;

/// The kinds of program lines that the first byte of a line distinguishes.
#[derive(Clone, Copy, Debug, PartialEq, Eq)]
pub enum Head {
    /// 00 to 0F and 20 to 8F: the line is this byte. It is the null, a label 00 to 14, `RCL` or `STO` of a register 00
    /// to 15, or a function without an operand.
    OneByte,
    /// 10 to 1C: a number entry. It has a byte for each character, at most 16.
    Number,
    /// 1D to 1F: `GTO`, `XEQ` or `W`, and the name as a text.
    Named,
    /// 90 to AE, B1 to BF, CE and CF: two bytes. The line is a function with an operand, `XROM`, `GTO IND`, `XEQ IND`,
    /// or `GTO 00` to `GTO 14`.
    TwoBytes,
    /// C0 to CD: a global label, which has four bytes and its name, or END or `.END.`, which have three bytes.
    Linked,
    /// D0 to EF: three bytes. The line is `GTO` or `XEQ` with a label.
    ThreeBytes,
    /// F0 to FF: a text. The low digit of the byte is the number of characters that follow.
    Text,
    /// AF and B0: no line begins with this byte.
    Nothing,
}

/// Returns what kind of program line begins with a byte.
#[inline(always)]
pub fn head_of(first: u8) -> Head
    ensures kind { BeginsKind first result }
    ensures alone { result ≡ Head.OneByte → IsAlone first }
{
    match first {
        0x20..=0x8F | 0x00..=0x0F => {
            // Only for the proof, which needs the line that the byte is.
            let _line = one_byte(first);
            Head::OneByte
        }
        0x10..=0x1C => Head::Number,
        0x1D..=0x1F => Head::Named,
        0x90..=0xAE | 0xB1..=0xBF | 0xCE | 0xCF => Head::TwoBytes,
        0xAF | 0xB0 => Head::Nothing,
        0xC0..=0xCD => Head::Linked,
        0xD0..=0xEF => Head::ThreeBytes,
        0xF0..=0xFF => Head::Text,
    }
}
