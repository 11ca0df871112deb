//! The status registers by name, and their addresses.

ghost use Rattle.std.specs.Prelude.{◌≡◌, ◌<◌};
ghost use Rattle.h41_ram.specs.RegisterMap as spec;

/// One of the sixteen status registers, at the addresses 000 to 00F. T, Z, Y and X are the stack, and L is LAST X.
#[derive(Clone, Copy, Debug, PartialEq, Eq)]
pub enum StatusRegister {
    /// At 000: stack register T.
    T,
    /// At 001: stack register Z.
    Z,
    /// At 002: stack register Y.
    Y,
    /// At 003: stack register X.
    X,
    /// At 004: LAST X.
    L,
    /// At 005: register M, the last seven bytes of ALPHA.
    M,
    /// At 006: register N, the seven bytes of ALPHA before those of M.
    N,
    /// At 007: register O, the seven bytes of ALPHA before those of N.
    O,
    /// At 008: register P, whose right three bytes are the first three of ALPHA.
    P,
    /// At 009: register Q.
    Q,
    /// At 00A: the register whose name in HP's documents is the append sign.
    Append,
    /// At 00B: register a, with a lower-case letter in HP's documents.
    A,
    /// At 00C: register b, with a lower-case letter in HP's documents.
    B,
    /// At 00D: register c, which contains the addresses of data register R00 (the curtain) and of .END.
    C,
    /// At 00E: register d, which contains the 56 flags.
    D,
    /// At 00F: register e, with a lower-case letter in HP's documents.
    E,
}

impl StatusRegister {
    /// Returns the address of the status register, 000 to 00F.
    pub fn address(self) -> u16
        ensures value { result ≡ spec.address_of self }
        ensures bound { result < 16 }
    {
        match self {
            StatusRegister::T => 0x000,
            StatusRegister::Z => 0x001,
            StatusRegister::Y => 0x002,
            StatusRegister::X => 0x003,
            StatusRegister::L => 0x004,
            StatusRegister::M => 0x005,
            StatusRegister::N => 0x006,
            StatusRegister::O => 0x007,
            StatusRegister::P => 0x008,
            StatusRegister::Q => 0x009,
            StatusRegister::Append => 0x00A,
            StatusRegister::A => 0x00B,
            StatusRegister::B => 0x00C,
            StatusRegister::C => 0x00D,
            StatusRegister::D => 0x00E,
            StatusRegister::E => 0x00F,
        }
    }
}
