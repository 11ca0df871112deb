//! The status bits of the processor, S0 to S13, as a set.

ghost use Rattle.std.specs.Prelude.{⊤, ◌≡◌, ◌^◌, ◌<◌, [], ◌∷◌, codes};

use bitflags::{Flag, Flags, bitflag_items};
use h41_words::StatusBit;

/// A set of status bits, S0 to S13: those of the processor that are set, or those that a word names.
#[derive(Clone, Copy, PartialEq, Eq, Debug)]
pub struct StatusBits(u16);

bitflag_items! {
    impl StatusBits: u16 {
        const S0 = 1;
        const S1 = 1 << 1;
        const S2 = 1 << 2;
        const S3 = 1 << 3;
        const S4 = 1 << 4;
        const S5 = 1 << 5;
        const S6 = 1 << 6;
        const S7 = 1 << 7;
        const S8 = 1 << 8;
        const S9 = 1 << 9;
        const S10 = 1 << 10;
        const S11 = 1 << 11;
        const S12 = 1 << 12;
        const S13 = 1 << 13;
    }
}

impl Flags for StatusBits {
    type Bits = u16;

    ghost exact = { ⊤ };

    ghost table = { (codes "S0", 1) ∷ (codes "S1", 2) ∷ (codes "S2", 4) ∷ (codes "S3", 8)
        ∷ (codes "S4", 16) ∷ (codes "S5", 32) ∷ (codes "S6", 64) ∷ (codes "S7", 128)
        ∷ (codes "S8", 256) ∷ (codes "S9", 512) ∷ (codes "S10", 1024) ∷ (codes "S11", 2048)
        ∷ (codes "S12", 4096) ∷ (codes "S13", 8192) ∷ [] };

    ghost set_of = { λ status. status.0 };

    fn flags<'a>() -> &'a [Flag<StatusBits>] {
        StatusBits::FLAGS
    }

    fn bits(&self) -> u16 {
        self.0
    }

    fn from_bits_retain(bits: u16) -> StatusBits {
        StatusBits(bits)
    }
}

/// Returns the set that contains only the status bit, S0 to S13, that a word names.
pub fn named(bit: StatusBit) -> StatusBits
    ensures weight { result.0 ≡ 2 ^ bit }
    ensures bound { result.0 < 2 ^ 14 }
{
    match bit.number() {
        0 => StatusBits::S0,
        1 => StatusBits::S1,
        2 => StatusBits::S2,
        3 => StatusBits::S3,
        4 => StatusBits::S4,
        5 => StatusBits::S5,
        6 => StatusBits::S6,
        7 => StatusBits::S7,
        8 => StatusBits::S8,
        9 => StatusBits::S9,
        10 => StatusBits::S10,
        11 => StatusBits::S11,
        12 => StatusBits::S12,
        _ => StatusBits::S13,
    }
}
