//! Reads the characters of ALPHA data from registers.

ghost use Rattle.std.specs.Prelude.{◌≡◌, ◌≤◌, [], ◌∷◌, length, map};
ghost use Rattle.h41_decimal.specs.Holding as holding;
ghost use Rattle.h41_digits.specs.Register.{byte_at};

use h41_digits::Reg;

/// The index of the digit that distinguishes ALPHA data from numbers in a register. Digit 13 is the leftmost.
pub const KIND_PLACE: usize = 13;

/// The value of the leftmost digit of a register that contains ALPHA data.
pub const ALPHA_DATA: u8 = 1;

/// The most characters of ALPHA data that a register can contain.
pub const REGISTER_CHARACTERS: usize = 6;

/// Returns the six lowest bytes of a register, which are its characters if it contains ALPHA data, the leftmost first.
pub fn alpha_data(register: Reg) -> [u8; REGISTER_CHARACTERS]
    ensures { result ≡ map (byte_at register) (5 ∷ 4 ∷ 3 ∷ 2 ∷ 1 ∷ 0 ∷ []) }
{
    [
        register.byte(5),
        register.byte(4),
        register.byte(3),
        register.byte(2),
        register.byte(1),
        register.byte(0),
    ]
}

/// Returns a text without the null characters (00) at its beginning.
pub fn after_nulls(bytes: &[u8]) -> &[u8]
    ensures bytes { result.now ≡ holding.after_nulls bytes.now }
    ensures most { length result.now ≤ length bytes.now }
{
    let mut shown = bytes;
    while let [0, rest @ ..] = shown {
        shown = rest;
    }
    shown
}
