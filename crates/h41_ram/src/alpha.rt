//! The 24 bytes of the ALPHA register, which are stored in the status registers P, O, N and M.

ghost use Rattle.std.specs.Prelude.{◌≡◌, ◌+◌, ◌<◌, ◌≤◌, ◌++◌, drop, [], ◌∷◌};
ghost use Rattle.h41_ram.specs.RegisterMap.{bytes_of, digits_from, seven_from};

use h41_digits::Reg;

/// The number of bytes, 24, of the ALPHA register.
pub const ALPHA_LENGTH: usize = 24;

/// Returns the 24 bytes of the ALPHA register, the leftmost first, from the status registers P, O, N and M: the right
/// three bytes of P, and all seven bytes of O, N and M.
pub fn text(p: Reg, o: Reg, n: Reg, m: Reg) -> [u8; ALPHA_LENGTH]
    ensures { result ≡ drop 4 (bytes_of p) ++ bytes_of o ++ bytes_of n ++ bytes_of m }
{
    let [_, _, _, _, p2, p1, p0] = bytes(p);
    let [o6, o5, o4, o3, o2, o1, o0] = bytes(o);
    let [n6, n5, n4, n3, n2, n1, n0] = bytes(n);
    let [m6, m5, m4, m3, m2, m1, m0] = bytes(m);
    [
        p2, p1, p0, o6, o5, o4, o3, o2, o1, o0, n6, n5, n4, n3, n2, n1, n0, m6, m5, m4, m3, m2, m1,
        m0,
    ]
}

/// Returns the seven bytes of a register, the leftmost first.
fn bytes(register: Reg) -> [u8; 7]
    ensures { result ≡ bytes_of register }
{
    [
        register.byte(6),
        register.byte(5),
        register.byte(4),
        register.byte(3),
        register.byte(2),
        register.byte(1),
        register.byte(0),
    ]
}

/// Returns status register `p` with the first three bytes of ALPHA's `text` in its right three bytes. Its left four
/// bytes do not change.
pub fn first_bytes(p: Reg, text: [u8; ALPHA_LENGTH]) -> Reg
    ensures { result ≡ digits_from text (0 ∷ 1 ∷ 2 ∷ []) ++ drop 6 p }
{
    p.with_byte(2, text[0])
        .with_byte(1, text[1])
        .with_byte(0, text[2])
}

/// Returns a register that contains seven consecutive bytes of ALPHA's `text`, from index `first`, 0 to 17, on. Byte
/// `first` becomes the leftmost byte of the register.
pub fn seven_bytes(text: [u8; ALPHA_LENGTH], first: usize) -> Reg
    requires { first ≤ 17 }
    ensures { result ≡ digits_from text (seven_from first) }
{
    Reg::zero()
        .with_byte(6, text[first])
        .with_byte(5, text[first + 1])
        .with_byte(4, text[first + 2])
        .with_byte(3, text[first + 3])
        .with_byte(2, text[first + 4])
        .with_byte(1, text[first + 5])
        .with_byte(0, text[first + 6])
}
