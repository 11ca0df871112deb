//! A table of bits.

ghost use Rattle.std.specs.Prelude.{◌≡◌, ◌<◌, All, IfOk, false, slice_get, slice_set};
ghost use Rattle.h41_breakpoints.specs.private.Tables.{IsWithBit};

use std::alloc::{AllocError, Global};
use std::marker::Model;

/// The number of bits in each of the numbers that store a table: 64.
const NUMBER_BITS: usize = 64;

/// A table of `COUNT` bits, numbered from 0 on.
#[derive(Drop)]
pub struct BitTable<const COUNT: usize> {
    numbers: Vec<u64>,
}

impl<const COUNT: usize> Model for BitTable<COUNT> {
    ghost use Rattle.std.specs.Prelude.{◌≤◌, ◌*◌, Bool, List, vec_len};
    ghost use Rattle.h41_breakpoints.specs.private.Tables.{bits_of};

    ghost Value = { List Bool };

    ghost view = { λ table. bits_of COUNT table.numbers.items };

    ghost invariant = { λ table. COUNT ≤ 64 * vec_len table.numbers };
}

impl<const COUNT: usize> BitTable<COUNT> {
    /// Returns a table in which all bits are clear. OutOfMemory (21) if allocation fails.
    pub fn new(alloc: Global) -> Result<Self, AllocError>
        ensures { IfOk result (All (λ bit. bit ≡ false)) }
    {
        let mut numbers = Vec::new(alloc);
        numbers.resize(COUNT.div_ceil(NUMBER_BITS), 0)?;
        Ok(BitTable { numbers })
    }

    /// Returns the bit with the number `place`, or `None` if `place` is not below `COUNT`.
    #[inline(always)]
    pub fn get(&self, place: usize) -> Option<bool>
        ensures { result ≡ slice_get self.now place }
    {
        if place < COUNT {
            Some(self.numbers[place / NUMBER_BITS] >> (place % NUMBER_BITS) & 1 == 1)
        } else {
            None
        }
    }

    /// Sets the bit with the number `place` if `bit` is true, and clears it otherwise. Does nothing if `place` is not
    /// below `COUNT`.
    pub fn set(&mut self, place: usize, bit: bool)
        ensures { self.new ≡ slice_set self.old place bit }
    {
        if place < COUNT {
            let index = place / NUMBER_BITS;
            self.numbers[index] = with_bit(self.numbers[index], place % NUMBER_BITS, bit);
        }
    }
}

/// Returns `number` with its bit `place` set if `bit` is true and cleared otherwise, and all other bits unchanged.
/// `place` is 0, the lowest bit, to 63.
fn with_bit(number: u64, place: usize, bit: bool) -> u64
    requires { place < 64 }
    ensures { IsWithBit number place bit result }
{
    if bit {
        number | 1 << place
    } else {
        number & !(1 << place)
    }
}
