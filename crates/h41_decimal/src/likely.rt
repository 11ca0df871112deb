//! Square roots and quotients by the processor's floating-point unit, which are nearly always the whole numbers that are needed.
//! Only speed depends on them, since every caller checks the result.

use std::num::{f64_to_bits_with_nan, nearest_u64_to_f64};

/// 2^52. A float from this number up to twice this number is a whole number, and its last 52 bits are the distance from this
/// number.
const WHOLE_NUMBERS: f64 = 4_503_599_627_370_496.0;

/// The number of values that the 52 fraction bits of a float can have, 2^52.
const TOLD: u64 = 0x10_0000_0000_0000;

/// Returns a number that is probably the square root of 10^10 times `number`, rounded down. The caller must check it.
#[inline(always)]
pub fn root(number: u64) -> u64 {
    whole(nearest_u64_to_f64(number).sqrt() * 100_000.0)
}

/// Returns a number that is probably 10^11 times `number` divided by `divisor`, rounded down. The caller must check it.
#[inline(always)]
pub fn quotient(number: u64, divisor: u64) -> u64 {
    whole(nearest_u64_to_f64(number) * 100_000_000_000.0 / nearest_u64_to_f64(divisor))
}

/// Returns a number that is probably the integer part of a float, which must be at least 0 and below 2^52: the whole
/// number nearest to the float minus 0.4999.
#[inline(always)]
fn whole(number: f64) -> u64 {
    f64_to_bits_with_nan(number - 0.4999 + WHOLE_NUMBERS) % TOLD
}
