//! Finds the first line end of a text. It compares sixteen bytes at once as long as there are sixteen.

ghost use Rattle.std.specs.Prelude.{◌≡◌, ◌≢◌, ◌≤◌, ◌<◌, ◌==◌, ℕ, length, position};
ghost use Rattle.std.specs.Int.{bit_at};
ghost use Rattle.h41_ends.specs.private.LineEndBits.{MarksEnds};

use h41_lines::lines;
use std::simd::prelude::*;

/// How many bytes of a text are compared with LF at once.
const LANES: usize = 16;

/// Returns the index of the first LF of a text, counted from 0, or `None` if it has none.
#[inline(always)]
pub fn line_end(text: &[u8]) -> Option<usize>
    ensures { result ≡ position (λ byte. byte == 10) text.now }
{
    let mut at = 0;
    while LANES <= text.len() - at {
        let ends = line_ends(&text[at..]);
        if ends != 0 {
            return Some(at + lowest(ends));
        }
        at += LANES;
    }
    match lines::line_end(&text[at..]) {
        Some(end) => Some(at + end),
        None => None,
    }
}

/// Returns a number whose bit k is set if byte k of the text is an LF, for the first sixteen bytes. The text must have
/// at least sixteen.
#[inline(always)]
fn line_ends(text: &[u8]) -> u64
    requires { 16 ≤ length text.now }
    ensures within { (k : ℕ) → bit_at result k ≡ 1 → k < 16 }
    ensures bits { MarksEnds text.now result }
{
    u8x16::from_slice(text)
        .simd_eq(u8x16::splat(b'\n'))
        .to_bitmask()
}

/// Returns the index of the lowest bit of `bits` that is set. The index of the lowest bit is 0. `bits` must not be 0.
#[inline(always)]
fn lowest(bits: u64) -> usize
    requires { bits ≢ 0 }
    ensures bound { result < 64 }
    ensures set { bit_at bits result ≡ 1 }
    ensures below { (k : ℕ) → k < result → bit_at bits k ≡ 0 }
{
    bits.trailing_zeros() as usize
}
