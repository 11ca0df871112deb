//! Spans: consecutive places of a register.

ghost use Rattle.std.specs.Prelude.{◌≡◌, ℕ, ◌<◌, ◌≤◌, ◌+◌, ◌*◌, ◌^◌};
ghost use Rattle.h41_digits.specs.Spans.{AreItsPlaces, IsFilled, IsNotFilled};

use crate::PLACES;

/// A number of 14 hexadecimal digits, each of them 6: one for each place of a register.
const SIXES: u64 = 0x66_6666_6666_6666;

/// The consecutive places of a register from `lo` to `hi`, both included. A span has at least one place.
#[derive(Clone, Copy, Debug, PartialEq, Eq)]
pub struct Span {
    /// The first (rightmost) place, 0 to 13.
    pub lo: usize,
    /// The last (leftmost) place, `lo` to 13.
    pub hi: usize,
    /// A number whose hexadecimal digit is F at each place of the span, and 0 elsewhere.
    pub mask: u64,
    ghost ordered: { lo ≤ hi },
    ghost in_register: { hi < 14 },
    ghost fits: { mask < 2 ^ 56 },
    ghost weights: { mask + 16 ^ lo ≡ 16 ^ (hi + 1) },
}

impl Span {
    /// Returns the span of the places from `lo` to `hi`, with `lo` not above `hi` and `hi` at most 13.
    pub fn new(lo: usize, hi: usize) -> Self
        requires ordered { lo ≤ hi }
        requires in_register { hi < 14 }
        ensures first { result.lo ≡ lo }
        ensures last { result.hi ≡ hi }
    {
        Span {
            lo,
            hi,
            mask: (1 << (4 * (hi + 1))) - (1 << (4 * lo)),
        }
    }

    /// Returns the span whose places are those with digit F in a mask that is 0 elsewhere. If there is no such span,
    /// because the mask has other digits or its places with F are not consecutive, returns the span of all 14 places, 0
    /// to 13.
    #[cold]
    pub fn from_mask(mask: u64) -> Self
        ensures places { AreItsPlaces mask result.lo result.hi }
        ensures none { IsNotFilled mask → (result.lo ≡ 0) × (result.hi ≡ 13) }
    {
        let first = mask & mask.wrapping_neg();
        let lo = place_of(first);
        let next = place_of(mask.wrapping_add(first));
        let whole = Span::new(0, PLACES - 1);
        if next <= lo || PLACES < next {
            return whole;
        }
        let span = Span::new(lo, next - 1);
        if span.mask == mask { span } else { whole }
    }

    /// Returns the number whose hexadecimal digit is 1 at the first (rightmost) place of the span, and 0 elsewhere: 16
    /// to the power of `lo`.
    pub fn first(&self) -> u64
        ensures weight { result ≡ 16 ^ self.now.lo }
        ensures next { self.now.mask + result ≡ 16 ^ (self.now.hi + 1) }
        ensures positive { 0 < result }
        ensures within { result ≤ self.now.mask }
    {
        self.mask & self.mask.wrapping_neg()
    }

    /// Returns the number whose hexadecimal digit is 6 at each place of the span, and 0 elsewhere. The sum of two
    /// decimal digits and 6 carries in base 16 if and only if the sum of the two digits carries in base 10.
    pub fn sixes(&self) -> u64
        ensures fifths { 5 * result ≡ 2 * self.now.mask }
        ensures first { 16 ^ self.now.lo ≤ result }
    {
        self.mask & SIXES
    }
}

/// Returns the exponent, 0 to 14, of a power of 16, which is the place of a digit with this weight. Returns 0 for any
/// other number.
fn place_of(weight: u64) -> usize
    ensures { (place : ℕ) → place < 15 → weight ≡ 16 ^ place → result ≡ place }
{
    for place in 0..PLACES + 1 {
        if 1 << (4 * place) == weight {
            return place;
        }
    }
    0
}
