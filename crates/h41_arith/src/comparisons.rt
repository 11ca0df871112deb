//! Comparisons of two registers at the places of a span.

ghost use Rattle.std.specs.Prelude.{◌≡◌};
ghost use Rattle.h41_arith.specs.DigitRule.{is_less, is_different, is_nonzero};

use h41_digits::{Reg, Span};

/// Returns whether the digits of `x` at the places of `span`, read as a number, are less than those of `y`. This is
/// also the borrow out of `x` - `y` without a borrow in, in base 16 and in base 10.
#[inline(always)]
pub fn less(x: Reg, y: Reg, span: Span) -> bool
    ensures { result ≡ is_less x y span.lo span.hi }
{
    x.in_span(span) < y.in_span(span)
}

/// Returns whether `x` and `y` have different digits at some place of `span`.
#[inline(always)]
pub fn differs(x: Reg, y: Reg, span: Span) -> bool
    ensures { result ≡ is_different x y span.lo span.hi }
{
    x.in_span(span) != y.in_span(span)
}

/// Returns whether `x` has a digit other than 0 at some place of `span`.
#[inline(always)]
pub fn nonzero(x: Reg, span: Span) -> bool
    ensures { result ≡ is_nonzero x span.lo span.hi }
{
    differs(x, Reg::zero(), span)
}
