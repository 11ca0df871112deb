//! Copies, exchanges and shifts of the digits of registers at the places of a span.

ghost use Rattle.std.specs.Prelude.{◌≡◌, false};
ghost use Rattle.h41_arith.specs.DigitRule.{copy_of, shifted_left, shifted_right};

use h41_digits::{Reg, Span};

/// Returns `into` with the digits of `x` at the places of `span`, and a carry, which is always false.
#[inline(always)]
pub fn copy(into: Reg, x: Reg, span: Span) -> (Reg, bool)
    ensures digits { result.0 ≡ copy_of into x span.lo span.hi }
    ensures carry { result.1 ≡ false }
{
    (into.with_span(span, x.in_span(span)), false)
}

/// Returns `into` with the digits of `x` at the places of `span`, each moved one place to the left, and a carry, which
/// is always false. The digit at the span's rightmost place becomes 0; that of its leftmost place is lost.
#[inline(always)]
pub fn shift_left(into: Reg, x: Reg, span: Span) -> (Reg, bool)
    ensures digits { result.0 ≡ shifted_left into x span.lo span.hi }
    ensures carry { result.1 ≡ false }
{
    (into.with_span(span, x.in_span(span) << 4), false)
}

/// Returns `into` with the digits of `x` at the places of `span`, each moved one place to the right, and a carry, which
/// is always false. The digit at the span's leftmost place becomes 0; that of its rightmost place is lost.
#[inline(always)]
pub fn shift_right(into: Reg, x: Reg, span: Span) -> (Reg, bool)
    ensures digits { result.0 ≡ shifted_right into x span.lo span.hi }
    ensures carry { result.1 ≡ false }
{
    (into.with_span(span, x.in_span(span) >> 4), false)
}

/// Returns `x` with the digits of `y` at the places of `span`, and `y` with those of `x`.
#[inline(always)]
pub fn exchange(x: Reg, y: Reg, span: Span) -> (Reg, Reg)
    ensures first { result.0 ≡ copy_of x y span.lo span.hi }
    ensures second { result.1 ≡ copy_of y x span.lo span.hi }
{
    (copy(x, y, span).0, copy(y, x, span).0)
}
