//! Numbers whose digits are at the places of a span of a register: the number that the span's digits form, multiplied
//! by 16 to the power of the span's rightmost place.

ghost use Rattle.std.specs.Prelude.{◌≡◌, ◌<◌, ◌≤◌, ◌+◌, ◌-◌, ◌*◌, ◌/◌, ◌%◌, ◌^◌, take, drop};
ghost use Rattle.h41_digits.specs.Register.{IsRegister};
ghost use Rattle.h41_arith.specs.DigitRule.{carry_digit};
ghost use Rattle.h41_arith.specs.private.DigitOperations.{IsInParts};

use h41_digits::{Reg, Span};

/// Returns a carry as a number to be added to the digits of a span: 1 at the span's rightmost place, that is, 16 to the
/// power of `span.lo`, if `carry` is true, otherwise 0.
pub fn carry_in_span(carry: bool, span: Span) -> u64
    ensures value { result ≡ carry_digit carry * 16 ^ span.lo }
    ensures most { result ≤ 16 ^ span.lo }
{
    if carry { span.first() } else { 0 }
}

/// Returns `into` with the digits of `number` at the places of `span`, and the carry: whether `number` has a 1 at the
/// place above the span. `number` has only zeros below the span, and at most a 1 above it.
pub fn put(into: Reg, number: u64, span: Span) -> (Reg, bool)
    requires places { number % 16 ^ span.lo ≡ 0 }
    requires most { number < 2 * 16 ^ (span.hi + 1) }
    ensures parts { IsInParts (number / 16 ^ span.lo) span.lo span.hi result.0 result.1 }
    ensures below { take span.lo result.0 ≡ take span.lo into }
    ensures above { drop (span.hi + 1) result.0 ≡ drop (span.hi + 1) into }
    ensures register { IsRegister 14 result.0 }
{
    (into.with_span(span, number), number > span.mask)
}
