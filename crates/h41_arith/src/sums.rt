//! Sums and differences of two registers at the places of a span. They are computed with whole words; only if a digit
//! is A to F in base 10, digit by digit.

ghost use Rattle.std.specs.Prelude.{◌≡◌, ℕ, ◌+◌, ◌*◌, ◌^◌, ◌<◌, ◌≤◌, ◌⊎◌, ◌==◌, not, true, false};
ghost use Rattle.h41_digits.specs.Register.{IsRegister};
ghost use Rattle.h41_digits.specs.Spans.{IsFilled};
ghost use Rattle.h41_arith.specs.DigitRule.{SumDigit, DifferenceDigit, SumInto, DifferenceInto};
ghost use Rattle.h41_arith.specs.DigitRule.{base_of, carry_digit, zeros};
ghost use Rattle.h41_arith.specs.private.DigitOperations.{HasDigit, IsRuleTotal, RuleInto};
ghost use Rattle.h41_arith.specs.private.DigitOperations.{all_ones};
ghost use Rattle.h41_arith.specs.private.DigitOperations.{carried_of, decimal_remainder_of};
ghost use Rattle.h41_arith.specs.private.DigitOperations.{decimal_total_of, rule_of};

use crate::spans::{carry_in_span, put};
use h41_digits::{Reg, Span};

/// A 1 at each of the 14 places (digits) of a register, and at the place above them.
const ONES: u64 = 0x111_1111_1111_1111;

/// Whether the digits of two registers are added or subtracted.
#[derive(Clone, Copy)]
pub enum DigitOperation {
    /// Addition with a carry in and a carry out.
    Add,
    /// Subtraction with a borrow in and a borrow out.
    Subtract,
}

impl DigitOperation {
    /// Returns the digit of `x` + `y` or `x` - `y` in base 10, with a carry or borrow in, and whether there is a carry
    /// or borrow out. `x` and `y` are digits from 0 to F.
    fn digit(self, x: u8, y: u8, carry_in: bool) -> (u8, bool)
        requires x_is_digit { x < 16 }
        requires y_is_digit { y < 16 }
        ensures rule { HasDigit (rule_of self 10) x y carry_in result.0 result.1 }
        ensures is_digit { result.0 < 16 }
    {
        match self {
            DigitOperation::Add => sum_digit(x, y, carry_in),
            DigitOperation::Subtract => difference_digit(x, y, carry_in),
        }
    }

    /// Returns the sum or difference of the digits of `x` and `y` in base 10, one place after the other from `lo` to
    /// `hi`, in a register of zeros, and whether there is a carry or borrow out of place `hi`. `carry_in` is the carry
    /// or borrow into place `lo`.
    fn over_places(self, x: Reg, y: Reg, carry_in: bool, lo: usize, hi: usize) -> (Reg, bool)
        requires ordered { lo ≤ hi }
        requires in_register { hi < 14 }
        ensures result { RuleInto self zeros x y carry_in lo hi result.0 result.1 }
        ensures first { IsRegister 14 x }
        ensures second { IsRegister 14 y }
    {
        let mut digits = Reg::zero();
        let mut carry = carry_in;
        for place in lo..hi + 1 {
            let (digit, carry_out) = self.digit(x.get(place), y.get(place), carry);
            digits.set(place, digit);
            carry = carry_out;
        }
        (digits, carry)
    }

    /// Returns the sum or difference of the digits of `x` and `y` in base 10 at the places of a mask (F at each place
    /// of a span, 0 elsewhere), as a number whose digits are at these places, with a 1 above them if there is a carry
    /// or borrow out. `carry` is the carry or borrow into the lowest of these places. This is a cold function because
    /// digits from A to F are rare in base 10.
    #[cold]
    #[inline(never)]
    fn digit_by_digit(self, x: Reg, y: Reg, carry: bool, mask: u64) -> u64
        ensures { (lo hi : ℕ) → IsFilled mask lo hi → IsRuleTotal self x y carry lo hi result }
    {
        let span = Span::from_mask(mask);
        let (digits, carry_out) = self.over_places(x, y, carry, span.lo, span.hi);
        let number = digits.in_span(span);
        if carry_out {
            number + (span.mask + span.first())
        } else {
            number
        }
    }
}

/// Returns the digit of `x` + `y` + the carry in, in base 10, and whether there is a carry out. `x` and `y` are digits
/// from 0 to F; one subtraction of 10 makes the carry, so that F + F without a carry in is 4 with a carry (this
/// project's choice).
fn sum_digit(x: u8, y: u8, carry_in: bool) -> (u8, bool)
    requires x_is_digit { x < 16 }
    requires y_is_digit { y < 16 }
    ensures rule { HasDigit (SumDigit 10) x y carry_in result.0 result.1 }
    ensures is_digit { result.0 < 16 }
{
    let sum = x + y + u8::from(carry_in);
    if sum < 10 {
        (sum, false)
    } else {
        ((sum - 10) % 16, true)
    }
}

/// Returns the digit of `x` - `y` - the borrow in, in base 10, and whether there is a borrow out. `x` and `y` are
/// digits from 0 to F; a borrow adds 10, modulo 16, so that 0 - F without a borrow in is B with a borrow (this
/// project's choice).
fn difference_digit(x: u8, y: u8, borrow_in: bool) -> (u8, bool)
    requires x_is_digit { x < 16 }
    requires y_is_digit { y < 16 }
    ensures rule { HasDigit (DifferenceDigit 10) x y borrow_in result.0 result.1 }
    ensures is_digit { result.0 < 16 }
{
    let taken = y + u8::from(borrow_in);
    if taken <= x {
        (x - taken, false)
    } else {
        ((x + 26 - taken) % 16, true)
    }
}

/// Returns `into` with the digits of `x` + `y` + the carry in, in base 16, at the places of `span`, and the carry out
/// of the span's leftmost place.
#[inline(always)]
fn hexadecimal_sum(into: Reg, x: Reg, y: Reg, carry_in: bool, span: Span) -> (Reg, bool)
    ensures { SumInto 16 into x y carry_in span.lo span.hi result.0 result.1 }
{
    let first = x.in_span(span);
    let second = y.in_span(span);
    put(into, first + second + carry_in_span(carry_in, span), span)
}

/// Returns `into` with the digits of `x` - `y` - the borrow in, in base 16, at the places of `span`, and the borrow out
/// of the span's leftmost place.
#[inline(always)]
fn hexadecimal_difference(into: Reg, x: Reg, y: Reg, borrow_in: bool, span: Span) -> (Reg, bool)
    ensures { DifferenceInto 16 into x y borrow_in span.lo span.hi result.0 result.1 }
{
    let first = x.in_span(span);
    let taken = y.in_span(span) + carry_in_span(borrow_in, span);
    (
        into.with_span(span, first.wrapping_sub(taken)),
        first < taken,
    )
}

/// Returns a number with a 1 at each digit of `answer` into which the digit below carries, or from which it borrows,
/// and 0 elsewhere. `answer` is the sum or difference of `first` and `second` with the carry or borrow `carry`. The
/// lowest bit of such a digit differs from the exclusive or of the lowest bits of `first`, `second` and `carry`.
fn carried(first: u64, second: u64, carry: u64, answer: u64) -> u64
    ensures carried { result ≡ carried_of first second carry answer }
    ensures most { result ≤ all_ones }
{
    (first ^ second ^ carry ^ answer) & ONES
}

/// Returns whether `number` has a digit from A to F at the places at which `sixes` has a 6: adding six to such a digit
/// produces a carry.
fn has_letter(number: u64, sixes: u64) -> bool
    requires { number + sixes < 2 ^ 64 }
    ensures { result ≡ not (carried_of 0 number 0 (number + sixes) == 0) }
{
    carried(0, number, 0, number + sixes) != 0
}

/// Returns `first` + `second` + `carry` in base 10, each a number whose digits are at the places of a span. `first`
/// must have no digit from A to F; `sixes` has a 6 at each place of the span.
///
/// The result is the sum in base 16, plus six at each digit that carries in base 10. These digits are found because
/// they carry in base 16 once six is added to each digit; a six does not change the lowest bit of a digit.
fn decimal_total(first: u64, second: u64, carry: u64, sixes: u64) -> u64
    requires sixes { sixes < 2 ^ 56 }
    requires first { 2 * first ≤ 3 * sixes }
    requires second { 2 * second ≤ 5 * sixes }
    requires carry { carry ≤ sixes }
    ensures { result ≡ decimal_total_of first second carry sixes }
{
    let sum = first + second + carry;
    sum + 3 * carried(first, second, carry, sum + sixes) / 8
}

/// Returns `first` - `second` - `borrow` in base 10, each a number whose digits are at the places of a span. `second`
/// must have no digit from A to F. The result is the difference in base 16, minus six at each digit that borrows. If
/// the leftmost digit of the span borrows, the digits above the span have no meaning.
fn decimal_remainder(first: u64, second: u64, borrow: u64) -> u64
    requires { second + borrow < 2 ^ 64 }
    ensures { result ≡ decimal_remainder_of first second borrow }
{
    let difference = first.wrapping_sub(second + borrow);
    difference.wrapping_sub(3 * carried(first, second, borrow, difference) / 8)
}

/// Returns `into` with the digits of `x` + `y` + the carry in, in base 10, at the places of `span`, and the carry out
/// of the span's leftmost place.
#[inline(always)]
fn decimal_sum(into: Reg, x: Reg, y: Reg, carry_in: bool, span: Span) -> (Reg, bool)
    ensures { SumInto 10 into x y carry_in span.lo span.hi result.0 result.1 }
{
    let first = x.in_span(span);
    let second = y.in_span(span);
    let sixes = span.sixes();
    let total = if has_letter(first, sixes) {
        DigitOperation::Add.digit_by_digit(x, y, carry_in, span.mask)
    } else {
        decimal_total(first, second, carry_in_span(carry_in, span), sixes)
    };
    put(into, total, span)
}

/// Returns `into` with the digits of `x` - `y` - the borrow in, in base 10, at the places of `span`, and the borrow out
/// of the span's leftmost place.
#[inline(always)]
fn decimal_difference(into: Reg, x: Reg, y: Reg, borrow_in: bool, span: Span) -> (Reg, bool)
    ensures { DifferenceInto 10 into x y borrow_in span.lo span.hi result.0 result.1 }
{
    let first = x.in_span(span);
    let second = y.in_span(span);
    if has_letter(second, span.sixes()) {
        let total = DigitOperation::Subtract.digit_by_digit(x, y, borrow_in, span.mask);
        return put(into, total, span);
    }
    let borrow = carry_in_span(borrow_in, span);
    (
        into.with_span(span, decimal_remainder(first, second, borrow)),
        first < second + borrow,
    )
}

/// Returns `into` with the digits of `x` + `y` + the carry in at the places of `span`, and the carry out of the span's
/// leftmost place. The base is 10 if `DEC` is true, otherwise 16. In base 10 a digit from A to F is added like any
/// other: F + 1 is 6 with a carry (this project's choice).
#[inline(always)]
pub fn add<const DEC: bool>(into: Reg, x: Reg, y: Reg, carry_in: bool, span: Span) -> (Reg, bool)
    ensures { SumInto (base_of DEC) into x y carry_in span.lo span.hi result.0 result.1 }
{
    if DEC {
        decimal_sum(into, x, y, carry_in, span)
    } else {
        hexadecimal_sum(into, x, y, carry_in, span)
    }
}

/// Returns `into` with the digits of `x` - `y` - the borrow in at the places of `span`, and the borrow out of the
/// span's leftmost place. The base is 10 if `DEC` is true, otherwise 16. In base 10 a digit from A to F is subtracted
/// like any other: 0 - F is B with a borrow (this project's choice).
#[inline(always)]
pub fn sub<const DEC: bool>(into: Reg, x: Reg, y: Reg, borrow_in: bool, span: Span) -> (Reg, bool)
    ensures { DifferenceInto (base_of DEC) into x y borrow_in span.lo span.hi result.0 result.1 }
{
    if DEC {
        decimal_difference(into, x, y, borrow_in, span)
    } else {
        hexadecimal_difference(into, x, y, borrow_in, span)
    }
}

/// Returns `into` with the digits of `x` + 1 at the places of `span`, and the carry out of the span's leftmost place.
/// The 1 is added at the span's rightmost place. The base is 10 if `DEC` is true, otherwise 16. In base 10 a digit from
/// A to F is added like any other: F + 1 is 6 with a carry (this project's choice).
#[inline(always)]
pub fn inc<const DEC: bool>(into: Reg, x: Reg, span: Span) -> (Reg, bool)
    ensures { SumInto (base_of DEC) into x zeros true span.lo span.hi result.0 result.1 }
{
    add::<DEC>(into, x, Reg::zero(), true, span)
}

/// Returns `into` with the digits of `x` - 1 at the places of `span`, and the borrow out of the span's leftmost place.
/// The 1 is subtracted at the span's rightmost place. The base is 10 if `DEC` is true, otherwise 16.
#[inline(always)]
pub fn dec<const DEC: bool>(into: Reg, x: Reg, span: Span) -> (Reg, bool)
    ensures { DifferenceInto (base_of DEC) into x zeros true span.lo span.hi result.0 result.1 }
{
    sub::<DEC>(into, x, Reg::zero(), true, span)
}

/// Returns `into` with the digits of 0 - `x` at the places of `span` (the complement to the base: ten's complement in
/// base 10, two's complement in base 16), and the borrow out of the span's leftmost place. The base is 10 if `DEC` is
/// true, otherwise 16.
#[inline(always)]
pub fn neg<const DEC: bool>(into: Reg, x: Reg, span: Span) -> (Reg, bool)
    ensures { DifferenceInto (base_of DEC) into zeros x false span.lo span.hi result.0 result.1 }
{
    sub::<DEC>(into, Reg::zero(), x, false, span)
}

/// Returns `into` with the digits of 0 - `x` - 1 at the places of `span` (the complement to the base less one: nine's
/// complement in base 10, one's complement in base 16), and the borrow out of the span's leftmost place, which is
/// always set. The base is 10 if `DEC` is true, otherwise 16.
#[inline(always)]
pub fn neg1<const DEC: bool>(into: Reg, x: Reg, span: Span) -> (Reg, bool)
    ensures sub { DifferenceInto (base_of DEC) into zeros x true span.lo span.hi result.0 result.1 }
    ensures borrow { result.1 ≡ true }
{
    sub::<DEC>(into, Reg::zero(), x, true, span)
}
