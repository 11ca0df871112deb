//! Tests of h41_arith: each function once, the digits A to F in base 10, and every sum and difference of two digits.

ghost use Rattle.std.specs.Prelude.{◌<◌};

use crate::judge::wants;
use h41_arith::{
    add, copy, dec, differs, exchange, inc, less, neg, neg1, nonzero, shift_left, shift_right, sub,
};
use h41_digits::Reg;
use h41_fields::Span;
use std::process::Abort;
use std::test::Fail;

#[test]
fn sums_and_differences(rt: HostRuntime) -> Result<(), Fail> {
    let span = Span::new(0, 2);
    let nines = Reg::holding(0x1999);
    let letters = Reg::holding(0x1FFF);
    let rows = [
        (inc::<false>(nines, nines, span), 0x199A, false),
        (inc::<true>(nines, nines, span), 0x1000, true),
        (inc::<false>(Reg::zero(), letters, span), 0, true),
        (inc::<true>(letters, letters, span), 0x1666, true),
        (add::<true>(nines, nines, nines, false, span), 0x1998, true),
        (
            add::<true>(letters, letters, letters, false, span),
            0x1554,
            true,
        ),
        (
            sub::<true>(nines, Reg::zero(), nines, false, span),
            0x1001,
            true,
        ),
        (
            sub::<false>(nines, letters, nines, true, span),
            0x1665,
            false,
        ),
        (dec::<true>(nines, Reg::zero(), span), 0x1999, true),
        (neg::<true>(nines, Reg::holding(0x2), span), 0x1998, true),
        (neg1::<true>(nines, Reg::holding(0x2), span), 0x1997, true),
        (neg1::<false>(nines, Reg::holding(0x2), span), 0x1FFD, true),
    ];
    for ((register, carry), number, carry_out) in rows {
        let holds = register.to_u64() == number && carry == carry_out;
        assert!(rt; holds, "{number:X}");
    }
    Ok(())
}

#[test]
fn moves_and_comparisons(rt: HostRuntime) -> Result<(), Fail> {
    let span = Span::new(1, 3);
    let x = Reg::holding(0x12345);
    let y = Reg::holding(0xABCDE);
    let rows = [
        ("copy", copy(y, x, span).0, 0xA234E),
        ("shift_left", shift_left(y, x, span).0, 0xA340E),
        ("shift_right", shift_right(y, x, span).0, 0xA023E),
        ("exchange, the first", exchange(x, y, span).0, 0x1BCD5),
        ("exchange, the second", exchange(x, y, span).1, 0xA234E),
    ];
    for (name, register, number) in rows {
        wants(&rt, name, register.to_u64() == number);
    }
    let first = Reg::holding(0x1BCD5);
    let rows = [
        ("less", less(x, y, span), true),
        ("not less", less(y, x, span), false),
        ("not less than itself", less(x, x, span), false),
        ("differs", differs(x, y, span), true),
        (
            "no place differs",
            differs(x, first, Span::new(0, 0)),
            false,
        ),
        ("nonzero", nonzero(x, span), true),
        ("zeros", nonzero(x, Span::new(5, 13)), false),
    ];
    for (name, found, wanted) in rows {
        wants(&rt, name, found == wanted);
    }
    Ok(())
}

#[test]
fn a_register_takes_eight_bytes(rt: HostRuntime) {
    wants(&rt, "a register", size_of::<Reg>() == 8);
}

#[test]
fn every_digit(rt: HostRuntime) {
    every_digit_at(&rt, 0);
    every_digit_at(&rt, 6);
    every_digit_at(&rt, 13);
}

/// Tests the sums and differences of every two digits, 0 to F, at digit `place` of a register (0 to 13, from the
/// right), with and without a carry or borrow in, in base 10 and 16.
fn every_digit_at(rt: &impl Abort, place: usize)
    requires { place < 14 }
{
    for x in 0..16 {
        for y in 0..16 {
            for carry in [false, true] {
                sum_of_digits::<true>(rt, place, x, y, carry);
                sum_of_digits::<false>(rt, place, x, y, carry);
                difference_of_digits::<true>(rt, place, x, y, carry);
                difference_of_digits::<false>(rt, place, x, y, carry);
            }
        }
    }
}

/// Tests that the sum of `x`, `y` and the carry in at digit `place` of a register (0 to 13, from the right) follows the
/// rule for one digit: if it reaches the base, there is a carry out, and the digit is the sum less the base, modulo 16.
/// Base 10 if `DEC`, else 16.
fn sum_of_digits<const DEC: bool>(rt: &impl Abort, place: usize, x: u8, y: u8, carry: bool)
    requires place { place < 14 }
    requires first { x < 16 }
    requires second { y < 16 }
{
    let base = if DEC { 10 } else { 16 };
    let sum = x + y + u8::from(carry);
    let (digit, carries) = if sum < base {
        (sum, false)
    } else {
        ((sum - base) % 16, true)
    };
    let span = Span::new(place, place);
    let (register, carry_out) = add::<DEC>(
        Reg::zero(),
        Reg::zero().with(place, x),
        Reg::zero().with(place, y),
        carry,
        span,
    );
    let holds = register == Reg::zero().with(place, digit) && carry_out == carries;
    assert!(rt; holds, "{x} + {y} in base {base} at {place}");
}

/// Tests that `x` less `y` and the borrow in at digit `place` of a register (0 to 13, from the right) follows the rule
/// for one digit: if it is below 0, there is a borrow out, and the base is added, modulo 16. Base 10 if `DEC`, else 16.
fn difference_of_digits<const DEC: bool>(rt: &impl Abort, place: usize, x: u8, y: u8, borrow: bool)
    requires place { place < 14 }
    requires first { x < 16 }
    requires second { y < 16 }
{
    let base = if DEC { 10 } else { 16 };
    let taken = y + u8::from(borrow);
    let (digit, borrows) = if taken <= x {
        (x - taken, false)
    } else {
        ((x + base + 16 - taken) % 16, true)
    };
    let span = Span::new(place, place);
    let (register, borrow_out) = sub::<DEC>(
        Reg::zero(),
        Reg::zero().with(place, x),
        Reg::zero().with(place, y),
        borrow,
        span,
    );
    let holds = register == Reg::zero().with(place, digit) && borrow_out == borrows;
    assert!(rt; holds, "{x} - {y} in base {base} at {place}");
}
