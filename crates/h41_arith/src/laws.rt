//! Laws of digit-by-digit arithmetic. Each law is the contract of a function with an empty body.

ghost use Rattle.h41_arith.specs.DigitRuleLaws.{SumIsDetermined, DifferenceIsDetermined};
ghost use Rattle.h41_arith.specs.DigitRuleLaws.{BorrowTellsLess, ComplementBorrows};
ghost use Rattle.h41_arith.specs.DigitRuleLaws.{ReplacedIsDetermined, DifferentAtAPlace};
ghost use Rattle.h41_arith.specs.DigitRuleLaws.{SumIsOfNumbers, DifferenceIsOfNumbers};

/// States that there is exactly one result of a sum over a span: the rule for each digit determines the register and
/// the carry out.
pub fn sum_is_determined()
    ensures { SumIsDetermined }
{}

/// States that there is exactly one result of a difference over a span: the rule for each digit determines the register
/// and the borrow out.
pub fn difference_is_determined()
    ensures { DifferenceIsDetermined }
{}

/// States that in any base the borrow out of `x` - `y` over a span is set exactly if the digits of `x` in the span,
/// read as a number, are less than those of `y`.
pub fn borrow_tells_less()
    ensures { BorrowTellsLess }
{}

/// States that 0 - x - 1 over a span has a borrow out for every register x.
pub fn complement_borrows()
    ensures { ComplementBorrows }
{}

/// States that the result of a copy or of a shift over a span is the only register that has, at each place, the digit
/// which the definition of the copy or shift gives.
pub fn replaced_is_determined()
    ensures { ReplacedIsDetermined }
{}

/// States that the comparison for inequality over a span returns true exactly if the two registers have different
/// digits at some place of the span.
pub fn different_at_a_place()
    ensures { DifferentAtAPlace }
{}

/// States that a sum or difference over a span is that of whole numbers: its digits in the span form the sum or
/// difference of the numbers that the digits of the two registers form there. This holds for all digits in base 16, and
/// in base 10 if all digits are 0 to 9.
pub fn digit_rule_as_whole_numbers()
    ensures sum { SumIsOfNumbers }
    ensures difference { DifferenceIsOfNumbers }
{}
