//! Each theorem is the contract of a function whose body calls the laws that its proof uses.

ghost use Rattle.h41_proved_words.specs.AddTwo.{AddTwoReturns};
ghost use Rattle.h41_proved_words.specs.CountDown.{CountDownReturns};
ghost use Rattle.h41_proved_words.specs.DecimalSum.{DecimalSumReturns};
ghost use Rattle.h41_proved_words.specs.FourWords.{FourWordsReturn};
ghost use Rattle.h41_proved_words.specs.Increment.{IncrementReturns};
ghost use Rattle.h41_proved_words.specs.OtherBank.{OtherBankReturns};

use h41_arith::laws::{different_at_a_place, digit_rule_as_whole_numbers};
use h41_nut::laws::status_is_read;
use h41_reasoning::words::{runs_leave_whole, word_is_executed};

/// States that the four words of the first run return, from every state, with the digits 124 in the S&X field of C, and
/// that nothing else changes but the carry, which is clear.
pub fn four_words()
    ensures { FourWordsReturn }
{
    word_is_executed();
}

/// States that `C=C+1 S&X`, `RTN` adds 1 to the number in the S&X field of C, in two steps, from every state in
/// hexadecimal mode in which the number is below FFF.
pub fn increment()
    ensures { IncrementReturns }
{
    word_is_executed();
    digit_rule_as_whole_numbers();
}

/// States that the loop `?C#0 S&X`, `?NC RTN`, `C=C-1 S&X`, `JNC -03` ends for every C, with zero in the S&X field, and
/// that it takes four steps for each count and two more.
pub fn count_down()
    ensures { CountDownReturns }
{
    word_is_executed();
    digit_rule_as_whole_numbers();
    different_at_a_place();
}

/// States that a function in page 8 that calls `increment` in page 9 twice adds 2 to the number in the S&X field of C,
/// and returns in seven steps. Only the theorem of `increment` is used, not its words.
pub fn add_two()
    ensures { AddTwoReturns }
{
    word_is_executed();
    runs_leave_whole();
    increment();
}

/// States that a subroutine that begins in bank 1 of a page, adds 1 to the number in the S&X field of C in bank 2, and
/// returns in bank 1, returns in six steps with its caller, and that bank 1 is active again.
pub fn other_bank()
    ensures { OtherBankReturns }
{
    word_is_executed();
    digit_rule_as_whole_numbers();
}

/// States that seven words add the decimal number in A to that in C, with the carry in status bit 0, from every state in
/// which both have digits 0 to 9, within seven steps.
pub fn decimal_sum()
    ensures { DecimalSumReturns }
{
    word_is_executed();
    digit_rule_as_whole_numbers();
    status_is_read();
}
