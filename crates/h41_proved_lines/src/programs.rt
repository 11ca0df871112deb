//! Each theorem is the contract of a function whose body calls the laws that its proof uses.

ghost use Rattle.h41_proved_lines.specs.AbsoluteDifference.{AbsoluteDifferenceReturns};
ghost use Rattle.h41_proved_lines.specs.Bisection.{HalvesBracket};
ghost use Rattle.h41_proved_lines.specs.BisectionLoop.{BisectionReturns};
ghost use Rattle.h41_proved_lines.specs.GreatestCommonDivisor.{GreatestCommonDivisorReturns};
ghost use Rattle.h41_proved_lines.specs.LoadedDivisor.{GcdIsFirst, GcdIsLoaded};
ghost use Rattle.h41_proved_lines.specs.SumOfRegisters.{ExactSumReturns, SumReturns};

use h41_decimal::laws::{decimal_is_its_nearest, register_is_determined, units_are_injective};
use h41_laws_words::numbers::{decimal_has_one_register, fraction_has_one_nearest};
use h41_program::laws::{changes_are_read, lists_are_determined, one_list};

/// States that the lines `-`, `ABS`, `RTN` leave the absolute difference of Y and X in X, as the calculator rounds it,
/// and return, from every state in which Y and X contain numbers whose difference is in range.
pub fn absolute_difference()
    ensures { AbsoluteDifferenceReturns }
{
    decimal_is_its_nearest();
    decimal_has_one_register();
    one_list();
}

/// States that the program `GCD` (Euclid's algorithm with `MOD`) leaves the greatest common divisor of Y and X in X, and
/// returns after at most 423 lines, from every state in which Y and X contain whole numbers of at most ten digits.
pub fn greatest_common_divisor()
    ensures { GreatestCommonDivisorReturns }
{
    decimal_is_its_nearest();
    units_are_injective();
    register_is_determined();
    decimal_has_one_register();
    one_list();
    lists_are_determined();
}

/// States that memory has the program `GCD`, as `greatest_common_divisor` requires it, after the bench has loaded the bytes
/// of the program (`loaded`), and that the program begins at position 0, which the load returns, if memory had no program
/// lines before (`first`).
pub fn loaded_divisor_is_program()
    ensures loaded { GcdIsLoaded }
    ensures first { GcdIsFirst }
{
    changes_are_read();
    lists_are_determined();
}

/// States that the program `SUM` (a loop of `RCL IND Y`, `+` and `ISG Y`) leaves the sum of R00 to Rn in X, as the
/// calculator rounds it after each addition, and returns after at most 5 n + 8 lines, from every state in which X contains
/// 0.nnn, R00 to Rn contain numbers, and each partial sum is in range.
pub fn sum_of_registers()
    ensures { SumReturns }
{
    decimal_is_its_nearest();
    decimal_has_one_register();
    one_list();
    lists_are_determined();
}

/// States that the same program leaves the exact sum in X if R00 to Rn contain numbers with at most some number of
/// decimals, and each partial sum has at most ten digits when it is written with these decimals.
pub fn exact_sum_of_registers()
    ensures { ExactSumReturns }
{
    decimal_is_its_nearest();
    units_are_injective();
    decimal_has_one_register();
    one_list();
    lists_are_determined();
}

/// States that the program `HALF`, a round of a bisection, keeps the bracket: if R01 and R02 are a bracket for the square
/// root of the number in R00, they are one afterwards, one bound of it is the middle of the bracket before, and the program
/// returns after at most 14 lines.
pub fn bisection_keeps_bracket()
    ensures { HalvesBracket }
{
    decimal_is_its_nearest();
    decimal_has_one_register();
    one_list();
    lists_are_determined();
}

/// States that the program `BISECT`, which calls `HALF` as many times as R03 counts, keeps the bracket: from every state in
/// which R01 and R02 are a bracket for the square root of the number in R00, with bounds whose absolute values are at most
/// 10^49, and R03 contains a number n of rounds, it returns after at most 18 n + 1 lines, and the bracket is halved n times.
pub fn bisection_returns()
    ensures { BisectionReturns }
{
    decimal_is_its_nearest();
    fraction_has_one_nearest();
    decimal_has_one_register();
    one_list();
    lists_are_determined();
}
