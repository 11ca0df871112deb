//! Laws of existence for numbers. Each law is the contract of a function whose body only calls the laws that it depends
//! on.

ghost use Rattle.h41_laws_words.specs.DigitAnswers.{SumHasOneResult, DifferenceHasOneResult};
ghost use Rattle.h41_laws_words.specs.DecimalAnswers.{FractionHasOneNearest, RootHasOneNearest};
ghost use Rattle.h41_laws_words.specs.DecimalAnswers.{QuotientHasOneNearest, ModuloHasOneNearest};
ghost use Rattle.h41_laws_words.specs.DecimalAnswers.{NumberHasOneOfSteps, NumberHasOneInteger};
ghost use Rattle.h41_laws_words.specs.DecimalAnswers.{NumberHasOneFraction, TypedHasOneNumber};
ghost use Rattle.h41_laws_words.specs.DecimalAnswers.{DecimalHasOneRegister, RegisterHoldsDecimal};

use h41_arith::laws::{difference_is_determined, sum_is_determined};
use h41_decimal::laws::{
    nearest_is_determined, nearest_root_is_determined, parts_are_determined,
    quotients_are_determined, register_is_determined, steps_are_determined, typed_is_determined,
    units_are_injective,
};

/// States that two registers and a carry have exactly one sum, a register and a carry, in any range of digits and in
/// base 10 and 16, for all digits from 0 to F.
pub fn sum_has_one_result()
    ensures { SumHasOneResult }
{
    sum_is_determined();
}

/// States that two registers and a borrow have exactly one difference, a register and a borrow, in any range of digits
/// and in base 10 and 16.
pub fn difference_has_one_result()
    ensures { DifferenceHasOneResult }
{
    difference_is_determined();
}

/// States that each fraction of whole numbers, which is a value in units of 10^-108, has exactly one nearest decimal of
/// ten digits, or is out of range. Sums, differences and products are such fractions.
pub fn fraction_has_one_nearest()
    ensures { FractionHasOneNearest }
{
    nearest_is_determined();
}

/// States that the square root of each whole number, which is a value in units of 10^-108, has exactly one nearest
/// decimal of ten digits, or, for a negative number, the answer that there is none.
pub fn root_has_one_nearest()
    ensures { RootHasOneNearest }
{
    nearest_root_is_determined();
}

/// States that dividing two numbers has exactly one quotient, a decimal of ten digits or an error (`quotient`), and
/// exactly one remainder or error (`modulo`), even if the divisor is zero.
pub fn quotients_have_one_nearest()
    ensures quotient { QuotientHasOneNearest }
    ensures modulo { ModuloHasOneNearest }
{
    quotients_are_determined();
}

/// States that each number is rounded to a multiple of a step in exactly one way, for each step greater than zero. Both
/// are whole numbers of units of 10^-108.
pub fn number_has_one_of_steps()
    ensures { NumberHasOneOfSteps }
{
    steps_are_determined();
}

/// States that a number has exactly one integer part (`integer`) and exactly one fractional part (`fraction`).
pub fn number_has_parts()
    ensures integer { NumberHasOneInteger }
    ensures fraction { NumberHasOneFraction }
{
    parts_are_determined();
}

/// States that typed digits with a sign, a number of digits after the radix mark and an exponent are exactly one
/// number.
pub fn typed_has_one_number()
    ensures { TypedHasOneNumber }
{
    typed_is_determined();
}

/// States that for each decimal of ten digits exactly one register of 14 digits contains its value (`register`), and
/// that the value of a register that contains a number is that of exactly one decimal (`decimal`).
pub fn decimal_has_one_register()
    ensures register { DecimalHasOneRegister }
    ensures decimal { RegisterHoldsDecimal }
{
    register_is_determined();
    units_are_injective();
}
