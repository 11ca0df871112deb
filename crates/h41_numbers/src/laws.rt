//! Laws of the numbers of number lines. Each law is the contract of a function whose body only calls the laws on which
//! it is based.

ghost use Rattle.h41_numbers.specs.NumberLaws.{NumbersAreDetermined, PlainTextsAreTyped};

use h41_decimal::laws::typed_is_determined;

/// States that the characters of a number line determine exactly one number.
pub fn numbers_are_determined()
    ensures { NumbersAreDetermined }
{
    typed_is_determined();
}

/// States that a number line of only digits and radix marks, with at most ten digits, has the number that these digits
/// form, with those after the first radix mark as decimals.
pub fn plain_texts_are_typed()
    ensures { PlainTextsAreTyped }
{}
