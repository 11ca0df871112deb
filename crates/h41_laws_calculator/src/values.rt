//! Laws of existence for the values that program lines compute. Each law is the contract of a function whose body only
//! calls the laws that it depends on.

ghost use Rattle.h41_laws_calculator.specs.LineValues.{NumberLineHasOneNumber, ValueHasOneRegister};
ghost use Rattle.h41_laws_calculator.specs.LineValues.{ValueHasOneAnswer};
ghost use Rattle.h41_laws_calculator.specs.RegisterPlaces.{AddressHasPlace, TwoRegistersHavePlaces};

use h41_laws_words::numbers::{
    decimal_has_one_register, fraction_has_one_nearest, number_has_one_of_steps, number_has_parts,
    quotients_have_one_nearest, root_has_one_nearest, typed_has_one_number,
};
use h41_numbers::laws::numbers_are_determined;
use h41_rows::laws::values_are_determined;

/// States that the characters of a number line, whatever they are, are exactly one number.
pub fn number_line_has_one_number()
    ensures { NumberLineHasOneNumber }
{
    typed_has_one_number();
    numbers_are_determined();
}

/// States that each value that a program line computes is computed in exactly one way, from any registers: it is the
/// register of its nearest decimal, or an error (`computed`); and that it has exactly one result even if a register
/// that must contain a number contains none (`answered`).
pub fn value_has_one_register()
    ensures computed { ValueHasOneRegister }
    ensures answered { ValueHasOneAnswer }
{
    number_line_has_one_number();
    fraction_has_one_nearest();
    root_has_one_nearest();
    quotients_have_one_nearest();
    number_has_one_of_steps();
    number_has_parts();
    decimal_has_one_register();
    values_are_determined();
}

/// States that each address can be that of an operand of a program line: a register of the stack, LAST X or the
/// register that the line names (`address`); and that any two registers of a memory can be two operands in a memory
/// with the same flag 24 (`both`).
pub fn registers_have_places()
    ensures address { AddressHasPlace }
    ensures both { TwoRegistersHavePlaces }
{}
