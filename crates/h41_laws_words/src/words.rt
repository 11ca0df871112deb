//! Laws of existence for the processor. Each law is the contract of a function whose body only calls the laws that it
//! depends on.

ghost use Rattle.h41_laws_words.specs.FieldPlaces.{FieldHasPlace};
ghost use Rattle.h41_laws_words.specs.WholeStates.{WordLeavesWhole};
ghost use Rattle.h41_laws_words.specs.WordAnswers.{AcceptedWordHasOneChange, WordHasOneAnswer};

use crate::numbers::{difference_has_one_result, sum_has_one_result};
use h41_fields::laws::places_are_ordered;
use h41_nut::laws::micro_is_determined;
use h41_words::laws::word_table_round_trip;

/// States that each field of a register contains at least one of the digits 0 to 13, wherever the pointers P and Q are.
pub fn field_has_place()
    ensures { FieldHasPlace }
{}

/// States that executing a microcode word has exactly one result, from each state of the processor whose registers A, B
/// and C have 14 digits: the change that it makes, if it is not refused (`accepted`), or its refusal (`answered`).
pub fn word_has_one_answer()
    ensures accepted { AcceptedWordHasOneChange }
    ensures answered { WordHasOneAnswer }
{
    places_are_ordered();
    sum_has_one_result();
    difference_has_one_result();
    micro_is_determined();
}

/// States that executing a microcode word leaves registers of 14 digits, if everything that can be copied to C consists
/// of registers, bytes, addresses and words. Therefore the next word has a result too.
pub fn word_leaves_whole()
    ensures { WordLeavesWhole }
{
    word_table_round_trip();
}
