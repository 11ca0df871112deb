//! Laws of the execution of one microcode word. Each law is the contract of a function whose body only calls the laws
//! on which it is based.

ghost use Rattle.h41_nut.specs.ProcessorLaws.{MicroIsDetermined, StatusIsRead, OtherStatusStays};
ghost use Rattle.h41_nut.specs.ProcessorLaws.{ComplementSetsCarry};

use h41_arith::laws::{complement_borrows, difference_is_determined, sum_is_determined};
use h41_fields::laws::places_are_ordered;

/// States that the state before a microcode word is executed determines the state after it.
pub fn micro_is_determined()
    ensures { MicroIsDetermined }
{
    places_are_ordered();
    sum_is_determined();
    difference_is_determined();
}

/// States that a status bit is read as it was last set or cleared, and that setting or clearing it does not change the
/// other status bits.
pub fn status_is_read()
    ensures read { StatusIsRead }
    ensures others { OtherStatusStays }
{}

/// States that `C=-C-1` always sets the carry, whatever the field, the base and the content of C are.
pub fn complement_sets_carry()
    ensures { ComplementSetsCarry }
{
    places_are_ordered();
    complement_borrows();
}
