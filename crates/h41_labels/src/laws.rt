//! Laws of the label cache. Each law is the contract of a function that only proves it: its body does nothing, or calls
//! other laws.
ghost use Rattle.h41_labels.specs.KeptLaws.{RightnessDepends, SearchesStayRight};

use h41_program::laws::programs_depend_on_their_registers;

/// States that cached answers which are right for a memory (each is what its search finds there) are right for each
/// memory with the same program. Two memories have the same program if they have the same size and agree in register c
/// and in the registers from that of `.END.` to just below the curtain.
pub fn kept_answers_depend_on_the_program()
    ensures { RightnessDepends }
{
    programs_depend_on_their_registers();
}

/// States that cached answers which are right (each is what its search finds in memory) are still right after a search
/// stores another answer, and if no search is made.
pub fn answers_stay_right()
    ensures { SearchesStayRight }
{}
