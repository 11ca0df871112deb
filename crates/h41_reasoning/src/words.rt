//! Laws of runs of microcode words. Each law is the contract of a function whose body only calls the laws on which it is
//! based.

ghost use Rattle.h41_reasoning.specs.WordRuns.{ArithmeticIsExecuted, RunsAreDetermined, RunsJoin};
ghost use Rattle.h41_reasoning.specs.WordRuns.{RunsLeaveWhole, WordIsExecuted};

use h41_laws_words::words::{word_has_one_answer, word_leaves_whole};
use h41_nut::laws::micro_is_determined;
use h41_words::laws::word_table_round_trip;

/// States that each word that is not refused is executed in one step: a word that is not arithmetic leaves the state that
/// is defined for it (`straight`), and an arithmetic word has a result (`arithmetic`). The next word has an effect too.
pub fn word_is_executed()
    ensures straight { WordIsExecuted }
    ensures arithmetic { ArithmeticIsExecuted }
{
    word_has_one_answer();
    word_leaves_whole();
    word_table_round_trip();
}

/// States that two runs, of which the second begins at the end of the first, are one run.
pub fn runs_join()
    ensures { RunsJoin }
{}

/// States that a state and a number of steps determine the state at the end of a run.
pub fn runs_are_determined()
    ensures { RunsAreDetermined }
{
    micro_is_determined();
}

/// States that a run leaves a state in which the next word can have an effect: registers of 14 digits, bytes, and words
/// in the pages.
pub fn runs_leave_whole()
    ensures { RunsLeaveWhole }
{
    word_leaves_whole();
}
