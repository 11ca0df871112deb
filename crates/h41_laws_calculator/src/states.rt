//! Laws about the states that a calculator can reach. Each law is the contract of a function whose body only calls the
//! laws that it depends on. A calculator is called whole if it is well-formed: its registers have 14 digits, its memory
//! is not larger than a calculator's, and its keyboard remembers only what a keyboard can.

ghost use Rattle.h41_laws_calculator.specs.WholeCalculators.{CallLeavesWhole, LoadLeavesWhole};
ghost use Rattle.h41_laws_calculator.specs.WholeCalculators.{PlugLeavesWhole, PressLeavesWhole};
ghost use Rattle.h41_laws_calculator.specs.WholeCalculators.{ResetLeavesWhole, SizeLeavesWhole};
ghost use Rattle.h41_laws_calculator.specs.WholeCalculators.{StartIsWhole, StepLeavesWhole};
ghost use Rattle.h41_laws_calculator.specs.WholeCalculators.{UnplugLeavesWhole};
ghost use Rattle.h41_laws_calculator.specs.WholeCalculators.{WholeKeyHasOneOutcome};
ghost use Rattle.h41_laws_calculator.specs.WholeInputs.{KeyLeavesWhole};

use crate::calculator::key_has_one_outcome;
use h41_laws_words::words::word_leaves_whole;

/// States that a key that a keyboard accepts leads to an action whose program lines can be encoded in bytes, and leaves
/// a keyboard that remembers only what a keyboard can, if that was so before.
pub fn key_leaves_whole()
    ensures { KeyLeavesWhole }
{}

/// States that a calculator is whole (well-formed) in its initial state, with any size of memory (`start`), and after a
/// reset (`reset`).
pub fn start_is_whole()
    ensures start { StartIsWhole }
    ensures reset { ResetLeavesWhole }
{}

/// States that a step, which executes a microcode word or a program line, leaves a whole (well-formed) calculator
/// whole.
pub fn step_leaves_whole()
    ensures { StepLeavesWhole }
{
    word_leaves_whole();
}

/// States that a key, accepted or refused, leaves a whole (well-formed) calculator whole (`press`), and that each key
/// has exactly one outcome from a whole calculator, a change or a refusal (`outcome`).
pub fn press_leaves_whole()
    ensures press { PressLeavesWhole }
    ensures outcome { WholeKeyHasOneOutcome }
{
    key_leaves_whole();
    key_has_one_outcome();
}

/// States that loading any bytes, setting a number of data registers and calling a function leave a whole (well-formed)
/// calculator whole.
pub fn programs_leave_whole()
    ensures load { LoadLeavesWhole }
    ensures size { SizeLeavesWhole }
    ensures call { CallLeavesWhole }
{}

/// States that plugging words into a page and unplugging a page leave a whole (well-formed) calculator whole.
pub fn pages_leave_whole()
    ensures plug { PlugLeavesWhole }
    ensures unplug { UnplugLeavesWhole }
{}
