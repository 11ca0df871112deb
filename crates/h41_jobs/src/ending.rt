//! What the program prints if its command line asks for no task.

ghost use Rattle.std.specs.Prelude.{◌≡◌};
ghost use Rattle.h41_jobs.specs.EndingTexts.{text_of};

use crate::arguments::Ending;
use h41_refusals::Refusal;

/// Returns the text that the program prints if its command line asks for help or the version, is wrong, or cannot be
/// read. For `OutOfMemory` (21) it is the line `! 21 OutOfMemory` without its line end.
pub fn text_of(ending: &Ending) -> &str
    ensures { result.now ≡ text_of ending.now }
{
    match ending {
        Ending::Help(text) => text.as_str(),
        Ending::Mistake(text) => text.as_str(),
        Ending::OutOfMemory => Refusal::OutOfMemory.heading(),
    }
}
