//! Laws of what `bench asm` and `bench dis` print. Each law is the contract of a function whose body only calls the
//! laws that it depends on.

ghost use Rattle.h41_jobs.specs.JobLaws.{FaultIsPrinted, ListHasOneEnd, ListHasOneText};
ghost use Rattle.h41_jobs.specs.JobLaws.{PrintedWordsAreRead, SourceHasOneEnd, SourceHasOneText};
ghost use Rattle.h41_jobs.specs.JobLaws.{WordsAreListed, WordsArePrinted, WrongWordIsReported};

use h41_asm::laws::{words_are_determined, words_or_fault};
use h41_lines::laws::hexadecimal_round_trip;

/// States that each source of at most 67,108,864 bytes has one text (`text`) and ends in one way (`end`) at each
/// origin: with the lines of its words (`words`), or with its first error and the number of the source line (`fault`).
pub fn source_has_one_text()
    ensures text { SourceHasOneText }
    ensures end { SourceHasOneEnd }
    ensures words { WordsArePrinted }
    ensures fault { FaultIsPrinted }
{
    words_or_fault();
    words_are_determined();
}

/// States that each list of words of at most 67,108,864 bytes has one text (`text`) and ends in one way (`end`): with
/// the listing of its words (`words`), or with the number of its first part that is not a word, and no text (`wrong`).
pub fn list_has_one_text()
    ensures text { ListHasOneText }
    ensures end { ListHasOneEnd }
    ensures words { WordsAreListed }
    ensures wrong { WrongWordIsReported }
{}

/// States that the text that `bench asm` prints for the words of a source is a list of exactly these words for
/// `bench dis`.
pub fn printed_words_are_read()
    ensures { PrintedWordsAreRead }
{
    hexadecimal_round_trip();
}
