//! How assembling, listing or executing a deck ends, and what is printed for it.

ghost use Rattle.std.specs.Prelude.{◌≡◌, ◌++◌, ◌≤◌, length};
ghost use Rattle.h41_jobs.specs.Texts.{mistake_line};

use arrayvec::ArrayString;
use itoa::Buffer;

/// The most bytes of the line that reports a wrong word by its number: 51 without the number, which has up to 20
/// digits.
const LINE: usize = 72;

/// How a deck, a source or a list of words ended if reading, writing and allocation succeeded.
#[derive(Clone, Copy, Debug, PartialEq, Eq)]
pub enum Ended {
    /// No refusal was printed.
    Accepted,
    /// A refusal was printed.
    Refused,
    /// The word with this number, counted from 1, is not a hexadecimal number up to 3FF. Nothing was printed.
    WrongWord(usize),
}

/// What the program prints for a source or a list of words, and which exit status follows from it.
#[derive(Debug, Drop)]
pub struct Answer {
    /// The text that goes to standard output.
    pub text: Vec<u8>,
    /// Whether a refusal is printed or a word of the list is wrong.
    pub ended: Ended,
}

/// Returns the line which reports that the word with this number, counted from 1, is not a hexadecimal number up to
/// 3FF.
pub fn mistake_line(number: usize) -> ArrayString<LINE>
    ensures { result.bytes ≡ mistake_line number }
{
    let mut line = ArrayString::new();
    line.push_str("error: word ");
    line.push_str(Buffer::new().format(number));
    line.push_str(" is not a hexadecimal number up to 3FF\n");
    line
}
