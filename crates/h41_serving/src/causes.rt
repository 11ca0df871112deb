//! Reports why the operating system cannot open or read a file.

ghost use Rattle.std.specs.Prelude.{◌≡◌};
ghost use Rattle.h41_serving.specs.Causes.{SaysCause, TellsOn};

use crate::serving::tell_text;
use arrayvec::ArrayString;
use h41_ends::Sink;
use std::fmt::Write;
use std::io;

/// The program's name, as it begins lines on standard error and appears in help.
pub(crate) const NAME: &str = "bench";

/// The size in bytes of the buffer for the operating system's message about a file. The longest message has 278: 255 of
/// text, 12 of ` (os error )`, and 11 of the error number.
const CAUSE: usize = 288;

/// Writes a line to `faults` with the program's name, the name of the file and the operating system's message, for
/// example `bench: none: there is none`. Nothing is written if `faults` has failed before.
pub(crate) fn tell_cause<E: Sink>(file: &str, error: &io::Error, faults: &mut E)
    ensures { SaysCause E.Sink faults.old faults.new file.now }
{
    let mut cause = ArrayString::<CAUSE>::new();
    let _ = write!(cause, "{error}");
    tell_on(NAME, faults);
    tell_on(": ", faults);
    tell_on(file, faults);
    tell_on(": ", faults);
    tell_on(cause.as_str(), faults);
    tell_on("\n", faults);
}

/// Writes a text to `faults` and flushes it. Nothing is written if `faults` has failed before.
fn tell_on<E: Sink>(text: &str, faults: &mut E)
    ensures { TellsOn E.Sink faults.old faults.new text.now }
{
    if !faults.failed() {
        tell_text(text, faults);
    }
}
