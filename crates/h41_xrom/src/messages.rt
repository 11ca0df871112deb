//! The texts that the display shows for errors of lines and for the answers of typed tests.

ghost use Rattle.std.specs.Prelude.{◌≡◌};
ghost use Rattle.h41_xrom.specs.Messages as spec;

use arrayvec::ArrayString;
use h41_focal::LineFault;
use h41_show::TEXT_CAPACITY;

/// A text that the display shows.
pub type DisplayText = ArrayString<TEXT_CAPACITY>;

/// Returns the message that the display shows for an error of a line, for example `DATA ERROR`, as in the Owner's
/// Handbook.
pub fn fault_text(fault: LineFault) -> DisplayText
    ensures { result.bytes ≡ spec.fault_text fault }
{
    let mut text = DisplayText::new();
    text.push_str(match fault {
        LineFault::AlphaData => "ALPHA DATA",
        LineFault::DataError => "DATA ERROR",
        LineFault::OutOfRange => "OUT OF RANGE",
        LineFault::Nonexistent => "NONEXISTENT",
    });
    text
}

/// Returns the text that the display shows for the answer of a typed test: `YES` if it is true, otherwise `NO`.
pub fn test_text(holds: bool) -> DisplayText
    ensures { result.bytes ≡ spec.test_text holds }
{
    let mut text = DisplayText::new();
    text.push_str(if holds { "YES" } else { "NO" });
    text
}
