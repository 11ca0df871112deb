//! The function with which a test checks a condition.

ghost use Rattle.std.specs.Prelude.{IsTrue};

use std::process::Abort;

/// Stops the test with the message `row` if `holds` is false.
pub fn wants(rt: &impl Abort, row: &str, holds: bool)
    ensures { IsTrue holds }
{
    assert!(rt; holds, "{row}");
}
