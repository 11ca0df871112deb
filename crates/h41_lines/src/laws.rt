//! Laws of numbers that are written as text. Each law is the contract of a function with an empty body.

ghost use Rattle.h41_lines.specs.Laws.{HexadecimalRoundTrip};

/// States that a number which is written in hexadecimal digits and read again is the same number.
pub fn hexadecimal_round_trip()
    ensures { HexadecimalRoundTrip }
{}
