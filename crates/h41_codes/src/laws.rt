//! Laws of program lines and their bytes. Each law is the contract of a function with an empty body.

ghost use Rattle.h41_codes.specs.ByteLaws.{ByteRoundTrip, LineOrNone, OneLine, NoPrefix};
ghost use Rattle.h41_codes.specs.ByteLaws.{CanonicalIsLine, CanonicalIsShortest, CanonicalOnce};
ghost use Rattle.h41_codes.specs.ByteLaws.{LineHasBytes, NumberBegins, NullBegins};

/// States that the bytes of a program line begin with that line, whatever bytes follow them, and that bytes begin with
/// one line at most. The exception is a number of fewer than 16 characters: no character of a number may follow it.
pub fn byte_round_trip()
    ensures again { ByteRoundTrip }
    ensures one { OneLine }
{}

/// States that any bytes either begin with a program line or with none. A search for a line therefore need not try all
/// lines.
pub fn line_or_none()
    ensures { LineOrNone }
{}

/// States that the bytes of a program line are never the beginning of another line's bytes, except if the line is a
/// number.
pub fn no_prefix()
    ensures { NoPrefix }
{}

/// States that the bytes of a program line are at least 1 and at most 18.
pub fn line_has_bytes()
    ensures { LineHasBytes }
{}

/// States that the first byte identifies numbers and the null: it is 10 to 1C (hexadecimal) if and only if the program
/// line is a number, and 00 if and only if it is the null.
pub fn first_bytes()
    ensures number { NumberBegins }
    ensures null { NullBegins }
{}

/// States that the canonical line of a program line (see `canon`) is a line, takes the fewest bytes of all lines with
/// the same canonical line, and is its own canonical line.
pub fn canonical_is_shortest()
    ensures line { CanonicalIsLine }
    ensures shortest { CanonicalIsShortest }
    ensures once { CanonicalOnce }
{}
