//! Reads the value of `--origin`: an address of four hexadecimal digits.

ghost use Rattle.std.specs.Prelude.{◌≡◌};
ghost use Rattle.h41_jobs.specs.BenchCommand.{origin_value};

use h41_lines::numbers::hexadecimal;

/// The number of hexadecimal digits of the value of `--origin`: 4.
const ORIGIN_DIGITS: usize = 4;

/// Returns the address that four hexadecimal digits, of either case, write. `None` for any other text.
pub fn origin_value(digits: &str) -> Option<u16>
    ensures { result ≡ origin_value digits.now }
{
    hexadecimal(ORIGIN_DIGITS, ORIGIN_DIGITS, digits.as_bytes())
}
