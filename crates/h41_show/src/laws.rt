//! Laws of texts. Each law is the contract of a function with an empty or nearly empty body.

ghost use Rattle.std.specs.Prelude.{◌≡◌, ◌≤◌, length};
ghost use Rattle.h41_decimal.specs.Units.{units};
ghost use Rattle.h41_show.specs.Laws.{NearestIsNearest, NearestIsDetermined, ExponentIsDetermined};
ghost use Rattle.h41_show.specs.NumberText as numbers;
ghost use Rattle.h41_show.specs.RegisterText as registers;

use crate::format::Format;
use crate::{alpha_text, number_text, register_text};
use h41_decimal::Ten;
use h41_digits::Reg;
use h41_ram::Ram;

/// States that the display's rounding is to the nearest: an absolute value becomes the multiple of a step, for example
/// of 0.01, that is nearest to it, and halves are rounded up. The value and the step, which is greater than zero, are
/// given in units of 10^-108.
pub fn nearest_is_nearest()
    ensures { NearestIsNearest }
{}

/// States that an absolute value has only one multiple of a step, for example of 0.01, that is nearest to it if halves
/// are rounded up. The value and the step, which is greater than zero, are given in units of 10^-108.
pub fn nearest_is_determined()
    ensures { NearestIsDetermined }
{}

/// States that only one exponent is right for an absolute value: that of the power of ten that is at most the value
/// while the next power is above it.
pub fn exponent_is_determined()
    ensures { ExponentIsDetermined }
{}

/// Returns how many bytes the text of a number in a display format has, at most 80.
pub fn number_text_fits(number: Ten, format: Format) -> usize
    ensures size { result ≡ length (numbers.number_text format (units number)) }
    ensures fits { result ≤ 80 }
{
    number_text(number, format).len()
}

/// Returns how many bytes the text of a register's content in a display format has, at most 80.
pub fn register_text_fits(register: Reg, format: Format) -> usize
    ensures size { result ≡ length (registers.register_text format register) }
    ensures fits { result ≤ 80 }
{
    register_text(register, format).len()
}

/// Returns how many bytes the text of the ALPHA register has, at most 80.
pub fn alpha_text_fits<const REGS: usize>(ram: &Ram<REGS>) -> usize
    ensures size { result ≡ length (registers.alpha_text ram.now.registers) }
    ensures fits { result ≤ 80 }
{
    alpha_text(ram).len()
}
