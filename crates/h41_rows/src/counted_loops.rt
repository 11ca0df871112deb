//! Executes ISG and DSE: counts the counter of a loop, and decides whether the loop continues.

ghost use Rattle.std.specs.Prelude.{◌≡◌, IfOk};
ghost use Rattle.h41_rows.specs.Computing.{WorksOnOne, amount_at};
ghost use Rattle.h41_rows.specs.Counters.{Down, Up, goes_on};
ghost use Rattle.h41_rows.specs.Results.{result_map};
ghost use Rattle.h41_rows.specs.declared.values.ValueOfOne.TheVariants.{CountedDown, CountedUp};
ghost use Rattle.h41_rows.specs.private.Counting.{value_along, way_of};

use crate::answers::{kept, number_in};
use crate::counters::{counted, five_decimals, goes_on};
use crate::fault::LineFault;
use h41_decimal::Sign;
use h41_digits::Reg;
use h41_ram::Ram;
use h41_ram::flags::RANGE_IGNORE;

/// The result of ISG or DSE: the new content of the register with the counter, and whether the loop continues.
#[derive(Clone, Copy, Debug, PartialEq, Eq)]
pub struct CountedLoop {
    /// The new content of the register with the counter.
    pub register: Reg,
    /// Whether the loop continues: for ISG if the new counter is at most the final value, for DSE if it is above it.
    pub goes_on: bool,
}

/// Returns the result of ISG for the register at an address: the counter increased, and whether the loop continues.
/// ALPHA DATA if the register contains no number; OUT OF RANGE if the result is out of range and flag 24 is clear.
pub fn loop_up<const REGS: usize>(ram: &Ram<REGS>, address: u16) -> Result<CountedLoop, LineFault>
    ensures register { WorksOnOne CountedUp ram.now.registers address
        (result_map (λ counted. counted.register) result) }
    ensures course { IfOk result
        (λ counted. counted.goes_on ≡ goes_on Up (amount_at ram.now.registers address)) }
{
    loop_along(ram, address, Sign::Plus)
}

/// Returns the result of DSE for the register at an address: the counter decreased, and whether the loop continues.
/// ALPHA DATA if the register contains no number; OUT OF RANGE if the result is out of range and flag 24 is clear.
pub fn loop_down<const REGS: usize>(ram: &Ram<REGS>, address: u16) -> Result<CountedLoop, LineFault>
    ensures register { WorksOnOne CountedDown ram.now.registers address
        (result_map (λ counted. counted.register) result) }
    ensures course { IfOk result
        (λ counted. counted.goes_on ≡ goes_on Down (amount_at ram.now.registers address)) }
{
    loop_along(ram, address, Sign::Minus)
}

/// Returns the result of ISG (plus) or DSE (minus) for the register at an address: its new content, and whether the
/// loop continues. ALPHA DATA if the register contains no number; OUT OF RANGE if the result is out of range and flag
/// 24 is clear. The decimals of the counter are computed once, because both results need them.
#[inline(always)]
fn loop_along<const REGS: usize>(
    ram: &Ram<REGS>,
    address: u16,
    direction: Sign,
) -> Result<CountedLoop, LineFault>
    ensures register { WorksOnOne (value_along direction) ram.now.registers address
        (result_map (λ counted. counted.register) result) }
    ensures course { IfOk result
        (λ counted. counted.goes_on
        ≡ goes_on (way_of direction) (amount_at ram.now.registers address)) }
{
    match number_in(ram.read(address)) {
        Ok(number) => {
            let decimals = five_decimals(number);
            let answer = counted(number, direction, decimals);
            match kept(answer, Sign::Plus, ram.flag(RANGE_IGNORE)) {
                Ok(register) => {
                    let goes_on = goes_on(number, direction, decimals);
                    Ok(CountedLoop { register, goes_on })
                }
                Err(fault) => Err(fault),
            }
        }
        Err(fault) => Err(fault),
    }
}
