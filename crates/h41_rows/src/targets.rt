//! The targets of GTO IND and XEQ IND.

ghost use Rattle.std.specs.Prelude.{◌≡◌, ◌≤◌, length, None, Ok};
ghost use Rattle.std.specs.Result.{result_map_both};
ghost use Rattle.h41_decimal.specs.Holding.{holding_of, worth};
ghost use Rattle.h41_rows.specs.Computing.{meant_by};
ghost use Rattle.h41_rows.specs.Operands as spec;
ghost use Rattle.h41_rows.specs.private.Readings.{LeadsTo};

use crate::fault::LineFault;
use crate::operands::BranchTarget;
use crate::readings;
use h41_codes::{Parameter, Text};
use h41_decimal::Ten;
use h41_digits::Reg;
use h41_show::characters::{ALPHA_DATA, KIND_PLACE, after_nulls, alpha_data};

/// Returns the target of GTO IND or XEQ IND for the content of a register: for a number the local label with its
/// integer part, for ALPHA data the name. The sign of the number is ignored. NONEXISTENT if its absolute value is 100
/// or more; ALPHA DATA if the content is neither a number nor ALPHA data.
pub(crate) fn target_in(register: Reg) -> Result<BranchTarget, LineFault>
    ensures { LeadsTo (spec.target_of (holding_of register)) result }
{
    match Ten::from_reg(register) {
        Some(number) => label(readings::told_whole(number)),
        None => name_in(register),
    }
}

/// Returns the local label with this number, 0 to 99, as a branch target. NONEXISTENT if the number is above 99.
fn label(number: u16) -> Result<BranchTarget, LineFault>
    ensures { LeadsTo (spec.label_of number) result }
{
    if number < 100 {
        Ok(BranchTarget::Label(Parameter::new(number as u8)))
    } else {
        Err(LineFault::Nonexistent)
    }
}

/// Returns the ALPHA data in a register, which contains no number, as a name to branch to. ALPHA DATA if the register
/// contains no ALPHA data.
fn name_in(register: Reg) -> Result<BranchTarget, LineFault>
    requires { worth (holding_of register) ≡ None }
    ensures { LeadsTo (spec.target_of (holding_of register)) result }
{
    if register.get(KIND_PLACE) == ALPHA_DATA {
        name(after_nulls(&alpha_data(register)))
    } else {
        Err(LineFault::AlphaData)
    }
}

/// Returns the name with these characters, at most six, as a branch target.
fn name(characters: &[u8]) -> Result<BranchTarget, LineFault>
    requires { length characters.now ≤ 6 }
    ensures { result_map_both meant_by (λ fault. fault) result ≡ Ok (spec.Name characters.now) }
{
    match Text::new(characters) {
        Some(name) => Ok(BranchTarget::Name(name)),
        None => Err(LineFault::AlphaData),
    }
}
