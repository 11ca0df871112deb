//! The meaning of the operands of program lines: registers, numbers of digits, flags and labels.

ghost use Rattle.std.specs.Prelude.{◌≡◌, ◌<◌, ◌+◌, false, IfOk};
ghost use Rattle.h41_rows.specs.Results.{result_map};
ghost use Rattle.h41_rows.specs.Computing.{meant_by};
ghost use Rattle.h41_rows.specs.Operands.{Address, Count, DigitKind, FlagKind, RegisterKind};
ghost use Rattle.h41_rows.specs.Operands.{data_register, meant_as, meant_of};
ghost use Rattle.h41_rows.specs.Profile.{is_operand_left_out, is_parameter_left_out};
ghost use Rattle.h41_codes.specs.declared.line.Line.TheVariants.{BranchIndirect};

use crate::fault::LineFault;
use crate::{readings, targets};
use h41_codes::{Branch, Operand, Parameter, Text};
use h41_ram::Ram;

/// The target of a GTO IND or XEQ IND: a local label or a name.
#[derive(Clone, Copy, Debug, PartialEq, Eq)]
pub enum BranchTarget {
    /// A local label, 0 to 99.
    Label(Parameter),
    /// The name of a global label, from the ALPHA data in a register.
    Name(Text<15>),
}

/// Returns the memory address of data register `n`. NONEXISTENT if `n` is not below SIZE, the number of data registers.
pub fn data_address<const REGS: usize>(ram: &Ram<REGS>, n: u16) -> Result<u16, LineFault>
    ensures { result ≡ data_register ram.now.registers n }
{
    readings::numbered_register(ram, n)
}

/// Returns the memory address of the register that an operand names. NONEXISTENT if there is no such data register;
/// ALPHA DATA if an indirect operand names a register that contains no number. The operand must be supported: a data
/// register from 00 to 99 or one of T, Z, Y, X and L, also for IND.
#[inline(always)]
pub fn register_of<const REGS: usize>(ram: &Ram<REGS>, operand: &Operand) -> Result<u16, LineFault>
    requires { is_operand_left_out operand.now ≡ false }
    ensures { result_map Address result ≡ meant_as RegisterKind ram.now.registers operand.now }
{
    readings::operand_register(ram, operand)
}

/// Returns the number of digits that an operand of FIX, SCI or ENG means, 0 to 9. DATA ERROR if it is above 9.
/// NONEXISTENT if the register of an indirect operand does not exist, ALPHA DATA if it contains no number. The operand
/// must be supported: its register is 00 to 99 or one of T, Z, Y, X and L.
pub fn digit_of<const REGS: usize>(ram: &Ram<REGS>, operand: &Operand) -> Result<u8, LineFault>
    requires { is_operand_left_out operand.now ≡ false }
    ensures meant { result_map Count result ≡ meant_as DigitKind ram.now.registers operand.now }
    ensures bound { IfOk result (λ n. n < 10) }
{
    let number = readings::operand_number(ram, operand)?;
    if number <= 9 {
        Ok(number as u8)
    } else {
        Err(LineFault::DataError)
    }
}

/// Returns the flag that an operand means, 0 to `highest`. NONEXISTENT if it is above, or if the register of an
/// indirect operand does not exist; ALPHA DATA if that register contains no number. The operand must be supported: its
/// register is 00 to 99 or one of T, Z, Y, X and L.
pub fn flag_of<const REGS: usize>(
    ram: &Ram<REGS>,
    operand: &Operand,
    highest: u8,
) -> Result<u8, LineFault>
    requires { is_operand_left_out operand.now ≡ false }
    ensures meant { result_map Count result
        ≡ meant_as (FlagKind highest) ram.now.registers operand.now }
    ensures bound { IfOk result (λ n. n < highest + 1) }
{
    let number = readings::operand_number(ram, operand)?;
    if number <= u16::from(highest) {
        Ok(number as u8)
    } else {
        Err(LineFault::Nonexistent)
    }
}

/// Returns the target of GTO IND or XEQ IND with this register: a label from 0 to 99, or a name. NONEXISTENT if there
/// is no such register, or if it contains a number of 100 or more; ALPHA DATA if it contains neither a number nor ALPHA
/// data. The register must be supported: 00 to 99 or one of T, Z, Y, X and L.
pub fn branch_target<const REGS: usize>(
    ram: &Ram<REGS>,
    branch: Branch,
    register: Parameter,
) -> Result<BranchTarget, LineFault>
    requires { is_parameter_left_out register ≡ false }
    ensures { result_map meant_by result
        ≡ meant_of ram.now.registers (BranchIndirect branch register) }
{
    let address = readings::parameter_register(ram, register)?;
    targets::target_in(ram.read(address))
}
