//! Changes the stack, LAST X, and registers together with X.

ghost use Rattle.std.specs.Prelude.{ℕ, [], ◌∷◌};
ghost use Rattle.h41_rows.specs.Computing.{BringsIn, Exchanges, Moved, Stores, Took, drop_takes};
ghost use Rattle.h41_rows.specs.Computing.{whole_stack};
ghost use Rattle.h41_rows.specs.Places.{LastX, T, X, Y, Z};
ghost use Rattle.h41_rows.specs.RowEffects.{takes_of};
ghost use Rattle.h41_rows.specs.Rows.{coming_in, compute, copy};
ghost use Rattle.h41_ram.specs.RamState.{KeepsMark};
ghost use Rattle.h41_rows.specs.RowMarks.{IsApart, LeavesMark};

use h41_digits::Reg;
use h41_ram::{Ram, StatusRegister};

/// Writes `register`, the content of a register, to X. If stack lift is on (`lift`), the stack is lifted first.
#[inline(always)]
pub fn bring_in<const REGS: usize>(ram: &mut Ram<REGS>, register: Reg, lift: bool)
    ensures change { Took ram.old.registers ram.new.registers register
        (takes_of (coming_in (compute X)) lift) }
    ensures mark { KeepsMark ram.old ram.new }
    ensures left { LeavesMark ram.old ram.new }
{
    if lift {
        enter(ram);
    }
    ram.set_status_register(StatusRegister::X, register);
}

/// Copies the register at an address to X, as RCL does. If stack lift is on (`lift`), the stack is lifted first; the
/// register is read before that.
#[inline(always)]
pub fn bring_in_from<const REGS: usize>(ram: &mut Ram<REGS>, address: u16, lift: bool)
    ensures change { BringsIn ram.old.registers ram.new.registers address lift }
    ensures mark { KeepsMark ram.old ram.new }
    ensures left { LeavesMark ram.old ram.new }
{
    let register = ram.read(address);
    bring_in(ram, register, lift);
}

/// Writes `register`, the content of a register, to X, and the old X to LAST X.
#[inline(always)]
pub fn keep_last<const REGS: usize>(ram: &mut Ram<REGS>, register: Reg)
    ensures change { Took ram.old.registers ram.new.registers register
        (compute X ∷ copy LastX X ∷ []) }
    ensures mark { KeepsMark ram.old ram.new }
    ensures left { LeavesMark ram.old ram.new }
{
    let x = ram.status_register(StatusRegister::X);
    ram.set_status_register(StatusRegister::X, register);
    ram.set_status_register(StatusRegister::L, x);
}

/// Writes `register`, the content of a register, to X and the old X to LAST X, and drops the stack: Y receives Z, Z
/// receives T, and T is unchanged.
#[inline(always)]
pub fn drop_into<const REGS: usize>(ram: &mut Ram<REGS>, register: Reg)
    ensures change { Took ram.old.registers ram.new.registers register drop_takes }
    ensures mark { KeepsMark ram.old ram.new }
    ensures left { LeavesMark ram.old ram.new }
{
    let t = ram.status_register(StatusRegister::T);
    let z = ram.status_register(StatusRegister::Z);
    let x = ram.status_register(StatusRegister::X);
    ram.set_status_register(StatusRegister::X, register);
    ram.set_status_register(StatusRegister::Y, z);
    ram.set_status_register(StatusRegister::Z, t);
    ram.set_status_register(StatusRegister::L, x);
}

/// Exchanges the contents of X and of the register at an address, as X<> does.
#[inline(always)]
pub fn exchange<const REGS: usize>(ram: &mut Ram<REGS>, address: u16)
    ensures change { Exchanges ram.old.registers ram.new.registers address }
    ensures mark { KeepsMark ram.old ram.new }
    ensures left { IsApart ram.old.registers address → LeavesMark ram.old ram.new }
{
    let x = ram.status_register(StatusRegister::X);
    let other = ram.read(address);
    ram.set_status_register(StatusRegister::X, other);
    ram.write(address, x);
}

/// Copies X to the register at an address, as STO does.
#[inline(always)]
pub fn store_x<const REGS: usize>(ram: &mut Ram<REGS>, address: u16)
    ensures change { Stores ram.old.registers ram.new.registers address }
    ensures mark { KeepsMark ram.old ram.new }
    ensures left { IsApart ram.old.registers address → LeavesMark ram.old ram.new }
{
    let x = ram.status_register(StatusRegister::X);
    ram.write(address, x);
}

/// Rolls the stack up: X receives T, Y receives X, Z receives Y, and T receives Z.
#[inline(always)]
pub fn roll_up<const REGS: usize>(ram: &mut Ram<REGS>)
    ensures change { Moved ram.old.registers ram.new.registers
        (copy X T ∷ copy Y X ∷ copy Z Y ∷ copy T Z ∷ []) }
    ensures mark { KeepsMark ram.old ram.new }
    ensures left { LeavesMark ram.old ram.new }
{
    let t = ram.status_register(StatusRegister::T);
    let z = ram.status_register(StatusRegister::Z);
    let y = ram.status_register(StatusRegister::Y);
    let x = ram.status_register(StatusRegister::X);
    ram.set_status_register(StatusRegister::X, t);
    ram.set_status_register(StatusRegister::Y, x);
    ram.set_status_register(StatusRegister::Z, y);
    ram.set_status_register(StatusRegister::T, z);
}

/// Rolls the stack down: X receives Y, Y receives Z, Z receives T, and T receives X.
#[inline(always)]
pub fn roll_down<const REGS: usize>(ram: &mut Ram<REGS>)
    ensures change { Moved ram.old.registers ram.new.registers
        (copy X Y ∷ copy Y Z ∷ copy Z T ∷ copy T X ∷ []) }
    ensures mark { KeepsMark ram.old ram.new }
    ensures left { LeavesMark ram.old ram.new }
{
    let t = ram.status_register(StatusRegister::T);
    let z = ram.status_register(StatusRegister::Z);
    let y = ram.status_register(StatusRegister::Y);
    let x = ram.status_register(StatusRegister::X);
    ram.set_status_register(StatusRegister::X, y);
    ram.set_status_register(StatusRegister::Y, z);
    ram.set_status_register(StatusRegister::Z, t);
    ram.set_status_register(StatusRegister::T, x);
}

/// Lifts the stack: T receives Z, Z receives Y, Y receives X, and X is unchanged.
#[inline(always)]
pub fn enter<const REGS: usize>(ram: &mut Ram<REGS>)
    ensures change { Moved ram.old.registers ram.new.registers
        (copy T Z ∷ copy Z Y ∷ copy Y X ∷ []) }
    ensures mark { KeepsMark ram.old ram.new }
    ensures left { LeavesMark ram.old ram.new }
{
    let z = ram.status_register(StatusRegister::Z);
    let y = ram.status_register(StatusRegister::Y);
    let x = ram.status_register(StatusRegister::X);
    ram.set_status_register(StatusRegister::T, z);
    ram.set_status_register(StatusRegister::Z, y);
    ram.set_status_register(StatusRegister::Y, x);
}

/// Writes `register`, the content of a register, to each of X, Y, Z and T.
pub fn clear_stack<const REGS: usize>(ram: &mut Ram<REGS>, register: Reg)
    ensures change { Took ram.old.registers ram.new.registers register whole_stack }
    ensures mark { KeepsMark ram.old ram.new }
    ensures left { LeavesMark ram.old ram.new }
{
    ram.set_status_register(StatusRegister::T, register);
    ram.set_status_register(StatusRegister::Z, register);
    ram.set_status_register(StatusRegister::Y, register);
    ram.set_status_register(StatusRegister::X, register);
}
