//! The addresses of the stack registers that program lines use without naming them.

use h41_ram::StatusRegister;

/// The address of stack register Y, 002.
pub const Y: u16 = StatusRegister::Y as u16;

/// The address of stack register X, 003.
pub const X: u16 = StatusRegister::X as u16;

/// The address of LAST X, 004.
pub const LAST_X: u16 = StatusRegister::L as u16;
