//! The addresses of microcode words that have a meaning of their own.

/// The address at which a function ends, 00F0. It is in the system's ROM, and the first return of a function jumps there.
pub const END_OF_FUNCTION: u16 = 0x00F0;
