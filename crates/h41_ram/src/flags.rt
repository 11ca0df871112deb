//! The numbers of the flags that the calculator itself uses, for `Ram::flag` and `Ram::set_flag`. Their meanings are those of the
//! HP-41C Owner's Handbook.

/// Flag 22, numeric data input: it is set when a number is typed.
pub const NUMBER_ENTRY: usize = 22;

/// Flag 23, ALPHA data input: it is set when a letter is typed into ALPHA.
pub const ALPHA_ENTRY: usize = 23;

/// Flag 24, range error ignore: while it is set, a result that is out of range becomes the greatest number with its
/// sign, without an error.
pub const RANGE_IGNORE: usize = 24;

/// Flag 25, error ignore: if it is set, the next error clears it, and the program continues without an error message.
pub const ERROR_IGNORE: usize = 25;

/// Flag 26, audio enable: while it is set, the calculator sounds its tones.
pub const AUDIO_ENABLE: usize = 26;

/// Flag 28, decimal point: the radix mark is the point if it is set, otherwise the comma.
pub const DECIMAL_POINT: usize = 28;

/// Flag 29, digit grouping: while it is set, the digits before the radix mark are separated into groups of three.
pub const DIGIT_GROUPING: usize = 29;

/// Flag 36: the bit of weight 8 of the number of display digits, which is the operand of the last FIX, SCI or ENG.
pub const DIGITS_8: usize = 36;

/// Flag 37: the bit of weight 4 of the number of display digits, the operand of the last FIX, SCI or ENG.
pub const DIGITS_4: usize = 37;

/// Flag 38: the bit of weight 2 of the number of display digits, the operand of the last FIX, SCI or ENG.
pub const DIGITS_2: usize = 38;

/// Flag 39: the bit of weight 1 of the number of display digits, the operand of the last FIX, SCI or ENG.
pub const DIGITS_1: usize = 39;

/// Flag 40: if it is set, numbers are shown in FIX. If neither this flag nor flag 41 is set, they are shown in SCI.
pub const FIXED: usize = 40;

/// Flag 41: if it is set, numbers are shown in ENG.
pub const ENGINEERING: usize = 41;

/// Flag 42: if it is set, angles are in grads. If neither this flag nor flag 43 is set, they are in degrees.
pub const GRADS: usize = 42;

/// Flag 43: if it is set, angles are in radians.
pub const RADIANS: usize = 43;

/// Flag 48, ALPHA mode: while it is set, ALPHA is shown, and keys type letters.
pub const ALPHA_MODE: usize = 48;
