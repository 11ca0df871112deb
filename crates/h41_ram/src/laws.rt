//! Laws of the memory of the HP-41. Each law is the contract of a function with an empty body.

ghost use Rattle.std.specs.Prelude.{◌≡◌};
ghost use Rattle.h41_ram.specs.MarkLaws.{MarkIsKeptInTurn, MarkStays};
ghost use Rattle.h41_ram.specs.NamedFlags as named;
ghost use Rattle.h41_ram.specs.RegisterMapLaws.{ReadsWhatWasWritten, KeepsOtherAddresses};
ghost use Rattle.h41_ram.specs.RegisterMapLaws.{FlagIsRead, OtherFlagsStay, AlphaIsRead};
ghost use Rattle.h41_ram.specs.RegisterMapLaws.{AlphaKeepsOthers, AlphaKeepsLeftOfP, StatusIsRead};
ghost use Rattle.h41_ram.specs.RegisterMapLaws.{OtherStatusStays, DataIsRead, OtherDataStay};
ghost use Rattle.h41_ram.specs.RegisterMapLaws.{DataKeepSound, StartIsSound};

use crate::flags::{
    ALPHA_ENTRY, ALPHA_MODE, AUDIO_ENABLE, DECIMAL_POINT, DIGIT_GROUPING, DIGITS_1, DIGITS_2,
    DIGITS_4, DIGITS_8, ENGINEERING, ERROR_IGNORE, FIXED, GRADS, NUMBER_ENTRY, RADIANS,
    RANGE_IGNORE,
};

/// States that reading a register of memory returns what was last written to its address, if the address exists.
pub fn read_after_write()
    ensures { ReadsWhatWasWritten }
{}

/// States that writing a register of memory changes no register at another address.
pub fn write_keeps_other_addresses()
    ensures { KeepsOtherAddresses }
{}

/// States that a flag, 0 to 55, is read as it was last set or cleared.
pub fn flag_is_read()
    ensures { FlagIsRead }
{}

/// States that setting or clearing a flag, 0 to 55, changes no other flag.
pub fn other_flags_stay()
    ensures { OtherFlagsStay }
{}

/// States that each constant of the module `flags` has the number that the specification of memory gives the flag with
/// this name.
pub fn names_of_flags_agree()
    ensures number_entry { NUMBER_ENTRY ≡ named.number_entry }
    ensures alpha_entry { ALPHA_ENTRY ≡ named.alpha_entry }
    ensures range_ignore { RANGE_IGNORE ≡ named.range_ignore }
    ensures error_ignore { ERROR_IGNORE ≡ named.error_ignore }
    ensures audio_enable { AUDIO_ENABLE ≡ named.audio_enable }
    ensures decimal_point { DECIMAL_POINT ≡ named.decimal_point }
    ensures digit_grouping { DIGIT_GROUPING ≡ named.digit_grouping }
    ensures digits_8 { DIGITS_8 ≡ named.digits_8 }
    ensures digits_4 { DIGITS_4 ≡ named.digits_4 }
    ensures digits_2 { DIGITS_2 ≡ named.digits_2 }
    ensures digits_1 { DIGITS_1 ≡ named.digits_1 }
    ensures fixed { FIXED ≡ named.fixed }
    ensures engineering { ENGINEERING ≡ named.engineering }
    ensures grads { GRADS ≡ named.grads }
    ensures radians { RADIANS ≡ named.radians }
    ensures alpha_mode { ALPHA_MODE ≡ named.alpha_mode }
{}

/// States that the 24 bytes of ALPHA are read as they were last written.
pub fn alpha_is_read()
    ensures { AlphaIsRead }
{}

/// States that writing the 24 bytes of ALPHA changes no register other than M, N, O and P, and not the left four bytes
/// of P.
pub fn all_but_alpha_stays()
    ensures others { AlphaKeepsOthers }
    ensures left { AlphaKeepsLeftOfP }
{}

/// States that a status register is read by its name (X or LAST X, for example) as it was written by its name, and that
/// the write changes no other status register.
pub fn status_is_read()
    ensures read { StatusIsRead }
    ensures others { OtherStatusStays }
{}

/// States that in sound memory (`Ram::is_sound`) a data register is read by its number as it was written by its number,
/// that the write changes no other data register, and that memory remains sound.
pub fn data_are_read()
    ensures read { DataIsRead }
    ensures others { OtherDataStay }
    ensures sound { DataKeepSound }
{}

/// States that the initial state of memory (`Ram::new`) is sound for every size of main memory, 64 to 320 registers.
pub fn start_is_sound()
    ensures { StartIsSound }
{}

/// States that an operation which writes nothing keeps the promise about the dirty flag (`Ram::program_touched`): it is
/// set if a register of the program changes, and only `clear_touched` clears it. Two calls in turn keep the promise if
/// each does.
pub fn mark_is_kept()
    ensures stays { MarkStays }
    ensures turn { MarkIsKeptInTurn }
{}
