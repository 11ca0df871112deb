//! Reading the line at a position of program memory. A position is the number of a byte, counted from 0; byte 0 is the
//! first one below the curtain.
ghost use Rattle.std.specs.Prelude.{◌≡◌, ◌≢◌, ℕ, ◌+◌, ◌-◌, ◌/◌, ◌%◌, ◌<◌, ◌≤◌, map, slice_index};
ghost use Rattle.std.specs.Prelude.{min, IsSome};
ghost use Rattle.std.specs.Prelude.{IsTrue, IfSome, IfNone};
ghost use Rattle.std.specs.List.{range_with_len};
ghost use Rattle.h41_digits.specs.Register.{number_byte};
ghost use Rattle.h41_ram.specs.RegisterMap.{is_sound};
ghost use Rattle.h41_program.specs.private.ByteReading.{ReadsAt};
ghost use Rattle.h41_program.specs.ProgramBytes.{byte_count, final_position, program_byte};
ghost use Rattle.h41_program.specs.ProgramBytes as spec;
ghost use Rattle.h41_program.specs.ProgramLines.{HasFirst, HasNoLine};
ghost use Rattle.h41_program.specs.ProgramLines.{HasPlace, PositionFrom};
ghost use Rattle.h41_program.specs.ShortLines.{HasNoShort, HasShort};
ghost use Rattle.h41_program.specs.private.Reading.{bytes_seen, register_holding, BeginsAt, Fits};
ghost use Rattle.h41_program.specs.private.Reading.{BeginsNothing, BeginsSized, HoldsBytes};
ghost use Rattle.h41_codes.specs.Heads.{IsIn};

use crate::listed_line::ListedLine;
use arrayvec::ArrayVec;
use h41_codes::laws::{byte_round_trip, first_bytes, line_or_none};
use h41_codes::{
    Head, Line, ShortLine, decode, head_of, one_byte_line, short_line as short_line_of, short_size,
    two_byte_line,
};
use h41_digits::{Reg, eight_bytes, number_byte};
use h41_ram::{MAIN_START, Ram};

/// The number of bytes in a register, 7.
pub const REGISTER_BYTES: u16 = 7;

/// The number of bytes of `.END.`, which is in the last three bytes of program memory.
const END_BYTES: u16 = 3;

/// The most bytes, 16, of a line that is a number.
const NUMBER_MOST: u16 = 16;

/// The most bytes of a program line. A label with a name of 14 characters has 18 bytes.
const LINE_MOST: u16 = 18;

/// The bytes of program memory from which one line is read, at most 18.
type Window = ArrayVec<u8, 18>;

/// A line of program memory that was found, and the position of the byte after it. Reading the list of lines continues
/// there, so that each line is decoded only once.
#[derive(Clone, Copy, Debug, PartialEq, Eq)]
pub struct Found {
    /// The line and the position of its first byte.
    pub listed: ListedLine,
    /// The position of the byte after the line, at most the number of bytes of program memory (2240 or fewer).
    pub behind: u16,
}

/// The positions of the first byte of a program line and of the byte after it, and whether the line is END or `.END.`.
/// It is enough for a search that does not need to decode the line.
#[derive(Clone, Copy)]
pub struct LinePlace {
    /// The position of the line's first byte, counted from 0.
    pub position: u16,
    /// The position of the byte after the line, counted from 0.
    pub behind: u16,
    /// Whether the line is `END`. It is false for `.END.`.
    pub ends_program: bool,
    /// Whether the line is `.END.`.
    pub ends_memory: bool,
}

/// A reader of successive bytes of program memory, which reads each register of seven bytes only once.
#[derive(Clone, Copy, Debug, PartialEq, Eq)]
pub struct ByteReader {
    /// The register that contains the next byte to be read, unless `left` is 0.
    pub register: Reg,
    /// How many bytes of `register` are still to be read, 0 to 7.
    pub left: u16,
}

/// Returns the position of `.END.`, which is in the last three bytes of program memory: the number of bytes before it, at most 2237. The
/// list of lines ends there, or earlier at another `.END.` or at bytes that are no line. Memory must be sound.
#[inline(always)]
pub fn final_position<const REGS: usize>(ram: &Ram<REGS>) -> u16
    requires { IsTrue (is_sound ram.now.registers) }
    ensures value { result ≡ spec.final_position ram.now.registers }
    ensures count { result + 3 ≡ byte_count ram.now.registers }
    ensures bound { result ≤ 2237 }
{
    (ram.curtain() - ram.end_register()) * REGISTER_BYTES - END_BYTES
}

/// Returns the number of whole registers of program memory before the byte at a position: the position divided by
/// seven, rounded down. It multiplies, because that is faster than a division.
#[inline(always)]
fn registers_before(position: u16) -> u16
    ensures { result ≡ position / 7 }
{
    (u64::from(position) * 74_899 / 0x8_0000) as u16
}

/// Returns how many bytes of the register that contains the byte at a position precede that byte, 0 to 6.
#[inline(always)]
fn bytes_before(position: u16) -> u16
    ensures { result ≡ position % 7 }
{
    position - REGISTER_BYTES * registers_before(position)
}

/// Returns the register that contains the byte at a position of program memory, which is at most the number of its
/// bytes. At the end of program memory, the result is the register below the last one.
#[inline(always)]
fn register_holding<const REGS: usize>(ram: &Ram<REGS>, position: u16) -> Reg
    requires count { position ≤ byte_count ram.now.registers }
    requires sound { IsTrue (is_sound ram.now.registers) }
    ensures { result ≡ register_holding ram.now.registers position }
{
    ram.read(ram.curtain() - 1 - registers_before(position))
}

impl ByteReader {
    /// Returns a reader whose next byte is the one at a position, which is at most the number of bytes of program
    /// memory. Memory must be sound.
    #[inline(always)]
    pub fn at<const REGS: usize>(ram: &Ram<REGS>, position: u16) -> Self
        requires count { position ≤ byte_count ram.now.registers }
        requires sound { IsTrue (is_sound ram.now.registers) }
        ensures { ReadsAt ram.now.registers position result }
    {
        ByteReader {
            register: register_holding(ram, position),
            left: REGISTER_BYTES - bytes_before(position),
        }
    }

    /// Returns the byte at a position, which must be the reader's next byte, and moves the reader to the byte after it. Memory must be
    /// sound.
    #[inline(always)]
    pub fn read<const REGS: usize>(&mut self, ram: &Ram<REGS>, position: u16) -> u8
        requires count { position < byte_count ram.now.registers }
        requires sound { IsTrue (is_sound ram.now.registers) }
        requires stands { ReadsAt ram.now.registers position self.old }
        ensures byte { result ≡ program_byte ram.now.registers position }
        ensures onward { ReadsAt ram.now.registers (position + 1) self.new }
    {
        if self.left == 0 {
            self.register = register_holding(ram, position);
            self.left = REGISTER_BYTES;
        }
        self.left -= 1;
        self.register.byte(usize::from(self.left))
    }
}

/// Returns the byte at a position of program memory, counted from 0. The position must be before the end of program
/// memory.
#[inline(always)]
pub fn byte_at<const REGS: usize>(ram: &Ram<REGS>, position: u16) -> u8
    requires { position < byte_count ram.now.registers }
    ensures { result ≡ program_byte ram.now.registers position }
{
    let register = ram.read(ram.curtain() - 1 - registers_before(position));
    register.byte(usize::from(6 - bytes_before(position)))
}

/// Returns the eight bytes of program memory from a position on as one number, with the first one as the highest byte.
/// Bytes after the end of program memory can have any value.
#[inline(always)]
fn bytes_from<const REGS: usize>(ram: &Ram<REGS>, at: u16) -> u64
    requires inside { at < byte_count ram.now.registers }
    requires sound { IsTrue (is_sound ram.now.registers) }
    ensures { HoldsBytes ram.now.registers at result }
{
    let address = ram.curtain() - 1 - registers_before(at);
    let skipped = usize::from(bytes_before(at));
    let below = (address - 1).max(MAIN_START as u16);
    eight_bytes(ram.read_main(address), ram.read_main(below), skipped)
}

/// Returns how many of the eight bytes of a number, which is not 0, are nulls before the first byte that is none,
/// counted from the highest byte.
#[inline(always)]
fn leading_nulls(bytes: u64) -> u16
    requires { 0 < bytes }
    ensures few { result < 8 }
    ensures nulls { (k : ℕ) → k < result → number_byte bytes (7 - k) ≡ 0 }
    ensures stop { number_byte bytes (7 - result) ≢ 0 }
{
    (bytes.leading_zeros() / 8) as u16
}

/// Returns the first position, from `at` on, of a byte of program memory that is not null, and this byte. The position
/// is at most `last`, that of `.END.` in the last three bytes.
#[inline(always)]
fn past_nulls<const REGS: usize>(ram: &Ram<REGS>, at: u16, last: u16) -> (u16, u8)
    requires from { at ≤ last }
    requires last { last ≡ spec.final_position ram.now.registers }
    requires count { last + 3 ≡ byte_count ram.now.registers }
    requires sound { IsTrue (is_sound ram.now.registers) }
    ensures from { at ≤ result.0 }
    ensures to { result.0 ≤ last }
    ensures nulls { (k : ℕ) → at ≤ k → k < result.0 → program_byte ram.now.registers k ≡ 0 }
    ensures stop { program_byte ram.now.registers result.0 ≢ 0 }
    ensures byte { result.1 ≡ program_byte ram.now.registers result.0 }
{
    let mut position = at;
    loop {
        let bytes = bytes_from(ram, position);
        if bytes != 0 {
            let nulls = leading_nulls(bytes);
            return (position + nulls, number_byte(bytes, usize::from(7 - nulls)));
        }
        position += 8;
    }
}

/// Returns the bytes of program memory from the position `at` up to, but not including, `limit`, at most the first 18
/// of them.
#[inline(always)]
fn window<const REGS: usize>(ram: &Ram<REGS>, at: u16, limit: u16) -> Window
    requires from { at ≤ limit }
    requires limit { limit ≤ byte_count ram.now.registers }
    requires bound { limit < 65000 }
    requires sound { IsTrue (is_sound ram.now.registers) }
    ensures { result.items ≡ bytes_seen ram.now.registers at limit }
{
    let mut window = Window::new();
    let mut reader = ByteReader::at(ram, at);
    for position in at..limit.min(at + LINE_MOST) {
        window.push(reader.read(ram, position));
    }
    window
}

/// Returns where a line of `size` bytes at the position `at` begins and ends, as a line that is neither END nor
/// `.END.`. `None` if it would not end at or before the position `limit`.
#[inline(always)]
fn fitting<const REGS: usize>(ram: &Ram<REGS>, at: u16, limit: u16, size: u16) -> Option<LinePlace>
    requires from { at < limit }
    requires limit { limit ≤ byte_count ram.now.registers }
    requires bound { limit < 65000 }
    ensures some { IfSome result (λ place. Fits ram.now.registers at limit size place) }
    ensures none { IfNone result (limit < at + size) }
{
    if size > limit - at {
        return None;
    }
    // These reads are only for the proof, which needs the fact that each byte is below 256. No tactic finds it, because the value of a
    // memory is lists of numbers, and only a register that is read is known to have digits.
    for position in at..at + size {
        let _byte = byte_at(ram, position);
    }
    Some(LinePlace {
        position: at,
        behind: at + size,
        ends_program: false,
        ends_memory: false,
    })
}

/// Returns where the line at the position `at` begins and ends, and whether it is END or `.END.`. Its first byte is
/// `byte`, and it must end before the position `limit`. The first bytes determine how many it has. `None` if the bytes
/// are no line.
#[inline(always)]
fn place_at<const REGS: usize>(ram: &Ram<REGS>, at: u16, byte: u8, limit: u16) -> Option<LinePlace>
    requires from { at < limit }
    requires limit { limit ≤ byte_count ram.now.registers }
    requires bound { limit < 65000 }
    requires byte { byte ≡ program_byte ram.now.registers at }
    ensures some { IfSome result (λ place. BeginsAt ram.now.registers at limit place) }
    ensures none { IfNone result (BeginsNothing ram.now.registers at limit) }
{
    first_bytes();
    match head_of(byte) {
        Head::OneByte => Some(LinePlace {
            position: at,
            behind: at + 1,
            ends_program: false,
            ends_memory: false,
        }),
        Head::Number => fitting(ram, at, limit, number_size(ram, at, limit)),
        Head::Named => named_at(ram, at, limit),
        Head::TwoBytes => fitting(ram, at, limit, 2),
        Head::Linked => linked_at(ram, at, limit),
        Head::ThreeBytes => fitting(ram, at, limit, 3),
        Head::Text => fitting(ram, at, limit, u16::from(byte - 0xF0) + 1),
        Head::Nothing => None,
    }
}

/// Returns where `.END.` begins and ends, given its position `last`. Sound memory has it in the last three bytes of
/// program memory.
#[inline(always)]
fn final_place<const REGS: usize>(ram: &Ram<REGS>, last: u16) -> LinePlace
    requires last { last ≡ spec.final_position ram.now.registers }
    requires bound { last ≤ 2237 }
    requires sound { IsTrue (is_sound ram.now.registers) }
    ensures { BeginsAt ram.now.registers last (last + 3) result }
{
    // This read is only for the proof, which needs the fact that the digits of the register are below 16.
    let _digits = ram.read(ram.end_register()).to_u64();
    LinePlace {
        position: last,
        behind: last + END_BYTES,
        ends_program: false,
        ends_memory: true,
    }
}

/// Returns how many bytes, at most 16, the number line at the position `at` has. It ends before the first byte after
/// `at` that is not a character of a number entry (10 to 1C), or at the position `limit`.
fn number_size<const REGS: usize>(ram: &Ram<REGS>, at: u16, limit: u16) -> u16
    requires from { at < limit }
    requires limit { limit ≤ byte_count ram.now.registers }
    requires bound { limit < 65000 }
    requires first { IsIn 0x10 0x1D (program_byte ram.now.registers at) }
    ensures line { BeginsSized ram.now.registers at limit result }
    ensures inside { at + result ≤ limit }
{
    let most = limit.min(at + NUMBER_MOST);
    for position in at + 1..most {
        let byte = byte_at(ram, position);
        match head_of(byte) {
            Head::Number => {}
            _ => return position - at,
        }
    }
    most - at
}

/// Returns where the `GTO`, `XEQ` or `W` with a name at the position `at` begins and ends. `None` if the first byte is
/// not followed by a complete text before the position `limit`.
fn named_at<const REGS: usize>(ram: &Ram<REGS>, at: u16, limit: u16) -> Option<LinePlace>
    requires from { at < limit }
    requires limit { limit ≤ byte_count ram.now.registers }
    requires bound { limit < 65000 }
    requires first { IsIn 0x1D 0x20 (program_byte ram.now.registers at) }
    ensures some { IfSome result (λ place. BeginsAt ram.now.registers at limit place) }
    ensures none { IfNone result (BeginsNothing ram.now.registers at limit) }
{
    if limit - at < 2 {
        return None;
    }
    let text = byte_at(ram, at + 1);
    if text < 0xF0 {
        return None;
    }
    fitting(ram, at, limit, u16::from(text - 0xF0) + 2)
}

/// Returns where the global label, `END` or `.END.` at the position `at` begins and ends; its third byte distinguishes
/// them. `None` if it is not complete before the position `limit`, or if the third byte is F0, which begins no line.
fn linked_at<const REGS: usize>(ram: &Ram<REGS>, at: u16, limit: u16) -> Option<LinePlace>
    requires from { at < limit }
    requires limit { limit ≤ byte_count ram.now.registers }
    requires bound { limit < 65000 }
    requires first { IsIn 0xC0 0xCE (program_byte ram.now.registers at) }
    ensures some { IfSome result (λ place. BeginsAt ram.now.registers at limit place) }
    ensures none { IfNone result (BeginsNothing ram.now.registers at limit) }
{
    if limit - at < END_BYTES {
        return None;
    }
    // These reads are only for the proof, which needs the fact that both bytes are below 256.
    let _first = byte_at(ram, at);
    let _second = byte_at(ram, at + 1);
    let third = byte_at(ram, at + 2);
    if third == 0xF0 {
        return None;
    }
    if third > 0xF0 {
        return fitting(ram, at, limit, u16::from(third - 0xF0) + END_BYTES);
    }
    if third / 32 % 2 == 0 {
        return Some(LinePlace {
            position: at,
            behind: at + END_BYTES,
            ends_program: true,
            ends_memory: false,
        });
    }
    Some(LinePlace {
        position: at,
        behind: at + END_BYTES,
        ends_program: false,
        ends_memory: true,
    })
}

/// Returns where the first line from a position on, after any nulls, begins and ends, and whether it is END or `.END.`,
/// without decoding it. `None` if there is no line. `.END.` is only found from its first byte or before. Memory must be
/// sound.
#[inline(always)]
pub fn place_from<const REGS: usize>(ram: &Ram<REGS>, at: u16) -> Option<LinePlace>
    requires { IsTrue (is_sound ram.now.registers) }
    ensures place { IfSome result (λ place. HasPlace ram.now.registers at place) }
    ensures none { IfNone result (HasNoLine ram.now.registers at) }
    ensures inside { IfSome result (λ place. place.position ≤ 2237) }
    ensures behind { IfSome result (λ place. place.behind ≤ 2240) }
{
    byte_round_trip();
    let last = final_position(ram);
    if at > last {
        return None;
    }
    let (position, byte) = past_nulls(ram, at, last);
    if position == last {
        return Some(final_place(ram, last));
    }
    place_at(ram, position, byte, last)
}

/// Returns the first line from a position on, after any nulls, and the position of the byte after it. `None` if no line
/// follows. The list of lines continues at that byte, except after `.END.`, its last line. A line of one or two bytes
/// at the position itself is decoded without a copy of its bytes. Memory must be sound.
#[inline(always)]
pub fn first_from<const REGS: usize>(ram: &Ram<REGS>, at: u16) -> Option<Found>
    requires { IsTrue (is_sound ram.now.registers) }
    ensures first { IfSome result (λ found. HasFirst ram.now.registers at found) }
    ensures none { IfNone result (HasNoLine ram.now.registers at) }
    ensures inside { IfSome result (λ found. found.listed.position ≤ 2237) }
    ensures behind { IfSome result (λ found. found.behind ≤ 2240) }
{
    byte_round_trip();
    first_bytes();
    let last = final_position(ram);
    if at < last {
        let byte = byte_at(ram, at);
        if byte != 0 {
            if let Some(line) = one_byte_line(byte) {
                return Some(Found {
                    listed: ListedLine { position: at, line },
                    behind: at + 1,
                });
            }
            if at + 1 < last {
                if let Some(line) = two_byte_line(byte, byte_at(ram, at + 1)) {
                    return Some(Found {
                        listed: ListedLine { position: at, line },
                        behind: at + 2,
                    });
                }
            }
        }
    }
    first_decoded(ram, at)
}

/// Returns the first line from a position on, after any nulls, and the position of the byte after it. The line is
/// decoded from a copy of its bytes. `None` if no line follows.
#[inline(never)]
fn first_decoded<const REGS: usize>(ram: &Ram<REGS>, at: u16) -> Option<Found>
    requires { IsTrue (is_sound ram.now.registers) }
    ensures first { IfSome result (λ found. HasFirst ram.now.registers at found) }
    ensures none { IfNone result (HasNoLine ram.now.registers at) }
    ensures inside { IfSome result (λ found. found.listed.position ≤ 2237) }
    ensures behind { IfSome result (λ found. found.behind ≤ 2240) }
{
    match place_from(ram, at) {
        Some(place) => {
            let LinePlace {
                position,
                behind,
                ..
            } = place;
            match decode(window(ram, position, behind).as_slice()) {
                Ok((line, _count)) => Some(Found {
                    listed: ListedLine { position, line },
                    behind,
                }),
                Err(_) => None,
            }
        }
        None => None,
    }
}

/// Returns the position of the first line from the position `at` on, or `at` if no line follows. Memory must be sound.
#[inline(always)]
pub fn position_from<const REGS: usize>(ram: &Ram<REGS>, at: u16) -> u16
    requires { IsTrue (is_sound ram.now.registers) }
    ensures { PositionFrom ram.now.registers at result }
{
    byte_round_trip();
    line_or_none();
    if at >= final_position(ram) {
        return at;
    }
    position_by(ram, at, byte_at(ram, at))
}

/// Returns the position of the first line from the position `at` on, or `at` if no line follows. `byte` is the byte at
/// `at`. If it is not null, the result is `at`, because only nulls can precede the first line. Memory must be sound.
#[inline(always)]
pub fn position_by<const REGS: usize>(ram: &Ram<REGS>, at: u16, byte: u8) -> u16
    requires sound { IsTrue (is_sound ram.now.registers) }
    requires inside { at < byte_count ram.now.registers }
    requires byte { byte ≡ program_byte ram.now.registers at }
    ensures { PositionFrom ram.now.registers at result }
{
    byte_round_trip();
    line_or_none();
    if byte != 0x00 {
        return at;
    }
    position_past_nulls(ram, at)
}

/// Returns the position of the first line from the position `at` on, or `at` if no line follows, after the nulls from
/// `at` on are skipped.
#[inline(never)]
fn position_past_nulls<const REGS: usize>(ram: &Ram<REGS>, at: u16) -> u16
    requires { IsTrue (is_sound ram.now.registers) }
    ensures { PositionFrom ram.now.registers at result }
{
    byte_round_trip();
    first_bytes();
    line_or_none();
    let last = final_position(ram);
    if at >= last {
        return at;
    }
    let (position, byte) = past_nulls(ram, at, last);
    if position == last {
        return final_place(ram, last).position;
    }
    match head_of(byte) {
        Head::OneByte | Head::Number => position,
        _ => match place_at(ram, position, byte, last) {
            Some(first) => first.position,
            None => at,
        },
    }
}

/// Returns the short line (a line of at most three bytes, without a text) whose first byte is at this position, before
/// `.END.`, and the position of the line after it, or of the byte just after it if no line follows. `None` for other
/// lines, nulls and bytes that are no line. Memory must be sound.
#[inline(always)]
pub fn short_line<const REGS: usize>(ram: &Ram<REGS>, at: u16) -> Option<(ShortLine, u16)>
    requires { IsTrue (is_sound ram.now.registers) }
    ensures some { IfSome result (λ found. HasShort ram.now.registers at found.0 found.1) }
    ensures none { IfNone result (HasNoShort ram.now.registers at) }
{
    byte_round_trip();
    first_bytes();
    let last = final_position(ram);
    if at >= last {
        return None;
    }
    let bytes = bytes_from(ram, at);
    let first = number_byte(bytes, 7);
    match short_size(first) {
        Some(size) => match behind_short(ram, at, last, bytes, size) {
            Some(next) => {
                let second = number_byte(bytes, 6);
                let third = number_byte(bytes, 5);
                Some((short_line_of(first, second, third), next))
            }
            None => None,
        },
        None => None,
    }
}

/// Returns the position of the line after a short line of `size` bytes, at most three, at the position `at`, or of the
/// byte just after it if no line follows. `None` if `.END.`, at the position `last`, begins inside the line. `bytes`
/// are the eight bytes from `at` on. The machine code for each size treats it as a constant.
#[inline(always)]
fn behind_short<const REGS: usize>(
    ram: &Ram<REGS>,
    at: u16,
    last: u16,
    bytes: u64,
    size: u16,
) -> Option<u16>
    requires sound { IsTrue (is_sound ram.now.registers) }
    requires count { last + 3 ≡ byte_count ram.now.registers }
    requires before { at < last }
    requires bound { last < 65000 }
    requires bytes { HoldsBytes ram.now.registers at bytes }
    requires few { size ≤ 3 }
    ensures some { IfSome result (λ next. (at + size ≤ last)
        × PositionFrom ram.now.registers (at + size) next) }
    ensures none { IfNone result (last < at + size) }
{
    match size {
        1 => behind_bytes(ram, at, last, bytes, 1),
        2 => behind_bytes(ram, at, last, bytes, 2),
        _ => behind_bytes(ram, at, last, bytes, size),
    }
}

/// Returns the position of the line after a line of `size` bytes, at most three, at the position `at`, or of the byte
/// just after it if no line follows. `None` if `.END.`, at the position `last`, begins inside the line. `bytes` are the
/// eight bytes from `at` on.
#[inline(always)]
fn behind_bytes<const REGS: usize>(
    ram: &Ram<REGS>,
    at: u16,
    last: u16,
    bytes: u64,
    size: u16,
) -> Option<u16>
    requires sound { IsTrue (is_sound ram.now.registers) }
    requires count { last + 3 ≡ byte_count ram.now.registers }
    requires before { at < last }
    requires bound { last < 65000 }
    requires bytes { HoldsBytes ram.now.registers at bytes }
    requires few { size ≤ 3 }
    ensures some { IfSome result (λ next. (at + size ≤ last)
        × PositionFrom ram.now.registers (at + size) next) }
    ensures none { IfNone result (last < at + size) }
{
    let behind = at + size;
    if behind > last {
        return None;
    }
    let byte = number_byte(bytes, 7 - usize::from(size));
    Some(position_by(ram, behind, byte))
}
