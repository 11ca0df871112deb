//! The encoder: writes the bytes of a program line.
ghost use Rattle.std.specs.Prelude.{◌≡◌, ◌+◌, ◌*◌, ◌<◌, ◌≤◌, ◌↔◌, [], ◌∷◌, ◌++◌, map, length, drop};
ghost use Rattle.std.specs.Prelude.{IfOk, OnOk, OnErr, IsErr};
ghost use Rattle.arrayvec.specs.ArrayVec.{array_vec_len};
ghost use Rattle.h41_codes.specs.ByteGrammar.{spelling, text_bytes, link_high, link_low};
ghost use Rattle.h41_codes.specs.ByteGrammar.{written_over};
ghost use Rattle.h41_codes.specs.ByteGrammar as grammar;
ghost use Rattle.h41_codes.specs.Codes as code;
ghost use Rattle.h41_codes.specs.declared.line.Line.TheVariants as line;
ghost use Rattle.h41_codes.specs.Counts.{link_count};

use crate::characters::Character;
use crate::faults::BufferShort;
use crate::functions::Branch;
use crate::line::{Line, Operand};
use crate::numbers::{Distance, EntryNumber, ModuleNumber, Parameter};
use crate::table::{
    branch_code, character_code, function_code, name_function_code, parameter_function_code,
    register_function_code,
};
use arrayvec::ArrayVec;

/// The greatest number of bytes of a program line: 18, for a label with a name of 14 characters.
pub const LINE_CAPACITY: usize = 18;

/// A list of the bytes of a program line, at most 18.
type Bytes = ArrayVec<u8, LINE_CAPACITY>;

/// Writes the bytes of a program line at the start of a slice, and returns the number of bytes, 1 to 18. The rest of
/// the slice is unchanged. BufferShort (40) if the line does not fit; the slice is then unchanged.
pub fn encode(line: Line, out: &mut [u8]) -> Result<usize, BufferShort>
    ensures length { IfOk result (λ count. count ≡ length (spelling line)) }
    ensures written { OnOk result (out.new ≡ written_over line out.old) }
    ensures short { IsErr result ↔ (length out.old < length (spelling line)) }
    ensures unchanged { OnErr result (out.new ≡ out.old) }
{
    let bytes = bytes_of(line);
    let count = bytes.len();
    if count > out.len() {
        return Err(BufferShort);
    }
    out[..count].copy_from_slice(bytes.as_slice());
    Ok(count)
}

/// Returns the bytes that spell a program line, 1 to 18.
fn bytes_of(line: Line) -> Bytes
    ensures { result.items ≡ spelling line }
{
    match line {
        Line::Null => one(0x00),
        Line::LocalLabel(label) => one(0x01 + label.number()),
        Line::Number(number) => number_bytes(number.characters()),
        Line::Named(function, name) => with_text(
            one(name_function_code(function)),
            name.characters(),
        ),
        Line::Register(function, register) => one(
            register_function_code(function) + register.number(),
        ),
        Line::Plain(function) => one(function_code(function)),
        Line::WithOperand(function, operand) => two(
            parameter_function_code(function),
            operand_byte(operand),
        ),
        Line::Module(number, entry) => module_bytes(number, entry),
        Line::BranchIndirect(branch, register) => two(0xAE, indirect_byte(branch, register)),
        Line::ShortGoTo(label, distance) => two(0xB1 + label.number(), distance),
        Line::GlobalLabel(link, key, name) => {
            global_label_bytes(link.number(), key, name.characters())
        }
        Line::End(link, marks) => link_bytes(link.number(), mark_bits(marks.number())),
        Line::FinalEnd(link, marks) => link_bytes(link.number(), 0x20 + mark_bits(marks.number())),
        Line::BranchTo(branch, distance, backwards, label) => {
            branch_bytes(branch, distance, backwards, label)
        }
        Line::Text(text) => with_text(ArrayVec::new(), text.characters()),
    }
}

/// Returns the two bytes that spell an `XROM` line.
fn module_bytes(number: ModuleNumber, entry: EntryNumber) -> Bytes
    ensures { result.items ≡ spelling (line.Module number entry) }
{
    let bits = number.number();
    two(0xA0 + bits / 4, bits % 4 * 64 + entry.number())
}

/// Returns the three bytes that spell a `GTO` or `XEQ` line with a distance, a direction and a local label.
fn branch_bytes(branch: Branch, distance: Distance, backwards: bool, label: Parameter) -> Bytes
    ensures { result.items ≡ spelling (line.BranchTo branch distance backwards label) }
{
    let bits = distance.number();
    let number = label.number();
    let last = if backwards { 0x80 + number } else { number };
    three(
        branch_code(branch) + (bits / 256) as u8,
        (bits % 256) as u8,
        last,
    )
}

/// Returns the list that contains one given byte.
fn one(byte: u8) -> Bytes
    ensures { result.items ≡ byte ∷ [] }
{
    let mut bytes = Bytes::new();
    bytes.push(byte);
    bytes
}

/// Returns the list that contains two given bytes.
fn two(first: u8, second: u8) -> Bytes
    ensures { result.items ≡ first ∷ second ∷ [] }
{
    let mut bytes = one(first);
    bytes.push(second);
    bytes
}

/// Returns the list that contains three given bytes.
fn three(first: u8, second: u8, third: u8) -> Bytes
    ensures { result.items ≡ first ∷ second ∷ third ∷ [] }
{
    let mut bytes = two(first, second);
    bytes.push(third);
    bytes
}

/// Returns `front` with the bytes of a text of at most 15 characters appended: F0 (hexadecimal) plus the number of
/// characters, then the characters. `front` has at most one byte.
fn with_text(mut front: Bytes, text: &[u8]) -> Bytes
    requires front { length front.items ≤ 1 }
    requires text { length text.now ≤ 15 }
    ensures { result.items ≡ front.items ++ text_bytes text.now }
{
    front.push(0xF0 + text.len() as u8);
    with_all(front, text)
}

/// Returns `front` with the bytes of `more` appended. They are at most 18 bytes together.
fn with_all(mut front: Bytes, more: &[u8]) -> Bytes
    requires { length front.items + length more.now ≤ 18 }
    ensures { result.items ≡ front.items ++ more.now }
{
    for byte in more {
        front.push(*byte);
    }
    front
}

/// Returns the bytes that spell a number entry of at most 16 characters, one byte a character.
fn number_bytes(characters: &[Character]) -> Bytes
    requires { length characters.now ≤ 16 }
    ensures { result.items ≡ map code.character_code characters.now }
{
    let mut bytes = Bytes::new();
    for character in characters {
        bytes.push(character_code(*character));
    }
    bytes
}

/// Returns the bytes that spell a global label with a name of at most 14 characters: the link, the length of the name,
/// the assigned key and the name.
fn global_label_bytes(link: u16, key: u8, name: &[u8]) -> Bytes
    requires link { link < link_count }
    requires name { length name.now ≤ 14 }
    ensures { result.items ≡ spelling (line.GlobalLabel link key name.now) }
{
    let mut front = link_bytes(link, 0xF1 + name.len() as u8);
    front.push(key);
    with_all(front, name)
}

/// Returns the two bytes that spell a link, 0 to 3583, followed by the byte `last`.
fn link_bytes(link: u16, last: u8) -> Bytes
    requires { link < link_count }
    ensures { result.items ≡ link_high link ∷ link_low link ∷ last ∷ [] }
{
    three(0xC0 + (link / 256) as u8, (link % 256) as u8, last)
}

/// Returns the byte that encodes an operand: the parameter, with bit 7 set if it is indirect.
fn operand_byte(operand: Operand) -> u8
    ensures { result ≡ grammar.operand_byte operand }
{
    match operand {
        Operand::Direct(parameter) => parameter.number(),
        Operand::Indirect(parameter) => 0x80 + parameter.number(),
    }
}

/// Returns the second byte of a `GTO IND` or `XEQ IND` line: the register, with bit 7 set for `XEQ IND`.
fn indirect_byte(branch: Branch, register: Parameter) -> u8
    ensures { result ≡ grammar.indirect_byte branch register }
{
    match branch {
        Branch::GoTo => register.number(),
        Branch::Execute => 0x80 + register.number(),
    }
}

/// Returns the bits that encode the status bits of an `END`, 0 to 127, in its last byte: bits 7, 6 and 4 to 0.
fn mark_bits(marks: u8) -> u8
    requires { marks < 128 }
    ensures value { result ≡ grammar.mark_bits marks }
{
    marks / 32 * 64 + marks % 32
}
