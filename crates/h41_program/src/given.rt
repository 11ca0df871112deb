//! The program lines in bytes that a caller gives, for example those of a file.
ghost use Rattle.std.specs.Prelude.{◌≡◌, ◌≢◌, ℕ, ◌<◌, ◌≤◌, length, slice_index, IfSome, IfNone};
ghost use Rattle.std.specs.Prelude.{◌==◌};
ghost use Rattle.std.specs.List.{list_all};
ghost use Rattle.h41_program.specs.GivenLines.{BytesHaveFirst, BytesHaveNone};

use h41_codes::laws::byte_round_trip;
use h41_codes::{Line, decode};

/// A program line that was read from bytes outside program memory, and where it is in them.
#[derive(Clone, Copy, Debug, PartialEq, Eq)]
pub struct Taken {
    /// The index of the line's first byte in the given bytes.
    pub position: usize,
    /// The decoded line, which is not a null.
    pub line: Line,
    /// The index in the given bytes of the byte after the line.
    pub behind: usize,
}

/// Returns the index of the first byte, from index `at` on, that is not null, or the number of bytes if there is none.
fn nulls_end(bytes: &[u8], at: usize) -> usize
    requires { at ≤ length bytes.now }
    ensures from { at ≤ result }
    ensures to { result ≤ length bytes.now }
    ensures nulls { (k : ℕ) → at ≤ k → k < result → slice_index bytes.now k ≡ 0 }
    ensures stop { result < length bytes.now → slice_index bytes.now result ≢ 0 }
{
    for position in at..bytes.len() {
        if bytes[position] != 0 {
            return position;
        }
    }
    bytes.len()
}

/// Returns the first program line in bytes from index `at` on, after any nulls. `None` if the bytes after the nulls are
/// no line, or if only nulls follow.
pub fn line_in(bytes: &[u8], at: usize) -> Option<Taken>
    ensures first { IfSome result (λ taken. BytesHaveFirst bytes.now at taken) }
    ensures none { IfNone result (BytesHaveNone bytes.now at) }
{
    byte_round_trip();
    if at > bytes.len() {
        return None;
    }
    let position = nulls_end(bytes, at);
    match decode(&bytes[position..]) {
        Ok((line, count)) => Some(Taken {
            position,
            line,
            behind: position + count,
        }),
        Err(_) => None,
    }
}

/// Returns whether all given bytes are nulls (00), which is also true if there are none.
pub fn are_nulls(bytes: &[u8]) -> bool
    ensures { result ≡ list_all (λ byte. byte == 0) bytes.now }
{
    bytes.iter().all(|byte| *byte == 0)
}
