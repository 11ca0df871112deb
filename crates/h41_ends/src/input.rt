//! Reads an input completely.

ghost use Rattle.std.specs.Prelude.{◌≡◌, ◌≤◌, false, IfOk, vec_len};
ghost use Rattle.h41_ends.specs.Ends.{GivesTooMany, GivesWithin, IsFront, SaysWhole, is_read_fault};
ghost use Rattle.h41_ends.specs.Ends.{most_bytes};

use crate::fault::InputFault;
use crate::source::Source;
use std::alloc::Global;

/// The greatest size of an input: 67,108,864 bytes (64 MiB).
pub const MOST_BYTES: usize = 67_108_864;

/// The size, in bytes, of the buffer into which each read of `read_whole` is made.
const BLOCK: usize = 4096;

/// The bytes that were read of an input, and whether they are all of it.
#[derive(Debug, Drop)]
pub struct ReadInput {
    /// The bytes of the input, at most the first `MOST_BYTES`.
    pub bytes: Vec<u8>,
    /// Whether `bytes` is the complete input. If not, the input has more than `MOST_BYTES` bytes.
    pub is_whole: bool,
}

/// Reads to the end of the input, or until more than `MOST_BYTES` bytes were read. The result contains the bytes, at
/// most the first `MOST_BYTES`, and says which of the two happened. The error flag of the reader must be clear.
///
/// # Errors
///
/// `ReadFault` (22) if a read fails, and `OutOfMemory` (21) if allocation failed.
pub fn read_whole<R: Source>(alloc: Global, reader: &mut R) -> Result<ReadInput, InputFault>
    requires { R.failed reader.old ≡ false }
    ensures bytes { IfOk result (λ input. IsFront (R.remaining reader.old) input.bytes.items) }
    ensures whole { IfOk result (λ input. SaysWhole (R.remaining reader.old) input.is_whole) }
    ensures bound { IfOk result (λ input. vec_len input.bytes ≤ most_bytes) }
    ensures given { IfOk result (λ input. input.is_whole ≡ false
        → GivesTooMany (R.given reader.old) (R.given reader.new)) }
    ensures within { GivesWithin (R.given reader.old) (R.given reader.new) }
    ensures mark { R.failed reader.new ≡ is_read_fault result }
{
    let mut bytes = Vec::new(alloc);
    let mut block = [0u8; BLOCK];
    loop {
        let room = MOST_BYTES - bytes.len();
        let most = BLOCK.min(room + 1);
        let count = match reader.read(&mut block[..most]) {
            Ok(count) => count,
            Err(_) => return Err(InputFault::ReadFault),
        };
        bytes.extend_from_slice(&block[..count.min(room)])?;
        if count == 0 || count > room {
            let is_whole = count == 0;
            return Ok(ReadInput { bytes, is_whole });
        }
    }
}
