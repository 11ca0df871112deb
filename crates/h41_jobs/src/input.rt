//! Reads an input completely, or refuses it if it is too long.

ghost use Rattle.std.specs.Prelude.{◌≡◌, ◌≢◌, ◌≤◌, true, false, Err, IfOk, IfSome, vec_len};
ghost use Rattle.h41_ends.specs.Ends.{GivesWithin, most_bytes};
ghost use Rattle.h41_jobs.specs.Inputs.{IsAllOfInput, IsUnread};

use h41_ends::{Source, read_whole};
use h41_refusals::Fault;
use std::alloc::Global;

/// Returns all bytes of an input, at most 67,108,864.
///
/// # Errors
///
/// `ReadFault` (22) if a read fails, or the input has more than 67,108,864 bytes; `OutOfMemory` (21) if
/// allocation failed.
pub fn read_input<R: Source>(alloc: Global, reader: &mut R) -> Result<Vec<u8>, Fault>
    requires { R.failed reader.old ≡ false }
    ensures bytes { IfOk result
        (λ bytes. IfSome (R.remaining reader.old) (IsAllOfInput bytes.items)) }
    ensures bound { IfOk result (λ bytes. vec_len bytes ≤ most_bytes) }
    ensures read_fault { result ≡ Err Fault.ReadFault → IsUnread R.Source reader.old reader.new }
    ensures within { GivesWithin (R.given reader.old) (R.given reader.new) }
    ensures no_write { result ≢ Err Fault.WriteFault }
    ensures clear { result ≢ Err Fault.ReadFault → R.failed reader.new ≡ false }
{
    let input = read_whole(alloc, reader)?;
    if input.is_whole {
        Ok(input.bytes)
    } else {
        Err(Fault::ReadFault)
    }
}
