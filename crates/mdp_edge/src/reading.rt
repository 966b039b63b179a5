ghost use Rattle.std.specs.{Prelude.{◌≡◌, ◌+◌, ◌<◌, ◌≤◌, ◌⊎◌, length, vec_len, IfOk, OnOk, IsErr, IsErrOf, IfSome}, Io.KnownBytes.{IsAtEnd}};
ghost use Rattle.mdp_edge.specs.{Faults.{FaultCounted}, Bytes.{GaveAtMost}};

use crate::source::Source;
use std::alloc::Global;

/// How many bytes a call of a source is asked for at most.
pub const MOST_PIECE: usize = 4096;

/// Why the bytes of a source could not be read to their end.
#[derive(Clone, Copy)]
pub enum InError {
    /// The source failed.
    ReadFault = 1,
    /// It gave more bytes than the limit.
    Long = 2,
    /// There was no memory for them.
    Memory = 3,
}

/// All the bytes that a source has left, of which there may be at most `limit`. It stops at the first fault, and once more than `limit` bytes came.
pub fn read_all<S: Source>(alloc: Global, source: &mut S, limit: usize) -> Result<Vec<u8>, InError>
    // These are all the bytes that were left.
    ensures all { IfOk result (λ bytes. IfSome (S.left source.old) (λ left. bytes.items ≡ left)) }
    ensures end { OnOk result (IsAtEnd (S.left source.new)) }
    ensures fits { IfOk result (λ bytes. vec_len bytes ≤ limit) }
    ensures too_long { IfSome (S.left source.old) (λ left. limit < length left → IsErr result) }

    // An error leaves the bytes behind those that came, which are at most one piece more than the limit.
    ensures rest { GaveAtMost (S.left source.old) (S.left source.new) (limit + MOST_PIECE) }
    ensures long { IsErrOf result InError.Long → IfSome (S.left source.old) (λ left. limit < length left) }
    ensures fault { IsErrOf result InError.ReadFault → FaultCounted (S.faults source.old) (S.faults source.new) }
    ensures still { IsErrOf result InError.ReadFault ⊎ (S.faults source.new ≡ S.faults source.old) }
    ensures later { S.faults source.old ≤ S.faults source.new }
{
    let mut bytes = Vec::new(alloc);
    let mut piece = [0u8; MOST_PIECE];
    'reading: while bytes.len() <= limit {
        let Ok(count) = source.read(&mut piece) else {
            return Err(InError::ReadFault);
        };
        if count == 0 {
            return Ok(bytes);
        }
        let Ok(()) = bytes.extend_from_slice(&piece[..count]) else {
            return Err(InError::Memory);
        };
    }
    Err(InError::Long)
}
