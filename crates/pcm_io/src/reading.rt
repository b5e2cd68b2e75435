// Reads a source to its end, or to a limit.
ghost use Rattle.std.specs.Prelude.{◌≡◌, ◌≤◌, ◌<◌, ◌+◌, ◌-◌, ◌^◌, ℕ, List, length, IfOk, IfSome, OnOk, IsErrOf, take};
ghost use Rattle.std.specs.Io.KnownBytes.{Consumes, IsAtEnd};
ghost use Rattle.pcm_base.specs.Causes.{Rose};

use crate::Source;
use std::alloc::Global;

/// Why a source was not read.
#[derive(Clone, Copy, Debug, PartialEq, Eq)]
pub enum ReadEnd {
    /// A read failed.
    Failed,
    /// There was no memory.
    Memory,
}

// The most bytes of one read.
pub(crate) const PIECE: usize = 4096;

/// The bytes of the source, to its end, or one byte more than `limit` where there are more than `limit` bytes. An error
/// leaves the source after the bytes that were read before it. This project's own.
pub fn read_to_limit<S: Source>(
    alloc: Global,
    source: &mut S,
    limit: usize,
) -> Result<Vec<u8>, ReadEnd>
    requires { limit < 2 ^ 64 - 1 }
    ensures bytes { IfOk result (λ bytes. Consumes (S.left source.old) (S.left source.new) bytes.items) }
    ensures front { IfOk result (λ bytes. IfSome (S.left source.old) (λ all. bytes.items ≡ take (limit + 1) all)) }
    ensures end { IfOk result (λ bytes. length bytes.items ≤ limit → IsAtEnd (S.left source.new)) }
    ensures bound { IfOk result (λ bytes. length bytes.items ≤ limit + 1) }

    // A fault is the one cause of Failed, and what was read before an error is gone.
    ensures later { S.faults source.old ≤ S.faults source.new }
    ensures failed { IsErrOf result ReadEnd.Failed → Rose (S.faults source.old) (S.faults source.new) }
    ensures memory { IsErrOf result ReadEnd.Memory → S.faults source.new ≡ S.faults source.old }
    ensures kept { OnOk result (S.faults source.new ≡ S.faults source.old) }
    ensures lost { (read : List ℕ) × (length read ≤ limit + 1) × Consumes (S.left source.old) (S.left source.new) read }
{
    let mut bytes = Vec::new(alloc);
    let mut piece = [0u8; PIECE];
    'pieces: while bytes.len() <= limit {
        let room = (limit + 1 - bytes.len()).min(PIECE);
        let Ok(count) = source.read(&mut piece[..room]) else {
            return Err(ReadEnd::Failed);
        };
        if count == 0 {
            break;
        }
        let Ok(()) = bytes.extend_from_slice(&piece[..count]) else {
            return Err(ReadEnd::Memory);
        };
    }
    Ok(bytes)
}
