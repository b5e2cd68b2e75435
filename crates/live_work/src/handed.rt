// The bytes that a planned call is handed.
ghost use Rattle.std.specs.Prelude.{◌≡◌, ◌*◌, IfOk, length, replicate};
ghost use Rattle.live_work.specs.Runs.{IsHandedAgain, io_of};

use pcm_base::Call;
use std::alloc::{AllocError, Global};

/// The most bytes of a frame: 8 channels of 4 bytes.
const FRAME_BYTES: usize = 32;

// So many bytes for each of these frames, if so many can be counted.
fn zeros(alloc: Global, frames: u64) -> Result<Vec<u8>, AllocError>
    ensures { IfOk result (λ io. io.items ≡ replicate (32 * frames) 0) }
{
    let count = usize::try_from(frames)
        .ok()
        .and_then(|n| n.checked_mul(FRAME_BYTES));
    match count {
        Some(count) => vec![in alloc; 0; count],
        None => Err(AllocError),
    }
}

/// What a planned call is handed: the bytes of its line, or zeros where it reads.
pub fn lent(alloc: Global, call: &Call, bytes: &[u8]) -> Result<Vec<u8>, AllocError>
    ensures { IfOk result (λ io. io.items ≡ io_of call.now bytes.now) }
{
    match call {
        Call::Read(_, _, frames) | Call::Load(_, frames) => zeros(alloc, *frames),
        _ => bytes.to_vec(alloc),
    }
}

/// Hands the bytes in again before a call is carried on: those of its line, or where it reads what it was handed, as it is now.
pub(crate) fn lend_again(call: &Call, bytes: &[u8], io: &mut [u8])
    requires size { length io.old ≡ length (io_of call.now bytes.now) }
    ensures { IsHandedAgain call.now (io_of call.now bytes.now) io.new }
{
    match call {
        Call::Read(..) | Call::Load(..) => {}
        _ => io.copy_from_slice(bytes),
    }
}
