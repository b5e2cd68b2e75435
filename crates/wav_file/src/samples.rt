// Samples of S24_LE, in memory and in a file. In memory the low three of their four bytes are used; in a file the valid
// bits fill a sample from its highest bit.
ghost use Rattle.std.specs.Prelude.{◌≡◌, ◌≤◌, ◌++◌, length, take, drop, IfOk, OnOk};
ghost use Rattle.wav_file.specs.Recordings.{bytes_for, frames_from, high_samples, low_samples};

use pcm_base::Format;
use std::alloc::{AllocError, Global};

/// Moves samples from the high three bytes of their four to the low three, in place.
fn move_low(samples: &mut [u8])
    ensures { samples.new ≡ low_samples samples.old }
{
    'moves: for k in 0..samples.len() / 4 {
        let at = 4 * k;
        let (a, b, c) = (samples[at + 1], samples[at + 2], samples[at + 3]);
        samples[at] = a;
        samples[at + 1] = b;
        samples[at + 2] = c;
        samples[at + 3] = 0;
    }
}

/// Moves samples from the low three bytes of their four to the high three, in place.
fn move_high(samples: &mut [u8])
    ensures { samples.new ≡ high_samples samples.old }
{
    'moves: for k in 0..samples.len() / 4 {
        let at = 4 * k;
        let (a, b, c) = (samples[at], samples[at + 1], samples[at + 2]);
        samples[at] = 0;
        samples[at + 1] = a;
        samples[at + 2] = b;
        samples[at + 3] = c;
    }
}

/// The same for those from a place on.
fn move_high_from(bytes: &mut [u8], start: usize)
    requires { start ≤ length bytes.old }
    ensures { bytes.new ≡ take start bytes.old ++ high_samples (drop start bytes.old) }
{
    move_high(&mut bytes[start..]);
}

/// The frames that these bytes of a file stand for.
pub(crate) fn frames_of(alloc: Global, format: Format, bytes: &[u8]) -> Result<Vec<u8>, AllocError>
    ensures { IfOk result (λ v. v.items ≡ frames_from format bytes.now) }
{
    let mut frames = Vec::from_slice(alloc, bytes)?;
    if format == Format::S24Le {
        move_low(&mut frames);
    }
    Ok(frames)
}

/// Appends the bytes of a file that stand for these frames.
pub(crate) fn put_frames(out: &mut Vec<u8>, format: Format, frames: &[u8]) -> Result<(), AllocError>
    ensures { OnOk result (out.new.items ≡ out.old.items ++ bytes_for format frames.now) }
{
    let start = out.len();
    out.extend_from_slice(frames)?;
    if format == Format::S24Le {
        move_high_from(out, start);
    }
    Ok(())
}
