// The bytes that a call's step is lent, and those that a read tells.
ghost use Rattle.std.specs.Prelude.{◌≡◌, ◌≤◌, ◌*◌, ◌%◌, IfSome, OnOk, length};
ghost use Rattle.pcm_base.specs.Shape.{IsSoundShape};
ghost use Rattle.pcm_world.specs.Bytes.{first_by, fronts, length_begun, lent_bytes};

use pcm_base::{Call, Layout, Shape};
use std::alloc::AllocError;

/// The most frames of one read.
const MOST_FRAMES: u64 = 1_048_576;

// How many bytes a read or a load of a substream of this shape reads, where its rules can let it through; 0 for any other.
fn length_read(call: Call, shape: &Shape) -> u64
    requires { IsSoundShape shape.now }
    ensures value { result ≡ length_begun call shape.now }
    ensures bound { result ≤ 33554432 }
{
    match call {
        Call::Read(_, _, count) if count <= MOST_FRAMES => count * shape.frame_bytes,
        Call::Load(offset, count) if offset <= shape.buffer && count <= shape.buffer - offset => {
            count * shape.frame_bytes
        }
        _ => 0,
    }
}

/// Fills `io` with what a call's step is lent: zeros for what it reads, nothing for a drain, else the bytes that were handed
/// in. Its memory is used again.
pub(crate) fn lend(
    io: &mut Vec<u8>,
    call: Call,
    shape: &Option<Shape>,
    bytes: &[u8],
) -> Result<(), AllocError>
    requires { IfSome shape.now IsSoundShape }
    ensures { OnOk result (io.new.items ≡ lent_bytes call shape.now bytes.now) }
{
    io.clear();
    match (call, shape) {
        (Call::Read(_, _, _) | Call::Load(_, _), Some(shape)) => {
            io.resize(length_read(call, shape) as usize, 0)
        }
        (Call::Read(_, _, _) | Call::Load(_, _) | Call::Drain(_), _) => Ok(()),
        _ if bytes.is_empty() => Ok(()),
        _ => io.extend_from_slice(bytes),
    }
}

// The front of each channel's area follows that of the one before.
fn close_up(bytes: &mut Vec<u8>, channels: usize, area: usize, front: usize)
    requires front { front ≤ area }
    requires areas { length bytes.old.items ≡ channels * area }
    ensures { bytes.new.items ≡ fronts channels area front bytes.old.items }
{
    for channel in 0..channels {
        let start = channel * area;
        bytes.copy_within(start..start + front, channel * front);
    }
    bytes.truncate(channels * front);
}

/// Only the first `count` of the frames in the bytes. Those of planar bytes close up, channel after channel.
pub(crate) fn first_frames(bytes: &mut Vec<u8>, layout: Layout, shape: &Shape, count: u64)
    requires sound { IsSoundShape shape.now }
    requires whole { length bytes.old.items % shape.now.frame_bytes ≡ 0 }
    requires count { count * shape.now.frame_bytes ≤ length bytes.old.items }
    ensures { bytes.new.items ≡ first_by layout shape.now count bytes.old.items }
{
    let size = (count * shape.frame_bytes) as usize;
    match layout {
        Layout::Interleaved => bytes.truncate(size),
        Layout::Planar => {
            let channels = shape.channels as usize;
            close_up(bytes, channels, bytes.len() / channels, size / channels);
        }
    }
}
