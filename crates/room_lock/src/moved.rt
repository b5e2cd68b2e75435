// The bytes that a step moved, for the own entry of an event.
ghost use Rattle.std.specs.Prelude.{◌≡◌, ◌≢◌, ◌≤◌, ◌<◌, ◌+◌, ◌*◌, ◌/◌, ◌%◌, ◌++◌, [], ℕ, length, drop, vec_len, vec_capacity, false, true, IfSome};
ghost use Rattle.pcm_base.specs.Shape.{IsSoundShape};
ghost use Rattle.ring_memory.specs.Round.{part};
ghost use Rattle.room_lock.specs.Moved.{parts, part_by};
ghost use Rattle.room_lock.specs.Told.{is_movement, is_transfer, told_bytes};

use pcm_base::{Call, Layout, Reply, Shape};

// These bytes behind the others. There is room.
fn push_all(bytes: &mut Vec<u8>, more: &[u8])
    requires { vec_len bytes.old + length more.now ≤ vec_capacity bytes.old }
    ensures items { bytes.new.items ≡ bytes.old.items ++ more.now }
    ensures room { vec_capacity bytes.new ≡ vec_capacity bytes.old }
{
    for i in 0..more.len() {
        bytes.push_reserved(more[i]);
    }
}

// So many bytes from a place on behind the others. There is room.
fn push_piece(bytes: &mut Vec<u8>, from: usize, size: usize, io: &[u8])
    requires within { from + size ≤ length io.now }
    requires room { vec_len bytes.old + size ≤ vec_capacity bytes.old }
    ensures items { bytes.new.items ≡ bytes.old.items ++ part from size io.now }
    ensures room { vec_capacity bytes.new ≡ vec_capacity bytes.old }
{
    push_all(bytes, &io[from..from + size]);
}

// The bytes from a place on.
fn behind(bytes: &[u8], from: usize) -> &[u8]
    requires { from ≤ length bytes.now }
    ensures { result.now ≡ drop from bytes.now }
{
    &bytes[from..]
}

// So many bytes from a place on of each channel's area behind the others. There is room.
fn push_channels(
    bytes: &mut Vec<u8>,
    channels: usize,
    area: usize,
    from: usize,
    size: usize,
    io: &[u8],
)
    requires within { from + size ≤ area }
    requires areas { channels * area ≤ length io.now }
    requires room { vec_len bytes.old + channels * size ≤ vec_capacity bytes.old }
    ensures { bytes.new.items ≡ bytes.old.items ++ parts channels area from size io.now }
{
    let mut rest = io;
    let mut left = channels;
    'channels: while left > 0 {
        push_piece(bytes, from, size, rest);
        rest = behind(rest, area);
        left -= 1;
    }
}

// The `count` frames from the `first` on of the bytes of a transfer, as they lie there; those of planar bytes close up,
// channel after channel.
fn push_part(bytes: &mut Vec<u8>, layout: Layout, shape: &Shape, first: u64, count: u64, io: &[u8])
    requires sound { IsSoundShape shape.now }
    requires whole { length io.now % shape.now.frame_bytes ≡ 0 }
    requires within { first + count ≤ length io.now / shape.now.frame_bytes }
    requires empty { bytes.old.items ≡ [] }
    requires room { length io.now ≤ vec_capacity bytes.old }
    ensures { bytes.new.items ≡ part_by layout shape.now first count io.now }
{
    let frame_bytes = shape.frame_bytes as usize;
    let channels = shape.channels as usize;
    match layout {
        Layout::Interleaved => push_piece(
            bytes,
            first as usize * frame_bytes,
            count as usize * frame_bytes,
            io,
        ),
        Layout::Planar => push_channels(
            bytes,
            channels,
            io.len() / channels,
            first as usize * (frame_bytes / channels),
            count as usize * (frame_bytes / channels),
            io,
        ),
    }
}

/// The bytes from a place on; none where there are fewer.
pub(crate) fn since(bytes: &[u8], from: usize) -> &[u8]
    ensures { result.now ≡ drop from bytes.now }
{
    if from > bytes.len() {
        return &[];
    }
    behind(bytes, from)
}

/// The bytes of the own entry of an event that was answered so, where the call's bytes are these afterwards, its layout and
/// the shape of its substream are given, and its card has taken `tail` in the step. They go into `bytes`, which is empty and
/// has room.
pub(crate) fn push_moved(
    bytes: &mut Vec<u8>,
    call: Call,
    layout: Layout,
    shape: Option<Shape>,
    reply: Reply,
    first: u64,
    moved: u64,
    io: &[u8],
    tail: &[u8],
)
    requires sound { IfSome shape IsSoundShape }
    requires whole { is_transfer call ≡ true → moved ≢ 0 → IfSome shape (λ h. length io.now % h.frame_bytes ≡ 0) }
    requires within { is_transfer call ≡ true → moved ≢ 0 → IfSome shape (λ h. first + moved ≤ length io.now / h.frame_bytes) }
    requires empty { bytes.old.items ≡ [] }
    requires room { length io.now ≤ vec_capacity bytes.old }
    requires tail { is_movement call ≡ true → length tail.now ≤ vec_capacity bytes.old }
    ensures { bytes.new.items ≡ told_bytes call layout shape reply first moved io.now tail.now }
{
    match (call, reply, shape) {
        (Call::MoveBy(_), _, _) => push_all(bytes, tail),
        (Call::Give, Reply::Ok, _) => push_all(bytes, io),
        (Call::Store(_) | Call::Load(_, _), Reply::Frames(_), _) => push_all(bytes, io),
        (Call::Write(_, _) | Call::Read(_, _, _) | Call::Go, _, Some(shape)) if moved > 0 => {
            push_part(bytes, layout, &shape, first, moved, io);
        }
        _ => {}
    }
}
