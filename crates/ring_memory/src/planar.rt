// A ring's memory with an area for each channel, one behind the other.
ghost use Rattle.std.specs.Prelude.{◌≡◌, ◌+◌, ◌*◌, ◌/◌, ◌%◌, ◌<◌, ◌≤◌, length, replicate};
ghost use Rattle.pcm_base.specs.model.Frame.{bytes_of};
ghost use Rattle.ring_memory.specs.Round.{over, written_round, read_round, part};
ghost use Rattle.ring_memory.specs.Sizes.{AreSizes, IsMemory, slots_across, frames_in, frames_across_in};

use crate::round::{copy_round, fill_round, write_round};
use crate::sample::{frame_from_areas, frame_to_areas, slot_after};
use crate::sizes::Sizes;

// Puts frames, which lie in order, from a slot on.
pub(crate) fn put(ring: &mut [u8], sizes: Sizes, slot: usize, frames: &[u8])
    requires sizes { AreSizes sizes }
    requires memory { IsMemory sizes ring.old }
    requires slot { slot < sizes.buffer }
    requires whole { length frames.now % sizes.frame_bytes ≡ 0 }
    requires fits { length frames.now ≤ length ring.old }
    ensures { slots_across sizes ring.new
        ≡ written_round slot (frames_in sizes frames.now) (slots_across sizes ring.old) }
{
    let width = sizes.frame_bytes;
    for k in 0..frames.len() / width {
        let at = slot_after(slot, k, sizes.buffer);
        frame_to_areas(
            ring,
            sizes,
            sizes.buffer,
            at,
            &frames[k * width..k * width + width],
        );
    }
}

// Puts `count` silent frames from a slot on.
pub(crate) fn fill(ring: &mut [u8], sizes: Sizes, slot: usize, count: usize, silence: u8)
    requires sizes { AreSizes sizes }
    requires memory { IsMemory sizes ring.old }
    requires slot { slot < sizes.buffer }
    requires fits { count ≤ sizes.buffer }
    ensures { slots_across sizes ring.new
        ≡ written_round slot (replicate count (replicate sizes.frame_bytes silence)) (slots_across sizes ring.old) }
{
    let sample = sizes.sample_bytes;
    let area = sizes.buffer * sample;
    for channel in 0..sizes.channels {
        let start = channel * area;
        let own = &mut ring[start..start + area];
        fill_round(own, slot * sample, count * sample, silence);
    }
}

// Gets the frames from a slot on, in order.
pub(crate) fn get(ring: &[u8], sizes: Sizes, slot: usize, out: &mut [u8])
    requires sizes { AreSizes sizes }
    requires memory { IsMemory sizes ring.now }
    requires slot { slot < sizes.buffer }
    requires whole { length out.old % sizes.frame_bytes ≡ 0 }
    requires fits { length out.old ≤ length ring.now }
    ensures { out.new ≡ bytes_of (read_round slot (length out.old / sizes.frame_bytes) (slots_across sizes ring.now)) }
{
    let width = sizes.frame_bytes;
    for k in 0..out.len() / width {
        let at = slot_after(slot, k, sizes.buffer);
        frame_from_areas(
            ring,
            sizes,
            sizes.buffer,
            at,
            &mut out[k * width..k * width + width],
        );
    }
}

// Puts the `count` frames of planar bytes from `first` on.
pub(crate) fn put_area(
    ring: &mut [u8],
    sizes: Sizes,
    slot: usize,
    io: &[u8],
    first: usize,
    count: usize,
)
    requires sizes { AreSizes sizes }
    requires memory { IsMemory sizes ring.old }
    requires slot { slot < sizes.buffer }
    requires whole { length io.now % sizes.frame_bytes ≡ 0 }
    requires fits { count ≤ sizes.buffer }
    requires within { first + count ≤ length io.now / sizes.frame_bytes }
    ensures { slots_across sizes ring.new
        ≡ written_round slot (part first count (frames_across_in sizes io.now)) (slots_across sizes ring.old) }
{
    let sample = sizes.sample_bytes;
    let area = sizes.buffer * sample;
    let io_area = io.len() / sizes.frame_bytes * sample;
    for channel in 0..sizes.channels {
        let start = channel * area;
        let own = &mut ring[start..start + area];
        let from = channel * io_area;
        let theirs = &io[from..from + io_area];
        write_round(
            own,
            slot * sample,
            &theirs[first * sample..first * sample + count * sample],
        );
    }
}

// Gets `count` frames into planar bytes from `first` on.
pub(crate) fn get_area(
    ring: &[u8],
    sizes: Sizes,
    slot: usize,
    io: &mut [u8],
    first: usize,
    count: usize,
)
    requires sizes { AreSizes sizes }
    requires memory { IsMemory sizes ring.now }
    requires slot { slot < sizes.buffer }
    requires whole { length io.old % sizes.frame_bytes ≡ 0 }
    requires fits { count ≤ sizes.buffer }
    requires within { first + count ≤ length io.old / sizes.frame_bytes }
    ensures { frames_across_in sizes io.new
        ≡ over first (read_round slot count (slots_across sizes ring.now)) (frames_across_in sizes io.old) }
{
    let sample = sizes.sample_bytes;
    let area = sizes.buffer * sample;
    let io_area = io.len() / sizes.frame_bytes * sample;
    for channel in 0..sizes.channels {
        let start = channel * area;
        let own = &ring[start..start + area];
        let to = channel * io_area;
        let theirs = &mut io[to..to + io_area];
        copy_round(
            own,
            slot * sample,
            &mut theirs[first * sample..first * sample + count * sample],
        );
    }
}
