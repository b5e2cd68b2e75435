// One frame of planar bytes: a sample of each channel's area.
ghost use Rattle.std.specs.Prelude.{◌≡◌, ◌+◌, ◌*◌, ◌%◌, ◌<◌, ◌≤◌, [], length, slice_index_or, slice_set};
ghost use Rattle.pcm_base.specs.model.Frame.{planar_frames};
ghost use Rattle.ring_memory.specs.Sizes.{AreSizes};

use crate::sizes::Sizes;

// The slot `k` slots after this one, past the ring's end from the front on.
pub(crate) fn slot_after(slot: usize, k: usize, buffer: usize) -> usize
    requires slot { slot < buffer }
    requires near { k < buffer }
    requires most { buffer ≤ 65536 }
    ensures { result ≡ (slot + k) % buffer }
{
    let next = slot + k;
    if next < buffer { next } else { next - buffer }
}

// Copies frame `i` of areas of `count` samples.
pub(crate) fn frame_from_areas(areas: &[u8], sizes: Sizes, count: usize, i: usize, frame: &mut [u8])
    requires sizes { AreSizes sizes }
    requires areas { length areas.now ≡ count * sizes.frame_bytes }
    requires within { i < count }
    requires frame { length frame.old ≡ sizes.frame_bytes }
    ensures { frame.new ≡ slice_index_or (planar_frames count sizes.channels sizes.sample_bytes areas.now) i [] }
{
    let sample = sizes.sample_bytes;
    let area = count * sample;
    for channel in 0..sizes.channels {
        let start = channel * area;
        let own = &areas[start..start + area];
        let to = channel * sample;
        frame[to..to + sample].copy_from_slice(&own[i * sample..i * sample + sample]);
    }
}

// Writes frame `i` of areas of `count` samples.
pub(crate) fn frame_to_areas(areas: &mut [u8], sizes: Sizes, count: usize, i: usize, frame: &[u8])
    requires sizes { AreSizes sizes }
    requires areas { length areas.old ≡ count * sizes.frame_bytes }
    requires within { i < count }
    requires frame { length frame.now ≡ sizes.frame_bytes }
    ensures { planar_frames count sizes.channels sizes.sample_bytes areas.new
        ≡ slice_set (planar_frames count sizes.channels sizes.sample_bytes areas.old) i frame.now }
{
    let sample = sizes.sample_bytes;
    let area = count * sample;
    for channel in 0..sizes.channels {
        let start = channel * area;
        let own = &mut areas[start..start + area];
        let from = channel * sample;
        own[i * sample..i * sample + sample].copy_from_slice(&frame[from..from + sample]);
    }
}
