// What a client asks of a card, what it gets, and what a card can do.
ghost use Rattle.std.specs.Prelude.{◌≡◌, ◌≤◌, ◌<◌, ◌+◌, ◌*◌, ◌^◌, ℕ};
ghost use Rattle.pcm_base.specs.Boundary.{boundary_of as the_boundary};

use crate::{Access, Format};

/// The named card models; `Indirect` plays through a small hardware buffer of its own. This project's own.
#[derive(Clone, Copy, Debug, PartialEq, Eq)]
pub enum Model {
    Basic,
    Duplex,
    Studio,
    NoPause,
    NoResume,
    Indirect,
}

/// What a client asks of `hw_params`: `rate` in Hz, `period` in frames, `periods` in a buffer
/// (`struct snd_pcm_hw_params` with one value left in each interval).
#[derive(Clone, Copy, Debug, PartialEq, Eq)]
pub struct Config {
    pub access: Access,
    pub format: Format,
    pub channels: u64,
    pub rate: u64,
    pub period: u64,
    pub periods: u64,
}

/// The sizes of an accepted configuration: `frame_bytes` in bytes, `period`, `buffer` and `boundary` in frames
/// (the fields of `struct snd_pcm_runtime` that `snd_pcm_hw_params` sets).
#[derive(Clone, Copy, Debug, PartialEq, Eq)]
pub struct Shape {
    pub frame_bytes: u64,
    pub channels: u64,
    pub period: u64,
    pub periods: u64,
    pub buffer: u64,
    pub boundary: u64,
}

/// The software parameters, all in frames (`struct snd_pcm_sw_params`).
#[derive(Clone, Copy, Debug, PartialEq, Eq)]
pub struct SwParams {
    pub avail_min: u64,
    pub start_threshold: u64,
    pub stop_threshold: u64,
    pub silence_threshold: u64,
    pub silence_size: u64,
}

/// The numbers from `least` to `most`, both included; none where `least` is the greater
/// (`struct snd_interval` with closed ends).
#[derive(Clone, Copy, Debug, PartialEq, Eq)]
pub struct Span {
    pub least: u64,
    pub most: u64,
}

/// A box of configurations, as `snd_pcm_hw_refine` cuts it: masks of accesses and formats, and spans of channels,
/// rate (Hz), period (frames), periods and buffer (frames).
#[derive(Clone, Copy, Debug, PartialEq, Eq)]
pub struct Space {
    pub accesses: u64,
    pub formats: u64,
    pub channels: Span,
    pub rate: Span,
    pub period: Span,
    pub periods: Span,
    pub buffer: Span,
}

/// What a card can do (`struct snd_pcm_hardware`). `wide_rate` is the greatest rate with more than two channels, and
/// `buffer_bytes` the greatest buffer.
#[derive(Clone, Copy, Debug, PartialEq, Eq)]
pub struct CardModel {
    pub accesses: u64,
    pub formats: u64,
    pub channels: Span,
    pub rate: Span,
    pub wide_rate: u64,
    pub period: Span,
    pub buffer_bytes: u64,
    pub can_pause: bool,
    pub can_resume: bool,
}

/// The number below which pointers are shown: the buffer, doubled as long as the next doubling leaves room for one
/// buffer more below `long_max` (`snd_pcm_hw_params` of `pcm_native.c`).
pub fn boundary_of(buffer: u64, long_max: u64) -> u64
    requires some { 1 ≤ buffer }
    requires below { buffer ≤ long_max }
    ensures rule { result ≡ the_boundary buffer long_max }
    ensures doublings { (k : ℕ) × (result ≡ buffer * 2 ^ k) }
    ensures room { 2 * buffer ≤ long_max → result + buffer ≤ long_max }
    ensures greatest { long_max < 2 * result + buffer }
{
    let room = long_max - buffer;
    let mut boundary = buffer;
    'doublings: while boundary <= room / 2 {
        boundary *= 2;
    }
    boundary
}
