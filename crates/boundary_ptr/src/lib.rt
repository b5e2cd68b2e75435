//! Pointers below the boundary: sums and differences of positions as clients see them, and the counts of frames that a
//! client may move.
//!
//! It stands on the shape of `pcm_base`. The source is `snd_pcm_playback_avail` and `snd_pcm_capture_avail` of
//! `include/sound/pcm.h`. A position without bound is shown by its remainder modulo the boundary, and each call says
//! what it answers in such positions.
#![tactic(auto)]

ghost use Rattle.std.specs.Prelude.{◌≡◌, ℕ, ◌+◌, ◌-◌, ◌*◌, ◌%◌, ◌<◌, ◌≤◌};
ghost use Rattle.pcm_base.specs.Shape.{IsSoundShape};

#[cfg(test)]
mod tests;

use pcm_base::Shape;

// A position below two boundaries, as it is shown.
fn wrapped(shape: &Shape, position: u64) -> u64
    requires { position < 2 * shape.now.boundary }
    ensures { result ≡ position % shape.now.boundary }
{
    if position < shape.boundary {
        position
    } else {
        position - shape.boundary
    }
}

/// The pointer `n` frames after `p`, both below the boundary.
pub fn add(shape: &Shape, p: u64, n: u64) -> u64
    requires sound { IsSoundShape shape.now }
    requires pointer { p < shape.now.boundary }
    requires count { n < shape.now.boundary }
    ensures value { result ≡ (p + n) % shape.now.boundary }
    ensures shown { (u : ℕ) → p ≡ u % shape.now.boundary → result ≡ (u + n) % shape.now.boundary }
{
    wrapped(shape, p + n)
}

/// The pointer `n` frames before `p`, both below the boundary.
pub fn back(shape: &Shape, p: u64, n: u64) -> u64
    requires sound { IsSoundShape shape.now }
    requires pointer { p < shape.now.boundary }
    requires count { n < shape.now.boundary }
    ensures value { result ≡ (p + shape.now.boundary - n) % shape.now.boundary }
    ensures shown { (u : ℕ) → n ≤ u → p ≡ u % shape.now.boundary → result ≡ (u - n) % shape.now.boundary }
{
    wrapped(shape, p + shape.boundary - n)
}

/// The frames that a playback client may write before the buffer is full (`snd_pcm_playback_avail`).
pub fn avail_play(shape: &Shape, hw: u64, appl: u64) -> u64
    requires sound { IsSoundShape shape.now }
    requires hw { hw < shape.now.boundary }
    requires appl { appl < shape.now.boundary }
    ensures value { result ≡ (hw + shape.now.buffer + shape.now.boundary - appl) % shape.now.boundary }
    ensures avail { (h u : ℕ) → hw ≡ h % shape.now.boundary → appl ≡ u % shape.now.boundary
        → u ≤ h + shape.now.buffer → h + shape.now.buffer - u < shape.now.boundary
        → result ≡ h + shape.now.buffer - u }
{
    back(shape, add(shape, hw, shape.buffer), appl)
}

/// The frames that a capture client may read (`snd_pcm_capture_avail`).
pub fn avail_capture(shape: &Shape, hw: u64, appl: u64) -> u64
    requires sound { IsSoundShape shape.now }
    requires hw { hw < shape.now.boundary }
    requires appl { appl < shape.now.boundary }
    ensures value { result ≡ (hw + shape.now.boundary - appl) % shape.now.boundary }
    ensures avail { (h u : ℕ) → hw ≡ h % shape.now.boundary → appl ≡ u % shape.now.boundary
        → u ≤ h → h - u < shape.now.boundary
        → result ≡ h - u }
{
    back(shape, hw, appl)
}
