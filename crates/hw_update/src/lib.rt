//! The reported hardware pointer: how a card's position, which is told modulo the buffer, moves it on.
//!
//! It stands on the shape of `pcm_base`. The source is `snd_pcm_update_hw_ptr0` of `pcm_lib.c`: a base pointer says
//! where the card's buffer begins, and moves on by one buffer where the card has begun again. Its checks by time are left out,
//! since no card may go round a whole buffer before that is reported.
#![tactic(auto)]

ghost use Rattle.std.specs.Prelude.{◌≡◌, ℕ, ◌+◌, ◌-◌, ◌%◌, ◌<◌, ◌≤◌};
ghost use Rattle.pcm_base.specs.Shape.{IsSoundShape};
ghost use Rattle.hw_update.specs.HwPtr.{IsBased};

#[cfg(test)]
mod tests;

use pcm_base::Shape;

/// A hardware pointer below the boundary, `hw`, and the pointer at which the card's buffer then begins, `base`, in
/// frames (`hw_ptr_base` and `status->hw_ptr` of `struct snd_pcm_runtime`).
#[derive(Clone, Copy, Debug, PartialEq, Eq)]
pub struct HwPtr {
    pub base: u64,
    pub hw: u64,
}

// The base one buffer further on.
fn next_base(shape: &Shape, base: u64) -> u64
    requires sound { IsSoundShape shape.now }
    requires fits { base + shape.now.buffer ≤ shape.now.boundary }
    ensures { result ≡ (base + shape.now.buffer) % shape.now.boundary }
{
    let next = base + shape.buffer;
    if next == shape.boundary { 0 } else { next }
}

// The base of the buffer in which the card now stands: the next one where it has begun again.
fn base_at(ptr: &HwPtr, shape: &Shape, position: u64) -> u64
    requires sound { IsSoundShape shape.now }
    requires position { position < shape.now.buffer }
    requires based { IsBased shape.now ptr.now }
    ensures same { ptr.now.hw ≤ ptr.now.base + position → result ≡ ptr.now.base }
    ensures next { ptr.now.base + position < ptr.now.hw → result ≡ (ptr.now.base + shape.now.buffer) % shape.now.boundary }
{
    if ptr.base + position < ptr.hw {
        next_base(shape, ptr.base)
    } else {
        ptr.base
    }
}

// How many frames `new` lies ahead of `old`.
fn frames_between(shape: &Shape, old: u64, new: u64) -> u64
    requires sound { IsSoundShape shape.now }
    requires old { old < shape.now.boundary }
    requires new { new < shape.now.boundary }
    ensures { result ≡ (new + shape.now.boundary - old) % shape.now.boundary }
{
    if new < old {
        new + shape.boundary - old
    } else {
        new - old
    }
}

/// Moves the hardware pointer to where the card stands, `position` frames into its buffer, and answers by how many
/// frames. The card has moved by less than one buffer.
pub fn advance(ptr: &mut HwPtr, shape: &Shape, position: u64) -> u64
    requires sound { IsSoundShape shape.now }
    requires position { position < shape.now.buffer }
    requires based { IsBased shape.now ptr.old }
    ensures based { IsBased shape.now ptr.new }
    ensures moved { result ≡ (position + shape.now.buffer - ptr.old.hw % shape.now.buffer) % shape.now.buffer }
    ensures hw { ptr.new.hw ≡ (ptr.old.hw + result) % shape.now.boundary }
    ensures card { ptr.new.hw % shape.now.buffer ≡ position }

    // In positions without bound: where the pointer shows h and the card stands at c, less than one buffer ahead.
    ensures distance { (h c : ℕ) → h ≤ c → c < h + shape.now.buffer
        → ptr.old.hw ≡ h % shape.now.boundary → position ≡ c % shape.now.buffer
        → result ≡ c - h }
    ensures shown { (h c : ℕ) → h ≤ c → c < h + shape.now.buffer
        → ptr.old.hw ≡ h % shape.now.boundary → position ≡ c % shape.now.buffer
        → ptr.new.hw ≡ c % shape.now.boundary }
{
    let base = base_at(ptr, shape, position);
    let hw = base + position;
    let moved = frames_between(shape, ptr.hw, hw);
    *ptr = HwPtr { base, hw };
    moved
}
