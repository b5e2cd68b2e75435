// The ring.
ghost use Rattle.std.specs.Prelude.{◌≡◌, ℕ, ◌+◌, ◌/◌, ◌%◌, ◌<◌, ◌≤◌, List, [], length, replicate, map, true, IfOk};
ghost use Rattle.pcm_base.specs.Shape.{IsSoundShape};
ghost use Rattle.pcm_base.specs.model.Frame.{bytes_of, bytes_across};
ghost use Rattle.pcm_base.specs.model.Standing.{Put, put_at};
ghost use Rattle.ring_memory.specs.Ring.{IsMadeFor, SameSizes, StandsForPuts};
ghost use Rattle.ring_memory.specs.Ring.{frames_in, frames_across_in, sample_bytes, sample, stood_at, with_standing};
ghost use Rattle.ring_memory.specs.Round.{part};

use crate::sizes::Sizes;
use crate::{interleaved, planar};
use pcm_base::Shape;
use std::alloc::{AllocError, Global};
use std::marker::Model;

/// The memory of a ring buffer, in one allocation: as many frames as the buffer has, one after another, or with the
/// samples of each channel in an area of their own. Contracts see the frame in each slot.
#[derive(Drop)]
pub struct Ring {
    bytes: Vec<u8>,
    sizes: Sizes,
    planar: bool,
}

impl Model for Ring {
    ghost use Rattle.ring_memory.specs.Ring.{RingFacts};
    ghost use Rattle.ring_memory.specs.Sizes.{facts_of, IsRingMemory};

    ghost Value = { RingFacts };

    ghost view = { λ r. facts_of r.sizes r.planar r.bytes.items };

    ghost invariant = { λ r. IsRingMemory r.sizes r.bytes.items };
}

impl Ring {
    /// A ring of zero bytes for this shape, with an area for each channel where `planar`; an error only where memory
    /// is short.
    pub fn new(alloc: Global, shape: &Shape, planar: bool) -> Result<Ring, AllocError>
        requires { IsSoundShape shape.now }
        ensures sizes { IfOk result (IsMadeFor shape.now planar) }
        ensures empty { IfOk result (λ r. StandsForPuts r []) }
    {
        let sizes = Sizes {
            buffer: shape.buffer as usize,
            frame_bytes: shape.frame_bytes as usize,
            channels: shape.channels as usize,
            sample_bytes: (shape.frame_bytes / shape.channels) as usize,
        };
        let bytes = vec![in alloc; 0; sizes.buffer * sizes.frame_bytes]?;
        Ok(Ring {
            bytes,
            sizes,
            planar,
        })
    }

    /// Puts frames at the position `pos` and after it, each in its slot. The frames lie one after another, and are at
    /// most as many as the buffer holds.
    pub fn put(&mut self, pos: u64, frames: &[u8])
        requires whole { length frames.now % self.old.frame_bytes ≡ 0 }
        requires fits { length frames.now / self.old.frame_bytes ≤ self.old.buffer }
        ensures sizes { SameSizes self.old self.new }
        ensures puts { (puts : List Put) (p : ℕ) → StandsForPuts self.old puts
            → p % self.old.buffer ≡ pos % self.old.buffer
            → StandsForPuts self.new (put_at p (frames_in self.old frames.now) puts) }
    {
        let slot = (pos % self.sizes.buffer as u64) as usize;
        if self.planar {
            planar::put(&mut self.bytes, self.sizes, slot, frames);
        } else {
            interleaved::put(&mut self.bytes, self.sizes, slot, frames);
        }
    }

    /// Gets the frames that stand at the position `pos` and after it into `out`, one after another, as many as it
    /// holds and at most as many as the buffer does.
    pub fn get(&self, pos: u64, out: &mut [u8])
        requires whole { length out.old % self.now.frame_bytes ≡ 0 }
        requires fits { length out.old / self.now.frame_bytes ≤ self.now.buffer }
        ensures { (puts : List Put) (p : ℕ) → StandsForPuts self.now puts
            → p % self.now.buffer ≡ pos % self.now.buffer
            → out.new ≡ bytes_of (stood_at self.now puts p (length out.old / self.now.frame_bytes)) }
    {
        let slot = (pos % self.sizes.buffer as u64) as usize;
        if self.planar {
            planar::get(&self.bytes, self.sizes, slot, out);
        } else {
            interleaved::get(&self.bytes, self.sizes, slot, out);
        }
    }

    /// Puts `count` frames whose bytes are all `silence` at the position `pos` and after it, at most as many as the
    /// buffer holds.
    pub fn fill(&mut self, pos: u64, count: u64, silence: u8)
        requires fits { count ≤ self.old.buffer }
        ensures sizes { SameSizes self.old self.new }
        ensures puts { (puts : List Put) (p : ℕ) → StandsForPuts self.old puts
            → p % self.old.buffer ≡ pos % self.old.buffer
            → StandsForPuts self.new (put_at p (replicate count (replicate self.old.frame_bytes silence)) puts) }
    {
        let slot = (pos % self.sizes.buffer as u64) as usize;
        let frames = count as usize;
        if self.planar {
            planar::fill(&mut self.bytes, self.sizes, slot, frames, silence);
        } else {
            interleaved::fill(&mut self.bytes, self.sizes, slot, frames, silence);
        }
    }

    /// Puts the `count` frames of `io` from `first` on at the position `pos` and after it. The bytes of `io` are the
    /// samples of channel 0, then those of channel 1 and so on. At most as many frames as the buffer holds.
    pub fn put_area(&mut self, pos: u64, io: &[u8], first: u64, count: u64)
        requires whole { length io.now % self.old.frame_bytes ≡ 0 }
        requires fits { count ≤ self.old.buffer }
        requires within { first + count ≤ length io.now / self.old.frame_bytes }
        ensures sizes { SameSizes self.old self.new }
        ensures puts { (puts : List Put) (p : ℕ) → StandsForPuts self.old puts
            → p % self.old.buffer ≡ pos % self.old.buffer
            → StandsForPuts self.new (put_at p (part first count (frames_across_in self.old io.now)) puts) }
    {
        let slot = (pos % self.sizes.buffer as u64) as usize;
        let (first, count) = (first as usize, count as usize);
        if self.planar {
            planar::put_area(&mut self.bytes, self.sizes, slot, io, first, count);
        } else {
            interleaved::put_area(&mut self.bytes, self.sizes, slot, io, first, count);
        }
    }

    /// Gets the `count` frames that stand at the position `pos` and after it into the frames of `io` from `first` on.
    /// The bytes of `io` are the samples of channel 0, then those of channel 1 and so on; its other frames stay. At
    /// most as many frames as the buffer holds.
    pub fn get_area(&self, pos: u64, io: &mut [u8], first: u64, count: u64)
        requires whole { length io.old % self.now.frame_bytes ≡ 0 }
        requires fits { count ≤ self.now.buffer }
        requires within { first + count ≤ length io.old / self.now.frame_bytes }
        ensures frames { (puts : List Put) (p : ℕ) → StandsForPuts self.now puts
            → p % self.now.buffer ≡ pos % self.now.buffer
            → frames_across_in self.now io.new ≡ with_standing self.now puts p first count io.old }
        ensures bytes { (puts : List Put) (p : ℕ) → StandsForPuts self.now puts
            → p % self.now.buffer ≡ pos % self.now.buffer
            → io.new ≡ bytes_across self.now.channels (sample_bytes self.now)
            (with_standing self.now puts p first count io.old) }
    {
        let slot = (pos % self.sizes.buffer as u64) as usize;
        let (first, count) = (first as usize, count as usize);
        if self.planar {
            planar::get_area(&self.bytes, self.sizes, slot, io, first, count);
        } else {
            interleaved::get_area(&self.bytes, self.sizes, slot, io, first, count);
        }
    }

    /// The area of one channel of a ring with areas: its samples of slot 0, slot 1 and so on.
    pub fn area(&self, channel: u64) -> &[u8]
        requires areas { self.now.planar ≡ true }
        requires channel { channel < self.now.channels }
        ensures { (puts : List Put) → StandsForPuts self.now puts
            → result.now ≡ bytes_of (map (sample self.now channel) (stood_at self.now puts 0 self.now.buffer)) }
    {
        let size = self.sizes.buffer * self.sizes.sample_bytes;
        let start = channel as usize * size;
        &self.bytes[start..start + size]
    }
}
