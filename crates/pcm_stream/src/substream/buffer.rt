// What clients get out of the buffer, and what they store in it beside their writes.
ghost use Rattle.std.specs.Prelude.{◌≡◌, ◌≤◌, ◌+◌, ◌*◌, ◌/◌, ◌%◌, ℕ, List, IsSome, length};
ghost use Rattle.std.specs.Option.{ForSome};
ghost use Rattle.pcm_base.specs.Shape.{AreFrames, count_of};
ghost use Rattle.pcm_base.specs.model.Frame.{bytes_of};
ghost use Rattle.pcm_base.specs.model.PointerCalls.{on_by};
ghost use Rattle.pcm_base.specs.model.Replay.{bytes_by};
ghost use Rattle.pcm_base.specs.model.Standing.{Put};
ghost use Rattle.pcm_base.specs.model.Stream.{Stream, avail};
ghost use Rattle.pcm_base.specs.model.Transfer.{frames_by, frames_in};
ghost use Rattle.pcm_stream.specs.Buffer.{frames_read, loaded_from, stored_at};
ghost use Rattle.ring_memory.specs.Ring.{StandsForPuts, stood_at};
ghost use Rattle.ring_memory.specs.Round.{over};

use super::Substream;
use crate::runtime::Runtime;
use boundary_ptr::add;
use pcm_base::{Card, Layout};
use ring_memory::Ring;

// Gets the `count` frames that stand at a position into those of `io` from `first` on, which lie one after another.
#[tactic(auto, using(crate::proofs::LayoutLemmas::part_fits))]
fn get_part(ring: &Ring, position: u64, io: &mut [u8], first: u64, count: u64, frame_bytes: u64)
    requires frame { 1 ≤ frame_bytes }
    requires sized { ring.now.frame_bytes ≡ frame_bytes }
    requires within { first + count ≤ length io.old / frame_bytes }
    requires fits { count ≤ ring.now.buffer }
    ensures { (puts : List Put) (p : ℕ) → StandsForPuts ring.now puts → p % ring.now.buffer ≡ position % ring.now.buffer
        → io.new ≡ over (first * frame_bytes) (bytes_of (stood_at ring.now puts p count)) io.old }
{
    let start = (first * frame_bytes) as usize;
    let size = (count * frame_bytes) as usize;
    ring.get(position, &mut io[start..start + size]);
}

impl Runtime {
    ghost use Rattle.pcm_stream.specs.Runs.{RunsFor};

    // Gets the `count` frames that stand at the application pointer into those of `io` from `first` on. The pointer stays.
    fn show(&self, layout: Layout, io: &mut [u8], first: u64, count: u64)
        requires whole { AreFrames self.now.shape io.old }
        requires within { first + count ≤ count_of self.now.shape io.old }
        requires fits { count ≤ self.now.shape.buffer }
        ensures frames { (s : Stream) → RunsFor self.now s → frames_by layout s io.new ≡ frames_read layout s first count io.old }
        ensures bytes { (s : Stream) → RunsFor self.now s → io.new ≡ bytes_by layout s (frames_read layout s first count io.old) }
    {
        match layout {
            Layout::Interleaved => get_part(
                &self.ring,
                self.appl,
                io,
                first,
                count,
                self.shape.frame_bytes,
            ),
            Layout::Planar => self.ring.get_area(self.appl, io, first, count),
        }
    }

    // Gets these frames, and moves the application pointer on by them.
    fn get(&mut self, layout: Layout, io: &mut [u8], first: u64, count: u64)
        requires whole { AreFrames self.old.shape io.old }
        requires within { first + count ≤ count_of self.old.shape io.old }
        requires fits { count ≤ self.old.shape.buffer }
        ensures shape { self.new.shape ≡ self.old.shape }
        ensures moved { (s : Stream) → RunsFor self.old s → RunsFor self.new (on_by count s) }
        ensures frames { (s : Stream) → RunsFor self.old s → frames_by layout s io.new ≡ frames_read layout s first count io.old }
        ensures bytes { (s : Stream) → RunsFor self.old s → io.new ≡ bytes_by layout s (frames_read layout s first count io.old) }
    {
        self.show(layout, io, first, count);
        self.appl = add(&self.shape, self.appl, count);
    }

    // Puts these frames at a slot and after it.
    fn store(&mut self, slot: u64, frames: &[u8])
        requires whole { AreFrames self.old.shape frames.now }
        requires fits { count_of self.old.shape frames.now ≤ self.old.shape.buffer }
        ensures shape { self.new.shape ≡ self.old.shape }
        ensures stored { (s : Stream) → RunsFor self.old s → RunsFor self.new (stored_at slot (frames_in s frames.now) s) }
    {
        self.ring.put(slot, frames);
    }

    // Gets the frames that stand at a slot and after it.
    fn load(&self, slot: u64, out: &mut [u8])
        requires whole { AreFrames self.now.shape out.old }
        requires fits { count_of self.now.shape out.old ≤ self.now.shape.buffer }
        ensures { (s : Stream) → RunsFor self.now s → out.new ≡ bytes_of (loaded_from slot (length out.old / s.setup.frame_bytes) s) }
    {
        self.ring.get(slot, out);
    }
}

impl<C: Card> Substream<C> {
    ghost use Rattle.pcm_stream.specs.Kept.{KeepsSizes};
    ghost use Rattle.pcm_stream.specs.StandsFor.{StandsFor, shape_in};

    /// Reads the `count` frames at the application position into the frames of `io` from `first` on, and moves the
    /// position on by them. On capture; at most as many as are available and as the buffer holds. `io` holds whole frames,
    /// one after another, or the samples of channel 0, then those of channel 1 and so on; its other frames stay
    /// (one copy in the loop of `__snd_pcm_lib_xfer`).
    pub fn get_frames(&mut self, layout: Layout, io: &mut [u8], first: u64, count: u64)
        requires shape { IsSome (shape_in self.old) }
        requires whole { ForSome (shape_in self.old) (λ s. AreFrames s io.old) }
        requires within { ForSome (shape_in self.old) (λ s. first + count ≤ count_of s io.old) }
        requires fits { ForSome (shape_in self.old) (λ s. count ≤ s.buffer) }
        ensures moved { (s : Stream) → StandsFor self.old s → count ≤ avail s → StandsFor self.new (on_by count s) }
        ensures frames { (s : Stream) → StandsFor self.old s → frames_by layout s io.new ≡ frames_read layout s first count io.old }
        ensures bytes { (s : Stream) → StandsFor self.old s → io.new ≡ bytes_by layout s (frames_read layout s first count io.old) }
        ensures keeps { KeepsSizes self.old self.new }
    {
        if let Some(runtime) = &mut self.runtime {
            runtime.get(layout, io, first, count);
        }
    }

    /// Puts frames, which lie one after another, at a slot of the buffer and after it. They reach at most to its end. What
    /// a client that mapped the buffer does in memory; as a call it is this project's own.
    pub fn store_at(&mut self, slot: u64, frames: &[u8])
        requires shape { IsSome (shape_in self.old) }
        requires whole { ForSome (shape_in self.old) (λ s. AreFrames s frames.now) }
        requires within { ForSome (shape_in self.old) (λ s. slot + count_of s frames.now ≤ s.buffer) }
        ensures stored { (s : Stream) → StandsFor self.old s → StandsFor self.new (stored_at slot (frames_in s frames.now) s) }
        ensures keeps { KeepsSizes self.old self.new }
    {
        if let Some(runtime) = &mut self.runtime {
            runtime.store(slot, frames);
        }
    }

    /// Gets the frames that stand at a slot of the buffer and after it, one after another, as many as `out` holds. They
    /// reach at most to the buffer's end. What a client that mapped the buffer sees in memory; as a call it is this
    /// project's own.
    pub fn load_at(&self, slot: u64, out: &mut [u8])
        requires shape { IsSome (shape_in self.now) }
        requires whole { ForSome (shape_in self.now) (λ s. AreFrames s out.old) }
        requires within { ForSome (shape_in self.now) (λ s. slot + count_of s out.old ≤ s.buffer) }
        ensures { (s : Stream) → StandsFor self.now s → out.new ≡ bytes_of (loaded_from slot (length out.old / s.setup.frame_bytes) s) }
    {
        if let Some(runtime) = &self.runtime {
            runtime.load(slot, out);
        }
    }
}
