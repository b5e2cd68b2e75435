// What an accepted configuration sets up, until it is freed (the part of `struct snd_pcm_runtime` that hw_params fills). What a
// substream's call does to it stands beside that call, in `substream/`.
ghost use Rattle.std.specs.Prelude.{◌≡◌, ◌≤◌, ◌<◌, ◌+◌, ◌-◌, ◌*◌, ◌%◌, ◌/◌, ◌^◌, ℕ, length, vec_len, false, IfOk, IfSome, IsSome, Some, List, slice_range, take, drop};
ghost use Rattle.std.specs.Option.{ForSome};
ghost use Rattle.pcm_base.specs.CardFacts.{gave, given_bytes};
ghost use Rattle.pcm_base.specs.Shape.{IsSoundShape, AreFrames, count_of};
ghost use Rattle.pcm_base.specs.declared.state.Dir.TheVariants.{Playback};
ghost use Rattle.pcm_base.specs.model.Software.{refuses_sw};
ghost use Rattle.pcm_base.specs.model.Frame.{Frame, frames_of, bytes_of};
ghost use Rattle.pcm_base.specs.model.Stream.{Stream, avail, head};
ghost use Rattle.pcm_base.specs.model.Sound.{IsPlaced};
ghost use Rattle.pcm_base.specs.model.Update.{reported, lap, fill};
ghost use Rattle.pcm_base.specs.model.Movement.{taken_by};
ghost use Rattle.pcm_base.specs.model.Standing.{Put, put_at, standing_at};
ghost use Rattle.ring_memory.specs.Ring.{StandsForPuts, zero_frame as ring_zero};
ghost use Rattle.pcm_base.specs.model.Transfer.{frames_by, put_next};
ghost use Rattle.pcm_stream.specs.Wide.{AreWide};
ghost use Rattle.hw_update.specs.HwPtr.{IsBased};
ghost use Rattle.pcm_stream.specs.Sized.{IsSized};

use boundary_ptr::{add, avail_capture, avail_play};
use hw_update::{HwPtr, advance};
use pcm_base::{Access, Card, Config, Dir, Layout, Shape, SwParams};
use pcm_format::silence_of;
use ring_memory::Ring;
use silence_fill::plan;
use std::alloc::{AllocError, Global};

/// The configuration, the software parameters, the buffer and the pointers, all but `mappings` in frames. `piece` is the
/// memory through which frames pass between the buffer and the card; `filled` tells how far the last fill's end lies ahead
/// of the hardware pointer.
#[derive(Drop)]
pub struct Runtime {
    pub config: Config,
    pub shape: Shape,
    pub sw: SwParams,
    pub mappings: u64,
    pub ring: Ring,
    pub piece: Vec<u8>,
    pub ptr: HwPtr,
    pub appl: u64,
    pub filled: u64,
    pub moved: u64,
    ghost sound: { IsSoundShape shape },
    ghost accepted: { refuses_sw shape.buffer shape.boundary sw ≡ false },
    ghost sized: { IsSized shape ring },
    ghost room: { vec_len piece ≡ shape.buffer * shape.frame_bytes },
    ghost based: { IsBased shape ptr },
    ghost shown: { ptr.hw < shape.boundary },
    ghost below: { appl < shape.boundary },
    ghost near: { filled ≤ shape.buffer },
    ghost few: { mappings ≤ 65535 },
}

impl Runtime {
    ghost use Rattle.pcm_stream.specs.Runs.{RunsFor, Keeps, Known, known, with_puts, with_count, IsNewRuntime, avail_in};

    /// A buffer of zero bytes, pointers at 0 and the software parameters of the start.
    pub fn new(alloc: Global, config: &Config, shape: &Shape) -> Result<Runtime, AllocError>
        requires { IsSoundShape shape.now }
        ensures { IfOk result (λ r. IsNewRuntime config.now shape.now r) }
    {
        let planar = matches!(
            config.access,
            Access::RwNoninterleaved | Access::MmapNoninterleaved
        );
        let ring = Ring::new(alloc, shape, planar)?;
        let piece = vec![in alloc; 0u8; (shape.buffer * shape.frame_bytes) as usize]?;
        Ok(Runtime {
            config: *config,
            shape: *shape,
            sw: first_sw(shape),
            mappings: 0,
            ring,
            piece,
            ptr: HwPtr { base: 0, hw: 0 },
            appl: 0,
            filled: 0,
            moved: 0,
        })
    }

    /// The frames that a client may move.
    pub fn avail(&self, dir: Dir) -> u64
        ensures value { result ≡ avail_in dir self.now }
        ensures bound { result < 2 ^ 36 }
        ensures model { (s : Stream) → s.dir ≡ dir → RunsFor self.now s → IsPlaced s → result ≡ avail s }
    {
        match dir {
            Dir::Playback => avail_play(&self.shape, self.ptr.hw, self.appl),
            Dir::Capture => avail_capture(&self.shape, self.ptr.hw, self.appl),
        }
    }

    /// The hardware pointer moves to where the card stands.
    pub fn report(&mut self, position: u64)
        requires { position < self.old.shape.buffer }
        ensures shape { self.new.shape ≡ self.old.shape }
        ensures reported { (s : Stream) → position ≡ s.at.card % self.old.shape.buffer → RunsFor self.old s → IsPlaced s → RunsFor self.new (lap (reported s)) }
    {
        let gone = advance(&mut self.ptr, &self.shape, position);
        self.filled = self.filled.saturating_sub(gone);
    }

    /// Puts silence ahead of what a playback client has written.
    pub fn fill(&mut self)
        ensures shape { self.new.shape ≡ self.old.shape }
        ensures filled { (s : Stream) → s.dir ≡ Playback → RunsFor self.old s → IsPlaced s → RunsFor self.new (fill s) }
    {
        let queued = self.shape.buffer.saturating_sub(self.avail(Dir::Playback));
        if let Some((start, count)) = plan(&self.shape, &self.sw, queued, self.filled) {
            let silence = silence_of(self.config.format);
            self.ring.fill(self.ptr.hw + start, count, silence);
            self.filled = start + count;
        }
    }

    /// Puts the frames `first` to `first + count - 1` of `io` at the application pointer, which moves on by them.
    pub fn put(&mut self, layout: Layout, io: &[u8], first: u64, count: u64)
        requires whole { AreFrames self.old.shape io.now }
        requires within { first + count ≤ count_of self.old.shape io.now }
        requires fits { count ≤ self.old.shape.buffer }
        ensures shape { self.new.shape ≡ self.old.shape }
        ensures put { (s : Stream) → RunsFor self.old s → RunsFor self.new (put_next (take count (drop first (frames_by layout s io.now))) s) }
    {
        self.place(layout, io, first, count);
        self.appl = add(&self.shape, self.appl, count);
    }

    // Puts these frames at the application pointer, which stays.
    fn place(&mut self, layout: Layout, io: &[u8], first: u64, count: u64)
        requires whole { AreFrames self.old.shape io.now }
        requires within { first + count ≤ count_of self.old.shape io.now }
        requires fits { count ≤ self.old.shape.buffer }
        ensures shape { self.new.shape ≡ self.old.shape }
        ensures put { (s : Stream) → RunsFor self.old s
            → Keeps self.new (with_puts (put_at s.at.appl (take count (drop first (frames_by layout s io.now))) s.puts) (known s)) }
    {
        match layout {
            Layout::Interleaved => {
                let frames = frames_from(io, first, count, self.shape.frame_bytes);
                self.ring.put(self.appl, frames);
            }
            Layout::Planar => self.ring.put_area(self.appl, io, first, count),
        }
    }

    /// How many frames the card has moved since the hardware pointer was reported.
    pub fn unreported(&self, position: u64) -> u64
        requires { position < self.now.shape.buffer }
        ensures below { result < self.now.shape.buffer }
        ensures model { (s : Stream) → position ≡ s.at.card % self.now.shape.buffer → RunsFor self.now s → IsPlaced s → result ≡ s.at.card - s.at.hw }
    {
        let slot = self.ptr.hw - self.ptr.base;
        if position < slot {
            position + self.shape.buffer - slot
        } else {
            position - slot
        }
    }

    /// Reads the `count` frames that stand at the card's position into the front of `piece`.
    pub fn read(&mut self, position: u64, count: u64)
        requires position { position < self.old.shape.buffer }
        requires count { count ≤ self.old.shape.buffer }
        ensures shape { self.new.shape ≡ self.old.shape }
        ensures same { (s : Stream) → RunsFor self.old s → RunsFor self.new s }
        ensures frames { (s : Stream) → position ≡ s.at.card % self.old.shape.buffer → RunsFor self.old s
            → take (count * self.old.shape.frame_bytes) self.new.piece.items ≡ bytes_of (taken_by count s) }
    {
        let size = (count * self.shape.frame_bytes) as usize;
        read_front(&self.ring, position, size, &mut self.piece);
    }

    /// The card gives its next `count` frames into the front of `piece`.
    pub fn receive<C: Card>(&mut self, card: &mut C, count: u64)
        requires count { count ≤ self.old.shape.buffer }
        requires set_up { (C.facts card.old).shape ≡ Some self.old.shape }
        ensures shape { self.new.shape ≡ self.old.shape }
        ensures same { (s : Stream) → RunsFor self.old s → RunsFor self.new s }
        ensures given { take (count * self.old.shape.frame_bytes) self.new.piece.items ≡ given_bytes (count * self.old.shape.frame_bytes) (C.facts card.old).to_give }
        ensures after { C.facts card.new ≡ gave (C.facts card.old) self.old.shape (count * self.old.shape.frame_bytes) }
        ensures kept { C.faults card.new ≡ C.faults card.old }
    {
        let size = (count * self.shape.frame_bytes) as usize;
        give_front(card, size, &mut self.piece);
    }

    /// Puts the `count` frames at the front of `piece` where the card stands.
    pub fn write(&mut self, position: u64, count: u64)
        requires position { position < self.old.shape.buffer }
        requires count { count ≤ self.old.shape.buffer }
        ensures shape { self.new.shape ≡ self.old.shape }
        ensures put { (s : Stream) (fs : List Frame) → position ≡ s.at.card % self.old.shape.buffer → RunsFor self.old s
            → length fs ≡ count → AreWide self.old.shape.frame_bytes fs → take (count * self.old.shape.frame_bytes) self.old.piece.items ≡ bytes_of fs
            → Keeps self.new (with_puts (put_at s.at.card fs s.puts) (known s)) }
    {
        let size = (count * self.shape.frame_bytes) as usize;
        self.ring.put(position, &self.piece[..size]);
    }

    /// Counts the frames that the card moved.
    pub fn count(&mut self, count: u64)
        ensures shape { self.new.shape ≡ self.old.shape }
        ensures counted { (s : Known) → Keeps self.old s → Keeps self.new (with_count (s.moved + count) s) }
    {
        self.moved = self.moved.saturating_add(count);
    }
}

// The frames `first` to `first + count - 1` of bytes that hold frame after frame.
#[tactic(auto, using(crate::proofs::LayoutLemmas::part_fits))]
fn frames_from(io: &[u8], first: u64, count: u64, frame_bytes: u64) -> &[u8]
    requires within { first + count ≤ length io.now / frame_bytes }
    ensures size { length result.now ≡ count * frame_bytes }
    ensures frames { frames_of count frame_bytes result.now ≡ take count (drop first (frames_of (length io.now / frame_bytes) frame_bytes io.now)) }
{
    let start = (first * frame_bytes) as usize;
    let size = (count * frame_bytes) as usize;
    &io[start..start + size]
}

// Reads the frames that stand at a position into the first `size` bytes of `piece`.
fn read_front(ring: &Ring, position: u64, size: usize, piece: &mut [u8])
    requires within { size ≤ length piece.old }
    requires whole { size % ring.now.frame_bytes ≡ 0 }
    requires fits { size / ring.now.frame_bytes ≤ ring.now.buffer }
    ensures { (puts : List Put) (p : ℕ) → StandsForPuts ring.now puts → p % ring.now.buffer ≡ position % ring.now.buffer
        → take size piece.new ≡ bytes_of (standing_at puts ring.now.buffer p (size / ring.now.frame_bytes) (ring_zero ring.now)) }
{
    ring.get(position, &mut piece[..size]);
}

// The card gives its next frames into the first `size` bytes of `piece`.
fn give_front<C: Card>(card: &mut C, size: usize, piece: &mut [u8])
    requires within { size ≤ length piece.old }
    requires set_up { IsSome (C.facts card.old).shape }
    requires whole { ForSome (C.facts card.old).shape (λ s. size % s.frame_bytes ≡ 0) }
    ensures given { take size piece.new ≡ given_bytes size (C.facts card.old).to_give }
    ensures after { IfSome (C.facts card.old).shape (λ s. C.facts card.new ≡ gave (C.facts card.old) s size) }
    ensures kept { C.faults card.new ≡ C.faults card.old }
{
    card.give_into(&mut piece[..size]);
}

// The software parameters that an accepted configuration starts with.
fn first_sw(shape: &Shape) -> SwParams
    requires { IsSoundShape shape.now }
    ensures value { result ≡ record { avail_min = shape.now.period; start_threshold = 1; stop_threshold = shape.now.buffer; silence_threshold = 0; silence_size = 0 } }
    ensures accepted { refuses_sw shape.now.buffer shape.now.boundary result ≡ false }
{
    SwParams {
        avail_min: shape.period,
        start_threshold: 1,
        stop_threshold: shape.buffer,
        silence_threshold: 0,
        silence_size: 0,
    }
}
