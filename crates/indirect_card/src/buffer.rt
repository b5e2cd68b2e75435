// The hardware buffer, and how frames pass through it.
ghost use Rattle.std.specs.Prelude.{◌≡◌, ◌≤◌, ◌<◌, ◌+◌, ◌*◌, ◌%◌, [], length, IsSome, slice_index_or};
ghost use Rattle.std.specs.Option.{ForSome};
ghost use Rattle.pcm_base.specs.Shape.{AreFrames};
ghost use Rattle.pcm_base.specs.CardFacts.{took, gave, given_bytes};
ghost use Rattle.indirect_card.specs.Hardware.{Hardware, IsSetUpFor, cleared, frames_in, after_passing, bytes_before_end};

use pcm_base::Card;
use std::marker::Model;

const SLOTS: usize = 16;

const MOST_BYTES: usize = 512;

/// A hardware buffer of 16 frames of at most 32 bytes, and how many frames have passed through it, modulo 2^64.
/// Contracts see the frame in each slot.
#[derive(Drop)]
pub(crate) struct HardwareBuffer {
    bytes: [u8; MOST_BYTES],
    frame_bytes: usize,
    passed: u64,
}

impl Model for HardwareBuffer {
    ghost use Rattle.indirect_card.specs.Hardware.{Hardware};

    ghost Value = { Hardware };

    ghost use Rattle.indirect_card.specs.Buffer.{hardware_in, HasRoom};

    ghost view = { hardware_in };

    ghost invariant = { HasRoom };
}

impl HardwareBuffer {
    /// A buffer of zero frames of so many bytes; no frame has passed.
    pub(crate) fn of(frame_bytes: u64) -> HardwareBuffer
        requires { frame_bytes ≤ 32 }
        ensures { result ≡ cleared frame_bytes }
    {
        HardwareBuffer {
            bytes: [0; MOST_BYTES],
            frame_bytes: frame_bytes as usize,
            passed: 0,
        }
    }

    /// How many frames have passed.
    pub(crate) fn passed(&self) -> u64
        ensures { result ≡ self.now.passed }
    {
        self.passed
    }

    /// The frame in a slot.
    pub(crate) fn frame_at(&self, slot: u64) -> &[u8]
        requires { slot < 16 }
        ensures { result.now ≡ slice_index_or self.now.slots slot [] }
    {
        let start = slot as usize * self.frame_bytes;
        &self.bytes[start..start + self.frame_bytes]
    }

    /// The bytes from the next slot up to the buffer's end.
    pub(crate) fn bytes_before_end(&self) -> usize
        ensures { result ≡ bytes_before_end self.now }
    {
        (SLOTS - (self.passed % SLOTS as u64) as usize) * self.frame_bytes
    }

    /// Copies a piece into the buffer, and hands it to the card from there.
    pub(crate) fn take_piece<C: Card>(&mut self, inner: &mut C, piece: &[u8])
        requires some { 1 ≤ self.old.frame_bytes }
        requires fits { length piece.now ≤ bytes_before_end self.old }
        requires frames { length piece.now % self.old.frame_bytes ≡ 0 }
        requires set_up { IsSome (C.facts inner.old).shape }
        requires whole { ForSome (C.facts inner.old).shape (λ s. AreFrames s piece.now) }
        requires room { length piece.now ≤ C.room inner.old }
        ensures passed { self.new ≡ after_passing self.old (frames_in self.old piece.now) }
        ensures after { ForSome (C.facts inner.old).shape (λ s. C.facts inner.new ≡ took (C.facts inner.old) s piece.now) }
        ensures room { C.room inner.old ≤ C.room inner.new + length piece.now }
        ensures kept { C.faults inner.new ≡ C.faults inner.old }
    {
        let start = (self.passed % SLOTS as u64) as usize * self.frame_bytes;
        let held = &mut self.bytes[start..start + piece.len()];
        held.copy_from_slice(piece);
        inner.take(held);
        self.passed = self
            .passed
            .wrapping_add((piece.len() / self.frame_bytes) as u64);
    }

    /// Lets the card give a piece into the buffer, and copies it out from there.
    pub(crate) fn give_piece<C: Card>(&mut self, inner: &mut C, out: &mut [u8])
        requires some { 1 ≤ self.old.frame_bytes }
        requires fits { length out.old ≤ bytes_before_end self.old }
        requires frames { length out.old % self.old.frame_bytes ≡ 0 }
        requires set_up { IsSome (C.facts inner.old).shape }
        requires whole { ForSome (C.facts inner.old).shape (λ s. AreFrames s out.old) }
        ensures passed { self.new ≡ after_passing self.old (frames_in self.old out.new) }
        ensures given { out.new ≡ given_bytes (length out.old) (C.facts inner.old).to_give }
        ensures after { ForSome (C.facts inner.old).shape (λ s. C.facts inner.new ≡ gave (C.facts inner.old) s (length out.old)) }
        ensures kept { C.faults inner.new ≡ C.faults inner.old }
    {
        let start = (self.passed % SLOTS as u64) as usize * self.frame_bytes;
        let held = &mut self.bytes[start..start + out.len()];
        inner.give_into(held);
        out.copy_from_slice(held);
        self.passed = self
            .passed
            .wrapping_add((out.len() / self.frame_bytes) as u64);
    }

    /// Passes frames on to the card, in pieces that end at the buffer's end.
    pub(crate) fn take<C: Card>(&mut self, inner: &mut C, frames: &[u8])
        requires set_up { IsSome (C.facts inner.old).shape }
        requires width { ForSome (C.facts inner.old).shape (λ s. IsSetUpFor self.old s.frame_bytes) }
        requires whole { ForSome (C.facts inner.old).shape (λ s. AreFrames s frames.now) }
        requires room { length frames.now ≤ C.room inner.old }
        ensures passed { self.new ≡ after_passing self.old (frames_in self.old frames.now) }
        ensures after { ForSome (C.facts inner.old).shape (λ s. C.facts inner.new ≡ took (C.facts inner.old) s frames.now) }
        ensures room { C.room inner.old ≤ C.room inner.new + length frames.now }
        ensures kept { C.faults inner.new ≡ C.faults inner.old }
    {
        let mut rest = frames;
        while rest.len() > self.bytes_before_end() {
            let (piece, behind) = rest.split_at(self.bytes_before_end());
            self.take_piece(inner, piece);
            rest = behind;
        }
        self.take_piece(inner, rest);
    }

    /// Lets the card give the next frames, in pieces that end at the buffer's end.
    pub(crate) fn give_into<C: Card>(&mut self, inner: &mut C, out: &mut [u8])
        requires set_up { IsSome (C.facts inner.old).shape }
        requires width { ForSome (C.facts inner.old).shape (λ s. IsSetUpFor self.old s.frame_bytes) }
        requires whole { ForSome (C.facts inner.old).shape (λ s. AreFrames s out.old) }
        ensures passed { self.new ≡ after_passing self.old (frames_in self.old out.new) }
        ensures given { out.new ≡ given_bytes (length out.old) (C.facts inner.old).to_give }
        ensures after { ForSome (C.facts inner.old).shape (λ s. C.facts inner.new ≡ gave (C.facts inner.old) s (length out.old)) }
        ensures kept { C.faults inner.new ≡ C.faults inner.old }
    {
        let mut done = 0;
        while out.len() - done > self.bytes_before_end() {
            let end = done + self.bytes_before_end();
            self.give_piece(inner, &mut out[done..end]);
            done = end;
        }
        self.give_piece(inner, &mut out[done..]);
    }
}
