// The indirect card.
ghost use Rattle.std.specs.Prelude.{◌≡◌, ◌≤◌, ◌<◌, ◌+◌};
ghost use Rattle.std.specs.Option.{ForSome};
ghost use Rattle.indirect_card.specs.Hardware.{IsSetUpFor};

use crate::buffer::HardwareBuffer;
use pcm_base::{Card, CardFailed, CardModel, Errno, Shape, Trigger};
use std::alloc::AllocError;

/// A card whose frames pass through a hardware buffer of 16 frames of at most 32 bytes, on to an inner card or from it
/// (`struct snd_pcm_indirect`). Each call of `Card` answers and changes what that of the inner card answers and changes.
/// It takes no memory of its own.
#[derive(Drop)]
pub struct IndirectCard<C: Card> {
    inner: C,
    buffer: HardwareBuffer,
    ghost set_up: { ForSome (C.facts inner).shape (λ s. IsSetUpFor buffer s.frame_bytes) },
}

impl<C: Card> IndirectCard<C> {
    ghost use Rattle.std.specs.Prelude.{◌≡◌, ◌<◌, [], IsNone, IsSome, slice_index_or};
    ghost use Rattle.indirect_card.specs.Hardware.{cleared};
    ghost use Rattle.indirect_card.specs.IndirectCard.{inner_of, hardware_of, facts_of};

    /// An indirect card over a card that was never set up.
    pub fn new(inner: C) -> IndirectCard<C>
        requires { IsNone (C.facts inner).shape }
        ensures inner { inner_of result ≡ inner }
        ensures hardware { hardware_of result ≡ cleared 0 }
    {
        IndirectCard {
            inner,
            buffer: HardwareBuffer::of(0),
        }
    }

    /// The card that the frames pass on to, or come from.
    pub fn inner(&self) -> &C
        ensures { result.now ≡ inner_of self.now }
    {
        &self.inner
    }

    /// How many frames have passed through the buffer since the last set-up, modulo 2^64.
    pub fn passed(&self) -> u64
        ensures { result ≡ (hardware_of self.now).passed }
    {
        self.buffer.passed()
    }

    /// The frame in a slot of the buffer, as bytes.
    pub fn frame_at(&self, slot: u64) -> &[u8]
        requires set_up { IsSome (facts_of self.now).shape }
        requires slot { slot < 16 }
        ensures { result.now ≡ slice_index_or (hardware_of self.now).slots slot [] }
    {
        self.buffer.frame_at(slot)
    }
}

impl<C: Card> Card for IndirectCard<C> {
    ghost use Rattle.std.specs.Prelude.{◌≡◌, ◌<◌, ◌≤◌, ◌+◌, ◌&&◌, length, ◌↔◌, IsOk, IsSome, OnOk, OnErr, IfErr, IfSome, is_err, false};
    ghost use Rattle.std.specs.Option.{ForSome, ForNone};
    ghost use Rattle.pcm_base.specs.Causes.{HasCause};
    ghost use Rattle.pcm_base.specs.Shape.{IsSoundShape, AreFrames};
    ghost use Rattle.pcm_base.specs.CardFacts.{consults, first_set, triggered, tripped, undone, configured, rewound_card, took, gave, given_bytes, loaded, planned, cleared as cleared_plan};
    ghost use Rattle.indirect_card.specs.Hardware.{cleared, frames_in, after_passing};
    ghost use Rattle.indirect_card.specs.IndirectCard.{hardware_of, facts_of, room_of, faults_of};

    ghost facts = { λ c. C.facts c.inner };

    ghost room = { λ c. C.room c.inner };

    ghost faults = { λ c. C.faults c.inner };

    fn model(&self) -> &CardModel {
        self.inner.model()
    }

    /// As the inner card. The buffer stays.
    fn trigger(&mut self, t: Trigger) -> Result<(), CardFailed>
        ensures ok { OnOk result (facts_of self.new ≡ triggered (facts_of self.old) t) }
        ensures err { OnErr result (facts_of self.new ≡ tripped (facts_of self.old) t) }
        ensures plan { IfSome (facts_of self.old).plan (λ plan. is_err result ≡ (consults t && first_set plan)) }
        ensures never { consults t ≡ false → IsOk result }
        ensures cause { HasCause (faults_of self.old) (faults_of self.new) result }
        ensures hardware { hardware_of self.new ≡ hardware_of self.old }
    {
        self.inner.trigger(t)
    }

    /// As the inner card. The buffer stays.
    fn undo(&mut self, t: Trigger)
        ensures after { facts_of self.new ≡ undone (facts_of self.old) t }
        ensures kept { faults_of self.new ≡ faults_of self.old }
        ensures hardware { hardware_of self.new ≡ hardware_of self.old }
    {
        self.inner.undo(t);
    }

    fn runs(&self) -> bool {
        self.inner.runs()
    }

    fn position(&self) -> u64 {
        self.inner.position()
    }

    /// As the inner card. No frame has passed, and every slot holds the zero frame.
    fn set_up(&mut self, shape: &Shape)
        requires { IsSoundShape shape.now }
        ensures after { facts_of self.new ≡ configured (facts_of self.old) shape.now }
        ensures kept { faults_of self.new ≡ faults_of self.old }
        ensures hardware { hardware_of self.new ≡ cleared shape.now.frame_bytes }
    {
        self.inner.set_up(shape);
        self.buffer = HardwareBuffer::of(shape.frame_bytes);
    }

    /// As the inner card. The buffer stays.
    fn to_start(&mut self)
        ensures after { facts_of self.new ≡ rewound_card (facts_of self.old) }
        ensures kept { faults_of self.new ≡ faults_of self.old }
        ensures hardware { hardware_of self.new ≡ hardware_of self.old }
    {
        self.inner.to_start();
    }

    /// As the inner card. The buffer stays.
    fn reserve(&mut self, bytes: u64) -> Result<(), AllocError>
        ensures same { facts_of self.new ≡ facts_of self.old }
        ensures room { OnOk result (bytes ≤ room_of self.new) }
        ensures err { OnErr result (room_of self.new ≡ room_of self.old) }
        ensures kept { faults_of self.new ≡ faults_of self.old }
        ensures hardware { hardware_of self.new ≡ hardware_of self.old }
    {
        self.inner.reserve(bytes)
    }

    /// As the inner card, which gets the frames out of the buffer: they pass through it.
    fn take(&mut self, frames: &[u8])
        requires set_up { IsSome (facts_of self.old).shape }
        requires whole { ForSome (facts_of self.old).shape (λ s. AreFrames s frames.now) }
        requires room { length frames.now ≤ room_of self.old }
        ensures after { IfSome (facts_of self.old).shape (λ s. facts_of self.new ≡ took (facts_of self.old) s frames.now) }
        ensures room { room_of self.old ≤ room_of self.new + length frames.now }
        ensures kept { faults_of self.new ≡ faults_of self.old }
        ensures hardware { hardware_of self.new ≡ after_passing (hardware_of self.old) (frames_in (hardware_of self.old) frames.now) }
    {
        self.buffer.take(&mut self.inner, frames);
    }

    /// As the inner card, which gives the frames into the buffer: they pass through it.
    fn give_into(&mut self, out: &mut [u8])
        requires set_up { IsSome (facts_of self.old).shape }
        requires whole { ForSome (facts_of self.old).shape (λ s. AreFrames s out.old) }
        ensures given { out.new ≡ given_bytes (length out.old) (facts_of self.old).to_give }
        ensures after { IfSome (facts_of self.old).shape (λ s. facts_of self.new ≡ gave (facts_of self.old) s (length out.old)) }
        ensures kept { faults_of self.new ≡ faults_of self.old }
        ensures hardware { hardware_of self.new ≡ after_passing (hardware_of self.old) (frames_in (hardware_of self.old) out.new) }
    {
        self.buffer.give_into(&mut self.inner, out);
    }

    /// As the inner card. The buffer stays.
    fn give(&mut self, frames: &[u8]) -> Result<(), AllocError>
        ensures ok { OnOk result (facts_of self.new ≡ loaded (facts_of self.old) frames.now) }
        ensures err { OnErr result (facts_of self.new ≡ facts_of self.old) }
        ensures kept { faults_of self.new ≡ faults_of self.old }
        ensures hardware { hardware_of self.new ≡ hardware_of self.old }
    {
        self.inner.give(frames)
    }

    fn taken(&self) -> &[u8] {
        self.inner.taken()
    }

    /// As the inner card. The buffer stays.
    fn fail_at(&mut self, k: u64) -> Result<(), Errno>
        ensures range { IsOk result ↔ ((1 ≤ k) × (k ≤ 64)) }
        ensures einval { IfErr result (λ e. e ≡ Errno.Einval) }
        ensures err { OnErr result (facts_of self.new ≡ facts_of self.old) }
        ensures ok { OnOk result (facts_of self.new ≡ planned (facts_of self.old) k) }
        ensures kept { faults_of self.new ≡ faults_of self.old }
        ensures hardware { hardware_of self.new ≡ hardware_of self.old }
    {
        self.inner.fail_at(k)
    }

    /// As the inner card. The buffer stays.
    fn clear_plan(&mut self)
        ensures after { facts_of self.new ≡ cleared_plan (facts_of self.old) }
        ensures kept { faults_of self.new ≡ faults_of self.old }
        ensures hardware { hardware_of self.new ≡ hardware_of self.old }
    {
        self.inner.clear_plan();
    }
}
