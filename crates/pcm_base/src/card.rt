// A card as the core sees it.
ghost use Rattle.std.specs.Prelude.{◌≡◌, ◌<◌, ◌≤◌, ◌+◌, ◌&&◌, ℕ, length, ◌↔◌, IsOk, IsSome, OnOk, OnErr, IfErr, IfSome, is_err, false};
ghost use Rattle.std.specs.Option.{ForSome, ForNone};
ghost use Rattle.pcm_base.specs.Causes.{HasCause};
ghost use Rattle.pcm_base.specs.Shape.{IsSoundShape, AreFrames};
ghost use Rattle.pcm_base.specs.CardFacts.{CardFacts, HasChannels, consults, first_set, triggered, tripped, undone, configured, rewound_card, took, gave, given_bytes, loaded, planned, cleared};

use crate::{CardModel, Errno, Shape, Trigger};
use std::alloc::AllocError;

/// A call on the outside that did not succeed, and that the outside counted.
#[derive(Clone, Copy, Debug, PartialEq, Eq)]
pub struct Failed;

/// A trigger that the card did not make, and that it counted.
#[derive(Clone, Copy, Debug, PartialEq, Eq)]
pub struct CardFailed;

/// A card that takes a playback client's frames or gives a capture client's (the operations of `struct snd_pcm_ops`).
/// Its position is counted modulo the buffer; it has a count of the triggers that failed. That it is told of its
/// fault plan, its frames to give and the room for frames taken is this project's own. No call but `reserve` and
/// `give` takes memory.
pub trait Card {
    /// What the card is.
    ghost facts: { Self → CardFacts };

    /// The bytes for which it has room.
    ghost room: { Self → ℕ };

    /// How often a trigger has failed.
    ghost faults: { Self → ℕ };

    /// The card's limits, which no call changes.
    fn model(&self) -> &CardModel
        ensures value { result.now ≡ (facts self.now).model }
        ensures channels { HasChannels result.now };

    /// Starts or stops the card. Stop and Suspend never fail; a card that tells its fault plan fails exactly where the
    /// plan says so.
    fn trigger(&mut self, t: Trigger) -> Result<(), CardFailed>
        ensures ok { OnOk result (facts self.new ≡ triggered (facts self.old) t) }
        ensures err { OnErr result (facts self.new ≡ tripped (facts self.old) t) }
        ensures plan { IfSome (facts self.old).plan (λ plan. is_err result ≡ (consults t && first_set plan)) }
        ensures never { consults t ≡ false → IsOk result }
        ensures cause { HasCause (faults self.old) (faults self.new) result };

    /// Takes back a trigger that changed whether the card runs.
    fn undo(&mut self, t: Trigger)
        ensures after { facts self.new ≡ undone (facts self.old) t }
        ensures kept { faults self.new ≡ faults self.old };

    /// Whether it runs.
    fn runs(&self) -> bool
        ensures { result ≡ (facts self.now).runs };

    /// The position in frames, below the buffer of the last set-up; 0 before the first (`pointer` of
    /// `struct snd_pcm_ops`).
    fn position(&self) -> u64
        ensures value { result ≡ (facts self.now).position }
        ensures below { ForSome (facts self.now).shape (λ s. result < s.buffer) }
        ensures before { ForNone (facts self.now).shape (result ≡ 0) };

    /// Sets the card up for this shape: it stands at position 0, with no frames taken and none to give.
    fn set_up(&mut self, shape: &Shape)
        requires { IsSoundShape shape.now }
        ensures after { facts self.new ≡ configured (facts self.old) shape.now }
        ensures kept { faults self.new ≡ faults self.old };

    /// Puts the position back to 0.
    fn to_start(&mut self)
        ensures after { facts self.new ≡ rewound_card (facts self.old) }
        ensures kept { faults self.new ≡ faults self.old };

    /// Makes room for so many more bytes to take. An error changes nothing.
    fn reserve(&mut self, bytes: u64) -> Result<(), AllocError>
        ensures same { facts self.new ≡ facts self.old }
        ensures room { OnOk result (bytes ≤ room self.new) }
        ensures err { OnErr result (room self.new ≡ room self.old) }
        ensures kept { faults self.new ≡ faults self.old };

    /// Takes these frames, and moves on by them.
    fn take(&mut self, frames: &[u8])
        requires set_up { IsSome (facts self.old).shape }
        requires whole { ForSome (facts self.old).shape (λ s. AreFrames s frames.now) }
        requires room { length frames.now ≤ room self.old }
        ensures after { IfSome (facts self.old).shape (λ s. facts self.new ≡ took (facts self.old) s frames.now) }
        ensures room { room self.old ≤ room self.new + length frames.now }
        ensures kept { faults self.new ≡ faults self.old };

    /// Gives the next frames into `out`, zero bytes past their end, and moves on by them.
    fn give_into(&mut self, out: &mut [u8])
        requires set_up { IsSome (facts self.old).shape }
        requires whole { ForSome (facts self.old).shape (λ s. AreFrames s out.old) }
        ensures given { out.new ≡ given_bytes (length out.old) (facts self.old).to_give }
        ensures after { IfSome (facts self.old).shape (λ s. facts self.new ≡ gave (facts self.old) s (length out.old)) }
        ensures kept { faults self.new ≡ faults self.old };

    /// Replaces the frames to give. An error changes nothing.
    fn give(&mut self, frames: &[u8]) -> Result<(), AllocError>
        ensures ok { OnOk result (facts self.new ≡ loaded (facts self.old) frames.now) }
        ensures err { OnErr result (facts self.new ≡ facts self.old) }
        ensures kept { faults self.new ≡ faults self.old };

    /// The frames taken since the last set-up, as bytes.
    fn taken(&self) -> &[u8]
        ensures { result.now ≡ (facts self.now).taken };

    /// Plans the k-th trigger from now that consults the plan to fail; EINVAL where k is not 1 to 64.
    fn fail_at(&mut self, k: u64) -> Result<(), Errno>
        ensures range { IsOk result ↔ ((1 ≤ k) × (k ≤ 64)) }
        ensures einval { IfErr result (λ e. e ≡ Errno.Einval) }
        ensures err { OnErr result (facts self.new ≡ facts self.old) }
        ensures ok { OnOk result (facts self.new ≡ planned (facts self.old) k) }
        ensures kept { faults self.new ≡ faults self.old };

    /// Unsets each entry of the fault plan.
    fn clear_plan(&mut self)
        ensures after { facts self.new ≡ cleared (facts self.old) }
        ensures kept { faults self.new ≡ faults self.old };
}
