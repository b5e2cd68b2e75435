// A card in memory.
ghost use Rattle.std.specs.Prelude.{◌≡◌};
ghost use Rattle.card_emul.specs.Limits.{limits_of};
ghost use Rattle.card_emul.specs.EmulatedCard.{facts_of, new_card};

use crate::channel::Channel;
use crate::model_of;
use indirect_card::IndirectCard;
use pcm_base::{Card, CardFailed, CardModel, Dir, Errno, Shape, Trigger};
use std::alloc::{AllocError, Global};
use std::marker::Model;

// How frames reach the channel: straight, or through a hardware buffer.
#[derive(Drop)]
enum Wiring {
    Direct(Channel),
    Indirect(IndirectCard<Channel>),
}

/// A card in memory, of any of the models: it keeps the frames that it takes, gives those that it was handed, and fails
/// by a plan that it always tells. This project's own.
#[derive(Drop)]
pub struct AnyCard {
    wiring: Wiring,
}

impl Model for AnyCard {
    ghost use Rattle.card_emul.specs.EmulatedCard.{EmulatedCard};

    ghost Value = { EmulatedCard };

    ghost use Rattle.card_emul.specs.AnyCard.{channel_in};

    ghost view = { λ c. channel_in c.wiring };
}

// The same call of a card of either wiring.
macro_rules! wired {
    ($wiring:expr, $card:ident => $call:expr) => {
        match $wiring {
            Wiring::Direct($card) => $call,
            Wiring::Indirect($card) => $call,
        }
    };
}

impl AnyCard {
    /// A card of this model that does not run, was never set up, has no frames taken and none to give, and has no entry
    /// of its fault plan set. Every model serves both directions.
    pub fn new(alloc: Global, m: pcm_base::Model, _dir: Dir) -> AnyCard
        ensures facts { facts_of result ≡ new_card (limits_of m) }
        ensures room { result.room ≡ 0 }
        ensures faults { result.faults ≡ 0 }
    {
        let channel = Channel::new(alloc, model_of(m));
        let wiring = match m {
            pcm_base::Model::Indirect => Wiring::Indirect(IndirectCard::new(channel)),
            pcm_base::Model::Basic
            | pcm_base::Model::Duplex
            | pcm_base::Model::Studio
            | pcm_base::Model::NoPause
            | pcm_base::Model::NoResume => Wiring::Direct(channel),
        };
        AnyCard { wiring }
    }

    // The channel behind the wiring.
    fn channel(&self) -> &Channel
        ensures { result.now ≡ self.now }
    {
        match &self.wiring {
            Wiring::Direct(card) => card,
            Wiring::Indirect(card) => card.inner(),
        }
    }
}

impl Card for AnyCard {
    ghost facts = { facts_of };

    ghost room = { λ c. c.room };

    ghost faults = { λ c. c.faults };

    fn model(&self) -> &CardModel {
        self.channel().model()
    }

    fn trigger(&mut self, t: Trigger) -> Result<(), CardFailed> {
        wired!(&mut self.wiring, card => card.trigger(t))
    }

    fn undo(&mut self, t: Trigger) {
        wired!(&mut self.wiring, card => card.undo(t))
    }

    fn runs(&self) -> bool {
        self.channel().runs()
    }

    fn position(&self) -> u64 {
        self.channel().position()
    }

    fn set_up(&mut self, shape: &Shape) {
        wired!(&mut self.wiring, card => card.set_up(shape))
    }

    fn to_start(&mut self) {
        wired!(&mut self.wiring, card => card.to_start())
    }

    fn reserve(&mut self, bytes: u64) -> Result<(), AllocError> {
        wired!(&mut self.wiring, card => card.reserve(bytes))
    }

    fn take(&mut self, frames: &[u8]) {
        wired!(&mut self.wiring, card => card.take(frames))
    }

    fn give_into(&mut self, out: &mut [u8]) {
        wired!(&mut self.wiring, card => card.give_into(out))
    }

    fn give(&mut self, frames: &[u8]) -> Result<(), AllocError> {
        wired!(&mut self.wiring, card => card.give(frames))
    }

    fn taken(&self) -> &[u8] {
        self.channel().taken()
    }

    fn fail_at(&mut self, k: u64) -> Result<(), Errno> {
        wired!(&mut self.wiring, card => card.fail_at(k))
    }

    fn clear_plan(&mut self) {
        wired!(&mut self.wiring, card => card.clear_plan())
    }
}
