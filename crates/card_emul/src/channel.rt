// The channel of a card: what takes and gives its frames.
ghost use Rattle.std.specs.Prelude.{◌≡◌, ◌<◌};
ghost use Rattle.pcm_base.specs.CardFacts.{HasChannels, advanced, runs_after as after_trigger};
ghost use Rattle.pcm_base.specs.Shape.{IsSoundShape, count_of};
ghost use Rattle.card_emul.specs.EmulatedCard.{facts_of, new_card};

use crate::fault_plan::FaultPlan;
use crate::frames_to_give::FramesToGive;
use pcm_base::{Card, CardFailed, CardModel, Errno, Shape, Trigger};
use std::alloc::{AllocError, Global};
use std::marker::Model;

/// A channel in memory: it keeps the frames that it takes, gives those that it was handed, and fails by a plan that it
/// always tells. This project's own.
#[derive(Drop)]
pub(crate) struct Channel {
    model: CardModel,
    runs: bool,
    shape: Option<Shape>,
    position: u64,
    taken: Vec<u8>,
    to_give: FramesToGive,
    plan: FaultPlan,
    faults: u64,
}

impl Model for Channel {
    ghost use Rattle.std.specs.Prelude.{◌-◌, vec_capacity, vec_len};
    ghost use Rattle.card_emul.specs.EmulatedCard.{EmulatedCard};

    ghost Value = { EmulatedCard };

    ghost use Rattle.card_emul.specs.Channel.{IsSoundChannel};

    ghost view = { λ c. record {
      runs = c.runs;
      shape = c.shape;
      position = c.position;
      taken = c.taken.items;
      to_give = c.to_give;
      plan = c.plan;
      model = c.model;
      room = vec_capacity c.taken - vec_len c.taken;
      faults = c.faults;
    } };

    ghost invariant = { IsSoundChannel };
}

impl Channel {
    /// A channel with these limits that does not run, was never set up, has no frames taken and none to give, and has no
    /// entry of its fault plan set.
    pub(crate) fn new(alloc: Global, model: CardModel) -> Channel
        requires { HasChannels model }
        ensures facts { facts_of result ≡ new_card model }
        ensures room { result.room ≡ 0 }
        ensures faults { result.faults ≡ 0 }
    {
        Channel {
            model,
            runs: false,
            shape: None,
            position: 0,
            taken: Vec::new(alloc),
            to_give: FramesToGive::new(alloc),
            plan: FaultPlan::new(),
            faults: 0,
        }
    }
}

// Whether a card runs after a trigger.
fn runs_after(t: Trigger) -> bool
    ensures { result ≡ after_trigger t }
{
    match t {
        Trigger::Start | Trigger::PauseRelease | Trigger::Resume => true,
        Trigger::Stop | Trigger::PausePush | Trigger::Suspend => false,
    }
}

// Where a card stands that has moved by these frames.
fn advanced_by(shape: &Shape, position: u64, frames: &[u8]) -> u64
    requires sound { IsSoundShape shape.now }
    requires below { position < shape.now.buffer }
    ensures after { result ≡ advanced shape.now position (count_of shape.now frames.now) }
    ensures below { result < shape.now.buffer }
{
    (position + frames.len() as u64 / shape.frame_bytes) % shape.buffer
}

impl Card for Channel {
    ghost facts = { facts_of };

    ghost room = { λ c. c.room };

    ghost faults = { λ c. c.faults };

    fn model(&self) -> &CardModel {
        &self.model
    }

    fn trigger(&mut self, t: Trigger) -> Result<(), CardFailed> {
        if self.plan.trips(t) {
            self.faults = self.faults.saturating_add(1);
            return Err(CardFailed);
        }
        self.runs = runs_after(t);
        Ok(())
    }

    fn undo(&mut self, t: Trigger) {
        self.runs = !runs_after(t);
    }

    fn runs(&self) -> bool {
        self.runs
    }

    fn position(&self) -> u64 {
        self.position
    }

    fn set_up(&mut self, shape: &Shape) {
        self.shape = Some(*shape);
        self.runs = false;
        self.position = 0;
        self.taken.clear();
        self.to_give.clear();
    }

    fn to_start(&mut self) {
        self.position = 0;
    }

    fn reserve(&mut self, bytes: u64) -> Result<(), AllocError> {
        self.taken.reserve(bytes as usize)
    }

    fn take(&mut self, frames: &[u8]) {
        let shape = self.shape.unwrap();
        self.position = advanced_by(&shape, self.position, frames);
        self.taken.extend_from_slice(frames).unwrap();
    }

    fn give_into(&mut self, out: &mut [u8]) {
        let shape = self.shape.unwrap();
        self.position = advanced_by(&shape, self.position, out);
        self.to_give.give_into(out);
    }

    fn give(&mut self, frames: &[u8]) -> Result<(), AllocError> {
        self.to_give.replace(frames)
    }

    fn taken(&self) -> &[u8] {
        &self.taken
    }

    fn fail_at(&mut self, k: u64) -> Result<(), Errno> {
        if !(1..=64).contains(&k) {
            return Err(Errno::Einval);
        }
        self.plan.set(k);
        Ok(())
    }

    fn clear_plan(&mut self) {
        self.plan.clear();
    }
}
