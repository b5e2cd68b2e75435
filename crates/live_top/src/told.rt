// What the replies of a setup tell of the substreams.
ghost use Rattle.std.specs.Prelude.{◌≡◌, ◌<◌, length, replicate, slice_get, IfOk};
ghost use Rattle.live_top.specs.Setup.{after, config_to_feed, known, learned};
ghost use Rattle.live_top.specs.declared.told.Stage.TheVariants.{Closed};

use pcm_base::{Call, Config, Dir, Errno, Event, Reply, SubId};
use std::alloc::{AllocError, Global};

/// What the replies of a setup so far tell of a substream.
#[derive(Clone, Copy, Debug, PartialEq, Eq)]
pub(crate) enum Stage {
    /// Nobody has it open.
    Closed,
    /// It is open, without a configuration.
    Bare,
    /// It has this configuration.
    Configured(Config),
}

impl Stage {
    /// What is told once a call is answered so. A configuration that is refused leaves none.
    pub fn after(self, call: Call, reply: Reply) -> Stage
        ensures { result ≡ after self call reply }
    {
        match (call, reply) {
            (Call::OpenSub | Call::HwFree, Reply::Ok) => Stage::Bare,
            (Call::CloseSub, Reply::Ok) => Stage::Closed,
            (Call::HwParams(config), Reply::Ok) => Stage::Configured(config),
            (Call::HwParams(_), Reply::Err(Errno::Einval)) => Stage::Bare,
            _ => self,
        }
    }

    /// The configuration that a feed looks at: that of a substream that captures.
    pub fn config_to_feed(self, dir: Dir) -> Option<Config>
        ensures { result ≡ config_to_feed dir self }
    {
        match (dir, self) {
            (Dir::Capture, Stage::Configured(config)) => Some(config),
            _ => None,
        }
    }
}

/// What is told of each substream, by its number.
#[derive(Drop)]
pub(crate) struct Known {
    pub told: Vec<Stage>,
}

impl Known {
    /// Nothing is told of so many new substreams.
    pub fn new(alloc: Global, cards: usize) -> Result<Known, AllocError>
        ensures { IfOk result (λ k. k.told.items ≡ replicate cards Closed) }
    {
        let told = vec![in alloc; Stage::Closed; cards]?;
        Ok(Known { told })
    }

    /// What the reply to an event tells.
    pub fn learn(&mut self, event: &Event, reply: Reply)
        requires { event.now.sub.0 < length self.old.told.items }
        ensures { self.new.told.items ≡ learned self.old.told.items event.now reply }
    {
        let at = usize::from(event.sub.0);
        self.told[at] = self.told[at].after(event.call, reply);
    }

    /// The configuration that a feed of a substream of this direction looks at.
    pub fn to_feed(&self, dir: Dir, sub: SubId) -> Option<Config>
        requires { sub.0 < length self.now.told.items }
        ensures { result ≡ config_to_feed dir (known (slice_get self.now.told.items sub.0)) }
    {
        self.told[usize::from(sub.0)].config_to_feed(dir)
    }
}
