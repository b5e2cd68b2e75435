// What a step tells.
ghost use Rattle.std.specs.Prelude.{◌≡◌, ◌<◌, ◌++◌, ◌∷◌, [], length};

use arrayvec::ArrayVec;
use pcm_base::{Acted, Reply};
use std::marker::Model;

/// Up to three acts, in the order in which they were made. Contracts see the list. This project's own.
#[derive(Drop)]
pub struct Acts {
    items: ArrayVec<Acted, 3>,
}

impl Model for Acts {
    ghost use Rattle.std.specs.Prelude.{List};
    ghost use Rattle.pcm_base.specs.declared.votes.Acted.{Acted};

    ghost Value = { List Acted };

    ghost view = { λ a. a.items.items };
}

impl Acts {
    /// No act.
    pub fn new() -> Acts
        ensures { result ≡ [] }
    {
        Acts {
            items: ArrayVec::new(),
        }
    }

    /// Puts an act behind the others.
    pub fn push(&mut self, acted: Acted)
        requires { length self.old < 3 }
        ensures { self.new ≡ self.old ++ acted ∷ [] }
    {
        self.items.push(acted);
    }

    /// The acts, in order.
    pub fn as_slice(&self) -> &[Acted]
        ensures { result.now ≡ self.now }
    {
        self.items.as_slice()
    }
}

/// What a step tells: its answer, the clients that it marked awake, client i as bit i, and the acts that it made. It moved
/// the frames `first` to `first + moved - 1` of the call between the call's bytes and the substream; both are 0 where it
/// moved none.
#[derive(Drop)]
pub struct Turn {
    pub reply: Reply,
    pub woken: u16,
    pub acts: Acts,
    pub first: u64,
    pub moved: u64,
}
