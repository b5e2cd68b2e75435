// The places of a bounded list of sleepers.
ghost use Rattle.std.specs.Prelude.{◌≡◌};

use pcm_base::{ClientId, Sleeper, Task};
use std::marker::Model;

/// A sleeper in a list, which fills its unused places with a blank one. Contracts see the sleeper.
#[derive(Clone, Copy)]
pub(crate) struct Place {
    pub(crate) sleeper: Sleeper,
}

impl Model for Place {
    ghost use Rattle.pcm_base.specs.declared.sleeper.Sleeper.{Sleeper};

    ghost Value = { Sleeper };

    ghost view = { λ p. p.sleeper };

    ghost inverse = { λ s. record { sleeper = s } };
}

impl Default for Place {
    fn default() -> Place {
        Place::of(Sleeper {
            client: ClientId(0),
            asleep: false,
            task: Task::Drain,
        })
    }
}

impl Place {
    /// The place of this sleeper.
    pub(crate) fn of(sleeper: Sleeper) -> Place
        ensures { result ≡ sleeper }
    {
        Place { sleeper }
    }
}
