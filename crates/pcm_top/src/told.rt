// What a line tells.
ghost use Rattle.std.specs.Prelude.{◌≡◌, ◌≤◌, Some};
ghost use Rattle.pcm_base.specs.model.World.{World as ModelWorld, state_in};
ghost use Rattle.pcm_base.specs.model.Words.{is_closed as is_closed_of};
ghost use Rattle.pcm_world.specs.Shown.{IsWorld};

use pcm_base::{Reply, State, SubId, Told};
use pcm_world::World;

/// The state of a substream, CLOSED where it is not declared.
pub fn state_of(world: &World, sub: SubId) -> State
    requires { sub.0 ≤ 15 }
    ensures { (w : ModelWorld) → IsWorld world.now w → result ≡ state_in sub w }
{
    match world.substream(sub) {
        None => State::Closed,
        Some(stream) => stream.state(),
    }
}

/// Whether the substream is closed, or not declared.
pub fn is_closed(world: &World, sub: SubId) -> bool
    requires { sub.0 ≤ 15 }
    ensures { (w : ModelWorld) → IsWorld world.now w → result ≡ is_closed_of (state_in sub w) }
{
    matches!(state_of(world, sub), State::Closed)
}

/// An answer that names a substream and marks nobody awake.
pub fn told_of(world: &World, sub: SubId, reply: Reply) -> Told
    requires { sub.0 ≤ 15 }
    ensures same { result.reply ≡ reply }
    ensures told { (w : ModelWorld) → IsWorld world.now w → result ≡ record { reply = reply; state = Some (state_in sub w); woken = 0 } }
{
    Told {
        reply,
        state: Some(state_of(world, sub)),
        woken: 0,
    }
}
