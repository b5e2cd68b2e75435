// Frames for a card to give.
ghost use Rattle.std.specs.Prelude.{◌≡◌, ◌≢◌, ◌≤◌, IfOk, OnOk};
ghost use Rattle.pcm_base.specs.declared.reply.Reply.TheVariants.{Memory};
ghost use Rattle.pcm_base.specs.model.World.{World as ModelWorld, step as step_of};
ghost use Rattle.pcm_top.specs.Run.{giving};
ghost use Rattle.pcm_world.specs.Shown.{IsWorld, shown};

use pcm_base::{Call, Event, Reply, SubId, Told};
use pcm_world::World;
use std::alloc::AllocError;

/// The step of the card to which these frames are given. An error leaves the world as it was.
pub fn give(world: &mut World, sub: SubId, frames: &[u8]) -> Result<Told, AllocError>
    requires { sub.0 ≤ 15 }
    ensures answered { IfOk result (λ told. told.reply ≢ Memory) }
    ensures told { (w : ModelWorld) → IsWorld world.old w → IfOk result (λ told. told ≡ shown (step_of w (giving sub) frames.now)) }
    ensures world { (w : ModelWorld) → IsWorld world.old w → OnOk result (IsWorld world.new (step_of w (giving sub) frames.now).world) }
{
    let event = Event {
        client: None,
        sub,
        call: Call::Give,
    };
    let told = world.step(&event, frames);
    if matches!(told.reply, Reply::Memory) {
        return Err(AllocError);
    }
    Ok(told)
}
