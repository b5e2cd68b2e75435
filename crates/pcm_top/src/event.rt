// The bytes that an event shows.
ghost use Rattle.std.specs.Prelude.{◌≡◌, ◌≤◌, ◌&&◌, option_copied};
ghost use Rattle.std.specs.Option.{ForSome};
ghost use Rattle.pcm_base.specs.model.World.{World as ModelWorld};
ghost use Rattle.pcm_top.specs.CodeSession.{bytes_in};
ghost use Rattle.pcm_top.specs.Run.{reads_by, takes_by};
ghost use Rattle.pcm_world.specs.Shown.{IsWorld, is_frames};

use pcm_base::{Call, Dir, Event, Reply};
use pcm_world::World;

/// Whether the event reads or loads, before its step.
pub fn is_reading(world: &World, event: &Event) -> bool
    requires { ForSome event.now.client (λ c. c.0 ≤ 15) }
    ensures { (w : ModelWorld) → IsWorld world.now w → result ≡ reads_by event.now w }
{
    match (event.client, event.call) {
        (Some(_), Call::Read(..) | Call::Load(..)) => true,
        (Some(client), Call::Go) => world.is_reading(client),
        _ => false,
    }
}

// Whether the card of a playback substream moves in the event.
fn is_taking(world: &World, event: &Event) -> bool
    requires { event.now.sub.0 ≤ 15 }
    ensures { (w : ModelWorld) → IsWorld world.now w → result ≡ takes_by event.now w }
{
    match event.call {
        Call::MoveBy(_) => match world.substream(event.sub) {
            None => true,
            Some(stream) => matches!(stream.dir(), Dir::Playback),
        },
        _ => false,
    }
}

/// Whether the answer of an event that reads tells what it has read.
pub fn tells_read(reads: bool, reply: &Reply) -> bool
    ensures { result ≡ (reads && is_frames reply.now) }
{
    reads && matches!(reply, Reply::Frames(_))
}

/// The bytes that stand in the line of an event, after its step: what it has read, or what its card took.
pub fn shown<'a>(world: &'a World, event: &Event, reads: bool) -> Option<&'a [u8]>
    requires client { ForSome event.now.client (λ c. c.0 ≤ 15) }
    requires number { event.now.sub.0 ≤ 15 }
    ensures { (w : ModelWorld) → IsWorld world.now w → option_copied result ≡ bytes_in world.now event.now w reads }
{
    match event.client {
        Some(client) if reads => Some(world.result(client)),
        _ if is_taking(world, event) => Some(world.moved(event.sub)),
        _ => None,
    }
}
