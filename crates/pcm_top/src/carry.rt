// Frames from a playback card to a capture card.
ghost use Rattle.std.specs.Prelude.{◌≡◌, ◌≢◌, ◌≤◌, ◌-◌, ◌^◌, ℕ, None, IfOk, OnOk, min};
ghost use Rattle.pcm_base.specs.declared.reply.Reply.TheVariants.{Memory};
ghost use Rattle.loop_card.specs.Rest.{rest_of};
ghost use Rattle.pcm_base.specs.model.Frame.{bytes_of};
ghost use Rattle.pcm_base.specs.model.World.{World as ModelWorld, stream_in};
ghost use Rattle.pcm_line.specs.declared.line.Line.TheVariants as line_of;
ghost use Rattle.pcm_stream.specs.StandsFor.{StandsFor};
ghost use Rattle.pcm_base.specs.model.Stream.{Stream};
ghost use Rattle.pcm_top.specs.CodeSession.{Keeps};
ghost use Rattle.pcm_top.specs.Run.{carried as carried_of, carries as carries_of, carry_answer, carry_refusal as carry_refusal_of, run_line};
ghost use Rattle.pcm_top.specs.Session.{Session as Come};
ghost use Rattle.pcm_world.specs.Shown.{IsWorld, shown};

use crate::give::give;
use crate::session::Session;
use crate::told::{is_closed, state_of, told_of};
use card_emul::AnyCard;
use loop_card::Cable;
use pcm_base::{Card, Dir, Errno, Reply, SubId, Told};
use pcm_stream::Substream;
use pcm_text::push_told;
use pcm_world::World;
use std::alloc::{AllocError, Global};

// The bytes of a frame, 0 without a configuration.
fn frame_bytes(stream: &Substream<AnyCard>) -> u64
    ensures { (s : Stream) → StandsFor stream.now s → result ≡ s.setup.frame_bytes }
{
    match stream.shape() {
        Some(shape) => shape.frame_bytes,
        None => 0,
    }
}

// Whether both are configured alike, the one for playback and the other for capture.
fn are_alike(from: &Substream<AnyCard>, to: &Substream<AnyCard>) -> bool
    ensures { (a b : Stream) → StandsFor from.now a → StandsFor to.now b → result ≡ carries_of a b }
{
    matches!(from.dir(), Dir::Playback)
        && !matches!(to.dir(), Dir::Playback)
        && from.config().is_some()
        && to.config().is_some()
        && frame_bytes(from) == frame_bytes(to)
}

// Whether frames go from the one to the other.
fn carries(world: &World, from: SubId, to: SubId) -> bool
    requires from { from.0 ≤ 15 }
    requires to { to.0 ≤ 15 }
    ensures { (w : ModelWorld) → IsWorld world.now w → result ≡ carries_of (stream_in from w) (stream_in to w) }
{
    let Some(first) = world.substream(from) else {
        return false;
    };
    let Some(second) = world.substream(to) else {
        return false;
    };
    are_alike(first, second)
}

// Why nothing is carried: ENXIO where one of the two is closed or not declared, EINVAL unless the first plays, the second
// captures, and both are configured with frames of one size.
fn carry_refusal(world: &World, from: SubId, to: SubId) -> Option<Errno>
    requires from { from.0 ≤ 15 }
    requires to { to.0 ≤ 15 }
    ensures { (w : ModelWorld) → IsWorld world.now w → result ≡ carry_refusal_of from to w }
{
    if is_closed(world, from) || is_closed(world, to) {
        return Some(Errno::Enxio);
    }
    if !carries(world, from, to) {
        return Some(Errno::Einval);
    }
    None
}

// What the card of a substream took, without so many frames.
fn rest(alloc: Global, stream: &Substream<AnyCard>, moved: u64) -> Result<Vec<u8>, AllocError>
    ensures { (s : Stream) (n : ℕ) → StandsFor stream.now s → moved ≡ min n (2 ^ 64 - 1) → IfOk result (λ bytes. bytes.items ≡ rest_of (bytes_of s.card.taken) s.setup.frame_bytes n) }
{
    let Some(shape) = stream.shape() else {
        return Ok(Vec::new(alloc));
    };
    let left = Cable::rest(stream.card().taken(), shape.frame_bytes, moved);
    let bytes = left.to_vec(alloc)?;
    Ok(bytes)
}

// What the first card took, without as many frames as the second has moved.
fn carried(alloc: Global, world: &World, from: SubId, to: SubId) -> Result<Vec<u8>, AllocError>
    requires from { from.0 ≤ 15 }
    requires to { to.0 ≤ 15 }
    ensures { (w : ModelWorld) → IsWorld world.now w → IfOk result (λ bytes. bytes.items ≡ carried_of (stream_in from w) (stream_in to w)) }
{
    match world.substream(from) {
        Some(stream) => rest(alloc, stream, world.moved_total(to)),
        None => Ok(Vec::new(alloc)),
    }
}

// The step of a carry that is not refused.
fn carry(alloc: Global, world: &mut World, from: SubId, to: SubId) -> Result<Told, AllocError>
    requires from { from.0 ≤ 15 }
    requires to { to.0 ≤ 15 }
    ensures answered { IfOk result (λ told. told.reply ≢ Memory) }
    ensures told { (w : ModelWorld) → IsWorld world.old w → carry_refusal_of from to w ≡ None → IfOk result (λ told. told ≡ shown (carry_answer from to w)) }
    ensures world { (w : ModelWorld) → IsWorld world.old w → carry_refusal_of from to w ≡ None → OnOk result (IsWorld world.new (carry_answer from to w).world) }
{
    let frames = carried(alloc, world, from, to)?;
    let told = give(world, to, &frames)?;
    Ok(Told {
        reply: told.reply,
        state: Some(state_of(world, from)),
        woken: told.woken,
    })
}

/// The line of a carry: a refusal, or what the first card took is given to the second, without as many frames as that has
/// moved. It shows the state of the first. This project's own.
pub fn carry_line(
    alloc: Global,
    number: u64,
    from: SubId,
    to: SubId,
    session: &mut Session,
) -> Result<(), AllocError>
    requires from { from.0 ≤ 15 }
    requires to { to.0 ≤ 15 }
    ensures { (s : Come) → Keeps session.old s → OnOk result (Keeps session.new (run_line number (line_of.Carry from to) s)) }
{
    let told = match carry_refusal(&session.world, from, to) {
        Some(refusal) => told_of(&session.world, from, Reply::Err(refusal)),
        None => carry(alloc, &mut session.world, from, to)?,
    };
    push_told(&mut session.text, number, &told, None)
}
