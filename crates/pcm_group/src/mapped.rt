// The events of mapped frames (`snd_pcm_mmap`; that stores and loads are calls is this project's own), and the frames that a
// card is handed to give.
ghost use Rattle.std.specs.Prelude.{◌≡◌, ◌≢◌, ◌+◌, ◌*◌, ◌≤◌, nat_eq, length, ℕ, Bool, List, true, false, [], IsOk, IsSome, IfSome, MatchResult, None, Some};
ghost use Rattle.std.specs.Option.{ForSome};
ghost use Rattle.pcm_base.specs.Shape.{AreFrames, IsSoundShape};
ghost use Rattle.pcm_base.specs.declared.call.Call.TheVariants as call;
ghost use Rattle.pcm_base.specs.declared.ids.ClientId.{ClientId};
ghost use Rattle.pcm_base.specs.declared.reply.Reply.TheVariants.{Asleep, Memory};
ghost use Rattle.pcm_base.specs.model.Events.{event as event_of};
ghost use Rattle.pcm_base.specs.model.Stream.{Stream};
ghost use Rattle.pcm_stream.specs.Mappings.{mappings_in};
ghost use Rattle.pcm_stream.specs.Kept.{KeepsFaults};
ghost use Rattle.pcm_stream.specs.StandsFor.{IsShapeOf, StandsFor, shape_in};
ghost use Rattle.mmap_pages.specs.Mapped.{load_refusal};
ghost use Rattle.pcm_group.specs.Bytes.{HasLength};
ghost use Rattle.pcm_group.specs.Carried.{IsOwnCarried};
ghost use Rattle.pcm_group.specs.Ended.{IsOwnEnd};
ghost use Rattle.pcm_group.specs.Lent.{Loads, frames_given, give_refusal, is_lent_call, is_reading};
ghost use Rattle.pcm_group.specs.Turn.{may_want_memory};

use crate::acts::answer;
use crate::transfer::{Carried, said};
use crate::write_read::is_length;
use mmap_pages::{load_frames, map_sub, store_frames, unmap_sub};
use pcm_base::{Call, Card, Dir, Errno, Reply};
use pcm_stream::Substream;

/// One mapping more.
pub(crate) fn map<C: Card>(stream: &mut Substream<C>) -> Reply
    ensures done { (c : ClientId) (linked : Bool) (s : Stream) → StandsFor stream.old s → IsOwnEnd s (event_of call.Map c linked [] s) result 0 0 stream.new }
    ensures told { result ≢ Memory }
    ensures awake { result ≢ Asleep }
    ensures keeps { KeepsFaults stream.old stream.new }
{
    answer(map_sub(stream))
}

/// One mapping less.
pub(crate) fn unmap<C: Card>(stream: &mut Substream<C>) -> Reply
    ensures done { (c : ClientId) (linked : Bool) (s : Stream) → StandsFor stream.old s → IsOwnEnd s (event_of call.Unmap c linked [] s) result 0 0 stream.new }
    ensures told { result ≢ Memory }
    ensures awake { result ≢ Asleep }
    ensures keeps { KeepsFaults stream.old stream.new }
{
    answer(unmap_sub(stream))
}

// The frames that a call moved, from its first on, or its error.
fn moved_all(answer: Result<u64, Errno>) -> Carried
    ensures reply { MatchResult answer (λ n. result.reply ≡ Reply.Frames n) (λ e. result.reply ≡ Reply.Err e) }
    ensures moved { MatchResult answer (λ n. result.moved ≡ n) (λ _. result.moved ≡ 0) }
    ensures first { result.first ≡ 0 }
{
    match answer {
        Ok(moved) => Carried {
            reply: Reply::Frames(moved),
            first: 0,
            moved,
        },
        Err(e) => said(Reply::Err(e)),
    }
}

/// Stores frames in the mapped buffer from an offset on.
pub(crate) fn store<C: Card>(stream: &mut Substream<C>, offset: u64, frames: &[u8]) -> Carried
    ensures done { (c : ClientId) (linked : Bool) (s : Stream) → StandsFor stream.old s
        → IsOwnEnd s (event_of (call.Store offset) c linked frames.now s) result.reply result.first result.moved stream.new }
    ensures told { result.reply ≢ Memory }
    ensures awake { result.reply ≢ Asleep }
    ensures keeps { KeepsFaults stream.old stream.new }
{
    moved_all(store_frames(stream, offset, frames))
}

// Whether so many frames from an offset on lie in the mapped buffer.
fn loadable<C: Card>(stream: &Substream<C>, offset: u64, count: u64) -> Result<(), Errno>
    ensures answer { (s : Stream) → StandsFor stream.now s → MatchResult result (λ _. load_refusal offset count s ≡ None) (λ e. load_refusal offset count s ≡ Some e) }
    ensures shape { IsOk result → IsSome (shape_in stream.now) }
    ensures mapped { IsOk result → mappings_in stream.now ≢ 0 }
    ensures within { IsOk result → ForSome (shape_in stream.now) (λ shape. offset + count ≤ shape.buffer) }
    ensures sound { IfSome (shape_in stream.now) IsSoundShape }
    ensures sized { (s : Stream) → StandsFor stream.now s → IfSome (shape_in stream.now) (IsShapeOf s) }
{
    let mappings = stream.mappings();
    let Some(shape) = stream.shape() else {
        return Err(Errno::Einval);
    };
    if mappings == 0 || offset > shape.buffer || count > shape.buffer - offset {
        return Err(Errno::Einval);
    }
    Ok(())
}

// Whether the bytes are those of so many frames.
fn holds<C: Card>(stream: &Substream<C>, count: u64, io: &[u8]) -> bool
    ensures length { result ≡ true → ForSome (shape_in stream.now) (λ shape. length io.now ≡ count * shape.frame_bytes) }
    ensures model { (s : Stream) → StandsFor stream.now s → IsSome (shape_in stream.now) → result ≡ nat_eq (length io.now) (count * s.setup.frame_bytes) }
{
    match stream.shape() {
        Some(shape) => is_length(io.len() as u64, shape.frame_bytes, 0, count),
        None => false,
    }
}

/// Loads the frames that stand in the mapped buffer from an offset on into the bytes that are lent. Bytes of another length
/// than the frames', which no caller hands in, are refused.
pub(crate) fn load<C: Card>(
    stream: &Substream<C>,
    offset: u64,
    count: u64,
    io: &mut [u8],
) -> Carried
    ensures done { (c : ClientId) (linked : Bool) (bytes : List ℕ) (s : Stream) → StandsFor stream.now s → HasLength (call.Load offset count) io.old s
        → IsOwnEnd s (event_of (call.Load offset count) c linked bytes s) result.reply result.first result.moved stream.now }
    ensures loaded { (s : Stream) → StandsFor stream.now s → Loads (call.Load offset count) s result.reply io.old io.new }
    ensures told { result.reply ≢ Memory }
    ensures awake { result.reply ≢ Asleep }
{
    if let Err(e) = loadable(stream, offset, count) {
        return moved_all(Err(e));
    }
    if !holds(stream, count, io) {
        return moved_all(Err(Errno::Einval));
    }
    moved_all(load_frames(stream, offset, io))
}

// Whether the card may be handed these frames.
fn givable<C: Card>(stream: &Substream<C>, frames: &[u8]) -> Result<(), Errno>
    ensures answer { (s : Stream) → StandsFor stream.now s → MatchResult result (λ _. give_refusal frames.now s ≡ None) (λ e. give_refusal frames.now s ≡ Some e) }
    ensures shape { IsOk result → IsSome (shape_in stream.now) }
    ensures whole { IsOk result → ForSome (shape_in stream.now) (λ shape. AreFrames shape frames.now) }
{
    let Some(shape) = stream.shape() else {
        return Err(Errno::Einval);
    };
    if stream.dir() == Dir::Playback || frames.len() as u64 % shape.frame_bytes != 0 {
        return Err(Errno::Einval);
    }
    Ok(())
}

/// Replaces the frames that the card has to give.
pub(crate) fn give<C: Card>(stream: &mut Substream<C>, frames: &[u8]) -> Reply
    ensures done { (c : ClientId) (linked : Bool) (s : Stream) → StandsFor stream.old s → result ≢ Memory
        → IsOwnEnd s (event_of call.Give c linked frames.now s) result 0 (frames_given result s frames.now) stream.new }
    ensures memory { (s : Stream) → StandsFor stream.old s → result ≡ Memory → StandsFor stream.new s }
    ensures awake { result ≢ Asleep }
    ensures keeps { KeepsFaults stream.old stream.new }
{
    if let Err(e) = givable(stream, frames) {
        return Reply::Err(e);
    }
    match stream.give(frames) {
        Ok(()) => Reply::Ok,
        Err(_) => Reply::Memory,
    }
}

/// An event that looks at the bytes that it is lent, on its own stream. Between the bytes of a Give and the buffer nothing
/// moves.
pub(crate) fn lent_event<C: Card>(stream: &mut Substream<C>, call: Call, io: &mut [u8]) -> Carried
    requires call { is_lent_call call ≡ true }
    ensures done { (c : ClientId) (linked : Bool) (s : Stream) → StandsFor stream.old s → HasLength call io.old s → result.reply ≢ Memory
        → IsOwnCarried call s (event_of call c linked io.old s) result.reply result.first result.moved stream.new }
    ensures loaded { (s : Stream) → StandsFor stream.old s → Loads call s result.reply io.old io.new }
    ensures bytes { is_reading call ≡ false → io.new ≡ io.old }
    ensures memory { (s : Stream) → StandsFor stream.old s → result.reply ≡ Memory → StandsFor stream.new s }
    ensures wants { result.reply ≡ Memory → may_want_memory call ≡ true }
    ensures idle { result.reply ≡ Memory → (result.first ≡ 0) × (result.moved ≡ 0) }
    ensures awake { result.reply ≢ Asleep }
    ensures keeps { KeepsFaults stream.old stream.new }
{
    match call {
        Call::Store(offset) => store(stream, offset, io),
        Call::Load(offset, count) => load(stream, offset, count, io),
        Call::Give => said(give(stream, io)),
        _ => unreachable!(),
    }
}
