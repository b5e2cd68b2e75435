//! Mapped frames and pages: the mappings of a substream, what a client stores in its buffer and loads from there, and the
//! page that shows its pointers.
//!
//! It stands on `pcm_stream`. Its source is `snd_pcm_mmap` and the status and control pages of `pcm_native.c`
//! (`snd_pcm_mmap_data`, `struct snd_pcm_mmap_status`). That stores and loads are calls, with their refusals, is this
//! project's own, as is the limit of 65,535 mappings.
#![tactic(auto)]

ghost use Rattle.std.specs.Prelude.{◌≡◌, ◌≢◌, ◌≤◌, ◌<◌, ◌+◌, ◌-◌, ◌^◌, nat_lt, None, Some, IsOk, IsSome, OnOk, OnErr, IfOk, IfErr, MatchResult};
ghost use Rattle.std.specs.Option.{ForSome};
ghost use Rattle.pcm_base.specs.Shape.{AreFrames, count_of};
ghost use Rattle.pcm_base.specs.model.Events.{is_mapped_access, page as page_in, set_mappings};
ghost use Rattle.pcm_base.specs.model.Frame.{bytes_of};
ghost use Rattle.pcm_base.specs.model.Stream.{Stream};
ghost use Rattle.pcm_base.specs.model.Transfer.{frames_in};
ghost use Rattle.pcm_stream.specs.Buffer.{loaded_from, stored_at};
ghost use Rattle.pcm_stream.specs.Mappings.{mappings_in};
ghost use Rattle.pcm_stream.specs.Kept.{KeepsSizes};
ghost use Rattle.pcm_stream.specs.StandsFor.{StandsFor, shape_in};
ghost use Rattle.mmap_pages.specs.Mapped.{count_in, load_refusal, map_refusal, store_refusal, unmap_refusal};

#[cfg(test)]
mod tests;

use pcm_base::{Access, CallKind, Card, Config, Dir, Errno, Page, Shape};
use pcm_stream::Substream;
use state_table::permit;

// The most mappings of one substream.
const MOST_MAPPINGS: u64 = 65_535;

// A configuration whose buffer is reached by a mapping.
fn is_mapped(config: &Config) -> bool
    ensures { result ≡ is_mapped_access (Some config.now) }
{
    matches!(
        config.access,
        Access::MmapInterleaved | Access::MmapNoninterleaved
    )
}

/// Maps the buffer once more (`snd_pcm_mmap_data`). Refused by the error table, EINVAL unless the access is a mapped one,
/// EBUSY at 65,535 mappings, all with nothing changed.
pub fn map_sub<C: Card>(stream: &mut Substream<C>) -> Result<(), Errno>
    ensures ok { (s : Stream) → StandsFor stream.old s → OnOk result ((map_refusal s ≡ None) × StandsFor stream.new (set_mappings (s.mappings + 1) s)) }
    ensures refused { (s : Stream) → StandsFor stream.old s → IfErr result (λ e. (map_refusal s ≡ Some e) × StandsFor stream.new s) }
    ensures keeps { KeepsSizes stream.old stream.new }
{
    permit(CallKind::Map, stream.state(), stream.dir())?;
    let (Some(config), Some(_)) = (stream.config(), stream.shape()) else {
        return Err(Errno::Einval);
    };
    if !is_mapped(config) {
        return Err(Errno::Einval);
    }
    let mappings = stream.mappings();
    if mappings >= MOST_MAPPINGS {
        return Err(Errno::Ebusy);
    }
    stream.set_mappings(mappings + 1);
    Ok(())
}

/// Takes one mapping back; EINVAL where nothing is mapped, with nothing changed.
pub fn unmap_sub<C: Card>(stream: &mut Substream<C>) -> Result<(), Errno>
    ensures ok { (s : Stream) → StandsFor stream.old s → OnOk result ((unmap_refusal s ≡ None) × StandsFor stream.new (set_mappings (s.mappings - 1) s)) }
    ensures refused { (s : Stream) → StandsFor stream.old s → IfErr result (λ e. (unmap_refusal s ≡ Some e) × StandsFor stream.new s) }
    ensures keeps { KeepsSizes stream.old stream.new }
{
    let mappings = stream.mappings();
    if mappings == 0 {
        return Err(Errno::Einval);
    }
    stream.set_mappings(mappings - 1);
    Ok(())
}

// Frames from an offset on that reach beyond the buffer.
fn is_beyond(shape: &Shape, offset: u64, count: u64) -> bool
    ensures { result ≡ nat_lt shape.now.buffer (offset + count) }
{
    offset > shape.buffer || count > shape.buffer - offset
}

// The frames of a store, or why they are refused.
fn frames_to_store<C: Card>(stream: &Substream<C>, offset: u64, frames: &[u8]) -> Result<u64, Errno>
    ensures answer { (s : Stream) → StandsFor stream.now s
        → MatchResult result (λ n. (store_refusal offset frames.now s ≡ None) × (n ≡ count_in s frames.now)) (λ e. store_refusal offset frames.now s ≡ Some e) }
    ensures shape { IsOk result → IsSome (shape_in stream.now) }
    ensures whole { IsOk result → ForSome (shape_in stream.now) (λ shape. AreFrames shape frames.now) }
    ensures within { IsOk result → ForSome (shape_in stream.now) (λ shape. offset + count_of shape frames.now ≤ shape.buffer) }
{
    if stream.dir() != Dir::Playback || stream.mappings() == 0 {
        return Err(Errno::Einval);
    }
    let Some(shape) = stream.shape() else {
        return Err(Errno::Einval);
    };
    let count = frames.len() as u64 / shape.frame_bytes;
    if frames.len() as u64 % shape.frame_bytes != 0 || is_beyond(shape, offset, count) {
        return Err(Errno::Einval);
    }
    Ok(count)
}

/// Stores frames, which lie one after another, in the buffer from an offset on, and answers how many. EINVAL on capture,
/// where nothing is mapped, where the bytes are no whole frames, or where they reach beyond the buffer, with nothing
/// changed.
pub fn store_frames<C: Card>(
    stream: &mut Substream<C>,
    offset: u64,
    frames: &[u8],
) -> Result<u64, Errno>
    ensures ok { (s : Stream) → StandsFor stream.old s
        → IfOk result (λ n. (store_refusal offset frames.now s ≡ None) × (n ≡ count_in s frames.now) × StandsFor stream.new (stored_at offset (frames_in s frames.now) s)) }
    ensures refused { (s : Stream) → StandsFor stream.old s → IfErr result (λ e. (store_refusal offset frames.now s ≡ Some e) × StandsFor stream.new s) }
    ensures keeps { KeepsSizes stream.old stream.new }
{
    let count = frames_to_store(stream, offset, frames)?;
    stream.store_at(offset, frames);
    Ok(count)
}

/// Loads the frames that stand in the buffer from an offset on, one after another, as many as `out` holds, and answers how
/// many. EINVAL where nothing is mapped or where they reach beyond the buffer, with `out` as before. Where something is
/// mapped, `out` holds whole frames.
pub fn load_frames<C: Card>(
    stream: &Substream<C>,
    offset: u64,
    out: &mut [u8],
) -> Result<u64, Errno>
    requires whole { mappings_in stream.now ≢ 0 → ForSome (shape_in stream.now) (λ shape. AreFrames shape out.old) }
    ensures ok { (s : Stream) → StandsFor stream.now s
        → IfOk result (λ n. (load_refusal offset n s ≡ None) × (n ≡ count_in s out.old) × (out.new ≡ bytes_of (loaded_from offset n s))) }
    ensures refused { (s : Stream) → StandsFor stream.now s → IfErr result (λ e. load_refusal offset (count_in s out.old) s ≡ Some e) }
    ensures same { OnErr result (out.new ≡ out.old) }
{
    if stream.mappings() == 0 {
        return Err(Errno::Einval);
    }
    let Some(shape) = stream.shape() else {
        return Err(Errno::Einval);
    };
    let count = out.len() as u64 / shape.frame_bytes;
    if is_beyond(shape, offset, count) {
        return Err(Errno::Einval);
    }
    stream.load_at(offset, out);
    Ok(count)
}

/// The page that shows the state and the pointers, without an update; zeros without a configuration (`struct
/// snd_pcm_mmap_status`).
pub fn page_of<C: Card>(stream: &Substream<C>) -> Page
    ensures page { (s : Stream) → StandsFor stream.now s → result ≡ page_in s }
    ensures bound { result.avail < 2 ^ 36 }
{
    stream.page()
}
