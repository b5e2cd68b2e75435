// How a transfer begins: what it is refused for, the update before it, and the start that a read asks for (the checks of
// `__snd_pcm_lib_xfer` in `pcm_lib.c`, which passes over what its update answers; here EPIPE ends the call before a frame moves.
// That bytes are whole frames and the limit of one read are this project's own).
ghost use Rattle.std.specs.Prelude.{◌≡◌, ◌≢◌, ◌+◌, ◌*◌, ◌/◌, ◌^◌, ◌≤◌, ◌<◌, ◌&&◌, not, nat_eq, nat_le, ℕ, Bool, List, [], length, true, false, MatchResult, IfOk, Some};
ghost use Rattle.std.specs.Option.{is_some};
ghost use Rattle.pcm_base.specs.declared.config.Config.{Config as ConfigOf};
ghost use Rattle.pcm_base.specs.declared.ids.SubId.{SubId};
ghost use Rattle.pcm_base.specs.declared.reply.Reply.TheVariants.{Memory};
ghost use Rattle.pcm_base.specs.model.Group.{stream_of};
ghost use Rattle.pcm_base.specs.model.Program.{Answer};
ghost use Rattle.pcm_base.specs.model.Stream.{Stream, Member as ModelMember};
ghost use Rattle.pcm_base.specs.model.Transfer.{beq, fits as fits_in, frames_by, misfit, read as read_of, start_reading as reading_from, write as write_of};
ghost use Rattle.pcm_base.specs.model.Words.{is_playback, is_prepared};
ghost use Rattle.pcm_stream.specs.Members.{members_of, numbers_of};
ghost use Rattle.pcm_stream.specs.StandsFor.{StandsFor};
ghost use Rattle.pcm_group.specs.Ended.{IsAt, IsEndedBy, RunsTo};
ghost use Rattle.pcm_group.specs.Faults.{KeepsCards};
ghost use Rattle.pcm_group.specs.Transfers.{AreBytesOf, HasBytes, IsFit, IsLong, IsReadable, IsStartingRead, IsTransferOf, begun, bytes_with, entering, kind_by};
ghost use Rattle.pcm_group.specs.Waiting.{calls_of, is_free};

use crate::acts::{make, refresh};
use crate::events::permitted;
use crate::transfer::{Carried, carry_on, said};
use crate::turn::Acts;
use pcm_base::{
    Access, Act, CallKind, Card, ClientId, Config, Dir, Errno, Layout, Mode, Reply, State, Updated,
    Xfer,
};
use pcm_stream::{Members, Substream};

// A write goes to a playback substream, a read to a capture one.
fn goes_with(writing: bool, dir: Dir) -> bool
    ensures { result ≡ beq writing (is_playback dir) }
{
    match (writing, dir) {
        (true, Dir::Playback) | (false, Dir::Capture) => true,
        _ => false,
    }
}

// The layout fits the access.
fn fits(layout: Layout, config: &Config) -> bool
    ensures { result ≡ fits_in layout (Some config.now) }
{
    match (layout, config.access) {
        (Layout::Interleaved, Access::RwInterleaved) => true,
        (Layout::Interleaved, _) => config.channels == 1,
        (Layout::Planar, Access::RwNoninterleaved) => true,
        (Layout::Planar, _) => false,
    }
}

// The call of the error table.
fn kind_of(writing: bool) -> CallKind
    ensures { result ≡ kind_by writing }
{
    if writing {
        CallKind::Write
    } else {
        CallKind::Read
    }
}

// The bytes of a frame, where a transfer in this direction and layout fits the substream.
fn frame_of<C: Card>(stream: &Substream<C>, writing: bool, layout: Layout) -> Result<u64, Errno>
    ensures fits { (s : Stream) → StandsFor stream.now s → MatchResult result (λ n. IsFit s writing layout n) (λ e. (whole : Bool) → misfit s writing layout whole ≡ Some e) }
    ensures some { IfOk result (λ n. 1 ≤ n) }
{
    if !goes_with(writing, stream.dir()) {
        return Err(Errno::Einval);
    }
    let Some(config) = stream.config() else {
        return Err(Errno::Ebadfd);
    };
    let Some(shape) = stream.shape() else {
        return Err(Errno::Ebadfd);
    };
    if !fits(layout, config) {
        return Err(Errno::Einval);
    }
    Ok(shape.frame_bytes)
}

// The count of the bytes.
fn size_of(io: &[u8]) -> u64
    ensures count { result ≡ length io.now }
    ensures bound { result < 2 ^ 64 }
{
    io.len() as u64
}

/// So many bytes are all frames of a call, of which some have moved and some rest.
pub(crate) fn is_length(size: u64, frame: u64, moved: u64, rest: u64) -> bool
    requires frame { 1 ≤ frame }
    ensures { result ≡ nat_eq size ((moved + rest) * frame) }
{
    let count = size / frame;
    if size % frame != 0 || count < moved {
        return false;
    }
    count - moved == rest
}

/// Whether the bytes are those of the whole call: the frames that have moved, and those that rest.
pub(crate) fn has_bytes<C: Card>(stream: &Substream<C>, xfer: &Xfer, io: &[u8]) -> bool
    ensures sizes { result ≡ true → HasBytes stream.now xfer.now io.now }
    ensures model { (s : Stream) → StandsFor stream.now s → is_some s.setup.config ≡ true → result ≡ nat_eq (length io.now) ((xfer.now.moved + xfer.now.rest) * s.setup.frame_bytes) }
{
    match stream.shape() {
        Some(shape) => is_length(io.len() as u64, shape.frame_bytes, xfer.moved, xfer.rest),
        None => false,
    }
}

// A read in PREPARED that asks for enough starts its group.
fn starts_read<C: Card>(stream: &Substream<C>, xfer: &Xfer) -> bool
    ensures { (s : Stream) (config : ConfigOf) → StandsFor stream.now s → s.setup.config ≡ Some config → result ≡ (not xfer.now.writing && (is_prepared s.state && nat_le s.setup.sw.start_threshold xfer.now.rest)) }
{
    match (xfer.writing, stream.state(), stream.sw()) {
        (false, State::Prepared, Some(sw)) => sw.start_threshold <= xfer.rest,
        _ => false,
    }
}

// The group of a read is started, and the read goes on.
fn start_reading<C: Card>(
    members: &mut Members<C>,
    place: usize,
    client: ClientId,
    xfer: Xfer,
    io: &mut [u8],
    acts: &mut Acts,
) -> Carried
    requires place { place < length (members_of members.old) }
    requires client { client.0 ≤ 15 }
    requires free { is_free client (calls_of (members_of members.old)) ≡ true }
    requires none { acts.old ≡ [] }
    requires bytes { AreBytesOf (members_of members.old) place xfer io.old }
    ensures done { (k : SubId) (tells : List Bool) (xs : List ModelMember) → IsAt (members_of members.old) place k tells xs → IsTransferOf (stream_of k xs) xfer → IsStartingRead xfer (stream_of k xs)
        → IsEndedBy client tells (reading_from client xfer (stream_of k xs)) k xs acts.old acts.new result.reply result.first result.moved (members_of members.new) }
    ensures bytes { (k : SubId) (tells : List Bool) (xs : List ModelMember) (b : Answer) (ys : List ModelMember) → IsAt (members_of members.old) place k tells xs → IsTransferOf (stream_of k xs) xfer → IsStartingRead xfer (stream_of k xs)
        → RunsTo tells (reading_from client xfer (stream_of k xs)) k xs acts.new b ys → io.new ≡ bytes_with xfer.writing xfer.layout b.first b.frames (stream_of k xs) io.old }
    ensures told { result.reply ≢ Memory }
    ensures numbers { numbers_of (members_of members.new) ≡ numbers_of (members_of members.old) }
    ensures cards { KeepsCards acts.old (members_of members.old) acts.new (members_of members.new) }
{
    match make(members, Act::Start, acts) {
        Ok(()) => carry_on(members, place, client, xfer, io, acts),
        Err(e) => said(Reply::Err(e)),
    }
}

// The transfer, once its update has found nothing.
fn enter<C: Card>(
    members: &mut Members<C>,
    place: usize,
    client: ClientId,
    xfer: Xfer,
    io: &mut [u8],
    acts: &mut Acts,
) -> Carried
    requires place { place < length (members_of members.old) }
    requires client { client.0 ≤ 15 }
    requires free { is_free client (calls_of (members_of members.old)) ≡ true }
    requires none { acts.old ≡ [] }
    requires bytes { AreBytesOf (members_of members.old) place xfer io.old }
    ensures done { (k : SubId) (tells : List Bool) (xs : List ModelMember) → IsAt (members_of members.old) place k tells xs → IsTransferOf (stream_of k xs) xfer → xfer.moved ≡ 0
        → IsEndedBy client tells (entering xfer.writing client xfer (frames_by xfer.layout (stream_of k xs) io.old) (stream_of k xs)) k xs acts.old acts.new result.reply result.first result.moved (members_of members.new) }
    ensures bytes { (k : SubId) (tells : List Bool) (xs : List ModelMember) (b : Answer) (ys : List ModelMember) → IsAt (members_of members.old) place k tells xs → IsTransferOf (stream_of k xs) xfer → xfer.moved ≡ 0
        → RunsTo tells (entering xfer.writing client xfer (frames_by xfer.layout (stream_of k xs) io.old) (stream_of k xs)) k xs acts.new b ys → io.new ≡ bytes_with xfer.writing xfer.layout b.first b.frames (stream_of k xs) io.old }
    ensures told { result.reply ≢ Memory }
    ensures numbers { numbers_of (members_of members.new) ≡ numbers_of (members_of members.old) }
    ensures cards { KeepsCards acts.old (members_of members.old) acts.new (members_of members.new) }
{
    if starts_read(&members.at(place).stream, &xfer) {
        start_reading(members, place, client, xfer, io, acts)
    } else {
        carry_on(members, place, client, xfer, io, acts)
    }
}

// A transfer that fits the stream: the table, the update, and then its turns. Bytes of another length than the call's,
// which no caller hands in, are refused.
fn begin<C: Card>(
    members: &mut Members<C>,
    place: usize,
    client: ClientId,
    xfer: Xfer,
    io: &mut [u8],
    acts: &mut Acts,
) -> Carried
    requires place { place < length (members_of members.old) }
    requires client { client.0 ≤ 15 }
    requires free { is_free client (calls_of (members_of members.old)) ≡ true }
    requires none { acts.old ≡ [] }
    ensures done { (k : SubId) (tells : List Bool) (xs : List ModelMember) → IsAt (members_of members.old) place k tells xs → IsTransferOf (stream_of k xs) xfer → xfer.moved ≡ 0 → IsLong xfer io.old (stream_of k xs)
        → IsEndedBy client tells (begun xfer.writing client xfer (frames_by xfer.layout (stream_of k xs) io.old) (stream_of k xs)) k xs acts.old acts.new result.reply result.first result.moved (members_of members.new) }
    ensures bytes { (k : SubId) (tells : List Bool) (xs : List ModelMember) (b : Answer) (ys : List ModelMember) → IsAt (members_of members.old) place k tells xs → IsTransferOf (stream_of k xs) xfer → xfer.moved ≡ 0 → IsLong xfer io.old (stream_of k xs)
        → RunsTo tells (begun xfer.writing client xfer (frames_by xfer.layout (stream_of k xs) io.old) (stream_of k xs)) k xs acts.new b ys → io.new ≡ bytes_with xfer.writing xfer.layout b.first b.frames (stream_of k xs) io.old }
    ensures told { result.reply ≢ Memory }
    ensures numbers { numbers_of (members_of members.new) ≡ numbers_of (members_of members.old) }
    ensures cards { KeepsCards acts.old (members_of members.old) acts.new (members_of members.new) }
{
    if xfer.rest == 0 {
        return said(Reply::Frames(0));
    }
    if let Err(e) = permitted(members, place, kind_of(xfer.writing)) {
        return said(Reply::Err(e));
    }
    if !has_bytes(&members.at(place).stream, &xfer, io) {
        return said(Reply::Err(Errno::Einval));
    }
    match refresh(members, place, acts) {
        Updated::Nothing => enter(members, place, client, xfer, io, acts),
        Updated::DrainDone | Updated::StopXrun => said(Reply::Err(Errno::Epipe)),
    }
}

// A write of these bytes, that fits the substream, whose frames have so many.
fn write_frames<C: Card>(
    members: &mut Members<C>,
    place: usize,
    client: ClientId,
    layout: Layout,
    mode: Mode,
    frame: u64,
    io: &mut [u8],
    acts: &mut Acts,
) -> Carried
    requires place { place < length (members_of members.old) }
    requires client { client.0 ≤ 15 }
    requires free { is_free client (calls_of (members_of members.old)) ≡ true }
    requires none { acts.old ≡ [] }
    requires frame { 1 ≤ frame }
    ensures done { (k : SubId) (tells : List Bool) (xs : List ModelMember) → IsAt (members_of members.old) place k tells xs → IsFit (stream_of k xs) true layout frame
        → IsEndedBy client tells (write_of client layout mode io.old (stream_of k xs)) k xs acts.old acts.new result.reply result.first result.moved (members_of members.new) }
    ensures bytes { (k : SubId) (tells : List Bool) (xs : List ModelMember) (b : Answer) (ys : List ModelMember) → IsAt (members_of members.old) place k tells xs → IsFit (stream_of k xs) true layout frame
        → RunsTo tells (write_of client layout mode io.old (stream_of k xs)) k xs acts.new b ys → io.new ≡ io.old }
    ensures told { result.reply ≢ Memory }
    ensures numbers { numbers_of (members_of members.new) ≡ numbers_of (members_of members.old) }
    ensures cards { KeepsCards acts.old (members_of members.old) acts.new (members_of members.new) }
{
    let size = size_of(io);
    if size % frame != 0 {
        return said(Reply::Err(Errno::Einval));
    }
    let xfer = Xfer {
        writing: true,
        layout,
        mode,
        rest: size / frame,
        moved: 0,
    };
    begin(members, place, client, xfer, io, acts)
}

/// A write of these bytes.
pub(crate) fn write<C: Card>(
    members: &mut Members<C>,
    place: usize,
    client: ClientId,
    layout: Layout,
    mode: Mode,
    io: &mut [u8],
    acts: &mut Acts,
) -> Carried
    requires place { place < length (members_of members.old) }
    requires client { client.0 ≤ 15 }
    requires free { is_free client (calls_of (members_of members.old)) ≡ true }
    requires none { acts.old ≡ [] }
    ensures done { (k : SubId) (tells : List Bool) (xs : List ModelMember) → IsAt (members_of members.old) place k tells xs
        → IsEndedBy client tells (write_of client layout mode io.old (stream_of k xs)) k xs acts.old acts.new result.reply result.first result.moved (members_of members.new) }
    ensures bytes { (k : SubId) (tells : List Bool) (xs : List ModelMember) (b : Answer) (ys : List ModelMember) → IsAt (members_of members.old) place k tells xs
        → RunsTo tells (write_of client layout mode io.old (stream_of k xs)) k xs acts.new b ys → io.new ≡ io.old }
    ensures told { result.reply ≢ Memory }
    ensures numbers { numbers_of (members_of members.new) ≡ numbers_of (members_of members.old) }
    ensures cards { KeepsCards acts.old (members_of members.old) acts.new (members_of members.new) }
{
    match frame_of(&members.at(place).stream, true, layout) {
        Ok(frame) => write_frames(members, place, client, layout, mode, frame, io, acts),
        Err(e) => said(Reply::Err(e)),
    }
}

// A read of so many frames, that fits the substream.
fn read_frames<C: Card>(
    members: &mut Members<C>,
    place: usize,
    client: ClientId,
    layout: Layout,
    mode: Mode,
    n: u64,
    io: &mut [u8],
    acts: &mut Acts,
) -> Carried
    requires place { place < length (members_of members.old) }
    requires client { client.0 ≤ 15 }
    requires free { is_free client (calls_of (members_of members.old)) ≡ true }
    requires none { acts.old ≡ [] }
    ensures done { (k : SubId) (tells : List Bool) (xs : List ModelMember) (frame : ℕ) → IsAt (members_of members.old) place k tells xs → IsFit (stream_of k xs) false layout frame → IsReadable layout n io.old (stream_of k xs)
        → IsEndedBy client tells (read_of client layout mode n (stream_of k xs)) k xs acts.old acts.new result.reply result.first result.moved (members_of members.new) }
    ensures bytes { (k : SubId) (tells : List Bool) (xs : List ModelMember) (frame : ℕ) (b : Answer) (ys : List ModelMember) → IsAt (members_of members.old) place k tells xs → IsFit (stream_of k xs) false layout frame → IsReadable layout n io.old (stream_of k xs)
        → RunsTo tells (read_of client layout mode n (stream_of k xs)) k xs acts.new b ys → io.new ≡ bytes_with false layout b.first b.frames (stream_of k xs) io.old }
    ensures told { result.reply ≢ Memory }
    ensures numbers { numbers_of (members_of members.new) ≡ numbers_of (members_of members.old) }
    ensures cards { KeepsCards acts.old (members_of members.old) acts.new (members_of members.new) }
{
    if n > 1_048_576 {
        return said(Reply::Err(Errno::Einval));
    }
    let xfer = Xfer {
        writing: false,
        layout,
        mode,
        rest: n,
        moved: 0,
    };
    begin(members, place, client, xfer, io, acts)
}

/// A read of so many frames into these bytes, which have its length.
pub(crate) fn read<C: Card>(
    members: &mut Members<C>,
    place: usize,
    client: ClientId,
    layout: Layout,
    mode: Mode,
    n: u64,
    io: &mut [u8],
    acts: &mut Acts,
) -> Carried
    requires place { place < length (members_of members.old) }
    requires client { client.0 ≤ 15 }
    requires free { is_free client (calls_of (members_of members.old)) ≡ true }
    requires none { acts.old ≡ [] }
    ensures done { (k : SubId) (tells : List Bool) (xs : List ModelMember) → IsAt (members_of members.old) place k tells xs → IsReadable layout n io.old (stream_of k xs)
        → IsEndedBy client tells (read_of client layout mode n (stream_of k xs)) k xs acts.old acts.new result.reply result.first result.moved (members_of members.new) }
    ensures bytes { (k : SubId) (tells : List Bool) (xs : List ModelMember) (b : Answer) (ys : List ModelMember) → IsAt (members_of members.old) place k tells xs → IsReadable layout n io.old (stream_of k xs)
        → RunsTo tells (read_of client layout mode n (stream_of k xs)) k xs acts.new b ys → io.new ≡ bytes_with false layout b.first b.frames (stream_of k xs) io.old }
    ensures told { result.reply ≢ Memory }
    ensures numbers { numbers_of (members_of members.new) ≡ numbers_of (members_of members.old) }
    ensures cards { KeepsCards acts.old (members_of members.old) acts.new (members_of members.new) }
{
    match frame_of(&members.at(place).stream, false, layout) {
        Ok(_) => read_frames(members, place, client, layout, mode, n, io, acts),
        Err(e) => said(Reply::Err(e)),
    }
}
