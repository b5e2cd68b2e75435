// The events that move the application pointer (`snd_pcm_rewind`, `snd_pcm_forward` and `snd_pcm_sync_ptr`; the kernel's wake
// nobody, where here the check at the end of a step does, and a sync in OPEN is EBADFD here).
ghost use Rattle.std.specs.Prelude.{◌≡◌, ◌≢◌, ◌<◌, Bool, List, true, [], length};
ghost use Rattle.pcm_base.specs.declared.call.Call.TheVariants as call;
ghost use Rattle.pcm_base.specs.declared.ids.ClientId.{ClientId};
ghost use Rattle.pcm_base.specs.declared.ids.SubId.{SubId};
ghost use Rattle.pcm_base.specs.declared.reply.Reply.TheVariants.{Asleep, Memory};
ghost use Rattle.pcm_base.specs.model.Events.{event as event_of, forwarded, rewound};
ghost use Rattle.pcm_base.specs.model.Group.{stream_of};
ghost use Rattle.pcm_base.specs.model.Sound.{is_set_up};
ghost use Rattle.pcm_base.specs.model.Stream.{Stream, Member as ModelMember};
ghost use Rattle.pcm_stream.specs.Members.{all_fixed, members_of};
ghost use Rattle.pcm_stream.specs.Kept.{KeepsSizes};
ghost use Rattle.pcm_stream.specs.StandsFor.{StandsFor};
ghost use Rattle.pcm_group.specs.Ended.{IsAt, IsEnded, IsOwnEnd};
ghost use Rattle.pcm_group.specs.Faults.{KeepsCards};

use crate::acts::refresh;
use crate::events::permitted;
use crate::turn::Acts;
use pcm_base::{CallKind, Card, Errno, Reply, Updated};
use pcm_stream::{Members, Substream};
use state_table::permit;

// Takes frames back. A substream without a configuration has none.
fn rewind_now<C: Card>(stream: &mut Substream<C>, n: u64) -> Reply
    ensures done { (s : Stream) → StandsFor stream.old s → is_set_up s.state ≡ true → IsOwnEnd s (rewound n s) result 0 0 stream.new }
    ensures told { result ≢ Memory }
    ensures awake { result ≢ Asleep }
    ensures keeps { KeepsSizes stream.old stream.new }
{
    match stream.shape() {
        Some(_) => Reply::Frames(stream.rewind(n)),
        None => Reply::Frames(0),
    }
}

// Passes over frames. A substream without a configuration has none.
fn forward_now<C: Card>(stream: &mut Substream<C>, n: u64) -> Reply
    ensures done { (s : Stream) → StandsFor stream.old s → is_set_up s.state ≡ true → IsOwnEnd s (forwarded n s) result 0 0 stream.new }
    ensures told { result ≢ Memory }
    ensures awake { result ≢ Asleep }
    ensures keeps { KeepsSizes stream.old stream.new }
{
    match stream.shape() {
        Some(_) => Reply::Frames(stream.forward(n)),
        None => Reply::Frames(0),
    }
}

/// Takes up to `n` frames back, after an update; none are asked for before the error table is.
pub(crate) fn rewind<C: Card>(
    members: &mut Members<C>,
    place: usize,
    n: u64,
    acts: &mut Acts,
) -> Reply
    requires place { place < length (members_of members.old) }
    requires few { length acts.old < 3 }
    ensures done { (c : ClientId) (linked : Bool) (k : SubId) (tells : List Bool) (xs : List ModelMember) → IsAt (members_of members.old) place k tells xs
        → IsEnded tells (event_of (call.Rewind n) c linked [] (stream_of k xs)) k xs acts.old acts.new result 0 0 (members_of members.new) }
    ensures told { result ≢ Memory }
    ensures awake { result ≢ Asleep }
    ensures fixed { all_fixed (members_of members.new) ≡ all_fixed (members_of members.old) }
    ensures cards { KeepsCards acts.old (members_of members.old) acts.new (members_of members.new) }
{
    if n == 0 {
        return Reply::Frames(0);
    }
    if let Err(e) = permitted(members, place, CallKind::Rewind) {
        return Reply::Err(e);
    }
    match refresh(members, place, acts) {
        Updated::Nothing => rewind_now(&mut members.at_mut(place).stream, n),
        Updated::DrainDone | Updated::StopXrun => Reply::Err(Errno::Epipe),
    }
}

/// Passes over up to `n` frames, after an update; none are asked for before the error table is.
pub(crate) fn forward<C: Card>(
    members: &mut Members<C>,
    place: usize,
    n: u64,
    acts: &mut Acts,
) -> Reply
    requires place { place < length (members_of members.old) }
    requires few { length acts.old < 3 }
    ensures done { (c : ClientId) (linked : Bool) (k : SubId) (tells : List Bool) (xs : List ModelMember) → IsAt (members_of members.old) place k tells xs
        → IsEnded tells (event_of (call.Forward n) c linked [] (stream_of k xs)) k xs acts.old acts.new result 0 0 (members_of members.new) }
    ensures told { result ≢ Memory }
    ensures awake { result ≢ Asleep }
    ensures fixed { all_fixed (members_of members.new) ≡ all_fixed (members_of members.old) }
    ensures cards { KeepsCards acts.old (members_of members.old) acts.new (members_of members.new) }
{
    if n == 0 {
        return Reply::Frames(0);
    }
    if let Err(e) = permitted(members, place, CallKind::Forward) {
        return Reply::Err(e);
    }
    match refresh(members, place, acts) {
        Updated::Nothing => forward_now(&mut members.at_mut(place).stream, n),
        Updated::DrainDone | Updated::StopXrun => Reply::Err(Errno::Epipe),
    }
}

/// Moves the application pointer to the position that is shown as `p`, without an update.
pub(crate) fn sync_ptr<C: Card>(stream: &mut Substream<C>, p: u64) -> Reply
    ensures done { (c : ClientId) (linked : Bool) (s : Stream) → StandsFor stream.old s → IsOwnEnd s (event_of (call.SyncPtr p) c linked [] s) result 0 0 stream.new }
    ensures told { result ≢ Memory }
    ensures awake { result ≢ Asleep }
    ensures keeps { KeepsSizes stream.old stream.new }
{
    if let Err(e) = permit(CallKind::SyncPtr, stream.state(), stream.dir()) {
        return Reply::Err(e);
    }
    let Some(_) = stream.shape() else {
        return Reply::Err(Errno::Ebadfd);
    };
    match stream.sync(p) {
        Ok(()) => Reply::Ptrs(stream.page()),
        Err(e) => Reply::Err(e),
    }
}
