// A call in progress that is entered again (the wait loops of `__snd_pcm_lib_xfer` and `snd_pcm_drain` after they are woken;
// that a client enters its call again by a call of its own, with the call's bytes, is this project's own, and so is that a
// drain tells a suspend with ESTRPIPE and a reader gets the frames that a drain has left).
ghost use Rattle.std.specs.Prelude.{◌≡◌, ◌≢◌, ◌≤◌, ◌<◌, ℕ, Bool, List, [], length, true, false, if◌then◌else◌, IfSome, Some};
ghost use Rattle.pcm_base.specs.declared.call.Call.TheVariants as call;
ghost use Rattle.pcm_base.specs.declared.ids.ClientId.{ClientId as ClientIdOf};
ghost use Rattle.pcm_base.specs.declared.ids.SubId.{SubId};
ghost use Rattle.pcm_base.specs.declared.reply.Reply.TheVariants.{Asleep, Memory};
ghost use Rattle.pcm_base.specs.declared.sleeper.Task.TheVariants as task;
ghost use Rattle.pcm_base.specs.declared.sleeper.Xfer.{Xfer as XferOf};
ghost use Rattle.pcm_base.specs.declared.votes.Acted.{Acted as ActedOf};
ghost use Rattle.pcm_base.specs.model.Events.{go as go_of, go_on as going_on, go_transfer as transferring, left_by, waiting_of};
ghost use Rattle.pcm_base.specs.model.Group.{put_stream, stream_of};
ghost use Rattle.pcm_base.specs.model.Program.{Answer, says};
ghost use Rattle.pcm_base.specs.model.Stream.{Stream, Member as ModelMember};
ghost use Rattle.pcm_base.specs.model.Words.{is_disconnected, is_suspended};
ghost use Rattle.pcm_stream.specs.Members.{members_of, numbers_of};
ghost use Rattle.pcm_stream.specs.MembersStand.{TaskFits};
ghost use Rattle.pcm_stream.specs.StandsFor.{StandsFor};
ghost use Rattle.pcm_group.specs.Bytes.{bytes_left};
ghost use Rattle.pcm_group.specs.Ended.{IsAt, IsEndedBy, RunsTo};
ghost use Rattle.pcm_group.specs.Faults.{KeepsCards};
ghost use Rattle.pcm_group.specs.Going.{comes_to, fate_in};
ghost use Rattle.pcm_group.specs.Transfers.{AreBytesOf, IsTransferOf, bytes_with};
ghost use Rattle.pcm_group.specs.Waiting.{calls_of, is_free, is_free_but};

use crate::acts::make;
use crate::transfer::{Carried, carry_on, moved_or, said};
use crate::turn::Acts;
use crate::write_read::has_bytes;
use pcm_base::{Act, Card, ClientId, Dir, Errno, Reply, State, Task, Xfer};
use pcm_stream::{Members, Substream};

// What becomes of a transfer in progress.
#[derive(Clone, Copy)]
enum Fate {
    Waits,
    Ends(Errno),
    GoesOn,
}

// In each state, where the test tells whether too few frames are available.
fn fate_by(state: State, dir: Dir, too_few: bool) -> Fate
    ensures { result ≡ fate_in state dir too_few }
{
    match (state, dir) {
        (State::Prepared | State::Running | State::Paused, _) if too_few => Fate::Waits,
        (State::Prepared | State::Running | State::Paused, _) => Fate::GoesOn,
        (State::Suspended, _) => Fate::Ends(Errno::Estrpipe),
        (State::Xrun, _) => Fate::Ends(Errno::Epipe),
        (State::Draining, Dir::Playback) => Fate::Ends(Errno::Epipe),
        (State::Draining, Dir::Capture) => Fate::GoesOn,
        _ => Fate::Ends(Errno::Ebadfd),
    }
}

// What becomes of a transfer that waits for so many frames.
fn becomes<C: Card>(stream: &Substream<C>, wanted: u64) -> Fate
    ensures { (c : ClientIdOf) (x : XferOf) (io : List ℕ) (s : Stream) → StandsFor stream.now s → transferring c x wanted io s ≡ comes_to c x io s result }
{
    let page = stream.page();
    fate_by(page.state, stream.dir(), page.avail < wanted)
}

fn is_asleep(reply: Reply) -> bool
    ensures asleep { result ≡ true → reply ≡ Asleep }
    ensures awake { result ≡ false → reply ≢ Asleep }
{
    matches!(reply, Reply::Asleep)
}

// What the client's call on the member at this place waits for; None where it has none there.
fn task_at<C: Card>(members: &Members<C>, place: usize, client: ClientId) -> Option<Task>
    requires place { place < length (members_of members.now) }
    ensures task { (k : SubId) (tells : List Bool) (xs : List ModelMember) → IsAt (members_of members.now) place k tells xs → result ≡ waiting_of client (stream_of k xs).sleepers }
    ensures fits { (k : SubId) (tells : List Bool) (xs : List ModelMember) → IsAt (members_of members.now) place k tells xs → IfSome result (TaskFits (stream_of k xs)) }
{
    members.at(place).sleepers.task(client)
}

// An answer with which the client's call on the member at this place, if it has one, stays there, asleep or awake by the
// answer.
fn stay<C: Card>(members: &mut Members<C>, place: usize, client: ClientId, reply: Reply) -> Carried
    requires place { place < length (members_of members.old) }
    ensures done { (k : SubId) (tells : List Bool) (xs : List ModelMember) (acts : List ActedOf) → IsAt (members_of members.old) place k tells xs
        → IsEndedBy client tells (says reply (stream_of k xs)) k xs acts acts result.reply result.first result.moved (members_of members.new) }
    ensures reply { result.reply ≡ reply }
    ensures moved { result.moved ≡ 0 }
    ensures numbers { numbers_of (members_of members.new) ≡ numbers_of (members_of members.old) }
    ensures cards { (acts : List ActedOf) → KeepsCards acts (members_of members.old) acts (members_of members.new) }
{
    members
        .at_mut(place)
        .sleepers
        .mark(client, is_asleep(reply));
    said(reply)
}

// The client's call is no more kept.
fn leave<C: Card>(members: &mut Members<C>, place: usize, client: ClientId)
    requires place { place < length (members_of members.old) }
    requires free { is_free_but place client (calls_of (members_of members.old)) ≡ true }
    ensures left { (k : SubId) (tells : List Bool) (xs : List ModelMember) → IsAt (members_of members.old) place k tells xs
        → IsAt (members_of members.new) place k tells (put_stream k (left_by client (stream_of k xs)) xs) }
    ensures free { is_free client (calls_of (members_of members.new)) ≡ true }
    ensures bytes { (x : XferOf) (io : List ℕ) → AreBytesOf (members_of members.old) place x io → AreBytesOf (members_of members.new) place x io }
    ensures numbers { numbers_of (members_of members.new) ≡ numbers_of (members_of members.old) }
    ensures cards { (acts : List ActedOf) → KeepsCards acts (members_of members.old) acts (members_of members.new) }
{
    let _ = members.at_mut(place).sleepers.take(client);
}

// The client's call ends with this answer.
fn finish<C: Card>(
    members: &mut Members<C>,
    place: usize,
    client: ClientId,
    reply: Reply,
) -> Carried
    requires place { place < length (members_of members.old) }
    requires free { is_free_but place client (calls_of (members_of members.old)) ≡ true }
    requires awake { reply ≢ Asleep }
    ensures done { (k : SubId) (tells : List Bool) (xs : List ModelMember) (acts : List ActedOf) → IsAt (members_of members.old) place k tells xs
        → IsEndedBy client tells (says reply (left_by client (stream_of k xs))) k xs acts acts result.reply result.first result.moved (members_of members.new) }
    ensures reply { result.reply ≡ reply }
    ensures moved { result.moved ≡ 0 }
    ensures numbers { numbers_of (members_of members.new) ≡ numbers_of (members_of members.old) }
    ensures cards { (acts : List ActedOf) → KeepsCards acts (members_of members.old) acts (members_of members.new) }
{
    leave(members, place, client);
    said(reply)
}

// The client's transfer goes on, and is no more kept as waiting.
fn go_on<C: Card>(
    members: &mut Members<C>,
    place: usize,
    client: ClientId,
    xfer: Xfer,
    io: &mut [u8],
    acts: &mut Acts,
) -> Carried
    requires place { place < length (members_of members.old) }
    requires client { client.0 ≤ 15 }
    requires free { is_free_but place client (calls_of (members_of members.old)) ≡ true }
    requires none { acts.old ≡ [] }
    requires bytes { AreBytesOf (members_of members.old) place xfer io.old }
    ensures done { (k : SubId) (tells : List Bool) (xs : List ModelMember) → IsAt (members_of members.old) place k tells xs → IsTransferOf (stream_of k xs) xfer
        → IsEndedBy client tells (going_on client xfer io.old (left_by client (stream_of k xs))) k xs acts.old acts.new result.reply result.first result.moved (members_of members.new) }
    ensures bytes { (k : SubId) (tells : List Bool) (xs : List ModelMember) (b : Answer) (ys : List ModelMember) → IsAt (members_of members.old) place k tells xs
        → RunsTo tells (going_on client xfer io.old (left_by client (stream_of k xs))) k xs acts.new b ys → io.new ≡ bytes_with xfer.writing xfer.layout b.first b.frames (stream_of k xs) io.old }
    ensures told { result.reply ≢ Memory }
    ensures numbers { numbers_of (members_of members.new) ≡ numbers_of (members_of members.old) }
    ensures cards { KeepsCards acts.old (members_of members.old) acts.new (members_of members.new) }
{
    leave(members, place, client);
    carry_on(members, place, client, xfer, io, acts)
}

// The client's transfer, which waits for so many frames.
fn go_transfer<C: Card>(
    members: &mut Members<C>,
    place: usize,
    client: ClientId,
    xfer: Xfer,
    wanted: u64,
    io: &mut [u8],
    acts: &mut Acts,
) -> Carried
    requires place { place < length (members_of members.old) }
    requires client { client.0 ≤ 15 }
    requires free { is_free_but place client (calls_of (members_of members.old)) ≡ true }
    requires none { acts.old ≡ [] }
    ensures done { (k : SubId) (tells : List Bool) (xs : List ModelMember) → IsAt (members_of members.old) place k tells xs → TaskFits (stream_of k xs) (task.Transfer xfer wanted) → waiting_of client (stream_of k xs).sleepers ≡ Some (task.Transfer xfer wanted)
        → IsEndedBy client tells (go_of client io.old (stream_of k xs)) k xs acts.old acts.new result.reply result.first result.moved (members_of members.new) }
    ensures bytes { (k : SubId) (tells : List Bool) (xs : List ModelMember) (b : Answer) (ys : List ModelMember) → IsAt (members_of members.old) place k tells xs → TaskFits (stream_of k xs) (task.Transfer xfer wanted) → waiting_of client (stream_of k xs).sleepers ≡ Some (task.Transfer xfer wanted)
        → RunsTo tells (go_of client io.old (stream_of k xs)) k xs acts.new b ys → io.new ≡ bytes_left call.Go client (stream_of k xs) b io.old }
    ensures told { result.reply ≢ Memory }
    ensures numbers { numbers_of (members_of members.new) ≡ numbers_of (members_of members.old) }
    ensures cards { KeepsCards acts.old (members_of members.old) acts.new (members_of members.new) }
{
    if !has_bytes(&members.at(place).stream, &xfer, io) {
        return stay(members, place, client, Reply::Err(Errno::Einval));
    }
    match becomes(&members.at(place).stream, wanted) {
        Fate::Waits => stay(members, place, client, Reply::Asleep),
        Fate::Ends(e) => finish(members, place, client, moved_or(xfer.moved, e)),
        Fate::GoesOn => go_on(members, place, client, xfer, io, acts),
    }
}

fn is_gone(state: State) -> bool
    ensures { result ≡ is_disconnected state }
{
    matches!(state, State::Disconnected)
}

// What a drain answers that waits no more.
fn drained(state: State) -> Reply
    ensures answer { result ≡ if is_suspended state then Reply.Err Errno.Estrpipe else Reply.Ok }
    ensures told { result ≢ Memory }
    ensures awake { result ≢ Asleep }
{
    match state {
        State::Suspended => Reply::Err(Errno::Estrpipe),
        _ => Reply::Ok,
    }
}

// The client's drain, which hands in no bytes, waits while a member of its group drains.
fn go_drain<C: Card>(
    members: &mut Members<C>,
    place: usize,
    client: ClientId,
    io: &[u8],
    acts: &mut Acts,
) -> Carried
    requires place { place < length (members_of members.old) }
    requires free { is_free_but place client (calls_of (members_of members.old)) ≡ true }
    requires none { acts.old ≡ [] }
    ensures done { (k : SubId) (tells : List Bool) (xs : List ModelMember) → IsAt (members_of members.old) place k tells xs → waiting_of client (stream_of k xs).sleepers ≡ Some task.Drain
        → IsEndedBy client tells (go_of client io.now (stream_of k xs)) k xs acts.old acts.new result.reply result.first result.moved (members_of members.new) }
    ensures told { result.reply ≢ Memory }
    ensures numbers { numbers_of (members_of members.new) ≡ numbers_of (members_of members.old) }
    ensures cards { KeepsCards acts.old (members_of members.old) acts.new (members_of members.new) }
{
    if !io.is_empty() {
        return stay(members, place, client, Reply::Err(Errno::Einval));
    }
    if is_gone(members.at(place).stream.state()) {
        return finish(members, place, client, Reply::Err(Errno::Ebadfd));
    }
    match make(members, Act::Watch, acts) {
        Ok(()) => {
            let state = members.at(place).stream.state();
            finish(members, place, client, drained(state))
        }
        Err(_) => stay(members, place, client, Reply::Asleep),
    }
}

/// The client's call in progress on the member at this place is entered again, with its own bytes. EINVAL where it has none
/// there, or where the bytes are of another length.
pub(crate) fn go<C: Card>(
    members: &mut Members<C>,
    place: usize,
    client: ClientId,
    io: &mut [u8],
    acts: &mut Acts,
) -> Carried
    requires place { place < length (members_of members.old) }
    requires client { client.0 ≤ 15 }
    requires free { is_free_but place client (calls_of (members_of members.old)) ≡ true }
    requires none { acts.old ≡ [] }
    ensures done { (k : SubId) (tells : List Bool) (xs : List ModelMember) → IsAt (members_of members.old) place k tells xs
        → IsEndedBy client tells (go_of client io.old (stream_of k xs)) k xs acts.old acts.new result.reply result.first result.moved (members_of members.new) }
    ensures bytes { (k : SubId) (tells : List Bool) (xs : List ModelMember) (b : Answer) (ys : List ModelMember) → IsAt (members_of members.old) place k tells xs
        → RunsTo tells (go_of client io.old (stream_of k xs)) k xs acts.new b ys → io.new ≡ bytes_left call.Go client (stream_of k xs) b io.old }
    ensures told { result.reply ≢ Memory }
    ensures numbers { numbers_of (members_of members.new) ≡ numbers_of (members_of members.old) }
    ensures cards { KeepsCards acts.old (members_of members.old) acts.new (members_of members.new) }
{
    match task_at(members, place, client) {
        Some(Task::Transfer(xfer, wanted)) => go_transfer(
            members, place, client, xfer, wanted, io, acts,
        ),
        Some(Task::Drain) => go_drain(members, place, client, io, acts),
        None => stay(members, place, client, Reply::Err(Errno::Einval)),
    }
}
