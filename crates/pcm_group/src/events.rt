// What each event does to a group (the ioctls of `pcm_native.c`; docs/LINUX.md lists where the kernel's do otherwise). What
// concerns one member alone stands in `own.rt`, `pointers.rt` and `mapped.rt`, transfers in `write_read.rt` and `transfer.rt`, the
// call that is entered again in `go.rt`.
ghost use Rattle.std.specs.Prelude.{◌≡◌, ◌≢◌, ◌≤◌, ◌<◌, ◌||◌, ◌&&◌, not, Bool, List, true, false, [], length, nat_lt, MatchResult, None, Some, slice_get};
ghost use Rattle.std.specs.Option.{ForSome, is_none, is_some};
ghost use Rattle.pcm_base.specs.declared.act.Act.TheVariants as act;
ghost use Rattle.pcm_base.specs.declared.act.Updated.TheVariants.{Nothing};
ghost use Rattle.pcm_base.specs.declared.call.Call.TheVariants as call;
ghost use Rattle.pcm_base.specs.declared.ids.ClientId.{ClientId as ClientIdOf};
ghost use Rattle.pcm_base.specs.declared.ids.SubId.{SubId};
ghost use Rattle.pcm_base.specs.declared.reply.Reply.TheVariants.{Asleep, Memory};
ghost use Rattle.pcm_base.specs.declared.votes.Acted.{Acted as ActedOf};
ghost use Rattle.pcm_base.specs.model.Acts.{table};
ghost use Rattle.pcm_base.specs.model.Events.{event as event_of, drain as drain_of, drain_now as drain_now_of, opens, program, unplug_alone as unplugging};
ghost use Rattle.pcm_base.specs.model.Group.{mark, put_stream, stream_of};
ghost use Rattle.pcm_base.specs.model.Program.{Answer, making};
ghost use Rattle.pcm_base.specs.model.Stream.{Member as ModelMember};
ghost use Rattle.pcm_base.specs.model.Transfer.{sleeping};
ghost use Rattle.pcm_base.specs.model.Words.{is_closed, is_paused as is_paused_in, is_running as is_running_in, is_suspended};
ghost use Rattle.sleepers.specs.Clients.{has_client};
ghost use Rattle.pcm_stream.specs.Members.{all_fixed, members_of, numbers_of};
ghost use Rattle.pcm_stream.specs.MembersStand.{AllStandFor, MemberStandsFor, TaskFits};
ghost use Rattle.pcm_stream.specs.Kept.{KeepsFaults};
ghost use Rattle.pcm_group.specs.Built.{is_act_call, is_own_call, is_waiting_call, own_frames};
ghost use Rattle.pcm_group.specs.Bytes.{HasLength, bytes_left};
ghost use Rattle.pcm_group.specs.Carried.{IsCarried, IsCarriedBy};
ghost use Rattle.pcm_group.specs.Ended.{IsAt, IsEnded, IsEndedBy, IsOwnEnd, RunsTo};
ghost use Rattle.pcm_group.specs.Faults.{KeepsCards};
ghost use Rattle.pcm_group.specs.Lent.{Loads, is_lent_call, is_reading};
ghost use Rattle.pcm_group.specs.Turn.{caller, is_card_event, is_group_call, may_want_memory};
ghost use Rattle.pcm_group.specs.Waiting.{calls_of, is_free, is_free_for};

use crate::acts::{act_alone, make, refresh};
use crate::go::go;
use crate::mapped::{lent_event, map, unmap};
use crate::own;
use crate::pointers::{forward, rewind, sync_ptr};
use crate::transfer::{Carried, said};
use crate::turn::Acts;
use crate::write_read::{read, write};
use pcm_base::{
    Act, Call, CallKind, Card, ClientId, Errno, Event, Mode, Reply, Sleeper, State, Task, Updated,
};
use pcm_stream::{Member, Members};
use state_table::permit;

/// An event that makes no act, on its own member.
pub(crate) fn own_event<C: Card>(member: &mut Member<C>, call: Call, linked: bool) -> Reply
    requires { is_own_call call ≡ true }
    ensures done { (c : ClientIdOf) (x : ModelMember) → MemberStandsFor member.old x → result ≢ Memory → IsOwnEnd x.stream (event_of call c linked [] x.stream) result 0 (own_frames call x.stream) member.new.stream }
    ensures memory { (x : ModelMember) → MemberStandsFor member.old x → result ≡ Memory → MemberStandsFor member.new x }
    ensures wants { result ≡ Memory → may_want_memory call ≡ true }
    ensures sub { member.new.sub ≡ member.old.sub }
    ensures sleepers { member.new.sleepers ≡ member.old.sleepers }
    ensures keeps { KeepsFaults member.old.stream member.new.stream }
    ensures awake { result ≢ Asleep }
{
    let busy = !member.sleepers.is_empty();
    let stream = &mut member.stream;
    match call {
        Call::OpenSub => own::open(stream),
        Call::CloseSub => own::close(stream, linked, busy),
        Call::HwParams(config) => own::hw_params(stream, &config, busy),
        Call::HwFree => own::hw_free(stream, busy),
        Call::SwParams(sw) => own::sw_params(stream, &sw),
        Call::PageNow => Reply::Ptrs(stream.page()),
        Call::Poll => own::poll(stream),
        Call::MoveBy(n) => own::move_by(stream, n),
        Call::FailAt(k) => own::fail_at(stream, k),
        Call::SyncPtr(p) => sync_ptr(stream, p),
        Call::Map => map(stream),
        Call::Unmap => unmap(stream),
        _ => unreachable!(),
    }
}

fn is_running(state: State) -> bool
    ensures { result ≡ is_running_in state }
{
    matches!(state, State::Running)
}

fn is_paused(state: State) -> bool
    ensures { result ≡ is_paused_in state }
{
    matches!(state, State::Paused)
}

// A state in which the card stands, and from which a prepare stops it first.
fn is_halted(state: State) -> bool
    ensures { result ≡ (is_paused_in state || is_suspended state) }
{
    matches!(state, State::Paused | State::Suspended)
}

// A closed substream, which every event but its opening refuses.
fn is_shut(state: State, call: Call) -> bool
    ensures { result ≡ (is_closed state && not (opens call)) }
{
    match (state, call) {
        (State::Closed, Call::OpenSub) => false,
        (State::Closed, _) => true,
        _ => false,
    }
}

// A paused or suspended member is stopped first (`snd_pcm_prepare`, which releases a paused card before that, and whose stop
// wakes all; here a card that stands gets no trigger, and who may wait sleeps on).
fn prepare<C: Card>(members: &mut Members<C>, place: usize, acts: &mut Acts) -> Reply
    requires place { place < length (members_of members.old) }
    requires few { length acts.old < 3 }
    ensures done { (c : ClientIdOf) (linked : Bool) (k : SubId) (tells : List Bool) (xs : List ModelMember) → IsAt (members_of members.old) place k tells xs
        → IsEnded tells (event_of call.Prepare c linked [] (stream_of k xs)) k xs acts.old acts.new result 0 0 (members_of members.new) }
    ensures told { result ≢ Memory }
    ensures awake { result ≢ Asleep }
    ensures fixed { all_fixed (members_of members.new) ≡ all_fixed (members_of members.old) }
    ensures cards { KeepsCards acts.old (members_of members.old) acts.new (members_of members.new) }
{
    let state = members.at(place).stream.state();
    let stop_first = is_halted(state);
    act_alone(members, Act::Prepare { stop_first }, acts)
}

/// Whether the error table allows a call on the member at this place.
pub(crate) fn permitted<C: Card>(
    members: &Members<C>,
    place: usize,
    kind: CallKind,
) -> Result<(), Errno>
    requires place { place < length (members_of members.now) }
    ensures { (k : SubId) (tells : List Bool) (xs : List ModelMember) → IsAt (members_of members.now) place k tells xs
        → MatchResult result (λ _. table kind (stream_of k xs) ≡ None) (λ e. table kind (stream_of k xs) ≡ Some e) }
{
    let stream = &members.at(place).stream;
    permit(kind, stream.state(), stream.dir())
}

fn drop_now<C: Card>(members: &mut Members<C>, place: usize, acts: &mut Acts) -> Reply
    requires place { place < length (members_of members.old) }
    requires few { length acts.old < 3 }
    ensures done { (c : ClientIdOf) (linked : Bool) (k : SubId) (tells : List Bool) (xs : List ModelMember) → IsAt (members_of members.old) place k tells xs
        → IsEnded tells (event_of call.DropNow c linked [] (stream_of k xs)) k xs acts.old acts.new result 0 0 (members_of members.new) }
    ensures told { result ≢ Memory }
    ensures awake { result ≢ Asleep }
    ensures fixed { all_fixed (members_of members.new) ≡ all_fixed (members_of members.old) }
    ensures cards { KeepsCards acts.old (members_of members.old) acts.new (members_of members.new) }
{
    match permitted(members, place, CallKind::DropNow) {
        Ok(()) => act_alone(members, Act::Stop(State::Setup), acts),
        Err(e) => Reply::Err(e),
    }
}

fn xrun<C: Card>(members: &mut Members<C>, place: usize, acts: &mut Acts) -> Reply
    requires place { place < length (members_of members.old) }
    requires few { length acts.old < 3 }
    ensures done { (c : ClientIdOf) (linked : Bool) (k : SubId) (tells : List Bool) (xs : List ModelMember) → IsAt (members_of members.old) place k tells xs
        → IsEnded tells (event_of call.Xrun c linked [] (stream_of k xs)) k xs acts.old acts.new result 0 0 (members_of members.new) }
    ensures told { result ≢ Memory }
    ensures awake { result ≢ Asleep }
    ensures fixed { all_fixed (members_of members.new) ≡ all_fixed (members_of members.old) }
    ensures cards { KeepsCards acts.old (members_of members.old) acts.new (members_of members.new) }
{
    if let Err(e) = permitted(members, place, CallKind::Xrun) {
        return Reply::Err(e);
    }
    let state = members.at(place).stream.state();
    if is_running(state) {
        act_alone(members, Act::Stop(State::Xrun), acts)
    } else {
        Reply::Ok
    }
}

fn hwsync<C: Card>(members: &mut Members<C>, place: usize, acts: &mut Acts) -> Reply
    requires place { place < length (members_of members.old) }
    requires few { length acts.old < 3 }
    ensures done { (c : ClientIdOf) (linked : Bool) (k : SubId) (tells : List Bool) (xs : List ModelMember) → IsAt (members_of members.old) place k tells xs
        → IsEnded tells (event_of call.Hwsync c linked [] (stream_of k xs)) k xs acts.old acts.new result 0 0 (members_of members.new) }
    ensures told { result ≢ Memory }
    ensures awake { result ≢ Asleep }
    ensures fixed { all_fixed (members_of members.new) ≡ all_fixed (members_of members.old) }
    ensures cards { KeepsCards acts.old (members_of members.old) acts.new (members_of members.new) }
{
    if let Err(e) = permitted(members, place, CallKind::Hwsync) {
        return Reply::Err(e);
    }
    match refresh(members, place, acts) {
        Updated::Nothing => Reply::Ok,
        Updated::DrainDone | Updated::StopXrun => Reply::Err(Errno::Epipe),
    }
}

fn delay<C: Card>(members: &mut Members<C>, place: usize, acts: &mut Acts) -> Reply
    requires place { place < length (members_of members.old) }
    requires few { length acts.old < 3 }
    ensures done { (c : ClientIdOf) (linked : Bool) (k : SubId) (tells : List Bool) (xs : List ModelMember) → IsAt (members_of members.old) place k tells xs
        → IsEnded tells (event_of call.Delay c linked [] (stream_of k xs)) k xs acts.old acts.new result 0 0 (members_of members.new) }
    ensures told { result ≢ Memory }
    ensures awake { result ≢ Asleep }
    ensures fixed { all_fixed (members_of members.new) ≡ all_fixed (members_of members.old) }
    ensures cards { KeepsCards acts.old (members_of members.old) acts.new (members_of members.new) }
{
    if let Err(e) = permitted(members, place, CallKind::Delay) {
        return Reply::Err(e);
    }
    match refresh(members, place, acts) {
        Updated::Nothing => own::delay_now(&members.at(place).stream),
        Updated::DrainDone | Updated::StopXrun => Reply::Err(Errno::Epipe),
    }
}

fn status<C: Card>(members: &mut Members<C>, place: usize, acts: &mut Acts) -> Reply
    requires place { place < length (members_of members.old) }
    requires few { length acts.old < 3 }
    ensures done { (c : ClientIdOf) (linked : Bool) (k : SubId) (tells : List Bool) (xs : List ModelMember) → IsAt (members_of members.old) place k tells xs
        → IsEnded tells (event_of call.Status c linked [] (stream_of k xs)) k xs acts.old acts.new result 0 0 (members_of members.new) }
    ensures told { result ≢ Memory }
    ensures awake { result ≢ Asleep }
    ensures fixed { all_fixed (members_of members.new) ≡ all_fixed (members_of members.old) }
    ensures cards { KeepsCards acts.old (members_of members.old) acts.new (members_of members.new) }
{
    refresh(members, place, acts);
    Reply::Ptrs(members.at(place).stream.page())
}

fn irq<C: Card>(members: &mut Members<C>, place: usize, acts: &mut Acts) -> Reply
    requires place { place < length (members_of members.old) }
    requires few { length acts.old < 3 }
    ensures done { (c : ClientIdOf) (linked : Bool) (k : SubId) (tells : List Bool) (xs : List ModelMember) → IsAt (members_of members.old) place k tells xs
        → IsEnded tells (event_of call.Irq c linked [] (stream_of k xs)) k xs acts.old acts.new result 0 0 (members_of members.new) }
    ensures told { result ≢ Memory }
    ensures awake { result ≢ Asleep }
    ensures fixed { all_fixed (members_of members.new) ≡ all_fixed (members_of members.old) }
    ensures cards { KeepsCards acts.old (members_of members.old) acts.new (members_of members.new) }
{
    refresh(members, place, acts);
    Reply::Ok
}

// Whether the card of the member at this place runs.
fn card_runs<C: Card>(members: &Members<C>, place: usize) -> bool
    requires place { place < length (members_of members.now) }
    ensures { (k : SubId) (tells : List Bool) (xs : List ModelMember) → IsAt (members_of members.now) place k tells xs → result ≡ (stream_of k xs).card.runs }
{
    members.at(place).stream.card().runs()
}

// A card that stands is gone.
fn unplug_alone<C: Card>(members: &mut Members<C>, place: usize) -> Reply
    requires place { place < length (members_of members.old) }
    ensures done { (k : SubId) (tells : List Bool) (xs : List ModelMember) (acts : List ActedOf) → IsAt (members_of members.old) place k tells xs → (stream_of k xs).card.runs ≡ false
        → IsEnded tells (unplugging (stream_of k xs)) k xs acts acts result 0 0 (members_of members.new) }
    ensures told { result ≢ Memory }
    ensures awake { result ≢ Asleep }
    ensures fixed { all_fixed (members_of members.new) ≡ all_fixed (members_of members.old) }
    ensures cards { (acts : List ActedOf) → KeepsCards acts (members_of members.old) acts (members_of members.new) }
{
    members.at_mut(place).stream.unplug();
    Reply::Ok
}

// A card that runs is stopped first, with its group.
fn stop_and_unplug<C: Card>(members: &mut Members<C>, place: usize, acts: &mut Acts) -> Reply
    requires place { place < length (members_of members.old) }
    requires few { length acts.old < 3 }
    ensures done { (k : SubId) (tells : List Bool) (xs : List ModelMember) → IsAt (members_of members.old) place k tells xs
        → IsEnded tells (making (act.Stop State.Setup) (stream_of k xs) unplugging) k xs acts.old acts.new result 0 0 (members_of members.new) }
    ensures told { result ≢ Memory }
    ensures awake { result ≢ Asleep }
    ensures fixed { all_fixed (members_of members.new) ≡ all_fixed (members_of members.old) }
    ensures cards { KeepsCards acts.old (members_of members.old) acts.new (members_of members.new) }
{
    match make(members, Act::Stop(State::Setup), acts) {
        Ok(()) => unplug_alone(members, place),
        Err(e) => Reply::Err(e),
    }
}

// The card of the member at this place is gone. The rules are this project's own.
fn unplug<C: Card>(members: &mut Members<C>, place: usize, acts: &mut Acts) -> Reply
    requires place { place < length (members_of members.old) }
    requires few { length acts.old < 3 }
    ensures done { (c : ClientIdOf) (linked : Bool) (k : SubId) (tells : List Bool) (xs : List ModelMember) → IsAt (members_of members.old) place k tells xs
        → IsEnded tells (event_of call.Unplug c linked [] (stream_of k xs)) k xs acts.old acts.new result 0 0 (members_of members.new) }
    ensures told { result ≢ Memory }
    ensures awake { result ≢ Asleep }
    ensures fixed { all_fixed (members_of members.new) ≡ all_fixed (members_of members.old) }
    ensures cards { KeepsCards acts.old (members_of members.old) acts.new (members_of members.new) }
{
    if let Err(e) = permitted(members, place, CallKind::Unplug) {
        return Reply::Err(e);
    }
    if card_runs(members, place) {
        stop_and_unplug(members, place, acts)
    } else {
        unplug_alone(members, place)
    }
}

/// An event that makes at most one act and never waits.
pub(crate) fn act_event<C: Card>(
    members: &mut Members<C>,
    place: usize,
    call: Call,
    acts: &mut Acts,
) -> Reply
    requires call { is_act_call call ≡ true }
    requires place { place < length (members_of members.old) }
    requires few { length acts.old < 3 }
    ensures done { (c : ClientIdOf) (linked : Bool) (k : SubId) (tells : List Bool) (xs : List ModelMember) → IsAt (members_of members.old) place k tells xs
        → IsEnded tells (event_of call c linked [] (stream_of k xs)) k xs acts.old acts.new result 0 0 (members_of members.new) }
    ensures told { result ≢ Memory }
    ensures awake { result ≢ Asleep }
    ensures fixed { all_fixed (members_of members.new) ≡ all_fixed (members_of members.old) }
    ensures cards { KeepsCards acts.old (members_of members.old) acts.new (members_of members.new) }
{
    match call {
        Call::Prepare => prepare(members, place, acts),
        Call::Start => act_alone(members, Act::Start, acts),
        Call::DropNow => drop_now(members, place, acts),
        Call::PausePush => act_alone(members, Act::Pause, acts),
        Call::PauseRelease => act_alone(members, Act::Release, acts),
        Call::Suspend => act_alone(members, Act::Suspend, acts),
        Call::Resume => act_alone(members, Act::Resume, acts),
        Call::Xrun => xrun(members, place, acts),
        Call::Rewind(n) => rewind(members, place, n, acts),
        Call::Forward(n) => forward(members, place, n, acts),
        Call::Hwsync => hwsync(members, place, acts),
        Call::Delay => delay(members, place, acts),
        Call::Status => status(members, place, acts),
        Call::Irq => irq(members, place, acts),
        Call::Unplug => unplug(members, place, acts),
        _ => unreachable!(),
    }
}

// The call of a client falls asleep on the member at this place.
pub(crate) fn fall_asleep<C: Card>(
    members: &mut Members<C>,
    place: usize,
    client: ClientId,
    task: Task,
)
    requires place { place < length (members_of members.old) }
    requires client { client.0 ≤ 15 }
    requires free { (m : _) → slice_get (members_of members.old) place ≡ Some m → has_client client m.sleepers ≡ false }
    ensures asleep { (k : SubId) (tells : List Bool) (xs : List ModelMember) → IsAt (members_of members.old) place k tells xs → TaskFits (stream_of k xs) task
        → AllStandFor (members_of members.new) (mark k Asleep client (put_stream k (sleeping (record { client = client; task = task }) (stream_of k xs)) xs)) }
    ensures numbers { numbers_of (members_of members.new) ≡ numbers_of (members_of members.old) }
    ensures cards { (acts : List ActedOf) → KeepsCards acts (members_of members.old) acts (members_of members.new) }
{
    members.at_mut(place).sleepers.add(Sleeper {
        client,
        asleep: true,
        task,
    });
}

// What was written is played to its end, where a blocking call waits.
fn drain_now<C: Card>(
    members: &mut Members<C>,
    place: usize,
    client: ClientId,
    mode: Mode,
    acts: &mut Acts,
) -> Reply
    requires place { place < length (members_of members.old) }
    requires few { length acts.old ≤ 1 }
    requires client { client.0 ≤ 15 }
    requires free { is_free client (calls_of (members_of members.old)) ≡ true }
    ensures done { (k : SubId) (tells : List Bool) (xs : List ModelMember) → IsAt (members_of members.old) place k tells xs → is_some (stream_of k xs).setup.config ≡ true
        → IsEndedBy client tells (drain_now_of client mode (stream_of k xs)) k xs acts.old acts.new result 0 0 (members_of members.new) }
    ensures told { result ≢ Memory }
    ensures numbers { numbers_of (members_of members.new) ≡ numbers_of (members_of members.old) }
    ensures cards { KeepsCards acts.old (members_of members.old) acts.new (members_of members.new) }
{
    if let Err(e) = make(members, Act::Drain, acts) {
        return Reply::Err(e);
    }
    match mode {
        Mode::NonBlock => Reply::Err(Errno::Eagain),
        Mode::Block => match make(members, Act::Watch, acts) {
            Ok(()) => Reply::Ok,
            Err(_) => {
                fall_asleep(members, place, client, Task::Drain);
                Reply::Asleep
            }
        },
    }
}

// A paused group is released first.
fn release_and_drain<C: Card>(
    members: &mut Members<C>,
    place: usize,
    client: ClientId,
    mode: Mode,
    acts: &mut Acts,
) -> Reply
    requires place { place < length (members_of members.old) }
    requires few { length acts.old ≡ 0 }
    requires client { client.0 ≤ 15 }
    requires free { is_free client (calls_of (members_of members.old)) ≡ true }
    ensures done { (k : SubId) (tells : List Bool) (xs : List ModelMember) → IsAt (members_of members.old) place k tells xs → is_some (stream_of k xs).setup.config ≡ true
        → IsEndedBy client tells (making act.Release (stream_of k xs) (drain_now_of client mode)) k xs acts.old acts.new result 0 0 (members_of members.new) }
    ensures told { result ≢ Memory }
    ensures numbers { numbers_of (members_of members.new) ≡ numbers_of (members_of members.old) }
    ensures cards { KeepsCards acts.old (members_of members.old) acts.new (members_of members.new) }
{
    match make(members, Act::Release, acts) {
        Ok(()) => drain_now(members, place, client, mode, acts),
        Err(e) => Reply::Err(e),
    }
}

/// A drain. A paused group is released first (`snd_pcm_drain`, which passes over a release or a start that fails; here the
/// drain answers its error).
pub(crate) fn drain<C: Card>(
    members: &mut Members<C>,
    place: usize,
    client: ClientId,
    mode: Mode,
    acts: &mut Acts,
) -> Reply
    requires place { place < length (members_of members.old) }
    requires few { length acts.old ≡ 0 }
    requires client { client.0 ≤ 15 }
    requires free { is_free client (calls_of (members_of members.old)) ≡ true }
    ensures done { (k : SubId) (tells : List Bool) (xs : List ModelMember) → IsAt (members_of members.old) place k tells xs
        → IsEndedBy client tells (drain_of client mode (stream_of k xs)) k xs acts.old acts.new result 0 0 (members_of members.new) }
    ensures told { result ≢ Memory }
    ensures numbers { numbers_of (members_of members.new) ≡ numbers_of (members_of members.old) }
    ensures cards { KeepsCards acts.old (members_of members.old) acts.new (members_of members.new) }
{
    if let Err(e) = permitted(members, place, CallKind::Drain) {
        return Reply::Err(e);
    }
    let state = members.at(place).stream.state();
    if is_paused(state) {
        release_and_drain(members, place, client, mode, acts)
    } else {
        drain_now(members, place, client, mode, acts)
    }
}

// A call that makes no act.
fn is_own(call: Call) -> bool
    ensures { result ≡ is_own_call call }
{
    matches!(
        call,
        Call::OpenSub
            | Call::CloseSub
            | Call::HwParams(_)
            | Call::HwFree
            | Call::SwParams(_)
            | Call::PageNow
            | Call::Poll
            | Call::MoveBy(_)
            | Call::FailAt(_)
            | Call::SyncPtr(_)
            | Call::Map
            | Call::Unmap
    )
}

// An event that waits for nothing.
fn short_event<C: Card>(
    members: &mut Members<C>,
    place: usize,
    call: Call,
    acts: &mut Acts,
) -> Reply
    requires call { (is_own_call call || is_act_call call) ≡ true }
    requires place { place < length (members_of members.old) }
    requires few { length acts.old < 3 }
    ensures done { (c : ClientIdOf) (k : SubId) (tells : List Bool) (xs : List ModelMember) → IsAt (members_of members.old) place k tells xs → result ≢ Memory
        → IsEnded tells (event_of call c (nat_lt 1 (length xs)) [] (stream_of k xs)) k xs acts.old acts.new result 0 (own_frames call (stream_of k xs)) (members_of members.new) }
    ensures memory { (xs : List ModelMember) → AllStandFor (members_of members.old) xs → result ≡ Memory → AllStandFor (members_of members.new) xs }
    ensures wants { result ≡ Memory → may_want_memory call ≡ true }
    ensures idle { result ≡ Memory → acts.new ≡ acts.old }
    ensures awake { result ≢ Asleep }
    ensures numbers { numbers_of (members_of members.new) ≡ numbers_of (members_of members.old) }
    ensures cards { KeepsCards acts.old (members_of members.old) acts.new (members_of members.new) }
    ensures calls { calls_of (members_of members.new) ≡ calls_of (members_of members.old) }
{
    if is_own(call) {
        let linked = members.len() > 1;
        own_event(members.at_mut(place), call, linked)
    } else {
        act_event(members, place, call, acts)
    }
}

// A call that may wait for the card.
fn waiting_event<C: Card>(
    members: &mut Members<C>,
    place: usize,
    client: ClientId,
    call: Call,
    io: &mut [u8],
    acts: &mut Acts,
) -> Carried
    requires call { is_waiting_call call ≡ true }
    requires place { place < length (members_of members.old) }
    requires client { client.0 ≤ 15 }
    requires free { is_free_for call place client (calls_of (members_of members.old)) ≡ true }
    requires none { acts.old ≡ [] }
    ensures done { (linked : Bool) (k : SubId) (tells : List Bool) (xs : List ModelMember) → IsAt (members_of members.old) place k tells xs → HasLength call io.old (stream_of k xs)
        → IsEndedBy client tells (event_of call client linked io.old (stream_of k xs)) k xs acts.old acts.new result.reply result.first result.moved (members_of members.new) }
    ensures bytes { (linked : Bool) (k : SubId) (tells : List Bool) (xs : List ModelMember) (b : Answer) (ys : List ModelMember) → IsAt (members_of members.old) place k tells xs → HasLength call io.old (stream_of k xs)
        → RunsTo tells (event_of call client linked io.old (stream_of k xs)) k xs acts.new b ys → io.new ≡ bytes_left call client (stream_of k xs) b io.old }
    ensures told { result.reply ≢ Memory }
    ensures numbers { numbers_of (members_of members.new) ≡ numbers_of (members_of members.old) }
    ensures cards { KeepsCards acts.old (members_of members.old) acts.new (members_of members.new) }
{
    match call {
        Call::Drain(mode) => said(drain(members, place, client, mode, acts)),
        Call::Write(layout, mode) => write(members, place, client, layout, mode, io, acts),
        Call::Read(layout, mode, n) => read(members, place, client, layout, mode, n, io, acts),
        Call::Go => go(members, place, client, io, acts),
        _ => unreachable!(),
    }
}

// A call that may wait for the card.
fn is_waiting(call: Call) -> bool
    ensures { result ≡ is_waiting_call call }
{
    matches!(
        call,
        Call::Drain(_) | Call::Write(..) | Call::Read(..) | Call::Go
    )
}

// A call that looks at the bytes that it is lent, and makes no act.
fn is_lent(call: Call) -> bool
    ensures { result ≡ is_lent_call call }
{
    matches!(call, Call::Store(_) | Call::Load(_, _) | Call::Give)
}

// An event that looks at the bytes that it is lent.
fn bytes_event<C: Card>(
    members: &mut Members<C>,
    place: usize,
    call: Call,
    io: &mut [u8],
) -> Carried
    requires call { is_lent_call call ≡ true }
    requires place { place < length (members_of members.old) }
    ensures done { (c : ClientIdOf) (linked : Bool) (k : SubId) (tells : List Bool) (xs : List ModelMember) (acts : List ActedOf) → IsAt (members_of members.old) place k tells xs → HasLength call io.old (stream_of k xs) → result.reply ≢ Memory
        → IsCarried call tells (event_of call c linked io.old (stream_of k xs)) k xs acts acts result.reply result.first result.moved (members_of members.new) }
    ensures loaded { (k : SubId) (tells : List Bool) (xs : List ModelMember) → IsAt (members_of members.old) place k tells xs → Loads call (stream_of k xs) result.reply io.old io.new }
    ensures bytes { is_reading call ≡ false → io.new ≡ io.old }
    ensures memory { (xs : List ModelMember) → AllStandFor (members_of members.old) xs → result.reply ≡ Memory → AllStandFor (members_of members.new) xs }
    ensures wants { result.reply ≡ Memory → may_want_memory call ≡ true }
    ensures idle { result.reply ≡ Memory → (result.first ≡ 0) × (result.moved ≡ 0) }
    ensures awake { result.reply ≢ Asleep }
    ensures numbers { numbers_of (members_of members.new) ≡ numbers_of (members_of members.old) }
    ensures calls { calls_of (members_of members.new) ≡ calls_of (members_of members.old) }
    ensures cards { (acts : List ActedOf) → KeepsCards acts (members_of members.old) acts (members_of members.new) }
{
    lent_event(&mut members.at_mut(place).stream, call, io)
}

// An event of a member that is open, or is opened now.
fn open_event<C: Card>(
    members: &mut Members<C>,
    place: usize,
    event: &Event,
    io: &mut [u8],
    acts: &mut Acts,
) -> Carried
    requires call { is_group_call event.now.call ≡ true }
    requires place { place < length (members_of members.old) }
    requires caller { is_card_event event.now.call ≡ is_none event.now.client }
    requires client { ForSome event.now.client (λ c. c.0 ≤ 15) }
    requires free { ForSome event.now.client (λ c. is_free_for event.now.call place c (calls_of (members_of members.old)) ≡ true) }
    requires none { acts.old ≡ [] }
    ensures done { (k : SubId) (tells : List Bool) (xs : List ModelMember) → IsAt (members_of members.old) place k tells xs → HasLength event.now.call io.old (stream_of k xs) → result.reply ≢ Memory
        → IsCarriedBy event.now.call (caller event.now) tells (event_of event.now.call (caller event.now) (nat_lt 1 (length xs)) io.old (stream_of k xs)) k xs acts.new result.reply result.first result.moved (members_of members.new) }
    ensures transferred { (k : SubId) (tells : List Bool) (xs : List ModelMember) (b : Answer) (ys : List ModelMember) → IsAt (members_of members.old) place k tells xs → HasLength event.now.call io.old (stream_of k xs) → is_lent_call event.now.call ≡ false
        → RunsTo tells (event_of event.now.call (caller event.now) (nat_lt 1 (length xs)) io.old (stream_of k xs)) k xs acts.new b ys → io.new ≡ bytes_left event.now.call (caller event.now) (stream_of k xs) b io.old }
    ensures loaded { (k : SubId) (tells : List Bool) (xs : List ModelMember) → IsAt (members_of members.old) place k tells xs → Loads event.now.call (stream_of k xs) result.reply io.old io.new }
    ensures bytes { is_waiting_call event.now.call ≡ false → is_reading event.now.call ≡ false → io.new ≡ io.old }
    ensures kept { result.reply ≡ Memory → io.new ≡ io.old }
    ensures memory { (xs : List ModelMember) → AllStandFor (members_of members.old) xs → result.reply ≡ Memory → AllStandFor (members_of members.new) xs }
    ensures wants { result.reply ≡ Memory → may_want_memory event.now.call ≡ true }
    ensures idle { result.reply ≡ Memory → acts.new ≡ acts.old }
    ensures still { result.reply ≡ Memory → (result.first ≡ 0) × (result.moved ≡ 0) }
    ensures numbers { numbers_of (members_of members.new) ≡ numbers_of (members_of members.old) }
    ensures cards { KeepsCards acts.old (members_of members.old) acts.new (members_of members.new) }
{
    if is_waiting(event.call) {
        match event.client {
            Some(client) => waiting_event(members, place, client, event.call, io, acts),
            None => unreachable!(),
        }
    } else if is_lent(event.call) {
        bytes_event(members, place, event.call, io)
    } else {
        said(short_event(members, place, event.call, acts))
    }
}

/// An event of the member at this place: what it answers, the frames of the call that it moved, and the acts that it makes
/// behind the old ones. ENXIO where the member is CLOSED and not opened now.
pub(crate) fn event<C: Card>(
    members: &mut Members<C>,
    place: usize,
    event: &Event,
    io: &mut [u8],
    acts: &mut Acts,
) -> Carried
    requires call { is_group_call event.now.call ≡ true }
    requires place { place < length (members_of members.old) }
    requires caller { is_card_event event.now.call ≡ is_none event.now.client }
    requires client { ForSome event.now.client (λ c. c.0 ≤ 15) }
    requires free { ForSome event.now.client (λ c. is_free_for event.now.call place c (calls_of (members_of members.old)) ≡ true) }
    requires none { acts.old ≡ [] }
    ensures done { (k : SubId) (tells : List Bool) (xs : List ModelMember) → IsAt (members_of members.old) place k tells xs → HasLength event.now.call io.old (stream_of k xs) → result.reply ≢ Memory
        → IsCarriedBy event.now.call (caller event.now) tells (program event.now.call (caller event.now) (nat_lt 1 (length xs)) io.old (stream_of k xs)) k xs acts.new result.reply result.first result.moved (members_of members.new) }
    ensures transferred { (k : SubId) (tells : List Bool) (xs : List ModelMember) (b : Answer) (ys : List ModelMember) → IsAt (members_of members.old) place k tells xs → HasLength event.now.call io.old (stream_of k xs) → is_lent_call event.now.call ≡ false
        → RunsTo tells (program event.now.call (caller event.now) (nat_lt 1 (length xs)) io.old (stream_of k xs)) k xs acts.new b ys → io.new ≡ bytes_left event.now.call (caller event.now) (stream_of k xs) b io.old }
    ensures loaded { (k : SubId) (tells : List Bool) (xs : List ModelMember) → IsAt (members_of members.old) place k tells xs → Loads event.now.call (stream_of k xs) result.reply io.old io.new }
    ensures bytes { is_waiting_call event.now.call ≡ false → is_reading event.now.call ≡ false → io.new ≡ io.old }
    ensures kept { result.reply ≡ Memory → io.new ≡ io.old }
    ensures memory { (xs : List ModelMember) → AllStandFor (members_of members.old) xs → result.reply ≡ Memory → AllStandFor (members_of members.new) xs }
    ensures wants { result.reply ≡ Memory → may_want_memory event.now.call ≡ true }
    ensures idle { result.reply ≡ Memory → acts.new ≡ acts.old }
    ensures still { result.reply ≡ Memory → (result.first ≡ 0) × (result.moved ≡ 0) }
    ensures numbers { numbers_of (members_of members.new) ≡ numbers_of (members_of members.old) }
    ensures cards { KeepsCards acts.old (members_of members.old) acts.new (members_of members.new) }
{
    let state = members.at(place).stream.state();
    if is_shut(state, event.call) {
        return said(Reply::Err(Errno::Enxio));
    }
    open_event(members, place, event, io, acts)
}
