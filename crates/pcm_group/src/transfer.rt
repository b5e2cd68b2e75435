// The turns of a transfer on one member (the loop of `__snd_pcm_lib_xfer` in `pcm_lib.c`, which looks at the state once more at
// its end, and has one wanted number for all clients; here each call in progress has its own).
ghost use Rattle.std.specs.Prelude.{◌≡◌, ◌≢◌, ◌+◌, ◌-◌, ◌≤◌, ◌<◌, Bool, IsSome, List, [], drop, length, nat_eq, true, if◌then◌else◌};
ghost use Rattle.std.specs.Option.{ForSome};
ghost use Rattle.pcm_base.specs.declared.act.Act.TheVariants as act;
ghost use Rattle.pcm_base.specs.declared.ids.ClientId.{ClientId as ClientIdOf};
ghost use Rattle.pcm_base.specs.declared.ids.SubId.{SubId};
ghost use Rattle.pcm_base.specs.declared.reply.Reply.TheVariants.{Asleep, Memory};
ghost use Rattle.pcm_base.specs.declared.sleeper.Xfer.{Xfer as XferOf};
ghost use Rattle.pcm_base.specs.Shape.{AreFrames, count_of};
ghost use Rattle.pcm_base.specs.model.Frame.{Frame};
ghost use Rattle.pcm_base.specs.model.Group.{stream_of};
ghost use Rattle.pcm_base.specs.model.Stream.{Stream, Member as ModelMember};
ghost use Rattle.pcm_base.specs.declared.votes.Acted.{Acted as ActedOf};
ghost use Rattle.pcm_base.specs.model.Program.{Answer, Makes};
ghost use Rattle.pcm_base.specs.model.Transfer.{after_start, frames_by, frames_or};
ghost use Rattle.pcm_stream.specs.Members.{all_fixed, fixed_of, members_of, numbers_of};
ghost use Rattle.pcm_stream.specs.MembersStand.{IsTransferOn};
ghost use Rattle.pcm_stream.specs.StandsFor.{StandsFor, faults_of, shape_in};
ghost use Rattle.xfer_loop.specs.Loop.{IsOnTheWay, after_stuck};
ghost use Rattle.pcm_group.specs.Ended.{IsAt, IsEndedBy, RunsTo};
ghost use Rattle.pcm_group.specs.Faults.{KeepsCards};
ghost use Rattle.pcm_group.specs.Transfers.{AreBytesOf, IsHalted, IsHaltedAt, IsTransferOf, IsWait, bytes_with, going};
ghost use Rattle.pcm_group.specs.Waiting.{calls_of, is_free};

use crate::acts::make;
use crate::events::fall_asleep;
use crate::turn::Acts;
use pcm_base::{Act, Card, ClientId, Errno, Reply, State, Task, Xfer};
use pcm_stream::{Member, Members};
use xfer_loop::{XferStep, transfer};

/// Makes turns until the call is whole, its group is to start or stop, or no frame can move: the answer is that of the
/// last turn. `Moved` tells that the call is whole.
pub(crate) fn turns<C: Card>(member: &mut Member<C>, xfer: &mut Xfer, io: &mut [u8]) -> XferStep
    requires shape { IsSome (shape_in member.old.stream) }
    requires whole { ForSome (shape_in member.old.stream) (λ shape. AreFrames shape io.old) }
    requires count { ForSome (shape_in member.old.stream) (λ shape. count_of shape io.old ≡ xfer.old.moved + xfer.old.rest) }
    ensures turned { (c : ClientIdOf) (x : XferOf) (fs : List Frame) (s : Stream) → StandsFor member.old.stream s → IsOnTheWay x xfer.old fs
        → IsHalted c x xfer.old xfer.new fs (frames_by xfer.old.layout s io.old) s io.old io.new result member.new.stream }
    ensures written { (s : Stream) → StandsFor member.old.stream s → xfer.old.writing ≡ true → io.new ≡ io.old }
    ensures sum { xfer.new.moved + xfer.new.rest ≡ xfer.old.moved + xfer.old.rest }
    ensures fixed { fixed_of member.new ≡ fixed_of member.old }
    ensures faults { faults_of member.new.stream ≡ faults_of member.old.stream }
{
    'turns: while xfer.rest > 0 {
        match transfer(member, xfer, io) {
            XferStep::Moved(_) => {}
            halt => return halt,
        }
    }
    XferStep::Moved(0)
}

/// What a step answers, and the frames of the call that it moved: the first of them, and how many. Both are 0 where it
/// moved none.
#[derive(Drop)]
pub(crate) struct Carried {
    pub reply: Reply,
    pub first: u64,
    pub moved: u64,
}

/// An answer that moves no frame.
pub(crate) fn said(reply: Reply) -> Carried
    ensures reply { result.reply ≡ reply }
    ensures first { result.first ≡ 0 }
    ensures moved { result.moved ≡ 0 }
{
    Carried {
        reply,
        first: 0,
        moved: 0,
    }
}

// The answer in a call that had moved so many frames before this step, and has moved so many now.
fn ended_with(reply: Reply, before: u64, now: u64) -> Carried
    ensures reply { result.reply ≡ reply }
    ensures moved { result.moved ≡ now - before }
    ensures first { result.first ≡ if nat_eq (now - before) 0 then 0 else before }
{
    let moved = now.saturating_sub(before);
    let first = if moved == 0 { 0 } else { before };
    Carried {
        reply,
        first,
        moved,
    }
}

/// The frames that were moved, or the error where there are none.
pub(crate) fn moved_or(moved: u64, e: Errno) -> Reply
    ensures answer { result ≡ frames_or moved e }
    ensures told { result ≢ Memory }
    ensures awake { result ≢ Asleep }
{
    if moved == 0 {
        Reply::Err(e)
    } else {
        Reply::Frames(moved)
    }
}

/// Ends the step of a call that halted so: it is whole, refused, stopped with its group, or asleep.
pub(crate) fn end<C: Card>(
    members: &mut Members<C>,
    place: usize,
    client: ClientId,
    before: u64,
    xfer: Xfer,
    halt: XferStep,
    acts: &mut Acts,
) -> Carried
    requires place { place < length (members_of members.old) }
    requires client { client.0 ≤ 15 }
    requires free { is_free client (calls_of (members_of members.old)) ≡ true }
    requires few { length acts.old < 3 }
    ensures done { (k : SubId) (tells : List Bool) (xs : List ModelMember) (x : XferOf) (fs : List Frame) → IsAt (members_of members.old) place k tells xs → IsOnTheWay x xfer fs → x.moved ≡ before → x.layout ≡ xfer.layout
        → (IsWait halt → IsTransferOn (stream_of k xs) xfer)
        → IsEndedBy client tells (after_stuck client x xfer fs (stream_of k xs) halt) k xs acts.old acts.new result.reply result.first result.moved (members_of members.new) }
    ensures told { result.reply ≢ Memory }
    ensures numbers { numbers_of (members_of members.new) ≡ numbers_of (members_of members.old) }
    ensures cards { KeepsCards acts.old (members_of members.old) acts.new (members_of members.new) }
{
    match halt {
        XferStep::Wait(wanted) => {
            fall_asleep(members, place, client, Task::Transfer(xfer, wanted));
            ended_with(Reply::Asleep, before, xfer.moved)
        }
        XferStep::Drained => {
            let _ = make(members, Act::Stop(State::Setup), acts);
            ended_with(Reply::Frames(xfer.moved), before, xfer.moved)
        }
        XferStep::Refuse(e) => ended_with(moved_or(xfer.moved, e), before, xfer.moved),
        XferStep::Moved(_) => ended_with(Reply::Frames(xfer.moved), before, xfer.moved),
        XferStep::WantsStart => ended_with(Reply::Frames(xfer.moved), before, xfer.moved),
    }
}

// The turns of the member at this place.
fn turns_at<C: Card>(
    members: &mut Members<C>,
    place: usize,
    xfer: &mut Xfer,
    io: &mut [u8],
) -> XferStep
    requires place { place < length (members_of members.old) }
    requires bytes { AreBytesOf (members_of members.old) place xfer.old io.old }
    ensures turned { (c : ClientIdOf) (x : XferOf) (fs : List Frame) (k : SubId) (tells : List Bool) (xs : List ModelMember) → IsAt (members_of members.old) place k tells xs → IsOnTheWay x xfer.old fs
        → IsHaltedAt c x xfer.old xfer.new fs (frames_by xfer.old.layout (stream_of k xs) io.old) place k tells xs io.old io.new result (members_of members.new) }
    ensures sum { xfer.new.moved + xfer.new.rest ≡ xfer.old.moved + xfer.old.rest }
    ensures fixed { all_fixed (members_of members.new) ≡ all_fixed (members_of members.old) }
    ensures cards { (acts : List ActedOf) → KeepsCards acts (members_of members.old) acts (members_of members.new) }
{
    turns(members.at_mut(place), xfer, io)
}

// The group of a write that has queued enough is started, and the write goes on.
fn start_and_go_on<C: Card>(
    members: &mut Members<C>,
    place: usize,
    client: ClientId,
    before: u64,
    xfer: Xfer,
    io: &mut [u8],
    acts: &mut Acts,
) -> Carried
    requires place { place < length (members_of members.old) }
    requires client { client.0 ≤ 15 }
    requires free { is_free client (calls_of (members_of members.old)) ≡ true }
    requires few { length acts.old ≤ 1 }
    requires bytes { AreBytesOf (members_of members.old) place xfer io.old }
    ensures done { (k : SubId) (tells : List Bool) (xs : List ModelMember) (x : XferOf) (fs all : List Frame) → IsAt (members_of members.old) place k tells xs → IsTransferOf (stream_of k xs) xfer
        → IsOnTheWay x xfer fs → x.moved ≡ before → x.layout ≡ xfer.layout → xfer.writing ≡ true → all ≡ frames_by xfer.layout (stream_of k xs) io.old
        → IsEndedBy client tells (Makes act.Start (stream_of k xs) (after_start client x fs (drop xfer.moved all))) k xs acts.old acts.new result.reply result.first result.moved (members_of members.new) }
    ensures written { (k : SubId) (tells : List Bool) (xs : List ModelMember) → IsAt (members_of members.old) place k tells xs → xfer.writing ≡ true → io.new ≡ io.old }
    ensures told { result.reply ≢ Memory }
    ensures numbers { numbers_of (members_of members.new) ≡ numbers_of (members_of members.old) }
    ensures cards { KeepsCards acts.old (members_of members.old) acts.new (members_of members.new) }
{
    match make(members, Act::Start, acts) {
        Ok(()) => {
            let mut rest = xfer;
            let halt = turns_at(members, place, &mut rest, io);
            end(members, place, client, before, rest, halt, acts)
        }
        Err(e) => ended_with(moved_or(xfer.moved, e), before, xfer.moved),
    }
}

/// Carries a transfer on that is no more kept as waiting: turn by turn, with the start of its group where a write has
/// queued enough.
pub(crate) fn carry_on<C: Card>(
    members: &mut Members<C>,
    place: usize,
    client: ClientId,
    xfer: Xfer,
    io: &mut [u8],
    acts: &mut Acts,
) -> Carried
    requires place { place < length (members_of members.old) }
    requires client { client.0 ≤ 15 }
    requires free { is_free client (calls_of (members_of members.old)) ≡ true }
    requires few { length acts.old ≤ 1 }
    requires bytes { AreBytesOf (members_of members.old) place xfer io.old }
    ensures done { (k : SubId) (tells : List Bool) (xs : List ModelMember) → IsAt (members_of members.old) place k tells xs → IsTransferOf (stream_of k xs) xfer
        → IsEndedBy client tells (going client xfer xfer [] (frames_by xfer.layout (stream_of k xs) io.old) (stream_of k xs)) k xs acts.old acts.new result.reply result.first result.moved (members_of members.new) }
    ensures bytes { (k : SubId) (tells : List Bool) (xs : List ModelMember) (ds : List ActedOf) (b : Answer) (ys : List ModelMember) → IsAt (members_of members.old) place k tells xs
        → RunsTo tells (going client xfer xfer [] (frames_by xfer.layout (stream_of k xs) io.old) (stream_of k xs)) k xs ds b ys
        → io.new ≡ bytes_with xfer.writing xfer.layout b.first b.frames (stream_of k xs) io.old }
    ensures told { result.reply ≢ Memory }
    ensures numbers { numbers_of (members_of members.new) ≡ numbers_of (members_of members.old) }
    ensures cards { KeepsCards acts.old (members_of members.old) acts.new (members_of members.new) }
{
    let before = xfer.moved;
    let mut rest = xfer;
    match turns_at(members, place, &mut rest, io) {
        XferStep::WantsStart => start_and_go_on(members, place, client, before, rest, io, acts),
        halt => end(members, place, client, before, rest, halt, acts),
    }
}
