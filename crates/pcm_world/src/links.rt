// Links and unlinks of open substreams, and answers that change nothing.
ghost use Rattle.std.specs.Prelude.{◌≡◌, ◌≢◌, ◌<◌, List, Some, true};
ghost use Rattle.pcm_base.specs.Numbers.{state_number};
ghost use Rattle.pcm_base.specs.declared.ids.SubId.{SubId as SubIdOf};
ghost use Rattle.pcm_base.specs.declared.reply.Reply.TheVariants.{Memory};
ghost use Rattle.pcm_base.specs.model.Stream.{Member as ModelMember};
ghost use Rattle.pcm_base.specs.model.Words.{is_closed as is_closed_state, same_state as is_same_state};
ghost use Rattle.pcm_base.specs.model.World.{World as ModelWorld, group_of, holds, link_refusal};
ghost use Rattle.state_table.specs.Cases.{answer_of};
ghost use Rattle.pcm_world.specs.Answered.{link_event, unlink_event};
ghost use Rattle.pcm_world.specs.Calls.{stream_at};
ghost use Rattle.pcm_world.specs.Groups.{GroupsStand};
ghost use Rattle.pcm_world.specs.Shown.{shown};

use crate::groups::Groups;
use pcm_base::{CallKind, Errno, Reply, State, SubId, Told};
use state_table::permit;

/// An answer that marks nobody awake.
pub(crate) fn told(reply: Reply, state: Option<State>) -> Told
    ensures { result ≡ record { reply = reply; state = state; woken = 0 } }
{
    Told {
        reply,
        state,
        woken: 0,
    }
}

/// An answer of a substream that is not declared, or closed and not opened now.
pub(crate) fn no_such() -> Told
    ensures { result ≡ record { reply = Reply.Err Errno.Enxio; state = Some State.Closed; woken = 0 } }
{
    told(Reply::Err(Errno::Enxio), Some(State::Closed))
}

/// Whether a state is CLOSED.
pub(crate) fn is_closed(state: State) -> bool
    ensures { result ≡ is_closed_state state }
{
    matches!(state, State::Closed)
}

// The number of a state.
fn number(state: State) -> u8
    ensures { result ≡ state_number state }
{
    match state {
        State::Opened => 0,
        State::Setup => 1,
        State::Prepared => 2,
        State::Running => 3,
        State::Xrun => 4,
        State::Draining => 5,
        State::Paused => 6,
        State::Suspended => 7,
        State::Disconnected => 8,
        State::Closed => 15,
    }
}

// Whether two states are one.
fn same_state(one: State, other: State) -> bool
    ensures { result ≡ is_same_state one other }
{
    number(one) == number(other)
}

// Why the second substream is not linked to the group of the first.
fn refusal(groups: &Groups, first: SubId, second: SubId) -> Result<(), Errno>
    requires first { first.0 < 16 }
    requires second { second.0 < 16 }
    ensures { (w : ModelWorld) → GroupsStand groups.now.items.items w.groups → result ≡ answer_of (link_refusal first second w) }
{
    let state = groups.state(first);
    let there = groups.state(second);
    if is_closed(there) {
        return Err(Errno::Enxio);
    }
    if first.0 == second.0 {
        return Err(Errno::Einval);
    }
    permit(CallKind::Link, state, groups.dir(first))?;
    if !same_state(there, state) {
        return Err(Errno::Ebadfd);
    }
    if groups.is_linked(second) {
        return Err(Errno::Ealready);
    }
    Ok(())
}

/// The second substream joins at the end of the group of the first, where nothing refuses it.
pub(crate) fn link(groups: &mut Groups, first: SubId, second: SubId) -> Told
    requires first { first.0 < 16 }
    requires second { second.0 < 16 }
    requires stands { ∥ ((xs : List (List ModelMember)) × GroupsStand groups.old.items.items xs) ∥₁ }
    requires declared { (xs : List (List ModelMember)) → GroupsStand groups.old.items.items xs → holds first (group_of first xs) ≡ true }
    ensures told { (w : ModelWorld) → GroupsStand groups.old.items.items w.groups → result ≡ shown (link_event first second w) }
    ensures stands { (w : ModelWorld) → GroupsStand groups.old.items.items w.groups → GroupsStand groups.new.items.items (link_event first second w).world.groups }
    ensures streams { (w : ModelWorld) → GroupsStand groups.old.items.items w.groups → (k : SubIdOf) → stream_at k (link_event first second w).world.groups ≡ stream_at k w.groups }
    ensures answered { result.reply ≢ Memory }
{
    let state = Some(groups.state(first));
    if let Err(e) = refusal(groups, first, second) {
        return told(Reply::Err(e), state);
    }
    let woken = groups.link(first, second);
    Told {
        reply: Reply::Ok,
        state,
        woken,
    }
}

/// The substream leaves its group, where it is linked.
pub(crate) fn unlink(groups: &mut Groups, sub: SubId) -> Told
    requires sub { sub.0 < 16 }
    requires stands { ∥ ((xs : List (List ModelMember)) × GroupsStand groups.old.items.items xs) ∥₁ }
    requires declared { (xs : List (List ModelMember)) → GroupsStand groups.old.items.items xs → holds sub (group_of sub xs) ≡ true }
    ensures told { (w : ModelWorld) → GroupsStand groups.old.items.items w.groups → result.reply ≢ Memory → result ≡ shown (unlink_event sub w) }
    ensures stands { (w : ModelWorld) → GroupsStand groups.old.items.items w.groups → result.reply ≢ Memory → GroupsStand groups.new.items.items (unlink_event sub w).world.groups }
    ensures streams { (w : ModelWorld) → GroupsStand groups.old.items.items w.groups → result.reply ≢ Memory → (k : SubIdOf) → stream_at k (unlink_event sub w).world.groups ≡ stream_at k w.groups }
    ensures memory { result.reply ≡ Memory → groups.new.items.items ≡ groups.old.items.items }
{
    let state = Some(groups.state(sub));
    if !groups.is_linked(sub) {
        return told(Reply::Err(Errno::Ealready), state);
    }
    match groups.unlink(sub) {
        Ok(woken) => Told {
            reply: Reply::Ok,
            state,
            woken,
        },
        Err(_) => told(Reply::Memory, state),
    }
}
