// What a link of two substreams finds and answers, and its entries.
ghost use Rattle.std.specs.Prelude.{◌≡◌, ◌<◌, ◌-◌, ◌^◌, length, slice_get, vec_len, vec_capacity, Some};
ghost use Rattle.pcm_base.specs.Numbers.{state_number};
ghost use Rattle.pcm_base.specs.model.Words.{is_closed as is_closed_state, same_state as is_same_state};
ghost use Rattle.room_book.specs.Logs.{is_ok as is_ok_reply, link_reply};
ghost use Rattle.room_parts.specs.Links.{link_event};
ghost use Rattle.room_parts.specs.Passes.{IsAlone, IsBy};
ghost use Rattle.room_parts.specs.Recs.{RecView};
ghost use Rattle.room_lock.specs.Joined.{HasRoom, HoldsAt};
ghost use Rattle.room_lock.specs.Linked.{IsLinkRecorded, IsLinkRecordedOnce, link_of};

use floor_rule::SharedWords;
use pcm_base::{CallKind, ClientId, Dir, Errno, Page, Reply, State, SubId};
use room_parts::{FloorName, Linked, Pass, Rec, call_on, link_on};
use state_table::permit;

/// Whether a state is CLOSED.
pub(crate) fn is_closed(state: State) -> bool
    ensures { result ≡ is_closed_state state }
{
    matches!(state, State::Closed)
}

// Whether two states are one.
fn same_state(one: State, other: State) -> bool
    ensures { result ≡ is_same_state one other }
{
    one.number() == other.number()
}

/// Whether the answer is Ok.
pub(crate) fn is_ok(reply: Reply) -> bool
    ensures { result ≡ is_ok_reply reply }
{
    matches!(reply, Reply::Ok)
}

// Why a link is refused, of substreams in these states.
fn reply_of(first: SubId, second: SubId, state: State, there: State, linked: bool) -> Reply
    ensures { result ≡ link_reply first.0 second.0 state there linked }
{
    if is_closed(state) || is_closed(there) {
        return Reply::Err(Errno::Enxio);
    }
    if second.0 == first.0 {
        return Reply::Err(Errno::Einval);
    }
    match permit(CallKind::Link, state, Dir::Playback) {
        Err(errno) => return Reply::Err(errno),
        Ok(()) => {}
    }
    if !same_state(there, state) {
        return Reply::Err(Errno::Ebadfd);
    }
    if linked {
        return Reply::Err(Errno::Ealready);
    }
    Reply::Ok
}

/// A link of the second substream to the group of the first, which finds them in these states, and what it answers.
pub(crate) fn linked(
    client: ClientId,
    first: SubId,
    second: SubId,
    first_state: State,
    second_state: State,
    second_linked: bool,
) -> Linked
    ensures { result ≡ link_of client first second first_state second_state second_linked }
{
    Linked {
        client,
        first,
        second,
        first_state,
        second_state,
        second_linked,
        reply: reply_of(first, second, first_state, second_state, second_linked),
    }
}

/// The entry of a link in the logs of the recs at two places, as the pass's next call.
pub(crate) fn record_link<N: FloorName>(
    words: &SharedWords,
    pass: &mut Pass<N>,
    recs: &mut Vec<Rec<N>>,
    own: usize,
    others: &mut Vec<Rec<N>>,
    other: usize,
    link: &Linked,
    first: &Page,
    second: &Page,
)
    requires words { (words.now.table ≡ N.table) × (words.now.cards ≡ length N.cards) }
    requires places { (own < length recs.old.items) × (other < length others.old.items) }
    requires calls { length pass.old.knows.calls < 2 ^ 64 - 1 }
    requires by { IsBy pass.old.caller (link_event link.now) }
    requires card { HoldsAt (λ r. (r.knows.sub < length N.cards) × (link.now.first.0 ≡ r.knows.sub)) own recs.old.items }
    requires second { HoldsAt (λ r. link.now.second.0 ≡ r.knows.sub) other others.old.items }
    requires room { HoldsAt (HasRoom 3) own recs.old.items × HoldsAt (HasRoom 3) other others.old.items }
    requires low { (first.now.hw < 2 ^ 36) × (second.now.hw < 2 ^ 36) }
    ensures recorded { (r q : RecView) → slice_get recs.old.items own ≡ Some r → slice_get others.old.items other ≡ Some q
        → IsLinkRecorded own other link.now first.now second.now r q recs.old.items recs.new.items others.old.items others.new.items pass.old pass.new }
    ensures lines { (vec_len recs.new ≡ vec_len recs.old) × (vec_capacity recs.new ≡ vec_capacity recs.old) }
{
    link_on(
        words,
        &mut recs[own],
        &mut others[other],
        pass,
        link,
        first.hw,
        second.hw,
    );
}

/// The entry of a link that names no other card, in the log of the rec at a place, as the pass's next call.
pub(crate) fn record_link_once<N: FloorName>(
    words: &SharedWords,
    pass: &mut Pass<N>,
    recs: &mut Vec<Rec<N>>,
    own: usize,
    link: &Linked,
    first: &Page,
)
    requires words { (words.now.table ≡ N.table) × (words.now.cards ≡ length N.cards) }
    requires place { own < length recs.old.items }
    requires calls { length pass.old.knows.calls < 2 ^ 64 - 1 }
    requires by { IsBy pass.old.caller (link_event link.now) }
    requires card { HoldsAt (λ r. (r.knows.sub < length N.cards) × (link.now.first.0 ≡ r.knows.sub)) own recs.old.items }
    requires alone { HoldsAt (λ r. IsAlone (length N.cards) r.knows.sub (link_event link.now).call) own recs.old.items }
    requires room { HoldsAt (HasRoom 3) own recs.old.items }
    requires low { first.now.hw < 2 ^ 36 }
    ensures { (r : RecView) → slice_get recs.old.items own ≡ Some r → IsLinkRecordedOnce own link.now first.now r recs.old.items recs.new.items pass.old pass.new }
{
    let event = link.event();
    call_on(
        words,
        &mut recs[own],
        pass,
        &event,
        0,
        link.entry(),
        link.first_state,
        first.hw,
    );
}
