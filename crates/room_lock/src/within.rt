// Links of two members of one room: they are refused, and nobody moves.
ghost use Rattle.std.specs.Prelude.{◌≡◌, ◌≢◌, ◌<◌, ◌-◌, ◌^◌, ℕ, List, true, false, length, slice_get, Some};
ghost use Rattle.floor_rule.specs.Lists.{longest};
ghost use Rattle.pcm_base.specs.model.Group.{stream_of};
ghost use Rattle.pcm_base.specs.model.Replay.{is_member};
ghost use Rattle.pcm_base.specs.model.Stream.{Member as ModelMember};
ghost use Rattle.pcm_group.specs.Inside.{members_in};
ghost use Rattle.pcm_stream.specs.Members.{numbers_of};
ghost use Rattle.room_book.specs.Logs.{is_ok as is_ok_reply};
ghost use Rattle.room_book.specs.Rooms.{fresh_streams};
ghost use Rattle.room_parts.specs.Links.{link_event};
ghost use Rattle.room_parts.specs.Passes.{IsBy};
ghost use Rattle.room_parts.specs.Recs.{RecView};
ghost use Rattle.room_lock.specs.Answers.{OnDone, OnFull, OnMemory, log_in};
ghost use Rattle.room_lock.specs.InRoom.{InRoom, IsIn};
ghost use Rattle.room_lock.specs.Inside.{view_of};
ghost use Rattle.room_lock.specs.Joined.{HasRoom, HoldsAt};
ghost use Rattle.room_lock.specs.Known.{Knows, told_log};
ghost use Rattle.room_lock.specs.Linked.{IsLinkRecorded, link_by, link_of};
ghost use Rattle.room_lock.specs.Ready.{IsFull, knows_of};
ghost use Rattle.room_lock.specs.Recorded.{AllHaveRoom};
ghost use Rattle.room_lock.specs.Refused.{IsRefused};
ghost use Rattle.room_lock.specs.Within.{IsLinkWithin};

use crate::answer::Answer;
use crate::contents::{Contents, place_of};
use crate::linking::linked;
use crate::members::page_at;
use crate::ready::{full, reserve_all};
use crate::recording::{Receipt, count_at};
use crate::refusing::refuse;
use floor_rule::SharedWords;
use pcm_base::{ClientId, Page, SubId};
use room_book::laws::moves;
use room_parts::{FloorName, Linked, Pass, Rec, link_on};

// The entry of a link in the logs of the recs at two places of a room, as the pass's next call.
fn record_both<N: FloorName>(
    words: &SharedWords,
    pass: &mut Pass<N>,
    recs: &mut [Rec<N>],
    own: usize,
    other: usize,
    link: &Linked,
    first: &Page,
    second: &Page,
)
    requires words { (words.now.table ≡ N.table) × (words.now.cards ≡ length N.cards) }
    requires places { (own < length recs.old) × (other < length recs.old) × (own ≢ other) }
    requires calls { length pass.old.knows.calls < 2 ^ 64 - 1 }
    requires by { IsBy pass.old.caller (link_event link.now) }
    requires first { HoldsAt (λ r. (r.knows.sub < length N.cards) × (link.now.first.0 ≡ r.knows.sub)) own recs.old }
    requires second { HoldsAt (λ r. link.now.second.0 ≡ r.knows.sub) other recs.old }
    requires room { HoldsAt (HasRoom 3) own recs.old × HoldsAt (HasRoom 3) other recs.old }
    requires low { (first.now.hw < 2 ^ 36) × (second.now.hw < 2 ^ 36) }
    ensures recorded { (r q : RecView) → slice_get recs.old own ≡ Some r → slice_get recs.old other ≡ Some q
        → (mid : List RecView) × IsLinkRecorded own other link.now first.now second.now r q recs.old mid mid recs.new pass.old pass.new }
    ensures list { HoldsAt (λ q. longest q.knows.sub pass.new.knows.held.logs ≡ q.knows.log) other recs.new }
{
    if own < other {
        let (front, back) = recs.split_at_mut(other);
        link_on(
            words,
            &mut front[own],
            &mut back[0],
            pass,
            link,
            first.hw,
            second.hw,
        );
    } else {
        let (front, back) = recs.split_at_mut(own);
        link_on(
            words,
            &mut back[0],
            &mut front[other],
            pass,
            link,
            first.hw,
            second.hw,
        );
    }
}

// A link of two members of the room, once its memory is taken.
fn tell_both<N: FloorName>(
    words: &SharedWords,
    pass: &mut Pass<N>,
    room: &mut Contents<N>,
    client: ClientId,
    from: SubId,
    to: SubId,
) -> Answer
    requires words { (words.now.table ≡ N.table) × (words.now.cards ≡ length N.cards) }
    requires fits { InRoom (fresh_streams N.cards N.long_max) (length N.cards) room.old.serial (view_of room.old) }
    requires here { (is_member from (numbers_of (members_in room.old.group)) ≡ true) × (is_member to (numbers_of (members_in room.old.group)) ≡ true) }
    requires apart { from.0 ≢ to.0 }
    requires by { IsBy pass.old.caller (link_by client from to) }
    requires calls { length pass.old.knows.calls < 2 ^ 64 - 1 }
    requires room { AllHaveRoom room.old.recs.items }
    ensures told { (xs : List ModelMember) → IsIn (fresh_streams N.cards N.long_max) (length N.cards) room.old.serial (view_of room.old) xs
        → OnDone result (λ reply receipt woken. IsLinkWithin (link_of client from to (stream_of from xs).state (stream_of to xs).state true) pass.old.knows (view_of room.old) (view_of room.new) xs reply woken × IsIn (fresh_streams N.cards N.long_max) (length N.cards) room.new.serial (view_of room.new) xs) }
    ensures never { OnDone result (λ reply receipt woken. is_ok_reply reply ≡ false) }
    ensures pass { OnDone result (λ reply receipt woken. Knows N.cards N.long_max (link_by client from to) 0 reply receipt pass.old pass.new) }
    ensures receipt { OnDone result (λ reply receipt woken. (receipt.sub ≡ from) × (receipt.index ≡ length (log_in from room.old.recs.items))) }
    ensures lists { OnDone result (λ reply receipt woken. (told_log receipt pass.new.knows ≡ log_in from room.new.recs.items) × (longest to.0 pass.new.knows.held.logs ≡ log_in to room.new.recs.items)) }
    ensures same { (room.new.group ≡ room.old.group) × (room.new.number ≡ room.old.number) }
    ensures done { OnFull result (λ sub count. ⊥) × OnMemory result ⊥ }
{
    moves();
    let own = place_of(&room.recs, from);
    let other = place_of(&room.recs, to);
    let one = page_at(room.group.members(), own);
    let two = page_at(room.group.members(), other);
    let link = linked(client, from, to, one.state, two.state, true);
    let index = count_at(&room.recs, own);
    let recs = room.recs.as_mut_slice();
    record_both(words, pass, recs, own, other, &link, &one, &two);
    Answer::Done {
        reply: link.reply,
        receipt: Receipt { sub: from, index },
        woken: 0,
    }
}

/// A link of two members of the room, as `link_within` says.
pub(crate) fn link_both<N: FloorName>(
    words: &SharedWords,
    pass: &mut Pass<N>,
    room: &mut Contents<N>,
    client: ClientId,
    from: SubId,
    to: SubId,
) -> Answer
    requires words { (words.now.table ≡ N.table) × (words.now.cards ≡ length N.cards) }
    requires fits { InRoom (fresh_streams N.cards N.long_max) (length N.cards) room.old.serial (view_of room.old) }
    requires here { (is_member from (numbers_of (members_in room.old.group)) ≡ true) × (is_member to (numbers_of (members_in room.old.group)) ≡ true) }
    requires apart { from.0 ≢ to.0 }
    requires by { IsBy pass.old.caller (link_by client from to) }
    ensures fits { InRoom (fresh_streams N.cards N.long_max) (length N.cards) room.new.serial (view_of room.new) }
    ensures told { (xs : List ModelMember) → IsIn (fresh_streams N.cards N.long_max) (length N.cards) room.old.serial (view_of room.old) xs
        → OnDone result (λ reply receipt woken. IsLinkWithin (link_of client from to (stream_of from xs).state (stream_of to xs).state true) pass.old.knows (view_of room.old) (view_of room.new) xs reply woken × IsIn (fresh_streams N.cards N.long_max) (length N.cards) room.new.serial (view_of room.new) xs) }
    ensures never { OnDone result (λ reply receipt woken. is_ok_reply reply ≡ false) }
    ensures pass { OnDone result (λ reply receipt woken. Knows N.cards N.long_max (link_by client from to) 0 reply receipt pass.old pass.new) }
    ensures receipt { OnDone result (λ reply receipt woken. (receipt.sub ≡ from) × (receipt.index ≡ length (log_in from room.old.recs.items))) }
    ensures lists { OnDone result (λ reply receipt woken. (told_log receipt pass.new.knows ≡ log_in from room.new.recs.items) × (longest to.0 pass.new.knows.held.logs ≡ log_in to room.new.recs.items)) }
    ensures refused { OnFull result (λ sub count. (k : ℕ) × IsRefused k room.old.recs.items room.new.recs.items pass.old pass.new sub count) }
    ensures full { (k : ℕ) → IsFull k room.old.recs.items → OnDone result (λ reply receipt woken. ⊥) × OnMemory result ⊥ }
    ensures unchanged { OnFull result (λ sub count. room.new.book.items ≡ room.old.book.items) }
    ensures memory { OnMemory result ((knows_of room.new.recs.items ≡ knows_of room.old.recs.items) × (room.new.book.items ≡ room.old.book.items) × (pass.new ≡ pass.old)) }
    ensures same { (room.new.group ≡ room.old.group) × (room.new.number ≡ room.old.number) }
{
    if let Some(place) = full(&room.recs) {
        return refuse(&mut room.recs, words, pass, place);
    }
    if pass.calls() == u64::MAX {
        return Answer::Memory;
    }
    match reserve_all(&mut room.recs) {
        Ok(()) => tell_both(words, pass, room, client, from, to),
        Err(_) => Answer::Memory,
    }
}
