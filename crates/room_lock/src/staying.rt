// Links of one member of a room to itself, or to no card of the floor: they are refused, and nobody moves.
ghost use Rattle.std.specs.Prelude.{◌≡◌, ◌⊎◌, ◌≤◌, ◌<◌, ◌-◌, ◌^◌, ℕ, List, true, length};
ghost use Rattle.pcm_base.specs.model.Group.{stream_of};
ghost use Rattle.pcm_base.specs.model.Replay.{is_member};
ghost use Rattle.pcm_base.specs.model.Stream.{Member as ModelMember};
ghost use Rattle.pcm_group.specs.Inside.{members_in};
ghost use Rattle.pcm_stream.specs.Members.{numbers_of};
ghost use Rattle.room_book.specs.Rooms.{fresh_streams};
ghost use Rattle.room_parts.specs.Passes.{IsBy};
ghost use Rattle.room_lock.specs.Answers.{OnDone, OnFull, OnMemory, log_in};
ghost use Rattle.room_lock.specs.InRoom.{InRoom, IsIn};
ghost use Rattle.room_lock.specs.Inside.{view_of};
ghost use Rattle.room_lock.specs.Known.{Knows};
ghost use Rattle.room_lock.specs.Linked.{link_by};
ghost use Rattle.room_lock.specs.Ready.{IsFull, knows_of};
ghost use Rattle.room_lock.specs.Recorded.{AllHaveRoom};
ghost use Rattle.room_lock.specs.Refused.{IsRefused};
ghost use Rattle.room_lock.specs.Staying.{IsLinkRefused, lone_link};

use crate::answer::Answer;
use crate::contents::{Contents, place_of};
use crate::linking::{linked, record_link_once};
use crate::members::page_at;
use crate::ready::{full, reserve_all};
use crate::recording::{Receipt, count_at};
use crate::refusing::refuse;
use floor_rule::SharedWords;
use pcm_base::{ClientId, State, SubId};
use room_book::laws::moves;
use room_parts::{FloorName, Linked, Pass};

// A link of a member to itself, or to no card, which is as one that is closed.
fn lone(client: ClientId, from: SubId, to: SubId, state: State, number: u32) -> Linked
    ensures { result ≡ lone_link client from to state number }
{
    if to.0 == from.0 {
        linked(client, from, to, state, state, number >= 16)
    } else {
        linked(client, from, to, state, State::Closed, false)
    }
}

// A link that names one member of the room, once its memory is taken.
fn tell_once<N: FloorName>(
    words: &SharedWords,
    pass: &mut Pass<N>,
    room: &mut Contents<N>,
    client: ClientId,
    from: SubId,
    to: SubId,
) -> Answer
    requires words { (words.now.table ≡ N.table) × (words.now.cards ≡ length N.cards) }
    requires fits { InRoom (fresh_streams N.cards N.long_max) (length N.cards) room.old.serial (view_of room.old) }
    requires here { is_member from (numbers_of (members_in room.old.group)) ≡ true }
    requires alone { (to.0 ≡ from.0) ⊎ (length N.cards ≤ to.0) }
    requires by { IsBy pass.old.caller (link_by client from to) }
    requires calls { length pass.old.knows.calls < 2 ^ 64 - 1 }
    requires room { AllHaveRoom room.old.recs.items }
    ensures told { (xs : List ModelMember) → IsIn (fresh_streams N.cards N.long_max) (length N.cards) room.old.serial (view_of room.old) xs
        → OnDone result (λ reply receipt woken. IsLinkRefused (lone_link client from to (stream_of from xs).state room.old.number) pass.old.knows (view_of room.old) (view_of room.new) xs reply woken × IsIn (fresh_streams N.cards N.long_max) (length N.cards) room.new.serial (view_of room.new) xs) }
    ensures pass { OnDone result (λ reply receipt woken. Knows N.cards N.long_max (link_by client from to) 0 reply receipt pass.old pass.new) }
    ensures receipt { OnDone result (λ reply receipt woken. (receipt.sub ≡ from) × (receipt.index ≡ length (log_in from room.old.recs.items))) }
    ensures same { (room.new.group ≡ room.old.group) × (room.new.number ≡ room.old.number) }
    ensures done { OnFull result (λ sub count. ⊥) × OnMemory result ⊥ }
{
    moves();
    let own = place_of(&room.recs, from);
    let page = page_at(room.group.members(), own);
    let link = lone(client, from, to, page.state, room.number);
    let index = count_at(&room.recs, own);
    record_link_once(words, pass, &mut room.recs, own, &link, &page);
    Answer::Done {
        reply: link.reply,
        receipt: Receipt { sub: from, index },
        woken: 0,
    }
}

/// A link that names one member of the room, as `link_to_itself` says.
pub(crate) fn link_once<N: FloorName>(
    words: &SharedWords,
    pass: &mut Pass<N>,
    room: &mut Contents<N>,
    client: ClientId,
    from: SubId,
    to: SubId,
) -> Answer
    requires words { (words.now.table ≡ N.table) × (words.now.cards ≡ length N.cards) }
    requires fits { InRoom (fresh_streams N.cards N.long_max) (length N.cards) room.old.serial (view_of room.old) }
    requires here { is_member from (numbers_of (members_in room.old.group)) ≡ true }
    requires alone { (to.0 ≡ from.0) ⊎ (length N.cards ≤ to.0) }
    requires by { IsBy pass.old.caller (link_by client from to) }
    ensures fits { InRoom (fresh_streams N.cards N.long_max) (length N.cards) room.new.serial (view_of room.new) }
    ensures told { (xs : List ModelMember) → IsIn (fresh_streams N.cards N.long_max) (length N.cards) room.old.serial (view_of room.old) xs
        → OnDone result (λ reply receipt woken. IsLinkRefused (lone_link client from to (stream_of from xs).state room.old.number) pass.old.knows (view_of room.old) (view_of room.new) xs reply woken × IsIn (fresh_streams N.cards N.long_max) (length N.cards) room.new.serial (view_of room.new) xs) }
    ensures pass { OnDone result (λ reply receipt woken. Knows N.cards N.long_max (link_by client from to) 0 reply receipt pass.old pass.new) }
    ensures receipt { OnDone result (λ reply receipt woken. (receipt.sub ≡ from) × (receipt.index ≡ length (log_in from room.old.recs.items))) }
    ensures refused { OnFull result (λ sub count. (k : ℕ) × IsRefused k room.old.recs.items room.new.recs.items pass.old pass.new sub count) }
    ensures full { (k : ℕ) → IsFull k room.old.recs.items → OnDone result (λ reply receipt woken. ⊥) × OnMemory result ⊥ }
    ensures unchanged { OnFull result (λ sub count. room.new.book.items ≡ room.old.book.items) }
    ensures memory { OnMemory result ((knows_of room.new.recs.items ≡ knows_of room.old.recs.items) × (room.new.book.items ≡ room.old.book.items) × (pass.new ≡ pass.old)) }
    ensures same { (room.new.group ≡ room.old.group) × (room.new.number ≡ room.old.number) }
{
    if let Some(place) = full(&room.recs) {
        return refuse(&mut room.recs, words, pass, place);
    }
    if pass.calls() == u64::MAX {
        return Answer::Memory;
    }
    match reserve_all(&mut room.recs) {
        Ok(()) => tell_once(words, pass, room, client, from, to),
        Err(_) => Answer::Memory,
    }
}
