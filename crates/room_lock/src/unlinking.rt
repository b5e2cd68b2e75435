// Unlinks of substreams that stand in rooms.
ghost use Rattle.std.specs.Prelude.{◌≡◌, ◌<◌, ◌-◌, ◌^◌, ◌∷◌, [], ℕ, List, length};
ghost use Rattle.floor_rule.specs.declared.entry.Entry.TheVariants.{Own};
ghost use Rattle.pcm_base.specs.model.Stream.{Member as ModelMember};
ghost use Rattle.pcm_group.specs.Inside.{members_in};
ghost use Rattle.pcm_stream.specs.Members.{numbers_of};
ghost use Rattle.pcm_stream.specs.MembersStand.{AllStandFor};
ghost use Rattle.room_book.specs.Rooms.{fresh_streams};
ghost use Rattle.room_parts.specs.Passes.{IsBy};
ghost use Rattle.room_lock.specs.Answers.{OnDone, OnFull, OnMemory, log_in};
ghost use Rattle.room_lock.specs.InRoom.{InRoom, IsIn};
ghost use Rattle.room_lock.specs.Inside.{view_of};
ghost use Rattle.room_lock.specs.Joined.{HasRoom, HoldsAt};
ghost use Rattle.room_lock.specs.Known.{Knows};
ghost use Rattle.room_lock.specs.Ready.{IsFull, knows_of};
ghost use Rattle.room_lock.specs.Recorded.{AllHaveRoom};
ghost use Rattle.room_lock.specs.Refused.{IsRefused};
ghost use Rattle.room_parts.specs.Recs.{sub_of, subs_of};
ghost use Rattle.room_lock.specs.Staying.{IsUnlinkRefused, IsUnlinkTold, unlink_by, unlink_reply as reply_of};

use crate::answer::Answer;
use crate::contents::Contents;
use crate::linking::is_closed;
use crate::members::page_at;
use crate::ready::{full, reserve_all};
use crate::recording::{Receipt, count_at, record_own};
use crate::refusing::refuse;
use floor_rule::{Entry, Joints, SharedWords};
use pcm_base::{Bytes, Call, ClientId, Errno, Event, Page, Reply, State, SubId};
use room_book::laws::moves;
use room_parts::{FloorName, Pass};
use std::alloc::Global;

/// An unlink that is told in the log of its substream: what it answers, the page of the substream, and where its entry stands.
#[derive(Drop)]
pub(crate) struct UnlinkTold {
    pub(crate) reply: Reply,
    pub(crate) page: Page,
    pub(crate) receipt: Receipt,
}

// What an unlink answers, of a substream in this state in a room of this number.
fn unlink_reply(state: State, number: u32) -> Reply
    ensures { result ≡ reply_of state number }
{
    if is_closed(state) {
        return Reply::Err(Errno::Enxio);
    }
    if number < 16 {
        return Reply::Err(Errno::Ealready);
    }
    Reply::Ok
}

fn unlink_event(client: ClientId, sub: SubId) -> Event
    ensures { result ≡ unlink_by client sub }
{
    Event {
        client: Some(client),
        sub,
        call: Call::Unlink,
    }
}

// The entry of an unlink, with no bytes and no acts.
fn unlink_entry(alloc: Global, client: ClientId, sub: SubId, reply: Reply, state: State) -> Entry
    ensures { result ≡ Own (unlink_by client sub) [] [] reply state }
{
    Entry::Own {
        event: unlink_event(client, sub),
        bytes: Bytes::of(Vec::new(alloc)),
        joints: Joints::new(),
        reply,
        state,
    }
}

/// The entry of an unlink in the log of the member at a place, as the pass's next call.
pub(crate) fn tell_unlink<N: FloorName>(
    words: &SharedWords,
    pass: &mut Pass<N>,
    room: &mut Contents<N>,
    own: usize,
    client: ClientId,
    sub: SubId,
) -> UnlinkTold
    requires words { (words.now.table ≡ N.table) × (words.now.cards ≡ length N.cards) }
    requires place { own < length room.old.recs.items }
    requires members { numbers_of (members_in room.old.group) ≡ subs_of room.old.recs.items }
    requires sub { HoldsAt (λ r. (sub_of r ≡ sub) × (r.knows.sub < length N.cards)) own room.old.recs.items }
    requires by { IsBy pass.old.caller (unlink_by client sub) }
    requires calls { length pass.old.knows.calls < 2 ^ 64 - 1 }
    requires room { HoldsAt (HasRoom 3) own room.old.recs.items }
    ensures told { (xs : List ModelMember) → AllStandFor (members_in room.old.group) xs → IsUnlinkTold own (unlink_by client sub) result.reply result.page xs room.old.recs.items room.new.recs.items pass.old pass.new result.receipt }
    ensures reply { result.reply ≡ reply_of result.page.state room.old.number }
    ensures low { result.page.hw < 2 ^ 36 }
    ensures same { (room.new.group ≡ room.old.group) × (room.new.book.items ≡ room.old.book.items) × (room.new.number ≡ room.old.number) × (room.new.serial ≡ room.old.serial) }
    ensures book { room.new.book ≡ room.old.book }
{
    let page = page_at(room.group.members(), own);
    let reply = unlink_reply(page.state, room.number);
    let index = count_at(&room.recs, own);
    let event = unlink_event(client, sub);
    let entry = unlink_entry(room.alloc, client, sub, reply, page.state);
    record_own(
        &mut room.recs,
        words,
        pass,
        own,
        &event,
        0,
        entry,
        page.state,
        page.hw,
    );
    UnlinkTold {
        reply,
        page,
        receipt: Receipt { sub, index },
    }
}

// An unlink of a substream that stands alone, once its memory is taken.
fn tell_alone<N: FloorName>(
    words: &SharedWords,
    pass: &mut Pass<N>,
    room: &mut Contents<N>,
    client: ClientId,
    sub: SubId,
) -> Answer
    requires words { (words.now.table ≡ N.table) × (words.now.cards ≡ length N.cards) }
    requires fits { InRoom (fresh_streams N.cards N.long_max) (length N.cards) room.old.serial (view_of room.old) }
    requires here { numbers_of (members_in room.old.group) ≡ sub ∷ [] }
    requires lone { room.old.number < 16 }
    requires by { IsBy pass.old.caller (unlink_by client sub) }
    requires calls { length pass.old.knows.calls < 2 ^ 64 - 1 }
    requires room { AllHaveRoom room.old.recs.items }
    ensures told { (xs : List ModelMember) → IsIn (fresh_streams N.cards N.long_max) (length N.cards) room.old.serial (view_of room.old) xs
        → OnDone result (λ reply receipt woken. IsUnlinkRefused (unlink_by client sub) pass.old.knows (view_of room.old) (view_of room.new) xs reply woken × IsIn (fresh_streams N.cards N.long_max) (length N.cards) room.new.serial (view_of room.new) xs) }
    ensures pass { OnDone result (λ reply receipt woken. Knows N.cards N.long_max (unlink_by client sub) 0 reply receipt pass.old pass.new) }
    ensures receipt { OnDone result (λ reply receipt woken. (receipt.sub ≡ sub) × (receipt.index ≡ length (log_in sub room.old.recs.items))) }
    ensures same { (room.new.group ≡ room.old.group) × (room.new.number ≡ room.old.number) }
    ensures done { OnFull result (λ sub count. ⊥) × OnMemory result ⊥ }
{
    moves();
    let told = tell_unlink(words, pass, room, 0, client, sub);
    Answer::Done {
        reply: told.reply,
        receipt: told.receipt,
        woken: 0,
    }
}

/// An unlink of a substream that stands alone, as `unlink_alone` says.
pub(crate) fn unlink_lone<N: FloorName>(
    words: &SharedWords,
    pass: &mut Pass<N>,
    room: &mut Contents<N>,
    client: ClientId,
    sub: SubId,
) -> Answer
    requires words { (words.now.table ≡ N.table) × (words.now.cards ≡ length N.cards) }
    requires fits { InRoom (fresh_streams N.cards N.long_max) (length N.cards) room.old.serial (view_of room.old) }
    requires here { numbers_of (members_in room.old.group) ≡ sub ∷ [] }
    requires lone { room.old.number < 16 }
    requires by { IsBy pass.old.caller (unlink_by client sub) }
    ensures fits { InRoom (fresh_streams N.cards N.long_max) (length N.cards) room.new.serial (view_of room.new) }
    ensures told { (xs : List ModelMember) → IsIn (fresh_streams N.cards N.long_max) (length N.cards) room.old.serial (view_of room.old) xs
        → OnDone result (λ reply receipt woken. IsUnlinkRefused (unlink_by client sub) pass.old.knows (view_of room.old) (view_of room.new) xs reply woken × IsIn (fresh_streams N.cards N.long_max) (length N.cards) room.new.serial (view_of room.new) xs) }
    ensures pass { OnDone result (λ reply receipt woken. Knows N.cards N.long_max (unlink_by client sub) 0 reply receipt pass.old pass.new) }
    ensures receipt { OnDone result (λ reply receipt woken. (receipt.sub ≡ sub) × (receipt.index ≡ length (log_in sub room.old.recs.items))) }
    ensures refused { OnFull result (λ sub count. (k : ℕ) × IsRefused k room.old.recs.items room.new.recs.items pass.old pass.new sub count) }
    ensures full { (k : ℕ) → IsFull k room.old.recs.items → OnDone result (λ reply receipt woken. ⊥) × OnMemory result ⊥ }
    ensures unchanged { OnFull result (λ sub count. room.new.book.items ≡ room.old.book.items) }
    ensures memory { OnMemory result ((knows_of room.new.recs.items ≡ knows_of room.old.recs.items) × (room.new.book.items ≡ room.old.book.items) × (pass.new ≡ pass.old)) }
    ensures same { (room.new.group ≡ room.old.group) × (room.new.number ≡ room.old.number) }
{
    if let Some(place) = full(&room.recs) {
        return refuse(&mut room.recs, words, pass, place);
    }
    if pass.calls() == u64::MAX {
        return Answer::Memory;
    }
    match reserve_all(&mut room.recs) {
        Ok(()) => tell_alone(words, pass, room, client, sub),
        Err(_) => Answer::Memory,
    }
}
