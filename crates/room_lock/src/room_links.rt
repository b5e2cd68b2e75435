// Links and unlinks of substreams in rooms.
ghost use Rattle.std.specs.Prelude.{◌≡◌, ◌≢◌, ◌⊎◌, ◌≤◌, ◌<◌, [], ℕ, List, true, false, nat_le, length};
ghost use Rattle.std.specs.Option.{is_none};
ghost use Rattle.floor_rule.specs.Lists.{longest};
ghost use Rattle.pcm_base.specs.declared.call.Call.TheVariants.{Unlink};
ghost use Rattle.pcm_base.specs.model.Group.{stream_of};
ghost use Rattle.pcm_base.specs.model.Replay.{is_link, is_member};
ghost use Rattle.pcm_base.specs.model.Stream.{Member as ModelMember};
ghost use Rattle.pcm_stream.specs.Members.{numbers_of};
ghost use Rattle.room_book.specs.Logs.{client_of, is_ok as is_ok_reply};
ghost use Rattle.room_book.specs.Rooms.{fresh_streams};
ghost use Rattle.room_parts.specs.Passes.{IsBy};
ghost use Rattle.room_lock.specs.Answers.{OnDone, OnFull, OnMemory, log_in};
ghost use Rattle.room_lock.specs.InRoom.{IsRoomOf};
ghost use Rattle.room_lock.specs.Joining.{IsJoining, joined_by};
ghost use Rattle.room_lock.specs.Known.{Knows, told_log};
ghost use Rattle.room_lock.specs.Leaving.{IsLeaving, gone_home, left_by};
ghost use Rattle.room_lock.specs.Linked.{link_by, link_of, linked_to};
ghost use Rattle.room_lock.specs.Met.{IsMeeting, met, stay};
ghost use Rattle.room_lock.specs.Parting.{IsParting, at_home, left_home};
ghost use Rattle.room_lock.specs.Ready.{IsFull, knows_of};
ghost use Rattle.room_lock.specs.Refused.{AreFull, AreRefused, IsRefused};
ghost use Rattle.room_lock.specs.Staying.{IsLinkRefused, IsUnlinkRefused, lone_link, unlink_by};
ghost use Rattle.room_lock.specs.Within.{IsLinkWithin};

use crate::answer::Answer;
use crate::joining::link_groups;
use crate::leaving::unlink_one;
use crate::links::link_alone;
use crate::parting::unlink_pair;
use crate::room::Room;
use crate::staying::link_once;
use crate::unlinking::unlink_lone;
use crate::within::link_both;
use floor_rule::SharedWords;
use pcm_base::{Call, ClientId, Event, SubId};
use room_parts::{FloorName, Pass};

// The client of a link, and its second substream.
fn link_parts(event: &Event) -> (ClientId, SubId)
    requires link { is_link event.now.call ≡ true }
    requires client { is_none event.now.client ≡ false }
    ensures { event.now ≡ link_by result.0 event.now.sub result.1 }
{
    match (event.client, event.call) {
        (Some(client), Call::Link(second)) => (client, second),
        _ => unreachable!(),
    }
}

/// A link of two substreams that stand in their own rooms, the event's in the first, by a pass of its client. Both logs gain
/// its entry, and the pass has its receipt in the first. Where it is answered Ok, both move to the group's room, which is
/// empty, the first before the second, and the wake checks of a link are made. `LogFull` tells the first whose log has no
/// room for three entries more, with the count of its entries, and the pass has then read its page. `Memory` comes also
/// where the caller has made as many calls as it can number. Both leave the rooms as they were.
pub fn link_rooms<N: FloorName>(
    words: &SharedWords,
    pass: &mut Pass<N>,
    first: &mut Room<N>,
    second: &mut Room<N>,
    group: &mut Room<N>,
    event: &Event,
) -> Answer
    requires words { (words.now.table ≡ N.table) × (words.now.cards ≡ length N.cards) }
    requires link { is_link event.now.call ≡ true }
    requires client { is_none event.now.client ≡ false }
    requires first { (first.old.number < 16) × (is_member event.now.sub (numbers_of first.old.members) ≡ true) }
    requires second { (second.old.number < 16) × (is_member (linked_to event.now.call) (numbers_of second.old.members) ≡ true) }
    requires apart { first.old.number ≢ second.old.number }
    requires group { (group.old.members ≡ []) × (16 ≤ group.old.number) × (group.old.number < 32) }
    requires by { IsBy pass.old.caller event.now }
    ensures rooms { (xs ys : List ModelMember) → IsRoomOf (fresh_streams N.cards N.long_max) (length N.cards) first.old xs → IsRoomOf (fresh_streams N.cards N.long_max) (length N.cards) second.old ys
        → OnDone result (λ reply receipt woken. IsRoomOf (fresh_streams N.cards N.long_max) (length N.cards) first.new (stay reply xs) × IsRoomOf (fresh_streams N.cards N.long_max) (length N.cards) second.new (stay reply ys) × IsRoomOf (fresh_streams N.cards N.long_max) (length N.cards) group.new (met reply xs ys)) }
    ensures meeting { (xs ys : List ModelMember) → IsRoomOf (fresh_streams N.cards N.long_max) (length N.cards) first.old xs → IsRoomOf (fresh_streams N.cards N.long_max) (length N.cards) second.old ys
        → OnDone result (λ reply receipt woken. IsMeeting (link_of (client_of event.now.client) event.now.sub (linked_to event.now.call) (stream_of event.now.sub xs).state (stream_of (linked_to event.now.call) ys).state false) pass.old.knows first.old first.new second.old second.new group.old group.new xs ys reply woken) }
    ensures receipt { OnDone result (λ reply receipt woken. (receipt.sub ≡ event.now.sub) × (receipt.index ≡ length (log_in event.now.sub first.old.recs))) }
    ensures pass { OnDone result (λ reply receipt woken. Knows N.cards N.long_max event.now 0 reply receipt pass.old pass.new) }
    ensures caller { (pass.new.caller ≡ pass.old.caller) × (pass.new.knows.number ≡ pass.old.knows.number) }
    ensures refused { OnFull result (λ sub count. AreRefused first.old.recs first.new.recs second.old.recs second.new.recs pass.old pass.new sub count) }
    ensures full { AreFull first.old.recs second.old.recs → OnDone result (λ reply receipt woken. ⊥) × OnMemory result ⊥ }
    ensures unchanged { OnFull result (λ sub count. (first.new.members ≡ first.old.members) × (second.new.members ≡ second.old.members) × (first.new.book ≡ first.old.book) × (second.new.book ≡ second.old.book) × (group.new ≡ group.old)) }
    ensures memory { OnMemory result ((knows_of first.new.recs ≡ knows_of first.old.recs) × (knows_of second.new.recs ≡ knows_of second.old.recs) × (pass.new ≡ pass.old)) }
    ensures kept { OnMemory result ((first.new.members ≡ first.old.members) × (second.new.members ≡ second.old.members) × (group.new.members ≡ group.old.members)) }
    ensures books { OnMemory result ((first.new.book ≡ first.old.book) × (second.new.book ≡ second.old.book) × (group.new.book ≡ group.old.book)) }
    ensures numbers { (first.new.number ≡ first.old.number) × (second.new.number ≡ second.old.number) × (group.new.number ≡ group.old.number) }
{
    let (client, other) = link_parts(event);
    link_alone(
        words,
        pass,
        &mut first.inside,
        &mut second.inside,
        &mut group.inside,
        client,
        event.sub,
        other,
    )
}

/// A link of substreams of two rooms, at least one of which holds a group, the event's in the first, by a pass of its
/// client. Both logs gain its entry, and the pass has its receipt in the first. Where it is answered Ok, the second stands
/// alone and moves into the first's room, behind the members there, and the wake checks of a link are made. `LogFull` tells
/// the first member in link order whose log has no room for three entries more, those of the first room before those of the
/// second, with the count of its entries, and the pass has then read its page. `Memory` comes also where the caller has made
/// as many calls as it can number. Both leave the rooms as they were.
pub fn link_to_group<N: FloorName>(
    words: &SharedWords,
    pass: &mut Pass<N>,
    first: &mut Room<N>,
    second: &mut Room<N>,
    event: &Event,
) -> Answer
    requires words { (words.now.table ≡ N.table) × (words.now.cards ≡ length N.cards) }
    requires cards { length N.cards ≤ 16 }
    requires link { is_link event.now.call ≡ true }
    requires client { is_none event.now.client ≡ false }
    requires first { (first.old.number < 32) × (is_member event.now.sub (numbers_of first.old.members) ≡ true) }
    requires second { is_member (linked_to event.now.call) (numbers_of second.old.members) ≡ true }
    requires apart { is_member (linked_to event.now.call) (numbers_of first.old.members) ≡ false }
    requires group { (16 ≤ first.old.number) ⊎ (16 ≤ second.old.number) }
    requires by { IsBy pass.old.caller event.now }
    ensures rooms { (xs ys : List ModelMember) → IsRoomOf (fresh_streams N.cards N.long_max) (length N.cards) first.old xs → IsRoomOf (fresh_streams N.cards N.long_max) (length N.cards) second.old ys
        → OnDone result (λ reply receipt woken. IsRoomOf (fresh_streams N.cards N.long_max) (length N.cards) first.new (joined_by reply xs ys) × IsRoomOf (fresh_streams N.cards N.long_max) (length N.cards) second.new (stay reply ys)) }
    ensures joining { (xs ys : List ModelMember) → IsRoomOf (fresh_streams N.cards N.long_max) (length N.cards) first.old xs → IsRoomOf (fresh_streams N.cards N.long_max) (length N.cards) second.old ys
        → OnDone result (λ reply receipt woken. IsJoining (link_of (client_of event.now.client) event.now.sub (linked_to event.now.call) (stream_of event.now.sub xs).state (stream_of (linked_to event.now.call) ys).state (nat_le 16 second.old.number)) pass.old.knows first.old first.new second.old second.new xs ys reply woken) }
    ensures receipt { OnDone result (λ reply receipt woken. (receipt.sub ≡ event.now.sub) × (receipt.index ≡ length (log_in event.now.sub first.old.recs))) }
    ensures pass { OnDone result (λ reply receipt woken. Knows N.cards N.long_max event.now 0 reply receipt pass.old pass.new) }
    ensures caller { (pass.new.caller ≡ pass.old.caller) × (pass.new.knows.number ≡ pass.old.knows.number) }
    ensures refused { OnFull result (λ sub count. AreRefused first.old.recs first.new.recs second.old.recs second.new.recs pass.old pass.new sub count) }
    ensures full { AreFull first.old.recs second.old.recs → OnDone result (λ reply receipt woken. ⊥) × OnMemory result ⊥ }
    ensures unchanged { OnFull result (λ sub count. (first.new.members ≡ first.old.members) × (second.new.members ≡ second.old.members) × (first.new.book ≡ first.old.book) × (second.new.book ≡ second.old.book)) }
    ensures memory { OnMemory result ((knows_of first.new.recs ≡ knows_of first.old.recs) × (knows_of second.new.recs ≡ knows_of second.old.recs) × (pass.new ≡ pass.old)) }
    ensures kept { OnMemory result ((first.new.members ≡ first.old.members) × (second.new.members ≡ second.old.members) × (first.new.book ≡ first.old.book) × (second.new.book ≡ second.old.book)) }
    ensures numbers { (first.new.number ≡ first.old.number) × (second.new.number ≡ second.old.number) }
{
    let (client, other) = link_parts(event);
    link_groups(
        words,
        pass,
        &mut first.inside,
        &mut second.inside,
        client,
        event.sub,
        other,
    )
}

/// A link of a member of a room to itself, or to a substream that is no card of the floor, by a pass of its client. It is
/// refused, and the member's log gains its entry, at which the pass has its receipt. `LogFull` tells the first member in link
/// order whose log has no room for three entries more, with the count of its entries, and the pass has then read its page.
/// `Memory` comes also where the caller has made as many calls as it can number. Both leave the room as it was.
pub fn link_to_itself<N: FloorName>(
    words: &SharedWords,
    pass: &mut Pass<N>,
    room: &mut Room<N>,
    event: &Event,
) -> Answer
    requires words { (words.now.table ≡ N.table) × (words.now.cards ≡ length N.cards) }
    requires link { is_link event.now.call ≡ true }
    requires client { is_none event.now.client ≡ false }
    requires here { is_member event.now.sub (numbers_of room.old.members) ≡ true }
    requires alone { ((linked_to event.now.call).0 ≡ event.now.sub.0) ⊎ (length N.cards ≤ (linked_to event.now.call).0) }
    requires by { IsBy pass.old.caller event.now }
    ensures room { (xs : List ModelMember) → IsRoomOf (fresh_streams N.cards N.long_max) (length N.cards) room.old xs
        → OnDone result (λ reply receipt woken. IsRoomOf (fresh_streams N.cards N.long_max) (length N.cards) room.new xs) }
    ensures refusal { (xs : List ModelMember) → IsRoomOf (fresh_streams N.cards N.long_max) (length N.cards) room.old xs
        → OnDone result (λ reply receipt woken. IsLinkRefused (lone_link (client_of event.now.client) event.now.sub (linked_to event.now.call) (stream_of event.now.sub xs).state room.old.number) pass.old.knows room.old room.new xs reply woken) }
    ensures receipt { OnDone result (λ reply receipt woken. (receipt.sub ≡ event.now.sub) × (receipt.index ≡ length (log_in event.now.sub room.old.recs))) }
    ensures pass { OnDone result (λ reply receipt woken. Knows N.cards N.long_max event.now 0 reply receipt pass.old pass.new) }
    ensures caller { (pass.new.caller ≡ pass.old.caller) × (pass.new.knows.number ≡ pass.old.knows.number) }
    ensures refused { OnFull result (λ sub count. (k : ℕ) × IsRefused k room.old.recs room.new.recs pass.old pass.new sub count) }
    ensures full { (k : ℕ) → IsFull k room.old.recs → OnDone result (λ reply receipt woken. ⊥) × OnMemory result ⊥ }
    ensures unchanged { OnFull result (λ sub count. room.new.book ≡ room.old.book) }
    ensures memory { OnMemory result ((knows_of room.new.recs ≡ knows_of room.old.recs) × (room.new.book ≡ room.old.book) × (pass.new ≡ pass.old)) }
    ensures members { room.new.members ≡ room.old.members }
    ensures number { room.new.number ≡ room.old.number }
{
    let (client, other) = link_parts(event);
    link_once(words, pass, &mut room.inside, client, event.sub, other)
}

// The client of an unlink.
fn unlink_part(event: &Event) -> ClientId
    requires unlink { event.now.call ≡ Unlink }
    requires client { is_none event.now.client ≡ false }
    ensures { event.now ≡ unlink_by result event.now.sub }
{
    match event.client {
        Some(client) => client,
        None => unreachable!(),
    }
}

/// An unlink of a substream that stands in its own room, by a pass of its client. It is refused, and the log of the substream
/// gains its entry, at which the pass has its receipt. `LogFull` tells a log without room for three entries more, with the
/// count of its entries, and the pass has then read its page. `Memory` comes also where the caller has made as many calls as
/// it can number. Both leave the room as it was.
pub fn unlink_alone<N: FloorName>(
    words: &SharedWords,
    pass: &mut Pass<N>,
    room: &mut Room<N>,
    event: &Event,
) -> Answer
    requires words { (words.now.table ≡ N.table) × (words.now.cards ≡ length N.cards) }
    requires unlink { event.now.call ≡ Unlink }
    requires client { is_none event.now.client ≡ false }
    requires here { (room.old.number < 16) × (is_member event.now.sub (numbers_of room.old.members) ≡ true) }
    requires by { IsBy pass.old.caller event.now }
    ensures room { (xs : List ModelMember) → IsRoomOf (fresh_streams N.cards N.long_max) (length N.cards) room.old xs
        → OnDone result (λ reply receipt woken. IsRoomOf (fresh_streams N.cards N.long_max) (length N.cards) room.new xs) }
    ensures refusal { (xs : List ModelMember) → IsRoomOf (fresh_streams N.cards N.long_max) (length N.cards) room.old xs
        → OnDone result (λ reply receipt woken. IsUnlinkRefused event.now pass.old.knows room.old room.new xs reply woken) }
    ensures receipt { OnDone result (λ reply receipt woken. (receipt.sub ≡ event.now.sub) × (receipt.index ≡ length (log_in event.now.sub room.old.recs))) }
    ensures pass { OnDone result (λ reply receipt woken. Knows N.cards N.long_max event.now 0 reply receipt pass.old pass.new) }
    ensures caller { (pass.new.caller ≡ pass.old.caller) × (pass.new.knows.number ≡ pass.old.knows.number) }
    ensures refused { OnFull result (λ sub count. (k : ℕ) × IsRefused k room.old.recs room.new.recs pass.old pass.new sub count) }
    ensures full { (k : ℕ) → IsFull k room.old.recs → OnDone result (λ reply receipt woken. ⊥) × OnMemory result ⊥ }
    ensures unchanged { OnFull result (λ sub count. room.new.book ≡ room.old.book) }
    ensures memory { OnMemory result ((knows_of room.new.recs ≡ knows_of room.old.recs) × (room.new.book ≡ room.old.book) × (pass.new ≡ pass.old)) }
    ensures members { room.new.members ≡ room.old.members }
    ensures number { room.new.number ≡ room.old.number }
{
    let client = unlink_part(event);
    unlink_lone(words, pass, &mut room.inside, client, event.sub)
}

/// A link of two members of one room, by a pass of its client. It is refused, with EALREADY where no other cause comes first.
/// Both logs gain its entry, and the pass has its receipt in the log of the event's. `LogFull` tells the first member in link
/// order whose log has no room for three entries more, with the count of its entries, and the pass has then read its page.
/// `Memory` comes also where the caller has made as many calls as it can number. Both leave the room as it was.
pub fn link_within<N: FloorName>(
    words: &SharedWords,
    pass: &mut Pass<N>,
    room: &mut Room<N>,
    event: &Event,
) -> Answer
    requires words { (words.now.table ≡ N.table) × (words.now.cards ≡ length N.cards) }
    requires link { is_link event.now.call ≡ true }
    requires client { is_none event.now.client ≡ false }
    requires here { is_member event.now.sub (numbers_of room.old.members) ≡ true }
    requires second { is_member (linked_to event.now.call) (numbers_of room.old.members) ≡ true }
    requires apart { event.now.sub.0 ≢ (linked_to event.now.call).0 }
    requires by { IsBy pass.old.caller event.now }
    ensures room { (xs : List ModelMember) → IsRoomOf (fresh_streams N.cards N.long_max) (length N.cards) room.old xs
        → OnDone result (λ reply receipt woken. IsRoomOf (fresh_streams N.cards N.long_max) (length N.cards) room.new xs) }
    ensures refusal { (xs : List ModelMember) → IsRoomOf (fresh_streams N.cards N.long_max) (length N.cards) room.old xs
        → OnDone result (λ reply receipt woken. IsLinkWithin (link_of (client_of event.now.client) event.now.sub (linked_to event.now.call) (stream_of event.now.sub xs).state (stream_of (linked_to event.now.call) xs).state true) pass.old.knows room.old room.new xs reply woken) }
    ensures never { OnDone result (λ reply receipt woken. is_ok_reply reply ≡ false) }
    ensures receipt { OnDone result (λ reply receipt woken. (receipt.sub ≡ event.now.sub) × (receipt.index ≡ length (log_in event.now.sub room.old.recs))) }
    ensures pass { OnDone result (λ reply receipt woken. Knows N.cards N.long_max event.now 0 reply receipt pass.old pass.new) }
    ensures told { OnDone result (λ reply receipt woken. told_log receipt pass.new.knows ≡ log_in event.now.sub room.new.recs) }
    ensures second_told { OnDone result (λ reply receipt woken. longest (linked_to event.now.call).0 pass.new.knows.held.logs ≡ log_in (linked_to event.now.call) room.new.recs) }
    ensures caller { (pass.new.caller ≡ pass.old.caller) × (pass.new.knows.number ≡ pass.old.knows.number) }
    ensures refused { OnFull result (λ sub count. (k : ℕ) × IsRefused k room.old.recs room.new.recs pass.old pass.new sub count) }
    ensures full { (k : ℕ) → IsFull k room.old.recs → OnDone result (λ reply receipt woken. ⊥) × OnMemory result ⊥ }
    ensures unchanged { OnFull result (λ sub count. room.new.book ≡ room.old.book) }
    ensures memory { OnMemory result ((knows_of room.new.recs ≡ knows_of room.old.recs) × (room.new.book ≡ room.old.book) × (pass.new ≡ pass.old)) }
    ensures members { room.new.members ≡ room.old.members }
    ensures number { room.new.number ≡ room.old.number }
{
    let (client, other) = link_parts(event);
    link_both(words, pass, &mut room.inside, client, event.sub, other)
}

/// An unlink of a member of a group of three or more, by a pass of its client: `own` is the empty room of its number. The log of
/// the member gains the entry, at which the pass has its receipt. Where it is answered Ok, the member goes home, the others stay,
/// and the wake checks of an unlink are made. `LogFull` tells the first member in link order whose log has no room for three
/// entries more, with the count of its entries, and the pass has then read its page. `Memory` comes also where the caller has
/// made as many calls as it can number. Both leave the rooms as they were.
pub fn unlink_from_group<N: FloorName>(
    words: &SharedWords,
    pass: &mut Pass<N>,
    room: &mut Room<N>,
    own: &mut Room<N>,
    event: &Event,
) -> Answer
    requires words { (words.now.table ≡ N.table) × (words.now.cards ≡ length N.cards) }
    requires unlink { event.now.call ≡ Unlink }
    requires client { is_none event.now.client ≡ false }
    requires here { is_member event.now.sub (numbers_of room.old.members) ≡ true }
    requires three { 3 ≤ length room.old.members }
    requires own { (own.old.number ≡ event.now.sub.0) × (own.old.number < 16) × (own.old.members ≡ []) }
    requires by { IsBy pass.old.caller event.now }
    ensures rooms { (xs : List ModelMember) → IsRoomOf (fresh_streams N.cards N.long_max) (length N.cards) room.old xs
        → OnDone result (λ reply receipt woken. IsRoomOf (fresh_streams N.cards N.long_max) (length N.cards) room.new (left_by reply event.now.sub xs) × IsRoomOf (fresh_streams N.cards N.long_max) (length N.cards) own.new (gone_home reply event.now.sub xs)) }
    ensures leaving { (xs : List ModelMember) → IsRoomOf (fresh_streams N.cards N.long_max) (length N.cards) room.old xs
        → OnDone result (λ reply receipt woken. IsLeaving event.now pass.old.knows room.old room.new own.old own.new xs reply woken) }
    ensures receipt { OnDone result (λ reply receipt woken. (receipt.sub ≡ event.now.sub) × (receipt.index ≡ length (log_in event.now.sub room.old.recs))) }
    ensures pass { OnDone result (λ reply receipt woken. Knows N.cards N.long_max event.now 0 reply receipt pass.old pass.new) }
    ensures caller { (pass.new.caller ≡ pass.old.caller) × (pass.new.knows.number ≡ pass.old.knows.number) }
    ensures refused { OnFull result (λ sub count. (k : ℕ) × IsRefused k room.old.recs room.new.recs pass.old pass.new sub count) }
    ensures full { (k : ℕ) → IsFull k room.old.recs → OnDone result (λ reply receipt woken. ⊥) × OnMemory result ⊥ }
    ensures unchanged { OnFull result (λ sub count. (room.new.members ≡ room.old.members) × (room.new.book ≡ room.old.book) × (own.new ≡ own.old)) }
    ensures memory { OnMemory result ((knows_of room.new.recs ≡ knows_of room.old.recs) × (room.new.book ≡ room.old.book) × (pass.new ≡ pass.old)) }
    ensures kept { OnMemory result ((room.new.members ≡ room.old.members) × (own.new.members ≡ own.old.members) × (own.new.book ≡ own.old.book)) }
    ensures numbers { (room.new.number ≡ room.old.number) × (own.new.number ≡ own.old.number) }
{
    let client = unlink_part(event);
    unlink_one(
        words,
        pass,
        &mut room.inside,
        &mut own.inside,
        client,
        event.sub,
    )
}

/// An unlink of a member of a group of two, by a pass of its client: `own` is the empty room of its number, and `other` that of
/// the other's. The log of the member gains the entry, at which the pass has its receipt. Where it is answered Ok, both go home,
/// the one named before the other, and the wake checks of an unlink are made. `LogFull` tells the first member in link order
/// whose log has no room for three entries more, with the count of its entries, and the pass has then read its page. `Memory`
/// comes also where the caller has made as many calls as it can number. Both leave the rooms as they were.
pub fn unlink_rooms<N: FloorName>(
    words: &SharedWords,
    pass: &mut Pass<N>,
    room: &mut Room<N>,
    own: &mut Room<N>,
    other: &mut Room<N>,
    event: &Event,
) -> Answer
    requires words { (words.now.table ≡ N.table) × (words.now.cards ≡ length N.cards) }
    requires unlink { event.now.call ≡ Unlink }
    requires client { is_none event.now.client ≡ false }
    requires here { (is_member event.now.sub (numbers_of room.old.members) ≡ true) × (length room.old.members ≡ 2) }
    requires own { (own.old.number ≡ event.now.sub.0) × (own.old.number < 16) × (own.old.members ≡ []) }
    requires other { (is_member (at_home other.old) (numbers_of room.old.members) ≡ true) × (other.old.number < 16) × (other.old.number ≢ event.now.sub.0) × (other.old.members ≡ []) }
    requires by { IsBy pass.old.caller event.now }
    ensures rooms { (xs : List ModelMember) → IsRoomOf (fresh_streams N.cards N.long_max) (length N.cards) room.old xs
        → OnDone result (λ reply receipt woken. IsRoomOf (fresh_streams N.cards N.long_max) (length N.cards) room.new (stay reply xs) × IsRoomOf (fresh_streams N.cards N.long_max) (length N.cards) own.new (gone_home reply event.now.sub xs) × IsRoomOf (fresh_streams N.cards N.long_max) (length N.cards) other.new (left_home reply event.now.sub xs)) }
    ensures parting { (xs : List ModelMember) → IsRoomOf (fresh_streams N.cards N.long_max) (length N.cards) room.old xs
        → OnDone result (λ reply receipt woken. IsParting event.now pass.old.knows room.old room.new own.old own.new other.old other.new xs reply woken) }
    ensures receipt { OnDone result (λ reply receipt woken. (receipt.sub ≡ event.now.sub) × (receipt.index ≡ length (log_in event.now.sub room.old.recs))) }
    ensures pass { OnDone result (λ reply receipt woken. Knows N.cards N.long_max event.now 0 reply receipt pass.old pass.new) }
    ensures caller { (pass.new.caller ≡ pass.old.caller) × (pass.new.knows.number ≡ pass.old.knows.number) }
    ensures refused { OnFull result (λ sub count. (k : ℕ) × IsRefused k room.old.recs room.new.recs pass.old pass.new sub count) }
    ensures full { (k : ℕ) → IsFull k room.old.recs → OnDone result (λ reply receipt woken. ⊥) × OnMemory result ⊥ }
    ensures unchanged { OnFull result (λ sub count. (room.new.members ≡ room.old.members) × (room.new.book ≡ room.old.book) × (own.new ≡ own.old) × (other.new ≡ other.old)) }
    ensures memory { OnMemory result ((knows_of room.new.recs ≡ knows_of room.old.recs) × (room.new.book ≡ room.old.book) × (pass.new ≡ pass.old)) }
    ensures kept { OnMemory result ((room.new.members ≡ room.old.members) × (own.new.members ≡ own.old.members) × (other.new.members ≡ other.old.members) × (own.new.book ≡ own.old.book) × (other.new.book ≡ other.old.book)) }
    ensures numbers { (room.new.number ≡ room.old.number) × (own.new.number ≡ own.old.number) × (other.new.number ≡ other.old.number) }
{
    let client = unlink_part(event);
    unlink_pair(
        words,
        pass,
        &mut room.inside,
        &mut own.inside,
        &mut other.inside,
        client,
        event.sub,
    )
}
