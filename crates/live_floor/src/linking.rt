// Links in the rooms of their substreams, with the rooms that they find.
ghost use Rattle.std.specs.Prelude.{◌≡◌, ◌≢◌, ◌⊎◌, ◌≤◌, ◌<◌, [], true, false, length};
ghost use Rattle.std.specs.Option.{is_none};
ghost use Rattle.pcm_base.specs.model.Replay.{is_link, is_member};
ghost use Rattle.pcm_stream.specs.Members.{numbers_of};
ghost use Rattle.room_parts.specs.Passes.{IsBy, client_of};
ghost use Rattle.room_lock.specs.Answers.{OnDone, OnFull, OnMemory};
ghost use Rattle.room_lock.specs.Known.{Knows};
ghost use Rattle.room_lock.specs.Linked.{linked_to};
ghost use Rattle.live_floor.specs.Links.{IsLinkFull, IsLinkOfRooms, link_from};

use crate::counted::{CountedRoom, move_lost};
use floor_rule::SharedWords;
use pcm_base::{Call, Event, SubId};
use room_lock::{Answer, link_rooms, link_to_group, link_to_itself, link_within};
use room_parts::{FloorName, Pass};
use std::sync::ledger::Ledger;

/// The event of a link by the client of a pass.
pub(crate) fn link_event<N: FloorName>(pass: &Pass<N>, first: SubId, second: SubId) -> Event
    requires client { is_none (client_of pass.now.caller) ≡ false }
    ensures event { result ≡ link_from pass.now.caller first second }
    ensures by { IsBy pass.now.caller result }
{
    Event {
        client: pass.client(),
        sub: first,
        call: Call::Link(second),
    }
}

/// A link of two that stand alone, as `link_rooms` says.
pub(crate) fn meet_in<N: FloorName + Ledger>(
    words: &SharedWords,
    pass: &mut Pass<N>,
    first: &mut CountedRoom<N>,
    second: &mut CountedRoom<N>,
    group: &mut CountedRoom<N>,
    event: &Event,
) -> Answer
    requires words { (words.now.table ≡ N.table) × (words.now.cards ≡ length N.cards) }
    requires link { is_link event.now.call ≡ true }
    requires client { is_none event.now.client ≡ false }
    requires first { (first.old.room.number < 16) × (is_member event.now.sub (numbers_of first.old.room.members) ≡ true) }
    requires second { (second.old.room.number < 16) × (is_member (linked_to event.now.call) (numbers_of second.old.room.members) ≡ true) }
    requires apart { first.old.room.number ≢ second.old.room.number }
    requires group { (group.old.room.members ≡ []) × (16 ≤ group.old.room.number) × (group.old.room.number < 32) }
    requires by { IsBy pass.old.caller event.now }
    ensures sub { OnDone result (λ reply receipt woken. receipt.sub ≡ event.now.sub) }
    ensures pass { OnDone result (λ reply receipt woken. Knows N.cards N.long_max event.now 0 reply receipt pass.old pass.new) }
    ensures link { OnDone result (λ reply receipt woken. IsLinkOfRooms N.cards N.long_max event.now pass.old.knows reply receipt woken) }
    ensures full { OnFull result (λ sub count. IsLinkFull N.cards N.long_max event.now pass.old pass.new sub count) }
    ensures memory { OnMemory result (pass.new ≡ pass.old) }
    ensures caller { (pass.new.caller ≡ pass.old.caller) × (pass.new.knows.number ≡ pass.old.knows.number) }
{
    let _first = first.room.number();
    let _second = second.room.number();
    let had = first.room.len();
    let second_had = second.room.len();
    let answer = link_rooms(
        words,
        pass,
        &mut first.room,
        &mut second.room,
        &mut group.room,
        event,
    );
    move_lost(&first.room, had, &mut first.share, &mut group.share);
    move_lost(
        &second.room,
        second_had,
        &mut second.share,
        &mut group.share,
    );
    answer
}

/// A link of two of which one has a group, as `link_to_group` says.
pub(crate) fn join_in<N: FloorName + Ledger>(
    words: &SharedWords,
    pass: &mut Pass<N>,
    first: &mut CountedRoom<N>,
    second: &mut CountedRoom<N>,
    event: &Event,
) -> Answer
    requires words { (words.now.table ≡ N.table) × (words.now.cards ≡ length N.cards) }
    requires cards { length N.cards ≤ 16 }
    requires link { is_link event.now.call ≡ true }
    requires client { is_none event.now.client ≡ false }
    requires first { (first.old.room.number < 32) × (is_member event.now.sub (numbers_of first.old.room.members) ≡ true) }
    requires second { is_member (linked_to event.now.call) (numbers_of second.old.room.members) ≡ true }
    requires apart { is_member (linked_to event.now.call) (numbers_of first.old.room.members) ≡ false }
    requires group { (16 ≤ first.old.room.number) ⊎ (16 ≤ second.old.room.number) }
    requires by { IsBy pass.old.caller event.now }
    ensures sub { OnDone result (λ reply receipt woken. receipt.sub ≡ event.now.sub) }
    ensures pass { OnDone result (λ reply receipt woken. Knows N.cards N.long_max event.now 0 reply receipt pass.old pass.new) }
    ensures link { OnDone result (λ reply receipt woken. IsLinkOfRooms N.cards N.long_max event.now pass.old.knows reply receipt woken) }
    ensures full { OnFull result (λ sub count. IsLinkFull N.cards N.long_max event.now pass.old pass.new sub count) }
    ensures memory { OnMemory result (pass.new ≡ pass.old) }
    ensures caller { (pass.new.caller ≡ pass.old.caller) × (pass.new.knows.number ≡ pass.old.knows.number) }
{
    let _first = first.room.number();
    let _second = second.room.number();
    let had = second.room.len();
    let answer = link_to_group(words, pass, &mut first.room, &mut second.room, event);
    move_lost(&second.room, had, &mut second.share, &mut first.share);
    answer
}

/// A link of two that stand in one room, as `link_within` says.
pub(crate) fn refuse_both_in<N: FloorName + Ledger>(
    words: &SharedWords,
    pass: &mut Pass<N>,
    found: &mut CountedRoom<N>,
    event: &Event,
) -> Answer
    requires words { (words.now.table ≡ N.table) × (words.now.cards ≡ length N.cards) }
    requires link { is_link event.now.call ≡ true }
    requires client { is_none event.now.client ≡ false }
    requires here { is_member event.now.sub (numbers_of found.old.room.members) ≡ true }
    requires second { is_member (linked_to event.now.call) (numbers_of found.old.room.members) ≡ true }
    requires apart { event.now.sub.0 ≢ (linked_to event.now.call).0 }
    requires by { IsBy pass.old.caller event.now }
    ensures sub { OnDone result (λ reply receipt woken. receipt.sub ≡ event.now.sub) }
    ensures pass { OnDone result (λ reply receipt woken. Knows N.cards N.long_max event.now 0 reply receipt pass.old pass.new) }
    ensures link { OnDone result (λ reply receipt woken. IsLinkOfRooms N.cards N.long_max event.now pass.old.knows reply receipt woken) }
    ensures full { OnFull result (λ sub count. IsLinkFull N.cards N.long_max event.now pass.old pass.new sub count) }
    ensures memory { OnMemory result (pass.new ≡ pass.old) }
    ensures caller { (pass.new.caller ≡ pass.old.caller) × (pass.new.knows.number ≡ pass.old.knows.number) }
{
    let _number = found.room.number();
    link_within(words, pass, &mut found.room, event)
}

/// A link to itself, or to no card, as `link_to_itself` says.
pub(crate) fn refuse_in<N: FloorName + Ledger>(
    words: &SharedWords,
    pass: &mut Pass<N>,
    found: &mut CountedRoom<N>,
    event: &Event,
) -> Answer
    requires words { (words.now.table ≡ N.table) × (words.now.cards ≡ length N.cards) }
    requires link { is_link event.now.call ≡ true }
    requires client { is_none event.now.client ≡ false }
    requires here { is_member event.now.sub (numbers_of found.old.room.members) ≡ true }
    requires alone { ((linked_to event.now.call).0 ≡ event.now.sub.0) ⊎ (length N.cards ≤ (linked_to event.now.call).0) }
    requires by { IsBy pass.old.caller event.now }
    ensures sub { OnDone result (λ reply receipt woken. receipt.sub ≡ event.now.sub) }
    ensures pass { OnDone result (λ reply receipt woken. Knows N.cards N.long_max event.now 0 reply receipt pass.old pass.new) }
    ensures link { OnDone result (λ reply receipt woken. IsLinkOfRooms N.cards N.long_max event.now pass.old.knows reply receipt woken) }
    ensures full { OnFull result (λ sub count. IsLinkFull N.cards N.long_max event.now pass.old pass.new sub count) }
    ensures memory { OnMemory result (pass.new ≡ pass.old) }
    ensures caller { (pass.new.caller ≡ pass.old.caller) × (pass.new.knows.number ≡ pass.old.knows.number) }
{
    let _number = found.room.number();
    link_to_itself(words, pass, &mut found.room, event)
}
