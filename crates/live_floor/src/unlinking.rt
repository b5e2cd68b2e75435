// Unlinks in the rooms of their substreams, with the rooms that they find.
ghost use Rattle.std.specs.Prelude.{◌≡◌, ◌≢◌, ◌≤◌, ◌<◌, [], true, false, length};
ghost use Rattle.std.specs.Option.{is_none};
ghost use Rattle.pcm_base.specs.declared.call.Call.TheVariants.{Unlink};
ghost use Rattle.pcm_base.specs.model.Replay.{is_member};
ghost use Rattle.pcm_stream.specs.Members.{numbers_of};
ghost use Rattle.room_parts.specs.Passes.{IsBy, client_of};
ghost use Rattle.room_lock.specs.Answers.{OnDone, OnFull, OnMemory};
ghost use Rattle.room_lock.specs.Known.{Knows};
ghost use Rattle.room_lock.specs.Parting.{at_home};
ghost use Rattle.live_floor.specs.Turns.{IsRefusedInRoom};
ghost use Rattle.live_floor.specs.Unlinks.{IsUnlinkOfRooms, unlink_from};

use crate::counted::{CountedRoom, move_gained, move_lost};
use floor_rule::SharedWords;
use pcm_base::{Call, Event, SubId};
use room_lock::{Answer, Room, unlink_alone, unlink_from_group, unlink_rooms};
use room_parts::{FloorName, Pass};
use std::sync::ledger::Ledger;

/// The event of an unlink by the client of a pass.
pub(crate) fn unlink_event<N: FloorName>(pass: &Pass<N>, sub: SubId) -> Event
    requires client { is_none (client_of pass.now.caller) ≡ false }
    ensures event { result ≡ unlink_from pass.now.caller sub }
    ensures by { IsBy pass.now.caller result }
{
    Event {
        client: pass.client(),
        sub,
        call: Call::Unlink,
    }
}

/// Whether a room is that in which a substream stands while it is not linked, and nobody stands in it.
pub(crate) fn is_home<N: FloorName>(room: &Room<N>, sub: SubId) -> bool
    ensures { result ≡ true → (room.now.number ≡ sub.0) × (room.now.members ≡ []) }
{
    room.number() == u32::from(sub.0) && room.is_empty()
}

/// An unlink of one that stands alone, as `unlink_alone` says.
pub(crate) fn stay_in<N: FloorName + Ledger>(
    words: &SharedWords,
    pass: &mut Pass<N>,
    found: &mut CountedRoom<N>,
    event: &Event,
) -> Answer
    requires words { (words.now.table ≡ N.table) × (words.now.cards ≡ length N.cards) }
    requires unlink { event.now.call ≡ Unlink }
    requires client { is_none event.now.client ≡ false }
    requires here { (found.old.room.number < 16) × (is_member event.now.sub (numbers_of found.old.room.members) ≡ true) }
    requires by { IsBy pass.old.caller event.now }
    ensures sub { OnDone result (λ reply receipt woken. receipt.sub ≡ event.now.sub) }
    ensures pass { OnDone result (λ reply receipt woken. Knows N.cards N.long_max event.now 0 reply receipt pass.old pass.new) }
    ensures unlink { OnDone result (λ reply receipt woken. IsUnlinkOfRooms N.cards N.long_max event.now pass.old.knows reply receipt woken) }
    ensures full { OnFull result (λ sub count. IsRefusedInRoom N.cards N.long_max event.now pass.old pass.new sub count) }
    ensures memory { OnMemory result (pass.new ≡ pass.old) }
    ensures caller { (pass.new.caller ≡ pass.old.caller) × (pass.new.knows.number ≡ pass.old.knows.number) }
{
    let _number = found.room.number();
    unlink_alone(words, pass, &mut found.room, event)
}

/// An unlink of one that stands with two others or more, as `unlink_from_group` says.
pub(crate) fn leave_in<N: FloorName + Ledger>(
    words: &SharedWords,
    pass: &mut Pass<N>,
    found: &mut CountedRoom<N>,
    own: &mut CountedRoom<N>,
    event: &Event,
) -> Answer
    requires words { (words.now.table ≡ N.table) × (words.now.cards ≡ length N.cards) }
    requires unlink { event.now.call ≡ Unlink }
    requires client { is_none event.now.client ≡ false }
    requires here { is_member event.now.sub (numbers_of found.old.room.members) ≡ true }
    requires three { 3 ≤ length found.old.room.members }
    requires own { (own.old.room.number ≡ event.now.sub.0) × (own.old.room.number < 16) × (own.old.room.members ≡ []) }
    requires by { IsBy pass.old.caller event.now }
    ensures sub { OnDone result (λ reply receipt woken. receipt.sub ≡ event.now.sub) }
    ensures pass { OnDone result (λ reply receipt woken. Knows N.cards N.long_max event.now 0 reply receipt pass.old pass.new) }
    ensures unlink { OnDone result (λ reply receipt woken. IsUnlinkOfRooms N.cards N.long_max event.now pass.old.knows reply receipt woken) }
    ensures full { OnFull result (λ sub count. IsRefusedInRoom N.cards N.long_max event.now pass.old pass.new sub count) }
    ensures memory { OnMemory result (pass.new ≡ pass.old) }
    ensures caller { (pass.new.caller ≡ pass.old.caller) × (pass.new.knows.number ≡ pass.old.knows.number) }
{
    let _number = found.room.number();
    let had = found.room.len();
    let answer = unlink_from_group(words, pass, &mut found.room, &mut own.room, event);
    move_lost(&found.room, had, &mut found.share, &mut own.share);
    answer
}

/// An unlink of one that stands with one other, as `unlink_rooms` says.
pub(crate) fn part_in<N: FloorName + Ledger>(
    words: &SharedWords,
    pass: &mut Pass<N>,
    found: &mut CountedRoom<N>,
    own: &mut CountedRoom<N>,
    other: &mut CountedRoom<N>,
    event: &Event,
) -> Answer
    requires words { (words.now.table ≡ N.table) × (words.now.cards ≡ length N.cards) }
    requires unlink { event.now.call ≡ Unlink }
    requires client { is_none event.now.client ≡ false }
    requires here { (is_member event.now.sub (numbers_of found.old.room.members) ≡ true) × (length found.old.room.members ≡ 2) }
    requires own { (own.old.room.number ≡ event.now.sub.0) × (own.old.room.number < 16) × (own.old.room.members ≡ []) }
    requires other { (is_member (at_home other.old.room) (numbers_of found.old.room.members) ≡ true) × (other.old.room.number < 16) × (other.old.room.number ≢ event.now.sub.0) × (other.old.room.members ≡ []) }
    requires by { IsBy pass.old.caller event.now }
    ensures sub { OnDone result (λ reply receipt woken. receipt.sub ≡ event.now.sub) }
    ensures pass { OnDone result (λ reply receipt woken. Knows N.cards N.long_max event.now 0 reply receipt pass.old pass.new) }
    ensures unlink { OnDone result (λ reply receipt woken. IsUnlinkOfRooms N.cards N.long_max event.now pass.old.knows reply receipt woken) }
    ensures full { OnFull result (λ sub count. IsRefusedInRoom N.cards N.long_max event.now pass.old pass.new sub count) }
    ensures memory { OnMemory result (pass.new ≡ pass.old) }
    ensures caller { (pass.new.caller ≡ pass.old.caller) × (pass.new.knows.number ≡ pass.old.knows.number) }
{
    let _number = found.room.number();
    let answer = unlink_rooms(
        words,
        pass,
        &mut found.room,
        &mut own.room,
        &mut other.room,
        event,
    );
    move_gained(&own.room, &mut own.share, &mut found.share);
    move_gained(&other.room, &mut other.share, &mut found.share);
    answer
}
