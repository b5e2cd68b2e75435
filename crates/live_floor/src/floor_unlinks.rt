// Unlinks on a floor (the rest of the type: `floor.rt`). The lock of links orders them among links, and under it the rooms that
// one touches are locked in order of number.
ghost use Rattle.std.specs.Prelude.{◌≡◌, ◌≢◌, ◌<◌, true, false, length, IfSome};
ghost use Rattle.std.specs.Option.{is_none};
ghost use Rattle.std.specs.declared.option.Option.TheVariants.{None as Nowhere};
ghost use Rattle.pcm_base.specs.declared.call.Call.TheVariants.{Unlink};
ghost use Rattle.room_parts.specs.Passes.{IsBy, client_of};
ghost use Rattle.room_lock.specs.Answers.{OnDone, OnFull, OnMemory};
ghost use Rattle.room_lock.specs.Known.{Knows};
ghost use Rattle.live_floor.specs.Turns.{IsRefusedInRoom};
ghost use Rattle.live_floor.specs.Unlinks.{IsUnlinkOfRooms, unlink_from};

use crate::floor::Floor;
use crate::unlinking::{is_home, leave_in, part_in, stay_in, unlink_event};
use pcm_base::{Event, SubId};
use room_lock::Answer;
use room_parts::{FloorName, Pass};
use std::sync::Wait;
use std::sync::ledger::Ledger;

impl<N: FloorName + Ledger> Floor<N> {
    // The one other substream that stands in the room at a place, where two stand there.
    fn partner<R: Wait>(&self, rt: &R, place: u32, sub: SubId) -> Option<SubId>
        requires place { place < 32 }
        ensures other { IfSome result (λ k. (k.0 < 16) × (k.0 ≢ sub.0)) }
    {
        let found = self.rooms[place as usize].lock(rt);
        if found.room.len() != 2 {
            return None;
        }
        for i in 0..16 {
            let other = SubId(i);
            if i != sub.0 && found.room.holds(other) {
                return Some(other);
            }
        }
        None
    }

    // An unlink of a substream that stands in the room at a place alone. None where it is found to stand elsewhere.
    fn unlink_alone<R: Wait>(
        &self,
        rt: &R,
        pass: &mut Pass<N>,
        event: &Event,
        place: u32,
    ) -> Option<Answer>
        requires place { place < 32 }
        requires unlink { event.now.call ≡ Unlink }
        requires client { is_none event.now.client ≡ false }
        requires by { IsBy pass.old.caller event.now }
        ensures sub { IfSome result (λ a. OnDone a (λ reply receipt woken. receipt.sub ≡ event.now.sub)) }
        ensures pass { IfSome result (λ a. OnDone a (λ reply receipt woken. Knows N.cards N.long_max event.now 0 reply receipt pass.old pass.new)) }
        ensures unlink { IfSome result (λ a. OnDone a (λ reply receipt woken. IsUnlinkOfRooms N.cards N.long_max event.now pass.old.knows reply receipt woken)) }
        ensures full { IfSome result (λ a. OnFull a (λ sub count. IsRefusedInRoom N.cards N.long_max event.now pass.old pass.new sub count)) }
        ensures memory { IfSome result (λ a. OnMemory a (pass.new ≡ pass.old)) }
        ensures caller { (pass.new.caller ≡ pass.old.caller) × (pass.new.knows.number ≡ pass.old.knows.number) }
        ensures none { is_none result ≡ true → pass.new ≡ pass.old }
    {
        let mut found = self.rooms[place as usize].lock(rt);
        if 16 <= found.room.number() || !found.room.holds(event.sub) {
            return None;
        }
        Some(stay_in(&self.words, pass, &mut *found, event))
    }

    // An unlink of a substream that stands with two others or more. None where the rooms are found otherwise.
    fn unlink_one<R: Wait>(
        &self,
        rt: &R,
        pass: &mut Pass<N>,
        event: &Event,
        place: u32,
    ) -> Option<Answer>
        requires place { place < 32 }
        requires card { event.now.sub.0 < 16 }
        requires unlink { event.now.call ≡ Unlink }
        requires client { is_none event.now.client ≡ false }
        requires by { IsBy pass.old.caller event.now }
        ensures sub { IfSome result (λ a. OnDone a (λ reply receipt woken. receipt.sub ≡ event.now.sub)) }
        ensures pass { IfSome result (λ a. OnDone a (λ reply receipt woken. Knows N.cards N.long_max event.now 0 reply receipt pass.old pass.new)) }
        ensures unlink { IfSome result (λ a. OnDone a (λ reply receipt woken. IsUnlinkOfRooms N.cards N.long_max event.now pass.old.knows reply receipt woken)) }
        ensures full { IfSome result (λ a. OnFull a (λ sub count. IsRefusedInRoom N.cards N.long_max event.now pass.old pass.new sub count)) }
        ensures memory { IfSome result (λ a. OnMemory a (pass.new ≡ pass.old)) }
        ensures caller { (pass.new.caller ≡ pass.old.caller) × (pass.new.knows.number ≡ pass.old.knows.number) }
        ensures none { is_none result ≡ true → pass.new ≡ pass.old }
    {
        let (mut own, mut found) = self.lock_two(rt, u32::from(event.sub.0), place);
        if !is_home(&own.room, event.sub) || !found.room.holds(event.sub) || found.room.len() < 3 {
            return None;
        }
        Some(leave_in(&self.words, pass, &mut *found, &mut *own, event))
    }

    // An unlink of a substream that stands with one other. None where the rooms are found otherwise.
    fn unlink_pair<R: Wait>(
        &self,
        rt: &R,
        pass: &mut Pass<N>,
        event: &Event,
        place: u32,
        other: SubId,
    ) -> Option<Answer>
        requires place { place < 32 }
        requires card { event.now.sub.0 < 16 }
        requires other { (other.0 < 16) × (other.0 ≢ event.now.sub.0) }
        requires unlink { event.now.call ≡ Unlink }
        requires client { is_none event.now.client ≡ false }
        requires by { IsBy pass.old.caller event.now }
        ensures sub { IfSome result (λ a. OnDone a (λ reply receipt woken. receipt.sub ≡ event.now.sub)) }
        ensures pass { IfSome result (λ a. OnDone a (λ reply receipt woken. Knows N.cards N.long_max event.now 0 reply receipt pass.old pass.new)) }
        ensures unlink { IfSome result (λ a. OnDone a (λ reply receipt woken. IsUnlinkOfRooms N.cards N.long_max event.now pass.old.knows reply receipt woken)) }
        ensures full { IfSome result (λ a. OnFull a (λ sub count. IsRefusedInRoom N.cards N.long_max event.now pass.old pass.new sub count)) }
        ensures memory { IfSome result (λ a. OnMemory a (pass.new ≡ pass.old)) }
        ensures caller { (pass.new.caller ≡ pass.old.caller) × (pass.new.knows.number ≡ pass.old.knows.number) }
        ensures none { is_none result ≡ true → pass.new ≡ pass.old }
    {
        let (mut own, mut home) = self.lock_two(rt, u32::from(event.sub.0), u32::from(other.0));
        let mut found = self.rooms[place as usize].lock(rt);
        let are_homes = is_home(&own.room, event.sub) && is_home(&home.room, other);
        let are_there = found.room.holds(event.sub) && found.room.holds(other);
        if !are_homes || !are_there || found.room.len() != 2 {
            return None;
        }
        Some(part_in(&self.words, pass, &mut *found, &mut *own, &mut *home, event))
    }

    // An unlink of a substream that stands in the room at a place. None where the rooms are found otherwise.
    fn unlink_found<R: Wait>(
        &self,
        rt: &R,
        pass: &mut Pass<N>,
        event: &Event,
        place: u32,
    ) -> Option<Answer>
        requires place { place < 32 }
        requires card { event.now.sub.0 < 16 }
        requires unlink { event.now.call ≡ Unlink }
        requires client { is_none event.now.client ≡ false }
        requires by { IsBy pass.old.caller event.now }
        ensures sub { IfSome result (λ a. OnDone a (λ reply receipt woken. receipt.sub ≡ event.now.sub)) }
        ensures pass { IfSome result (λ a. OnDone a (λ reply receipt woken. Knows N.cards N.long_max event.now 0 reply receipt pass.old pass.new)) }
        ensures unlink { IfSome result (λ a. OnDone a (λ reply receipt woken. IsUnlinkOfRooms N.cards N.long_max event.now pass.old.knows reply receipt woken)) }
        ensures full { IfSome result (λ a. OnFull a (λ sub count. IsRefusedInRoom N.cards N.long_max event.now pass.old pass.new sub count)) }
        ensures memory { IfSome result (λ a. OnMemory a (pass.new ≡ pass.old)) }
        ensures caller { (pass.new.caller ≡ pass.old.caller) × (pass.new.knows.number ≡ pass.old.knows.number) }
        ensures none { is_none result ≡ true → pass.new ≡ pass.old }
    {
        if place < 16 {
            return self.unlink_alone(rt, pass, event, place);
        }
        match self.partner(rt, place, event.sub) {
            Some(other) => self.unlink_pair(rt, pass, event, place, other),
            None => self.unlink_one(rt, pass, event, place),
        }
    }

    /// An unlink of a substream, by a pass of its client. Its entry goes into the log of the substream, where the pass has its
    /// receipt. Where it is answered Ok, the substream moves to its own room, and so does another that would be left alone. It
    /// may wait for other calls. Unlinks are ordered among links. `LogFull` tells the first member in link order whose log has
    /// no room for three entries more, with the count of its entries, and the pass has then read its page. `Memory` comes also
    /// where the caller has made as many calls as it can number. Neither makes the unlink.
    pub fn unlink<R: Wait>(&self, rt: &R, pass: &mut Pass<N>, sub: SubId) -> Answer
        requires card { sub.0 < length N.cards }
        requires client { is_none (client_of pass.old.caller) ≡ false }
        requires idle { pass.old.busy ≡ Nowhere }
        ensures sub { OnDone result (λ reply receipt woken. receipt.sub ≡ sub) }
        ensures pass { OnDone result (λ reply receipt woken. Knows N.cards N.long_max (unlink_from pass.old.caller sub) 0 reply receipt pass.old pass.new) }
        ensures unlink { OnDone result (λ reply receipt woken. IsUnlinkOfRooms N.cards N.long_max (unlink_from pass.old.caller sub) pass.old.knows reply receipt woken) }
        ensures full { OnFull result (λ full count. IsRefusedInRoom N.cards N.long_max (unlink_from pass.old.caller sub) pass.old pass.new full count) }
        ensures memory { OnMemory result (pass.new ≡ pass.old) }
        ensures caller { (pass.new.caller ≡ pass.old.caller) × (pass.new.knows.number ≡ pass.old.knows.number) }
    {
        let event = unlink_event(pass, sub);
        let _order = self.order.lock(rt);
        for _ in rt.forever() {
            let place = pass.place(&self.words, sub);
            if let Some(answer) = self.unlink_found(rt, pass, &event, place) {
                return answer;
            }
        }
        unreachable!()
    }
}
