// Links on a floor (the rest of the type: `floor.rt`). The lock of links orders them, and under it the rooms that one touches
// are locked in order of number.
ghost use Rattle.std.specs.Prelude.{◌≡◌, ◌≢◌, ◌<◌, true, false, length, IfSome};
ghost use Rattle.std.specs.Option.{is_none};
ghost use Rattle.std.specs.declared.option.Option.TheVariants.{None as Nowhere};
ghost use Rattle.pcm_base.specs.declared.call.Call.TheVariants.{Link};
ghost use Rattle.room_parts.specs.Passes.{IsBy, client_of};
ghost use Rattle.room_lock.specs.Answers.{OnDone, OnFull, OnMemory};
ghost use Rattle.room_lock.specs.Known.{Knows};
ghost use Rattle.live_floor.specs.Links.{IsLinkFull, IsLinkOfRooms, link_from};

use crate::floor::Floor;
use crate::linking::{join_in, link_event, meet_in, refuse_both_in, refuse_in};
use pcm_base::{Event, SubId};
use room_lock::Answer;
use room_parts::{FloorName, Pass};
use std::sync::Wait;
use std::sync::ledger::Ledger;

impl<N: FloorName + Ledger> Floor<N> {
    // A link of substreams that stand together in the room at a place. None where one is found to stand elsewhere.
    fn link_inside<R: Wait>(
        &self,
        rt: &R,
        pass: &mut Pass<N>,
        event: &Event,
        second: SubId,
        place: u32,
    ) -> Option<Answer>
        requires place { place < 32 }
        requires link { event.now.call ≡ Link second }
        requires apart { event.now.sub.0 ≢ second.0 }
        requires client { is_none event.now.client ≡ false }
        requires by { IsBy pass.old.caller event.now }
        ensures sub { IfSome result (λ a. OnDone a (λ reply receipt woken. receipt.sub ≡ event.now.sub)) }
        ensures pass { IfSome result (λ a. OnDone a (λ reply receipt woken. Knows N.cards N.long_max event.now 0 reply receipt pass.old pass.new)) }
        ensures link { IfSome result (λ a. OnDone a (λ reply receipt woken. IsLinkOfRooms N.cards N.long_max event.now pass.old.knows reply receipt woken)) }
        ensures full { IfSome result (λ a. OnFull a (λ sub count. IsLinkFull N.cards N.long_max event.now pass.old pass.new sub count)) }
        ensures memory { IfSome result (λ a. OnMemory a (pass.new ≡ pass.old)) }
        ensures caller { (pass.new.caller ≡ pass.old.caller) × (pass.new.knows.number ≡ pass.old.knows.number) }
        ensures none { is_none result ≡ true → pass.new ≡ pass.old }
    {
        let mut found = self.rooms[place as usize].lock(rt);
        let here = found.room.holds(event.sub);
        let there = found.room.holds(second);
        if !here || !there {
            return None;
        }
        Some(refuse_both_in(&self.words, pass, &mut *found, event))
    }

    // A link of substreams that stand in the rooms at two places. None where they are found to stand elsewhere, or no room is
    // found empty that has to be.
    fn link_apart<R: Wait>(
        &self,
        rt: &R,
        pass: &mut Pass<N>,
        event: &Event,
        second: SubId,
        places: (u32, u32),
    ) -> Option<Answer>
        requires places { (places.0 < 32) × (places.1 < 32) }
        requires link { event.now.call ≡ Link second }
        requires client { is_none event.now.client ≡ false }
        requires by { IsBy pass.old.caller event.now }
        ensures sub { IfSome result (λ a. OnDone a (λ reply receipt woken. receipt.sub ≡ event.now.sub)) }
        ensures pass { IfSome result (λ a. OnDone a (λ reply receipt woken. Knows N.cards N.long_max event.now 0 reply receipt pass.old pass.new)) }
        ensures link { IfSome result (λ a. OnDone a (λ reply receipt woken. IsLinkOfRooms N.cards N.long_max event.now pass.old.knows reply receipt woken)) }
        ensures full { IfSome result (λ a. OnFull a (λ sub count. IsLinkFull N.cards N.long_max event.now pass.old pass.new sub count)) }
        ensures memory { IfSome result (λ a. OnMemory a (pass.new ≡ pass.old)) }
        ensures caller { (pass.new.caller ≡ pass.old.caller) × (pass.new.knows.number ≡ pass.old.knows.number) }
        ensures none { is_none result ≡ true → pass.new ≡ pass.old }
    {
        let (mut one, mut two) = self.lock_two(rt, places.0, places.1);
        let here = one.room.holds(event.sub);
        let apart = !one.room.holds(second);
        let there = two.room.holds(second);
        let (low, high) = (one.room.number(), two.room.number());
        if !here || !apart || !there || 32 <= low {
            return None;
        }
        if 16 <= low || 16 <= high {
            return Some(join_in(&self.words, pass, &mut *one, &mut *two, event));
        }
        if low == high {
            return None;
        }
        let mut group = self.lock_empty(rt)?;
        Some(meet_in(&self.words, pass, &mut *one, &mut *two, &mut *group, event))
    }

    /// A link of a substream to the group of another, by a pass of its client. The link's entry goes into both logs, or
    /// into one where they are the same or the second is no card of the floor, and the pass has its receipt in that of the
    /// first. Where it is answered Ok, the second moves into the room of the first's group, and so does a first that stood
    /// alone. It may wait for other calls. Links are ordered among themselves. `LogFull` tells the first member in link order
    /// whose log has no room for three entries more, those of the first substream's room before those of the second's, with
    /// the count of its entries, and the pass has then read its page. `Memory` comes also where the caller has made as many
    /// calls as it can number. Neither makes the link.
    pub fn link<R: Wait>(&self, rt: &R, pass: &mut Pass<N>, first: SubId, second: SubId) -> Answer
        requires card { first.0 < length N.cards }
        requires client { is_none (client_of pass.old.caller) ≡ false }
        requires idle { pass.old.busy ≡ Nowhere }
        ensures sub { OnDone result (λ reply receipt woken. receipt.sub ≡ first) }
        ensures pass { OnDone result (λ reply receipt woken. Knows N.cards N.long_max (link_from pass.old.caller first second) 0 reply receipt pass.old pass.new) }
        ensures link { OnDone result (λ reply receipt woken. IsLinkOfRooms N.cards N.long_max (link_from pass.old.caller first second) pass.old.knows reply receipt woken) }
        ensures full { OnFull result (λ sub count. IsLinkFull N.cards N.long_max (link_from pass.old.caller first second) pass.old pass.new sub count) }
        ensures memory { OnMemory result (pass.new ≡ pass.old) }
        ensures caller { (pass.new.caller ≡ pass.old.caller) × (pass.new.knows.number ≡ pass.old.knows.number) }
    {
        let event = link_event(pass, first, second);
        let _order = self.order.lock(rt);
        if first.0 == second.0 || self.cards <= usize::from(second.0) {
            let mut found = self.lock(rt, pass, first);
            return refuse_in(&self.words, pass, &mut *found, &event);
        }
        for _ in rt.forever() {
            let one = pass.place(&self.words, first);
            let two = pass.place(&self.words, second);
            let answer = if one == two {
                self.link_inside(rt, pass, &event, second, one)
            } else {
                self.link_apart(rt, pass, &event, second, (one, two))
            };
            if let Some(answer) = answer {
                return answer;
            }
        }
        unreachable!()
    }
}
