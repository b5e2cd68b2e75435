// The calls of a pass on one member or on two.
ghost use Rattle.std.specs.Prelude.{◌≡◌, ◌-◌, ◌+◌, ◌<◌, ◌^◌, ◌∷◌, ◌++◌, [], length};
ghost use Rattle.std.specs.declared.option.Option.TheVariants.{None as Nowhere};
ghost use mathlib.Core.List.{IsPrefix};
ghost use Rattle.floor_rule.specs.Causes.{Tells};
ghost use Rattle.floor_rule.specs.Lists.{longest};
ghost use Rattle.floor_rule.specs.Pages.{pack_at};
ghost use Rattle.floor_rule.specs.Steps.{HoldsMore};
ghost use Rattle.floor_rule.specs.declared.entry.EntryMark.TheVariants.{Called};
ghost use Rattle.room_parts.specs.Links.{link_entry, link_event};
ghost use Rattle.room_parts.specs.Passes.{IsAlone, IsBy, busy_after};

use crate::name::FloorName;
use crate::pass::{Pass, busy_on, raise};
use crate::rec::Rec;
use floor_rule::{Entry, Glance, SharedWords, link_call, own_call};
use pcm_base::{Call, ClientId, Event, Reply, State, SubId};

/// The next call of a pass: the member's log gains its entry, and the call has its receipt there. The pass's list of that
/// log is then the whole log, and goes on from the one before. `count` is the count of bytes that the caller handed in, and
/// the state and the hardware position in frames are those after the entry. A link is a call on one member only where it
/// names no other card.
pub fn call_on<N: FloorName>(
    words: &SharedWords,
    rec: &mut Rec<N>,
    pass: &mut Pass<N>,
    event: &Event,
    count: u64,
    entry: Entry,
    state: State,
    hw: u64,
)
    requires table { words.now.table ≡ N.table }
    requires card { rec.old.knows.sub < words.now.cards }
    requires spare { 0 < rec.old.spare }
    requires room { (length rec.old.knows.log < 16777215) × (length pass.old.knows.calls < 2 ^ 64 - 1) }
    requires hw { hw < 2 ^ 36 }
    requires tells { Tells rec.old.knows.sub entry event.now }
    requires by { IsBy pass.old.caller event.now }
    requires sub { event.now.sub.0 ≡ rec.old.knows.sub }
    requires alone { IsAlone (length N.cards) rec.old.knows.sub event.now.call }
    ensures same { (rec.new.knows.sub ≡ rec.old.knows.sub) × (rec.new.knows.place ≡ rec.old.knows.place) × (pass.new.knows.number ≡ pass.old.knows.number) × (pass.new.knows.reads ≡ pass.old.knows.reads) × (pass.new.caller ≡ pass.old.caller) }
    ensures spare { rec.new.spare + 1 ≡ rec.old.spare }
    ensures log { rec.new.knows.log ≡ rec.old.knows.log ++ record { entry = entry; mark = Called state hw pass.old.knows.number (length pass.old.knows.calls) count } ∷ [] }
    ensures calls { pass.new.knows.calls ≡ pass.old.knows.calls ++ record { event = event.now; count = count } ∷ [] }
    ensures receipt { pass.new.knows.receipts ≡ pass.old.knows.receipts ++ (rec.old.knows.sub, length rec.old.knows.log) ∷ [] }
    ensures busy { pass.new.busy ≡ busy_after entry }
    ensures list { longest rec.old.knows.sub pass.new.knows.held.logs ≡ rec.new.knows.log }
    ensures onward { IsPrefix (longest rec.old.knows.sub pass.old.knows.held.logs) (longest rec.old.knows.sub pass.new.knows.held.logs) }
    ensures held { HoldsMore rec.old.knows.held rec.new.knows.held × HoldsMore pass.old.knows.held pass.new.knows.held }
{
    own_call(
        words,
        &mut rec.seat,
        &mut pass.seat,
        event,
        count,
        &entry,
        state,
        hw,
    );
    pass.busy = busy_on(&entry);
    raise(&mut pass.seen, rec.seat.sub(), rec.seat.count());
    rec.entries.push_reserved(entry);
}

/// A link of two cards, as its entries tell it: its client, the two, their states, whether the second is linked, and the
/// reply.
#[derive(Clone, Copy, Debug, PartialEq, Eq)]
pub struct Linked {
    pub client: ClientId,
    pub first: SubId,
    pub second: SubId,
    pub first_state: State,
    pub second_state: State,
    pub second_linked: bool,
    pub reply: Reply,
}

impl Linked {
    /// The event of the link.
    pub fn event(&self) -> Event
        ensures { result ≡ link_event self.now }
    {
        Event {
            client: Some(self.client),
            sub: self.first,
            call: Call::Link(self.second),
        }
    }

    /// Its entry, the same in both logs.
    pub fn entry(&self) -> Entry
        ensures { result ≡ link_entry self.now }
    {
        Entry::Linkage {
            client: self.client,
            first: self.first,
            second: self.second,
            first_state: self.first_state,
            second_state: self.second_state,
            second_linked: self.second_linked,
            reply: self.reply,
        }
    }
}

/// The next call of a pass, a link of two cards: both logs gain its entry, and the call has its receipt in the first. The
/// pass's lists of both logs are then the whole logs, and go on from those before. A link changes no state: each mark has
/// that of the entry, and the hardware position in frames given.
pub fn link_on<N: FloorName>(
    words: &SharedWords,
    first: &mut Rec<N>,
    second: &mut Rec<N>,
    pass: &mut Pass<N>,
    link: &Linked,
    first_hw: u64,
    second_hw: u64,
)
    requires table { words.now.table ≡ N.table }
    requires card { first.old.knows.sub < words.now.cards }
    requires spare { (0 < first.old.spare) × (0 < second.old.spare) }
    requires room { (length first.old.knows.log < 16777215) × (length second.old.knows.log < 16777215) × (length pass.old.knows.calls < 2 ^ 64 - 1) }
    requires hw { (first_hw < 2 ^ 36) × (second_hw < 2 ^ 36) }
    requires names { (link.now.first.0 ≡ first.old.knows.sub) × (link.now.second.0 ≡ second.old.knows.sub) }
    requires by { IsBy pass.old.caller (link_event link.now) }
    ensures same { (first.new.knows.sub ≡ first.old.knows.sub) × (second.new.knows.sub ≡ second.old.knows.sub) × (first.new.knows.place ≡ first.old.knows.place) × (second.new.knows.place ≡ second.old.knows.place) }
    ensures same_pass { (pass.new.knows.number ≡ pass.old.knows.number) × (pass.new.knows.reads ≡ pass.old.knows.reads) × (pass.new.caller ≡ pass.old.caller) }
    ensures spare { (first.new.spare + 1 ≡ first.old.spare) × (second.new.spare + 1 ≡ second.old.spare) }
    ensures first { first.new.knows.log ≡ first.old.knows.log ++ record { entry = link_entry link.now; mark = Called link.now.first_state first_hw pass.old.knows.number (length pass.old.knows.calls) 0 } ∷ [] }
    ensures second { second.new.knows.log ≡ second.old.knows.log ++ record { entry = link_entry link.now; mark = Called link.now.second_state second_hw pass.old.knows.number (length pass.old.knows.calls) 0 } ∷ [] }
    ensures calls { pass.new.knows.calls ≡ pass.old.knows.calls ++ record { event = link_event link.now; count = 0 } ∷ [] }
    ensures receipt { pass.new.knows.receipts ≡ pass.old.knows.receipts ++ (first.old.knows.sub, length first.old.knows.log) ∷ [] }
    ensures busy { pass.new.busy ≡ Nowhere }
    ensures first_list { longest first.old.knows.sub pass.new.knows.held.logs ≡ first.new.knows.log }
    ensures second_list { longest second.old.knows.sub pass.new.knows.held.logs ≡ second.new.knows.log }
    ensures first_onward { IsPrefix (longest first.old.knows.sub pass.old.knows.held.logs) (longest first.old.knows.sub pass.new.knows.held.logs) }
    ensures second_onward { IsPrefix (longest second.old.knows.sub pass.old.knows.held.logs) (longest second.old.knows.sub pass.new.knows.held.logs) }
    ensures pass_held { HoldsMore pass.old.knows.held pass.new.knows.held }
{
    let event = link.event();
    let entry = link.entry();
    link_call(
        words,
        &mut first.seat,
        &mut second.seat,
        &mut pass.seat,
        &event,
        &entry,
        (link.first_state, first_hw),
        (link.second_state, second_hw),
    );
    pass.busy = None;
    raise(&mut pass.seen, first.seat.sub(), first.seat.count());
    first.entries.push_reserved(entry);
    second.entries.push_reserved(link.entry());
}

/// The pass reads the page of a member whose log takes no more, with the log beside: it is the page of the whole log.
pub fn full_page<N: FloorName>(words: &SharedWords, rec: &mut Rec<N>, pass: &mut Pass<N>) -> Glance
    requires table { words.now.table ≡ N.table }
    requires card { rec.old.knows.sub < words.now.cards }
    ensures count { result.count ≡ length rec.old.knows.log }
    ensures read { pass.new.knows.reads ≡ pass.old.knows.reads ++ record { sub = rec.old.knows.sub; count = length rec.old.knows.log; word = pack_at rec.old.knows.log (length rec.old.knows.log) } ∷ [] }
    ensures log { (rec.new.knows.log ≡ rec.old.knows.log) × (rec.new.knows.sub ≡ rec.old.knows.sub) × (rec.new.knows.place ≡ rec.old.knows.place) × (rec.new.spare ≡ rec.old.spare) }
    ensures calls { (pass.new.knows.number ≡ pass.old.knows.number) × (pass.new.knows.calls ≡ pass.old.knows.calls) × (pass.new.knows.receipts ≡ pass.old.knows.receipts) × (pass.new.caller ≡ pass.old.caller) × (pass.new.busy ≡ pass.old.busy) }
    ensures held { HoldsMore rec.old.knows.held rec.new.knows.held × HoldsMore pass.old.knows.held pass.new.knows.held }
{
    let news = rec.tell(words);
    pass.hear(words, news);
    let page = pass.page(words, rec.sub());
    let copy = pass.tell(words);
    rec.hear(words, copy);
    rec.confirm(words);
    page
}
