// What stands in a room, and one event of a member. Members that go out and come in: `moving.rt`.
ghost use Rattle.std.specs.Prelude.{◌≡◌, ◌≢◌, ◌<◌, ◌≤◌, ◌+◌, ◌-◌, ◌^◌, [], ℕ, List, true, false, length, slice_get, take, vec_len, vec_capacity, IfSome, Some};
ghost use Rattle.pcm_base.specs.Shape.{IsSoundShape};
ghost use Rattle.pcm_base.specs.model.Replay.{is_member};
ghost use Rattle.pcm_base.specs.model.Stream.{Member as ModelMember};
ghost use Rattle.pcm_group.specs.Inside.{members_in};
ghost use Rattle.pcm_group.specs.Stepped.{IsTurn};
ghost use Rattle.pcm_group.specs.Turn.{is_card_event, is_group_call};
ghost use Rattle.pcm_stream.specs.Members.{all_differ, members_of, numbers_of};
ghost use Rattle.pcm_stream.specs.MembersStand.{AllStandFor};
ghost use Rattle.room_book.specs.Laws.{step_of};
ghost use Rattle.room_book.specs.Rooms.{fresh_streams};
ghost use Rattle.room_parts.specs.Passes.{IsBy};
ghost use Rattle.pcm_base.specs.declared.reply.Reply.TheVariants.{Memory as MemoryReply};
ghost use Rattle.pcm_group.specs.Waiting.{IsFreeFor};
ghost use Rattle.std.specs.Option.{ForSome, is_none};
ghost use Rattle.room_lock.specs.Answers.{OnDone, OnFull, OnMemory, turn_of};
ghost use Rattle.room_lock.specs.Inside.{view_of};
ghost use Rattle.room_lock.specs.InRoom.{FitsIn, InRoom};
ghost use Rattle.room_lock.specs.Joined.{HoldsAt};
ghost use Rattle.room_lock.specs.Plans.{IsPlan};
ghost use Rattle.room_lock.specs.Ready.{IsFull, ShortTo, knows_of};
ghost use Rattle.room_lock.specs.Refused.{IsRefused};
ghost use Rattle.room_lock.specs.Recorded.{AllHaveRoom};
ghost use Rattle.room_parts.specs.Recs.{sub_of, subs_of};
ghost use Rattle.room_lock.specs.Stepped.{IsMade, IsStepped};
ghost use Rattle.room_lock.specs.Turned.{HasTurned, IsTurned};

use crate::answer::Answer;
use crate::free::is_free;
use crate::laws::records;
use crate::members::{layout_at, lent_at, most_at, shape_at, taken_at};
use crate::moved::{push_moved, since};
use crate::ready::{full, reserve_all};
use crate::recording::{Receipt, record_turn};
use crate::refusing::refuse;
use crate::stepping::step;
use card_emul::AnyCard;
use floor_rule::SharedWords;
use pcm_base::{Bytes, Event, Layout, Reply, Shape, SubId};
use pcm_group::{Group, Turn};
use pcm_laws::step::{marks, steps};
use pcm_laws::waiting::steps as leave_waiting;
use pcm_stream::Members;
use room_book::BookEntry;
use room_parts::{FloorName, Pass, Rec};
use std::alloc::Global;

/// The group of a room, a rec for each of its members in link order, the room's book and the count of its acts.
#[derive(Drop)]
pub(crate) struct Contents<N: FloorName> {
    pub(crate) alloc: Global,
    pub(crate) number: u32,
    pub(crate) group: Group<AnyCard>,
    pub(crate) recs: Vec<Rec<N>>,
    pub(crate) book: Vec<BookEntry>,
    pub(crate) serial: u64,
}

/// What is looked at and taken before a step: how many of the call's bytes it is lent, how they lie, the shape of its
/// substream, how many bytes the card has taken, and room for those that the step moves.
#[derive(Drop)]
pub(crate) struct Plan {
    lent: usize,
    layout: Layout,
    shape: Option<Shape>,
    taken: usize,
    bytes: Vec<u8>,
}

/// The place of the rec of a substream, which has one.
pub(crate) fn place_of<N: FloorName>(recs: &Vec<Rec<N>>, sub: SubId) -> usize
    requires { is_member sub (subs_of recs.now.items) ≡ true }
    ensures below { result < length recs.now.items }
    ensures number { HoldsAt (λ r. sub_of r ≡ sub) result recs.now.items }
{
    let mut i = 0;
    'places: while i + 1 < recs.len() {
        if recs[i].sub().0 == sub.0 {
            return i;
        }
        i += 1;
    }
    i
}

// Looks at the member at a place before its event, which is handed so many bytes, and takes room for those that it moves.
fn look_ahead(
    alloc: Global,
    members: &Members<AnyCard>,
    own: usize,
    event: &Event,
    count: usize,
) -> Option<Plan>
    requires apart { all_differ (numbers_of (members_of members.now)) ≡ true }
    requires place { own < length (members_of members.now) }
    ensures plan { (xs : List ModelMember) → slice_get (numbers_of (members_of members.now)) own ≡ Some event.now.sub → AllStandFor (members_of members.now) xs → IfSome result (IsPlan event.now count xs) }
    ensures within { IfSome result (λ p. (p.lent ≤ count) × (p.lent ≤ vec_capacity p.bytes)) }
    ensures sound { IfSome result (λ p. IfSome p.shape IsSoundShape) }
    ensures empty { IfSome result (λ p. p.bytes.items ≡ []) }
{
    let lent = lent_at(members, own, event, count)?;
    let Ok(bytes) = Vec::with_capacity(alloc, most_at(members, own, event, lent)) else {
        return None;
    };
    Some(Plan {
        lent,
        layout: layout_at(members, own, event),
        shape: shape_at(members, own),
        taken: taken_at(members, own).len(),
        bytes,
    })
}

fn is_memory(reply: Reply) -> bool
    ensures yes { result ≡ true → reply ≡ MemoryReply }
    ensures no { result ≡ false → reply ≢ MemoryReply }
{
    matches!(reply, Reply::Memory)
}

impl<N: FloorName> Contents<N> {
    // The group has made an event of the member at a place, whose call was handed `count` bytes and has moved these: what it
    // leaves in the logs, the book and the caller's pass.
    fn record(
        &mut self,
        words: &SharedWords,
        pass: &mut Pass<N>,
        own: usize,
        event: &Event,
        count: u64,
        bytes: Bytes,
        turn: &Turn,
    ) -> Receipt
        requires table { words.now.table ≡ N.table }
        requires cards { words.now.cards ≡ length N.cards }
        requires own { own < length self.old.recs.items }
        requires sub { HoldsAt (λ r. sub_of r ≡ event.now.sub) own self.old.recs.items }
        requires members { subs_of self.old.recs.items ≡ numbers_of (members_in self.old.group) }
        requires call { is_group_call event.now.call ≡ true }
        requires calls { length pass.old.knows.calls < 2 ^ 64 - 1 }
        requires by { IsBy pass.old.caller event.now }
        requires room { AllHaveRoom self.old.recs.items }
        requires lines { vec_len self.old.book + 3 ≤ vec_capacity self.old.book }
        requires made { (xs : List ModelMember) × (io : List ℕ) × FitsIn (fresh_streams N.cards N.long_max) (length N.cards) self.old.serial self.old.number xs self.old.recs.items self.old.book.items × IsTurn event.now.call (step_of event.now io xs) turn.now }
        ensures fits { (xs : List ModelMember) (io : List ℕ) → FitsIn (fresh_streams N.cards N.long_max) (length N.cards) self.old.serial self.old.number xs self.old.recs.items self.old.book.items
            → IsMade event.now io xs count bytes turn.now → AllStandFor (members_in self.old.group) (step_of event.now io xs).members
            → FitsIn (fresh_streams N.cards N.long_max) (length N.cards) self.new.serial self.old.number (step_of event.now io xs).members self.new.recs.items self.new.book.items }
        ensures stepped { (xs : List ModelMember) (io : List ℕ) → FitsIn (fresh_streams N.cards N.long_max) (length N.cards) self.old.serial self.old.number xs self.old.recs.items self.old.book.items
            → IsMade event.now io xs count bytes turn.now → AllStandFor (members_in self.old.group) (step_of event.now io xs).members
            → IsStepped event.now io xs own count self.old.number self.old.serial self.old.recs.items self.new.recs.items self.old.book.items self.new.book.items pass.old pass.new result }
        ensures group { self.new.group ≡ self.old.group }
        ensures number { self.new.number ≡ self.old.number }
    {
        steps();
        records();
        let members = self.group.members();
        let _count = members.len();
        let acts = turn.acts.as_slice();
        let receipt = record_turn(
            members,
            &mut self.recs,
            &mut self.book,
            words,
            pass,
            own,
            event,
            count,
            bytes,
            turn.reply,
            acts,
            self.number,
            self.serial,
        );
        self.serial += acts.len() as u64;
        receipt
    }

    // The step of the group, by what was looked at and taken before, and all that it leaves.
    fn make(
        &mut self,
        words: &SharedWords,
        pass: &mut Pass<N>,
        own: usize,
        event: &Event,
        io: &mut [u8],
        mut plan: Plan,
    ) -> Answer
        requires table { words.now.table ≡ N.table }
        requires cards { words.now.cards ≡ length N.cards }
        requires own { own < length self.old.recs.items }
        requires sub { HoldsAt (λ r. sub_of r ≡ event.now.sub) own self.old.recs.items }
        requires call { is_group_call event.now.call ≡ true }
        requires caller { is_card_event event.now.call ≡ is_none event.now.client }
        requires client { ForSome event.now.client (λ c. c.0 ≤ 15) }
        requires free { ForSome event.now.client (λ c. IsFreeFor event.now.call event.now.sub c (members_in self.old.group)) }
        requires calls { length pass.old.knows.calls < 2 ^ 64 - 1 }
        requires by { IsBy pass.old.caller event.now }
        requires room { AllHaveRoom self.old.recs.items }
        requires lines { vec_len self.old.book + 3 ≤ vec_capacity self.old.book }
        requires fits { InRoom (fresh_streams N.cards N.long_max) (length N.cards) self.old.serial (view_of self.old) }
        requires plan { (xs : List ModelMember) → AllStandFor (members_in self.old.group) xs → IsPlan event.now (length io.old) xs plan }
        requires lent { (plan.lent ≤ length io.old) × (plan.lent ≤ vec_capacity plan.bytes) }
        requires shaped { IfSome plan.shape IsSoundShape }
        requires empty { plan.bytes.items ≡ [] }
        ensures fits { InRoom (fresh_streams N.cards N.long_max) (length N.cards) self.new.serial (view_of self.new) }
        ensures done { (xs : List ModelMember) → FitsIn (fresh_streams N.cards N.long_max) (length N.cards) self.old.serial self.old.number xs self.old.recs.items self.old.book.items → AllStandFor (members_in self.old.group) xs
            → OnDone result (λ reply receipt woken. IsTurned event.now io.old io.new plan.lent xs own self.old.number self.old.serial self.old.recs.items self.new.recs.items self.old.book.items self.new.book.items (members_in self.new.group) pass.old pass.new reply receipt woken) }
        ensures fit { (xs : List ModelMember) → FitsIn (fresh_streams N.cards N.long_max) (length N.cards) self.old.serial self.old.number xs self.old.recs.items self.old.book.items → AllStandFor (members_in self.old.group) xs
            → OnDone result (λ reply receipt woken. FitsIn (fresh_streams N.cards N.long_max) (length N.cards) self.new.serial self.new.number (step_of event.now (take plan.lent io.old) xs).members self.new.recs.items self.new.book.items) }
        ensures never { OnDone result (λ reply receipt woken. reply ≢ MemoryReply) }
        ensures full { OnFull result (λ sub count. ⊥) }
        ensures memory { OnMemory result ((self.new.recs.items ≡ self.old.recs.items) × (self.new.book.items ≡ self.old.book.items) × (pass.new ≡ pass.old) × (io.new ≡ io.old)) }
        ensures kept { (xs : List ModelMember) → AllStandFor (members_in self.old.group) xs → OnMemory result (AllStandFor (members_in self.new.group) xs) }
        ensures number { self.new.number ≡ self.old.number }
        ensures numbers { numbers_of (members_in self.new.group) ≡ numbers_of (members_in self.old.group) }
    {
        marks();
        leave_waiting();
        let count = io.len() as u64;
        let (front, _) = io.split_at_mut(plan.lent);
        let turn = step(&mut self.group, event, front);
        if is_memory(turn.reply) {
            return Answer::Memory;
        }
        let tail = since(taken_at(self.group.members(), own), plan.taken);
        push_moved(
            &mut plan.bytes,
            event.call,
            plan.layout,
            plan.shape,
            turn.reply,
            turn.first,
            turn.moved,
            front,
            tail,
        );
        let bytes = Bytes::of(plan.bytes);
        let receipt = self.record(words, pass, own, event, count, bytes, &turn);
        Answer::Done {
            reply: turn.reply,
            receipt,
            woken: turn.woken,
        }
    }

    // Looks at the member at a place before its event, and takes what memory the event may want; None where there is none, where
    // the caller has made as many calls as it can number, where a call of the client is in progress in the group, or where
    // fewer bytes were handed in than the call reads.
    fn prepare(&mut self, pass: &Pass<N>, own: usize, event: &Event, count: usize) -> Option<Plan>
        requires own { own < length self.old.recs.items }
        requires sub { HoldsAt (λ r. sub_of r ≡ event.now.sub) own self.old.recs.items }
        requires members { subs_of self.old.recs.items ≡ numbers_of (members_in self.old.group) }
        requires short { ShortTo (length self.old.recs.items) self.old.recs.items }
        ensures plan { (xs : List ModelMember) → AllStandFor (members_in self.old.group) xs → IfSome result (IsPlan event.now count xs) }
        ensures within { IfSome result (λ p. (p.lent ≤ count) × (p.lent ≤ vec_capacity p.bytes)) }
        ensures sound { IfSome result (λ p. IfSome p.shape IsSoundShape) }
        ensures empty { IfSome result (λ p. p.bytes.items ≡ []) }
        ensures free { IfSome result (λ p. ForSome event.now.client (λ c. IsFreeFor event.now.call event.now.sub c (members_in self.old.group))) }
        ensures calls { IfSome result (λ p. length pass.now.knows.calls < 2 ^ 64 - 1) }
        ensures room { IfSome result (λ p. AllHaveRoom self.new.recs.items) }
        ensures lines { IfSome result (λ p. vec_len self.new.book + 3 ≤ vec_capacity self.new.book) }
        ensures recs { knows_of self.new.recs.items ≡ knows_of self.old.recs.items }
        ensures book { self.new.book.items ≡ self.old.book.items }
        ensures group { self.new.group ≡ self.old.group }
        ensures number { (self.new.number ≡ self.old.number) × (self.new.serial ≡ self.old.serial) }
    {
        let members = self.group.members();
        let free = is_free(members, event);
        if !free || pass.calls() == u64::MAX {
            return None;
        }
        let plan = look_ahead(self.alloc, members, own, event, count)?;
        match reserve_all(&mut self.recs) {
            Err(_) => return None,
            Ok(()) => {}
        }
        if self.book.reserve(3).is_err() {
            return None;
        }
        Some(plan)
    }

    /// An event of a member, as `Room::turn` says.
    pub(crate) fn turn(
        &mut self,
        words: &SharedWords,
        pass: &mut Pass<N>,
        event: &Event,
        io: &mut [u8],
    ) -> Answer
        requires table { words.now.table ≡ N.table }
        requires cards { words.now.cards ≡ length N.cards }
        requires fits { InRoom (fresh_streams N.cards N.long_max) (length N.cards) self.old.serial (view_of self.old) }
        requires here { is_member event.now.sub (numbers_of (members_in self.old.group)) ≡ true }
        requires call { is_group_call event.now.call ≡ true }
        requires caller { is_card_event event.now.call ≡ is_none event.now.client }
        requires client { ForSome event.now.client (λ c. c.0 ≤ 15) }
        requires by { IsBy pass.old.caller event.now }
        ensures fits { InRoom (fresh_streams N.cards N.long_max) (length N.cards) self.new.serial (view_of self.new) }
        ensures done { (xs : List ModelMember) → FitsIn (fresh_streams N.cards N.long_max) (length N.cards) self.old.serial self.old.number xs self.old.recs.items self.old.book.items → AllStandFor (members_in self.old.group) xs
            → OnDone result (λ reply receipt woken. HasTurned event.now io.old io.new xs (view_of self.old) (view_of self.new) pass.old pass.new reply receipt woken) }
        ensures fit { (xs : List ModelMember) → FitsIn (fresh_streams N.cards N.long_max) (length N.cards) self.old.serial self.old.number xs self.old.recs.items self.old.book.items → AllStandFor (members_in self.old.group) xs
            → OnDone result (λ reply receipt woken. FitsIn (fresh_streams N.cards N.long_max) (length N.cards) self.new.serial self.new.number (turn_of event.now io.old xs).members self.new.recs.items self.new.book.items) }
        ensures never { OnDone result (λ reply receipt woken. reply ≢ MemoryReply) }
        ensures refused { OnFull result (λ sub count. (k : ℕ) × IsRefused k self.old.recs.items self.new.recs.items pass.old pass.new sub count) }
        ensures full { (k : ℕ) → IsFull k self.old.recs.items → OnDone result (λ reply receipt woken. ⊥) × OnMemory result ⊥ }
        ensures memory { OnMemory result ((knows_of self.new.recs.items ≡ knows_of self.old.recs.items) × (self.new.book.items ≡ self.old.book.items) × (pass.new ≡ pass.old) × (io.new ≡ io.old)) }
        ensures unchanged { OnFull result (λ sub count. (self.new.group ≡ self.old.group) × (self.new.book.items ≡ self.old.book.items) × (io.new ≡ io.old)) }
        ensures kept { (xs : List ModelMember) → AllStandFor (members_in self.old.group) xs → OnMemory result (AllStandFor (members_in self.new.group) xs) }
        ensures number { self.new.number ≡ self.old.number }
        ensures numbers { numbers_of (members_in self.new.group) ≡ numbers_of (members_in self.old.group) }
    {
        if let Some(place) = full(&self.recs) {
            return refuse(&mut self.recs, words, pass, place);
        }
        let own = place_of(&self.recs, event.sub);
        match self.prepare(pass, own, event, io.len()) {
            Some(plan) => self.make(words, pass, own, event, io, plan),
            None => Answer::Memory,
        }
    }
}
