// A room.
ghost use Rattle.std.specs.Prelude.{◌≡◌, ◌≢◌, ◌≤◌, ◌<◌, ◌^◌, ◌∷◌, ◌++◌, [], ℕ, List, true, false, length, map, slice_get, IfOk, Some};
ghost use Rattle.std.specs.Option.{ForSome, is_none};
ghost use Rattle.card_emul.specs.Limits.{limits_of};
ghost use Rattle.pcm_base.specs.declared.reply.Reply.TheVariants.{Memory as MemoryReply};
ghost use Rattle.pcm_base.specs.model.Replay.{is_member};
ghost use Rattle.pcm_base.specs.model.Sleep.{mask_of};
ghost use Rattle.pcm_base.specs.model.Stream.{Member as ModelMember, fresh};
ghost use Rattle.pcm_group.specs.Turn.{is_card_event, is_group_call};
ghost use Rattle.pcm_stream.specs.Members.{members_of, numbers_of};
ghost use Rattle.pcm_stream.specs.MembersStand.{AllStandFor};
ghost use Rattle.room_book.specs.Rooms.{fresh_streams};
ghost use Rattle.room_book.specs.declared.book.BookEntry.TheVariants.{Act, In};
ghost use Rattle.room_parts.specs.Passes.{IsBy};
ghost use Rattle.room_lock.specs.Answers.{OnDone, OnFull, OnMemory, log_in, logs_after, turn_of};
ghost use Rattle.room_lock.specs.Handed.{IsHanded};
ghost use Rattle.room_lock.specs.InRoom.{IsRoomOf};
ghost use Rattle.room_lock.specs.Known.{Knows, told_log};
ghost use Rattle.room_lock.specs.Parts.{AreLeft, EntryHasMoved};
ghost use Rattle.room_lock.specs.Ready.{IsFull, knows_of};
ghost use Rattle.room_lock.specs.Refused.{IsRefused};
ghost use Rattle.room_lock.specs.Turning.{logs_of};

use crate::answer::Answer;
use crate::contents::Contents;
use crate::new_rooms::{alone, empty};
use card_emul::AnyCard;
use floor_rule::SharedWords;
use pcm_base::{Dir, Event, SubId};
use pcm_laws::step::{marks, runs};
use pcm_stream::Members;
use room_book::laws::moves;
use room_parts::{FloorName, Pass, Rec};
use std::alloc::{AllocError, Global};
use std::marker::Model;

/// A room: the group that stands in it, the log of each member, and the book of who came in, who went out and each act.
/// Contracts see its number, the members, their logs and the book; what fits in a room holds of every room.
#[derive(Drop)]
pub struct Room<N: FloorName> {
    pub(crate) inside: Contents<N>,
}

impl<N: FloorName> Model for Room<N> {
    ghost use Rattle.std.specs.Prelude.{length};
    ghost use Rattle.room_book.specs.Rooms.{fresh_streams};
    ghost use Rattle.room_lock.specs.InRoom.{InRoom, RoomView};
    ghost use Rattle.room_lock.specs.Inside.{view_of};

    ghost Value = { RoomView };

    ghost view = { λ r. view_of r.inside };

    ghost invariant = { λ r. InRoom (fresh_streams N.cards N.long_max) (length N.cards) r.inside.serial (view_of r.inside) };
}

impl<N: FloorName> Room<N> {
    /// A room in which nobody stands.
    pub fn new(alloc: Global, number: u32) -> Result<Room<N>, AllocError>
        ensures number { IfOk result (λ room. room.number ≡ number) }
        ensures empty { IfOk result (λ room. (room.members ≡ []) × (room.recs ≡ [])) }
        ensures book { IfOk result (λ room. room.book ≡ []) }
    {
        Ok(Room {
            inside: empty(alloc, number)?,
        })
    }

    /// The room of a substream that no client has opened, over a new card of this model and direction. `long_max` is the
    /// LONG_MAX of the floor, below 2^36.
    pub fn alone(
        alloc: Global,
        rec: Rec<N>,
        card: (pcm_base::Model, Dir),
        long_max: u64,
    ) -> Result<Room<N>, AllocError>
        requires new { (rec.knows.log ≡ []) × (rec.knows.place ≡ rec.knows.sub) }
        requires card { slice_get N.cards rec.knows.sub ≡ Some (limits_of card.0, card.1) }
        requires cards { length N.cards ≤ 16 }
        requires long { (N.long_max ≡ long_max) × (long_max < 2 ^ 36) }
        ensures number { IfOk result (λ room. room.number ≡ rec.knows.sub) }
        ensures recs { IfOk result (λ room. knows_of room.recs ≡ rec.knows ∷ []) }
        ensures book { IfOk result (λ room. room.book ≡ In (record { 0 = rec.knows.sub }) ∷ []) }
        ensures numbers { IfOk result (λ room. numbers_of room.members ≡ record { 0 = rec.knows.sub } ∷ []) }
        ensures stands { IfOk result (λ room. AllStandFor room.members (record { sub = record { 0 = rec.knows.sub }; stream = fresh (limits_of card.0) card.1 long_max; asleep = [] } ∷ [])) }
    {
        Ok(Room {
            inside: alone(alloc, rec, card, long_max)?,
        })
    }

    /// The number of the room. Its members stand for streams to which their logs play, and which fit the book.
    pub fn number(&self) -> u32
        ensures number { result ≡ self.now.number }
        ensures fits { (xs : List ModelMember) × IsRoomOf (fresh_streams N.cards N.long_max) (length N.cards) self.now xs }
    {
        self.inside.number
    }

    /// Whether a substream stands in the room.
    pub fn holds(&self, sub: SubId) -> bool
        ensures { result ≡ is_member sub (numbers_of self.now.members) }
    {
        self.inside.group.holds(sub)
    }

    /// How many substreams stand in the room.
    pub fn len(&self) -> usize
        ensures { result ≡ length self.now.members }
    {
        self.inside.group.members().len()
    }

    /// Whether nobody stands in the room.
    pub fn is_empty(&self) -> bool
        ensures none { result ≡ true → self.now.members ≡ [] }
        ensures some { result ≡ false → 0 < length self.now.members }
    {
        self.len() == 0
    }

    /// An event of a member, with the bytes of its call, by a pass of its caller: the step of the group. The member's log
    /// gains its entry, in which the pass has its receipt, each other log the parts of its member in the acts, and the book
    /// the acts. `LogFull` tells the first member in link order whose log has no room for three entries more, with the count
    /// of its entries, and the pass has then read its page. `Memory` comes also where the caller has made as many calls as it
    /// can number, where another call of the client is in progress in the room, and where fewer bytes were handed in than
    /// the call reads. Both leave the room as it was.
    pub fn turn(
        &mut self,
        words: &SharedWords,
        pass: &mut Pass<N>,
        event: &Event,
        io: &mut [u8],
    ) -> Answer
        requires words { (words.now.table ≡ N.table) × (words.now.cards ≡ length N.cards) }
        requires here { is_member event.now.sub (numbers_of self.old.members) ≡ true }
        requires call { is_group_call event.now.call ≡ true }
        requires caller { is_card_event event.now.call ≡ is_none event.now.client }
        requires client { ForSome event.now.client (λ c. c.0 ≤ 15) }
        requires by { IsBy pass.old.caller event.now }
        ensures room { (xs : List ModelMember) → IsRoomOf (fresh_streams N.cards N.long_max) (length N.cards) self.old xs
            → OnDone result (λ reply receipt woken. IsRoomOf (fresh_streams N.cards N.long_max) (length N.cards) self.new (turn_of event.now io.old xs).members) }
        ensures reply { (xs : List ModelMember) → IsRoomOf (fresh_streams N.cards N.long_max) (length N.cards) self.old xs
            → OnDone result (λ reply receipt woken. reply ≡ (turn_of event.now io.old xs).answer.reply) }
        ensures woken { (xs : List ModelMember) → IsRoomOf (fresh_streams N.cards N.long_max) (length N.cards) self.old xs
            → OnDone result (λ reply receipt woken. woken ≡ mask_of (turn_of event.now io.old xs).woken) }
        ensures book { (xs : List ModelMember) → IsRoomOf (fresh_streams N.cards N.long_max) (length N.cards) self.old xs
            → OnDone result (λ reply receipt woken. self.new.book ≡ self.old.book ++ map Act (turn_of event.now io.old xs).acts) }
        ensures logs { (xs : List ModelMember) → IsRoomOf (fresh_streams N.cards N.long_max) (length N.cards) self.old xs
            → OnDone result (λ reply receipt woken. logs_of self.new.recs ≡ logs_after event.now io.old xs self.old.number self.old.book pass.old.knows (logs_of self.old.recs)) }
        ensures receipt { OnDone result (λ reply receipt woken. (receipt.sub ≡ event.now.sub) × (receipt.index ≡ length (log_in event.now.sub self.old.recs))) }
        ensures pass { OnDone result (λ reply receipt woken. Knows N.cards N.long_max event.now (length io.old) reply receipt pass.old pass.new) }
        ensures told { OnDone result (λ reply receipt woken. told_log receipt pass.new.knows ≡ log_in event.now.sub self.new.recs) }
        ensures handed { OnDone result (λ reply receipt woken. IsHanded N.cards N.long_max event.now.sub (told_log receipt pass.new.knows) receipt.index io.old) }
        ensures bytes { (xs : List ModelMember) → IsRoomOf (fresh_streams N.cards N.long_max) (length N.cards) self.old xs
            → OnDone result (λ reply receipt woken. AreLeft event.now io.old io.new xs) }
        ensures moved { (xs : List ModelMember) → IsRoomOf (fresh_streams N.cards N.long_max) (length N.cards) self.old xs
            → OnDone result (λ reply receipt woken. EntryHasMoved event.now io.old io.new xs) }
        ensures never { OnDone result (λ reply receipt woken. reply ≢ MemoryReply) }
        ensures caller { (pass.new.caller ≡ pass.old.caller) × (pass.new.knows.number ≡ pass.old.knows.number) }
        ensures refused { OnFull result (λ sub count. (k : ℕ) × IsRefused k self.old.recs self.new.recs pass.old pass.new sub count) }
        ensures full { (k : ℕ) → IsFull k self.old.recs → OnDone result (λ reply receipt woken. ⊥) × OnMemory result ⊥ }
        ensures unchanged { OnFull result (λ sub count. (self.new.members ≡ self.old.members) × (self.new.book ≡ self.old.book) × (io.new ≡ io.old)) }
        ensures memory { OnMemory result ((knows_of self.new.recs ≡ knows_of self.old.recs) × (self.new.book ≡ self.old.book) × (pass.new ≡ pass.old) × (io.new ≡ io.old)) }
        ensures kept { (xs : List ModelMember) → AllStandFor self.old.members xs → OnMemory result (AllStandFor self.new.members xs) }
        ensures number { self.new.number ≡ self.old.number }
        ensures numbers { numbers_of self.new.members ≡ numbers_of self.old.members }
    {
        moves();
        runs();
        marks();
        self.inside.turn(words, pass, event, io)
    }

    /// The room is taken apart: the logs of its members, and the members, both in link order.
    pub fn into_parts(self) -> (Vec<Rec<N>>, Members<AnyCard>)
        ensures recs { result.0.items ≡ self.recs }
        ensures members { members_of result.1 ≡ self.members }
        ensures fits { (xs : List ModelMember) × IsRoomOf (fresh_streams N.cards N.long_max) (length N.cards) self xs }
    {
        let Contents { group, recs, .. } = self.inside;
        (recs, group.into_members())
    }
}
