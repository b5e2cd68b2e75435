// A floor, its calls and its pages. What else it does stands in `floor_links.rt` and `floor_unlinks.rt`, and how it is taken apart
// in `floor_gather.rt`.
ghost use Rattle.std.specs.Prelude.{◌≡◌, ◌≢◌, ◌≤◌, ◌<◌, ◌+◌, ◌^◌, ℕ, [], true, length, map, vec_len, vec_capacity, IfOk, IfSome};
ghost use Rattle.std.specs.Option.{ForSome, is_none};
ghost use Rattle.std.specs.Sync.Mutex.{mutex_guard_value};
ghost use Rattle.pcm_base.specs.declared.reply.Reply.TheVariants.{Memory as MemoryReply};
ghost use Rattle.pcm_base.specs.model.Replay.{is_member};
ghost use Rattle.pcm_group.specs.Turn.{is_card_event, is_group_call};
ghost use Rattle.pcm_stream.specs.Members.{numbers_of};
ghost use Rattle.floor_rule.specs.Steps.{IsPage, with_page};
ghost use Rattle.room_parts.specs.Passes.{IsBy};
ghost use Rattle.room_lock.specs.Answers.{OnDone, OnFull, OnMemory};
ghost use Rattle.room_lock.specs.Handed.{IsHanded};
ghost use Rattle.room_lock.specs.Known.{Knows, told_log};
ghost use Rattle.live_floor.specs.Passes.{IsGoOf, OfCards, OfClients};
ghost use Rattle.live_floor.specs.Cards.{limits};
ghost use Rattle.live_floor.specs.Turns.{IsRefusedInRoom, IsTurnOfRoom};

use crate::counted::{CountedRoom, Tally};
use crate::opening::{card_passes, client_passes, empty_rooms, lone_rooms};
use crate::passes::Passes;
use crate::turn::turn_in;
use floor_rule::{Glance, Maker, SharedWords};
use live_gather::{Gathered, Piece};
use pcm_base::{Dir, Event, SubId};
use room_lock::Answer;
use room_parts::{FloorName, Pass};
use std::alloc::{AllocError, Global};
use std::marker::Model;
use std::sync::ledger::{Blank, Ledger, Total};
use std::sync::{Mutex, MutexGuard, Wait};

// What the gathering of a floor needs: the maker of its seats, which has made them all and taken none in, and room for a piece
// and an entry of each card.
#[derive(Drop)]
pub(crate) struct Desk<N: FloorName> {
    pub(crate) maker: Maker,
    pub(crate) pieces: Vec<Piece<N>>,
    pub(crate) all: Vec<Gathered>,
    ghost whole: { maker ≡ record { table = N.table; knows = record { recs = length N.cards; passes = 16 + length N.cards; roll = [] } } },
    ghost pieces_room: { (vec_len pieces ≡ 0) × (16 ≤ vec_capacity pieces) },
    ghost all_room: { (vec_len all ≡ 0) × (16 ≤ vec_capacity all) },
}

/// The substreams of up to 16 cards in 32 rooms behind locks. Room i below 16 holds substream i while that is not linked; the
/// others hold groups of two or more. Any number of threads share a floor by reference, each with a pass of its own.
/// Contracts see of which words it is, and of how many cards.
#[derive(Drop)]
pub struct Floor<N: FloorName + Ledger> {
    pub(crate) words: SharedWords,
    pub(crate) cards: usize,
    pub(crate) maker: Mutex<Desk<N>>,
    pub(crate) order: Mutex<()>,
    pub(crate) rooms: Vec<Mutex<CountedRoom<N>>>,
    pub(crate) total: Total<N>,
}

impl<N: FloorName + Ledger> Model for Floor<N> {
    ghost use Rattle.std.specs.Prelude.{◌≡◌, ◌≤◌, length, vec_len};
    ghost use Rattle.floor_rule.specs.Seats.{Words};

    ghost Value = { Words };

    ghost view = { λ f. f.words };

    ghost invariant = { λ f. (f.words ≡ record { table = N.table; cards = length N.cards }) × (f.cards ≡ length N.cards) × (f.cards ≤ 16) × (vec_len f.rooms ≡ 32) × (f.total.parts ≡ 32) × (f.total.amount ≡ length N.cards) };
}

impl<N: FloorName + Ledger> Floor<N> {
    /// The floor over new cards of these models and directions, in which no client has opened a substream, with a pass for
    /// each of the 16 clients and one for each card. `blank` is a new ledger of 32 parts, by which no substream is lost
    /// between rooms. `words` and `maker` are new; `long_max` is LONG_MAX, below 2^36.
    pub fn new(
        alloc: Global,
        blank: Blank,
        words: SharedWords,
        mut maker: Maker,
        cards: &[(pcm_base::Model, Dir)],
        long_max: u64,
    ) -> Result<(Floor<N>, Passes<N>), AllocError>
        requires ledger { (blank.name ≡ N.name) × (blank.parts ≡ N.parts) × (N.parts ≡ 32) }
        requires words { words ≡ record { table = N.table; cards = length cards.now } }
        requires maker { maker ≡ record { table = N.table; knows = record { recs = 0; passes = 0; roll = [] } } }
        requires cards { N.cards ≡ map limits cards.now }
        requires few { length cards.now ≤ 16 }
        requires long { (N.long_max ≡ long_max) × (long_max < 2 ^ 36) }
        ensures clients { IfOk result (λ r. OfClients 16 r.1.clients.items) }
        ensures cards { IfOk result (λ r. OfCards (length cards.now) r.1.cards.items) }
    {
        let mut rooms = Vec::with_capacity(alloc, 32)?;
        let mut tally = Tally::open(blank);
        lone_rooms(
            alloc, &mut rooms, &mut tally, &words, &mut maker, cards, long_max,
        )?;
        empty_rooms(alloc, &mut rooms, &mut tally)?;
        let passes = Passes {
            clients: client_passes(alloc, &words, &mut maker)?,
            cards: card_passes(alloc, &words, &mut maker, cards.len())?,
        };
        let desk = Desk {
            maker,
            pieces: Vec::with_capacity(alloc, 16)?,
            all: Vec::with_capacity(alloc, 16)?,
        };
        let floor = Floor {
            words,
            cards: cards.len(),
            maker: Mutex::new(desk),
            order: Mutex::new(()),
            rooms,
            total: tally.close(),
        };
        Ok((floor, passes))
    }

    /// The page of a substream: how many entries its log has, its state, and its hardware position in frames. It is one load,
    /// which waits for nobody and goes beyond nothing that the pass has seen of that log.
    pub fn page(&self, pass: &mut Pass<N>, sub: SubId) -> Glance
        requires card { sub.0 < length N.cards }
        ensures page { (word : ℕ) × IsPage sub.0 word pass.old.knows result.count (record { state = result.state; hw = result.hw }) × (pass.new.knows ≡ with_page pass.old.knows sub.0 result.count word) }
        ensures same { (pass.new.caller ≡ pass.old.caller) × (pass.new.busy ≡ pass.old.busy) }
    {
        pass.page(&self.words, sub)
    }

    // The room in which a substream stands, locked. The place in the words may be an old one by the time that its room is
    // locked, and is then looked up again.
    pub(crate) fn lock<'a, R: Wait>(
        &'a self,
        rt: &R,
        pass: &mut Pass<N>,
        sub: SubId,
    ) -> MutexGuard<'a, CountedRoom<N>>
        requires card { sub.0 < length N.cards }
        ensures here { is_member sub (numbers_of (mutex_guard_value result).room.members) ≡ true }
        ensures same { pass.new ≡ pass.old }
    {
        for _ in rt.forever() {
            let place = pass.place(&self.words, sub);
            let found = self.rooms[place as usize].lock(rt);
            if found.room.holds(sub) {
                return found;
            }
        }
        unreachable!()
    }

    // The rooms at two places that differ, locked in order of number.
    pub(crate) fn lock_two<'a, R: Wait>(
        &'a self,
        rt: &R,
        one: u32,
        two: u32,
    ) -> (
        MutexGuard<'a, CountedRoom<N>>,
        MutexGuard<'a, CountedRoom<N>>,
    )
        requires places { (one < 32) × (two < 32) }
    {
        if one < two {
            let first = self.rooms[one as usize].lock(rt);
            let second = self.rooms[two as usize].lock(rt);
            return (first, second);
        }
        let second = self.rooms[two as usize].lock(rt);
        let first = self.rooms[one as usize].lock(rt);
        (first, second)
    }

    // The lowest room above 15 in which nobody stands, locked.
    pub(crate) fn lock_empty<'a, R: Wait>(
        &'a self,
        rt: &R,
    ) -> Option<MutexGuard<'a, CountedRoom<N>>>
        ensures empty { IfSome result (λ g. (mutex_guard_value g).room.members ≡ []) }
        ensures above { IfSome result (λ g. (16 ≤ (mutex_guard_value g).room.number) × ((mutex_guard_value g).room.number < 32)) }
    {
        for i in 16..32 {
            let found = self.rooms[i].lock(rt);
            let number = found.room.number();
            if 16 <= number && number < 32 && found.room.is_empty() {
                return Some(found);
            }
        }
        None
    }

    /// An event of a substream, with the bytes of its call, by a pass of its caller: one step of the group in which the
    /// substream stands. It may wait for other calls. The call's entry stands at the receipt, and every other member has an
    /// entry for each act. A read or a load is lent the front of `io`, of its own length: 32 bytes a frame are always
    /// enough. `LogFull` tells the first member in link order whose log has no room for three entries more, with the count of
    /// its entries, and the pass has then read its page. `Memory` comes also where the caller has made as many calls as it
    /// can number, where another call of the client is in progress in the group, and where fewer bytes were handed in than the
    /// call reads. Neither makes the event.
    pub fn call<R: Wait>(&self, rt: &R, pass: &mut Pass<N>, event: &Event, io: &mut [u8]) -> Answer
        requires card { event.now.sub.0 < length N.cards }
        requires call { is_group_call event.now.call ≡ true }
        requires caller { is_card_event event.now.call ≡ is_none event.now.client }
        requires client { ForSome event.now.client (λ c. c.0 ≤ 15) }
        requires by { IsBy pass.old.caller event.now }
        requires busy { ForSome pass.old.busy (λ k. IsGoOf k event.now) }
        ensures sub { OnDone result (λ reply receipt woken. receipt.sub ≡ event.now.sub) }
        ensures pass { OnDone result (λ reply receipt woken. Knows N.cards N.long_max event.now (length io.old) reply receipt pass.old pass.new) }
        ensures turn { OnDone result (λ reply receipt woken. IsTurnOfRoom N.cards N.long_max event.now io.old io.new pass.old.knows pass.new.knows reply receipt woken) }
        ensures handed { OnDone result (λ reply receipt woken. IsHanded N.cards N.long_max event.now.sub (told_log receipt pass.new.knows) receipt.index io.old) }
        ensures never { OnDone result (λ reply receipt woken. reply ≢ MemoryReply) }
        ensures full { OnFull result (λ sub count. IsRefusedInRoom N.cards N.long_max event.now pass.old pass.new sub count × (io.new ≡ io.old)) }
        ensures memory { OnMemory result ((pass.new ≡ pass.old) × (io.new ≡ io.old)) }
        ensures caller { (pass.new.caller ≡ pass.old.caller) × (pass.new.knows.number ≡ pass.old.knows.number) }
    {
        let mut found = self.lock(rt, pass, event.sub);
        turn_in(&mut *found, &self.words, pass, event, io)
    }
}
