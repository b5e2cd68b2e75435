// The rooms and the passes of a new floor.
ghost use Rattle.std.specs.Prelude.{◌≡◌, ◌≤◌, ◌<◌, ◌+◌, ◌^◌, [], ℕ, length, map, IfOk, OnOk, vec_len, vec_capacity};
ghost use Rattle.live_floor.specs.Cards.{limits};
ghost use Rattle.live_floor.specs.Passes.{OfCards, OfClients};

use crate::counted::{CountedRoom, Tally};
use floor_rule::{Maker, SharedWords};
use pcm_base::{ClientId, Dir, Model, SubId};
use room_lock::Room;
use room_parts::{Caller, FloorName, Pass, Rec};
use std::alloc::{AllocError, Global};
use std::sync::Mutex;
use std::sync::ledger::Ledger;

/// The rooms of the substreams, each over a new card.
pub(crate) fn lone_rooms<N: FloorName + Ledger>(
    alloc: Global,
    rooms: &mut Vec<Mutex<CountedRoom<N>>>,
    tally: &mut Tally<N>,
    words: &SharedWords,
    maker: &mut Maker,
    cards: &[(Model, Dir)],
    long_max: u64,
) -> Result<(), AllocError>
    requires words { words.now ≡ record { table = N.table; cards = length cards.now } }
    requires maker { maker.old ≡ record { table = N.table; knows = record { recs = 0; passes = 0; roll = [] } } }
    requires cards { N.cards ≡ map limits cards.now }
    requires few { length cards.now ≤ 16 }
    requires long { (N.long_max ≡ long_max) × (long_max < 2 ^ 36) }
    requires room { (vec_len rooms.old ≡ 0) × (32 ≤ vec_capacity rooms.old) }
    requires tally { (tally.old.rest.parts ≡ 32) × (tally.old.book.total ≡ 0) }
    ensures tally { OnOk result ((tally.new.rest.parts + length cards.now ≡ 32) × (tally.new.book.total ≡ length cards.now)) }
    ensures rooms { OnOk result ((vec_len rooms.new ≡ length cards.now) × (32 ≤ vec_capacity rooms.new)) }
    ensures maker { OnOk result (maker.new ≡ record { table = N.table; knows = record { recs = length cards.now; passes = 0; roll = [] } }) }
{
    for i in 0..cards.len() {
        let rec = Rec::new(alloc, maker.add_rec(words));
        let room = Room::alone(alloc, rec, cards[i], long_max)?;
        rooms.push_reserved(Mutex::new(tally.count(room, 1)));
    }
    Ok(())
}

/// The rooms behind those, up to 32, in which nobody stands.
pub(crate) fn empty_rooms<N: FloorName + Ledger>(
    alloc: Global,
    rooms: &mut Vec<Mutex<CountedRoom<N>>>,
    tally: &mut Tally<N>,
) -> Result<(), AllocError>
    requires room { (vec_len rooms.old ≤ 32) × (32 ≤ vec_capacity rooms.old) }
    requires tally { tally.old.rest.parts + vec_len rooms.old ≡ 32 }
    ensures rooms { OnOk result (vec_len rooms.new ≡ 32) }
    ensures total { OnOk result (tally.new.book.total ≡ tally.old.book.total) }
{
    for number in rooms.len()..32 {
        let room = Room::new(alloc, number as u32)?;
        rooms.push_reserved(Mutex::new(tally.count(room, 0)));
    }
    Ok(())
}

/// A pass for each client.
pub(crate) fn client_passes<N: FloorName>(
    alloc: Global,
    words: &SharedWords,
    maker: &mut Maker,
) -> Result<Vec<Pass<N>>, AllocError>
    requires table { (words.now.table ≡ N.table) × (maker.old.table ≡ N.table) }
    requires none { maker.old.knows.passes ≡ 0 }
    ensures passes { IfOk result (λ v. OfClients 16 v.items) }
    ensures maker { OnOk result (maker.new ≡ record maker.old { knows = record maker.old.knows { passes = 16 } }) }
{
    let mut passes = Vec::with_capacity(alloc, 16)?;
    for i in 0..16 {
        let caller = Caller::Client(ClientId(i));
        passes.push_reserved(Pass::new(maker.add_pass(words), caller));
    }
    Ok(passes)
}

/// A pass for each card.
pub(crate) fn card_passes<N: FloorName>(
    alloc: Global,
    words: &SharedWords,
    maker: &mut Maker,
    count: usize,
) -> Result<Vec<Pass<N>>, AllocError>
    requires table { (words.now.table ≡ N.table) × (maker.old.table ≡ N.table) }
    requires clients { maker.old.knows.passes ≡ 16 }
    requires few { count ≤ 16 }
    ensures passes { IfOk result (λ v. OfCards count v.items) }
    ensures maker { OnOk result (maker.new ≡ record maker.old { knows = record maker.old.knows { passes = 16 + count } }) }
{
    let mut passes = Vec::with_capacity(alloc, count)?;
    for j in 0..count {
        let caller = Caller::Card(SubId(j as u8));
        passes.push_reserved(Pass::new(maker.add_pass(words), caller));
    }
    Ok(passes)
}
