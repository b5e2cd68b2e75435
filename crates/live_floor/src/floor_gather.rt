// A floor whose calls are over is taken apart, and gathered (the rest of the type: `floor.rt`).
ghost use Rattle.std.specs.Prelude.{◌≡◌, ◌≤◌, ◌+◌, ◌++◌, length, vec_len, vec_capacity};
ghost use Rattle.live_gather.specs.Pieces.{with_logs};
ghost use Rattle.live_floor.specs.Rooms.{AreTaken, IsAtRest, IsFit};

use crate::counted::CountedRoom;
use crate::floor::{Desk, Floor};
use crate::passes::Passes;
use live_gather::{Gathered, Piece, add_pieces, gather};
use room_parts::FloorName;
use std::sync::Mutex;
use std::sync::ledger::{Ledger, Share, Total};

// The pieces of a room are put behind those that are there, and its share to the others': it counts them.
fn take_room<N: FloorName + Ledger>(
    found: CountedRoom<N>,
    total: &Total<N>,
    share: &mut Share<N>,
    pieces: &mut Vec<Piece<N>>,
)
    requires few { length N.cards ≤ 16 }
    requires total { total.now.amount ≡ length N.cards }
    requires count { share.old.amount ≡ vec_len pieces.old }
    requires room { 16 ≤ vec_capacity pieces.old }
    ensures parts { share.new.parts ≡ share.old.parts + 1 }
    ensures count { share.new.amount ≡ vec_len pieces.new }
    ensures room { 16 ≤ vec_capacity pieces.new }
    ensures pieces { pieces.new.items ≡ with_logs pieces.old.items found.room.recs }
    ensures fits { IsFit N.cards N.long_max found.room }
{
    let CountedRoom { room, share: part } = found;
    share.merge(part);
    total.audit(share);
    let (recs, members) = room.into_parts();
    add_pieces(pieces, recs, members);
}

// The pieces of all rooms. Their shares are all parts of the ledger, so each card has its piece.
fn take_apart<N: FloorName + Ledger>(
    mut rooms: Vec<Mutex<CountedRoom<N>>>,
    total: &Total<N>,
    pieces: &mut Vec<Piece<N>>,
)
    requires few { length N.cards ≤ 16 }
    requires rooms { vec_len rooms ≡ 32 }
    requires total { (total.now.parts ≡ 32) × (total.now.amount ≡ length N.cards) }
    requires room { (vec_len pieces.old ≡ 0) × (16 ≤ vec_capacity pieces.old) }
    ensures count { vec_len pieces.new ≡ length N.cards }
    ensures taken { AreTaken N.cards N.long_max pieces.new.items }
{
    let Some(first) = rooms.pop() else {
        unreachable!()
    };
    let mut found = first.into_inner();
    let mut share = found.share.empty();
    take_room(found, total, &mut share, pieces);
    while let Some(next) = rooms.pop() {
        take_room(next.into_inner(), total, &mut share, pieces);
    }
    total.audit(&mut share);
}

impl<N: FloorName + Ledger> Floor<N> {
    /// The logs of a floor whose calls are over, handed back with its passes: one for each card, in order, with the stream to
    /// which it plays. Each log begins with what each of the passes was told of it; the entries of each caller are exactly the
    /// calls that it made, each once; each part in an act and each move has its cause. The logs are those of the rooms in
    /// which the substreams stood at the end, each of which fits its book. It takes no memory and waits for nobody.
    pub fn gather(self, passes: Passes<N>) -> Vec<Gathered>
        ensures { IsAtRest N.cards N.long_max (passes.clients.items ++ passes.cards.items) result.items }
    {
        let Floor {
            words,
            maker,
            rooms,
            total,
            ..
        } = self;
        let Desk {
            maker,
            mut pieces,
            all,
            ..
        } = maker.into_inner();
        take_apart(rooms, &total, &mut pieces);
        gather(&words, maker, pieces, passes.clients, passes.cards, all)
    }
}
