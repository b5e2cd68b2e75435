// Rooms with shares of a ledger, by which their members add up to the cards of the floor.
ghost use Rattle.std.specs.Prelude.{◌≡◌, ◌<◌, ◌≤◌, ◌+◌, length};

use room_lock::Room;
use room_parts::FloorName;
use std::sync::ledger::{Blank, Book, Ledger, Share, Total};

/// A room, with one part of the floor's ledger: its amount is the count of the members.
#[derive(Drop)]
pub(crate) struct CountedRoom<N: FloorName + Ledger> {
    pub(crate) room: Room<N>,
    pub(crate) share: Share<N>,
    ghost part: { share.parts ≡ 1 },
    ghost count: { share.amount ≡ length room.members },
}

/// The ledger of a floor whose rooms are being made: its book, and the parts that no room has yet, which count nobody.
#[derive(Drop)]
pub(crate) struct Tally<N: Ledger> {
    pub(crate) book: Book<N>,
    pub(crate) rest: Share<N>,
    ghost nobody: { rest.amount ≡ 0 },
}

impl<N: FloorName + Ledger> Tally<N> {
    /// Opens a new ledger.
    pub(crate) fn open(blank: Blank) -> Tally<N>
        requires ledger { (blank.name ≡ N.name) × (blank.parts ≡ N.parts) }
        ensures parts { result.rest.parts ≡ N.parts }
        ensures total { result.book.total ≡ 0 }
    {
        let (book, rest) = blank.open::<N>();
        Tally { book, rest }
    }

    /// Gives a part to a room with so many members.
    pub(crate) fn count(&mut self, room: Room<N>, members: u64) -> CountedRoom<N>
        requires part { 0 < self.old.rest.parts }
        requires members { members ≡ length room.members }
        ensures parts { self.new.rest.parts + 1 ≡ self.old.rest.parts }
        ensures total { self.new.book.total ≡ self.old.book.total + members }
    {
        let mut share = self.rest.split_off(1, 0);
        self.book.add(&mut share, members);
        CountedRoom { room, share }
    }

    /// What all rooms count.
    pub(crate) fn close(self) -> Total<N>
        ensures parts { result.parts ≡ N.parts }
        ensures amount { result.amount ≡ self.book.total }
    {
        let Tally { book, rest: _ } = self;
        book.close()
    }
}

/// What a room has lost, which had so many members, goes from its share to another.
pub(crate) fn move_lost<N: FloorName + Ledger>(
    room: &Room<N>,
    had: usize,
    share: &mut Share<N>,
    to: &mut Share<N>,
)
    requires fewer { length room.now.members ≤ had }
    requires had { share.old.amount ≡ had }
    requires parts { (share.old.parts ≡ 1) × (to.old.parts ≡ 1) }
    ensures left { share.new.amount ≡ length room.now.members }
    ensures given { to.new.amount + length room.now.members ≡ to.old.amount + had }
    ensures parts { (share.new.parts ≡ 1) × (to.new.parts ≡ 1) }
{
    share.transfer(to, (had - room.len()) as u64);
}

/// What a room has gained, in which nobody stood, comes to its share from another.
pub(crate) fn move_gained<N: FloorName + Ledger>(
    room: &Room<N>,
    share: &mut Share<N>,
    from: &mut Share<N>,
)
    requires empty { share.old.amount ≡ 0 }
    requires enough { length room.now.members ≤ from.old.amount }
    requires parts { (share.old.parts ≡ 1) × (from.old.parts ≡ 1) }
    ensures gained { share.new.amount ≡ length room.now.members }
    ensures taken { from.new.amount + length room.now.members ≡ from.old.amount }
    ensures parts { (share.new.parts ≡ 1) × (from.new.parts ≡ 1) }
{
    from.transfer(share, room.len() as u64);
}
