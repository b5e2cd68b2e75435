// What was gathered is put in the order of the numbers, in place.
ghost use Rattle.std.specs.Prelude.{◌≡◌, ◌<◌, length};
ghost use Rattle.live_gather.specs.Ordered.{AreAmong, AreInOrder, HasAll, HasSub, IsAt};

use crate::gathered::Gathered;

// Where that of the substream of this number stands, which is among them.
fn place_of(all: &Vec<Gathered>, number: usize) -> usize
    requires there { HasSub number all.now.items }
    ensures within { result < length all.now.items }
    ensures place { IsAt number result all.now.items }
{
    for i in 0..all.len() {
        if usize::from(all[i].log.sub.0) == number {
            return i;
        }
    }
    unreachable!()
}

/// Puts them in the order of their numbers, which are those below their count.
pub(crate) fn put_in_order(all: &mut Vec<Gathered>)
    requires whole { HasAll (length all.old.items) all.old.items }
    ensures size { length all.new.items ≡ length all.old.items }
    ensures order { AreInOrder (length all.new.items) all.new.items }
    ensures among { AreAmong all.new.items all.old.items }
{
    for number in 0..all.len() {
        let place = place_of(all, number);
        all.swap(number, place);
    }
}
