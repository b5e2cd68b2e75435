// Whether the recs of a room have room for an event.
ghost use Rattle.std.specs.Prelude.{◌≡◌, ◌≤◌, ◌<◌, length, map, IfNone, IfSome, OnOk};
ghost use Rattle.room_lock.specs.Joined.{HoldsAt};
ghost use Rattle.room_lock.specs.Ready.{ShortTo, SpareTo, knows_of, IsFull};

use room_parts::{FloorName, Rec};
use std::alloc::AllocError;

/// Makes room for three more entries in each log.
pub(crate) fn reserve_all<N: FloorName>(recs: &mut Vec<Rec<N>>) -> Result<(), AllocError>
    ensures same { knows_of recs.new.items ≡ knows_of recs.old.items }
    ensures spare { OnOk result (SpareTo (length recs.new.items) recs.new.items) }
{
    for i in 0..recs.len() {
        recs[i].reserve()?;
    }
    Ok(())
}

/// The place of the first rec whose log has no three entries free.
pub(crate) fn full<N: FloorName>(recs: &Vec<Rec<N>>) -> Option<usize>
    ensures none { IfNone result (ShortTo (length recs.now.items) recs.now.items) }
    ensures first { IfSome result (λ k. IsFull k recs.now.items) }
{
    for i in 0..recs.len() {
        if recs[i].entries().len() > 16_777_212 {
            return Some(i);
        }
    }
    None
}
