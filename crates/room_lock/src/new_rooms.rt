// New rooms.
ghost use Rattle.std.specs.Prelude.{◌≡◌, ◌<◌, ◌≤◌, ◌^◌, ◌∷◌, [], length, slice_get, IfOk, Some};
ghost use Rattle.card_emul.specs.Limits.{limits_of};
ghost use Rattle.pcm_base.specs.model.Stream.{fresh};
ghost use Rattle.pcm_group.specs.Inside.{members_in};
ghost use Rattle.pcm_stream.specs.Members.{numbers_of};
ghost use Rattle.pcm_stream.specs.MembersStand.{AllStandFor};
ghost use Rattle.room_book.specs.Rooms.{fresh_streams};
ghost use Rattle.room_book.specs.declared.book.BookEntry.TheVariants.{In};
ghost use Rattle.room_lock.specs.Inside.{view_of};
ghost use Rattle.room_lock.specs.InRoom.{InRoom};
ghost use Rattle.room_lock.specs.Ready.{knows_of};

use crate::contents::Contents;
use card_emul::AnyCard;
use pcm_base::{Dir, Model};
use pcm_group::Group;
use pcm_stream::{Member, Members, Substream};
use room_book::BookEntry;
use room_parts::{FloorName, Rec};
use sleepers::Sleepers;
use std::alloc::{AllocError, Global};

/// Nobody stands in the room, and its book is empty. There is room for 16 members.
pub(crate) fn empty<N: FloorName>(alloc: Global, number: u32) -> Result<Contents<N>, AllocError>
    ensures number { IfOk result (λ room. room.number ≡ number) }
    ensures empty { IfOk result (λ room. (members_in room.group ≡ []) × (room.recs.items ≡ []) × (room.book.items ≡ [])) }
    ensures fits { IfOk result (λ room. InRoom (fresh_streams N.cards N.long_max) (length N.cards) room.serial (view_of room)) }
{
    let (group, _) = Group::of(Members::new(alloc)?);
    Ok(Contents {
        alloc,
        number,
        group,
        recs: Vec::with_capacity(alloc, 16)?,
        book: Vec::new(alloc),
        serial: 0,
    })
}

/// A substream that no client has opened stands in its own room, over a new card.
pub(crate) fn alone<N: FloorName>(
    alloc: Global,
    rec: Rec<N>,
    card: (Model, Dir),
    long_max: u64,
) -> Result<Contents<N>, AllocError>
    requires new { (rec.knows.log ≡ []) × (rec.knows.place ≡ rec.knows.sub) }
    requires card { slice_get N.cards rec.knows.sub ≡ Some (limits_of card.0, card.1) }
    requires cards { length N.cards ≤ 16 }
    requires long { (N.long_max ≡ long_max) × (long_max < 2 ^ 36) }
    ensures number { IfOk result (λ room. room.number ≡ rec.knows.sub) }
    ensures recs { IfOk result (λ room. knows_of room.recs.items ≡ rec.knows ∷ []) }
    ensures book { IfOk result (λ room. room.book.items ≡ In (record { 0 = rec.knows.sub }) ∷ []) }
    ensures numbers { IfOk result (λ room. numbers_of (members_in room.group) ≡ record { 0 = rec.knows.sub } ∷ []) }
    ensures stands { IfOk result (λ room. AllStandFor (members_in room.group) (record { sub = record { 0 = rec.knows.sub }; stream = fresh (limits_of card.0) card.1 long_max; asleep = [] } ∷ [])) }
    ensures fits { IfOk result (λ room. InRoom (fresh_streams N.cards N.long_max) (length N.cards) room.serial (view_of room)) }
{
    let sub = rec.sub();
    let mut members = Members::new(alloc)?;
    members.add(Member {
        sub,
        stream: Substream::new(alloc, AnyCard::new(alloc, card.0, card.1), card.1, long_max),
        sleepers: Sleepers::new(),
    });
    let (group, _) = Group::of(members);
    let mut recs = Vec::with_capacity(alloc, 16)?;
    recs.push_reserved(rec);
    let mut book = Vec::new(alloc);
    book.push(BookEntry::In(sub))?;
    Ok(Contents {
        alloc,
        number: u32::from(sub.0),
        group,
        recs,
        book,
        serial: 0,
    })
}
