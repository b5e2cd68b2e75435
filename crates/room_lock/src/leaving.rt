// Unlinks of a member of a group of three or more: it goes home, and the others stay linked.
ghost use Rattle.std.specs.Prelude.{◌≡◌, ◌≤◌, ◌<◌, ◌+◌, ◌-◌, ◌^◌, ◌∷◌, ◌++◌, [], ℕ, List, true, length, remove, slice_get, vec_len, vec_capacity, IfSome, Some};
ghost use Rattle.floor_rule.specs.Causes.{Causes};
ghost use Rattle.floor_rule.specs.declared.entry.Entry.TheVariants.{Moved as MovedEntry};
ghost use Rattle.floor_rule.specs.declared.rule.Marked.{Marked};
ghost use Rattle.pcm_base.specs.model.Replay.{is_member};
ghost use Rattle.pcm_base.specs.model.Sleep.{mask_of, wake};
ghost use Rattle.pcm_base.specs.model.Stream.{Member as ModelMember};
ghost use Rattle.pcm_base.specs.model.World.{only_member, without_member};
ghost use Rattle.pcm_group.specs.Inside.{members_in};
ghost use Rattle.pcm_stream.specs.Members.{numbers_of};
ghost use Rattle.pcm_stream.specs.MembersStand.{AllStandFor};
ghost use Rattle.room_book.specs.Rooms.{fresh_streams};
ghost use Rattle.room_book.specs.declared.book.BookEntry.TheVariants.{In, Out};
ghost use Rattle.room_parts.specs.Passes.{IsBy};
ghost use Rattle.room_parts.specs.Recs.{RecView, sub_of, subs_of};
ghost use Rattle.room_lock.specs.Answers.{OnDone, OnFull, OnMemory, log_in};
ghost use Rattle.room_lock.specs.InRoom.{InRoom, IsIn};
ghost use Rattle.room_lock.specs.Inside.{view_of};
ghost use Rattle.room_lock.specs.Joined.{HasRoom, HoldsAt};
ghost use Rattle.room_lock.specs.Known.{Knows};
ghost use Rattle.room_lock.specs.Leaving.{IsLeaving, gone_home, left_by, woken_apart};
ghost use Rattle.room_lock.specs.Linked.{HasMoved};
ghost use Rattle.room_lock.specs.Ready.{IsFull, knows_of};
ghost use Rattle.room_lock.specs.Recorded.{AllHaveRoom};
ghost use Rattle.room_lock.specs.Refused.{IsRefused};
ghost use Rattle.room_lock.specs.Staying.{unlink_by};

use crate::answer::Answer;
use crate::contents::{Contents, place_of};
use crate::linking::is_ok;
use crate::moving::Apart;
use crate::ready::full;
use crate::recording::Receipt;
use crate::recs::tell;
use crate::refusing::refuse;
use crate::unlinking::tell_unlink;
use card_emul::AnyCard;
use floor_rule::SharedWords;
use pcm_base::{ClientId, Page, SubId};
use pcm_group::Group;
use pcm_laws::waiting::steps as leave_waiting;
use room_book::laws::{links, moves};
use room_parts::{FloorName, Pass};

/// Groups without members: for the check of all, for those that are taken out, for the one on its way, and for its room.
#[derive(Drop)]
pub(crate) struct Spares {
    here: Group<AnyCard>,
    left: Group<AnyCard>,
    way: Group<AnyCard>,
    home: Group<AnyCard>,
}

// Takes what memory an unlink may want: None where there is none, or where the caller has made as many calls as it can number.
fn prepare_to_leave<N: FloorName>(
    room: &mut Contents<N>,
    own: &mut Contents<N>,
    pass: &Pass<N>,
) -> Option<Spares>
    ensures room { (knows_of room.new.recs.items ≡ knows_of room.old.recs.items) × (room.new.book.items ≡ room.old.book.items) × (room.new.group ≡ room.old.group) × (room.new.number ≡ room.old.number) × (room.new.serial ≡ room.old.serial) }
    ensures own { (knows_of own.new.recs.items ≡ knows_of own.old.recs.items) × (own.new.book.items ≡ own.old.book.items) × (own.new.group ≡ own.old.group) × (own.new.number ≡ own.old.number) × (own.new.serial ≡ own.old.serial) }
    ensures spares { IfSome result (λ s. members_in s.way ≡ []) }
    ensures spare { IfSome result (λ s. (i : ℕ) (r : RecView) → slice_get room.new.recs.items i ≡ Some r → 3 ≤ r.spare) }
    ensures lines { IfSome result (λ s. (vec_len room.new.book < vec_capacity room.new.book) × (vec_len own.new.book < vec_capacity own.new.book) × (vec_len own.new.recs < vec_capacity own.new.recs)) }
    ensures calls { IfSome result (λ s. length pass.now.knows.calls < 2 ^ 64 - 1) }
{
    if pass.calls() == u64::MAX {
        return None;
    }
    let here = room.make_room().ok()?;
    let left = room.make_room().ok()?;
    let way = own.make_room().ok()?;
    let home = own.make_room().ok()?;
    Some(Spares {
        here,
        left,
        way,
        home,
    })
}

// The member of the rec at a place goes home, with the wake checks of an unlink: the clients that they mark awake, client i as
// bit i. The unlink's entry stands at the receipt, in its log.
fn leave<N: FloorName>(
    words: &SharedWords,
    room: &mut Contents<N>,
    own: &mut Contents<N>,
    place: usize,
    spares: Spares,
    page: &Page,
    cause: Receipt,
) -> u16
    requires table { words.now.table ≡ N.table }
    requires number { own.old.number < 32 }
    requires two { 2 ≤ length (members_in room.old.group) }
    requires place { place < length room.old.recs.items }
    requires sub { HoldsAt (λ r. sub_of r ≡ cause.sub) place room.old.recs.items }
    requires members { numbers_of (members_in room.old.group) ≡ subs_of room.old.recs.items }
    requires cause { HoldsAt (λ r. (r.knows.sub < length N.cards) × ((c : Marked) × (slice_get r.knows.log cause.index ≡ Some c) × Causes c.entry (MovedEntry own.old.number))) place room.old.recs.items }
    requires room { HoldsAt (HasRoom 1) place room.old.recs.items }
    requires empty { members_in own.old.group ≡ [] }
    requires spares { members_in spares.way ≡ [] }
    requires lines { (vec_len room.old.book < vec_capacity room.old.book) × (vec_len own.old.book < vec_capacity own.old.book) × (vec_len own.old.recs < vec_capacity own.old.recs) }
    requires low { page.now.hw < 2 ^ 36 }
    ensures rec { (r : RecView) → slice_get room.old.recs.items place ≡ Some r → (s : RecView) × (own.new.recs.items ≡ own.old.recs.items ++ s ∷ []) × HasMoved r s own.old.number page.now cause }
    ensures left { room.new.recs.items ≡ remove room.old.recs.items place }
    ensures books { (room.new.book.items ≡ room.old.book.items ++ Out cause.sub ∷ []) × (own.new.book.items ≡ own.old.book.items ++ In cause.sub ∷ []) }
    ensures stands { (xs : List ModelMember) → AllStandFor (members_in room.old.group) xs
        → AllStandFor (members_in room.new.group) (wake (without_member cause.sub (wake xs))) × AllStandFor (members_in own.new.group) (wake (only_member cause.sub (wake xs))) }
    ensures woken { (xs : List ModelMember) → AllStandFor (members_in room.old.group) xs → result ≡ mask_of (woken_apart cause.sub xs) }
    ensures numbers { (room.new.number ≡ room.old.number) × (own.new.number ≡ own.old.number) }
    ensures serials { (room.new.serial ≡ room.old.serial) × (own.new.serial ≡ own.old.serial) }
{
    let news = tell(&mut room.recs, words, place);
    let here = room.check(spares.here);
    let Apart { one, rest } = room.take_out(place, cause.sub, spares.left, spares.way);
    let gone = own.come_in(words, one, spares.home, news, page, cause);
    let left = room.settle(rest);
    here | gone | left
}

// An unlink of a member of a group of three or more, once its memory is taken.
fn tell_and_leave<N: FloorName>(
    words: &SharedWords,
    pass: &mut Pass<N>,
    room: &mut Contents<N>,
    own: &mut Contents<N>,
    spares: Spares,
    client: ClientId,
    sub: SubId,
) -> Answer
    requires words { (words.now.table ≡ N.table) × (words.now.cards ≡ length N.cards) }
    requires room { InRoom (fresh_streams N.cards N.long_max) (length N.cards) room.old.serial (view_of room.old) }
    requires own { InRoom (fresh_streams N.cards N.long_max) (length N.cards) own.old.serial (view_of own.old) }
    requires here { is_member sub (numbers_of (members_in room.old.group)) ≡ true }
    requires three { 3 ≤ length (members_in room.old.group) }
    requires home { (own.old.number ≡ sub.0) × (own.old.number < 16) × (members_in own.old.group ≡ []) }
    requires by { IsBy pass.old.caller (unlink_by client sub) }
    requires calls { length pass.old.knows.calls < 2 ^ 64 - 1 }
    requires spare { AllHaveRoom room.old.recs.items }
    requires spares { members_in spares.way ≡ [] }
    requires lines { (vec_len room.old.book < vec_capacity room.old.book) × (vec_len own.old.book < vec_capacity own.old.book) × (vec_len own.old.recs < vec_capacity own.old.recs) }
    ensures left { (xs : List ModelMember) → IsIn (fresh_streams N.cards N.long_max) (length N.cards) room.old.serial (view_of room.old) xs
        → OnDone result (λ reply receipt woken. IsLeaving (unlink_by client sub) pass.old.knows (view_of room.old) (view_of room.new) (view_of own.old) (view_of own.new) xs reply woken) }
    ensures members { (xs : List ModelMember) → IsIn (fresh_streams N.cards N.long_max) (length N.cards) room.old.serial (view_of room.old) xs
        → OnDone result (λ reply receipt woken. IsIn (fresh_streams N.cards N.long_max) (length N.cards) room.new.serial (view_of room.new) (left_by reply sub xs) × IsIn (fresh_streams N.cards N.long_max) (length N.cards) own.new.serial (view_of own.new) (gone_home reply sub xs)) }
    ensures pass { OnDone result (λ reply receipt woken. Knows N.cards N.long_max (unlink_by client sub) 0 reply receipt pass.old pass.new) }
    ensures receipt { OnDone result (λ reply receipt woken. (receipt.sub ≡ sub) × (receipt.index ≡ length (log_in sub room.old.recs.items))) }
    ensures numbers { (room.new.number ≡ room.old.number) × (own.new.number ≡ own.old.number) }
    ensures done { OnFull result (λ sub count. ⊥) × OnMemory result ⊥ }
{
    moves();
    links();
    leave_waiting();
    let place = place_of(&room.recs, sub);
    let told = tell_unlink(words, pass, room, place, client, sub);
    let reply = told.reply;
    let receipt = told.receipt;
    if !is_ok(reply) {
        return Answer::Done {
            reply,
            receipt,
            woken: 0,
        };
    }
    let woken = leave(words, room, own, place, spares, &told.page, receipt);
    Answer::Done {
        reply,
        receipt,
        woken,
    }
}

/// An unlink of a member of a group of three or more, as `unlink_from_group` says.
pub(crate) fn unlink_one<N: FloorName>(
    words: &SharedWords,
    pass: &mut Pass<N>,
    room: &mut Contents<N>,
    own: &mut Contents<N>,
    client: ClientId,
    sub: SubId,
) -> Answer
    requires words { (words.now.table ≡ N.table) × (words.now.cards ≡ length N.cards) }
    requires room { InRoom (fresh_streams N.cards N.long_max) (length N.cards) room.old.serial (view_of room.old) }
    requires own { InRoom (fresh_streams N.cards N.long_max) (length N.cards) own.old.serial (view_of own.old) }
    requires here { is_member sub (numbers_of (members_in room.old.group)) ≡ true }
    requires three { 3 ≤ length (members_in room.old.group) }
    requires home { (own.old.number ≡ sub.0) × (own.old.number < 16) × (members_in own.old.group ≡ []) }
    requires by { IsBy pass.old.caller (unlink_by client sub) }
    ensures room { InRoom (fresh_streams N.cards N.long_max) (length N.cards) room.new.serial (view_of room.new) }
    ensures own { InRoom (fresh_streams N.cards N.long_max) (length N.cards) own.new.serial (view_of own.new) }
    ensures left { (xs : List ModelMember) → IsIn (fresh_streams N.cards N.long_max) (length N.cards) room.old.serial (view_of room.old) xs
        → OnDone result (λ reply receipt woken. IsLeaving (unlink_by client sub) pass.old.knows (view_of room.old) (view_of room.new) (view_of own.old) (view_of own.new) xs reply woken) }
    ensures members { (xs : List ModelMember) → IsIn (fresh_streams N.cards N.long_max) (length N.cards) room.old.serial (view_of room.old) xs
        → OnDone result (λ reply receipt woken. IsIn (fresh_streams N.cards N.long_max) (length N.cards) room.new.serial (view_of room.new) (left_by reply sub xs) × IsIn (fresh_streams N.cards N.long_max) (length N.cards) own.new.serial (view_of own.new) (gone_home reply sub xs)) }
    ensures pass { OnDone result (λ reply receipt woken. Knows N.cards N.long_max (unlink_by client sub) 0 reply receipt pass.old pass.new) }
    ensures receipt { OnDone result (λ reply receipt woken. (receipt.sub ≡ sub) × (receipt.index ≡ length (log_in sub room.old.recs.items))) }
    ensures numbers { (room.new.number ≡ room.old.number) × (own.new.number ≡ own.old.number) }
    ensures refused { OnFull result (λ sub count. (k : ℕ) × IsRefused k room.old.recs.items room.new.recs.items pass.old pass.new sub count) }
    ensures full { (k : ℕ) → IsFull k room.old.recs.items → OnDone result (λ reply receipt woken. ⊥) × OnMemory result ⊥ }
    ensures unchanged { OnFull result (λ sub count. (room.new.group ≡ room.old.group) × (room.new.book.items ≡ room.old.book.items) × (own.new ≡ own.old)) }
    ensures memory { OnMemory result ((knows_of room.new.recs.items ≡ knows_of room.old.recs.items) × (room.new.book.items ≡ room.old.book.items) × (pass.new ≡ pass.old)) }
    ensures kept { OnMemory result ((room.new.group ≡ room.old.group) × (own.new.group ≡ own.old.group) × (own.new.book.items ≡ own.old.book.items)) }
{
    if let Some(place) = full(&room.recs) {
        return refuse(&mut room.recs, words, pass, place);
    }
    match prepare_to_leave(room, own, pass) {
        Some(spares) => tell_and_leave(words, pass, room, own, spares, client, sub),
        None => Answer::Memory,
    }
}
