// Unlinks that part a group of two: both go home.
ghost use Rattle.std.specs.Prelude.{◌≡◌, ◌≢◌, ◌≤◌, ◌<◌, ◌+◌, ◌-◌, ◌^◌, ◌∷◌, ◌++◌, [], ℕ, List, true, false, length, slice_get, vec_len, vec_capacity, IfSome, Some};
ghost use Rattle.floor_rule.specs.Causes.{Causes};
ghost use Rattle.floor_rule.specs.declared.entry.Entry.TheVariants.{Moved as MovedEntry};
ghost use Rattle.floor_rule.specs.declared.rule.Marked.{Marked};
ghost use Rattle.pcm_base.specs.model.Replay.{is_member};
ghost use Rattle.pcm_base.specs.model.Sleep.{mask_of, wake};
ghost use Rattle.pcm_base.specs.model.Stream.{Member as ModelMember};
ghost use Rattle.pcm_base.specs.model.World.{only_member, without_member};
ghost use Rattle.pcm_group.specs.Inside.{members_in};
ghost use Rattle.pcm_stream.specs.Members.{numbers_of};
ghost use Rattle.pcm_stream.specs.MembersStand.{AllStandFor};
ghost use Rattle.room_book.specs.Rooms.{fresh_streams};
ghost use Rattle.room_book.specs.declared.book.BookEntry.TheVariants.{In, Out};
ghost use Rattle.room_parts.specs.Passes.{IsBy};
ghost use Rattle.room_parts.specs.Recs.{RecView, sub_of, subs_of};
ghost use Rattle.room_lock.specs.Answers.{OnDone, OnFull, OnMemory, log_in};
ghost use Rattle.room_lock.specs.InRoom.{InRoom, IsIn};
ghost use Rattle.room_lock.specs.Inside.{view_of};
ghost use Rattle.room_lock.specs.Joined.{HasRoom, HoldsAt};
ghost use Rattle.room_lock.specs.Known.{Knows};
ghost use Rattle.room_lock.specs.Linked.{HasMoved};
ghost use Rattle.room_lock.specs.Met.{stay};
ghost use Rattle.room_lock.specs.Leaving.{gone_home, woken_apart};
ghost use Rattle.room_lock.specs.Parting.{IsParting, at_home, left_home};
ghost use Rattle.room_lock.specs.Ready.{IsFull, knows_of};
ghost use Rattle.room_lock.specs.Recorded.{AllHaveRoom};
ghost use Rattle.room_lock.specs.Refused.{IsRefused};
ghost use Rattle.room_lock.specs.Staying.{unlink_by};

use crate::answer::Answer;
use crate::contents::{Contents, place_of};
use crate::linking::is_ok;
use crate::members::page_at;
use crate::moving::Apart;
use crate::ready::full;
use crate::recording::Receipt;
use crate::recs::tell;
use crate::refusing::refuse;
use crate::unlinking::tell_unlink;
use card_emul::AnyCard;
use floor_rule::SharedWords;
use pcm_base::{ClientId, Page, SubId};
use pcm_group::Group;
use pcm_laws::waiting::steps as leave_waiting;
use room_book::laws::{links, moves};
use room_parts::{FloorName, Pass};

/// Groups without members: for the check of the two, for the room that they leave, for the one named on its way, and for each
/// room that one comes into.
#[derive(Drop)]
pub(crate) struct Spares {
    here: Group<AnyCard>,
    left: Group<AnyCard>,
    way: Group<AnyCard>,
    one_home: Group<AnyCard>,
    other_home: Group<AnyCard>,
}

// Takes what memory an unlink may want: None where there is none, or where the caller has made as many calls as it can number.
fn prepare_to_part<N: FloorName>(
    room: &mut Contents<N>,
    own: &mut Contents<N>,
    other: &mut Contents<N>,
    pass: &Pass<N>,
) -> Option<Spares>
    ensures room { (knows_of room.new.recs.items ≡ knows_of room.old.recs.items) × (room.new.book.items ≡ room.old.book.items) × (room.new.group ≡ room.old.group) × (room.new.number ≡ room.old.number) × (room.new.serial ≡ room.old.serial) }
    ensures own { (knows_of own.new.recs.items ≡ knows_of own.old.recs.items) × (own.new.book.items ≡ own.old.book.items) × (own.new.group ≡ own.old.group) × (own.new.number ≡ own.old.number) × (own.new.serial ≡ own.old.serial) }
    ensures other { (knows_of other.new.recs.items ≡ knows_of other.old.recs.items) × (other.new.book.items ≡ other.old.book.items) × (other.new.group ≡ other.old.group) × (other.new.number ≡ other.old.number) × (other.new.serial ≡ other.old.serial) }
    ensures spares { IfSome result (λ s. (members_in s.left ≡ []) × (members_in s.way ≡ [])) }
    ensures spare { IfSome result (λ s. (i : ℕ) (r : RecView) → slice_get room.new.recs.items i ≡ Some r → 3 ≤ r.spare) }
    ensures lines { IfSome result (λ s. (vec_len room.new.book + 2 ≤ vec_capacity room.new.book) × (vec_len own.new.book < vec_capacity own.new.book) × (vec_len own.new.recs < vec_capacity own.new.recs) × (vec_len other.new.book < vec_capacity other.new.book) × (vec_len other.new.recs < vec_capacity other.new.recs)) }
    ensures calls { IfSome result (λ s. length pass.now.knows.calls < 2 ^ 64 - 1) }
{
    if pass.calls() == u64::MAX {
        return None;
    }
    let here = room.make_room().ok()?;
    let left = room.make_room().ok()?;
    let way = own.make_room().ok()?;
    let one_home = own.make_room().ok()?;
    let other_home = other.make_room().ok()?;
    Some(Spares {
        here,
        left,
        way,
        one_home,
        other_home,
    })
}

// The two members of a room go home, that of the rec at a place first, with the wake checks of an unlink: the clients that they
// mark awake, client i as bit i. The unlink's entry stands at the receipt, in the log of the first.
fn part<N: FloorName>(
    words: &SharedWords,
    room: &mut Contents<N>,
    own: &mut Contents<N>,
    other: &mut Contents<N>,
    place: usize,
    spares: Spares,
    page: &Page,
    left: &Page,
    cause: Receipt,
) -> u16
    requires table { words.now.table ≡ N.table }
    requires two { length room.old.recs.items ≡ 2 }
    requires place { place < 2 }
    requires sub { HoldsAt (λ r. sub_of r ≡ cause.sub) place room.old.recs.items }
    requires members { numbers_of (members_in room.old.group) ≡ subs_of room.old.recs.items }
    requires homes { (own.old.number < 32) × (other.old.number < 32) }
    requires cause { HoldsAt (λ r. (r.knows.sub < length N.cards) × ((c : Marked) × (slice_get r.knows.log cause.index ≡ Some c) × Causes c.entry (MovedEntry own.old.number) × Causes c.entry (MovedEntry other.old.number))) place room.old.recs.items }
    requires room { HoldsAt (HasRoom 1) place room.old.recs.items × HoldsAt (HasRoom 1) (1 - place) room.old.recs.items }
    requires empty { (members_in own.old.group ≡ []) × (members_in other.old.group ≡ []) }
    requires spares { (members_in spares.left ≡ []) × (members_in spares.way ≡ []) }
    requires lines { (vec_len room.old.book + 2 ≤ vec_capacity room.old.book) × (vec_len own.old.book < vec_capacity own.old.book) × (vec_len own.old.recs < vec_capacity own.old.recs) × (vec_len other.old.book < vec_capacity other.old.book) × (vec_len other.old.recs < vec_capacity other.old.recs) }
    requires low { (page.now.hw < 2 ^ 36) × (left.now.hw < 2 ^ 36) }
    ensures recs { (r q : RecView) → slice_get room.old.recs.items place ≡ Some r → slice_get room.old.recs.items (1 - place) ≡ Some q
        → (s t : RecView) × (own.new.recs.items ≡ own.old.recs.items ++ s ∷ []) × (other.new.recs.items ≡ other.old.recs.items ++ t ∷ []) × HasMoved r s own.old.number page.now cause × HasMoved q t other.old.number left.now cause }
    ensures books { (q : RecView) → slice_get room.old.recs.items (1 - place) ≡ Some q
        → (room.new.book.items ≡ room.old.book.items ++ Out cause.sub ∷ Out (sub_of q) ∷ []) × (own.new.book.items ≡ own.old.book.items ++ In cause.sub ∷ []) × (other.new.book.items ≡ other.old.book.items ++ In (sub_of q) ∷ []) }
    ensures gone { (room.new.recs.items ≡ []) × (members_in room.new.group ≡ []) }
    ensures stands { (xs : List ModelMember) → AllStandFor (members_in room.old.group) xs
        → AllStandFor (members_in own.new.group) (wake (only_member cause.sub (wake xs))) × AllStandFor (members_in other.new.group) (wake (without_member cause.sub (wake xs))) }
    ensures woken { (xs : List ModelMember) → AllStandFor (members_in room.old.group) xs → result ≡ mask_of (woken_apart cause.sub xs) }
    ensures numbers { (room.new.number ≡ room.old.number) × (own.new.number ≡ own.old.number) × (other.new.number ≡ other.old.number) }
    ensures serials { (room.new.serial ≡ room.old.serial) × (own.new.serial ≡ own.old.serial) × (other.new.serial ≡ other.old.serial) }
{
    let news = tell(&mut room.recs, words, place);
    let copy = tell(&mut room.recs, words, place);
    let here = room.check(spares.here);
    let Apart { one, rest } = room.take_out(place, cause.sub, spares.left, spares.way);
    let last = room.last_out(rest);
    let gone = own.come_in(words, one, spares.one_home, news, page, cause);
    let alone = other.come_in(words, last, spares.other_home, copy, left, cause);
    here | gone | alone
}

// An unlink of a member of a group of two, once its memory is taken.
fn tell_and_part<N: FloorName>(
    words: &SharedWords,
    pass: &mut Pass<N>,
    room: &mut Contents<N>,
    own: &mut Contents<N>,
    other: &mut Contents<N>,
    spares: Spares,
    client: ClientId,
    sub: SubId,
) -> Answer
    requires words { (words.now.table ≡ N.table) × (words.now.cards ≡ length N.cards) }
    requires room { InRoom (fresh_streams N.cards N.long_max) (length N.cards) room.old.serial (view_of room.old) }
    requires own { InRoom (fresh_streams N.cards N.long_max) (length N.cards) own.old.serial (view_of own.old) }
    requires other { InRoom (fresh_streams N.cards N.long_max) (length N.cards) other.old.serial (view_of other.old) }
    requires here { (is_member sub (numbers_of (members_in room.old.group)) ≡ true) × (length (members_in room.old.group) ≡ 2) }
    requires homes { (own.old.number ≡ sub.0) × (is_member (at_home (view_of other.old)) (numbers_of (members_in room.old.group)) ≡ true) × (other.old.number ≢ sub.0) }
    requires low { (own.old.number < 16) × (other.old.number < 16) }
    requires empty { (members_in own.old.group ≡ []) × (members_in other.old.group ≡ []) }
    requires by { IsBy pass.old.caller (unlink_by client sub) }
    requires calls { length pass.old.knows.calls < 2 ^ 64 - 1 }
    requires spare { AllHaveRoom room.old.recs.items }
    requires spares { (members_in spares.left ≡ []) × (members_in spares.way ≡ []) }
    requires lines { (vec_len room.old.book + 2 ≤ vec_capacity room.old.book) × (vec_len own.old.book < vec_capacity own.old.book) × (vec_len own.old.recs < vec_capacity own.old.recs) × (vec_len other.old.book < vec_capacity other.old.book) × (vec_len other.old.recs < vec_capacity other.old.recs) }
    ensures parted { (xs : List ModelMember) → IsIn (fresh_streams N.cards N.long_max) (length N.cards) room.old.serial (view_of room.old) xs
        → OnDone result (λ reply receipt woken. IsParting (unlink_by client sub) pass.old.knows (view_of room.old) (view_of room.new) (view_of own.old) (view_of own.new) (view_of other.old) (view_of other.new) xs reply woken) }
    ensures members { (xs : List ModelMember) → IsIn (fresh_streams N.cards N.long_max) (length N.cards) room.old.serial (view_of room.old) xs
        → OnDone result (λ reply receipt woken. IsIn (fresh_streams N.cards N.long_max) (length N.cards) room.new.serial (view_of room.new) (stay reply xs) × IsIn (fresh_streams N.cards N.long_max) (length N.cards) own.new.serial (view_of own.new) (gone_home reply sub xs) × IsIn (fresh_streams N.cards N.long_max) (length N.cards) other.new.serial (view_of other.new) (left_home reply sub xs)) }
    ensures pass { OnDone result (λ reply receipt woken. Knows N.cards N.long_max (unlink_by client sub) 0 reply receipt pass.old pass.new) }
    ensures receipt { OnDone result (λ reply receipt woken. (receipt.sub ≡ sub) × (receipt.index ≡ length (log_in sub room.old.recs.items))) }
    ensures numbers { (room.new.number ≡ room.old.number) × (own.new.number ≡ own.old.number) × (other.new.number ≡ other.old.number) }
    ensures done { OnFull result (λ sub count. ⊥) × OnMemory result ⊥ }
{
    moves();
    links();
    leave_waiting();
    let place = place_of(&room.recs, sub);
    let told = tell_unlink(words, pass, room, place, client, sub);
    let reply = told.reply;
    let receipt = told.receipt;
    if !is_ok(reply) {
        return Answer::Done {
            reply,
            receipt,
            woken: 0,
        };
    }
    let left = page_at(room.group.members(), 1 - place);
    let woken = part(
        words, room, own, other, place, spares, &told.page, &left, receipt,
    );
    Answer::Done {
        reply,
        receipt,
        woken,
    }
}

/// An unlink of a member of a group of two, as `unlink_rooms` says.
pub(crate) fn unlink_pair<N: FloorName>(
    words: &SharedWords,
    pass: &mut Pass<N>,
    room: &mut Contents<N>,
    own: &mut Contents<N>,
    other: &mut Contents<N>,
    client: ClientId,
    sub: SubId,
) -> Answer
    requires words { (words.now.table ≡ N.table) × (words.now.cards ≡ length N.cards) }
    requires room { InRoom (fresh_streams N.cards N.long_max) (length N.cards) room.old.serial (view_of room.old) }
    requires own { InRoom (fresh_streams N.cards N.long_max) (length N.cards) own.old.serial (view_of own.old) }
    requires other { InRoom (fresh_streams N.cards N.long_max) (length N.cards) other.old.serial (view_of other.old) }
    requires here { (is_member sub (numbers_of (members_in room.old.group)) ≡ true) × (length (members_in room.old.group) ≡ 2) }
    requires homes { (own.old.number ≡ sub.0) × (is_member (at_home (view_of other.old)) (numbers_of (members_in room.old.group)) ≡ true) × (other.old.number ≢ sub.0) }
    requires low { (own.old.number < 16) × (other.old.number < 16) }
    requires empty { (members_in own.old.group ≡ []) × (members_in other.old.group ≡ []) }
    requires by { IsBy pass.old.caller (unlink_by client sub) }
    ensures room { InRoom (fresh_streams N.cards N.long_max) (length N.cards) room.new.serial (view_of room.new) }
    ensures own { InRoom (fresh_streams N.cards N.long_max) (length N.cards) own.new.serial (view_of own.new) }
    ensures other { InRoom (fresh_streams N.cards N.long_max) (length N.cards) other.new.serial (view_of other.new) }
    ensures parted { (xs : List ModelMember) → IsIn (fresh_streams N.cards N.long_max) (length N.cards) room.old.serial (view_of room.old) xs
        → OnDone result (λ reply receipt woken. IsParting (unlink_by client sub) pass.old.knows (view_of room.old) (view_of room.new) (view_of own.old) (view_of own.new) (view_of other.old) (view_of other.new) xs reply woken) }
    ensures members { (xs : List ModelMember) → IsIn (fresh_streams N.cards N.long_max) (length N.cards) room.old.serial (view_of room.old) xs
        → OnDone result (λ reply receipt woken. IsIn (fresh_streams N.cards N.long_max) (length N.cards) room.new.serial (view_of room.new) (stay reply xs) × IsIn (fresh_streams N.cards N.long_max) (length N.cards) own.new.serial (view_of own.new) (gone_home reply sub xs) × IsIn (fresh_streams N.cards N.long_max) (length N.cards) other.new.serial (view_of other.new) (left_home reply sub xs)) }
    ensures pass { OnDone result (λ reply receipt woken. Knows N.cards N.long_max (unlink_by client sub) 0 reply receipt pass.old pass.new) }
    ensures receipt { OnDone result (λ reply receipt woken. (receipt.sub ≡ sub) × (receipt.index ≡ length (log_in sub room.old.recs.items))) }
    ensures numbers { (room.new.number ≡ room.old.number) × (own.new.number ≡ own.old.number) × (other.new.number ≡ other.old.number) }
    ensures refused { OnFull result (λ sub count. (k : ℕ) × IsRefused k room.old.recs.items room.new.recs.items pass.old pass.new sub count) }
    ensures full { (k : ℕ) → IsFull k room.old.recs.items → OnDone result (λ reply receipt woken. ⊥) × OnMemory result ⊥ }
    ensures unchanged { OnFull result (λ sub count. (room.new.group ≡ room.old.group) × (room.new.book.items ≡ room.old.book.items) × (own.new ≡ own.old) × (other.new ≡ other.old)) }
    ensures memory { OnMemory result ((knows_of room.new.recs.items ≡ knows_of room.old.recs.items) × (room.new.book.items ≡ room.old.book.items) × (pass.new ≡ pass.old)) }
    ensures kept { OnMemory result ((room.new.group ≡ room.old.group) × (own.new.group ≡ own.old.group) × (other.new.group ≡ other.old.group) × (own.new.book.items ≡ own.old.book.items) × (other.new.book.items ≡ other.old.book.items)) }
{
    if let Some(place) = full(&room.recs) {
        return refuse(&mut room.recs, words, pass, place);
    }
    match prepare_to_part(room, own, other, pass) {
        Some(spares) => tell_and_part(words, pass, room, own, other, spares, client, sub),
        None => Answer::Memory,
    }
}
