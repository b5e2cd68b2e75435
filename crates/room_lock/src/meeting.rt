// Two substreams that stand alone, linked: both move to an empty room.
ghost use Rattle.std.specs.Prelude.{◌≡◌, ◌≢◌, ◌≤◌, ◌<◌, ◌+◌, ◌-◌, ◌^◌, ◌∷◌, ◌++◌, [], ℕ, List, length, slice_get, vec_len, vec_capacity, IfSome, Some};
ghost use Rattle.floor_rule.specs.Causes.{Causes};
ghost use Rattle.floor_rule.specs.declared.entry.Entry.TheVariants.{Moved as MovedEntry};
ghost use Rattle.floor_rule.specs.declared.rule.Marked.{Marked};
ghost use Rattle.pcm_base.specs.model.Sleep.{mask_of, wake, woken};
ghost use Rattle.pcm_base.specs.model.Stream.{Member as ModelMember};
ghost use Rattle.pcm_group.specs.Inside.{members_in};
ghost use Rattle.pcm_stream.specs.Members.{numbers_of};
ghost use Rattle.pcm_stream.specs.MembersStand.{AllStandFor};
ghost use Rattle.room_book.specs.declared.book.BookEntry.TheVariants.{In, Out};
ghost use Rattle.room_parts.specs.Recs.{RecView, sub_of};
ghost use Rattle.room_lock.specs.Joined.{HasRoom};
ghost use Rattle.room_lock.specs.Linked.{HasMoved};
ghost use Rattle.room_lock.specs.Ready.{knows_of};

use crate::contents::Contents;
use crate::moving::checked;
use crate::recording::Receipt;
use crate::recs::tell;
use card_emul::AnyCard;
use floor_rule::SharedWords;
use pcm_base::Page;
use pcm_group::Group;
use room_parts::{FloorName, Pass};

/// Groups without members, for those that go out of their rooms.
#[derive(Drop)]
pub(crate) struct Spares {
    first: Group<AnyCard>,
    second: Group<AnyCard>,
    third: Group<AnyCard>,
    fourth: Group<AnyCard>,
}

/// Takes what memory a link may want: None where there is none, or where the caller has made as many calls as it can number.
pub(crate) fn prepare_to_meet<N: FloorName>(
    first: &mut Contents<N>,
    second: &mut Contents<N>,
    group: &mut Contents<N>,
    pass: &Pass<N>,
) -> Option<Spares>
    ensures first { (knows_of first.new.recs.items ≡ knows_of first.old.recs.items) × (first.new.book.items ≡ first.old.book.items) × (first.new.group ≡ first.old.group) × (first.new.number ≡ first.old.number) × (first.new.serial ≡ first.old.serial) }
    ensures second { (knows_of second.new.recs.items ≡ knows_of second.old.recs.items) × (second.new.book.items ≡ second.old.book.items) × (second.new.group ≡ second.old.group) × (second.new.number ≡ second.old.number) × (second.new.serial ≡ second.old.serial) }
    ensures group { (knows_of group.new.recs.items ≡ knows_of group.old.recs.items) × (group.new.book.items ≡ group.old.book.items) × (group.new.group ≡ group.old.group) × (group.new.number ≡ group.old.number) × (group.new.serial ≡ group.old.serial) }
    ensures spares { IfSome result (λ s. (members_in s.first ≡ []) × (members_in s.second ≡ []) × (members_in s.third ≡ []) × (members_in s.fourth ≡ [])) }
    ensures spare { IfSome result (λ s. ((i : ℕ) (r : RecView) → slice_get first.new.recs.items i ≡ Some r → 3 ≤ r.spare) × ((i : ℕ) (r : RecView) → slice_get second.new.recs.items i ≡ Some r → 3 ≤ r.spare)) }
    ensures lines { IfSome result (λ s. (vec_len first.new.book < vec_capacity first.new.book) × (vec_len second.new.book < vec_capacity second.new.book) × (vec_len group.new.book + 2 ≤ vec_capacity group.new.book) × (vec_len group.new.recs + 2 ≤ vec_capacity group.new.recs)) }
    ensures calls { IfSome result (λ s. length pass.now.knows.calls < 2 ^ 64 - 1) }
{
    if pass.calls() == u64::MAX {
        return None;
    }
    let one = first.make_room().ok()?;
    let two = second.make_room().ok()?;
    let three = group.make_room().ok()?;
    let four = group.make_room().ok()?;
    Some(Spares {
        first: one,
        second: two,
        third: three,
        fourth: four,
    })
}

/// The only members of two rooms move to an empty one, the first before the second, with the wake checks of a link: the
/// clients that they mark awake, client i as bit i. The link's entry stands at the receipt, in the log of the first.
pub(crate) fn meet<N: FloorName>(
    words: &SharedWords,
    first: &mut Contents<N>,
    second: &mut Contents<N>,
    group: &mut Contents<N>,
    spares: Spares,
    one: &Page,
    two: &Page,
    cause: Receipt,
) -> u16
    requires table { words.now.table ≡ N.table }
    requires number { group.old.number < 32 }
    requires first { (r : RecView) × (first.old.recs.items ≡ r ∷ []) × (numbers_of (members_in first.old.group) ≡ sub_of r ∷ []) × HasRoom 1 r × (r.knows.sub ≡ cause.sub.0) × (r.knows.sub < length N.cards)
        × ((c : Marked) × (slice_get r.knows.log cause.index ≡ Some c) × Causes c.entry (MovedEntry group.old.number)) }
    requires second { (q : RecView) × (second.old.recs.items ≡ q ∷ []) × (numbers_of (members_in second.old.group) ≡ sub_of q ∷ []) × HasRoom 1 q × (q.knows.sub ≢ cause.sub.0) }
    requires empty { (members_in group.old.group ≡ []) × (group.old.recs.items ≡ []) }
    requires spares { (members_in spares.first ≡ []) × (members_in spares.second ≡ []) }
    requires lines { (vec_len first.old.book < vec_capacity first.old.book) × (vec_len second.old.book < vec_capacity second.old.book) × (vec_len group.old.book + 2 ≤ vec_capacity group.old.book) × (vec_len group.old.recs + 2 ≤ vec_capacity group.old.recs) }
    requires low { (one.now.hw < 2 ^ 36) × (two.now.hw < 2 ^ 36) }
    ensures recs { (r q : RecView) → first.old.recs.items ≡ r ∷ [] → second.old.recs.items ≡ q ∷ []
        → (s t : RecView) × (group.new.recs.items ≡ s ∷ t ∷ []) × HasMoved r s group.old.number one.now cause × HasMoved q t group.old.number two.now cause }
    ensures books { (r q : RecView) → first.old.recs.items ≡ r ∷ [] → second.old.recs.items ≡ q ∷ []
        → (first.new.book.items ≡ first.old.book.items ++ Out (sub_of r) ∷ []) × (second.new.book.items ≡ second.old.book.items ++ Out (sub_of q) ∷ []) × (group.new.book.items ≡ group.old.book.items ++ In (sub_of r) ∷ In (sub_of q) ∷ []) }
    ensures gone { (first.new.recs.items ≡ []) × (members_in first.new.group ≡ []) × (second.new.recs.items ≡ []) × (members_in second.new.group ≡ []) }
    ensures stands { (xs ys : List ModelMember) → AllStandFor (members_in first.old.group) xs → AllStandFor (members_in second.old.group) ys → AllStandFor (members_in group.new.group) (wake (wake xs ++ wake ys)) }
    ensures woken { (xs ys : List ModelMember) → AllStandFor (members_in first.old.group) xs → AllStandFor (members_in second.old.group) ys → result ≡ mask_of (woken xs ++ woken ys ++ woken (wake xs ++ wake ys)) }
    ensures numbers { (first.new.number ≡ first.old.number) × (second.new.number ≡ second.old.number) × (group.new.number ≡ group.old.number) }
    ensures serials { (first.new.serial ≡ first.old.serial) × (second.new.serial ≡ second.old.serial) × (group.new.serial ≡ group.old.serial) }
{
    let news = tell(&mut first.recs, words, 0);
    let copy = tell(&mut first.recs, words, 0);
    let mover = first.go_out(spares.first);
    let woken = group.come_in(words, mover, spares.third, news, one, cause);
    let (mover, other) = checked(second.go_out(spares.second));
    let both = group.come_in(words, mover, spares.fourth, copy, two, cause);
    woken | other | both
}
