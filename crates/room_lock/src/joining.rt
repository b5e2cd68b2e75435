// Links of substreams of two rooms, one of which holds a group: the second joins the group of the first, or both stay.
ghost use Rattle.std.specs.Prelude.{◌≡◌, ◌⊎◌, ◌≤◌, ◌<◌, ◌+◌, ◌-◌, ◌^◌, ◌∷◌, ◌++◌, [], ℕ, List, true, false, nat_le, length, slice_get, vec_len, vec_capacity, IfSome, Some};
ghost use Rattle.floor_rule.specs.Causes.{Causes};
ghost use Rattle.floor_rule.specs.declared.entry.Entry.TheVariants.{Moved as MovedEntry};
ghost use Rattle.floor_rule.specs.declared.rule.Marked.{Marked};
ghost use Rattle.pcm_base.specs.model.Group.{stream_of};
ghost use Rattle.pcm_base.specs.model.Replay.{is_member};
ghost use Rattle.pcm_base.specs.model.Sleep.{mask_of, wake, woken};
ghost use Rattle.pcm_base.specs.model.Stream.{Member as ModelMember};
ghost use Rattle.pcm_group.specs.Inside.{members_in};
ghost use Rattle.pcm_stream.specs.Members.{numbers_of};
ghost use Rattle.pcm_stream.specs.MembersStand.{AllStandFor};
ghost use Rattle.room_book.specs.Rooms.{fresh_streams};
ghost use Rattle.room_book.specs.declared.book.BookEntry.TheVariants.{In, Out};
ghost use Rattle.room_parts.specs.Passes.{IsBy};
ghost use Rattle.room_parts.specs.Recs.{RecView, sub_of, subs_of};
ghost use Rattle.room_lock.specs.Answers.{OnDone, OnFull, OnMemory, log_in};
ghost use Rattle.room_lock.specs.InRoom.{InRoom, IsIn};
ghost use Rattle.room_lock.specs.Inside.{view_of};
ghost use Rattle.room_lock.specs.Joined.{HasRoom, HoldsAt};
ghost use Rattle.room_lock.specs.Joining.{IsJoining, joined_by};
ghost use Rattle.room_lock.specs.Known.{Knows};
ghost use Rattle.room_lock.specs.Linked.{HasLinked, HasMoved, IsToldAt, link_by, link_of};
ghost use Rattle.room_lock.specs.Met.{stay};
ghost use Rattle.room_lock.specs.Ready.{knows_of};
ghost use Rattle.room_lock.specs.Recorded.{AllHaveRoom};
ghost use Rattle.room_lock.specs.Refused.{AreFull, AreRefused};

use crate::answer::Answer;
use crate::contents::{Contents, place_of};
use crate::linking::{is_ok, linked, record_link};
use crate::members::page_at;
use crate::moving::checked;
use crate::ready::full;
use crate::recording::{Receipt, count_at};
use crate::recs::tell;
use crate::refusing::refuse;
use card_emul::AnyCard;
use floor_rule::SharedWords;
use pcm_base::{ClientId, Page, SubId};
use pcm_group::Group;
use pcm_laws::waiting::steps as leave_waiting;
use room_book::laws::{links, moves};
use room_parts::{FloorName, Linked, Pass};

/// Groups without members, for those that are checked, go out and come in.
#[derive(Drop)]
pub(crate) struct Spares {
    here: Group<AnyCard>,
    there: Group<AnyCard>,
    both: Group<AnyCard>,
}

// A link that is told in the logs of two members: what it found and answered, the page of each, and where its entry stands.
#[derive(Drop)]
struct LinkTold {
    link: Linked,
    one: Page,
    two: Page,
    receipt: Receipt,
}

// Takes what memory a link may want: None where there is none, or where the caller has made as many calls as it can number.
fn prepare_to_join<N: FloorName>(
    first: &mut Contents<N>,
    second: &mut Contents<N>,
    pass: &Pass<N>,
) -> Option<Spares>
    ensures first { (knows_of first.new.recs.items ≡ knows_of first.old.recs.items) × (first.new.book.items ≡ first.old.book.items) × (first.new.group ≡ first.old.group) × (first.new.number ≡ first.old.number) × (first.new.serial ≡ first.old.serial) }
    ensures second { (knows_of second.new.recs.items ≡ knows_of second.old.recs.items) × (second.new.book.items ≡ second.old.book.items) × (second.new.group ≡ second.old.group) × (second.new.number ≡ second.old.number) × (second.new.serial ≡ second.old.serial) }
    ensures spares { IfSome result (λ s. members_in s.there ≡ []) }
    ensures spare { IfSome result (λ s. ((i : ℕ) (r : RecView) → slice_get first.new.recs.items i ≡ Some r → 3 ≤ r.spare) × ((i : ℕ) (r : RecView) → slice_get second.new.recs.items i ≡ Some r → 3 ≤ r.spare)) }
    ensures lines { IfSome result (λ s. (vec_len first.new.book < vec_capacity first.new.book) × (vec_len first.new.recs < vec_capacity first.new.recs) × (vec_len second.new.book < vec_capacity second.new.book)) }
    ensures calls { IfSome result (λ s. length pass.now.knows.calls < 2 ^ 64 - 1) }
{
    if pass.calls() == u64::MAX {
        return None;
    }
    let here = first.make_room().ok()?;
    let there = second.make_room().ok()?;
    let both = first.make_room().ok()?;
    Some(Spares { here, there, both })
}

// The entry of a link in the logs of the members at two places of two rooms, as the pass's next call.
fn tell_link<N: FloorName>(
    words: &SharedWords,
    pass: &mut Pass<N>,
    first: &mut Contents<N>,
    own: usize,
    second: &mut Contents<N>,
    other: usize,
    client: ClientId,
    from: SubId,
    to: SubId,
) -> LinkTold
    requires words { (words.now.table ≡ N.table) × (words.now.cards ≡ length N.cards) }
    requires places { (own < length first.old.recs.items) × (other < length second.old.recs.items) }
    requires first { (numbers_of (members_in first.old.group) ≡ subs_of first.old.recs.items) × HoldsAt (λ r. (sub_of r ≡ from) × (r.knows.sub < length N.cards)) own first.old.recs.items }
    requires second { (numbers_of (members_in second.old.group) ≡ subs_of second.old.recs.items) × HoldsAt (λ r. sub_of r ≡ to) other second.old.recs.items }
    requires by { IsBy pass.old.caller (link_by client from to) }
    requires calls { length pass.old.knows.calls < 2 ^ 64 - 1 }
    requires room { HoldsAt (HasRoom 3) own first.old.recs.items × HoldsAt (HasRoom 3) other second.old.recs.items }
    ensures link { result.link ≡ link_of client from to result.one.state result.two.state (nat_le 16 second.old.number) }
    ensures first { (xs : List ModelMember) → AllStandFor (members_in first.old.group) xs → IsToldAt own from result.link result.one xs first.old.recs.items first.new.recs.items pass.old.knows }
    ensures second { (ys : List ModelMember) → AllStandFor (members_in second.old.group) ys → IsToldAt other to result.link result.two ys second.old.recs.items second.new.recs.items pass.old.knows }
    ensures linked { HasLinked own result.link result.receipt first.old.recs.items first.new.recs.items pass.old pass.new }
    ensures low { result.two.hw < 2 ^ 36 }
    ensures first_same { (first.new.group ≡ first.old.group) × (first.new.book.items ≡ first.old.book.items) × (first.new.number ≡ first.old.number) × (first.new.serial ≡ first.old.serial) }
    ensures second_same { (second.new.group ≡ second.old.group) × (second.new.book.items ≡ second.old.book.items) × (second.new.number ≡ second.old.number) × (second.new.serial ≡ second.old.serial) }
    ensures books { (first.new.book ≡ first.old.book) × (second.new.book ≡ second.old.book) }
    ensures lines { (vec_len first.new.recs ≡ vec_len first.old.recs) × (vec_capacity first.new.recs ≡ vec_capacity first.old.recs) }
{
    let one = page_at(first.group.members(), own);
    let two = page_at(second.group.members(), other);
    let is_in_group = second.number >= 16;
    let link = linked(client, from, to, one.state, two.state, is_in_group);
    let index = count_at(&first.recs, own);
    record_link(
        words,
        pass,
        &mut first.recs,
        own,
        &mut second.recs,
        other,
        &link,
        &one,
        &two,
    );
    LinkTold {
        link,
        one,
        two,
        receipt: Receipt { sub: from, index },
    }
}

// The only member of the second room moves behind those of the first, with the wake checks of a link: the clients that they
// mark awake, client i as bit i. The link's entry stands at the receipt, in the log of the member at a place of the first.
fn join<N: FloorName>(
    words: &SharedWords,
    first: &mut Contents<N>,
    own: usize,
    second: &mut Contents<N>,
    spares: Spares,
    page: &Page,
    cause: Receipt,
) -> u16
    requires table { words.now.table ≡ N.table }
    requires number { first.old.number < 32 }
    requires own { own < length first.old.recs.items }
    requires cause { HoldsAt (λ r. (r.knows.sub ≡ cause.sub.0) × (r.knows.sub < length N.cards) × ((c : Marked) × (slice_get r.knows.log cause.index ≡ Some c) × Causes c.entry (MovedEntry first.old.number))) own first.old.recs.items }
    requires second { (q : RecView) × (second.old.recs.items ≡ q ∷ []) × (numbers_of (members_in second.old.group) ≡ sub_of q ∷ []) × HasRoom 1 q × (is_member (sub_of q) (numbers_of (members_in first.old.group)) ≡ false) }
    requires seat { length (members_in first.old.group) < 16 }
    requires spares { members_in spares.there ≡ [] }
    requires lines { (vec_len first.old.book < vec_capacity first.old.book) × (vec_len first.old.recs < vec_capacity first.old.recs) × (vec_len second.old.book < vec_capacity second.old.book) }
    requires low { page.now.hw < 2 ^ 36 }
    ensures recs { (q : RecView) → second.old.recs.items ≡ q ∷ [] → (t : RecView) × (first.new.recs.items ≡ first.old.recs.items ++ t ∷ []) × HasMoved q t first.old.number page.now cause }
    ensures books { (q : RecView) → second.old.recs.items ≡ q ∷ [] → (first.new.book.items ≡ first.old.book.items ++ In (sub_of q) ∷ []) × (second.new.book.items ≡ second.old.book.items ++ Out (sub_of q) ∷ []) }
    ensures gone { (second.new.recs.items ≡ []) × (members_in second.new.group ≡ []) }
    ensures stands { (xs ys : List ModelMember) → AllStandFor (members_in first.old.group) xs → AllStandFor (members_in second.old.group) ys → AllStandFor (members_in first.new.group) (wake (wake xs ++ wake ys)) }
    ensures woken { (xs ys : List ModelMember) → AllStandFor (members_in first.old.group) xs → AllStandFor (members_in second.old.group) ys → result ≡ mask_of (woken xs ++ woken ys ++ woken (wake xs ++ wake ys)) }
    ensures numbers { (first.new.number ≡ first.old.number) × (second.new.number ≡ second.old.number) }
    ensures serials { (first.new.serial ≡ first.old.serial) × (second.new.serial ≡ second.old.serial) }
{
    let news = tell(&mut first.recs, words, own);
    let here = first.check(spares.here);
    let (mover, there) = checked(second.go_out(spares.there));
    let both = first.come_in(words, mover, spares.both, news, page, cause);
    here | there | both
}

// A link of members of two rooms, one of which holds a group, once its memory is taken.
fn tell_and_join<N: FloorName>(
    words: &SharedWords,
    pass: &mut Pass<N>,
    first: &mut Contents<N>,
    second: &mut Contents<N>,
    spares: Spares,
    client: ClientId,
    from: SubId,
    to: SubId,
) -> Answer
    requires words { (words.now.table ≡ N.table) × (words.now.cards ≡ length N.cards) }
    requires cards { length N.cards ≤ 16 }
    requires first { InRoom (fresh_streams N.cards N.long_max) (length N.cards) first.old.serial (view_of first.old) }
    requires second { InRoom (fresh_streams N.cards N.long_max) (length N.cards) second.old.serial (view_of second.old) }
    requires here { (is_member from (numbers_of (members_in first.old.group)) ≡ true) × (is_member to (numbers_of (members_in second.old.group)) ≡ true) }
    requires apart { is_member to (numbers_of (members_in first.old.group)) ≡ false }
    requires group { (16 ≤ first.old.number) ⊎ (16 ≤ second.old.number) }
    requires there { first.old.number < 32 }
    requires by { IsBy pass.old.caller (link_by client from to) }
    requires calls { length pass.old.knows.calls < 2 ^ 64 - 1 }
    requires room { AllHaveRoom first.old.recs.items × AllHaveRoom second.old.recs.items }
    requires spares { members_in spares.there ≡ [] }
    requires lines { (vec_len first.old.book < vec_capacity first.old.book) × (vec_len first.old.recs < vec_capacity first.old.recs) × (vec_len second.old.book < vec_capacity second.old.book) }
    ensures joined { (xs ys : List ModelMember) → IsIn (fresh_streams N.cards N.long_max) (length N.cards) first.old.serial (view_of first.old) xs → IsIn (fresh_streams N.cards N.long_max) (length N.cards) second.old.serial (view_of second.old) ys
        → OnDone result (λ reply receipt woken. IsJoining (link_of client from to (stream_of from xs).state (stream_of to ys).state (nat_le 16 second.old.number)) pass.old.knows (view_of first.old) (view_of first.new) (view_of second.old) (view_of second.new) xs ys reply woken) }
    ensures members { (xs ys : List ModelMember) → IsIn (fresh_streams N.cards N.long_max) (length N.cards) first.old.serial (view_of first.old) xs → IsIn (fresh_streams N.cards N.long_max) (length N.cards) second.old.serial (view_of second.old) ys
        → OnDone result (λ reply receipt woken. IsIn (fresh_streams N.cards N.long_max) (length N.cards) first.new.serial (view_of first.new) (joined_by reply xs ys) × IsIn (fresh_streams N.cards N.long_max) (length N.cards) second.new.serial (view_of second.new) (stay reply ys)) }
    ensures pass { OnDone result (λ reply receipt woken. Knows N.cards N.long_max (link_by client from to) 0 reply receipt pass.old pass.new) }
    ensures receipt { OnDone result (λ reply receipt woken. (receipt.sub ≡ from) × (receipt.index ≡ length (log_in from first.old.recs.items))) }
    ensures numbers { (first.new.number ≡ first.old.number) × (second.new.number ≡ second.old.number) }
    ensures done { OnFull result (λ sub count. ⊥) × OnMemory result ⊥ }
{
    moves();
    links();
    leave_waiting();
    let own = place_of(&first.recs, from);
    let other = place_of(&second.recs, to);
    let told = tell_link(words, pass, first, own, second, other, client, from, to);
    let reply = told.link.reply;
    let receipt = told.receipt;
    if !is_ok(reply) {
        return Answer::Done {
            reply,
            receipt,
            woken: 0,
        };
    }
    let woken = join(words, first, own, second, spares, &told.two, receipt);
    Answer::Done {
        reply,
        receipt,
        woken,
    }
}

/// A link of members of two rooms, one of which holds a group, as `link_to_group` says.
pub(crate) fn link_groups<N: FloorName>(
    words: &SharedWords,
    pass: &mut Pass<N>,
    first: &mut Contents<N>,
    second: &mut Contents<N>,
    client: ClientId,
    from: SubId,
    to: SubId,
) -> Answer
    requires words { (words.now.table ≡ N.table) × (words.now.cards ≡ length N.cards) }
    requires cards { length N.cards ≤ 16 }
    requires first { InRoom (fresh_streams N.cards N.long_max) (length N.cards) first.old.serial (view_of first.old) }
    requires second { InRoom (fresh_streams N.cards N.long_max) (length N.cards) second.old.serial (view_of second.old) }
    requires here { (is_member from (numbers_of (members_in first.old.group)) ≡ true) × (is_member to (numbers_of (members_in second.old.group)) ≡ true) }
    requires apart { is_member to (numbers_of (members_in first.old.group)) ≡ false }
    requires group { (16 ≤ first.old.number) ⊎ (16 ≤ second.old.number) }
    requires there { first.old.number < 32 }
    requires by { IsBy pass.old.caller (link_by client from to) }
    ensures first { InRoom (fresh_streams N.cards N.long_max) (length N.cards) first.new.serial (view_of first.new) }
    ensures second { InRoom (fresh_streams N.cards N.long_max) (length N.cards) second.new.serial (view_of second.new) }
    ensures joined { (xs ys : List ModelMember) → IsIn (fresh_streams N.cards N.long_max) (length N.cards) first.old.serial (view_of first.old) xs → IsIn (fresh_streams N.cards N.long_max) (length N.cards) second.old.serial (view_of second.old) ys
        → OnDone result (λ reply receipt woken. IsJoining (link_of client from to (stream_of from xs).state (stream_of to ys).state (nat_le 16 second.old.number)) pass.old.knows (view_of first.old) (view_of first.new) (view_of second.old) (view_of second.new) xs ys reply woken) }
    ensures members { (xs ys : List ModelMember) → IsIn (fresh_streams N.cards N.long_max) (length N.cards) first.old.serial (view_of first.old) xs → IsIn (fresh_streams N.cards N.long_max) (length N.cards) second.old.serial (view_of second.old) ys
        → OnDone result (λ reply receipt woken. IsIn (fresh_streams N.cards N.long_max) (length N.cards) first.new.serial (view_of first.new) (joined_by reply xs ys) × IsIn (fresh_streams N.cards N.long_max) (length N.cards) second.new.serial (view_of second.new) (stay reply ys)) }
    ensures pass { OnDone result (λ reply receipt woken. Knows N.cards N.long_max (link_by client from to) 0 reply receipt pass.old pass.new) }
    ensures receipt { OnDone result (λ reply receipt woken. (receipt.sub ≡ from) × (receipt.index ≡ length (log_in from first.old.recs.items))) }
    ensures numbers { (first.new.number ≡ first.old.number) × (second.new.number ≡ second.old.number) }
    ensures refused { OnFull result (λ sub count. AreRefused first.old.recs.items first.new.recs.items second.old.recs.items second.new.recs.items pass.old pass.new sub count) }
    ensures full { AreFull first.old.recs.items second.old.recs.items → OnDone result (λ reply receipt woken. ⊥) × OnMemory result ⊥ }
    ensures unchanged { OnFull result (λ sub count. (first.new.group ≡ first.old.group) × (second.new.group ≡ second.old.group) × (first.new.book.items ≡ first.old.book.items) × (second.new.book.items ≡ second.old.book.items)) }
    ensures memory { OnMemory result ((knows_of first.new.recs.items ≡ knows_of first.old.recs.items) × (knows_of second.new.recs.items ≡ knows_of second.old.recs.items) × (pass.new ≡ pass.old)) }
    ensures kept { OnMemory result ((first.new.group ≡ first.old.group) × (second.new.group ≡ second.old.group) × (first.new.book.items ≡ first.old.book.items) × (second.new.book.items ≡ second.old.book.items)) }
{
    if let Some(place) = full(&first.recs) {
        return refuse(&mut first.recs, words, pass, place);
    }
    if let Some(place) = full(&second.recs) {
        return refuse(&mut second.recs, words, pass, place);
    }
    match prepare_to_join(first, second, pass) {
        Some(spares) => tell_and_join(words, pass, first, second, spares, client, from, to),
        None => Answer::Memory,
    }
}
