// What an event of a member leaves in the logs, the book and the caller's pass.
ghost use Rattle.std.specs.Prelude.{◌≡◌, ◌<◌, ◌≤◌, ◌+◌, ◌-◌, ◌^◌, ◌++◌, ℕ, List, length, map, slice_get, Some, true, vec_len, vec_capacity};
ghost use Rattle.floor_rule.specs.Causes.{Tells};
ghost use Rattle.pcm_base.specs.model.Stream.{Member as ModelMember};
ghost use Rattle.pcm_stream.specs.Members.{all_differ, members_of, numbers_of};
ghost use Rattle.pcm_stream.specs.MembersStand.{AllStandFor};
ghost use Rattle.room_book.specs.declared.book.BookEntry.TheVariants.{Act as Noted};
ghost use Rattle.room_parts.specs.Passes.{IsAlone, IsBy};
ghost use Rattle.room_parts.specs.Recs.{RecView, sub_of, subs_of};
ghost use Rattle.room_lock.specs.Joined.{HasRoom, HoldsAt};
ghost use Rattle.room_lock.specs.Joints.{AreVotes};
ghost use Rattle.room_lock.specs.Recorded.{AllHaveRoom, IsOwnRecorded, IsRecorded};

use crate::joints::joints;
use crate::members::page_at;
use crate::noting::note_acts;
use crate::recs::share_all;
use card_emul::AnyCard;
use floor_rule::{Entry, SharedWords};
use pcm_base::{Acted, Bytes, Event, Reply, State, SubId};
use pcm_stream::Members;
use room_book::BookEntry;
use room_parts::{FloorName, Pass, Rec, call_on};

/// Where the entry of a call stands: a substream, and a place in its log.
#[derive(Clone, Copy, Debug, PartialEq, Eq)]
pub struct Receipt {
    pub sub: SubId,
    pub index: u32,
}

/// How many entries the log of the rec at a place has.
pub(crate) fn count_at<N: FloorName>(recs: &Vec<Rec<N>>, own: usize) -> u32
    requires own { own < length recs.now.items }
    requires room { HoldsAt (HasRoom 3) own recs.now.items }
    ensures { HoldsAt (λ r. result ≡ length r.knows.log) own recs.now.items }
{
    recs[own].entries().len() as u32
}

/// The own entry of an event, as the pass's next call, at the end of the log of the rec at a place.
pub(crate) fn record_own<N: FloorName>(
    recs: &mut Vec<Rec<N>>,
    words: &SharedWords,
    pass: &mut Pass<N>,
    own: usize,
    event: &Event,
    count: u64,
    entry: Entry,
    state: State,
    hw: u64,
)
    requires table { words.now.table ≡ N.table }
    requires own { own < length recs.old.items }
    requires calls { length pass.old.knows.calls < 2 ^ 64 - 1 }
    requires room { HoldsAt (HasRoom 3) own recs.old.items }
    requires low { hw < 2 ^ 36 }
    requires tells { HoldsAt (λ r. (r.knows.sub < words.now.cards) × Tells r.knows.sub entry event.now) own recs.old.items }
    requires sub { HoldsAt (λ r. event.now.sub.0 ≡ r.knows.sub) own recs.old.items }
    requires by { IsBy pass.old.caller event.now }
    requires alone { HoldsAt (λ r. IsAlone (length N.cards) r.knows.sub event.now.call) own recs.old.items }
    ensures recorded { (r : RecView) → slice_get recs.old.items own ≡ Some r → IsOwnRecorded own event.now count entry state hw r recs.old.items recs.new.items pass.old pass.new }
{
    call_on(words, &mut recs[own], pass, event, count, entry, state, hw);
}

/// What an event of the member at a place leaves, after the group has made it: the own entry in its log with a receipt for
/// the caller, the joints of its acts in the logs of all others, and the acts in the book. The call was handed `count`
/// bytes, and moved these.
pub(crate) fn record_turn<N: FloorName>(
    members: &Members<AnyCard>,
    recs: &mut Vec<Rec<N>>,
    book: &mut Vec<BookEntry>,
    words: &SharedWords,
    pass: &mut Pass<N>,
    own: usize,
    event: &Event,
    count: u64,
    bytes: Bytes,
    reply: Reply,
    acts: &[Acted],
    number: u32,
    serial: u64,
) -> Receipt
    requires table { words.now.table ≡ N.table }
    requires cards { words.now.cards ≡ length N.cards }
    requires own { own < length recs.old.items }
    requires apart { all_differ (numbers_of (members_of members.now)) ≡ true }
    requires members { subs_of recs.old.items ≡ numbers_of (members_of members.now) }
    requires sub { HoldsAt (λ r. (r.knows.sub < length N.cards) × (sub_of r ≡ event.now.sub)) own recs.old.items }
    requires calls { length pass.old.knows.calls < 2 ^ 64 - 1 }
    requires by { IsBy pass.old.caller event.now }
    requires alone { IsAlone (length N.cards) event.now.sub.0 event.now.call }
    requires room { AllHaveRoom recs.old.items }
    requires members_few { length recs.old.items ≤ 16 }
    requires few { length acts.now ≤ 3 }
    requires voted { AreVotes (length recs.old.items) acts.now }
    requires serials { serial + length acts.now < 2 ^ 64 }
    requires lines { vec_len book.old + length acts.now ≤ vec_capacity book.old }
    ensures receipt { HoldsAt (λ r. (result.sub ≡ sub_of r) × (result.index ≡ length r.knows.log)) own recs.old.items }
    ensures recorded { (r : RecView) → slice_get recs.old.items own ≡ Some r → (xs : List ModelMember) → AllStandFor (members_of members.now) xs
        → IsRecorded xs own event.now count bytes reply acts.now number serial r recs.old.items recs.new.items pass.old pass.new }
    ensures book { book.new.items ≡ book.old.items ++ map Noted acts.now }
{
    let sub = event.sub;
    let place = count_at(recs, own);
    let page = page_at(members, own);
    let entry = Entry::Own {
        event: *event,
        bytes,
        joints: joints(acts, own, number, serial),
        reply,
        state: page.state,
    };
    record_own(
        recs, words, pass, own, event, count, entry, page.state, page.hw,
    );
    share_all(members, recs, words, own, acts, number, serial, sub, place);
    note_acts(book, acts);
    Receipt { sub, index: place }
}
