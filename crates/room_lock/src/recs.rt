// The recs of a room, one for each member of its group, in link order.
ghost use Rattle.std.specs.Prelude.{◌≡◌, ◌≢◌, ◌<◌, ◌≤◌, ◌+◌, ◌^◌, ◌∷◌, [], ℕ, List, length, slice_get, vec_len, vec_capacity, true, Some};
ghost use Rattle.floor_rule.specs.Causes.{Causes};
ghost use Rattle.floor_rule.specs.Lists.{Stands};
ghost use Rattle.floor_rule.specs.Steps.{told_by_rec};
ghost use Rattle.floor_rule.specs.declared.entry.Entry.TheVariants.{Shared as SharedEntry};
ghost use Rattle.floor_rule.specs.declared.entry.EntryMark.TheVariants.{Caused};
ghost use Rattle.floor_rule.specs.declared.rule.Marked.{Marked};
ghost use Rattle.room_parts.specs.Recs.{RecView, subs_of};
ghost use Rattle.room_lock.specs.Joined.{Gains, HasOwn, HasRoom, HoldsAt};
ghost use Rattle.room_lock.specs.Joints.{AllVoted, AreVotes, joints_at, shared_at};
ghost use Rattle.pcm_base.specs.model.Stream.{Member as ModelMember};
ghost use Rattle.pcm_stream.specs.Members.{all_differ, members_of, numbers_of};
ghost use Rattle.pcm_stream.specs.MembersStand.{AllStandFor};
ghost use Rattle.room_lock.specs.Shared.{OthersHaveRoom, SharedTo, shared_by};

use crate::joints::{joint, state_at};
use crate::members::page_at;
use card_emul::AnyCard;
use floor_rule::{Joint, Note, SharedWords};
use pcm_base::{Acted, State, SubId};
use pcm_stream::Members;
use room_parts::{FloorName, Rec};

/// A note of the log of the rec at a place, and of all that it was told.
pub(crate) fn tell<N: FloorName>(recs: &mut Vec<Rec<N>>, words: &SharedWords, i: usize) -> Note
    requires table { words.now.table ≡ N.table }
    requires place { i < length recs.old.items }
    ensures same { recs.new.items ≡ recs.old.items }
    ensures lines { (vec_len recs.new ≡ vec_len recs.old) × (vec_capacity recs.new ≡ vec_capacity recs.old) }
    ensures note { HoldsAt (λ r. result ≡ record { table = N.table; lists = told_by_rec r.knows }) i recs.old.items }
{
    recs[i].tell(words)
}

// The rec at a place gains a joint.
fn join<N: FloorName>(
    recs: &mut Vec<Rec<N>>,
    words: &SharedWords,
    other: usize,
    news: Note,
    joint: Joint,
    state: State,
    hw: u64,
    sub: SubId,
    place: u32,
)
    requires table { (words.now.table ≡ N.table) × (news.table ≡ N.table) }
    requires card { sub.0 < length N.cards }
    requires at { other < length recs.old.items }
    requires room { HoldsAt (HasRoom 1) other recs.old.items }
    requires low { hw < 2 ^ 36 }
    requires cause { (c : Marked) × Stands news.lists.logs sub.0 place c × Causes c.entry (SharedEntry joint) }
    ensures gains { Gains recs.old.items recs.new.items other (record { entry = SharedEntry joint; mark = Caused state hw sub place } ∷ []) }
{
    recs[other].join(words, news, joint, state, hw, sub, place);
}

/// The rec at a place gains the joints of the acts of an event of another member. The own entry of that event stands at this
/// place of the other's log. The state and the shown hardware position are those after the last act.
pub(crate) fn share<N: FloorName>(
    recs: &mut Vec<Rec<N>>,
    words: &SharedWords,
    own: usize,
    other: usize,
    acts: &[Acted],
    number: u32,
    serial: u64,
    last: State,
    hw: u64,
    sub: SubId,
    place: u32,
)
    requires table { words.now.table ≡ N.table }
    requires card { sub.0 < length N.cards }
    requires places { (own < length recs.old.items) × (other < length recs.old.items) × (own ≢ other) }
    requires room { HoldsAt (HasRoom 3) other recs.old.items }
    requires low { hw < 2 ^ 36 }
    requires few { length acts.now ≤ 3 }
    requires voted { AllVoted other acts.now }
    requires serials { serial + length acts.now < 2 ^ 64 }
    requires own_entry { HoldsAt (HasOwn sub.0 place (joints_at own number serial acts.now)) own recs.old.items }
    ensures gains { Gains recs.old.items recs.new.items other (shared_at other number serial acts.now last hw sub place) }
{
    for i in 0..acts.len() {
        let news = tell(recs, words, own);
        let state = state_at(acts, i, last);
        let part = joint(&acts[i], other, number, serial + i as u64);
        join(recs, words, other, news, part, state, hw, sub, place);
    }
}

/// Each rec but one gains the joints of the acts of that one's event, which the group has made.
pub(crate) fn share_all<N: FloorName>(
    members: &Members<AnyCard>,
    recs: &mut Vec<Rec<N>>,
    words: &SharedWords,
    own: usize,
    acts: &[Acted],
    number: u32,
    serial: u64,
    sub: SubId,
    place: u32,
)
    requires table { words.now.table ≡ N.table }
    requires card { sub.0 < length N.cards }
    requires own { own < length recs.old.items }
    requires apart { all_differ (numbers_of (members_of members.now)) ≡ true }
    requires members { subs_of recs.old.items ≡ numbers_of (members_of members.now) }
    requires room { OthersHaveRoom own recs.old.items }
    requires few { length acts.now ≤ 3 }
    requires voted { AreVotes (length recs.old.items) acts.now }
    requires serials { serial + length acts.now < 2 ^ 64 }
    requires own_entry { HoldsAt (HasOwn sub.0 place (joints_at own number serial acts.now)) own recs.old.items }
    ensures size { length recs.new.items ≡ length recs.old.items }
    ensures same { slice_get recs.new.items own ≡ slice_get recs.old.items own }
    ensures shared { (xs : List ModelMember) → AllStandFor (members_of members.now) xs → SharedTo (length recs.old.items) own (shared_by xs number serial acts.now sub place) recs.old.items recs.new.items }
{
    for i in 0..recs.len() {
        if i != own {
            let page = page_at(members, i);
            share(
                recs, words, own, i, acts, number, serial, page.state, page.hw, sub, place,
            );
        }
    }
}
