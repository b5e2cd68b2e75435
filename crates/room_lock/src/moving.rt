// Members that go out of a room and come into another, with their recs (the rest of the type: `contents.rt`).
ghost use Rattle.std.specs.Prelude.{◌≡◌, ◌≤◌, ◌<◌, ◌^◌, ◌∷◌, ◌++◌, ◌+◌, [], List, Some, true, false, length, remove, slice_get, vec_len, vec_capacity, IfOk};
ghost use Rattle.std.specs.Option.{option_to_list, OnSome};
ghost use Rattle.floor_rule.specs.Causes.{Causes};
ghost use Rattle.floor_rule.specs.Lists.{Stands};
ghost use Rattle.floor_rule.specs.declared.entry.Entry.TheVariants.{Moved as MovedEntry};
ghost use Rattle.floor_rule.specs.declared.rule.Marked.{Marked};
ghost use Rattle.pcm_base.specs.model.Replay.{is_member};
ghost use Rattle.pcm_base.specs.model.Sleep.{mask_of, wake, woken};
ghost use Rattle.pcm_base.specs.model.Stream.{Member as ModelMember};
ghost use Rattle.pcm_base.specs.model.World.{only_member, without_member};
ghost use Rattle.pcm_group.specs.Inside.{members_in};
ghost use Rattle.pcm_stream.specs.Members.{all_differ, members_of, numbers_of};
ghost use Rattle.pcm_stream.specs.MembersStand.{AllStandFor};
ghost use Rattle.room_book.specs.declared.book.BookEntry.TheVariants.{In, Out};
ghost use Rattle.room_parts.specs.Recs.{RecView, sub_of, subs_of};
ghost use Rattle.room_lock.specs.Joined.{HasRoom, HoldsAt};
ghost use Rattle.room_lock.specs.Linked.{HasMoved};
ghost use Rattle.room_lock.specs.Ready.{SpareTo, knows_of};

use crate::contents::Contents;
use crate::ready::reserve_all;
use crate::recording::Receipt;
use card_emul::AnyCard;
use floor_rule::{Note, SharedWords};
use link_group::{Left, join_members, leave_member};
use pcm_base::{Page, SubId};
use pcm_group::Group;
use pcm_stream::{Member, Members};
use room_book::BookEntry;
use room_parts::{FloorName, Rec};
use std::alloc::AllocError;
use std::mem;

/// A member on its way from room to room, with its rec.
#[derive(Drop)]
pub(crate) struct Mover<N: FloorName> {
    pub(crate) members: Members<AnyCard>,
    pub(crate) rec: Rec<N>,
}

/// One of a group on its way, with its rec, and the others, whose recs stay.
#[derive(Drop)]
pub(crate) struct Apart<N: FloorName> {
    pub(crate) one: Mover<N>,
    pub(crate) rest: Members<AnyCard>,
}

// The others of a group that one has left, and with whom one that was left alone was taken out too.
fn back(mut members: Members<AnyCard>, alone: Option<Member<AnyCard>>) -> Members<AnyCard>
    requires none { OnSome alone (members_of members ≡ []) }
    requires distinct { all_differ (numbers_of (members_of members)) ≡ true }
    ensures members { members_of result ≡ option_to_list alone ++ members_of members }
    ensures distinct { all_differ (numbers_of (members_of result)) ≡ true }
{
    match alone {
        Some(member) => {
            members.add(member);
            members
        }
        None => members,
    }
}

/// The wake check of a member on its way, and the clients that it marks awake, client i as bit i.
pub(crate) fn checked<N: FloorName>(mover: Mover<N>) -> (Mover<N>, u16)
    requires distinct { all_differ (numbers_of (members_of mover.members)) ≡ true }
    ensures rec { result.0.rec ≡ mover.rec }
    ensures numbers { numbers_of (members_of result.0.members) ≡ numbers_of (members_of mover.members) }
    ensures stands { (ys : List ModelMember) → AllStandFor (members_of mover.members) ys → AllStandFor (members_of result.0.members) (wake ys) }
    ensures woken { (ys : List ModelMember) → AllStandFor (members_of mover.members) ys → result.1 ≡ mask_of (woken ys) }
{
    let Mover { members, rec } = mover;
    let (group, woken) = Group::of(members);
    let members = group.into_members();
    (Mover { members, rec }, woken)
}

impl<N: FloorName> Contents<N> {
    /// The wake check of the members, and the clients that it marks awake, client i as bit i.
    pub(crate) fn check(&mut self, spare: Group<AnyCard>) -> u16
        ensures stands { (xs : List ModelMember) → AllStandFor (members_in self.old.group) xs → AllStandFor (members_in self.new.group) (wake xs) }
        ensures woken { (xs : List ModelMember) → AllStandFor (members_in self.old.group) xs → result ≡ mask_of (woken xs) }
        ensures numbers { numbers_of (members_in self.new.group) ≡ numbers_of (members_in self.old.group) }
        ensures same { (self.new.recs ≡ self.old.recs) × (self.new.book ≡ self.old.book) × (self.new.number ≡ self.old.number) × (self.new.serial ≡ self.old.serial) }
        ensures lines { (vec_len self.new.recs ≡ vec_len self.old.recs) × (vec_capacity self.new.recs ≡ vec_capacity self.old.recs) × (vec_len self.new.book ≡ vec_len self.old.book) × (vec_capacity self.new.book ≡ vec_capacity self.old.book) }
    {
        let members = mem::replace(&mut self.group, spare).into_members();
        let (group, woken) = Group::of(members);
        self.group = group;
        woken
    }

    /// Makes room for three more entries in each log, for three more lines of the book and for two more members, and gives a
    /// group without members.
    pub(crate) fn make_room(&mut self) -> Result<Group<AnyCard>, AllocError>
        ensures group { IfOk result (λ spare. members_in spare ≡ []) }
        ensures recs { knows_of self.new.recs.items ≡ knows_of self.old.recs.items }
        ensures spare { IfOk result (λ spare. SpareTo (length self.new.recs.items) self.new.recs.items) }
        ensures lines { IfOk result (λ spare. (vec_len self.new.recs + 2 ≤ vec_capacity self.new.recs) × (vec_len self.new.book + 3 ≤ vec_capacity self.new.book)) }
        ensures same { (self.new.book.items ≡ self.old.book.items) × (self.new.group ≡ self.old.group) × (self.new.number ≡ self.old.number) × (self.new.serial ≡ self.old.serial) }
    {
        reserve_all(&mut self.recs)?;
        self.recs.reserve(2)?;
        self.book.reserve(3)?;
        let (spare, _) = Group::of(Members::new(self.alloc)?);
        Ok(spare)
    }

    /// The only member goes out, with its rec. Nobody stands in the room then.
    pub(crate) fn go_out(&mut self, spare: Group<AnyCard>) -> Mover<N>
        requires one { length self.old.recs.items ≡ 1 }
        requires line { vec_len self.old.book < vec_capacity self.old.book }
        requires spare { members_in spare ≡ [] }
        ensures rec { self.old.recs.items ≡ result.rec ∷ [] }
        ensures members { members_of result.members ≡ members_in self.old.group }
        ensures distinct { all_differ (numbers_of (members_of result.members)) ≡ true }
        ensures empty { (self.new.recs.items ≡ []) × (members_in self.new.group ≡ []) }
        ensures book { self.new.book.items ≡ self.old.book.items ++ Out (sub_of result.rec) ∷ [] }
        ensures number { (self.new.number ≡ self.old.number) × (self.new.serial ≡ self.old.serial) }
    {
        let rec = self.recs.remove(0);
        self.book.push_reserved(BookEntry::Out(rec.sub()));
        let members = mem::replace(&mut self.group, spare).into_members();
        Mover { members, rec }
    }

    /// The member of the rec at a place goes out of a group of two or more, with its rec. The others are handed out too: they
    /// come back by `settle`.
    pub(crate) fn take_out(
        &mut self,
        place: usize,
        sub: SubId,
        spare: Group<AnyCard>,
        way: Group<AnyCard>,
    ) -> Apart<N>
        requires two { 2 ≤ length (members_in self.old.group) }
        requires place { place < length self.old.recs.items }
        requires sub { HoldsAt (λ r. sub_of r ≡ sub) place self.old.recs.items }
        requires members { numbers_of (members_in self.old.group) ≡ subs_of self.old.recs.items }
        requires line { vec_len self.old.book < vec_capacity self.old.book }
        requires way { members_in way ≡ [] }
        ensures rec { slice_get self.old.recs.items place ≡ Some result.one.rec }
        ensures recs { self.new.recs.items ≡ remove self.old.recs.items place }
        ensures one { (xs : List ModelMember) → AllStandFor (members_in self.old.group) xs → AllStandFor (members_of result.one.members) (only_member sub xs) }
        ensures rest { (xs : List ModelMember) → AllStandFor (members_in self.old.group) xs → AllStandFor (members_of result.rest) (without_member sub xs) }
        ensures single { length (members_of result.one.members) ≡ 1 }
        ensures number { numbers_of (members_of result.one.members) ≡ sub ∷ [] }
        ensures others { numbers_of (members_of result.rest) ≡ subs_of self.new.recs.items }
        ensures distinct { all_differ (numbers_of (members_of result.rest)) ≡ true }
        ensures group { self.new.group ≡ spare }
        ensures book { self.new.book.items ≡ self.old.book.items ++ Out sub ∷ [] }
        ensures lines { (vec_len self.new.book ≡ vec_len self.old.book + 1) × (vec_capacity self.new.book ≡ vec_capacity self.old.book) }
        ensures same { (self.new.number ≡ self.old.number) × (self.new.serial ≡ self.old.serial) }
    {
        let rec = self.recs.remove(place);
        self.book.push_reserved(BookEntry::Out(sub));
        let mut members = mem::replace(&mut self.group, spare).into_members();
        let Left { gone, alone } = leave_member(&mut members, sub);
        let mut single = way.into_members();
        single.add(gone);
        Apart {
            one: Mover {
                members: single,
                rec,
            },
            rest: back(members, alone),
        }
    }

    /// The only one that is left goes out too, with its rec.
    pub(crate) fn last_out(&mut self, rest: Members<AnyCard>) -> Mover<N>
        requires one { length self.old.recs.items ≡ 1 }
        requires line { vec_len self.old.book < vec_capacity self.old.book }
        ensures rec { self.old.recs.items ≡ result.rec ∷ [] }
        ensures members { result.members ≡ rest }
        ensures none { self.new.recs.items ≡ [] }
        ensures book { self.new.book.items ≡ self.old.book.items ++ Out (sub_of result.rec) ∷ [] }
        ensures same { (self.new.group ≡ self.old.group) × (self.new.number ≡ self.old.number) × (self.new.serial ≡ self.old.serial) }
    {
        let rec = self.recs.remove(0);
        let sub = rec.sub();
        self.book.push_reserved(BookEntry::Out(sub));
        Mover { members: rest, rec }
    }

    /// The others come back where one has gone out, and the wake check is made: the clients that it marks awake, client i as
    /// bit i.
    pub(crate) fn settle(&mut self, rest: Members<AnyCard>) -> u16
        requires distinct { all_differ (numbers_of (members_of rest)) ≡ true }
        ensures stands { (xs : List ModelMember) → AllStandFor (members_of rest) xs → AllStandFor (members_in self.new.group) (wake xs) }
        ensures woken { (xs : List ModelMember) → AllStandFor (members_of rest) xs → result ≡ mask_of (woken xs) }
        ensures same { (self.new.recs ≡ self.old.recs) × (self.new.book ≡ self.old.book) × (self.new.number ≡ self.old.number) × (self.new.serial ≡ self.old.serial) }
    {
        let (group, woken) = Group::of(rest);
        self.group = group;
        woken
    }

    /// A member comes in behind the others, with its rec, and the wake check is made: the clients that it marks awake, client
    /// i as bit i. The note tells of the link or unlink at the receipt, from which the move comes.
    pub(crate) fn come_in(
        &mut self,
        words: &SharedWords,
        mover: Mover<N>,
        spare: Group<AnyCard>,
        news: Note,
        page: &Page,
        cause: Receipt,
    ) -> u16
        requires table { (words.now.table ≡ N.table) × (news.table ≡ N.table) }
        requires number { self.old.number < 32 }
        requires one { length (members_of mover.members) ≡ 1 }
        requires sub { numbers_of (members_of mover.members) ≡ sub_of mover.rec ∷ [] }
        requires new { is_member (sub_of mover.rec) (numbers_of (members_in self.old.group)) ≡ false }
        requires seat { length (members_in self.old.group) < 16 }
        requires lines { (vec_len self.old.recs < vec_capacity self.old.recs) × (vec_len self.old.book < vec_capacity self.old.book) }
        requires rec { HasRoom 1 mover.rec }
        requires card { cause.sub.0 < length N.cards }
        requires low { page.now.hw < 2 ^ 36 }
        requires cause { (c : Marked) × Stands news.lists.logs cause.sub.0 cause.index c × Causes c.entry (MovedEntry self.old.number) }
        ensures rec { (s : RecView) × (self.new.recs.items ≡ self.old.recs.items ++ s ∷ []) × HasMoved mover.rec s self.old.number page.now cause }
        ensures stands { (xs ys : List ModelMember) → AllStandFor (members_in self.old.group) xs → AllStandFor (members_of mover.members) ys → AllStandFor (members_in self.new.group) (wake (xs ++ ys)) }
        ensures woken { (xs ys : List ModelMember) → AllStandFor (members_in self.old.group) xs → AllStandFor (members_of mover.members) ys → result ≡ mask_of (woken (xs ++ ys)) }
        ensures book { self.new.book.items ≡ self.old.book.items ++ In (sub_of mover.rec) ∷ [] }
        ensures numbers { numbers_of (members_in self.new.group) ≡ numbers_of (members_in self.old.group) ++ sub_of mover.rec ∷ [] }
        ensures lines { (vec_capacity self.new.recs ≡ vec_capacity self.old.recs) × (vec_capacity self.new.book ≡ vec_capacity self.old.book) }
        ensures number { (self.new.number ≡ self.old.number) × (self.new.serial ≡ self.old.serial) }
    {
        let Mover {
            mut members,
            mut rec,
        } = mover;
        self.book.push_reserved(BookEntry::In(rec.sub()));
        rec.move_to(
            words,
            news,
            self.number,
            page.state,
            page.hw,
            cause.sub,
            cause.index,
        );
        self.recs.push_reserved(rec);
        let mut all = mem::replace(&mut self.group, spare).into_members();
        join_members(&mut all, &mut members);
        let (group, woken) = Group::of(all);
        self.group = group;
        woken
    }
}
