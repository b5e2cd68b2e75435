// The groups of the declared substreams.
ghost use Rattle.std.specs.Prelude.{◌≡◌, ◌≢◌, ◌<◌, ◌≤◌, ◌↔◌, ◌++◌, ◌∷◌, ◌^◌, [], ℕ, List, None, Some, OnOk, OnErr, IfOk, IfSome, IsTrue, MatchOption, OnSome, insert, length, nat_lt, remove, slice_get, true, false, vec_capacity};
ghost use Rattle.std.specs.Option.{ForSome, is_none, option_map, option_to_list};
ghost use Rattle.pcm_base.specs.declared.ids.SubId.{SubId as SubIdOf};
ghost use Rattle.pcm_base.specs.declared.reply.Reply.TheVariants.{Memory};
ghost use Rattle.pcm_base.specs.Shape.{IsSoundShape};
ghost use Rattle.pcm_base.specs.model.Allowed.{shape_of};
ghost use Rattle.pcm_base.specs.model.Frame.{bytes_of};
ghost use Rattle.pcm_base.specs.model.Group.{group_step, stream_of};
ghost use Rattle.pcm_base.specs.model.Replay.{is_member};
ghost use Rattle.pcm_base.specs.model.Sleep.{mask_of, wake, woken};
ghost use Rattle.pcm_base.specs.model.Stream.{Member as ModelMember, fresh};
ghost use Rattle.pcm_base.specs.model.World.{group_of, holds, lone as lone_of, with_group};
ghost use Rattle.card_emul.specs.Limits.{limits_of};
ghost use Rattle.pcm_stream.specs.Members.{all_differ, members_of, numbers_of};
ghost use Rattle.pcm_stream.specs.MembersStand.{AllStandFor, MemberStandsFor};
ghost use Rattle.pcm_stream.specs.StandsFor.{IsShapeOf, StandsFor};
ghost use Rattle.pcm_group.specs.Bytes.{HasLength, bytes_left};
ghost use Rattle.pcm_group.specs.Lent.{Loads, is_lent_call};
ghost use Rattle.pcm_group.specs.Stepped.{IsTurn};
ghost use Rattle.pcm_group.specs.Inside.{members_in};
ghost use Rattle.pcm_group.specs.Turn.{caller, is_card_event, is_group_call};
ghost use Rattle.pcm_world.specs.Bytes.{shape_for as shape_for_layout};
ghost use Rattle.pcm_world.specs.Calls.{stream_at};
ghost use Rattle.pcm_world.specs.Groups.{all_numbers, place_in, numbers_in, AreFreeFor, AreNumbers, ArePlaces, AreReadyToLink, GroupsStand, IsLinked, linked, linked_woken, numbers_at, taken_of, unlinked, unlinked_woken};

use card_emul::AnyCard;
use link_group::{join_members, leave_member};
use pcm_base::{Card, Dir, Event, Layout, Model, Shape, State, SubId};
use pcm_group::{Group, Turn};
use pcm_stream::{Member, Members, Substream};
use sleepers::Sleepers;
use std::alloc::{AllocError, Global};

// The place of the group that has a substream.
fn place_of(groups: &[Group<AnyCard>], sub: SubId) -> Option<usize>
    ensures { result ≡ place_in sub (numbers_in groups.now) }
{
    for i in 0..groups.len() {
        if groups[i].holds(sub) {
            return Some(i);
        }
    }
    None
}

// A member's substream.
fn stream_of_member(members: &Members<AnyCard>, sub: SubId) -> Option<&Substream<AnyCard>>
    ensures { (xs : List ModelMember) → AllStandFor (members_of members.now) xs
        → MatchOption result (holds sub xs ≡ false) (λ s. (holds sub xs ≡ true) × StandsFor s.now (stream_of sub xs)) }
{
    for i in 0..members.len() {
        if members.at(i).sub.0 == sub.0 {
            return Some(&members.at(i).stream);
        }
    }
    None
}

// The place of each substream's group.
fn places_of(groups: &[Group<AnyCard>]) -> [Option<usize>; 16]
    ensures { ArePlaces result (numbers_in groups.now) }
{
    let mut places = [None; 16];
    for k in 0..16 {
        places[k] = place_of(groups, SubId(k as u8));
    }
    places
}

// A member that no client has opened, with a card of this model.
fn fresh_member(alloc: Global, sub: SubId, model: Model, dir: Dir, long_max: u64) -> Member<AnyCard>
    requires long { long_max < 2 ^ 36 }
    ensures sub { result.sub ≡ sub }
    ensures stands { MemberStandsFor result (record { sub = sub; stream = fresh (limits_of model) dir long_max; asleep = [] }) }
{
    let card = AnyCard::new(alloc, model, dir);
    Member {
        sub,
        stream: Substream::new(alloc, card, dir, long_max),
        sleepers: Sleepers::new(),
    }
}

// The place of the group that has a declared substream.
fn place_of_declared(groups: &[Group<AnyCard>], sub: SubId) -> usize
    requires { is_member sub (numbers_at sub (numbers_in groups.now)) ≡ true }
    ensures { place_in sub (numbers_in groups.now) ≡ Some result }
{
    place_of(groups, sub).unwrap_or(0)
}

// Takes a group out and apart. The wake check of its members would wake nobody, and leaves them as they are.
fn take_out(groups: &mut Vec<Group<AnyCard>>, place: usize) -> Members<AnyCard>
    requires { place < length groups.old.items }
    ensures items { groups.new.items ≡ remove groups.old.items place }
    ensures room { vec_capacity groups.new ≡ vec_capacity groups.old }
    ensures members { (x : _) → slice_get groups.old.items place ≡ Some x → members_of result ≡ members_in x }
    ensures distinct { all_differ (numbers_of (members_of result)) ≡ true }
    ensures stands { (ms : List ModelMember) → AllStandFor (members_of result) ms → AllStandFor (members_of result) (wake ms) }
    ensures nobody { (ms : List ModelMember) → AllStandFor (members_of result) ms → woken ms ≡ [] }
{
    let group = groups.remove(place);
    // that who is marked asleep may wait is said where the members are seen
    let _ = group.members();
    group.into_members()
}

// Puts a group in before those that stand from this place on. There is room.
fn put_in(groups: &mut Vec<Group<AnyCard>>, place: usize, group: Group<AnyCard>)
    requires place { place ≤ length groups.old.items }
    requires room { length groups.old.items < vec_capacity groups.old }
    ensures items { groups.new.items ≡ insert groups.old.items place group }
    ensures room { vec_capacity groups.new ≡ vec_capacity groups.old }
{
    let _ = groups.insert(place, group);
}

// The others that a member leaves, with the one that was taken out too.
fn with_alone(mut others: Members<AnyCard>, alone: Option<Member<AnyCard>>) -> Members<AnyCard>
    requires { OnSome alone (members_of others ≡ []) }
    ensures { members_of result ≡ option_to_list alone ++ members_of others }
{
    if let Some(member) = alone {
        others.add(member);
    }
    others
}

/// The groups of the declared substreams, and the place of each substream's group. No two members have one number.
#[derive(Drop)]
pub(crate) struct Groups {
    alloc: Global,
    items: Vec<Group<AnyCard>>,
    places: [Option<usize>; 16],
    ghost placed: { ArePlaces places (numbers_in items.items) },
    ghost numbered: { AreNumbers (numbers_in items.items) },
}

impl Groups {
    /// No substream is declared.
    pub(crate) fn new(alloc: Global) -> Groups
        ensures { result.items.items ≡ [] }
    {
        Groups {
            alloc,
            items: Vec::new(alloc),
            places: [None; 16],
        }
    }

    /// The place of a substream's group.
    pub(crate) fn find(&self, sub: SubId) -> Option<usize>
        requires { sub.0 < 16 }
        ensures { result ≡ place_in sub (numbers_in self.now.items.items) }
    {
        self.places[sub.0 as usize]
    }

    /// A substream in a group of its own.
    pub(crate) fn declare(
        &mut self,
        sub: SubId,
        model: Model,
        dir: Dir,
        long_max: u64,
    ) -> Result<(), AllocError>
        requires number { sub.0 < 16 }
        requires new { place_in sub (numbers_in self.old.items.items) ≡ None }
        requires long { long_max < 2 ^ 36 }
        ensures declared { (xs : List (List ModelMember)) → GroupsStand self.old.items.items xs
            → OnOk result (GroupsStand self.new.items.items (xs ++ lone_of sub (limits_of model) dir long_max ∷ [])) }
        ensures taken { (k : SubIdOf) → OnOk result (taken_of k self.new.items.items ≡ taken_of k self.old.items.items) }
        ensures same { OnErr result (self.new.items.items ≡ self.old.items.items) }
    {
        let mut members = Members::new(self.alloc)?;
        self.items.reserve(1)?;
        members.add(fresh_member(self.alloc, sub, model, dir, long_max));
        let (group, _) = Group::of(members);
        self.items.push_reserved(group);
        self.places = places_of(&self.items);
        Ok(())
    }

    /// Whether no substream is declared.
    pub(crate) fn is_empty(&self) -> bool
        ensures { IsTrue result ↔ (self.now.items.items ≡ []) }
    {
        self.items.is_empty()
    }

    /// A substream; None exactly where it is not declared.
    pub(crate) fn substream(&self, sub: SubId) -> Option<&Substream<AnyCard>>
        requires { sub.0 < 16 }
        ensures { (xs : List (List ModelMember)) → GroupsStand self.now.items.items xs
            → MatchOption result (group_of sub xs ≡ []) (λ s. (holds sub (group_of sub xs) ≡ true) × StandsFor s.now (stream_of sub (group_of sub xs))) }
    {
        let place = self.find(sub)?;
        stream_of_member(self.items[place].members(), sub)
    }

    /// The state, CLOSED where the substream is not declared.
    pub(crate) fn state(&self, sub: SubId) -> State
        requires { sub.0 < 16 }
        ensures { (xs : List (List ModelMember)) → GroupsStand self.now.items.items xs → result ≡ (stream_of sub (group_of sub xs)).state }
    {
        match self.substream(sub) {
            Some(stream) => stream.state(),
            None => State::Closed,
        }
    }

    /// The direction, that of playback where the substream is not declared.
    pub(crate) fn dir(&self, sub: SubId) -> Dir
        requires { sub.0 < 16 }
        ensures { (xs : List (List ModelMember)) → GroupsStand self.now.items.items xs → result ≡ (stream_of sub (group_of sub xs)).dir }
    {
        match self.substream(sub) {
            Some(stream) => stream.dir(),
            None => Dir::Playback,
        }
    }

    /// What a substream's card has taken.
    pub(crate) fn taken(&self, sub: SubId) -> &[u8]
        requires { sub.0 < 16 }
        ensures { (xs : List (List ModelMember)) → GroupsStand self.now.items.items xs → result.now ≡ bytes_of (stream_of sub (group_of sub xs)).card.taken }
    {
        match self.substream(sub) {
            Some(stream) => stream.card().taken(),
            None => &[],
        }
    }

    /// The sizes of a substream's configuration, where it has one.
    pub(crate) fn shape(&self, sub: SubId) -> Option<Shape>
        requires { sub.0 < 16 }
        ensures model { (xs : List (List ModelMember)) → GroupsStand self.now.items.items xs → result ≡ option_map (λ c. shape_of c (stream_at sub xs).long_max) (stream_at sub xs).setup.config }
        ensures frames { (xs : List (List ModelMember)) → GroupsStand self.now.items.items xs → IfSome result (IsShapeOf (stream_at sub xs)) }
        ensures sound { IfSome result IsSoundShape }
    {
        match self.substream(sub) {
            Some(stream) => stream.shape().copied(),
            None => None,
        }
    }

    /// The sizes by which bytes of a substream are read that lie so; None where nothing is read.
    pub(crate) fn shape_for(&self, sub: SubId, layout: Option<Layout>) -> Option<Shape>
        requires { sub.0 < 16 }
        ensures model { (xs : List (List ModelMember)) → GroupsStand self.now.items.items xs → result ≡ shape_for_layout layout (option_map (λ c. shape_of c (stream_at sub xs).long_max) (stream_at sub xs).setup.config) }
        ensures sound { IfSome result IsSoundShape }
    {
        match layout {
            Some(_) => self.shape(sub),
            None => None,
        }
    }

    /// Whether a substream stands in a group of two or more.
    pub(crate) fn is_linked(&self, sub: SubId) -> bool
        requires { sub.0 < 16 }
        ensures { (xs : List (List ModelMember)) → GroupsStand self.now.items.items xs → result ≡ nat_lt 1 (length (group_of sub xs)) }
    {
        match self.find(sub) {
            Some(place) => self.items[place].members().len() > 1,
            None => false,
        }
    }

    /// One event of the group at this place: the step of the model on it.
    pub(crate) fn step(&mut self, place: usize, event: &Event, io: &mut [u8]) -> Turn
        requires place { place_in event.now.sub (numbers_in self.old.items.items) ≡ Some place }
        requires call { is_group_call event.now.call ≡ true }
        requires caller { is_card_event event.now.call ≡ is_none event.now.client }
        requires client { ForSome event.now.client (λ c. c.0 ≤ 15) }
        requires free { ∥ ((xs : List (List ModelMember)) × GroupsStand self.old.items.items xs × ForSome event.now.client (λ c. AreFreeFor event.now.call event.now.sub c (group_of event.now.sub xs))) ∥₁ }
        requires length { (xs : List (List ModelMember)) → GroupsStand self.old.items.items xs → HasLength event.now.call io.old (stream_at event.now.sub xs) }
        ensures turn { (xs : List (List ModelMember)) → GroupsStand self.old.items.items xs → result.reply ≢ Memory
            → IsTurn event.now.call (group_step event.now.call (caller event.now) event.now.sub io.old (group_of event.now.sub xs)) result }
        ensures stands { (xs : List (List ModelMember)) → GroupsStand self.old.items.items xs → result.reply ≢ Memory
            → GroupsStand self.new.items.items (with_group event.now.sub (group_step event.now.call (caller event.now) event.now.sub io.old (group_of event.now.sub xs)).members xs) }
        ensures memory { (xs : List (List ModelMember)) → GroupsStand self.old.items.items xs → result.reply ≡ Memory → GroupsStand self.new.items.items xs }
        ensures loaded { (xs : List (List ModelMember)) → GroupsStand self.old.items.items xs → Loads event.now.call (stream_at event.now.sub xs) result.reply io.old io.new }
        ensures bytes { (xs : List (List ModelMember)) → GroupsStand self.old.items.items xs → result.reply ≢ Memory → is_lent_call event.now.call ≡ false
            → io.new ≡ bytes_left event.now.call (caller event.now) (stream_at event.now.sub xs) (group_step event.now.call (caller event.now) event.now.sub io.old (group_of event.now.sub xs)).answer io.old }
        ensures kept { result.reply ≡ Memory → io.new ≡ io.old }
    {
        self.items[place].step(event, io)
    }

    /// The second substream, which stands alone, joins at the end of the group of the first. Gives the mask of the clients that
    /// the wake check marks awake: client i is bit i. No memory.
    pub(crate) fn link(&mut self, first: SubId, second: SubId) -> u16
        requires first { first.0 < 16 }
        requires second { second.0 < 16 }
        requires apart { first.0 ≢ second.0 }
        requires ready { AreReadyToLink first second (numbers_in self.old.items.items) }
        ensures stands { (xs : List (List ModelMember)) → GroupsStand self.old.items.items xs → GroupsStand self.new.items.items (linked first second xs) }
        ensures woken { (xs : List (List ModelMember)) → GroupsStand self.old.items.items xs → result ≡ mask_of (linked_woken first second xs) }
        ensures streams { (xs : List (List ModelMember)) → GroupsStand self.old.items.items xs
            → (k : SubIdOf) → stream_of k (group_of k (linked first second xs)) ≡ stream_of k (group_of k xs) }
        ensures taken { (xs : List (List ModelMember)) → GroupsStand self.old.items.items xs
            → (k : SubIdOf) → taken_of k self.new.items.items ≡ taken_of k self.old.items.items }
    {
        let from = place_of_declared(&self.items, second);
        let mut lone = take_out(&mut self.items, from);
        let to = place_of_declared(&self.items, first);
        let mut members = take_out(&mut self.items, to);
        join_members(&mut members, &mut lone);
        let (group, woken) = Group::of(members);
        put_in(&mut self.items, to, group);
        self.places = places_of(&self.items);
        woken
    }

    /// A substream leaves its group of two or more, for one of its own before the others'. Gives the mask of the clients that
    /// the wake check marks awake.
    pub(crate) fn unlink(&mut self, sub: SubId) -> Result<u16, AllocError>
        requires number { sub.0 < 16 }
        requires linked { IsLinked sub (numbers_in self.old.items.items) }
        ensures stands { (xs : List (List ModelMember)) → GroupsStand self.old.items.items xs → OnOk result (GroupsStand self.new.items.items (unlinked sub xs)) }
        ensures woken { (xs : List (List ModelMember)) → GroupsStand self.old.items.items xs → IfOk result (λ mask. mask ≡ mask_of (unlinked_woken sub xs)) }
        ensures streams { (xs : List (List ModelMember)) → GroupsStand self.old.items.items xs
            → (k : SubIdOf) → OnOk result (stream_of k (group_of k (unlinked sub xs)) ≡ stream_of k (group_of k xs)) }
        ensures taken { (xs : List (List ModelMember)) → GroupsStand self.old.items.items xs
            → (k : SubIdOf) → OnOk result (taken_of k self.new.items.items ≡ taken_of k self.old.items.items) }
        ensures same { OnErr result (self.new.items.items ≡ self.old.items.items) }
    {
        let mut one = Members::new(self.alloc)?;
        self.items.reserve(1)?;
        let place = place_of_declared(&self.items, sub);
        let mut others = take_out(&mut self.items, place);
        let left = leave_member(&mut others, sub);
        one.add(left.gone);
        let (one, woken_here) = Group::of(one);
        let (others, woken_there) = Group::of(with_alone(others, left.alone));
        put_in(&mut self.items, place, others);
        put_in(&mut self.items, place, one);
        self.places = places_of(&self.items);
        Ok(woken_here | woken_there)
    }
}
