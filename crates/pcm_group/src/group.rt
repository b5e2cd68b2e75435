// A group, and one step of it.
ghost use Rattle.std.specs.Prelude.{◌≡◌, ◌≢◌, ◌≤◌, ◌<◌, ℕ, List, true, false, length, IfSome, Some, slice_get};
ghost use Rattle.std.specs.Option.{ForSome, is_none, option_copied, option_map};
ghost use Rattle.pcm_base.specs.declared.reply.Reply.TheVariants.{Memory};
ghost use Rattle.pcm_base.specs.model.Events.{page as page_of};
ghost use Rattle.pcm_base.specs.model.Group.{group_step, stream_of};
ghost use Rattle.pcm_base.specs.model.Replay.{is_member};
ghost use Rattle.pcm_base.specs.model.Sleep.{mask_of, wake, woken};
ghost use Rattle.pcm_base.specs.model.Stream.{Member as ModelMember};
ghost use Rattle.pcm_stream.specs.Members.{all_differ, members_of, numbers_of};
ghost use Rattle.pcm_stream.specs.MembersStand.{AllStandFor};
ghost use Rattle.pcm_stream.specs.StandsFor.{shape_in};
ghost use Rattle.pcm_group.specs.Waiting.{all_wait};

use crate::events::event as make;
use crate::turn::{Acts, Turn};
use crate::wake::wake_all;
use pcm_base::{Card, Event, Page, Shape, SubId};
use pcm_stream::Members;

/// The members of one link group (`struct snd_pcm_group`) with the calls in progress on them. No two have one number, and
/// who is marked asleep may wait.
#[derive(Drop)]
pub struct Group<C: Card> {
    members: Members<C>,
    ghost distinct: { all_differ (numbers_of (members_of members)) ≡ true },
    ghost waiting: { (xs : List ModelMember) → AllStandFor (members_of members) xs → all_wait xs ≡ true },
}

// The place of a substream, which is a member.
fn place_of<C: Card>(members: &Members<C>, sub: SubId) -> usize
    requires { is_member sub (numbers_of (members_of members.now)) ≡ true }
    ensures below { result < length (members_of members.now) }
    ensures number { slice_get (numbers_of (members_of members.now)) result ≡ Some sub }
{
    let mut i = 0;
    'places: while i + 1 < members.len() {
        if members.at(i).sub.0 == sub.0 {
            return i;
        }
        i += 1;
    }
    i
}

impl<C: Card> Group<C> {
    ghost use Rattle.pcm_base.specs.Shape.{IsSoundShape};
    ghost use Rattle.pcm_base.specs.model.Allowed.{shape_of};
    ghost use Rattle.pcm_stream.specs.Members.{all_faults};
    ghost use Rattle.group_trigger.specs.Votes.{all_tell};
    ghost use Rattle.pcm_group.specs.Built.{is_waiting_call};
    ghost use Rattle.pcm_group.specs.Bytes.{HasLength, bytes_left};
    ghost use Rattle.pcm_group.specs.Faults.{FaultsOver};
    ghost use Rattle.pcm_group.specs.Inside.{members_in};
    ghost use Rattle.pcm_group.specs.Lent.{Loads, is_lent_call, is_reading};
    ghost use Rattle.pcm_group.specs.Stepped.{IsIdle, IsStep, IsTurn, all_true};
    ghost use Rattle.pcm_group.specs.Turn.{caller, is_card_event, is_group_call, may_want_memory};
    ghost use Rattle.pcm_group.specs.Waiting.{IsFreeFor};

    /// The group of these members, whose numbers are distinct, and the mask of the clients that its first wake check marks
    /// awake: client i is bit i. No memory.
    pub fn of(mut members: Members<C>) -> (Group<C>, u16)
        requires { all_differ (numbers_of (members_of members)) ≡ true }
        ensures stands { (xs : List ModelMember) → AllStandFor (members_of members) xs → AllStandFor (members_in result.0) (wake xs) }
        ensures woken { (xs : List ModelMember) → AllStandFor (members_of members) xs → result.1 ≡ mask_of (woken xs) }
        ensures numbers { numbers_of (members_in result.0) ≡ numbers_of (members_of members) }
        ensures tells { all_tell (members_in result.0) ≡ all_tell (members_of members) }
        ensures faults { all_faults (members_in result.0) ≡ all_faults (members_of members) }
    {
        let woken = wake_all(&mut members);
        (Group { members }, woken)
    }

    /// One event of the group, with the bytes of its call: the step of the model, for each list of members that these stand
    /// for. A card that tells no fault plan may fail where it is asked, and its count of faults rises then. The client has no
    /// call in progress here, but the one that a Go names. A load leaves the frames that stand in the buffer in all of its
    /// bytes, a read what it moved at its place among them; no other event changes the bytes. `Memory` leaves all as it was.
    pub fn step(&mut self, event: &Event, io: &mut [u8]) -> Turn
        requires call { is_group_call event.now.call ≡ true }
        requires member { is_member event.now.sub (numbers_of (members_in self.old)) ≡ true }
        requires caller { is_card_event event.now.call ≡ is_none event.now.client }
        requires client { ForSome event.now.client (λ c. c.0 ≤ 15) }
        requires free { ForSome event.now.client (λ c. IsFreeFor event.now.call event.now.sub c (members_in self.old)) }
        requires length { (xs : List ModelMember) → AllStandFor (members_in self.old) xs → HasLength event.now.call io.old (stream_of event.now.sub xs) }
        ensures step { (xs : List ModelMember) → AllStandFor (members_in self.old) xs → result.reply ≢ Memory
            → IsStep (all_tell (members_in self.old)) event.now.call (caller event.now) event.now.sub io.old io.new xs result (members_in self.new) }
        ensures turn { (xs : List ModelMember) → AllStandFor (members_in self.old) xs → all_true (all_tell (members_in self.old)) ≡ true → result.reply ≢ Memory
            → IsTurn event.now.call (group_step event.now.call (caller event.now) event.now.sub io.old xs) result }
        ensures stands { (xs : List ModelMember) → AllStandFor (members_in self.old) xs → all_true (all_tell (members_in self.old)) ≡ true → result.reply ≢ Memory
            → AllStandFor (members_in self.new) (group_step event.now.call (caller event.now) event.now.sub io.old xs).members }
        ensures memory { (xs : List ModelMember) → AllStandFor (members_in self.old) xs → result.reply ≡ Memory → AllStandFor (members_in self.new) xs }
        ensures idle { result.reply ≡ Memory → IsIdle result }
        ensures unwoken { (xs : List ModelMember) → AllStandFor (members_in self.old) xs → result.reply ≡ Memory → result.woken ≡ 0 }
        ensures wants { result.reply ≡ Memory → may_want_memory event.now.call ≡ true }
        ensures loaded { (xs : List ModelMember) → AllStandFor (members_in self.old) xs → Loads event.now.call (stream_of event.now.sub xs) result.reply io.old io.new }
        ensures transferred { (xs : List ModelMember) → AllStandFor (members_in self.old) xs → all_true (all_tell (members_in self.old)) ≡ true → result.reply ≢ Memory → is_lent_call event.now.call ≡ false
            → io.new ≡ bytes_left event.now.call (caller event.now) (stream_of event.now.sub xs) (group_step event.now.call (caller event.now) event.now.sub io.old xs).answer io.old }
        ensures bytes { is_waiting_call event.now.call ≡ false → is_reading event.now.call ≡ false → io.new ≡ io.old }
        ensures kept { result.reply ≡ Memory → io.new ≡ io.old }
        ensures numbers { numbers_of (members_in self.new) ≡ numbers_of (members_in self.old) }
        ensures tells { all_tell (members_in self.new) ≡ all_tell (members_in self.old) }
        ensures faults { FaultsOver result.acts (all_faults (members_in self.old)) (all_faults (members_in self.new)) }
    {
        let members = &mut self.members;
        let place = place_of(members, event.sub);
        let mut acts = Acts::new();
        let carried = make(members, place, event, io, &mut acts);
        let woken = wake_all(members);
        Turn {
            reply: carried.reply,
            woken,
            acts,
            first: carried.first,
            moved: carried.moved,
        }
    }

    /// The sizes of a member's configuration, where it has one.
    pub fn shape(&self, sub: SubId) -> Option<&Shape>
        requires { is_member sub (numbers_of (members_in self.now)) ≡ true }
        ensures value { (i : ℕ) (m : _) → slice_get (members_in self.now) i ≡ Some m → m.sub ≡ sub → option_copied result ≡ shape_in m.stream }
        ensures sound { IfSome (option_copied result) IsSoundShape }
        ensures model { (xs : List ModelMember) → AllStandFor (members_in self.now) xs
            → option_copied result ≡ option_map (λ c. shape_of c (stream_of sub xs).long_max) (stream_of sub xs).setup.config }
    {
        self.members.at(place_of(&self.members, sub)).stream.shape()
    }

    /// What a client sees of a member.
    pub fn page(&self, sub: SubId) -> Page
        requires { is_member sub (numbers_of (members_in self.now)) ≡ true }
        ensures { (xs : List ModelMember) → AllStandFor (members_in self.now) xs → result ≡ page_of (stream_of sub xs) }
    {
        self.members.at(place_of(&self.members, sub)).stream.page()
    }

    /// Whether the substream is a member.
    pub fn holds(&self, sub: SubId) -> bool
        ensures { result ≡ is_member sub (numbers_of (members_in self.now)) }
    {
        for i in 0..self.members.len() {
            if self.members.at(i).sub.0 == sub.0 {
                return true;
            }
        }
        false
    }

    /// The members, in link order. Who is marked asleep may wait.
    pub fn members(&self) -> &Members<C>
        ensures members { members_of result.now ≡ members_in self.now }
        ensures distinct { all_differ (numbers_of (members_of result.now)) ≡ true }
        ensures waiting { (xs : List ModelMember) → AllStandFor (members_of result.now) xs → all_wait xs ≡ true }
    {
        &self.members
    }

    /// The group is taken apart.
    pub fn into_members(self) -> Members<C>
        ensures members { members_of result ≡ members_in self }
        ensures distinct { all_differ (numbers_of (members_of result)) ≡ true }
    {
        self.members
    }
}
