// The wake check at the end of a step (`snd_pcm_update_state`, which wakes the wait loop of `pcm_lib.c`; that one check at the
// end of a step wakes them is this project's own).
ghost use Rattle.std.specs.Prelude.{◌≡◌, ◌<◌, List, true};
ghost use Rattle.pcm_base.specs.model.Acts.{drains as drains_of};
ghost use Rattle.pcm_base.specs.model.Sleep.{group_drains as group_drains_of, mask_of, wake, woken};
ghost use Rattle.pcm_base.specs.model.Stream.{Stream, Member as ModelMember};
ghost use Rattle.pcm_stream.specs.Members.{all_faults, members_of, numbers_of};
ghost use Rattle.pcm_stream.specs.MembersStand.{AllStandFor, MemberStandsFor};
ghost use Rattle.pcm_stream.specs.StandsFor.{StandsFor};
ghost use Rattle.group_trigger.specs.Votes.{all_tell};
ghost use Rattle.pcm_group.specs.Waiting.{StreamsStandFor, all_wait, calls_wait, woken_at, woken_member};

use pcm_base::{Card, Dir, State};
use pcm_stream::{Member, Members, Substream};

// A playback stream on its way to its end.
fn drains<C: Card>(stream: &Substream<C>) -> bool
    ensures { (s : Stream) → StandsFor stream.now s → result ≡ drains_of s }
{
    matches!(
        (stream.dir(), stream.state()),
        (Dir::Playback, State::Draining)
    )
}

// Whether a playback member drains.
fn group_drains<C: Card>(members: &Members<C>) -> bool
    ensures { (xs : List ModelMember) → StreamsStandFor (members_of members.now) xs → result ≡ group_drains_of xs }
{
    for i in 0..members.len() {
        if drains(&members.at(i).stream) {
            return true;
        }
    }
    false
}

// Marks awake who may no longer wait on one member, and gives the mask of these clients.
fn wake_member<C: Card>(member: &mut Member<C>, group_drains: bool) -> u16
    ensures stands { (x : ModelMember) → MemberStandsFor member.old x → MemberStandsFor member.new (woken_member group_drains x) }
    ensures mask { (x : ModelMember) → MemberStandsFor member.old x → result ≡ mask_of (woken_at group_drains x) }
    ensures waiting { (x : ModelMember) → MemberStandsFor member.new x → calls_wait group_drains x.stream x.asleep x.stream.sleepers ≡ true }
    ensures sub { member.new.sub ≡ member.old.sub }
    ensures stream { member.new.stream ≡ member.old.stream }
{
    if member.sleepers.is_empty() {
        return 0;
    }
    let page = member.stream.page();
    let dir = member.stream.dir();
    member
        .sleepers
        .wake_check(page.state, dir, page.avail, group_drains)
}

/// Marks awake who may no longer wait in the group, and gives the mask of these clients: client i is bit i.
pub(crate) fn wake_all<C: Card>(members: &mut Members<C>) -> u16
    ensures stands { (xs : List ModelMember) → AllStandFor (members_of members.old) xs → AllStandFor (members_of members.new) (wake xs) }
    ensures mask { (xs : List ModelMember) → AllStandFor (members_of members.old) xs → result ≡ mask_of (woken xs) }
    ensures waiting { (xs : List ModelMember) → AllStandFor (members_of members.new) xs → all_wait xs ≡ true }
    ensures numbers { numbers_of (members_of members.new) ≡ numbers_of (members_of members.old) }
    ensures tells { all_tell (members_of members.new) ≡ all_tell (members_of members.old) }
    ensures faults { all_faults (members_of members.new) ≡ all_faults (members_of members.old) }
{
    let group_drains = group_drains(members);
    let mut woken = 0;
    for i in 0..members.len() {
        woken |= wake_member(members.at_mut(i), group_drains);
    }
    woken
}
