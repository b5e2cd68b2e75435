// The three passes of an act over a group, and the undo of the second (`snd_pcm_action_group`; here members are asked in link
// order, where the kernel asks the newest first, and an undo cannot fail).
ghost use Rattle.std.specs.Prelude.{◌≡◌, ◌<◌, ◌≤◌, ℕ, List, true, length, IfNone, IfSome};
ghost use Rattle.pcm_base.specs.model.Acts.{acted, members_after};
ghost use Rattle.pcm_base.specs.model.Sound.{is_stop};
ghost use Rattle.pcm_base.specs.model.Stream.{Member as ModelMember};
ghost use Rattle.pcm_stream.specs.Members.{members_of, all_faults, all_fixed};
ghost use Rattle.pcm_stream.specs.MembersStand.{AllStandFor};
ghost use Rattle.group_trigger.specs.Phases.{AllBefore, AllStandIn, Allows, Before, Did, Fails, HoldsAt, Made, Makes, Refuses, RoseAt, Undone, all_in, failed_at, first_in, undone_to};
ghost use Rattle.group_trigger.specs.Votes.{FaultsBy, IsActed, all_tell, all_true};

use crate::votes::{done, failed, refused};
use pcm_base::{Act, Acted, Card, Errno};
use pcm_stream::Members;

// The first member that refuses, by its place, with its errno (the pre actions).
fn refusal<C: Card>(members: &Members<C>, act: Act) -> Option<(usize, Errno)>
    ensures none { IfNone result (AllBefore (Allows act) (length (members_of members.now)) (members_of members.now)) }
    ensures place { IfSome result (λ r. r.0 < length (members_of members.now)) }
    ensures before { IfSome result (λ r. AllBefore (Allows act) r.0 (members_of members.now)) }
    ensures refuses { IfSome result (λ r. HoldsAt (Refuses act r.1) r.0 (members_of members.now)) }
{
    for i in 0..members.len() {
        if let Err(errno) = members.at(i).stream.vote(act) {
            return Some((i, errno));
        }
    }
    None
}

// Asks each card in turn for its part, up to the first that fails, whose place it gives (the do actions).
fn do_all<C: Card>(members: &mut Members<C>, act: Act) -> Option<usize>
    requires { AllBefore (Allows act) (length (members_of members.old)) (members_of members.old) }
    ensures place { IfSome result (λ k. k < length (members_of members.old)) }
    ensures done { (ms : List ModelMember) → AllStandFor (members_of members.old) ms → IfNone result (AllStandIn act (all_in Did) (members_of members.new) ms) }
    ensures failed { (ms : List ModelMember) → AllStandFor (members_of members.old) ms → IfSome result (λ k. AllStandIn act (failed_at k) (members_of members.new) ms) }
    ensures makes { IfNone result (AllBefore (Makes act) (length (members_of members.old)) (members_of members.old)) }
    ensures before { IfSome result (λ k. AllBefore (Makes act) k (members_of members.old)) }
    ensures fails { IfSome result (λ k. HoldsAt (Fails act) k (members_of members.old)) }
    ensures fixed { all_fixed (members_of members.new) ≡ all_fixed (members_of members.old) }
    ensures faults { IfNone result (all_faults (members_of members.new) ≡ all_faults (members_of members.old)) }
    ensures rose { IfSome result (λ k. RoseAt k (all_faults (members_of members.old)) (all_faults (members_of members.new))) }
{
    for i in 0..members.len() {
        if members.at_mut(i).stream.do_act(act).is_err() {
            return Some(i);
        }
    }
    None
}

// Takes back what the cards before this place have done (the undo actions).
fn undo_before<C: Card>(members: &mut Members<C>, act: Act, place: usize)
    requires { place ≤ length (members_of members.old) }
    ensures undone { (ms : List ModelMember) → AllStandIn act (failed_at place) (members_of members.old) ms → AllStandIn act (undone_to place place) (members_of members.new) ms }
    ensures fixed { all_fixed (members_of members.new) ≡ all_fixed (members_of members.old) }
    ensures faults { all_faults (members_of members.new) ≡ all_faults (members_of members.old) }
{
    for i in 0..place {
        members.at_mut(i).stream.undo_act(act);
    }
}

// What becomes of each member once every card has done its part (the post actions).
fn post_all<C: Card>(members: &mut Members<C>, act: Act)
    requires { is_stop act ≡ true }
    ensures made { (ms : List ModelMember) → AllStandIn act (all_in Did) (members_of members.old) ms → AllStandIn act (all_in Made) (members_of members.new) ms }
    ensures fixed { all_fixed (members_of members.new) ≡ all_fixed (members_of members.old) }
    ensures faults { all_faults (members_of members.new) ≡ all_faults (members_of members.old) }
{
    for i in 0..members.len() {
        members.at_mut(i).stream.post_act(act);
    }
}

/// Makes an act over a group: every member is asked whether it refuses, then every card for its part, then every member
/// changes. Where one refuses, nothing has changed; where a card fails, those before it are undone, and only fault plans
/// have moved on. A card that tells no fault plan fails only where its count of faults rises. A stop is to SETUP or XRUN.
/// No memory.
pub fn act<C: Card>(members: &mut Members<C>, act: Act) -> Acted
    requires stop { is_stop act ≡ true }
    ensures acted { (ms : List ModelMember) → AllStandFor (members_of members.old) ms → IsActed (all_tell (members_of members.old)) act ms result }
    ensures told { (ms : List ModelMember) → AllStandFor (members_of members.old) ms → all_true (all_tell (members_of members.old)) ≡ true → result ≡ acted act ms }
    ensures stands { (ms : List ModelMember) → AllStandFor (members_of members.old) ms → AllStandFor (members_of members.new) (members_after result ms) }
    ensures cause { FaultsBy result.votes (all_faults (members_of members.old)) (all_faults (members_of members.new)) }
    ensures fixed { all_fixed (members_of members.new) ≡ all_fixed (members_of members.old) }
{
    if let Some((place, errno)) = refusal(members, act) {
        return refused(members, act, place, errno);
    }
    if let Some(place) = do_all(members, act) {
        undo_before(members, act, place);
        return failed(members, act, place);
    }
    post_all(members, act);
    done(members, act)
}
