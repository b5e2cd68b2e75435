// Acts over the group of a member, and its updates.
ghost use Rattle.std.specs.Prelude.{◌≡◌, ◌≢◌, ◌+◌, ◌≤◌, ◌<◌, ℕ, Bool, List, true, length, MatchResult, Some, None};
ghost use Rattle.pcm_base.specs.declared.act.Updated.TheVariants.{Nothing};
ghost use Rattle.pcm_base.specs.declared.ids.SubId.{SubId};
ghost use Rattle.pcm_base.specs.declared.reply.Reply.TheVariants.{Asleep, Memory};
ghost use Rattle.pcm_base.specs.model.Group.{stream_of};
ghost use Rattle.pcm_base.specs.model.Program.{act_alone as program_of};
ghost use Rattle.pcm_base.specs.model.Sound.{is_stop};
ghost use Rattle.pcm_base.specs.model.Stream.{Member as ModelMember};
ghost use Rattle.pcm_stream.specs.Members.{all_fixed, members_of};
ghost use Rattle.pcm_group.specs.Ended.{IsAt, IsEnded, IsMade, IsUpdated, error_of};
ghost use Rattle.pcm_group.specs.Faults.{KeepsCards};

use crate::turn::Acts;
use group_trigger::act as make_act;
use pcm_base::{Act, Card, Errno, Outcome, Reply, State, Updated};
use pcm_stream::Members;

// The error of an act that was not done: EIO tells that a card failed.
fn error(outcome: Outcome) -> Result<(), Errno>
    ensures { MatchResult result (λ _. error_of outcome ≡ None) (λ e. error_of outcome ≡ Some e) }
{
    match outcome {
        Outcome::Done => Ok(()),
        Outcome::Refused(_, errno) => Err(errno),
        Outcome::Failed(_) => Err(Errno::Eio),
    }
}

/// Makes an act over the group, behind the old acts. A stop is to SETUP or XRUN.
pub(crate) fn make<C: Card>(
    members: &mut Members<C>,
    act: Act,
    acts: &mut Acts,
) -> Result<(), Errno>
    requires stop { is_stop act ≡ true }
    requires few { length acts.old < 3 }
    ensures made { (place : ℕ) (k : SubId) (tells : List Bool) (xs : List ModelMember) → IsAt (members_of members.old) place k tells xs
        → IsMade tells act place k xs acts.old acts.new result (members_of members.new) }
    ensures count { length acts.new ≡ length acts.old + 1 }
    ensures fixed { all_fixed (members_of members.new) ≡ all_fixed (members_of members.old) }
    ensures cards { KeepsCards acts.old (members_of members.old) acts.new (members_of members.new) }
{
    let acted = make_act(members, act);
    let done = error(acted.outcome);
    acts.push(acted);
    done
}

// The answer of a call that gives nothing but an error.
pub(crate) fn answer(done: Result<(), Errno>) -> Reply
    ensures done { MatchResult done (λ _. result ≡ Reply.Ok) (λ e. result ≡ Reply.Err e) }
    ensures told { result ≢ Memory }
    ensures awake { result ≢ Asleep }
{
    match done {
        Ok(()) => Reply::Ok,
        Err(e) => Reply::Err(e),
    }
}

/// An act alone.
pub(crate) fn act_alone<C: Card>(members: &mut Members<C>, act: Act, acts: &mut Acts) -> Reply
    requires stop { is_stop act ≡ true }
    requires few { length acts.old < 3 }
    ensures done { (place : ℕ) (k : SubId) (tells : List Bool) (xs : List ModelMember) → IsAt (members_of members.old) place k tells xs
        → IsEnded tells (program_of act (stream_of k xs)) k xs acts.old acts.new result 0 0 (members_of members.new) }
    ensures told { result ≢ Memory }
    ensures awake { result ≢ Asleep }
    ensures fixed { all_fixed (members_of members.new) ≡ all_fixed (members_of members.old) }
    ensures cards { KeepsCards acts.old (members_of members.old) acts.new (members_of members.new) }
{
    answer(make(members, act, acts))
}

/// Reports where the card of the member at this place stands, and stops the group as XRUN where the client has let it run
/// dry (`snd_pcm_update_hw_ptr`; the kernel's looks at no state where nothing moved).
pub(crate) fn refresh<C: Card>(members: &mut Members<C>, place: usize, acts: &mut Acts) -> Updated
    requires place { place < length (members_of members.old) }
    requires few { length acts.old < 3 }
    ensures updated { (k : SubId) (tells : List Bool) (xs : List ModelMember) → IsAt (members_of members.old) place k tells xs
        → IsUpdated tells place k xs acts.old acts.new result (members_of members.new) }
    ensures count { length acts.new ≤ length acts.old + 1 }
    ensures quiet { result ≡ Nothing → acts.new ≡ acts.old }
    ensures fixed { all_fixed (members_of members.new) ≡ all_fixed (members_of members.old) }
    ensures cards { KeepsCards acts.old (members_of members.old) acts.new (members_of members.new) }
{
    let found = members.at_mut(place).stream.update();
    match found {
        Updated::StopXrun => {
            let _ = make(members, Act::Stop(State::Xrun), acts);
        }
        Updated::Nothing | Updated::DrainDone => {}
    }
    found
}
