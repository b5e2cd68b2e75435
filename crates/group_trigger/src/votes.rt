// The votes of a group on an act that one member decides, or none. This project's own.
ghost use Rattle.std.specs.Prelude.{◌≡◌, ◌+◌, ◌≤◌, ◌<◌, ◌++◌, length, replicate, Some, slice_get};
ghost use Rattle.pcm_base.specs.declared.act.Outcome.TheVariants as outcome;
ghost use Rattle.pcm_base.specs.declared.act.Vote.TheVariants as vote;
ghost use Rattle.group_trigger.specs.Votes.{votes_at};
ghost use Rattle.pcm_stream.specs.Members.{members_of};

use pcm_base::{Act, Acted, Card, Errno, Outcome, Vote, Votes};
use pcm_stream::Members;

// So many times the same vote behind the others.
fn push_all(votes: &mut Votes, vote: Vote, count: usize)
    requires { length votes.old + count ≤ 16 }
    ensures { votes.new ≡ votes.old ++ replicate count vote }
{
    for _i in 0..count {
        votes.push(vote);
    }
}

// One vote for each member: this one at a place, yes before it, unasked after it.
fn votes_of(count: usize, place: usize, vote: Vote) -> Votes
    requires few { count ≤ 16 }
    requires place { place < count }
    ensures { result ≡ votes_at count place vote }
{
    let mut votes = Votes::new();
    push_all(&mut votes, Vote::Yes, place);
    votes.push(vote);
    push_all(&mut votes, Vote::Unasked, count - place - 1);
    votes
}

/// An act that the member at this place refuses.
pub(crate) fn refused<C: Card>(members: &Members<C>, act: Act, place: usize, errno: Errno) -> Acted
    requires { place < length (members_of members.now) }
    ensures act { result.act ≡ act }
    ensures votes { result.votes ≡ votes_at (length (members_of members.now)) place (vote.Refuse errno) }
    ensures outcome { (m : _) → slice_get (members_of members.now) place ≡ Some m → result.outcome ≡ outcome.Refused m.sub errno }
{
    Acted {
        act,
        outcome: Outcome::Refused(members.at(place).sub, errno),
        votes: votes_of(members.len(), place, Vote::Refuse(errno)),
    }
}

/// An act that the card of the member at this place failed to make.
pub(crate) fn failed<C: Card>(members: &Members<C>, act: Act, place: usize) -> Acted
    requires { place < length (members_of members.now) }
    ensures act { result.act ≡ act }
    ensures votes { result.votes ≡ votes_at (length (members_of members.now)) place vote.Fail }
    ensures outcome { (m : _) → slice_get (members_of members.now) place ≡ Some m → result.outcome ≡ outcome.Failed m.sub }
{
    Acted {
        act,
        outcome: Outcome::Failed(members.at(place).sub),
        votes: votes_of(members.len(), place, Vote::Fail),
    }
}

/// An act that every member has made.
pub(crate) fn done<C: Card>(members: &Members<C>, act: Act) -> Acted
    ensures act { result.act ≡ act }
    ensures votes { result.votes ≡ replicate (length (members_of members.now)) vote.Yes }
    ensures outcome { result.outcome ≡ outcome.Done }
{
    let mut votes = Votes::new();
    push_all(&mut votes, Vote::Yes, members.len());
    Acted {
        act,
        outcome: Outcome::Done,
        votes,
    }
}
