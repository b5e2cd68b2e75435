// Parts in acts.
ghost use Rattle.std.specs.Prelude.{◌≡◌, ◌++◌, OnOk};
ghost use Rattle.pcm_line.specs.Kinds.{OfSub, spelled};
ghost use Rattle.live_log.specs.Joint.{act_word, joint_text, outcome_word, room_word, vote_word};

use floor_rule::Joint;
use pcm_base::{Act, Outcome, SubId, Vote};
use pcm_text::{errno_name, push_number, push_text, state_name};
use std::alloc::AllocError;

/// Puts a substream at the end of the text, as a script names it.
#[inline(always)]
pub(crate) fn push_sub(text: &mut Vec<u8>, sub: SubId) -> Result<(), AllocError>
    ensures { OnOk result (text.new.items ≡ text.old.items ++ spelled OfSub sub) }
{
    push_text(text, b"s")?;
    push_number(text, u64::from(sub.0))
}

/// Puts a room's number at the end of the text.
#[inline(always)]
pub(crate) fn push_room(text: &mut Vec<u8>, room: u32) -> Result<(), AllocError>
    ensures { OnOk result (text.new.items ≡ text.old.items ++ room_word room) }
{
    push_text(text, b"r")?;
    push_number(text, u64::from(room))
}

fn push_act(text: &mut Vec<u8>, act: Act) -> Result<(), AllocError>
    ensures { OnOk result (text.new.items ≡ text.old.items ++ act_word act) }
{
    match act {
        Act::Start => push_text(text, b"start"),
        Act::Stop(to) => {
            push_text(text, b"stop-")?;
            push_text(text, state_name(to).as_bytes())
        }
        Act::Prepare { stop_first: true } => push_text(text, b"prepare-stop"),
        Act::Prepare { stop_first: false } => push_text(text, b"prepare"),
        Act::Pause => push_text(text, b"pause"),
        Act::Release => push_text(text, b"release"),
        Act::Suspend => push_text(text, b"suspend"),
        Act::Resume => push_text(text, b"resume"),
        Act::Drain => push_text(text, b"drain"),
        Act::Watch => push_text(text, b"watch"),
    }
}

fn push_vote(text: &mut Vec<u8>, vote: Vote) -> Result<(), AllocError>
    ensures { OnOk result (text.new.items ≡ text.old.items ++ vote_word vote) }
{
    match vote {
        Vote::Yes => push_text(text, b"yes"),
        Vote::Refuse(errno) => {
            push_text(text, b"refuse-")?;
            push_text(text, errno_name(errno).as_bytes())
        }
        Vote::Fail => push_text(text, b"fail"),
        Vote::Unasked => push_text(text, b"unasked"),
    }
}

fn push_outcome(text: &mut Vec<u8>, outcome: Outcome) -> Result<(), AllocError>
    ensures { OnOk result (text.new.items ≡ text.old.items ++ outcome_word outcome) }
{
    match outcome {
        Outcome::Done => push_text(text, b"done"),
        Outcome::Refused(by, errno) => {
            push_text(text, b"refused-")?;
            push_sub(text, by)?;
            push_text(text, b"-")?;
            push_text(text, errno_name(errno).as_bytes())
        }
        Outcome::Failed(by) => {
            push_text(text, b"failed-")?;
            push_sub(text, by)
        }
    }
}

/// Puts a part in an act at the end of the text: the act, the room, the act's place among those of the room, the vote and
/// the outcome.
pub(crate) fn push_joint(text: &mut Vec<u8>, joint: &Joint) -> Result<(), AllocError>
    ensures { OnOk result (text.new.items ≡ text.old.items ++ joint_text joint.now) }
{
    push_act(text, joint.act)?;
    push_text(text, b" ")?;
    push_room(text, joint.room)?;
    push_text(text, b" ")?;
    push_number(text, joint.serial)?;
    push_text(text, b" ")?;
    push_vote(text, joint.vote)?;
    push_text(text, b" ")?;
    push_outcome(text, joint.outcome)
}
