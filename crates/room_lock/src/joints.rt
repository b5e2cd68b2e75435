// The parts of a member in the acts of one event.
ghost use Rattle.std.specs.Prelude.{◌≡◌, ◌<◌, ◌≤◌, ◌+◌, ◌^◌, ℕ, length, slice_get, Some, drop};
ghost use Rattle.room_lock.specs.Between.{is_watch as is_watch_act};
ghost use Rattle.room_lock.specs.Joints.{joint_at, joints_at, state_after, AllVoted};

use floor_rule::{Joint, Joints};
use pcm_base::{Act, Acted, State};

/// An act as the log of the member at a place has it.
pub(crate) fn joint(acted: &Acted, place: usize, room: u32, serial: u64) -> Joint
    requires { place < length acted.now.votes }
    ensures { result ≡ joint_at place room serial acted.now }
{
    Joint {
        act: acted.act,
        room,
        serial,
        vote: acted.votes.as_slice()[place],
        outcome: acted.outcome,
    }
}

/// The acts as the log of the member at a place has them; their serials go on from this one.
pub(crate) fn joints(acts: &[Acted], place: usize, room: u32, serial: u64) -> Joints
    requires few { length acts.now ≤ 3 }
    requires voted { AllVoted place acts.now }
    requires serials { serial + length acts.now < 2 ^ 64 }
    ensures { result ≡ joints_at place room serial acts.now }
{
    let mut found = Joints::new();
    for i in 0..acts.len() {
        found.push(joint(&acts[i], place, room, serial + i as u64));
    }
    found
}

fn is_watch(act: Act) -> bool
    ensures { result ≡ is_watch_act act }
{
    matches!(act, Act::Watch)
}

/// The state of a member after the i-th act, where this one is its state after the last.
pub(crate) fn state_at(acts: &[Acted], i: usize, last: State) -> State
    requires { i < length acts.now }
    ensures { result ≡ state_after (drop (i + 1) acts.now) last }
{
    let count = acts.len();
    if i + 1 == count {
        return last;
    }
    if is_watch(acts[i + 1].act) {
        last
    } else {
        State::Running
    }
}
