// Who is woken.
ghost use Rattle.std.specs.Prelude.{◌≡◌, map, All, ◌<◌};
ghost use Rattle.pcm_base.specs.model.Sleep.{mask_of, waits_in};
ghost use Rattle.pcm_base.specs.model.Words.{is_disconnected};
ghost use Rattle.sleepers.specs.Wake.{after_check, clients_of, may_wait_on, wakes as is_to_wake, with_mark, woken_sleepers};

use crate::place::Place;
use pcm_base::{ClientId, Sleeper, State, Task};

// A transfer may wait in these states.
fn is_waiting_state(state: State) -> bool
    ensures { result ≡ waits_in state }
{
    matches!(state, State::Prepared | State::Running | State::Paused)
}

// The card is gone.
fn is_gone(state: State) -> bool
    ensures { result ≡ is_disconnected state }
{
    matches!(state, State::Disconnected)
}

// Whether the task may wait, where so many frames are available.
fn may_wait(task: Task, state: State, avail: u64, group_drains: bool) -> bool
    ensures { result ≡ may_wait_on state avail group_drains task }
{
    match task {
        Task::Transfer(_, wanted) => is_waiting_state(state) && avail < wanted,
        Task::Drain => group_drains && !is_gone(state),
    }
}

// Whether it is asleep and may no longer wait.
fn wakes(sleeper: Sleeper, state: State, avail: u64, group_drains: bool) -> bool
    ensures { result ≡ is_to_wake state avail group_drains sleeper }
{
    sleeper.asleep && !may_wait(sleeper.task, state, avail, group_drains)
}

/// Marks awake each sleeper that may no longer wait, and gives the mask of their clients.
pub(crate) fn wake_each(places: &mut [Place], state: State, avail: u64, group_drains: bool) -> u16
    requires { All (λ x. x.client.0 < 16) places.old }
    ensures after { places.new ≡ after_check state avail group_drains places.old }
    ensures woken { result ≡ mask_of (clients_of (woken_sleepers state avail group_drains places.old)) }
{
    let mut woken = 0;
    for place in places.iter_mut() {
        let client = place.sleeper.client.0;
        if wakes(place.sleeper, state, avail, group_drains) {
            place.sleeper.asleep = false;
            woken |= 1 << client;
        }
    }
    woken
}

/// Marks the client's call asleep or awake.
pub(crate) fn mark_each(places: &mut [Place], client: ClientId, asleep: bool)
    ensures { places.new ≡ with_mark client asleep places.old }
{
    for place in places.iter_mut() {
        if place.sleeper.client == client {
            place.sleeper.asleep = asleep;
        }
    }
}
