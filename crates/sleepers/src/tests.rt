// Worked examples.
ghost use Rattle.std.specs.Prelude.{◌≡◌};

use super::*;
use pcm_base::{ClientId, Dir, Layout, Mode, Sleeper, State, Task, Xfer};

// A write of four frames, for which there was no room.
const WRITE: Task = Task::Transfer(
    Xfer {
        writing: true,
        layout: Layout::Interleaved,
        mode: Mode::Block,
        rest: 4,
        moved: 0,
    },
    4,
);

fn asleep(client: u8, task: Task) -> Sleeper
    ensures { result.client.0 ≡ client }
{
    Sleeper {
        client: ClientId(client),
        asleep: true,
        task,
    }
}

#[test]
fn a_sleeper_wakes_once_it_may_no_longer_wait(rt: HostRuntime) {
    let checks = [
        (WRITE, State::Prepared, 3, false, false),
        (WRITE, State::Running, 3, false, false),
        (WRITE, State::Paused, 3, false, false),
        (WRITE, State::Prepared, 4, false, true),
        (WRITE, State::Running, 4, false, true),
        (WRITE, State::Paused, 4, false, true),
        (WRITE, State::Opened, 0, true, true),
        (WRITE, State::Setup, 0, true, true),
        (WRITE, State::Xrun, 0, true, true),
        (WRITE, State::Draining, 0, true, true),
        (WRITE, State::Suspended, 0, true, true),
        (Task::Drain, State::Draining, 0, true, false),
        (Task::Drain, State::Setup, 0, true, false),
        (Task::Drain, State::Setup, 0, false, true),
        (WRITE, State::Disconnected, 0, true, true),
        (Task::Drain, State::Disconnected, 0, true, true),
    ];
    for (task, state, avail, group_drains, wakes) in checks {
        let mut sleepers = Sleepers::new();
        sleepers.add(asleep(3, task));
        let mask = sleepers.wake_check(state, Dir::Playback, avail, group_drains);
        assert_eq!(rt;
            mask,
            if wakes { 0b1000 } else { 0 },
            "{task:?} in {state:?}"
        );
        assert_eq!(rt; sleepers.is_asleep(ClientId(3)), !wakes);
        sleepers.mark(ClientId(3), true);
        assert!(rt; sleepers.is_asleep(ClientId(3)));
        sleepers.mark(ClientId(4), false);
        assert!(rt; sleepers.is_asleep(ClientId(3)));
        sleepers.mark(ClientId(3), false);
        assert!(rt; !sleepers.is_asleep(ClientId(3)));
        assert_eq!(rt; sleepers.task(ClientId(3)), Some(task));
    }
}

#[test]
fn sixteen_clients_fit(rt: HostRuntime) {
    let mut sleepers = Sleepers::new();
    for client in 0..16 {
        assert_eq!(rt; sleepers.take(ClientId(client)), None);
        sleepers.add(asleep(client, WRITE));
    }
    assert_eq!(rt;
        sleepers.wake_check(State::Xrun, Dir::Capture, 0, false),
        0xffff
    );
    assert_eq!(rt; sleepers.wake_check(State::Xrun, Dir::Capture, 0, false), 0);
    for client in (0..16).rev() {
        assert!(rt; !sleepers.is_empty());
        let woken = Sleeper {
            asleep: false,
            ..asleep(client, WRITE)
        };
        assert_eq!(rt; sleepers.take(ClientId(client)), Some(woken));
    }
    assert!(rt; sleepers.is_empty());
}
