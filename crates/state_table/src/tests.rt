// Each cell of the error table, as the numbers of Linux; 0 is allowed.
use super::permit;
use pcm_base::{CallKind, Dir, State};

const COLUMNS: [(State, Option<Dir>); 11] = [
    (State::Opened, None),
    (State::Setup, None),
    (State::Prepared, None),
    (State::Running, None),
    (State::Xrun, None),
    (State::Draining, Some(Dir::Playback)),
    (State::Draining, Some(Dir::Capture)),
    (State::Paused, None),
    (State::Suspended, None),
    (State::Disconnected, None),
    (State::Closed, None),
];

const ROWS: [(CallKind, Option<Dir>, [u32; 11]); 27] = [
    (
        CallKind::HwParams,
        None,
        [0, 0, 0, 77, 77, 77, 77, 77, 77, 77, 6],
    ),
    (
        CallKind::HwFree,
        None,
        [77, 0, 0, 77, 77, 77, 77, 77, 77, 77, 6],
    ),
    (
        CallKind::SwParams,
        None,
        [77, 0, 0, 0, 0, 0, 0, 0, 0, 77, 6],
    ),
    (
        CallKind::Prepare,
        None,
        [77, 0, 0, 16, 0, 16, 0, 0, 0, 77, 6],
    ),
    (
        CallKind::Start,
        None,
        [77, 77, 0, 77, 77, 77, 77, 77, 77, 77, 6],
    ),
    (CallKind::DropNow, None, [77, 0, 0, 0, 0, 0, 0, 0, 0, 77, 6]),
    (CallKind::Drain, None, [77, 0, 0, 0, 0, 0, 0, 0, 77, 77, 6]),
    (
        CallKind::PausePush,
        None,
        [77, 77, 77, 0, 77, 77, 77, 77, 77, 77, 6],
    ),
    (
        CallKind::PauseRelease,
        None,
        [77, 77, 77, 77, 77, 77, 77, 0, 77, 77, 6],
    ),
    (
        CallKind::Suspend,
        None,
        [16, 16, 0, 0, 0, 0, 0, 0, 16, 77, 6],
    ),
    (
        CallKind::Resume,
        None,
        [77, 77, 77, 77, 77, 77, 77, 77, 0, 77, 6],
    ),
    (
        CallKind::Xrun,
        None,
        [77, 77, 77, 0, 0, 77, 77, 77, 77, 77, 6],
    ),
    (
        CallKind::Write,
        Some(Dir::Playback),
        [77, 77, 0, 0, 32, 77, 22, 0, 86, 77, 6],
    ),
    (
        CallKind::Write,
        Some(Dir::Capture),
        [22, 22, 22, 22, 22, 22, 22, 22, 22, 22, 6],
    ),
    (
        CallKind::Read,
        Some(Dir::Capture),
        [77, 77, 0, 0, 32, 22, 0, 0, 86, 77, 6],
    ),
    (
        CallKind::Read,
        Some(Dir::Playback),
        [22, 22, 22, 22, 22, 22, 22, 22, 22, 22, 6],
    ),
    (
        CallKind::Rewind,
        None,
        [77, 77, 0, 0, 32, 0, 77, 0, 86, 77, 6],
    ),
    (
        CallKind::Forward,
        None,
        [77, 77, 0, 0, 32, 0, 77, 0, 86, 77, 6],
    ),
    (
        CallKind::Hwsync,
        None,
        [77, 77, 0, 0, 32, 0, 77, 0, 86, 77, 6],
    ),
    (
        CallKind::Delay,
        None,
        [77, 77, 0, 0, 32, 0, 77, 0, 86, 77, 6],
    ),
    (CallKind::SyncPtr, None, [77, 0, 0, 0, 0, 0, 0, 0, 0, 77, 6]),
    (CallKind::Status, None, [0, 0, 0, 0, 0, 0, 0, 0, 0, 0, 6]),
    (CallKind::Poll, None, [0, 0, 0, 0, 0, 0, 0, 0, 0, 0, 6]),
    (CallKind::Map, None, [77, 0, 0, 0, 0, 0, 0, 0, 0, 77, 6]),
    (CallKind::Link, None, [77, 0, 0, 0, 0, 0, 0, 0, 0, 77, 6]),
    (CallKind::Unlink, None, [0, 0, 0, 0, 0, 0, 0, 0, 0, 0, 6]),
    (CallKind::Unplug, None, [0, 0, 0, 0, 0, 0, 0, 0, 0, 77, 6]),
];

fn serves(only: Option<Dir>, dir: Dir) -> bool {
    only.is_none() || only == Some(dir)
}

#[test]
fn each_cell_answers_as_the_table(rt: HostRuntime) {
    let mut seen = 0u32;
    for dir in [Dir::Playback, Dir::Capture] {
        for (kind, row_dir, cells) in ROWS {
            for ((state, column_dir), want) in COLUMNS.iter().zip(cells) {
                if serves(row_dir, dir) && serves(*column_dir, dir) {
                    let number = match permit(kind, *state, dir) {
                        Ok(()) => 0,
                        Err(errno) => errno.number(),
                    };
                    assert_eq!(rt; number, want, "{kind:?} in {state:?} on {dir:?}");
                    seen = seen.wrapping_add(1);
                }
            }
        }
    }
    assert_eq!(rt; seen, 500);
}
