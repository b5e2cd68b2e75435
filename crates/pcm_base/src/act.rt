// Acts over a group, and what each member says to them.
use crate::{Errno, State, SubId};

/// What the core asks of a card (`SNDRV_PCM_TRIGGER_*`).
#[derive(Clone, Copy, Debug, PartialEq, Eq)]
pub enum Trigger {
    Start,
    Stop,
    PausePush,
    PauseRelease,
    Suspend,
    Resume,
}

/// What is made over every member of a group at once (the `struct action_ops` of `pcm_native.c`). `Stop` leaves
/// SETUP or XRUN; a `Prepare` with `stop_first` stops what runs; `Watch` asks whether a drain has ended.
#[derive(Clone, Copy, Debug, PartialEq, Eq)]
pub enum Act {
    Start,
    Stop(State),
    Prepare { stop_first: bool },
    Pause,
    Release,
    Suspend,
    Resume,
    Drain,
    Watch,
}

/// What one member says to an act: it goes along, it refuses, its card fails, or it was never asked. This project's
/// own.
#[derive(Clone, Copy, Debug, PartialEq, Eq, Default)]
pub enum Vote {
    #[default]
    Yes,
    Refuse(Errno),
    Fail,
    Unasked,
}

/// What becomes of an act: every member has changed, or one has refused or failed and none has (`snd_pcm_action_group`).
#[derive(Clone, Copy, Debug, PartialEq, Eq)]
pub enum Outcome {
    Done,
    Refused(SubId, Errno),
    Failed(SubId),
}

/// What an update of the hardware pointer finds (`snd_pcm_update_state`).
#[derive(Clone, Copy, Debug, PartialEq, Eq)]
pub enum Updated {
    Nothing,
    DrainDone,
    StopXrun,
}
