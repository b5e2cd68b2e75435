// Directions, states and error numbers.
ghost use Rattle.std.specs.Prelude.{◌≡◌};
ghost use Rattle.pcm_base.specs.Numbers.{state_number, errno_number};

/// The direction of a substream (`SNDRV_PCM_STREAM_PLAYBACK`, `SNDRV_PCM_STREAM_CAPTURE`).
#[derive(Clone, Copy, Debug, PartialEq, Eq)]
pub enum Dir {
    Playback,
    Capture,
}

/// The state of a substream (`SNDRV_PCM_STATE_*`). `Closed` is this project's own: no client has opened it.
#[derive(Clone, Copy, Debug, PartialEq, Eq)]
pub enum State {
    Closed,
    Opened,
    Setup,
    Prepared,
    Running,
    Xrun,
    Draining,
    Paused,
    Suspended,
    Disconnected,
}

impl State {
    /// The state's number in `asound.h`, and 15 for `Closed`.
    pub fn number(self) -> u32
        ensures { result ≡ state_number self }
    {
        match self {
            State::Opened => 0,
            State::Setup => 1,
            State::Prepared => 2,
            State::Running => 3,
            State::Xrun => 4,
            State::Draining => 5,
            State::Paused => 6,
            State::Suspended => 7,
            State::Disconnected => 8,
            State::Closed => 15,
        }
    }
}

/// An error number of Linux (`errno-base.h`, `errno.h`).
#[derive(Clone, Copy, Debug, PartialEq, Eq)]
pub enum Errno {
    Eio,
    Enxio,
    Eagain,
    Ebusy,
    Einval,
    Epipe,
    Enosys,
    Ebadfd,
    Estrpipe,
    Ealready,
}

impl Errno {
    /// The number that Linux gives the error.
    pub fn number(self) -> u32
        ensures { result ≡ errno_number self }
    {
        match self {
            Errno::Eio => 5,
            Errno::Enxio => 6,
            Errno::Eagain => 11,
            Errno::Ebusy => 16,
            Errno::Einval => 22,
            Errno::Epipe => 32,
            Errno::Enosys => 38,
            Errno::Ebadfd => 77,
            Errno::Estrpipe => 86,
            Errno::Ealready => 114,
        }
    }
}
