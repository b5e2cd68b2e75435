// The names of states and errors.
ghost use Rattle.std.specs.Prelude.{◌≡◌};
ghost use Rattle.pcm_text.specs.Names.{state_name, errno_name};

use pcm_base::{Errno, State};

/// The name of a state, as in `asound.h` without its prefix; `CLOSED` is this project's own.
pub fn state_name(state: State) -> &'static str
    ensures { result.now ≡ state_name state }
{
    match state {
        State::Closed => "CLOSED",
        State::Opened => "OPEN",
        State::Setup => "SETUP",
        State::Prepared => "PREPARED",
        State::Running => "RUNNING",
        State::Xrun => "XRUN",
        State::Draining => "DRAINING",
        State::Paused => "PAUSED",
        State::Suspended => "SUSPENDED",
        State::Disconnected => "DISCONNECTED",
    }
}

/// The name of an error, as in `errno.h`.
pub fn errno_name(errno: Errno) -> &'static str
    ensures { result.now ≡ errno_name errno }
{
    match errno {
        Errno::Eio => "EIO",
        Errno::Enxio => "ENXIO",
        Errno::Eagain => "EAGAIN",
        Errno::Ebusy => "EBUSY",
        Errno::Einval => "EINVAL",
        Errno::Epipe => "EPIPE",
        Errno::Enosys => "ENOSYS",
        Errno::Ebadfd => "EBADFD",
        Errno::Estrpipe => "ESTRPIPE",
        Errno::Ealready => "EALREADY",
    }
}
