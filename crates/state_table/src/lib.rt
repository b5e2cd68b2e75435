//! The error table: whether a call is allowed in a state, and which error refuses it.
//!
//! It stands on `pcm_base`, whose `specs/model/Permit.antt` is the table. Its source are the checks of states in
//! `sound/core/pcm_native.c`, in this project's profile, in which capture in DRAINING can be read and a sync in OPEN is refused
//! by the state; `Closed`, which the kernel does not have, refuses with ENXIO.
#![tactic(auto)]

ghost use Rattle.std.specs.Prelude.{◌≡◌, ◌≤◌};
ghost use Rattle.pcm_base.specs.model.Permit.{permit as permit_table};
ghost use Rattle.state_table.specs.Cases.{answer_of, cell_in};

use pcm_base::{CallKind, Dir, Errno, State};

/// One row of the table: None allows the call.
#[derive(Clone, Copy)]
struct Cases<const N: usize> {
    cells: [Option<Errno>; N],
}

impl<const N: usize> Cases<N> {
    fn cell(&self, state: State, dir: Dir) -> Option<Errno>
        requires { 10 ≤ N }
        ensures { result ≡ cell_in self.now.cells state dir }
    {
        match (state, dir) {
            (State::Closed, _) => Some(Errno::Enxio),
            (State::Opened, _) => self.cells[0],
            (State::Setup, _) => self.cells[1],
            (State::Prepared, _) => self.cells[2],
            (State::Running, _) => self.cells[3],
            (State::Xrun, _) => self.cells[4],
            (State::Draining, Dir::Playback) => self.cells[5],
            (State::Draining, Dir::Capture) => self.cells[6],
            (State::Paused, _) => self.cells[7],
            (State::Suspended, _) => self.cells[8],
            (State::Disconnected, _) => self.cells[9],
        }
    }

    fn answer(&self, state: State, dir: Dir) -> Result<(), Errno>
        requires { 10 ≤ N }
        ensures { result ≡ answer_of (cell_in self.now.cells state dir) }
    {
        match self.cell(state, dir) {
            None => Ok(()),
            Some(errno) => Err(errno),
        }
    }
}

// A cell of the other direction is never read.
macro_rules! cell {
    (ok) => {
        None
    };
    (other) => {
        Some(Errno::Einval)
    };
    ($errno:ident) => {
        Some(Errno::$errno)
    };
}

macro_rules! row {
    ($kind:ident) => {
        (CallKind::$kind, _)
    };
    ($kind:ident $dir:ident) => {
        (CallKind::$kind, Dir::$dir)
    };
}

macro_rules! cases {
    ($kind:ident $state:ident $dir:ident; $([$($row:ident)+] $($cell:ident)+;)+) => {
        match ($kind, $dir) {
            $(row!($($row)+) => Cases { cells: [$(cell!($cell)),+] }.answer($state, $dir),)+
        }
    };
}

/// Ok where the call is allowed in the state, else the error that refuses it. A write on capture and a read on playback
/// are refused with EINVAL in every state but `Closed`, which refuses every call with ENXIO.
pub fn permit(kind: CallKind, state: State, dir: Dir) -> Result<(), Errno>
    ensures { result ≡ answer_of (permit_table kind state dir) }
{
    cases! { kind state dir;
        //                                                     DRAINING
        //                OPEN   SETUP  PREP.  RUN.   XRUN   playb. capt.  PAUSED SUSPENDED DISCONNECTED
        [HwParams]        ok     ok     ok     Ebadfd Ebadfd Ebadfd Ebadfd Ebadfd Ebadfd    Ebadfd;
        [HwFree]          Ebadfd ok     ok     Ebadfd Ebadfd Ebadfd Ebadfd Ebadfd Ebadfd    Ebadfd;
        [SwParams]        Ebadfd ok     ok     ok     ok     ok     ok     ok     ok        Ebadfd;
        [Prepare]         Ebadfd ok     ok     Ebusy  ok     Ebusy  ok     ok     ok        Ebadfd;
        [Start]           Ebadfd Ebadfd ok     Ebadfd Ebadfd Ebadfd Ebadfd Ebadfd Ebadfd    Ebadfd;
        [DropNow]         Ebadfd ok     ok     ok     ok     ok     ok     ok     ok        Ebadfd;
        [Drain]           Ebadfd ok     ok     ok     ok     ok     ok     ok     Ebadfd    Ebadfd;
        [PausePush]       Ebadfd Ebadfd Ebadfd ok     Ebadfd Ebadfd Ebadfd Ebadfd Ebadfd    Ebadfd;
        [PauseRelease]    Ebadfd Ebadfd Ebadfd Ebadfd Ebadfd Ebadfd Ebadfd ok     Ebadfd    Ebadfd;
        [Suspend]         Ebusy  Ebusy  ok     ok     ok     ok     ok     ok     Ebusy     Ebadfd;
        [Resume]          Ebadfd Ebadfd Ebadfd Ebadfd Ebadfd Ebadfd Ebadfd Ebadfd ok        Ebadfd;
        [Xrun]            Ebadfd Ebadfd Ebadfd ok     ok     Ebadfd Ebadfd Ebadfd Ebadfd    Ebadfd;
        [Write Playback]  Ebadfd Ebadfd ok     ok     Epipe  Ebadfd other  ok     Estrpipe  Ebadfd;
        [Write Capture]   Einval Einval Einval Einval Einval other  Einval Einval Einval    Einval;
        [Read Capture]    Ebadfd Ebadfd ok     ok     Epipe  other  ok     ok     Estrpipe  Ebadfd;
        [Read Playback]   Einval Einval Einval Einval Einval Einval other  Einval Einval    Einval;
        [Rewind]          Ebadfd Ebadfd ok     ok     Epipe  ok     Ebadfd ok     Estrpipe  Ebadfd;
        [Forward]         Ebadfd Ebadfd ok     ok     Epipe  ok     Ebadfd ok     Estrpipe  Ebadfd;
        [Hwsync]          Ebadfd Ebadfd ok     ok     Epipe  ok     Ebadfd ok     Estrpipe  Ebadfd;
        [Delay]           Ebadfd Ebadfd ok     ok     Epipe  ok     Ebadfd ok     Estrpipe  Ebadfd;
        [SyncPtr]         Ebadfd ok     ok     ok     ok     ok     ok     ok     ok        Ebadfd;
        [Status]          ok     ok     ok     ok     ok     ok     ok     ok     ok        ok;
        [Poll]            ok     ok     ok     ok     ok     ok     ok     ok     ok        ok;
        [Map]             Ebadfd ok     ok     ok     ok     ok     ok     ok     ok        Ebadfd;
        [Link]            Ebadfd ok     ok     ok     ok     ok     ok     ok     ok        Ebadfd;
        [Unlink]          ok     ok     ok     ok     ok     ok     ok     ok     ok        ok;
        [Unplug]          ok     ok     ok     ok     ok     ok     ok     ok     ok        Ebadfd;
    }
}

#[cfg(test)]
mod tests;
