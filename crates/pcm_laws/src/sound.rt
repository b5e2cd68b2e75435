//! Sound streams stay sound: the invariant of a stream, and all that keeps it. This project's own.

ghost use Rattle.pcm_laws.specs.Soundness.{ActsKeepSound, ForwardKeepsSound, FreshIsSound, JointsKeepSound, MoveKeepsSound, OwnEntriesKeepSound, ProgramsKeepSound, PutKeepsSound, RewindKeepsSound, StepsKeepSound, StopsStand, SyncKeepsSound, UnplugKeepsSound, UpdateKeepsSound};

/// A stream that no client has opened is sound.
pub fn fresh_streams()
    ensures { FreshIsSound }
{}

/// Updates, movements of the card, pointer calls, frames that are put and an unplugged card keep a stream sound. Counts are in frames.
pub fn changes()
    ensures update { UpdateKeepsSound }
    ensures movement { MoveKeepsSound }
    ensures rewind { RewindKeepsSound }
    ensures forward { ForwardKeepsSound }
    ensures sync { SyncKeepsSound }
    ensures put { PutKeepsSound }
    ensures stop { StopsStand }
    ensures unplug { UnplugKeepsSound }
{}

/// An act keeps each member sound, by any vote and outcome that fit.
pub fn acts()
    ensures { ActsKeepSound }
{}

/// Every event keeps its stream sound, and a step every member of the group.
pub fn events()
    ensures programs { ProgramsKeepSound }
    ensures steps { StepsKeepSound }
{}

/// The replay of a log keeps its stream sound: an own entry, and the joints of an act that another member's program made.
pub fn replays()
    ensures own { OwnEntriesKeepSound }
    ensures joints { JointsKeepSound }
{}
