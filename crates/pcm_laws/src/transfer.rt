//! A transfer turn by turn (`__snd_pcm_lib_xfer` of pcm_lib.c) against its closed form.

ghost use Rattle.pcm_laws.specs.Turns.{PlainTurn, QuietTurn, ReadTurn, StartingTurn, StartsInPrepared, StuckPlainWrite, StuckRead, StuckWrite, WholePlainWrite, WholeRead, WholeWrite};

/// A playback write: one turn starts the group or goes on, and a write ends where nothing is left or no room is. Lengths are in frames.
pub fn writes()
    ensures starting { StartingTurn }
    ensures quiet { QuietTurn }
    ensures stuck { StuckWrite }
    ensures whole { WholeWrite }
{}

/// A playback write that starts nothing, as after the start.
pub fn plain_writes()
    ensures alone { StartsInPrepared }
    ensures part { PlainTurn }
    ensures stuck { StuckPlainWrite }
    ensures whole { WholePlainWrite }
{}

/// A capture read: any part of it first, and then the rest. Lengths are in frames.
pub fn reads()
    ensures part { ReadTurn }
    ensures stuck { StuckRead }
    ensures whole { WholeRead }
{}
