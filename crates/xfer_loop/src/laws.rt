//! A turn against the closed form of a transfer (`__snd_pcm_lib_xfer` of `pcm_lib.c`). Each function here is a law: it does
//! nothing, and its contract is the law.

ghost use Rattle.xfer_loop.specs.Loop.{NoFramesNoChange, NothingRests, ReadsGoByTurns, TurnsKeepTheRest, WritesGoByTurns};

/// A transfer is one turn, and then the transfer of what is left.
pub fn turns()
    ensures writes { WritesGoByTurns }
    ensures reads { ReadsGoByTurns }
{}

/// What a turn leaves as it was.
pub fn kept()
    ensures rest { TurnsKeepTheRest }
    ensures none { NoFramesNoChange }
    ensures nothing { NothingRests }
{}
