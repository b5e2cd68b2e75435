//! What stands in a ring buffer ("Writing an ALSA Driver"). Positions and lengths are in frames.

ghost use Rattle.pcm_laws.specs.Rings.{FramesHit, FramesMiss, LaterPutsStand, PutsGoBehind, PutsGoBySlot, PutsSplit, RingEnds, RunsGoBySlot, RunsHaveElements, RunsHaveLength, RunsShowPuts, RunsSplit, SlotsAfterPuts, SlotsFollow, StandsBySlot};

/// The frame that stands at a position, by slot: the last one that was put there.
pub fn slots()
    ensures by_slot { StandsBySlot }
    ensures later { LaterPutsStand }
    ensures hit { FramesHit }
    ensures missed { FramesMiss }
    ensures each { SlotsAfterPuts }
    ensures following { SlotsFollow }
    ensures end { RingEnds }
{}

/// Frames that are put one after another.
pub fn puts()
    ensures by_slot { PutsGoBySlot }
    ensures split { PutsSplit }
    ensures behind { PutsGoBehind }
{}

/// The frames that stand one after another from a position on.
pub fn runs()
    ensures counted { RunsHaveLength }
    ensures element { RunsHaveElements }
    ensures split { RunsSplit }
    ensures by_slot { RunsGoBySlot }
    ensures shown { RunsShowPuts }
{}
