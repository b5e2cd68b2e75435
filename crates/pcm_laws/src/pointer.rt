//! Positions, and the pointers that clients see of them: remainders by the boundary (`snd_pcm_hw_params` of pcm_native.c). Positions and distances are in frames.

ghost use Rattle.pcm_laws.specs.Pointers.{AcceptedShapeIsSound, BoundaryHasTwo, BoundaryIsDoubled, BoundaryIsItsOwn, BoundaryIsWhole, BoundaryLeavesOne, OriginDistance, OriginShown, OriginSlot, ShownAvail, ShownCaptureAvail, ShownDifference, ShownDistance, ShownDistanceAbove, ShownPlaybackAvail, ShownSlot, ShownStreamSlot, ShownSum, ShownUnreported, SyncShows};

/// The boundary of a buffer: that buffer doubled, and the room about it.
pub fn boundaries()
    ensures doubled { BoundaryIsDoubled }
    ensures whole { BoundaryIsWhole }
    ensures two { BoundaryHasTwo }
    ensures one_more { BoundaryLeavesOne }
    ensures own { BoundaryIsItsOwn }
{}

/// The shape of an accepted configuration.
pub fn shapes()
    ensures { AcceptedShapeIsSound }
{}

/// Positions that count from the boundary in place of 0 show the same pointers, slots and distances.
pub fn origins()
    ensures shown { OriginShown }
    ensures slot { OriginSlot }
    ensures distance { OriginDistance }
{}

/// Slots, distances, sums and differences from shown pointers, where they are below the boundary.
pub fn remainders()
    ensures slot { ShownSlot }
    ensures distance { ShownDistance }
    ensures above { ShownDistanceAbove }
    ensures sum { ShownSum }
    ensures difference { ShownDifference }
{}

/// What is shown of a configured stream tells its slots and the distances between its positions.
pub fn streams()
    ensures avail { ShownAvail }
    ensures playback { ShownPlaybackAvail }
    ensures capture { ShownCaptureAvail }
    ensures unreported { ShownUnreported }
    ensures slot { ShownStreamSlot }
    ensures sync { SyncShows }
{}
