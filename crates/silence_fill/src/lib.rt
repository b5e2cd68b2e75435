//! Where silence is put ahead of the card, and how much of it.
//!
//! It stands on the sizes and the model of `pcm_base`. Source: `snd_pcm_playback_silence` of `pcm_lib.c`; that the rule
//! looks at the end of the last fill alone, and tops up without end by the count of frames that are free, is this project's
//! own.
#![tactic(auto)]

ghost use Rattle.std.specs.Prelude.{◌≡◌, ◌≤◌, ◌+◌, max, false, IfSome};
ghost use Rattle.pcm_base.specs.Shape.{IsSoundShape};
ghost use Rattle.pcm_base.specs.model.Software.{refuses_sw};
ghost use Rattle.pcm_base.specs.model.Stream.{Stream};
ghost use Rattle.silence_fill.specs.Fill.{IsFillAhead, StandsAt, IsFillOf};

#[cfg(test)]
mod tests;

use pcm_base::{Shape, SwParams};

/// Where silence begins ahead of the hardware position and how many frames of it are put, or None where none is.
/// `queued` and `filled` tell how many frames the application position and the end of the last fill lie ahead of the
/// hardware position, 0 where behind; neither is above the buffer. Silence begins at the farther of the two. Without end (a
/// `silence_size` of at least the boundary) it fills the buffer; else it is put below the threshold, and is at most its
/// size (`snd_pcm_playback_silence` of `pcm_lib.c`).
pub fn plan(shape: &Shape, sw: &SwParams, queued: u64, filled: u64) -> Option<(u64, u64)>
    requires sound { IsSoundShape shape.now }
    requires queued { queued ≤ shape.now.buffer }
    requires filled { filled ≤ shape.now.buffer }
    ensures ahead { IsFillAhead shape.now sw.now (max queued filled) result }
    ensures model { (s : Stream) → StandsAt s shape.now sw.now queued filled → IsFillOf s result }

    // where the software parameters are accepted, silence ends within a buffer ahead
    ensures within { refuses_sw shape.now.buffer shape.now.boundary sw.now ≡ false
        → IfSome result (λ fill. fill.0 + fill.1 ≤ shape.now.buffer) }
{
    let start = queued.max(filled);
    let count = if sw.silence_size >= shape.boundary {
        shape.buffer - start
    } else if start < sw.silence_threshold {
        sw.silence_size.min(sw.silence_threshold - start)
    } else {
        0
    };
    if count == 0 {
        None
    } else {
        Some((start, count))
    }
}
