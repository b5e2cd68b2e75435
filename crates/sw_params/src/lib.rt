//! Which software parameters a substream takes: when a sleeper is woken, and how silence is kept ahead of the card.
//!
//! It stands on the sizes of `pcm_base`. Source: `snd_pcm_sw_params` of `pcm_native.c`, which makes these checks before it
//! sets the numbers; the chapter on software parameters of the manual of alsa-lib says what they mean.
#![tactic(auto)]

ghost use Rattle.std.specs.Prelude.{◌≡◌, ℕ, ◌<◌, ◌↔◌, false, true, OnOk, OnErr, IfErr};
ghost use Rattle.pcm_base.specs.model.Software.{refuses_sw};
ghost use Rattle.pcm_base.specs.declared.config.SwParams.{SwParams};
ghost use Rattle.sw_params.specs.Accepted.{IsAccepted};

#[cfg(test)]
mod tests;

use pcm_base::{Errno, Shape, SwParams};

/// Checks the software parameters of a substream of this shape: EINVAL where `avail_min` is 0; where silence is without
/// end (a `silence_size` of at least the boundary) and has a threshold too; or where it has an end, and its size exceeds
/// its threshold or the threshold exceeds the buffer (`snd_pcm_sw_params` of `pcm_native.c`). There is no other error.
pub fn check_sw(shape: &Shape, sw: &SwParams) -> Result<(), Errno>
    ensures ok { OnOk result (refuses_sw shape.now.buffer shape.now.boundary sw.now ≡ false) }
    ensures refused { OnErr result (refuses_sw shape.now.buffer shape.now.boundary sw.now ≡ true) }
    ensures einval { IfErr result (λ e. e ≡ Errno.Einval) }
{
    let has_end = sw.silence_size < shape.boundary;
    let fits = if has_end {
        sw.silence_size <= sw.silence_threshold && sw.silence_threshold <= shape.buffer
    } else {
        sw.silence_threshold == 0
    };
    if sw.avail_min > 0 && fits {
        Ok(())
    } else {
        Err(Errno::Einval)
    }
}

/// What the refusals leave, where the buffer is below the boundary, as in every shape: `avail_min` is above 0, and silence
/// is without end and has no threshold, or its size is at most a threshold of at most the buffer. A law, with no body.
pub fn accepted()
    ensures { (buffer boundary : ℕ) (sw : SwParams) → buffer < boundary
        → (refuses_sw buffer boundary sw ≡ false) ↔ IsAccepted buffer boundary sw }
{}
