// The least box of the configurations that a model allows in a space.
ghost use Rattle.std.specs.Prelude.{◌≡◌, MatchOption, IfOk, OnErr, IfErr};
ghost use Rattle.pcm_base.specs.CardFacts.{HasChannels};
ghost use Rattle.pcm_base.specs.declared.config.CardModel.{CardModel};
ghost use Rattle.pcm_base.specs.declared.config.Space.{Space};
ghost use Rattle.hw_params.specs.Base.{IsBase, CanHaveChannels, CanHaveRate};
ghost use Rattle.hw_params.specs.Hull.{HasNone, IsHull, HoldsAll, HoldsBox};
ghost use Rattle.hw_params.specs.Sizes.{Fits, AreRanges};
ghost use Rattle.hw_params.specs.Spans.{IsGreatest};

use crate::base::{Base, base_of};
use crate::masks::{accesses_in, formats_in, width};
use crate::sizes::{Sizes, sizes_of};
use pcm_base::{CardModel, Errno, Space, Span};

/// The most channels beside the least rate, where a frame has room for so many samples.
fn most_channels(model: &CardModel, base: &Base, samples: u64) -> u64
    ensures { IsGreatest (CanHaveChannels model.now base.now samples) result }
{
    let most = base.channels.most.min(samples);
    if base.rate.least > model.wide_rate {
        most.min(2)
    } else {
        most
    }
}

/// The greatest rate beside the least channels.
fn most_rate(model: &CardModel, base: &Base) -> u64
    ensures { IsGreatest (CanHaveRate model.now base.now) result }
{
    if base.channels.least > 2 {
        base.rate.most.min(model.wide_rate)
    } else {
        base.rate.most
    }
}

/// The box round what leaves the most room and the sizes that fit beside it. The least buffer leaves the most bytes for a
/// frame, and so decides which formats and channels occur.
fn box_of(model: &CardModel, space: &Space, base: &Base, sizes: &Sizes) -> Space
    requires channels { HasChannels model.now }
    requires base { IsBase model.now space.now base.now }
    requires sizes { AreRanges (Fits base.now.sizes) sizes.now }
    ensures { IsHull model.now space.now result }
{
    let frame_bytes = model.buffer_bytes / sizes.buffer.least;
    let samples = frame_bytes / width(base.format);
    let sample_bytes = frame_bytes / base.channels.least;
    Space {
        accesses: accesses_in(model.accesses & space.accesses),
        formats: formats_in(model.formats & space.formats, sample_bytes),
        channels: Span {
            least: base.channels.least,
            most: most_channels(model, base, samples),
        },
        rate: Span {
            least: base.rate.least,
            most: most_rate(model, base),
        },
        period: sizes.period,
        periods: sizes.periods,
        buffer: sizes.buffer,
    }
}

/// The box, if a configuration is left.
fn hull_of(model: &CardModel, space: &Space) -> Option<Space>
    requires { HasChannels model.now }
    ensures { MatchOption result (HasNone model.now space.now) (λ h. IsHull model.now space.now h) }
{
    let Some(base) = base_of(model, space) else {
        return None;
    };
    let Some(sizes) = sizes_of(&base.sizes) else {
        return None;
    };
    Some(box_of(model, space, &base, &sizes))
}

/// The least box that holds every configuration that the model allows in the space: the accesses and formats that occur,
/// and of channels, rate (Hz), period (frames), periods and buffer (frames) the least and the greatest that occur. EINVAL
/// exactly where none is left, and no other error (`snd_pcm_hw_refine` of `pcm_native.c`). The model has 1 to 8 channels;
/// the numbers of the space are any.
pub fn refine(model: &CardModel, space: &Space) -> Result<Space, Errno>
    requires { HasChannels model.now }
    ensures hull { IfOk result (λ h. IsHull model.now space.now h) }
    ensures none { OnErr result (HasNone model.now space.now) }
    ensures einval { IfErr result (λ e. e ≡ Errno.Einval) }
{
    hull_of(model, space).ok_or(Errno::Einval)
}

/// A model and a space have one such box, and where there is one a configuration is left. A law, with no body.
pub fn one_hull()
    ensures one { (m : CardModel) (s h k : Space) → IsHull m s h → IsHull m s k → h ≡ k }
    ensures some { (m : CardModel) (s h : Space) → IsHull m s h → HasNone m s → ⊥ }
{}

/// The box holds each configuration that is left, and lies in each box that does. A law, with no body.
pub fn hull_is_the_least_box()
    ensures holds { (m : CardModel) (s h : Space) → IsHull m s h → HoldsAll m s h }
    ensures least { (m : CardModel) (s h k : Space) → IsHull m s h → HoldsAll m s k → HoldsBox k h }
{}
