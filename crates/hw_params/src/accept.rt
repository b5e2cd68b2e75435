// Whether a model allows a configuration, and the sizes that follow.
ghost use Rattle.std.specs.Prelude.{◌≡◌, ◌<◌, ◌^◌, ◌↔◌, IsTrue, true, false, IfOk, OnOk, OnErr, IfErr};
ghost use Rattle.pcm_base.specs.CardFacts.{HasChannels};
ghost use Rattle.pcm_base.specs.Shape.{IsSoundShape};
ghost use Rattle.pcm_base.specs.declared.config.CardModel.{CardModel};
ghost use Rattle.pcm_base.specs.declared.config.Config.{Config};
ghost use Rattle.pcm_base.specs.model.Allowed.{accepts, shape_of, allows as test_of};
ghost use Rattle.hw_params.specs.Hull.{Allowed};

use crate::masks::{has_access, has_format, width};
use crate::spans::holds;
use pcm_base::{CardModel, Config, Errno, Shape, boundary_of};

/// Whether the model allows the configuration.
fn allows(model: &CardModel, config: &Config) -> bool
    requires { HasChannels model.now }
    ensures { IsTrue result ↔ Allowed model.now config.now }
{
    // small enough that no product below wraps
    if config.periods > 32 || config.period > 65_536 || !holds(&model.channels, config.channels) {
        return false;
    }
    let buffer = config.period * config.periods;
    has_access(model.accesses, config.access)
        && has_format(model.formats, config.format)
        && holds(&model.rate, config.rate)
        && holds(&model.period, config.period)
        && config.periods >= 2
        && buffer >= 4
        && buffer <= 65_536
        && buffer * (width(config.format) * config.channels) <= model.buffer_bytes
        && (config.rate <= model.wide_rate || config.channels <= 2)
}

/// The sizes of the configuration, in bytes and frames, where `long_max` is LONG_MAX: EINVAL exactly where the model does
/// not allow it or four buffers exceed `long_max`, and no other error (`snd_pcm_hw_params` of `pcm_native.c`). The model
/// has 1 to 8 channels, and `long_max` is at most 2^36 - 1. The sizes agree with each other and with the boundary.
pub fn check(model: &CardModel, config: &Config, long_max: u64) -> Result<Shape, Errno>
    requires channels { HasChannels model.now }
    requires long_max { long_max < 2 ^ 36 }
    ensures ok { OnOk result (accepts model.now long_max config.now ≡ true) }
    ensures shape { IfOk result (λ shape. shape ≡ shape_of config.now long_max) }
    ensures sound { IfOk result IsSoundShape }
    ensures refused { OnErr result (accepts model.now long_max config.now ≡ false) }
    ensures einval { IfErr result (λ e. e ≡ Errno.Einval) }
{
    if !allows(model, config) {
        return Err(Errno::Einval);
    }
    let buffer = config.period * config.periods;
    if 4 * buffer > long_max {
        return Err(Errno::Einval);
    }
    Ok(Shape {
        frame_bytes: width(config.format) * config.channels,
        channels: config.channels,
        period: config.period,
        periods: config.periods,
        buffer,
        boundary: boundary_of(buffer, long_max),
    })
}

/// The test of the model says what `Allowed` says. A law, with no body.
pub fn allowed_is_the_test()
    ensures tested { (m : CardModel) (c : Config) → test_of m c ≡ true → Allowed m c }
    ensures passed { (m : CardModel) (c : Config) → Allowed m c → test_of m c ≡ true }
{}
