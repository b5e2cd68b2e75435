// The configuration that leaves the most room. All limits but the spans bound from above, and each is met more easily with
// a narrower sample, fewer channels, a lower rate and a smaller buffer: so what occurs at all occurs beside these.
ghost use Rattle.std.specs.Prelude.{min, MatchOption};
ghost use Rattle.pcm_base.specs.CardFacts.{HasChannels};
ghost use Rattle.hw_params.specs.Base.{IsBase};
ghost use Rattle.hw_params.specs.Hull.{HasNone};
ghost use Rattle.hw_params.specs.Spans.{IsCommon};

use crate::masks::{narrowest, some_access, width};
use crate::sizes::Sizes;
use crate::spans::common_of;
use pcm_base::{Access, CardModel, Format, Space, Span};

/// Some access, a narrowest format, and the spans that are left of the others; the buffer's is for the least frame.
#[derive(Clone, Copy)]
pub struct Base {
    pub access: Access,
    pub format: Format,
    pub channels: Span,
    pub rate: Span,
    pub sizes: Sizes,
}

/// The spans of sizes that are left, where a buffer has at most `room` frames.
fn sizes_within(model: &CardModel, space: &Space, room: u64) -> Sizes
    ensures period { IsCommon model.now.period space.now.period result.period }
    ensures periods { IsCommon (record { least = 2; most = 32 }) space.now.periods result.periods }
    ensures buffer { IsCommon (record { least = 4; most = min room 65536 }) space.now.buffer result.buffer }
{
    let counts = Span { least: 2, most: 32 };
    let frames = Span {
        least: 4,
        most: room.min(65_536),
    };
    Sizes {
        period: common_of(model.period, space.period),
        periods: common_of(counts, space.periods),
        buffer: common_of(frames, space.buffer),
    }
}

/// The configuration that leaves the most room, or None where nothing is left before the sizes are looked at.
pub fn base_of(model: &CardModel, space: &Space) -> Option<Base>
    requires { HasChannels model.now }
    ensures { MatchOption result (HasNone model.now space.now) (λ b. IsBase model.now space.now b) }
{
    let Some(access) = some_access(model.accesses & space.accesses) else {
        return None;
    };
    let Some(format) = narrowest(model.formats & space.formats) else {
        return None;
    };
    let channels = common_of(model.channels, space.channels);
    let rate = common_of(model.rate, space.rate);
    if channels.least > channels.most || rate.least > rate.most {
        return None;
    }
    if rate.least > model.wide_rate && channels.least > 2 {
        return None;
    }
    let room = model.buffer_bytes / (width(format) * channels.least);
    Some(Base {
        access,
        format,
        channels,
        rate,
        sizes: sizes_within(model, space, room),
    })
}
