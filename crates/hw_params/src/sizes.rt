// The least box of period, periods and buffer.
ghost use Rattle.std.specs.Prelude.{◌≡◌, ◌≤◌};
ghost use Rattle.hw_params.specs.Sizes.{Fits, FitsAt, IsBoxOf, both, either};
ghost use Rattle.hw_params.specs.Spans.{Within};

use crate::spans::joined_of;
use pcm_base::Span;

/// Spans of the period and the buffer, in frames, and of the count of periods.
#[derive(Clone, Copy)]
pub struct Sizes {
    pub period: Span,
    pub periods: Span,
    pub buffer: Span,
}

/// The least box that holds both.
fn both_of(a: Sizes, b: Sizes) -> Sizes
    ensures { result ≡ both a b }
{
    Sizes {
        period: joined_of(a.period, b.period),
        periods: joined_of(a.periods, b.periods),
        buffer: joined_of(a.buffer, b.buffer),
    }
}

/// The least box that holds what either holds.
fn either_of(before: Option<Sizes>, here: Option<Sizes>) -> Option<Sizes>
    ensures { result ≡ either before here }
{
    match (before, here) {
        (Some(a), Some(b)) => Some(both_of(a, b)),
        (None, b) => b,
        (a, None) => a,
    }
}

/// The box of the buffers of `count` periods.
fn sizes_at(spans: &Sizes, count: u64) -> Option<Sizes>
    requires within { Within spans.now.periods count }
    requires some { 1 ≤ count }
    requires buffer { spans.now.buffer.most ≤ 65536 }
    ensures { IsBoxOf (FitsAt spans.now count) result }
{
    let least = spans.period.least.max(spans.buffer.least.div_ceil(count));
    let most = spans.period.most.min(spans.buffer.most / count);
    if least > most {
        return None;
    }
    Some(Sizes {
        period: Span { least, most },
        periods: Span {
            least: count,
            most: count,
        },
        buffer: Span {
            least: least * count,
            most: most * count,
        },
    })
}

/// The box of all buffers of these spans. A count of periods may make no buffer where its neighbours do: each is tried.
pub fn sizes_of(spans: &Sizes) -> Option<Sizes>
    requires least { 1 ≤ spans.now.periods.least }
    requires most { spans.now.periods.most ≤ 32 }
    requires buffer { spans.now.buffer.most ≤ 65536 }
    ensures { IsBoxOf (Fits spans.now) result }
{
    let mut found: Option<Sizes> = None;
    for count in spans.periods.least..spans.periods.most + 1 {
        found = either_of(found, sizes_at(spans, count));
    }
    found
}
