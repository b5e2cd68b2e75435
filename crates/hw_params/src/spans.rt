// Spans of numbers.
ghost use Rattle.std.specs.Prelude.{◌≡◌, ◌↔◌, IsTrue};
ghost use Rattle.hw_params.specs.Spans.{Within, IsCommon, joined};

use pcm_base::Span;

/// Whether the number lies in the span.
pub fn holds(span: &Span, n: u64) -> bool
    ensures { IsTrue result ↔ Within span.now n }
{
    span.least <= n && n <= span.most
}

/// What lies in both spans.
pub fn common_of(a: Span, b: Span) -> Span
    ensures { IsCommon a b result }
{
    Span {
        least: a.least.max(b.least),
        most: a.most.min(b.most),
    }
}

/// The least span that holds both.
pub fn joined_of(a: Span, b: Span) -> Span
    ensures { result ≡ joined a b }
{
    Span {
        least: a.least.min(b.least),
        most: a.most.max(b.most),
    }
}
