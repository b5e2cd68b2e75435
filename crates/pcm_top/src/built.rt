// The lines of `run` that are built.
ghost use Rattle.std.specs.Prelude.{◌≡◌};
ghost use Rattle.pcm_top.specs.Run.{is_built_at as is_built_at_of};

use pcm_line::Line;

/// Whether the line is one of `run` that is built in the place of this number: LONG_MAX, a card, an event, a feed, a
/// save or a carry, and as line 1 version 1 or 2. This project's own.
pub fn is_built_at(number: u64, line: &Line) -> bool
    ensures { result ≡ is_built_at_of number line.now }
{
    match line {
        Line::Version(n) => number == 1 && (*n == 1 || *n == 2),
        Line::LongMax(_) | Line::Card(..) | Line::Event(..) => true,
        Line::Feed(..) | Line::Save(..) | Line::Carry(..) => true,
        _ => false,
    }
}
