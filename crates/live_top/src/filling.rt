// Which plans can fill a log.
ghost use Rattle.std.specs.Prelude.{◌≡◌};
ghost use Rattle.std.specs.List.{list_any};
ghost use Rattle.live_top.specs.Filling.{can_fill as can_fill_of, can_fill_logs as can_fill_logs_of};

use live_plan::Plan;
use pcm_base::{Call, Mode};
use pcm_line::Line;

// A link, or a call that may wait.
fn can_fill(line: &Line) -> bool
    ensures { result ≡ can_fill_of line.now }
{
    match line {
        Line::Event(event, _) => matches!(
            event.call,
            Call::Link(_)
                | Call::Drain(Mode::Block)
                | Call::Write(_, Mode::Block)
                | Call::Read(_, Mode::Block, _)
        ),
        _ => false,
    }
}

fn has_one(lines: &[Line]) -> bool
    ensures { result ≡ list_any can_fill_of lines.now }
{
    lines.iter().any(|line| can_fill(line))
}

fn some_has_one(clients: &[Vec<Line>]) -> bool
    ensures { result ≡ list_any (λ lines. list_any can_fill_of lines.items) clients.now }
{
    clients.iter().any(|lines| has_one(lines))
}

/// Whether the plan has a link or a call that may wait. No other plan can fill a log.
pub(crate) fn can_fill_logs(plan: &Plan) -> bool
    ensures { result ≡ can_fill_logs_of plan.now }
{
    has_one(&plan.setup) || some_has_one(&plan.clients)
}
