// The lines of a plan, taken one after another as they are read.
ghost use Rattle.std.specs.Prelude.{◌≡◌, ◌≢◌, ◌≤◌, ◌<◌, ◌+◌, ◌⊎◌, Err, IfOk, IfErr, IfSome, OnOk};
ghost use Rattle.std.specs.Io.KnownBytes.{IsAtEnd};
ghost use Rattle.pcm_base.specs.Causes.{Rose};
ghost use Rattle.pcm_line.specs.declared.error.LineError.TheVariants as line_error;
ghost use Rattle.live_plan.specs.declared.error.PlanError.TheVariants.{Read, BadLine, Memory};
ghost use Rattle.live_plan.specs.declared.part.Part.TheVariants.{End};
ghost use Rattle.live_plan.specs.Draft.{StandsFor, IsDraftOf, IsUnfinished};
ghost use Rattle.live_plan.specs.Lines.{line_limit, beat_limit};
ghost use Rattle.live_plan.specs.Plan.{Answer, ComesTo, Gives, HasAll, IsPlan, IsRefused};
ghost use Rattle.live_plan.specs.Said.{Said, part_of, beat_sum};
ghost use Rattle.live_plan.specs.Sound.{IsSound};

use crate::draft::Draft;
use crate::error::PlanError;
use crate::part::Part;
use crate::plan::Plan;
use pcm_io::{Lines, ReadEnd, Source};
use pcm_line::LineError;
use pcm_text::Which;
use std::alloc::Global;

/// The most lines of a plan.
const LINE_LIMIT: u64 = 65_536;

/// The most bytes of a plan.
const BYTE_LIMIT: usize = 4_194_304;

/// The most beats over all.
const BEAT_LIMIT: u64 = 1_048_576;

// The plan of which all lines were read.
fn finished(draft: Draft) -> Result<Plan, PlanError>
    requires { draft.count ≤ line_limit }
    ensures plan { (said : Said) → StandsFor draft said → IfOk result (λ plan. HasAll plan said × (part_of said ≡ End) × (beat_sum said ≤ beat_limit)) }
    ensures refused { (said : Said) → StandsFor draft said → IfErr result (λ e. IsUnfinished said e) }
{
    if !matches!(draft.part, Part::End) {
        return Err(PlanError::BadLine(draft.count + 1, LineError::Short));
    }
    if draft.beats > BEAT_LIMIT {
        return Err(PlanError::Limit(Which::Beats, draft.beats));
    }
    Ok(draft.plan)
}

// The plan ends at this fault of the line behind so many.
fn at_fault(count: u64, fault: LineError) -> PlanError
    requires { count < line_limit }
    ensures { ((fault ≡ line_error.Memory) × (result ≡ Memory)) ⊎ ((fault ≢ line_error.Memory) × (result ≡ BadLine (count + 1) fault)) }
{
    match fault {
        LineError::Memory => PlanError::Memory,
        _ => PlanError::BadLine(count + 1, fault),
    }
}

// The draft that has all lines of the source, each looked at as soon as it is read.
fn read_lines<S: Source>(alloc: Global, source: &mut S) -> Result<Draft, PlanError>
    ensures drafted { IfOk result (λ draft. IsDraftOf draft (S.left source.old)) }
    ensures refused { IfErr result (λ e. IfSome (S.left source.old) (λ bytes. IsRefused bytes e)) }
    ensures end { OnOk result (IsAtEnd (S.left source.new)) }

    // A fault of the source is the one cause of Read.
    ensures read { result ≡ Err Read → Rose (S.faults source.old) (S.faults source.new) }
    ensures calm { result ≢ Err Read → S.faults source.new ≡ S.faults source.old }
{
    let mut lines = Lines::new(alloc, BYTE_LIMIT + 1);
    let Ok(mut draft) = Draft::new(alloc) else {
        return Err(PlanError::Memory);
    };
    'lines: loop {
        match lines.has_more(source) {
            Ok(true) => {}
            Ok(false) => break,
            Err(_) => return Err(PlanError::Read),
        }
        if draft.count == LINE_LIMIT {
            return Err(PlanError::Limit(Which::PlanLines, LINE_LIMIT + 1));
        }
        match lines.next_line(source) {
            Ok(()) => {}
            Err(ReadEnd::Failed) => return Err(PlanError::Read),
            Err(ReadEnd::Memory) => return Err(PlanError::Memory),
        }
        if lines.is_used_up() {
            return Err(PlanError::Limit(Which::PlanBytes, BYTE_LIMIT as u64 + 1));
        }
        let count = draft.count;
        match draft.take_line(alloc, lines.line()) {
            Ok(()) => {}
            Err(fault) => return Err(at_fault(count, fault)),
        }
    }
    Ok(draft)
}

/// The plan that a source holds, or why there is none: of the lines, each looked at as soon as it is read, the first that is
/// at fault or passes a limit decides. A line past the limit of 65,536 lines comes before one past the limit of 4,194,304
/// bytes, and both before the fault of that line; more than 1,048,576 beats over all are told behind the last line. It reads
/// no byte behind the first one past the limit. This project's own.
pub fn read_plan<S: Source>(alloc: Global, source: &mut S) -> Result<Plan, PlanError>
    // Where the source tells its bytes: they are those of the plan, or why they are not.
    ensures plan { IfOk result (λ plan. IfSome (S.left source.old) (λ bytes. IsPlan bytes plan)) }
    ensures refused { IfErr result (λ e. IfSome (S.left source.old) (λ bytes. IsRefused bytes e)) }
    // What they come to is what is answered, unless a read fails or memory runs out.
    ensures exact { IfSome (S.left source.old) (λ bytes. (answer : Answer) → ComesTo bytes answer → Gives result answer) }
    // A plan is read to its end.
    ensures end { OnOk result (IsAtEnd (S.left source.new)) }
    // Whatever the source tells, a plan can be run.
    ensures sound { IfOk result (λ plan. IsSound plan) }
    // A fault of the source is the one cause of Read.
    ensures read { result ≡ Err Read → Rose (S.faults source.old) (S.faults source.new) }
    ensures calm { result ≢ Err Read → S.faults source.new ≡ S.faults source.old }
{
    let draft = read_lines(alloc, source)?;
    finished(draft)
}
