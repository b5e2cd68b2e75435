// A generated script, run for what its lines come to.
ghost use Rattle.std.specs.Prelude.{◌≡◌, ◌≢◌, ◌≤◌, ◌<◌, ◌+◌, ◌++◌, ◌∷◌, ◌^◌, [], true, decimal, length, if◌then◌else◌, IfOk, IfNone, IfSome, OnOk};
ghost use Rattle.pcm_base.specs.Causes.{Rose};
ghost use Rattle.pcm_base.specs.declared.reply.Reply.TheVariants as reply_of;
ghost use Rattle.pcm_base.specs.model.World.{World as ModelWorld, empty};
ghost use Rattle.pcm_line.specs.Grammar.{IsLine};
ghost use Rattle.pcm_line.specs.Sayable.{Sayable};
ghost use Rattle.pcm_top.specs.Gen.{AreGenerated, AreSums, GenEnds, IsExecuted, IsGeneratedLine, IsTotalOf, Totalled, answer_to, counted, errors_of, frames_of, is_generated, is_write, moved_of, no_totals, totals_line as totals_line_of};
ghost use Rattle.pcm_top.specs.declared.generated.Totals.{Totals as TotalsOf};
ghost use Rattle.pcm_top.specs.Lines.{lines_of};
ghost use Rattle.pcm_world.specs.Shown.{IsWorld, shown};

use crate::told::told_of;
use itoa::Buffer;
use memchr::memchr;
use pcm_base::{Call, Event, Reply, Told};
use pcm_gen::gen_script;
use pcm_io::{Sink, write_all};
use pcm_line::{Line, LineError, read_line};
use pcm_text::{Status, Which, push_text};
use pcm_world::World;
use std::alloc::{AllocError, Global};

/// The greatest number of a generated script.
const MOST_ROUNDS: u64 = 1000;

/// What lines came to: how many were executed, the frames that writes were answered with, the frames that cards moved, the
/// errors that were answered, and the clients that were marked awake. Sums of 128 bits cannot overflow: there are fewer than
/// 2^63 lines, and none adds as much as 2^64. This project's own.
#[derive(Clone, Copy)]
pub struct Totals {
    lines: u128,
    frames: u128,
    moved: u128,
    errors: u128,
    wakes: u128,
}

// The frames with which a write was answered.
fn frames_written(line: &Line, reply: Reply) -> u64
    ensures { result ≡ (if is_write line.now then frames_of reply else 0) }
{
    match (line, reply) {
        (Line::Event(event, _), Reply::Frames(frames)) => match event.call {
            Call::Write(..) => frames,
            _ => 0,
        },
        _ => 0,
    }
}

// The frames that a card moved.
fn frames_moved(reply: Reply) -> u64
    ensures { result ≡ moved_of reply }
{
    match reply {
        Reply::Moved(frames) => frames,
        _ => 0,
    }
}

fn errors(reply: Reply) -> u64
    ensures { result ≡ errors_of reply }
{
    match reply {
        Reply::Err(_) => 1,
        _ => 0,
    }
}

impl Totals {
    // Counts a line with its answer.
    fn count(&mut self, line: &Line, told: &Told)
        requires sums { AreSums self.old }
        requires few { self.old.lines < 2 ^ 63 }
        ensures counted { self.new ≡ counted line.now told.now self.old }
        ensures sums { AreSums self.new }
    {
        self.lines += 1;
        self.frames += u128::from(frames_written(line, told.reply));
        self.moved += u128::from(frames_moved(told.reply));
        self.errors += u128::from(errors(told.reply));
        self.wakes += u128::from(told.woken.count_ones());
    }
}

// The line of these bytes. An error comes for want of memory alone.
fn line_of(alloc: Global, bytes: &[u8]) -> Result<Line, AllocError>
    requires { IsGeneratedLine bytes.now }
    ensures says { IfOk result (λ line. IsLine bytes.now line) }
    ensures kind { IfOk result (λ line. is_generated line ≡ true) }
{
    match read_line(alloc, bytes) {
        Ok(line) => Ok(line),
        Err(error) => match error {
            LineError::Memory => Err(AllocError),
            _ => unreachable!(),
        },
    }
}

// Executes the line. `Memory` leaves the world as it was.
fn answer(world: &mut World, line: &Line) -> Told
    requires says { Sayable line.now }
    requires kind { is_generated line.now ≡ true }
    ensures told { (w : ModelWorld) → IsWorld world.old w → result.reply ≢ reply_of.Memory → result ≡ shown (answer_to line.now w) }
    ensures world { (w : ModelWorld) → IsWorld world.old w → result.reply ≢ reply_of.Memory → IsWorld world.new (answer_to line.now w).world }
{
    match line {
        Line::LongMax(n) => Told {
            reply: world.set_long(*n),
            state: None,
            woken: 0,
        },
        Line::Card(sub, model, dir) => {
            let reply = world.declare(*sub, *model, *dir);
            told_of(world, *sub, reply)
        }
        Line::Event(event, bytes) => world.step(event, bytes.as_slice()),
        _ => unreachable!(),
    }
}

// Executes the line of these bytes, and counts it.
fn execute(
    alloc: Global,
    bytes: &[u8],
    world: &mut World,
    totals: &mut Totals,
) -> Result<(), AllocError>
    requires line { IsGeneratedLine bytes.now }
    requires sums { AreSums totals.old }
    requires few { totals.old.lines < 2 ^ 63 }
    ensures executed { (w : ModelWorld) → IsWorld world.old w → OnOk result (IsExecuted bytes.now w world.new totals.old totals.new) }
    ensures sums { OnOk result (AreSums totals.new) }
    ensures one { OnOk result (totals.new.lines ≡ totals.old.lines + 1) }
{
    let line = line_of(alloc, bytes)?;
    let told = answer(world, &line);
    match told.reply {
        Reply::Memory => Err(AllocError),
        _ => {
            totals.count(&line, &told);
            Ok(())
        }
    }
}

// The first line of a text, and what stands behind its line feed; None where no byte is left.
fn first_line(text: &[u8]) -> Option<(&[u8], &[u8])>
    ensures none { IfNone result (text.now ≡ []) }
    ensures cut { IfSome result (λ cut. lines_of text.now ≡ cut.0.now ∷ lines_of cut.1.now) }
    ensures shorter { IfSome result (λ cut. length cut.1.now < length text.now) }
{
    if text.is_empty() {
        return None;
    }
    match memchr(b'\n', text) {
        Some(at) => Some((&text[..at], &text[at + 1..])),
        None => Some((text, &[])),
    }
}

// What the lines of the script come to, each executed behind those before it.
fn totals_of(alloc: Global, script: &[u8]) -> Result<Totals, AllocError>
    requires { AreGenerated (lines_of script.now) }
    ensures { IfOk result (λ all. Totalled (lines_of script.now) empty no_totals all) }
{
    let mut world = World::new(alloc);
    let mut totals = Totals {
        lines: 0,
        frames: 0,
        moved: 0,
        errors: 0,
        wakes: 0,
    };
    let mut rest = script;
    'lines: while let Some((line, more)) = first_line(rest) {
        execute(alloc, line, &mut world, &mut totals)?;
        rest = more;
    }
    Ok(totals)
}

fn push_sum(text: &mut Vec<u8>, sum: u128) -> Result<(), AllocError>
    ensures { OnOk result (text.new.items ≡ text.old.items ++ decimal sum) }
{
    push_text(text, Buffer::new().format(sum).as_bytes())
}

fn totals_line(alloc: Global, totals: &Totals) -> Result<Vec<u8>, AllocError>
    ensures { IfOk result (λ line. line.items ≡ totals_line_of totals.now) }
{
    let mut line = Vec::new(alloc);
    push_text(&mut line, b"lines ")?;
    push_sum(&mut line, totals.lines)?;
    push_text(&mut line, b" frames ")?;
    push_sum(&mut line, totals.frames)?;
    push_text(&mut line, b" moved ")?;
    push_sum(&mut line, totals.moved)?;
    push_text(&mut line, b" errors ")?;
    push_sum(&mut line, totals.errors)?;
    push_text(&mut line, b" wakes ")?;
    push_sum(&mut line, totals.wakes)?;
    push_text(&mut line, b"\n")?;
    Ok(line)
}

// The line of the generated script of this number.
fn generated_line(alloc: Global, number: u64) -> Result<Vec<u8>, AllocError>
    requires { number ≤ MOST_ROUNDS }
    ensures { IfOk result (λ line. (all : TotalsOf) × IsTotalOf number all × (line.items ≡ totals_line_of all)) }
{
    let script = gen_script(alloc, number)?;
    let totals = totals_of(alloc, &script)?;
    totals_line(alloc, &totals)
}

/// Runs the generated script of this number, and writes what its lines came to. This project's own.
pub fn run_generated<K: Sink>(alloc: Global, number: u64, out: &mut K) -> Status
    ensures ends { GenEnds number (K.written out.old) (K.written out.new) result }
    ensures write { result ≡ Status.WriteFault → Rose (K.faults out.old) (K.faults out.new) }
    ensures calm_sink { result ≢ Status.WriteFault → K.faults out.new ≡ K.faults out.old }
{
    if number > MOST_ROUNDS {
        return Status::Limit(Which::GenNumber, number);
    }
    let Ok(line) = generated_line(alloc, number) else {
        return Status::Memory;
    };
    match write_all(out, &line) {
        Ok(()) => Status::Ok,
        Err(_) => Status::WriteFault,
    }
}
