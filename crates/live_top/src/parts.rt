// What each worker does.
ghost use Rattle.std.specs.Prelude.{◌≡◌, ℕ, length, slice_get, IfOk, vec_len};
ghost use Rattle.std.specs.declared.option.Option.TheVariants.{Some as Is};
ghost use Rattle.room_parts.specs.declared.pass.Caller.TheVariants.{Card as CardCaller, Client as ClientCaller};
ghost use Rattle.live_plan.specs.Sound.{IsSound};
ghost use Rattle.live_top.specs.Jobs.{AreJobs, IsOfCard, IsOfClient, IsOfLines};

use crossbeam_utils::sync::Parker;
use live_plan::Plan;
use live_work::{Beats, Stop};
use pcm_base::{ClientId, Dir, SubId};
use pcm_line::Line;
use room_parts::{FloorName, Pass};
use std::alloc::{AllocError, Global};

/// What a worker does: the lines of a client, the beats of a card, or nothing.
#[derive(Drop)]
pub(crate) enum Part<'a> {
    Client(ClientId, Parker, &'a [Line]),
    Card(Beats),
    Idle,
}

/// A worker's part and its pass.
#[derive(Drop)]
pub(crate) struct Job<'a, N: FloorName> {
    pub pass: Pass<N>,
    pub part: Part<'a>,
}

/// A worker's pass once it has ended, and why it stopped if it did.
#[derive(Drop)]
pub(crate) struct Worked<N: FloorName> {
    pub pass: Pass<N>,
    pub ran: Result<(), Stop>,
}

/// How many clients have lines.
pub(crate) fn client_count(plan: &Plan) -> u64 {
    let mut count = 0;
    for lines in &plan.clients {
        if !lines.is_empty() {
            count += 1;
        }
    }
    count
}

// The part of a client: its lines, or nothing where it has none.
fn part_of(client: ClientId, parker: Parker, lines: &[Line]) -> Part<'_>
    ensures { IsOfLines client lines.now result }
{
    if lines.is_empty() {
        Part::Idle
    } else {
        Part::Client(client, parker, lines)
    }
}

// The beats of a card that the plan has.
fn beats_of(plan: &Plan, sub: SubId, dir: Dir) -> Part<'_>
    ensures { IsOfCard plan.now sub.0 result }
{
    for line in &plan.beats {
        match line {
            Line::Beat(k, frames, count) if k.0 == sub.0 => {
                return Part::Card(Beats {
                    sub,
                    dir,
                    frames: *frames,
                    count: *count,
                });
            }
            _ => {}
        }
    }
    Part::Idle
}

/// A job for the pass of each client, in order. A pass with a call in progress can begin no other: that would be told as want of
/// memory, but a setup has no call that waits, and so leaves none in progress.
pub(crate) fn client_jobs<'a, N: FloorName>(
    alloc: Global,
    plan: &'a Plan,
    passes: Vec<Pass<N>>,
    parkers: Vec<Parker>,
) -> Result<Vec<Job<'a, N>>, AllocError>
    requires passes { vec_len passes ≡ 16 }
    requires parkers { vec_len parkers ≡ 16 }
    requires callers { (c : ℕ) (p : _) → slice_get passes.items c ≡ Is p → p.caller ≡ ClientCaller (record { 0 = c }) }
    requires sound { IsSound plan.now }
    requires cards { length N.cards ≡ length plan.now.cards.items }
    ensures { IfOk result (λ jobs. AreJobs (length N.cards) (IsOfClient plan.now) 16 passes.items jobs.items) }
{
    let mut jobs = Vec::with_capacity(alloc, 32)?;
    let mut passes_left = passes.into_iter();
    let mut parkers_left = parkers.into_iter();
    for number in 0..16u8 {
        let (Some(pass), Some(parker)) = (passes_left.next(), parkers_left.next()) else {
            unreachable!()
        };
        if pass.busy().is_some() {
            return Err(AllocError);
        }
        let lines = plan.clients[usize::from(number)].as_slice();
        let part = part_of(ClientId(number), parker, lines);
        jobs.push(Job { pass, part })?;
    }
    Ok(jobs)
}

/// A job for the pass of each card, in order.
pub(crate) fn card_jobs<'a, N: FloorName>(
    alloc: Global,
    plan: &'a Plan,
    passes: Vec<Pass<N>>,
) -> Result<Vec<Job<'a, N>>, AllocError>
    requires passes { vec_len passes ≡ length N.cards }
    requires callers { (k : ℕ) (p : _) → slice_get passes.items k ≡ Is p → p.caller ≡ CardCaller (record { 0 = k }) }
    requires sound { IsSound plan.now }
    requires cards { length N.cards ≡ length plan.now.cards.items }
    ensures { IfOk result (λ jobs. AreJobs (length N.cards) (IsOfCard plan.now) (length N.cards) passes.items jobs.items) }
{
    let mut jobs = Vec::with_capacity(alloc, passes.len())?;
    let mut passes_left = passes.into_iter();
    for number in 0..plan.cards.len() {
        let Some(pass) = passes_left.next() else {
            unreachable!()
        };
        let part = beats_of(plan, SubId(number as u8), plan.cards[number].1);
        jobs.push(Job { pass, part })?;
    }
    Ok(jobs)
}
