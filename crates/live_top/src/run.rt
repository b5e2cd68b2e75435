// A plan that is run.
ghost use Rattle.std.specs.Prelude.{◌≡◌, ◌≢◌, [], Err, true, false, length, map, IfErr, IfOk};
ghost use Rattle.std.specs.declared.option.Option.TheVariants.{None as Nothing};
ghost use Rattle.pcm_base.specs.Causes.{Rose};
ghost use Rattle.pcm_io.specs.Shelf.{Stay};
ghost use Rattle.pcm_text.specs.declared.status.Status.TheVariants as status_is;
ghost use Rattle.live_floor.specs.Cards.{limits};
ghost use Rattle.live_plan.specs.Sound.{IsSound};
ghost use Rattle.live_top.specs.Passes.{AreWhose};
ghost use Rattle.live_top.specs.Played.{HavePlayed};
ghost use Rattle.live_top.specs.RunEnds.{IsRunEnd};
ghost use Rattle.live_top.specs.Setup.{IsSetupHalt};
ghost use Rattle.live_top.specs.declared.halt.Halt.TheVariants.{Ended};

use crate::ending::{end_full, end_whole};
use crate::halt::Halt;
use crate::setup::set_up;
use crate::workers::run_workers;
use floor_rule::{Maker, SharedWords};
use live_floor::{Floor, Passes};
use live_plan::Plan;
use live_work::{Gate, Stop};
use pcm_io::{Shelf, Sink};
use pcm_text::Status;
use room_parts::FloorName;
use std::alloc::Global;
use std::sync::Wait;
use std::sync::ledger::{Blank, Ledger};
use std::thread::Threads;

// The setup, and then the workers, unless the setup filled a log.
fn play<N: FloorName + Ledger + Send + Sync, F: Shelf, G: Gate + Sync, R: Threads + Wait + Sync>(
    rt: &R,
    alloc: Global,
    floor: &Floor<N>,
    mut passes: Passes<N>,
    plan: &Plan,
    shelf: &mut F,
    gate: &G,
) -> Result<(Passes<N>, Option<Stop>), Halt>
    requires whose { AreWhose (length N.cards) passes.clients.items passes.cards.items }
    requires sound { IsSound plan.now }
    requires cards { length N.cards ≡ length plan.now.cards.items }
    ensures whose { IfOk result (λ r. AreWhose (length N.cards) r.0.clients.items r.0.cards.items) }
    ensures whole { IfOk result (λ r. r.1 ≡ Nothing → HavePlayed N.cards N.long_max true plan.now (F.files shelf.old) passes.clients.items r.0.clients.items passes.cards.items r.0.cards.items) }
    ensures first { IfOk result (λ r. HavePlayed N.cards N.long_max false plan.now (F.files shelf.old) passes.clients.items r.0.clients.items passes.cards.items r.0.cards.items) }
    ensures halted { IfErr result (IsSetupHalt (F.files shelf.old) plan.now.setup.items) }
    ensures stay { Stay (F.files shelf.old) (F.files shelf.new) }
    ensures rose { result ≡ Err (Ended status_is.ShelfFault) → Rose (F.faults shelf.old) (F.faults shelf.new) }
    ensures calm { result ≢ Err (Ended status_is.ShelfFault) → F.faults shelf.new ≡ F.faults shelf.old }
{
    match set_up(rt, alloc, floor, &mut passes, plan, shelf) {
        Ok(()) => {
            let (passes, stop) = run_workers(rt, alloc, floor, plan, gate, passes)?;
            Ok((passes, stop))
        }
        Err(Halt::Full) => Ok((passes, Some(Stop::LogFull))),
        Err(halt) => Err(halt),
    }
}

/// Runs a plan on a floor over these words, and writes and stores what comes of it.
pub(crate) fn run_plan<
    N: FloorName + Ledger + Send + Sync,
    K: Sink,
    F: Shelf,
    G: Gate + Sync,
    R: Threads + Wait + Sync,
>(
    rt: &R,
    alloc: Global,
    blank: Blank,
    words: SharedWords,
    maker: Maker,
    plan: &Plan,
    out: &mut K,
    shelf: &mut F,
    gate: &G,
) -> Status
    requires ledger { (blank.name ≡ N.name) × (blank.parts ≡ N.parts) × (N.parts ≡ 32) }
    requires words { words ≡ record { table = N.table; cards = length plan.now.cards.items } }
    requires maker { maker ≡ record { table = N.table; knows = record { recs = 0; passes = 0; roll = [] } } }
    requires cards { (N.cards ≡ map limits plan.now.cards.items) × (N.long_max ≡ plan.now.long_max) }
    requires sound { IsSound plan.now }
    ensures ended { IsRunEnd plan.now (F.files shelf.old) (F.files shelf.new) (K.written out.old) (K.written out.new) result }
    ensures write { result ≡ status_is.WriteFault → Rose (K.faults out.old) (K.faults out.new) }
    ensures calm_sink { result ≢ status_is.WriteFault → K.faults out.new ≡ K.faults out.old }
    ensures store { result ≡ status_is.ShelfFault → Rose (F.faults shelf.old) (F.faults shelf.new) }
    ensures calm_shelf { result ≢ status_is.ShelfFault → F.faults shelf.new ≡ F.faults shelf.old }
{
    let Ok((floor, passes)) = Floor::<N>::new(
        alloc,
        blank,
        words,
        maker,
        &plan.cards,
        plan.long_max,
    ) else {
        return Status::Memory;
    };
    match play(rt, alloc, &floor, passes, plan, shelf, gate) {
        Ok((passes, None)) => end_whole(alloc, plan, &floor.gather(passes), out, shelf),
        Ok((passes, Some(Stop::LogFull))) => end_full(alloc, plan, &floor.gather(passes), out),
        Ok((_, Some(Stop::Memory))) | Err(Halt::Full) => Status::Memory,
        Err(Halt::Ended(status)) => status,
    }
}
