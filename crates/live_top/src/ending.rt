// How a run ends that was gathered.
ghost use Rattle.std.specs.Prelude.{◌≡◌, ◌≢◌, true, false};
ghost use Rattle.std.specs.declared.option.Option.{Option as OptionOf};
ghost use Rattle.pcm_base.specs.Causes.{Rose};
ghost use Rattle.pcm_io.specs.Shelf.{Files, Stay};
ghost use Rattle.pcm_text.specs.declared.status.Status.TheVariants as status_is;
ghost use Rattle.live_plan.specs.Sound.{IsSound};
ghost use Rattle.live_top.specs.Played.{IsGatheredRun};
ghost use Rattle.live_top.specs.RunEnds.{IsRunEnd};

use crate::filling::can_fill_logs;
use crate::report::{full_count, report_stopped, report_whole};
use crate::saves::save_all;
use live_gather::Gathered;
use live_plan::Plan;
use pcm_io::{Shelf, Sink};
use pcm_text::{Status, Which};
use std::alloc::Global;

/// The logs are written, and the log that takes no more entries is told.
///
/// A plan with neither a link nor a call that may wait does not come here: each of its at most 65,536 lines has one entry in
/// one log, and each of its at most 1,048,576 beats has two. That is far below what a log takes. It is not proved, and
/// such a run would end as for want of memory.
pub(crate) fn end_full<K: Sink>(alloc: Global, plan: &Plan, all: &[Gathered], out: &mut K) -> Status
    ensures ended { (files files_now : OptionOf Files) → Stay files files_now → IsGatheredRun false plan.now files all.now → IsRunEnd plan.now files files_now (K.written out.old) (K.written out.new) result }
    ensures write { result ≡ status_is.WriteFault → Rose (K.faults out.old) (K.faults out.new) }
    ensures calm { result ≢ status_is.WriteFault → K.faults out.new ≡ K.faults out.old }
    ensures no_store { result ≢ status_is.ShelfFault }
{
    if !can_fill_logs(plan) {
        return Status::Memory;
    }
    let Some(count) = full_count(all) else {
        return Status::Memory;
    };
    match report_stopped(alloc, all, out) {
        Ok(()) => Status::Limit(Which::LogEntries, count),
        Err(status) => status,
    }
}

/// The logs and the `end` lines are written, and the files of the plan stored.
pub(crate) fn end_whole<K: Sink, F: Shelf>(
    alloc: Global,
    plan: &Plan,
    all: &[Gathered],
    out: &mut K,
    shelf: &mut F,
) -> Status
    requires sound { IsSound plan.now }
    requires run { (files : OptionOf Files) × IsGatheredRun true plan.now files all.now }
    ensures ended { (files : OptionOf Files) → Stay files (F.files shelf.old) → IsGatheredRun true plan.now files all.now → IsRunEnd plan.now files (F.files shelf.new) (K.written out.old) (K.written out.new) result }
    ensures write { result ≡ status_is.WriteFault → Rose (K.faults out.old) (K.faults out.new) }
    ensures calm_sink { result ≢ status_is.WriteFault → K.faults out.new ≡ K.faults out.old }
    ensures store { result ≡ status_is.ShelfFault → Rose (F.faults shelf.old) (F.faults shelf.new) }
    ensures calm_shelf { result ≢ status_is.ShelfFault → F.faults shelf.new ≡ F.faults shelf.old }
{
    if let Err(status) = report_whole(alloc, all, out) {
        return status;
    }
    match save_all(alloc, plan, all, shelf) {
        Ok(()) => Status::Ok,
        Err(status) => status,
    }
}
