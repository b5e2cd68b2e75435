// All that the program does.
ghost use Rattle.std.specs.Prelude.{◌≡◌, ◌≢◌, ◌↔◌, [], true, IfSome};
ghost use Rattle.pcm_base.specs.Causes.{Rose};
ghost use Rattle.pcm_text.specs.declared.status.Status.TheVariants as status_is;
ghost use Rattle.live_plan.specs.Plan.{Answer, ComesTo, IsPlan};
ghost use Rattle.live_plan.specs.declared.plan.Plan.{Plan as PlanOf};
ghost use Rattle.live_top.specs.Complete.{IsGoodEnd, IsReady};
ghost use Rattle.live_top.specs.RunEnds.{Ends, is_given, status_of as status_of_fault};

use crate::run::run_plan;
use floor_rule::SharedWords;
use live_plan::{PlanError, read_plan};
use live_work::Gate;
use pcm_io::{Shelf, Sink, Source};
use pcm_text::Status;
use std::alloc::Global;
use std::marker::Brand;
use std::sync::Wait;
use std::sync::ledger::Blank;
use std::thread::Threads;

fn status_of(fault: PlanError) -> Status
    ensures { result ≡ status_of_fault fault }
{
    match fault {
        PlanError::Read => Status::ReadFault,
        PlanError::BadLine(line, fault) => Status::BadLine(line, fault),
        PlanError::Limit(which, value) => Status::Limit(which, value),
        PlanError::Memory => Status::Memory,
    }
}

/// Runs the plan of the source. The whole plan is read and checked first. Its setup runs in order on the calling thread; then a
/// worker for each client that has lines makes its calls in order, and one for each `beat` line moves its card, all at the
/// same time. Once they have ended the logs are written, one for each card, then the `end` lines, and then the files of the
/// `save` lines are stored. `gate` is passed before each call of a client's worker. It may wait for ever; what it promises
/// holds where it returns.
///
/// There are no words, else it is `Usage`. A log that takes no more entries and want of memory stop all workers. After the first the
/// logs are written all the same, without `end` lines and saves, and the status is the limit with the length of the first log
/// of more than 16,777,212 entries, which comes of no plan that has neither a link nor a call that may wait; after the other nothing is
/// written.
pub fn live_main<S: Source, K: Sink, F: Shelf, G: Gate + Sync, R: Threads + Wait + Sync>(
    rt: &R,
    alloc: Global,
    words: &[String],
    plan: &mut S,
    out: &mut K,
    shelf: &mut F,
    gate: &G,
) -> Status
    ensures usage { (result ≡ status_is.Usage) ↔ (words.now ≢ []) }
    ensures untouched { result ≡ status_is.Usage → (plan.new ≡ plan.old) × (out.new ≡ out.old) × (shelf.new ≡ shelf.old) }
    ensures ends { words.now ≡ [] → IfSome (S.left plan.old) (λ bytes. (answer : Answer) → ComesTo bytes answer
        → Ends answer (F.files shelf.old) (F.files shelf.new) (K.written out.old) (K.written out.new) result) }
    ensures statuses { is_given result ≡ true }

    // A plan whose files are there comes to its end where nothing fails, unless memory runs out or, with a link or a call that may
    // wait, it fills a log.
    ensures complete { words.now ≡ [] → (¬ Rose (S.faults plan.old) (S.faults plan.new)) → (¬ Rose (K.faults out.old) (K.faults out.new)) → (¬ Rose (F.faults shelf.old) (F.faults shelf.new))
        → IfSome (S.left plan.old) (λ bytes. (p : PlanOf) → IsPlan bytes p → IsReady (F.files shelf.old) p → IsGoodEnd p result) }

    // ReadFault, WriteFault and ShelfFault come only where the count of faults of the source, the sink or the shelf rose.
    ensures read { result ≡ status_is.ReadFault → Rose (S.faults plan.old) (S.faults plan.new) }
    ensures calm_source { result ≢ status_is.ReadFault → S.faults plan.new ≡ S.faults plan.old }
    ensures write { result ≡ status_is.WriteFault → Rose (K.faults out.old) (K.faults out.new) }
    ensures calm_sink { result ≢ status_is.WriteFault → K.faults out.new ≡ K.faults out.old }
    ensures store { result ≡ status_is.ShelfFault → Rose (F.faults shelf.old) (F.faults shelf.new) }
    ensures calm_shelf { result ≢ status_is.ShelfFault → F.faults shelf.new ≡ F.faults shelf.old }
{
    if !words.is_empty() {
        return Status::Usage;
    }
    let plan = match read_plan(alloc, plan) {
        Ok(plan) => plan,
        Err(fault) => return status_of(fault),
    };
    let Ok((shared, maker)) = SharedWords::new(alloc, plan.cards.len() as u64) else {
        return Status::Memory;
    };
    run_plan::<Brand, K, F, G, R>(
        rt,
        alloc,
        Blank::new(32),
        shared,
        maker,
        &plan,
        out,
        shelf,
        gate,
    )
}
