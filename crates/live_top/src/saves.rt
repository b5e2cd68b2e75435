// The files that a run stores at its end.
ghost use Rattle.std.specs.Prelude.{◌≡◌, ◌≢◌, ◌∷◌, [], ℕ, List, length, Err, IfErr, OnOk};
ghost use Rattle.std.specs.List.{AllByRecursion};
ghost use Rattle.pcm_base.specs.Causes.{Rose};
ghost use Rattle.pcm_base.specs.model.Stream.{Stream};
ghost use Rattle.pcm_io.specs.Shelf.{OthersStay, Stay};
ghost use Rattle.pcm_stream.specs.StandsFor.{StandsFor};
ghost use Rattle.pcm_text.specs.declared.status.Status.TheVariants as status;
ghost use Rattle.floor_rule.specs.declared.entry.Entry.{Entry};
ghost use Rattle.live_plan.specs.Sound.{IsSaveLine};
ghost use Rattle.live_top.specs.Ends.{AreOf};
ghost use Rattle.live_top.specs.Files.{AreLeft, IsSaveEnd, IsSavedUpTo, file_of, saved, with_file};

use crate::files::file_to_save;
use live_gather::Gathered;
use live_plan::Plan;
use pcm_base::Name;
use pcm_io::{Shelf, ShelfError};
use pcm_line::Line;
use pcm_text::Status;
use std::alloc::Global;

// What the card took, where it can be stored.
fn save<F: Shelf>(alloc: Global, one: &Gathered, name: &Name, shelf: &mut F) -> Result<(), Status>
    requires { (s : Stream) × StandsFor one.now.stream s }
    ensures saved { (s : Stream) → StandsFor one.now.stream s → OnOk result (Stay (with_file name.now (file_of s) (F.files shelf.old)) (F.files shelf.new)) }
    ensures others { result ≡ Err status.ShelfFault → OthersStay (F.files shelf.old) (F.files shelf.new) name.now }
    ensures memory { result ≡ Err status.Memory → Stay (F.files shelf.old) (F.files shelf.new) }
    ensures ended { IfErr result IsSaveEnd }
    ensures rose { result ≡ Err status.ShelfFault → Rose (F.faults shelf.old) (F.faults shelf.new) }
    ensures calm { result ≢ Err status.ShelfFault → F.faults shelf.new ≡ F.faults shelf.old }
{
    let file = match file_to_save(alloc, &one.stream) {
        Ok(Some(file)) => file,
        Ok(None) => return Ok(()),
        Err(_) => return Err(Status::Memory),
    };
    match shelf.store(name, &file) {
        Ok(()) => Ok(()),
        Err(ShelfError::Failed) => Err(Status::ShelfFault),
        Err(ShelfError::Memory) => Err(Status::Memory),
    }
}

fn save_line<F: Shelf>(
    alloc: Global,
    line: &Line,
    all: &[Gathered],
    shelf: &mut F,
) -> Result<(), Status>
    requires are { (logs : ℕ → List Entry) × (streams : ℕ → Stream) × AreOf logs streams all.now }
    requires line { IsSaveLine (length all.now) line.now }
    ensures saved { (logs : ℕ → List Entry) (streams : ℕ → Stream) → AreOf logs streams all.now
        → OnOk result (Stay (saved streams (line.now ∷ []) (F.files shelf.old)) (F.files shelf.new)) }
    ensures left { IfErr result (λ s. AreLeft (line.now ∷ []) s (F.files shelf.old) (F.files shelf.new)) }
    ensures ended { IfErr result IsSaveEnd }
    ensures rose { result ≡ Err status.ShelfFault → Rose (F.faults shelf.old) (F.faults shelf.new) }
    ensures calm { result ≢ Err status.ShelfFault → F.faults shelf.new ≡ F.faults shelf.old }
{
    match line {
        Line::Save(sub, name) => save(alloc, &all[usize::from(sub.0)], name, shelf),
        _ => Ok(()),
    }
}

/// Stores the files of the plan's saves in order. A save of a card whose frames cannot stand in such a file stores none.
pub(crate) fn save_all<F: Shelf>(
    alloc: Global,
    plan: &Plan,
    all: &[Gathered],
    shelf: &mut F,
) -> Result<(), Status>
    requires are { (logs : ℕ → List Entry) × (streams : ℕ → Stream) × AreOf logs streams all.now }
    requires lines { AllByRecursion (IsSaveLine (length all.now)) plan.now.saves.items }
    ensures saved { (logs : ℕ → List Entry) (streams : ℕ → Stream) → AreOf logs streams all.now
        → OnOk result (Stay (saved streams plan.now.saves.items (F.files shelf.old)) (F.files shelf.new)) }
    ensures some { (logs : ℕ → List Entry) (streams : ℕ → Stream) → AreOf logs streams all.now
        → IfErr result (IsSavedUpTo streams plan.now.saves.items (F.files shelf.old) (F.files shelf.new)) }
    ensures ended { IfErr result IsSaveEnd }
    ensures rose { result ≡ Err status.ShelfFault → Rose (F.faults shelf.old) (F.faults shelf.new) }
    ensures calm { result ≢ Err status.ShelfFault → F.faults shelf.new ≡ F.faults shelf.old }
{
    'saves: for line in &plan.saves {
        save_line(alloc, line, all, shelf)?;
    }
    Ok(())
}
