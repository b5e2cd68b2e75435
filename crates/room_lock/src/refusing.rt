// The refusal of an event where a log takes no more entries.
ghost use Rattle.std.specs.Prelude.{◌≡◌, ◌<◌, length};
ghost use Rattle.room_lock.specs.Answers.{OnDone, OnFull, OnMemory};
ghost use Rattle.room_lock.specs.Ready.{IsFull};
ghost use Rattle.room_lock.specs.Refused.{IsRefused};

use crate::answer::Answer;
use floor_rule::SharedWords;
use room_parts::{FloorName, Pass, Rec, full_page};

/// The log of the rec at a place, the first such, takes no three entries more: the pass reads its page.
pub(crate) fn refuse<N: FloorName>(
    recs: &mut Vec<Rec<N>>,
    words: &SharedWords,
    pass: &mut Pass<N>,
    place: usize,
) -> Answer
    requires table { words.now.table ≡ N.table }
    requires cards { words.now.cards ≡ length N.cards }
    requires first { IsFull place recs.old.items }
    ensures refused { OnFull result (λ sub count. IsRefused place recs.old.items recs.new.items pass.old pass.new sub count) }
    ensures full { OnDone result (λ reply receipt woken. ⊥) × OnMemory result ⊥ }
{
    let sub = recs[place].sub();
    let page = full_page(words, &mut recs[place], pass);
    Answer::LogFull(sub, page.count)
}
