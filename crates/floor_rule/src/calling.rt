// A call of a pass that adds an entry to the log of one rec.
ghost use Rattle.std.specs.Prelude.{◌≡◌, ◌-◌, ◌+◌, ◌<◌, ◌^◌, ◌∷◌, ◌++◌, [], length};
ghost use mathlib.Core.List.{IsPrefix};
ghost use Rattle.floor_rule.specs.Causes.{Tells};
ghost use Rattle.floor_rule.specs.Lists.{Stands, longest};
ghost use Rattle.floor_rule.specs.Steps.{HoldsMore, MayEnter};
ghost use Rattle.floor_rule.specs.declared.entry.EntryMark.TheVariants.{Called};

use crate::entry::{Entry, EntryMark};
use crate::laws;
use crate::pass_seat::PassSeat;
use crate::rec_seat::RecSeat;
use crate::words::SharedWords;
use pcm_base::{Event, State};

/// The next call of a pass, whose entry the rec's log gains, with its receipt there. The pass's list of the log is then the
/// whole log, and goes on from the one before. `count` is the count of bytes that the caller handed in, and the state and
/// the hardware position in frames are those after the entry.
pub fn own_call(
    words: &SharedWords,
    rec: &mut RecSeat,
    pass: &mut PassSeat,
    event: &Event,
    count: u64,
    entry: &Entry,
    state: State,
    hw: u64,
)
    requires tables { (rec.old.table ≡ words.now.table) × (pass.old.table ≡ words.now.table) }
    requires card { rec.old.knows.sub < words.now.cards }
    requires room { (length rec.old.knows.log < 16777215) × (length pass.old.knows.calls < 2 ^ 64 - 1) }
    requires hw { hw < 2 ^ 36 }
    requires idle { length pass.old.knows.calls ≡ length pass.old.knows.receipts }
    requires tells { Tells rec.old.knows.sub entry.now event.now }
    ensures tables { (rec.new.table ≡ words.now.table) × (pass.new.table ≡ words.now.table) }
    ensures same { (rec.new.knows.sub ≡ rec.old.knows.sub) × (rec.new.knows.place ≡ rec.old.knows.place) × (pass.new.knows.number ≡ pass.old.knows.number) × (pass.new.knows.reads ≡ pass.old.knows.reads) }
    ensures log { rec.new.knows.log ≡ rec.old.knows.log ++ record { entry = entry.now; mark = Called state hw pass.old.knows.number (length pass.old.knows.calls) count } ∷ [] }
    ensures calls { pass.new.knows.calls ≡ pass.old.knows.calls ++ record { event = event.now; count = count } ∷ [] }
    ensures receipt { pass.new.knows.receipts ≡ pass.old.knows.receipts ++ (rec.old.knows.sub, length rec.old.knows.log) ∷ [] }
    ensures list { longest rec.old.knows.sub pass.new.knows.held.logs ≡ rec.new.knows.log }
    ensures onward { IsPrefix (longest rec.old.knows.sub pass.old.knows.held.logs) (longest rec.old.knows.sub pass.new.knows.held.logs) }
    ensures stands { Stands pass.new.knows.held.logs rec.old.knows.sub (length rec.old.knows.log) (record { entry = entry.now; mark = Called state hw pass.old.knows.number (length pass.old.knows.calls) count }) }
    ensures backed { MayEnter rec.new.knows (record { entry = entry.now; mark = Called state hw pass.old.knows.number (length pass.old.knows.calls) count }) }
    ensures held { HoldsMore rec.old.knows.held rec.new.knows.held × HoldsMore pass.old.knows.held pass.new.knows.held }
{
    laws::lists();
    let news = rec.copy_note(words);
    pass.take_note(words, news);
    pass.look(words);
    let mark = EntryMark::Called {
        state,
        hw,
        caller: pass.number(),
        number: pass.calls(),
        count,
    };
    let note = pass.begin(words, event, count);
    rec.take_note(words, note);
    rec.confirm(words);
    let place = rec.count();
    rec.publish(words, entry, &mark);
    let news = rec.copy_note(words);
    pass.take_note(words, news);
    pass.confirm(words, rec.sub(), place);
}

/// The next call of a pass, whose entry the logs of two recs gain, with its receipt in the first. It is a link of the two. The
/// pass's lists of both logs are then the whole logs, and go on from those before.
pub fn link_call(
    words: &SharedWords,
    first: &mut RecSeat,
    second: &mut RecSeat,
    pass: &mut PassSeat,
    event: &Event,
    entry: &Entry,
    first_mark: (State, u64),
    second_mark: (State, u64),
)
    requires tables { (first.old.table ≡ words.now.table) × (second.old.table ≡ words.now.table) × (pass.old.table ≡ words.now.table) }
    requires card { first.old.knows.sub < words.now.cards }
    requires room { (length first.old.knows.log < 16777215) × (length second.old.knows.log < 16777215) × (length pass.old.knows.calls < 2 ^ 64 - 1) }
    requires hw { (first_mark.1 < 2 ^ 36) × (second_mark.1 < 2 ^ 36) }
    requires idle { length pass.old.knows.calls ≡ length pass.old.knows.receipts }
    requires tells { Tells first.old.knows.sub entry.now event.now × Tells second.old.knows.sub entry.now event.now }
    ensures tables { (first.new.table ≡ words.now.table) × (second.new.table ≡ words.now.table) × (pass.new.table ≡ words.now.table) }
    ensures first { first.new.knows.log ≡ first.old.knows.log ++ record { entry = entry.now; mark = Called first_mark.0 first_mark.1 pass.old.knows.number (length pass.old.knows.calls) 0 } ∷ [] }
    ensures second { second.new.knows.log ≡ second.old.knows.log ++ record { entry = entry.now; mark = Called second_mark.0 second_mark.1 pass.old.knows.number (length pass.old.knows.calls) 0 } ∷ [] }
    ensures calls { pass.new.knows.calls ≡ pass.old.knows.calls ++ record { event = event.now; count = 0 } ∷ [] }
    ensures receipt { pass.new.knows.receipts ≡ pass.old.knows.receipts ++ (first.old.knows.sub, length first.old.knows.log) ∷ [] }
    ensures first_list { longest first.old.knows.sub pass.new.knows.held.logs ≡ first.new.knows.log }
    ensures second_list { longest second.old.knows.sub pass.new.knows.held.logs ≡ second.new.knows.log }
    ensures first_onward { IsPrefix (longest first.old.knows.sub pass.old.knows.held.logs) (longest first.old.knows.sub pass.new.knows.held.logs) }
    ensures second_onward { IsPrefix (longest second.old.knows.sub pass.old.knows.held.logs) (longest second.old.knows.sub pass.new.knows.held.logs) }
    ensures first_stands { Stands pass.new.knows.held.logs first.old.knows.sub (length first.old.knows.log) (record { entry = entry.now; mark = Called first_mark.0 first_mark.1 pass.old.knows.number (length pass.old.knows.calls) 0 }) }
    ensures second_stands { Stands pass.new.knows.held.logs second.old.knows.sub (length second.old.knows.log) (record { entry = entry.now; mark = Called second_mark.0 second_mark.1 pass.old.knows.number (length pass.old.knows.calls) 0 }) }
    ensures first_backed { MayEnter first.new.knows (record { entry = entry.now; mark = Called first_mark.0 first_mark.1 pass.old.knows.number (length pass.old.knows.calls) 0 }) }
    ensures second_backed { MayEnter second.new.knows (record { entry = entry.now; mark = Called second_mark.0 second_mark.1 pass.old.knows.number (length pass.old.knows.calls) 0 }) }
    ensures same { (first.new.knows.sub ≡ first.old.knows.sub) × (second.new.knows.sub ≡ second.old.knows.sub) × (first.new.knows.place ≡ first.old.knows.place) × (second.new.knows.place ≡ second.old.knows.place) × (pass.new.knows.number ≡ pass.old.knows.number) × (pass.new.knows.reads ≡ pass.old.knows.reads) }
    ensures first_held { HoldsMore first.old.knows.held first.new.knows.held }
    ensures second_held { HoldsMore second.old.knows.held second.new.knows.held }
    ensures pass_held { HoldsMore pass.old.knows.held pass.new.knows.held }
{
    let caller = pass.number();
    let number = pass.calls();
    let news = first.copy_note(words);
    pass.take_note(words, news);
    pass.look(words);
    let other_news = second.copy_note(words);
    pass.take_note(words, other_news);
    pass.look(words);
    let note = pass.begin(words, event, 0);
    first.take_note(words, note);
    first.confirm(words);
    let place = first.count();
    let mark = EntryMark::Called {
        state: first_mark.0,
        hw: first_mark.1,
        caller,
        number,
        count: 0,
    };
    first.publish(words, entry, &mark);
    let call = first.copy_note(words);
    second.take_note(words, call);
    second.confirm(words);
    let mark = EntryMark::Called {
        state: second_mark.0,
        hw: second_mark.1,
        caller,
        number,
        count: 0,
    };
    second.publish(words, entry, &mark);
    let told = second.copy_note(words);
    pass.take_note(words, told);
    let told = first.copy_note(words);
    pass.take_note(words, told);
    pass.confirm(words, first.sub(), place);
}
