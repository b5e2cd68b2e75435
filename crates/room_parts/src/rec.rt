// A member's log with its seat.
ghost use Rattle.std.specs.Prelude.{◌≡◌, ◌∷◌, ◌++◌, ◌+◌, ◌<◌, ◌≤◌, ◌^◌, [], length, true, OnOk, OnErr, vec_len};
ghost use Rattle.floor_rule.specs.Marks.{is_new, shown_of};
ghost use Rattle.floor_rule.specs.Steps.{IsConfirmed, MayEnter, told_by_rec, with_entry};
ghost use Rattle.floor_rule.specs.Causes.{Causes};
ghost use Rattle.floor_rule.specs.Lists.{Stands};
ghost use Rattle.floor_rule.specs.Views.{both_lists};
ghost use Rattle.floor_rule.specs.declared.entry.Entry.TheVariants.{Moved as MovedEntry, Shared as SharedEntry};
ghost use Rattle.floor_rule.specs.declared.entry.EntryMark.TheVariants.{Caused};
ghost use Rattle.floor_rule.specs.declared.rule.Marked.{Marked};
ghost use Rattle.room_parts.specs.Recs.{IsBackedByItself, IsOfCard, entries_of};

use crate::name::FloorName;
use floor_rule::{Entry, EntryMark, Joint, Note, RecSeat, SharedWords};
use pcm_base::{State, SubId};
use std::alloc::{AllocError, Global};
use std::marker::{Model, PhantomData};

/// The log of one substream, and its seat at the words. Contracts see what the seat knows, and for how many more entries
/// there is room.
#[derive(Drop)]
pub struct Rec<N: FloorName> {
    pub(crate) entries: Vec<Entry>,
    pub(crate) seat: RecSeat,
    of: PhantomData<N>,
}

impl<N: FloorName> Model for Rec<N> {
    ghost use Rattle.std.specs.Prelude.{◌≡◌, ◌-◌, ◌<◌, length, vec_len, vec_capacity};
    ghost use Rattle.room_parts.specs.Recs.{IsBackedByItself, RecView, entries_of};

    ghost Value = { RecView };

    ghost view = { λ r. record { knows = r.seat.knows; spare = vec_capacity r.entries - vec_len r.entries } };

    ghost invariant = { λ r. (r.seat.table ≡ N.table) × (r.entries.items ≡ entries_of r.seat.knows.log) × (r.seat.knows.sub < length N.cards) × IsBackedByItself (length N.cards) r.seat.knows };
}

impl<N: FloorName> Rec<N> {
    /// A rec of this seat, with an empty log.
    pub fn new(alloc: Global, seat: RecSeat) -> Rec<N>
        requires table { seat.table ≡ N.table }
        requires card { seat.knows.sub < length N.cards }
        requires fresh { seat.knows.log ≡ [] }
        ensures { result.knows ≡ seat.knows }
    {
        Rec {
            entries: Vec::new(alloc),
            seat,
            of: PhantomData,
        }
    }

    /// The log, without its marks.
    pub fn entries(&self) -> &[Entry]
        ensures log { result.now ≡ entries_of self.now.knows.log }
        ensures backed { IsBackedByItself (length N.cards) self.now.knows }
    {
        self.entries.as_slice()
    }

    /// The substream of the rec.
    pub fn sub(&self) -> SubId
        ensures sub { result.0 ≡ self.now.knows.sub }
        ensures card { result.0 < length N.cards }
    {
        self.seat.sub()
    }

    /// Adds a joint of an act that another member's event made: the note tells of the entry of that event, at this place of
    /// that member's log. The state and the hardware position in frames are those after the joint.
    pub fn join(
        &mut self,
        words: &SharedWords,
        news: Note,
        joint: Joint,
        state: State,
        hw: u64,
        sub: SubId,
        place: u32,
    )
        requires table { (words.now.table ≡ N.table) × (news.table ≡ N.table) }
        requires card { sub.0 < length N.cards }
        requires spare { 0 < self.old.spare }
        requires room { length self.old.knows.log < 16777215 }
        requires low { hw < 2 ^ 36 }
        requires cause { (c : Marked) × Stands news.lists.logs sub.0 place c × Causes c.entry (SharedEntry joint) }
        ensures log { self.new.knows.log ≡ self.old.knows.log ++ record { entry = SharedEntry joint; mark = Caused state hw sub place } ∷ [] }
        ensures same { (self.new.knows.sub ≡ self.old.knows.sub) × (self.new.knows.place ≡ self.old.knows.place) }
        ensures spare { self.new.spare + 1 ≡ self.old.spare }
    {
        self.hear(words, news);
        let mark = EntryMark::Caused {
            state,
            hw,
            sub,
            place,
        };
        self.add(words, Entry::Shared(joint), &mark);
    }

    /// Moves to this room, by a link or an unlink that was answered Ok: the note tells of its entry, at this place of the log
    /// of `sub`. The state and the hardware position in frames are those after the move.
    pub fn move_to(
        &mut self,
        words: &SharedWords,
        news: Note,
        room: u32,
        state: State,
        hw: u64,
        sub: SubId,
        place: u32,
    )
        requires table { (words.now.table ≡ N.table) × (news.table ≡ N.table) }
        requires there { room < 32 }
        requires card { sub.0 < length N.cards }
        requires spare { 0 < self.old.spare }
        requires room { length self.old.knows.log < 16777215 }
        requires low { hw < 2 ^ 36 }
        requires cause { (c : Marked) × Stands news.lists.logs sub.0 place c × Causes c.entry (MovedEntry room) }
        ensures log { self.new.knows.log ≡ self.old.knows.log ++ record { entry = MovedEntry room; mark = Caused state hw sub place } ∷ [] }
        ensures place { self.new.knows.place ≡ room }
        ensures same { self.new.knows.sub ≡ self.old.knows.sub }
        ensures spare { self.new.spare + 1 ≡ self.old.spare }
    {
        self.hear(words, news);
        self.seat.set_place(words, room);
        let mark = EntryMark::Caused {
            state,
            hw,
            sub,
            place,
        };
        self.add(words, Entry::Moved { room }, &mark);
    }

    /// Makes room for three more entries.
    pub fn reserve(&mut self) -> Result<(), AllocError>
        ensures same { self.new.knows ≡ self.old.knows }
        ensures room { OnOk result (3 ≤ self.new.spare) }
    {
        self.entries.reserve(3)?;
        Ok(())
    }

    /// Adds an entry, and publishes it with its mark.
    pub fn add(&mut self, words: &SharedWords, entry: Entry, mark: &EntryMark)
        requires table { words.now.table ≡ N.table }
        requires spare { 0 < self.old.spare }
        requires room { length self.old.knows.log < 16777215 }
        requires low { (shown_of mark.now).hw < 2 ^ 36 }
        requires new { is_new mark.now self.old.knows.log ≡ true }
        requires backed { MayEnter self.old.knows (record { entry = entry; mark = mark.now }) }
        requires card { IsOfCard (length N.cards) mark.now }
        ensures log { self.new.knows ≡ with_entry self.old.knows (record { entry = entry; mark = mark.now }) }
        ensures spare { self.new.spare + 1 ≡ self.old.spare }
    {
        self.seat.publish(words, &entry, mark);
        self.entries.push_reserved(entry);
    }

    /// A note of the whole log and of all that the rec was told.
    pub fn tell(&mut self, words: &SharedWords) -> Note
        requires table { words.now.table ≡ N.table }
        ensures same { self.new ≡ self.old }
        ensures note { result ≡ record { table = N.table; lists = told_by_rec self.old.knows } }
        ensures backed { IsBackedByItself (length N.cards) self.old.knows }
    {
        self.seat.copy_note(words)
    }

    /// The rec is told what the note tells.
    pub fn hear(&mut self, words: &SharedWords, note: Note)
        requires table { words.now.table ≡ N.table }
        requires note { note.table ≡ N.table }
        ensures { self.new ≡ record self.old { knows = record self.old.knows { held = both_lists note.lists self.old.knows.held } } }
    {
        self.seat.take_note(words, note);
    }

    /// The lists of this log, and the pages of it, that the rec was told are confirmed.
    pub fn confirm(&mut self, words: &SharedWords)
        requires table { words.now.table ≡ N.table }
        ensures confirmed { IsConfirmed self.old.knows }
        ensures same { self.new ≡ self.old }
    {
        self.seat.confirm(words);
    }

    /// The log without its marks, and the seat.
    pub fn into_parts(self) -> (Vec<Entry>, RecSeat)
        ensures log { result.0.items ≡ entries_of self.knows.log }
        ensures seat { result.1 ≡ record { table = N.table; knows = self.knows } }
        ensures backed { IsBackedByItself (length N.cards) self.knows }
    {
        (self.entries, self.seat)
    }
}
