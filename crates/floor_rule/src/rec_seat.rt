// The seat of a rec.
ghost use Rattle.std.specs.Prelude.{◌≡◌, ◌+◌, ◌<◌, ◌^◌, [], length, true};
ghost use Rattle.floor_rule.specs.Marks.{is_new, shown_of};
ghost use Rattle.floor_rule.specs.Pages.{page_word};
ghost use Rattle.floor_rule.specs.Seats.{IsRec};
ghost use Rattle.floor_rule.specs.Steps.{IsConfirmed, MayEnter, told_by_rec, with_entry};
ghost use Rattle.floor_rule.specs.Views.{both_lists, rec_of};
ghost use Rattle.floor_rule.specs.declared.rule.View.TheVariants.{Rec};

use crate::entry::{Entry, EntryMark};
use crate::note::Note;
use crate::page::pack;
use crate::rule::{Board, ConfirmLists, CopyLog, EntryName, Publish, RecTakes, SetPlace, View};
use crate::words::SharedWords;
use atomic_table::Seat;
use pcm_base::SubId;
use std::marker::{Brand, Model};

/// The seat of one substream's rec. Contracts see its marked log, its place and what it was told.
#[derive(Drop)]
pub struct RecSeat {
    pub(crate) seat: Seat<(), View>,
    pub(crate) sub: SubId,
    pub(crate) count: u32,
}

impl Model for RecSeat {
    ghost use Rattle.std.specs.Prelude.{◌≡◌, ◌+◌, ◌<◌, length};
    ghost use Rattle.floor_rule.specs.Seats.{RecSees, IsRec};
    ghost use Rattle.floor_rule.specs.Views.{rec_of};

    ghost Value = { RecSees };

    ghost view = { λ s. record { table = s.seat.table_id; knows = rec_of s.seat.me.0 } };

    ghost invariant = { λ s. IsRec s.seat.me × (s.sub.0 ≡ (rec_of s.seat.me.0).sub) × (s.count ≡ length (rec_of s.seat.me.0).log) × (s.sub.0 + s.sub.0 < s.seat.table_id.words) };
}

// Stores the page word of the named entry.
fn store_named<E: EntryName>(
    board: &Board,
    seat: &mut Seat<(), View>,
    sub: usize,
    new: u64,
    entry: &Entry,
    mark: &EntryMark,
)
    requires table { seat.old.table_id ≡ board.now.shared.table_id }
    requires card { sub < board.now.shared.table_id.words }
    requires rec { IsRec seat.old.me × (sub ≡ (rec_of seat.old.me.0).sub) }
    requires named { E.entry ≡ record { entry = entry.now; mark = mark.now } }
    requires room { length (rec_of seat.old.me.0).log < 16777215 }
    requires low { (shown_of mark.now).hw < 2 ^ 36 }
    requires new { is_new mark.now (rec_of seat.old.me.0).log ≡ true }
    requires backed { MayEnter (rec_of seat.old.me.0) (record { entry = entry.now; mark = mark.now }) }
    requires word { new ≡ page_word (length (rec_of seat.old.me.0).log + 1) (shown_of mark.now) }
    ensures table { seat.new.table_id ≡ seat.old.table_id }
    ensures log { seat.new.me ≡ (Rec (with_entry (rec_of seat.old.me.0) (record { entry = entry.now; mark = mark.now })), seat.old.me.1) }
{
    board.shared.store::<Publish<E>>(seat, sub, new);
}

impl RecSeat {
    /// The substream of the rec.
    pub fn sub(&self) -> SubId
        ensures { result.0 ≡ self.now.knows.sub }
    {
        self.sub
    }

    /// How many entries its log has.
    pub fn count(&self) -> u32
        ensures { result ≡ length self.now.knows.log }
    {
        self.count
    }

    /// The rec stands in this room from now on.
    pub fn set_place(&mut self, words: &SharedWords, room: u32)
        requires table { self.old.table ≡ words.now.table }
        requires room { room < 32 }
        ensures { self.new ≡ record self.old { knows = record self.old.knows { place = room } } }
    {
        let word = words.cards as usize + usize::from(self.sub.0);
        words
            .board
            .shared
            .store::<SetPlace>(&mut self.seat, word, u64::from(room));
    }

    /// The log gains this entry with this mark, and the page word shows it. An own entry or a link is that of a call in a
    /// list that the rec holds, of which the log has no entry yet; the cause of a shared entry or a move stands in the log
    /// or in a list that the rec holds.
    pub fn publish(&mut self, words: &SharedWords, entry: &Entry, mark: &EntryMark)
        requires table { self.old.table ≡ words.now.table }
        requires room { length self.old.knows.log < 16777215 }
        requires low { (shown_of mark.now).hw < 2 ^ 36 }
        requires new { is_new mark.now self.old.knows.log ≡ true }
        requires backed { MayEnter self.old.knows (record { entry = entry.now; mark = mark.now }) }
        ensures { self.new ≡ record self.old { knows = with_entry self.old.knows (record { entry = entry.now; mark = mark.now }) } }
    {
        let word = pack(self.count + 1, mark.state(), mark.hw());
        let sub = usize::from(self.sub.0);
        store_named::<Brand>(&words.board, &mut self.seat, sub, word, entry, mark);
        self.count += 1;
    }

    /// A note of the whole log and of all that the rec was told.
    pub fn copy_note(&mut self, words: &SharedWords) -> Note
        requires table { self.old.table ≡ words.now.table }
        ensures same { self.new ≡ self.old }
        ensures note { result ≡ record { table = self.old.table; lists = told_by_rec self.old.knows } }
    {
        let seat = words.board.shared.split_seat::<CopyLog>(&mut self.seat);
        Note { seat }
    }

    /// The rec is told what the note tells.
    pub fn take_note(&mut self, words: &SharedWords, note: Note)
        requires table { self.old.table ≡ words.now.table }
        requires note { note.table ≡ words.now.table }
        ensures { self.new ≡ record self.old { knows = record self.old.knows { held = both_lists note.lists self.old.knows.held } } }
    {
        let Note { seat } = note;
        words
            .board
            .shared
            .join_seat::<RecTakes>(&mut self.seat, seat);
    }

    /// Reads the rec's own page word, which is that of its whole log: the lists of this log and the pages of it that the rec
    /// was told are confirmed.
    pub fn confirm(&mut self, words: &SharedWords)
        requires table { self.old.table ≡ words.now.table }
        ensures confirmed { IsConfirmed self.old.knows }
        ensures same { self.new ≡ self.old }
    {
        let sub = usize::from(self.sub.0);
        words.board.shared.load::<ConfirmLists>(&mut self.seat, sub);
    }
}
