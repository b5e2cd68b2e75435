// The seat of a pass.
ghost use Rattle.std.specs.Prelude.{◌≡◌, ◌+◌, ◌-◌, ◌<◌, ◌^◌, ℕ, [], length, true};
ghost use Rattle.floor_rule.specs.Lists.{Stands};
ghost use Rattle.floor_rule.specs.Marks.{Shown, is_call};
ghost use Rattle.floor_rule.specs.Seats.{IsPass};
ghost use Rattle.floor_rule.specs.Steps.{IsPage, KnowsOwn, told_by_pass, with_call, with_page, with_receipt};
ghost use Rattle.floor_rule.specs.Views.{both_lists, pass_of};
ghost use Rattle.floor_rule.specs.declared.rule.Marked.{Marked};
ghost use Rattle.floor_rule.specs.declared.rule.View.TheVariants.{Pass, Note as NoteView};

use crate::note::Note;
use crate::rule::{
    Begin, Board, CallName, ConfirmCall, CopyCalls, Look, PassTakes, ReadPage, ReadPlace,
    ReceiptName, View,
};
use crate::words::SharedWords;
use atomic_table::Seat;
use pcm_base::{Event, SubId};
use std::marker::{Brand, Model};

/// The seat of a pass. Contracts see its number, its calls with their receipts, and what it was told and has read.
#[derive(Drop)]
pub struct PassSeat {
    pub(crate) seat: Seat<(), View>,
    pub(crate) number: u32,
    pub(crate) calls: u64,
}

impl Model for PassSeat {
    ghost use Rattle.std.specs.Prelude.{◌≡◌, length};
    ghost use Rattle.floor_rule.specs.Seats.{PassSees, IsPass};
    ghost use Rattle.floor_rule.specs.Views.{pass_of};

    ghost Value = { PassSees };

    ghost view = { λ s. record { table = s.seat.table_id; knows = pass_of s.seat.me.0 } };

    ghost invariant = { λ s. IsPass s.seat.me × (s.number ≡ (pass_of s.seat.me.0).number) × (s.calls ≡ length (pass_of s.seat.me.0).calls) };
}

// Begins the named call.
fn begin_named<C: CallName>(
    board: &Board,
    seat: &mut Seat<(), View>,
    event: &Event,
    count: u64,
) -> Seat<(), View>
    requires table { (seat.old.table_id ≡ board.now.shared.table_id) × (0 < board.now.shared.table_id.words) }
    requires pass { IsPass seat.old.me }
    requires idle { length (pass_of seat.old.me.0).calls ≡ length (pass_of seat.old.me.0).receipts }
    requires named { C.call ≡ record { event = event.now; count = count } }
    ensures table { (seat.new.table_id ≡ seat.old.table_id) × (result.table_id ≡ seat.old.table_id) }
    ensures pass { seat.new.me ≡ (Pass (with_call (pass_of seat.old.me.0) (record { event = event.now; count = count })), seat.old.me.1) }
    ensures note { result.me ≡ (NoteView (told_by_pass (with_call (pass_of seat.old.me.0) (record { event = event.now; count = count }))), []) }
{
    board.shared.split_seat::<Begin<C>>(seat)
}

// Confirms the named receipt of the last call.
fn confirm_named<R: ReceiptName>(board: &Board, seat: &mut Seat<(), View>, sub: usize, index: u32)
    requires table { (seat.old.table_id ≡ board.now.shared.table_id) × (sub < board.now.shared.table_id.words) }
    requires pass { IsPass seat.old.me }
    requires open { length (pass_of seat.old.me.0).receipts < length (pass_of seat.old.me.0).calls }
    requires stands { (e : Marked) × Stands (pass_of seat.old.me.0).held.logs sub index e × (is_call (pass_of seat.old.me.0).number (length (pass_of seat.old.me.0).receipts) e.mark ≡ true) }
    requires named { R.at ≡ (sub, index) }
    ensures table { seat.new.table_id ≡ seat.old.table_id }
    ensures knows { KnowsOwn (pass_of seat.old.me.0) }
    ensures pass { seat.new.me ≡ (Pass (with_receipt (pass_of seat.old.me.0) (sub, index)), seat.old.me.1) }
{
    board.shared.load::<ConfirmCall<R>>(seat, sub);
}

impl PassSeat {
    /// The number of the pass.
    pub fn number(&self) -> u32
        ensures { result ≡ self.now.knows.number }
    {
        self.number
    }

    /// How many calls the pass has begun: the number of the next.
    pub fn calls(&self) -> u64
        ensures { result ≡ length self.now.knows.calls }
    {
        self.calls
    }

    /// The page word of a substream. It goes beyond nothing that the pass has seen of that log.
    pub fn read_page(&mut self, words: &SharedWords, sub: SubId) -> u64
        requires table { self.old.table ≡ words.now.table }
        requires card { sub.0 < words.now.cards }
        ensures { (k : ℕ) × (shown : Shown) × IsPage sub.0 result self.old.knows k shown × (self.new ≡ record self.old { knows = with_page self.old.knows sub.0 k result }) }
    {
        words
            .board
            .shared
            .load::<ReadPage>(&mut self.seat, usize::from(sub.0))
    }

    /// The room of a substream.
    pub fn read_place(&mut self, words: &SharedWords, sub: SubId) -> u32
        requires table { self.old.table ≡ words.now.table }
        requires card { sub.0 < words.now.cards }
        ensures room { result < 32 }
        ensures same { self.new ≡ self.old }
    {
        let word = words.cards as usize + usize::from(sub.0);
        words.board.shared.load::<ReadPlace>(&mut self.seat, word) as u32
    }

    /// Looks at what the pass was told of its own calls. Nothing changes.
    pub fn look(&mut self, words: &SharedWords)
        requires table { self.old.table ≡ words.now.table }
        ensures knows { KnowsOwn self.old.knows }
        ensures same { self.new ≡ self.old }
    {
        words.board.shared.load::<Look>(&mut self.seat, 0);
    }

    /// The next call of this pass, with so many bytes handed in, and a note that tells of it.
    pub fn begin(&mut self, words: &SharedWords, event: &Event, count: u64) -> Note
        requires table { self.old.table ≡ words.now.table }
        requires idle { length self.old.knows.calls ≡ length self.old.knows.receipts }
        requires room { length self.old.knows.calls < 2 ^ 64 - 1 }
        ensures call { self.new ≡ record self.old { knows = with_call self.old.knows (record { event = event.now; count = count }) } }
        ensures note { result ≡ record { table = self.old.table; lists = told_by_pass (with_call self.old.knows (record { event = event.now; count = count })) } }
    {
        let seat = begin_named::<Brand>(&words.board, &mut self.seat, event, count);
        self.calls += 1;
        Note { seat }
    }

    /// A note of the calls of this pass and of all that it was told.
    pub fn copy_note(&mut self, words: &SharedWords) -> Note
        requires table { self.old.table ≡ words.now.table }
        ensures same { self.new ≡ self.old }
        ensures note { result ≡ record { table = self.old.table; lists = told_by_pass self.old.knows } }
    {
        let seat = words.board.shared.split_seat::<CopyCalls>(&mut self.seat);
        Note { seat }
    }

    /// The pass is told what the note tells.
    pub fn take_note(&mut self, words: &SharedWords, note: Note)
        requires table { self.old.table ≡ words.now.table }
        requires note { note.table ≡ words.now.table }
        ensures { self.new ≡ record self.old { knows = record self.old.knows { held = both_lists note.lists self.old.knows.held } } }
    {
        let Note { seat } = note;
        words
            .board
            .shared
            .join_seat::<PassTakes>(&mut self.seat, seat);
    }

    /// The last call has this receipt: its entry stands there, in a list that the pass holds. The lists that it holds of one
    /// log are beginnings of the longest.
    pub fn confirm(&mut self, words: &SharedWords, sub: SubId, index: u32)
        requires table { self.old.table ≡ words.now.table }
        requires card { sub.0 < words.now.cards }
        requires open { length self.old.knows.receipts < length self.old.knows.calls }
        requires stands { (e : Marked) × Stands self.old.knows.held.logs sub.0 index e × (is_call self.old.knows.number (length self.old.knows.receipts) e.mark ≡ true) }
        ensures knows { KnowsOwn self.old.knows }
        ensures receipt { self.new ≡ record self.old { knows = with_receipt self.old.knows (sub.0, index) } }
    {
        confirm_named::<Brand>(&words.board, &mut self.seat, usize::from(sub.0), index);
    }
}
