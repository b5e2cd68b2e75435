// The shared words, and the seat that makes the others.
ghost use Rattle.std.specs.Prelude.{◌≡◌, ◌+◌, ◌<◌, ◌≤◌, ◌^◌, ◌-◌, [], ◌∷◌, length, IfOk, ℕ, slice_index};
ghost use Rattle.floor_rule.specs.Pages.{closed, page_word};
ghost use Rattle.floor_rule.specs.Rule.{Distinct};
ghost use Rattle.floor_rule.specs.Steps.{AllBelow};
ghost use Rattle.floor_rule.specs.Views.{no_lists};

use crate::pass_seat::PassSeat;
use crate::rec_seat::RecSeat;
use crate::rule::{AddPass, AddRec, Board, CallRoll, TakeRec, View};
use atomic_table::Seat;
use pcm_base::SubId;
use std::alloc::{AllocError, Global};
use std::marker::Model;

/// The words that a floor shares: a page word and a place word for each substream. Contracts see of which table they are,
/// and for how many substreams there are words.
#[derive(Drop)]
pub struct SharedWords {
    pub(crate) board: Board,
    pub(crate) cards: u64,
}

impl Model for SharedWords {
    ghost use Rattle.std.specs.Prelude.{◌≡◌, ◌+◌, ◌<◌, ◌≤◌};
    ghost use Rattle.floor_rule.specs.Seats.{Words};

    ghost Value = { Words };

    ghost view = { λ s. record { table = s.board.shared.table_id; cards = s.cards } };

    ghost invariant = { λ s. (s.board.shared.key ≡ s.cards) × (s.board.shared.table_id.words ≡ s.cards + s.cards) × (0 < s.cards) × (s.cards ≤ 16) };
}

/// The seat that makes the others. Contracts see how many recs and passes it has made.
#[derive(Drop)]
pub struct Maker {
    pub(crate) seat: Seat<(), View>,
    recs: u8,
    passes: u32,
}

impl Model for Maker {
    ghost use Rattle.std.specs.Prelude.{◌≡◌, ◌≤◌};
    ghost use Rattle.floor_rule.specs.Seats.{MakerSees, IsMaker};
    ghost use Rattle.floor_rule.specs.Views.{maker_of};

    ghost Value = { MakerSees };

    ghost view = { λ s. record { table = s.seat.table_id; knows = maker_of s.seat.me.0 } };

    ghost invariant = { λ s. IsMaker s.seat.me × (s.recs ≡ (maker_of s.seat.me.0).recs) × (s.recs ≤ 16) × (s.passes ≡ (maker_of s.seat.me.0).passes) };
}

// The words before any entry: each page is that of an empty log, and each substream is in its own room.
fn laid(cards: usize) -> [u64; 32]
    requires { cards ≤ 16 }
    ensures length { length result ≡ 32 }
    ensures words { (j : ℕ) → j < cards → (slice_index result j ≡ page_word 0 closed) × (slice_index result (cards + j) ≡ j) }
{
    let mut words = [0; 32];
    for j in 0..cards {
        words[j] = 1_030_792_151_040;
        words[cards + j] = j as u64;
    }
    words
}

impl SharedWords {
    /// Words for so many substreams, each with an empty log and in the room of its number; and the maker of their seats.
    pub fn new(alloc: Global, cards: u64) -> Result<(SharedWords, Maker), AllocError>
        requires some { 0 < cards }
        requires few { cards ≤ 16 }
        ensures words { IfOk result (λ r. r.0.cards ≡ cards) }
        ensures maker { IfOk result (λ r. r.1 ≡ record { table = r.0.table; knows = record { recs = 0; passes = 0; roll = [] } }) }
    {
        let count = cards as usize;
        let words = laid(count);
        let (board, seat) = Board::of_words(alloc, &words[..2 * count], &cards)?;
        Ok((
            SharedWords { board, cards },
            Maker {
                seat,
                recs: 0,
                passes: 0,
            },
        ))
    }
}

impl Maker {
    /// The seat of the next substream's rec, with an empty log and in its own room.
    pub fn add_rec(&mut self, words: &SharedWords) -> RecSeat
        requires table { self.old.table ≡ words.now.table }
        requires room { self.old.knows.recs < words.now.cards }
        ensures maker { self.new ≡ record self.old { knows = record self.old.knows { recs = self.old.knows.recs + 1 } } }
        ensures seat { result ≡ record { table = self.old.table; knows = record { sub = self.old.knows.recs; log = []; place = self.old.knows.recs; held = no_lists } } }
    {
        let seat = words.board.shared.split_seat::<AddRec>(&mut self.seat);
        let sub = SubId(self.recs);
        self.recs += 1;
        RecSeat {
            seat,
            sub,
            count: 0,
        }
    }

    /// The seat of the next pass, with no calls.
    pub fn add_pass(&mut self, words: &SharedWords) -> PassSeat
        requires table { self.old.table ≡ words.now.table }
        requires room { self.old.knows.passes < 2 ^ 32 - 1 }
        ensures maker { self.new ≡ record self.old { knows = record self.old.knows { passes = self.old.knows.passes + 1 } } }
        ensures seat { result ≡ record { table = self.old.table; knows = record { number = self.old.knows.passes; calls = []; receipts = []; reads = []; held = no_lists } } }
    {
        let seat = words.board.shared.split_seat::<AddPass>(&mut self.seat);
        let number = self.passes;
        self.passes += 1;
        PassSeat {
            seat,
            number,
            calls: 0,
        }
    }

    /// Takes a rec in, whose log then changes no more.
    pub fn take_rec(&mut self, words: &SharedWords, rec: RecSeat)
        requires table { self.old.table ≡ words.now.table }
        requires rec { rec.table ≡ words.now.table }
        ensures { self.new ≡ record self.old { knows = record self.old.knows { roll = rec.knows.sub ∷ self.old.knows.roll } } }
    {
        let RecSeat { seat, .. } = rec;
        words
            .board
            .shared
            .join_seat::<TakeRec>(&mut self.seat, seat);
    }

    /// Calls the roll of the recs that were taken in: each is there once.
    pub fn call_roll(&mut self, words: &SharedWords)
        requires table { self.old.table ≡ words.now.table }
        ensures once { Distinct self.old.knows.roll }
        ensures below { AllBelow self.old.knows.recs self.old.knows.roll }
        ensures same { self.new ≡ self.old }
    {
        words.board.shared.load::<CallRoll>(&mut self.seat, 0);
    }
}
