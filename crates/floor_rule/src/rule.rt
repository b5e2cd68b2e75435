// What the words hold and what each seat knows: the rule of the table, and what its steps tell.
use crate::entry::{Entry, EntryMark};
use atomic_table::{Join, Play, Split, Table, TableRule};
use pcm_base::Event;
use std::alloc::Global;
use std::collections::LinkedList;
use std::marker::{Brand, PhantomData};

/// An entry with its mark. No value of it is made, nor of the types below up to the rule.
pub struct Marked {
    pub entry: Entry,
    pub mark: EntryMark,
}

/// A call of a pass: its event, and the count of bytes that the caller handed in.
pub struct Made {
    pub event: Event,
    pub count: u64,
}

/// A page word that was read: its substream, the count of entries, and the word.
pub struct Reading {
    pub sub: u64,
    pub count: u64,
    pub word: u64,
}

/// What a seat is told: beginnings of logs by substream, beginnings of the lists of calls by pass, and page words.
pub struct Lists {
    pub logs: LinkedList<(u64, LinkedList<Marked>)>,
    pub calls: LinkedList<(u64, LinkedList<Made>)>,
    pub reads: LinkedList<Reading>,
}

/// How many recs and passes there are, and which recs have been taken in.
pub struct MakerKnows {
    pub recs: u64,
    pub passes: u64,
    pub roll: LinkedList<u64>,
}

/// The substream, its whole log, its place, and what it was told.
pub struct RecKnows {
    pub sub: u64,
    pub log: LinkedList<Marked>,
    pub place: u64,
    pub held: Lists,
}

/// The number of the pass, its calls, the receipts of them, the page words that it has read itself, and what it was told.
pub struct PassKnows {
    pub number: u64,
    pub calls: LinkedList<Made>,
    pub receipts: LinkedList<(u64, u64)>,
    pub reads: LinkedList<Reading>,
    pub held: Lists,
}

/// What a seat knows.
pub enum View {
    Maker(MakerKnows),
    Rec(RecKnows),
    Pass(PassKnows),
    Note(Lists),
    Spent,
}

/// The rule of the floor's table: which steps a seat may take, and what each one then knows.
pub struct FloorRule;

impl TableRule<(), View, u64> for FloorRule {
    ghost use Rattle.floor_rule.specs.Rule.{Kept, first_view};

    ghost holds = { Kept };

    ghost first = { first_view };
}

/// The table that the recs, the passes and the maker have seats at.
pub type Board = Table<(), View, u64, FloorRule, Global>;

/// The maker takes in a rec.
pub struct TakeRec;

impl Join<View> for TakeRec {
    ghost use Rattle.floor_rule.specs.Steps.{with_roll};
    ghost use Rattle.floor_rule.specs.declared.rule.View.TheVariants.{Spent};

    ghost both = { with_roll };

    ghost spent = { Spent };
}

/// The maker calls the roll of the recs that it has taken in.
pub struct CallRoll;

impl Play<(), View> for CallRoll {
    ghost use Rattle.floor_rule.specs.Steps.{IsRollCalled};

    ghost then = { IsRollCalled };
}

/// A seat for the next rec.
pub struct AddRec;

impl Split<View> for AddRec {
    ghost use Rattle.floor_rule.specs.Steps.{one_rec_more, next_rec};

    ghost left = { one_rec_more };

    ghost right = { next_rec };
}

/// A seat for the next pass.
pub struct AddPass;

impl Split<View> for AddPass {
    ghost use Rattle.floor_rule.specs.Steps.{one_pass_more, next_pass};

    ghost left = { one_pass_more };

    ghost right = { next_pass };
}

/// A rec moves to the place that it stores.
pub struct SetPlace;

impl Play<(), View> for SetPlace {
    ghost use Rattle.floor_rule.specs.Steps.{IsPlaced};

    ghost then = { IsPlaced };
}

/// Names the marked entry that a step publishes.
pub trait EntryName {
    ghost use Rattle.floor_rule.specs.declared.rule.Marked.{Marked};

    ghost entry: { Marked };
}

impl EntryName for Brand {
    ghost use Rattle.floor_rule.specs.Steps.{some_entry};

    ghost entry = { some_entry };
}

/// A rec's log gains the named entry.
pub struct Publish<E: EntryName> {
    of: PhantomData<E>,
}

impl<E: EntryName> Play<(), View> for Publish<E> {
    ghost use Rattle.floor_rule.specs.Steps.{IsPublished};

    ghost then = { IsPublished E.entry };
}

/// A pass reads a page word.
pub struct ReadPage;

impl Play<(), View> for ReadPage {
    ghost use Rattle.floor_rule.specs.Steps.{IsPageRead};

    ghost then = { IsPageRead };
}

/// A pass reads a place word.
pub struct ReadPlace;

impl Play<(), View> for ReadPlace {
    ghost use Rattle.floor_rule.specs.Steps.{IsPlaceRead};

    ghost then = { IsPlaceRead };
}

/// A pass looks at what it was told of its own calls.
pub struct Look;

impl Play<(), View> for Look {
    ghost use Rattle.floor_rule.specs.Steps.{IsLookedAt};

    ghost then = { IsLookedAt };
}

/// Names the call that a pass begins.
pub trait CallName {
    ghost use Rattle.floor_rule.specs.declared.rule.Made.{Made};

    ghost call: { Made };
}

impl CallName for Brand {
    ghost use Rattle.floor_rule.specs.Steps.{some_call};

    ghost call = { some_call };
}

/// A pass begins the named call, and a note tells of it.
pub struct Begin<C: CallName> {
    of: PhantomData<C>,
}

impl<C: CallName> Split<View> for Begin<C> {
    ghost use Rattle.floor_rule.specs.Steps.{one_call_more, call_note};

    ghost left = { λ v. one_call_more v C.call };

    ghost right = { λ v. call_note v C.call };
}

/// A rec copies its lists into a note.
pub struct CopyLog;

impl Split<View> for CopyLog {
    ghost use Rattle.floor_rule.specs.Steps.{rec_again, log_note};

    ghost left = { rec_again };

    ghost right = { log_note };
}

/// A pass copies its lists into a note.
pub struct CopyCalls;

impl Split<View> for CopyCalls {
    ghost use Rattle.floor_rule.specs.Steps.{pass_again, calls_note};

    ghost left = { pass_again };

    ghost right = { calls_note };
}

/// A rec takes a note.
pub struct RecTakes;

impl Join<View> for RecTakes {
    ghost use Rattle.floor_rule.specs.Steps.{rec_told};
    ghost use Rattle.floor_rule.specs.declared.rule.View.TheVariants.{Spent};

    ghost both = { rec_told };

    ghost spent = { Spent };
}

/// A pass takes a note.
pub struct PassTakes;

impl Join<View> for PassTakes {
    ghost use Rattle.floor_rule.specs.Steps.{pass_told};
    ghost use Rattle.floor_rule.specs.declared.rule.View.TheVariants.{Spent};

    ghost both = { pass_told };

    ghost spent = { Spent };
}

/// A rec's lists are beginnings of its log.
pub struct ConfirmLists;

impl Play<(), View> for ConfirmLists {
    ghost use Rattle.floor_rule.specs.Steps.{IsRecConfirmed};

    ghost then = { IsRecConfirmed };
}

/// Names the receipt of a call: a substream, and a place in its log.
pub trait ReceiptName {
    ghost use Rattle.std.specs.Prelude.{ℕ};

    ghost at: { ℕ × ℕ };
}

impl ReceiptName for Brand {
    ghost at = { (0, 0) };
}

/// A pass's last call has the named receipt.
pub struct ConfirmCall<R: ReceiptName> {
    of: PhantomData<R>,
}

impl<R: ReceiptName> Play<(), View> for ConfirmCall<R> {
    ghost use Rattle.floor_rule.specs.Steps.{IsPassConfirmed};

    ghost then = { IsPassConfirmed R.at };
}
